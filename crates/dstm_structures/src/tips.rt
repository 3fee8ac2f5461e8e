// How keys are added to the order of a map, and taken out.
ghost use Rattle.std.specs.Prelude.{◌≡◌, ◌≢◌, ◌+◌, ◌*◌, ◌/◌, ◌^◌, ◌<◌, ◌≤◌, List, false, if◌then◌else◌, nat_lt, IfErr, IfOk, IfSome, OnOk};
ghost use Rattle.dstm_attempts.specs.Attempts.{StoodTogether};
ghost use Rattle.dstm_cells.specs.UnderWay.{MayBegin};
ghost use Rattle.dstm_model.specs.declared.value.Val.{Val};
ghost use Rattle.dstm_structures.specs.Effects.{Does, GoesOn, StillMay, StillTogether, Stops};
ghost use Rattle.dstm_structures.specs.Orders.{order_end};
ghost use Rattle.dstm_structures.specs.Tips.{AddsBeside, AddsKey, AddsOver, AddsTip, DropsKey, DropsTip, FreesFork, LooksFork, SeeksFork, SetsFork, SetsRoot, SetsSide};

use crate::cells::behind;
use crate::order::{Fork, Link, Order, fork_of, held_of, to_fork, to_tip};
use dstm_cells::{Attempt, Holds, Stop};
use dstm_model::Law;

// A key that is added: itself, its place, and the cell of the fork that parts it from others.
#[derive(Clone, Copy)]
struct Added {
    key: u64,
    at: u32,
    cell: u32,
}

impl Order {
    // Adds a key that is not there and stands at this place, by a fork in this cell.
    pub(crate) fn add<L: Law, S: Holds<L>>(
        self,
        tx: &mut Attempt<L, S>,
        key: u64,
        at: u32,
        cell: u32,
    ) -> Result<(), Stop>
        requires at { at < self.cells.capacity }
        requires cell { cell < self.cells.capacity }
        ensures goes { GoesOn L.holds tx.old tx.new }
        ensures stops { IfErr result (λ stop. Stops (order_end self.cells) tx.old.notes tx.old tx.new stop.why) }
        ensures adds { OnOk result (Does L.holds (order_end self.cells) (AddsKey self.cells key at cell)
            tx.old.attempts.caller tx.new.attempts.caller) }
        ensures together { OnOk result (StoodTogether L.holds tx.new.attempts.caller) }
        ensures may { OnOk result ((map : List Val) × MayBegin L.holds tx.new.attempts.caller map) }
    {
        let root = tx.get(self.root_at())?;
        let now = self.add_below(tx, Added { key, at, cell }, root, 64)?;
        self.set_root(tx, root, now)?;
        Ok(())
    }

    // Takes a key out that stands at this place.
    pub(crate) fn drop_key<L: Law, S: Holds<L>>(
        self,
        tx: &mut Attempt<L, S>,
        key: u64,
        at: u32,
    ) -> Result<(), Stop>
        ensures goes { GoesOn L.holds tx.old tx.new }
        ensures stops { IfErr result (λ stop. Stops (order_end self.cells) tx.old.notes tx.old tx.new stop.why) }
        ensures drops { OnOk result (Does L.holds (order_end self.cells) (DropsKey self.cells key at)
            tx.old.attempts.caller tx.new.attempts.caller) }
        ensures together { OnOk result (StoodTogether L.holds tx.new.attempts.caller) }
        ensures may { OnOk result ((map : List Val) × MayBegin L.holds tx.new.attempts.caller map) }
    {
        let root = tx.get(self.root_at())?;
        let now = self.drop_below(tx, key, at, root, 64)?;
        self.set_root(tx, root, now)?;
        Ok(())
    }

    // The first fork's cell that is free, from this one on, in a circle.
    pub(crate) fn free_fork<L: Law, S: Holds<L>>(
        self,
        tx: &mut Attempt<L, S>,
        home: u32,
    ) -> Result<Option<u32>, Stop>
        requires { home < self.cells.capacity }
        ensures goes { GoesOn L.holds tx.old tx.new }
        ensures stops { IfErr result (λ stop. Stops (order_end self.cells) false tx.old tx.new stop.why) }
        ensures within { IfOk result (λ free. IfSome free (λ cell. cell < self.cells.capacity)) }
        ensures seeks { IfOk result (λ free. Does L.holds (order_end self.cells) (SeeksFork self.cells free)
            tx.old.attempts.caller tx.new.attempts.caller) }
        ensures together { OnOk result (StillTogether L.holds tx.old.attempts.caller tx.new.attempts.caller) }
        ensures may { OnOk result (StillMay L.holds tx.old.attempts.caller tx.new.attempts.caller) }
    {
        for passed in 0..self.cells.capacity {
            let cell = behind(self.cells.capacity, home, passed);
            let held = tx.get(self.fork_at(cell))?;
            if held.1 == 0 {
                return Ok(Some(cell));
            }
        }
        Ok(None)
    }

    // Adds a key below a link, and answers the link that leads there now. The levels below the link are below this one.
    fn add_below<L: Law, S: Holds<L>>(
        self,
        tx: &mut Attempt<L, S>,
        added: Added,
        link: u64,
        under: u32,
    ) -> Result<u64, Stop>
        requires at { added.at < self.cells.capacity }
        requires cell { added.cell < self.cells.capacity }
        requires under { under ≤ 64 }
        ensures goes { GoesOn L.holds tx.old tx.new }
        ensures stops { IfErr result (λ stop. Stops (order_end self.cells) tx.old.notes tx.old tx.new stop.why) }
        ensures few { IfOk result (λ now. now < 268435456) }
        ensures adds { IfOk result (λ now. Does L.holds (order_end self.cells)
            (AddsTip self.cells added.key added.at added.cell link under now)
            tx.old.attempts.caller tx.new.attempts.caller) }
        ensures together { OnOk result (StillTogether L.holds tx.old.attempts.caller tx.new.attempts.caller) }
        ensures may { OnOk result (StillMay L.holds tx.old.attempts.caller tx.new.attempts.caller) }
    {
        match self.link(link) {
            Link::Nothing => Ok(to_tip(added.at)),
            Link::Tip(place) => {
                let now = self.add_beside(tx, added, place)?;
                Ok(now)
            }
            Link::Fork(over) => {
                let fork = self.look_fork(tx, over)?;
                if fork.level >= under {
                    return Ok(to_fork(over));
                }
                let part = added.key >> fork.level;
                if part / 2 != fork.prefix {
                    let now = self.add_over(tx, added, over, fork)?;
                    return Ok(now);
                }
                let greater = part % 2 == 1;
                let now = self.add_below(tx, added, fork.side(greater), fork.level)?;
                self.set_side(tx, over, fork, greater, now)?;
                Ok(to_fork(over))
            }
        }
    }

    // Adds a key beside the tip of this place.
    fn add_beside<L: Law, S: Holds<L>>(
        self,
        tx: &mut Attempt<L, S>,
        added: Added,
        place: u32,
    ) -> Result<u64, Stop>
        requires at { added.at < self.cells.capacity }
        requires cell { added.cell < self.cells.capacity }
        requires place { place < self.cells.capacity }
        ensures goes { GoesOn L.holds tx.old tx.new }
        ensures stops { IfErr result (λ stop. Stops (order_end self.cells) tx.old.notes tx.old tx.new stop.why) }
        ensures few { IfOk result (λ now. now < 268435456) }
        ensures adds { IfOk result (λ now. Does L.holds (order_end self.cells)
            (AddsBeside self.cells added.key added.at added.cell place now)
            tx.old.attempts.caller tx.new.attempts.caller) }
        ensures together { OnOk result (StoodTogether L.holds tx.new.attempts.caller) }
        ensures may { OnOk result ((map : List Val) × MayBegin L.holds tx.new.attempts.caller map) }
    {
        let slot = tx.get(self.cells.slot_at(place))?;
        let Some(other) = slot.key else {
            return Ok(to_tip(place));
        };
        if other == added.key {
            return Ok(to_tip(place));
        }
        let level = parting(added.key, other);
        let fork = parted(
            level,
            added.key >> level,
            other >> level,
            to_tip(added.at),
            to_tip(place),
        );
        self.set_fork(tx, added.cell, fork)?;
        Ok(to_fork(added.cell))
    }

    // Adds a key beside all tips of a fork, whose keys have another prefix than it has.
    fn add_over<L: Law, S: Holds<L>>(
        self,
        tx: &mut Attempt<L, S>,
        added: Added,
        over: u32,
        fork: Fork,
    ) -> Result<u64, Stop>
        requires at { added.at < self.cells.capacity }
        requires cell { added.cell < self.cells.capacity }
        requires over { over < self.cells.capacity }
        requires level { fork.level < 64 }
        requires other { added.key / 2 ^ fork.level / 2 ≢ fork.prefix }
        ensures goes { GoesOn L.holds tx.old tx.new }
        ensures stops { IfErr result (λ stop. Stops (order_end self.cells) tx.old.notes tx.old tx.new stop.why) }
        ensures few { IfOk result (λ now. now < 268435456) }
        ensures adds { IfOk result (λ now. Does L.holds (order_end self.cells)
            (AddsOver self.cells added.key added.at added.cell over fork now)
            tx.old.attempts.caller tx.new.attempts.caller) }
        ensures together { OnOk result (StillTogether L.holds tx.old.attempts.caller tx.new.attempts.caller) }
        ensures may { OnOk result (StillMay L.holds tx.old.attempts.caller tx.new.attempts.caller) }
    {
        let ours = (added.key >> fork.level) / 2;
        let higher = parting(ours, fork.prefix);
        let level = fork.level + 1 + higher;
        if level >= 64 {
            return Ok(to_fork(over));
        }
        let parts = parted(
            level,
            ours >> higher,
            fork.prefix >> higher,
            to_tip(added.at),
            to_fork(over),
        );
        self.set_fork(tx, added.cell, parts)?;
        Ok(to_fork(added.cell))
    }

    // Takes a key that stands at this place out below a link, and answers the link that leads there now. The levels below the
    // link are below this one.
    fn drop_below<L: Law, S: Holds<L>>(
        self,
        tx: &mut Attempt<L, S>,
        key: u64,
        at: u32,
        link: u64,
        under: u32,
    ) -> Result<u64, Stop>
        requires { under ≤ 64 }
        ensures goes { GoesOn L.holds tx.old tx.new }
        ensures stops { IfErr result (λ stop. Stops (order_end self.cells) tx.old.notes tx.old tx.new stop.why) }
        ensures few { IfOk result (λ now. now < 268435456) }
        ensures drops { IfOk result (λ now. Does L.holds (order_end self.cells) (DropsTip self.cells key at link under now)
            tx.old.attempts.caller tx.new.attempts.caller) }
        ensures together { OnOk result (StillTogether L.holds tx.old.attempts.caller tx.new.attempts.caller) }
        ensures may { OnOk result (StillMay L.holds tx.old.attempts.caller tx.new.attempts.caller) }
    {
        match self.link(link) {
            Link::Nothing => Ok(0),
            Link::Tip(place) => {
                if place == at {
                    Ok(0)
                } else {
                    Ok(to_tip(place))
                }
            }
            Link::Fork(from) => {
                let fork = self.look_fork(tx, from)?;
                if fork.level >= under {
                    return Ok(to_fork(from));
                }
                let part = key >> fork.level;
                if part / 2 != fork.prefix {
                    return Ok(to_fork(from));
                }
                let greater = part % 2 == 1;
                let now = self.drop_below(tx, key, at, fork.side(greater), fork.level)?;
                if now == 0 {
                    self.clear_fork(tx, from)?;
                    return Ok(fork.side(part % 2 == 0));
                }
                self.set_side(tx, from, fork, greater, now)?;
                Ok(to_fork(from))
            }
        }
    }

    // What the cell of a fork tells.
    pub(crate) fn look_fork<L: Law, S: Holds<L>>(
        self,
        tx: &mut Attempt<L, S>,
        cell: u32,
    ) -> Result<Fork, Stop>
        requires { cell < self.cells.capacity }
        ensures goes { GoesOn L.holds tx.old tx.new }
        ensures stops { IfErr result (λ stop. Stops (order_end self.cells) false tx.old tx.new stop.why) }
        ensures left { IfOk result (λ fork. fork.left < 268435456) }
        ensures right { IfOk result (λ fork. fork.right < 268435456) }
        ensures looks { IfOk result (λ fork. Does L.holds (order_end self.cells) (LooksFork self.cells cell fork)
            tx.old.attempts.caller tx.new.attempts.caller) }
        ensures together { OnOk result (StoodTogether L.holds tx.new.attempts.caller) }
        ensures may { OnOk result ((map : List Val) × MayBegin L.holds tx.new.attempts.caller map) }
    {
        let held = tx.get(self.fork_at(cell))?;
        Ok(fork_of(held))
    }

    // Sets the cell of a fork.
    fn set_fork<L: Law, S: Holds<L>>(
        self,
        tx: &mut Attempt<L, S>,
        cell: u32,
        fork: Fork,
    ) -> Result<(), Stop>
        requires cell { cell < self.cells.capacity }
        requires level { fork.level < 64 }
        requires left { fork.left < 268435456 }
        requires right { fork.right < 268435456 }
        ensures goes { GoesOn L.holds tx.old tx.new }
        ensures stops { IfErr result (λ stop. Stops (order_end self.cells) tx.old.notes tx.old tx.new stop.why) }
        ensures sets { OnOk result (Does L.holds (order_end self.cells) (SetsFork self.cells cell fork)
            tx.old.attempts.caller tx.new.attempts.caller) }
        ensures together { OnOk result (StoodTogether L.holds tx.new.attempts.caller) }
        ensures may { OnOk result ((map : List Val) × MayBegin L.holds tx.new.attempts.caller map) }
    {
        tx.set(self.fork_at(cell), held_of(fork))?;
        Ok(())
    }

    // Sets the link to one side of a fork, where that is another one.
    fn set_side<L: Law, S: Holds<L>>(
        self,
        tx: &mut Attempt<L, S>,
        cell: u32,
        fork: Fork,
        greater: bool,
        link: u64,
    ) -> Result<(), Stop>
        requires cell { cell < self.cells.capacity }
        requires level { fork.level < 64 }
        requires left { fork.left < 268435456 }
        requires right { fork.right < 268435456 }
        requires link { link < 268435456 }
        ensures goes { GoesOn L.holds tx.old tx.new }
        ensures stops { IfErr result (λ stop. Stops (order_end self.cells) tx.old.notes tx.old tx.new stop.why) }
        ensures sets { OnOk result (Does L.holds (order_end self.cells) (SetsSide self.cells cell fork greater link)
            tx.old.attempts.caller tx.new.attempts.caller) }
        ensures stays { (if greater then fork.right else fork.left) ≡ link → tx.new ≡ tx.old }
        ensures together { OnOk result (StillTogether L.holds tx.old.attempts.caller tx.new.attempts.caller) }
        ensures may { OnOk result (StillMay L.holds tx.old.attempts.caller tx.new.attempts.caller) }
    {
        if fork.side(greater) == link {
            return Ok(());
        }
        self.set_fork(tx, cell, with_side(fork, greater, link))?;
        Ok(())
    }

    // Sets the link to the whole trie, where that is another one.
    fn set_root<L: Law, S: Holds<L>>(
        self,
        tx: &mut Attempt<L, S>,
        was: u64,
        now: u64,
    ) -> Result<(), Stop>
        ensures goes { GoesOn L.holds tx.old tx.new }
        ensures stops { IfErr result (λ stop. Stops (order_end self.cells) tx.old.notes tx.old tx.new stop.why) }
        ensures sets { OnOk result (Does L.holds (order_end self.cells) (SetsRoot self.cells was now)
            tx.old.attempts.caller tx.new.attempts.caller) }
        ensures stays { was ≡ now → tx.new ≡ tx.old }
        ensures together { OnOk result (StillTogether L.holds tx.old.attempts.caller tx.new.attempts.caller) }
        ensures may { OnOk result (StillMay L.holds tx.old.attempts.caller tx.new.attempts.caller) }
    {
        if was == now {
            return Ok(());
        }
        tx.set(self.root_at(), now)?;
        Ok(())
    }

    // Makes the cell of a fork free.
    fn clear_fork<L: Law, S: Holds<L>>(self, tx: &mut Attempt<L, S>, cell: u32) -> Result<(), Stop>
        requires { cell < self.cells.capacity }
        ensures goes { GoesOn L.holds tx.old tx.new }
        ensures stops { IfErr result (λ stop. Stops (order_end self.cells) tx.old.notes tx.old tx.new stop.why) }
        ensures frees { OnOk result (Does L.holds (order_end self.cells) (FreesFork self.cells cell)
            tx.old.attempts.caller tx.new.attempts.caller) }
        ensures together { OnOk result (StoodTogether L.holds tx.new.attempts.caller) }
        ensures may { OnOk result ((map : List Val) × MayBegin L.holds tx.new.attempts.caller map) }
    {
        tx.set(self.fork_at(cell), (0, 0))?;
        Ok(())
    }
}

// A fork with another link to one side.
fn with_side(fork: Fork, greater: bool, link: u64) -> Fork
    ensures level { result.level ≡ fork.level }
    ensures prefix { result.prefix ≡ fork.prefix }
    ensures left { result.left ≡ (if greater then fork.left else link) }
    ensures right { result.right ≡ (if greater then link else fork.right) }
{
    if greater {
        Fork {
            right: link,
            ..fork
        }
    } else {
        Fork { left: link, ..fork }
    }
}

// A fork of two links at a level, from which on the keys of the first one have these bits, and those of the second one others.
fn parted(level: u32, ours: u64, theirs: u64, first: u64, second: u64) -> Fork
    ensures level { result.level ≡ level }
    ensures prefix { result.prefix ≡ ours / 2 }
    ensures left { result.left ≡ (if nat_lt ours theirs then first else second) }
    ensures right { result.right ≡ (if nat_lt ours theirs then second else first) }
{
    let (left, right) = if ours < theirs {
        (first, second)
    } else {
        (second, first)
    };
    Fork {
        level,
        prefix: ours / 2,
        left,
        right,
    }
}

// The greatest level at which two numbers differ.
fn parting(one: u64, other: u64) -> u32
    requires { one ≢ other }
    ensures within { result < 64 }
    ensures differ { one / 2 ^ result ≢ other / 2 ^ result }
    ensures same { one / 2 ^ (result + 1) ≡ other / 2 ^ (result + 1) }
{
    63 - (one ^ other).leading_zeros()
}
