// The order of a map's keys: a trie of their bits, in cells of its own. Its tips are places of the map, and each fork stands in
// a cell and parts the keys below it by one bit.
ghost use Rattle.std.specs.Prelude.{◌≡◌, ◌+◌, ◌*◌, ◌<◌, ◌≤◌, List, false, if◌then◌else◌, IfErr, IfOk, IfSome, OnOk};
ghost use Rattle.dstm_attempts.specs.Attempts.{StoodTogether};
ghost use Rattle.dstm_cells.specs.UnderWay.{MayBegin};
ghost use Rattle.dstm_model.specs.declared.value.Val.{Val};
ghost use Rattle.dstm_structures.specs.Effects.{Does, GoesOn, StillMay, StillTogether, Stops};
ghost use Rattle.dstm_structures.specs.Orders.{Ends, EndsAll, Follows, FollowsAll, IsInside, Precedes, PrecedesAll, is_above, is_below, left_in, level_in, link_in, order_end, right_in};

use crate::cells::{Rows, cell};
use dstm_cells::{Attempt, Cell, Holds, Stop};
use dstm_model::Law;

// The cells of an ordered map: behind those of the places there is one that holds the link to the whole trie, and then one
// for each fork.
#[derive(Clone, Copy)]
pub struct Order {
    pub(crate) cells: Rows,
}

// Where a link leads: nowhere, to a place, or to a fork's cell.
#[derive(Clone, Copy)]
pub enum Link {
    Nothing,
    Tip(u32),
    Fork(u32),
}

// What a fork's cell tells: at which bit it parts keys, what they all have before that bit, and the links to the two sides.
#[derive(Clone, Copy)]
pub struct Fork {
    pub(crate) level: u32,
    pub(crate) prefix: u64,
    pub(crate) left: u64,
    pub(crate) right: u64,
}

impl Fork {
    // The link to the side of the lesser keys, or to that of the greater ones.
    pub(crate) fn side(self, greater: bool) -> u64
        ensures { result ≡ (if greater then self.right else self.left) }
    {
        if greater { self.right } else { self.left }
    }
}

// What a fork's cell tells.
pub(crate) fn fork_of(held: (u64, u64)) -> Fork
    ensures level { result.level ≡ level_in held.1 }
    ensures prefix { result.prefix ≡ held.0 }
    ensures left { result.left ≡ left_in held.1 }
    ensures right { result.right ≡ right_in held.1 }
{
    Fork {
        level: (held.1 / 72_057_594_037_927_936) as u32,
        prefix: held.0,
        left: held.1 / 268_435_456 % 268_435_456,
        right: held.1 % 268_435_456,
    }
}

// What the cell of this fork holds.
pub(crate) fn held_of(fork: Fork) -> (u64, u64)
    requires level { fork.level < 64 }
    requires left { fork.left < 268435456 }
    requires right { fork.right < 268435456 }
    ensures prefix { result.0 ≡ fork.prefix }
    ensures level { level_in result.1 ≡ fork.level }
    ensures left { left_in result.1 ≡ fork.left }
    ensures right { right_in result.1 ≡ fork.right }
{
    let level = u64::from(fork.level);
    (
        fork.prefix,
        (level * 268_435_456 + fork.left) * 268_435_456 + fork.right,
    )
}

// The link to a place.
pub(crate) fn to_tip(at: u32) -> u64
    ensures { result ≡ 2 * at + 1 }
{
    2 * u64::from(at) + 1
}

// The link to a fork.
pub(crate) fn to_fork(at: u32) -> u64
    ensures { result ≡ 2 * at + 2 }
{
    2 * u64::from(at) + 2
}

impl Order {
    // The place of the least key, or of the greatest one.
    pub(crate) fn end<L: Law, S: Holds<L>>(
        self,
        tx: &mut Attempt<L, S>,
        greatest: bool,
    ) -> Result<Option<u32>, Stop>
        ensures goes { GoesOn L.holds tx.old tx.new }
        ensures stops { IfErr result (λ stop. Stops (order_end self.cells) false tx.old tx.new stop.why) }
        ensures within { IfOk result (λ place. IfSome place (λ at. at < self.cells.capacity)) }
        ensures ends { IfOk result (λ place. Does L.holds (order_end self.cells) (EndsAll self.cells greatest place)
            tx.old.attempts.caller tx.new.attempts.caller) }
        ensures together { OnOk result (StoodTogether L.holds tx.new.attempts.caller) }
        ensures may { OnOk result ((map : List Val) × MayBegin L.holds tx.new.attempts.caller map) }
    {
        let root = tx.get(self.root_at())?;
        let place = self.edge(tx, root, 64, greatest)?;
        Ok(place)
    }

    // The place of the least key above this one.
    pub(crate) fn next<L: Law, S: Holds<L>>(
        self,
        tx: &mut Attempt<L, S>,
        key: u64,
    ) -> Result<Option<u32>, Stop>
        ensures goes { GoesOn L.holds tx.old tx.new }
        ensures stops { IfErr result (λ stop. Stops (order_end self.cells) false tx.old tx.new stop.why) }
        ensures within { IfOk result (λ place. IfSome place (λ at. at < self.cells.capacity)) }
        ensures follows { IfOk result (λ place. Does L.holds (order_end self.cells) (FollowsAll self.cells key place)
            tx.old.attempts.caller tx.new.attempts.caller) }
        ensures together { OnOk result (StoodTogether L.holds tx.new.attempts.caller) }
        ensures may { OnOk result ((map : List Val) × MayBegin L.holds tx.new.attempts.caller map) }
    {
        let root = tx.get(self.root_at())?;
        let place = self.above(tx, root, 64, key)?;
        Ok(place)
    }

    // The place of the greatest key below this one.
    pub(crate) fn previous<L: Law, S: Holds<L>>(
        self,
        tx: &mut Attempt<L, S>,
        key: u64,
    ) -> Result<Option<u32>, Stop>
        ensures goes { GoesOn L.holds tx.old tx.new }
        ensures stops { IfErr result (λ stop. Stops (order_end self.cells) false tx.old tx.new stop.why) }
        ensures within { IfOk result (λ place. IfSome place (λ at. at < self.cells.capacity)) }
        ensures precedes { IfOk result (λ place. Does L.holds (order_end self.cells) (PrecedesAll self.cells key place)
            tx.old.attempts.caller tx.new.attempts.caller) }
        ensures together { OnOk result (StoodTogether L.holds tx.new.attempts.caller) }
        ensures may { OnOk result ((map : List Val) × MayBegin L.holds tx.new.attempts.caller map) }
    {
        let root = tx.get(self.root_at())?;
        let place = self.below(tx, root, 64, key)?;
        Ok(place)
    }

    // The place of the least key below a link, or of the greatest one. The levels below the link are below this one.
    pub(crate) fn edge<L: Law, S: Holds<L>>(
        self,
        tx: &mut Attempt<L, S>,
        link: u64,
        under: u32,
        greatest: bool,
    ) -> Result<Option<u32>, Stop>
        requires { under ≤ 64 }
        ensures goes { GoesOn L.holds tx.old tx.new }
        ensures stops { IfErr result (λ stop. Stops (order_end self.cells) false tx.old tx.new stop.why) }
        ensures within { IfOk result (λ place. IfSome place (λ at. at < self.cells.capacity)) }
        ensures ends { IfOk result (λ place. Does L.holds (order_end self.cells) (Ends self.cells greatest link under place)
            tx.old.attempts.caller tx.new.attempts.caller) }
        ensures together { OnOk result (StillTogether L.holds tx.old.attempts.caller tx.new.attempts.caller) }
        ensures may { OnOk result (StillMay L.holds tx.old.attempts.caller tx.new.attempts.caller) }
    {
        match self.link(link) {
            Link::Nothing => Ok(None),
            Link::Tip(at) => Ok(Some(at)),
            Link::Fork(at) => {
                let fork = self.look_fork(tx, at)?;
                if fork.level >= under {
                    return Ok(None);
                }
                let place = self.edge(tx, fork.side(greatest), fork.level, greatest)?;
                Ok(place)
            }
        }
    }

    // The place of the least key above this one below a link. The levels below the link are below this one.
    pub(crate) fn above<L: Law, S: Holds<L>>(
        self,
        tx: &mut Attempt<L, S>,
        link: u64,
        under: u32,
        key: u64,
    ) -> Result<Option<u32>, Stop>
        requires { under ≤ 64 }
        ensures goes { GoesOn L.holds tx.old tx.new }
        ensures stops { IfErr result (λ stop. Stops (order_end self.cells) false tx.old tx.new stop.why) }
        ensures within { IfOk result (λ place. IfSome place (λ at. at < self.cells.capacity)) }
        ensures follows { IfOk result (λ place. Does L.holds (order_end self.cells) (Follows self.cells key link under place)
            tx.old.attempts.caller tx.new.attempts.caller) }
        ensures together { OnOk result (StillTogether L.holds tx.old.attempts.caller tx.new.attempts.caller) }
        ensures may { OnOk result (StillMay L.holds tx.old.attempts.caller tx.new.attempts.caller) }
    {
        match self.link(link) {
            Link::Nothing => Ok(None),
            Link::Tip(at) => {
                let slot = tx.get(self.cells.slot_at(at))?;
                if is_above(key, slot.key) {
                    Ok(Some(at))
                } else {
                    Ok(None)
                }
            }
            Link::Fork(at) => {
                let fork = self.look_fork(tx, at)?;
                if fork.level >= under {
                    return Ok(None);
                }
                let part = key >> fork.level;
                if part / 2 < fork.prefix {
                    let first = self.edge(tx, fork.left, fork.level, false)?;
                    return Ok(first);
                }
                if part / 2 > fork.prefix {
                    return Ok(None);
                }
                if part % 2 == 1 {
                    let right = self.above(tx, fork.right, fork.level, key)?;
                    return Ok(right);
                }
                let left = self.above(tx, fork.left, fork.level, key)?;
                if let Some(at) = left {
                    return Ok(Some(at));
                }
                let later = self.edge(tx, fork.right, fork.level, false)?;
                Ok(later)
            }
        }
    }

    // The place of the greatest key below this one below a link. The levels below the link are below this one.
    pub(crate) fn below<L: Law, S: Holds<L>>(
        self,
        tx: &mut Attempt<L, S>,
        link: u64,
        under: u32,
        key: u64,
    ) -> Result<Option<u32>, Stop>
        requires { under ≤ 64 }
        ensures goes { GoesOn L.holds tx.old tx.new }
        ensures stops { IfErr result (λ stop. Stops (order_end self.cells) false tx.old tx.new stop.why) }
        ensures within { IfOk result (λ place. IfSome place (λ at. at < self.cells.capacity)) }
        ensures precedes { IfOk result (λ place. Does L.holds (order_end self.cells) (Precedes self.cells key link under place)
            tx.old.attempts.caller tx.new.attempts.caller) }
        ensures together { OnOk result (StillTogether L.holds tx.old.attempts.caller tx.new.attempts.caller) }
        ensures may { OnOk result (StillMay L.holds tx.old.attempts.caller tx.new.attempts.caller) }
    {
        match self.link(link) {
            Link::Nothing => Ok(None),
            Link::Tip(at) => {
                let slot = tx.get(self.cells.slot_at(at))?;
                if is_below(key, slot.key) {
                    Ok(Some(at))
                } else {
                    Ok(None)
                }
            }
            Link::Fork(at) => {
                let fork = self.look_fork(tx, at)?;
                if fork.level >= under {
                    return Ok(None);
                }
                let part = key >> fork.level;
                if part / 2 > fork.prefix {
                    let last = self.edge(tx, fork.right, fork.level, true)?;
                    return Ok(last);
                }
                if part / 2 < fork.prefix {
                    return Ok(None);
                }
                if part % 2 == 0 {
                    let left = self.below(tx, fork.left, fork.level, key)?;
                    return Ok(left);
                }
                let right = self.below(tx, fork.right, fork.level, key)?;
                if let Some(at) = right {
                    return Ok(Some(at));
                }
                let earlier = self.edge(tx, fork.left, fork.level, true)?;
                Ok(earlier)
            }
        }
    }

    // Where the link of this number leads.
    pub(crate) fn link(self, number: u64) -> Link
        ensures is { result ≡ link_in self.cells.capacity number }
        ensures inside { IsInside self.cells.capacity result }
    {
        if number < 1 {
            return Link::Nothing;
        }
        let at = (number - 1) / 2;
        if at >= u64::from(self.cells.capacity) {
            return Link::Nothing;
        }
        if number % 2 == 1 {
            Link::Tip(at as u32)
        } else {
            Link::Fork(at as u32)
        }
    }

    // The cell that holds the link to the whole trie.
    pub(crate) fn root_at(self) -> Cell<u64>
        ensures { result.object ≡ self.cells.first + 2 * self.cells.capacity }
    {
        cell(self.cells.first + 2 * self.cells.capacity)
    }

    // The cell of a fork.
    pub(crate) fn fork_at(self, at: u32) -> Cell<(u64, u64)>
        requires { at < self.cells.capacity }
        ensures { result.object ≡ self.cells.first + 2 * self.cells.capacity + 1 + at }
    {
        cell(self.cells.first + 2 * self.cells.capacity + 1 + at)
    }
}

// Whether a place holds a key above this one.
fn is_above(key: u64, held: Option<u64>) -> bool
    ensures { result ≡ is_above key held }
{
    match held {
        Some(held) => key < held,
        None => false,
    }
}

// Whether a place holds a key below this one.
fn is_below(key: u64, held: Option<u64>) -> bool
    ensures { result ≡ is_below key held }
{
    match held {
        Some(held) => held < key,
        None => false,
    }
}
