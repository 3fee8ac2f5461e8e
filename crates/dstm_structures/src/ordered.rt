// An ordered map in the cells of a memory.
ghost use Rattle.std.specs.Prelude.{◌≡◌, ◌⊎◌, ◌↔◌, ◌+◌, ◌*◌, ◌<◌, ◌≤◌, List, None, false, length, Err, IfErr, IfOk, IfSome, MatchOption, OnOk};
ghost use Rattle.dstm_attempts.specs.Attempts.{StoodTogether};
ghost use Rattle.dstm_cells.specs.Cells.{WantsRoom};
ghost use Rattle.dstm_cells.specs.UnderWay.{MayBegin};
ghost use Rattle.dstm_cells.specs.declared.error.Failed.TheVariants as failed;
ghost use Rattle.dstm_model.specs.declared.value.Val.{Val};
ghost use Rattle.dstm_structures.specs.Effects.{Does, GoesOn, StillMay, StillTogether, Stops};
ghost use Rattle.dstm_structures.specs.Maps.{Tells, TellsIf, end_of, had_by};
ghost use Rattle.dstm_structures.specs.Ordered.{Adding, Adds, Looks, Pops, PopsEnd, PopsLast, Puts, Removes, Takes, TellsAbove, TellsBelow, TellsEnd, TellsFirst, TellsLast};
ghost use Rattle.dstm_structures.specs.Orders.{order_end};

use crate::cells::{Rows, number};
use crate::map::{HashMap, Placed};
use crate::order::Order;
use dstm_cells::{Attempt, Failed, Holds, MOST_CELLS, Memory, Stop, Word};
use dstm_model::Law;

/// A map of at most so many keys that also tells them by their order, in the cells of a memory. It is a name: copies of it
/// name the same map. It looks a key up as a `HashMap` does; the order is a trie of the keys' bits, whose forks a search for
/// the first key, for the last one or for the first one above another goes down: at most 64, and for n keys that are dense or
/// random about as many as n has bits. To add a key or take one out sets one link of the trie and one of its forks.
#[derive(Clone, Copy)]
pub struct OrderedMap<V> {
    pub(crate) map: HashMap<V>,
}

impl<V: Word> OrderedMap<V> {
    /// An empty map in new cells of a memory: three for each key that it has room for, which are from 1 on, and one more.
    pub fn new<L: Law + Copy>(
        memory: &mut Memory<L>,
        capacity: u32,
    ) -> Result<OrderedMap<V>, Failed>
        ensures adds { IfOk result (λ map. Adds V.found map memory.old.values.items memory.new.values.items) }
        ensures capacity { IfOk result (λ map. map.map.cells.capacity ≡ capacity) }
        ensures full { result ≡ Err failed.Full ↔ (capacity ≡ 0) ⊎ (524288 < length memory.old.values.items + 3 * capacity + 1) }
        ensures fails { IfErr result (λ why. (memory.new.values.items ≡ memory.old.values.items) × WantsRoom why) }
        ensures engine { memory.new.engine ≡ memory.old.engine }
        ensures law { memory.new.law ≡ memory.old.law }
    {
        if capacity == 0 || capacity > (MOST_CELLS - 1) / 3 {
            return Err(Failed::Full);
        }
        let cells = memory.cells((0u64, 0u64), 3 * capacity + 1)?;
        let cells = Rows {
            first: number(cells[0]),
            capacity,
        };
        Ok(OrderedMap {
            map: HashMap::of_cells(cells),
        })
    }

    /// The map whose cells have the numbers from this one on, if so many keys have room in them: there are three for each, and
    /// one more.
    pub fn at(first: u32, capacity: u32) -> Option<OrderedMap<V>>
        ensures { MatchOption result ((capacity ≡ 0) ⊎ (524288 < first + 3 * capacity + 1))
            (λ map. (map.map.cells.first ≡ first) × (map.map.cells.capacity ≡ capacity)) }
    {
        if capacity == 0
            || capacity > (MOST_CELLS - 1) / 3
            || first > MOST_CELLS - 1 - 3 * capacity
        {
            return None;
        }
        Some(OrderedMap {
            map: HashMap::of_cells(Rows { first, capacity }),
        })
    }

    /// How many keys it has room for.
    pub fn capacity(self) -> u32
        ensures { result ≡ self.map.cells.capacity }
    {
        self.map.cells.capacity
    }

    /// The value of a key, if it is there. It reads what a `HashMap` reads.
    pub fn get<L: Law, S: Holds<L>>(
        self,
        tx: &mut Attempt<L, S>,
        key: u64,
    ) -> Result<Option<V>, Stop>
        ensures goes { GoesOn L.holds tx.old tx.new }
        ensures stops { IfErr result (λ stop. Stops (end_of self.map) false tx.old tx.new stop.why) }
        ensures tells { IfOk result (λ answer. Does L.holds (end_of self.map) (Tells V.found self.map key answer)
            tx.old.attempts.caller tx.new.attempts.caller) }
        ensures together { OnOk result (StoodTogether L.holds tx.new.attempts.caller) }
        ensures may { OnOk result ((map : List Val) × MayBegin L.holds tx.new.attempts.caller map) }
    {
        self.map.get(tx, key)
    }

    /// Tells whether a key is there.
    pub fn contains<L: Law, S: Holds<L>>(
        self,
        tx: &mut Attempt<L, S>,
        key: u64,
    ) -> Result<bool, Stop>
        ensures goes { GoesOn L.holds tx.old tx.new }
        ensures stops { IfErr result (λ stop. Stops (end_of self.map) false tx.old tx.new stop.why) }
        ensures tells { IfOk result (λ answer. Does L.holds (end_of self.map) (TellsIf V.found self.map key answer)
            tx.old.attempts.caller tx.new.attempts.caller) }
        ensures together { OnOk result (StoodTogether L.holds tx.new.attempts.caller) }
        ensures may { OnOk result ((map : List Val) × MayBegin L.holds tx.new.attempts.caller map) }
    {
        self.map.contains(tx, key)
    }

    /// Gives a key this value, and adds the key where it is not there. Where it is there, nothing of the order is read.
    pub fn put<L: Law, S: Holds<L>>(
        self,
        tx: &mut Attempt<L, S>,
        key: u64,
        value: V,
    ) -> Result<Placed<V>, Stop>
        ensures goes { GoesOn L.holds tx.old tx.new }
        ensures stops { IfErr result (λ stop. Stops (order_end self.map.cells) tx.old.notes tx.old tx.new stop.why) }
        ensures puts { IfOk result (λ placed. Does L.holds (order_end self.map.cells) (Puts V.found self key value placed)
            tx.old.attempts.caller tx.new.attempts.caller) }
        ensures together { OnOk result (StoodTogether L.holds tx.new.attempts.caller) }
        ensures may { OnOk result ((map : List Val) × MayBegin L.holds tx.new.attempts.caller map) }
    {
        let found = self.map.find(tx, key)?;
        let Some(at) = found else {
            let placed = self.add(tx, key, value)?;
            return Ok(placed);
        };
        let had = tx.replace(self.map.value_at(at), value)?;
        Ok(Placed::Instead(had))
    }

    /// Takes a key out, and answers its value, if it is there.
    pub fn remove<L: Law, S: Holds<L>>(
        self,
        tx: &mut Attempt<L, S>,
        key: u64,
    ) -> Result<Option<V>, Stop>
        ensures goes { GoesOn L.holds tx.old tx.new }
        ensures stops { IfErr result (λ stop. Stops (order_end self.map.cells) tx.old.notes tx.old tx.new stop.why) }
        ensures removes { IfOk result (λ removed. Does L.holds (order_end self.map.cells) (Removes V.found self key removed)
            tx.old.attempts.caller tx.new.attempts.caller) }
        ensures together { OnOk result (StoodTogether L.holds tx.new.attempts.caller) }
        ensures may { OnOk result ((map : List Val) × MayBegin L.holds tx.new.attempts.caller map) }
    {
        let found = self.map.find(tx, key)?;
        let Some(at) = found else {
            return Ok(None);
        };
        let value = tx.get(self.map.value_at(at))?;
        self.take(tx, key, at)?;
        Ok(Some(value))
    }

    /// The first key with its value, if there is one.
    pub fn first<L: Law, S: Holds<L>>(
        self,
        tx: &mut Attempt<L, S>,
    ) -> Result<Option<(u64, V)>, Stop>
        ensures goes { GoesOn L.holds tx.old tx.new }
        ensures stops { IfErr result (λ stop. Stops (order_end self.map.cells) false tx.old tx.new stop.why) }
        ensures tells { IfOk result (λ answer. Does L.holds (order_end self.map.cells) (TellsFirst V.found self answer)
            tx.old.attempts.caller tx.new.attempts.caller) }
        ensures together { OnOk result (StoodTogether L.holds tx.new.attempts.caller) }
        ensures may { OnOk result ((map : List Val) × MayBegin L.holds tx.new.attempts.caller map) }
    {
        self.end(tx, false)
    }

    /// The last key with its value, if there is one.
    pub fn last<L: Law, S: Holds<L>>(self, tx: &mut Attempt<L, S>) -> Result<Option<(u64, V)>, Stop>
        ensures goes { GoesOn L.holds tx.old tx.new }
        ensures stops { IfErr result (λ stop. Stops (order_end self.map.cells) false tx.old tx.new stop.why) }
        ensures tells { IfOk result (λ answer. Does L.holds (order_end self.map.cells) (TellsLast V.found self answer)
            tx.old.attempts.caller tx.new.attempts.caller) }
        ensures together { OnOk result (StoodTogether L.holds tx.new.attempts.caller) }
        ensures may { OnOk result ((map : List Val) × MayBegin L.holds tx.new.attempts.caller map) }
    {
        self.end(tx, true)
    }

    /// The first key above this one with its value, if there is one. The key itself need not be there.
    pub fn next_above<L: Law, S: Holds<L>>(
        self,
        tx: &mut Attempt<L, S>,
        key: u64,
    ) -> Result<Option<(u64, V)>, Stop>
        ensures goes { GoesOn L.holds tx.old tx.new }
        ensures stops { IfErr result (λ stop. Stops (order_end self.map.cells) false tx.old tx.new stop.why) }
        ensures tells { IfOk result (λ answer. Does L.holds (order_end self.map.cells) (TellsAbove V.found self key answer)
            tx.old.attempts.caller tx.new.attempts.caller) }
        ensures together { OnOk result (StoodTogether L.holds tx.new.attempts.caller) }
        ensures may { OnOk result ((map : List Val) × MayBegin L.holds tx.new.attempts.caller map) }
    {
        let order = Order {
            cells: self.map.cells,
        };
        let place = order.next(tx, key)?;
        let entry = self.entry(tx, place)?;
        Ok(entry)
    }

    /// The last key below this one with its value, if there is one. The key itself need not be there.
    pub fn next_below<L: Law, S: Holds<L>>(
        self,
        tx: &mut Attempt<L, S>,
        key: u64,
    ) -> Result<Option<(u64, V)>, Stop>
        ensures goes { GoesOn L.holds tx.old tx.new }
        ensures stops { IfErr result (λ stop. Stops (order_end self.map.cells) false tx.old tx.new stop.why) }
        ensures tells { IfOk result (λ answer. Does L.holds (order_end self.map.cells) (TellsBelow V.found self key answer)
            tx.old.attempts.caller tx.new.attempts.caller) }
        ensures together { OnOk result (StoodTogether L.holds tx.new.attempts.caller) }
        ensures may { OnOk result ((map : List Val) × MayBegin L.holds tx.new.attempts.caller map) }
    {
        let order = Order {
            cells: self.map.cells,
        };
        let place = order.previous(tx, key)?;
        let entry = self.entry(tx, place)?;
        Ok(entry)
    }

    /// Takes the first key out, and answers it with its value, if there is one.
    pub fn pop_first<L: Law, S: Holds<L>>(
        self,
        tx: &mut Attempt<L, S>,
    ) -> Result<Option<(u64, V)>, Stop>
        ensures goes { GoesOn L.holds tx.old tx.new }
        ensures stops { IfErr result (λ stop. Stops (order_end self.map.cells) tx.old.notes tx.old tx.new stop.why) }
        ensures pops { IfOk result (λ popped. Does L.holds (order_end self.map.cells) (Pops V.found self popped)
            tx.old.attempts.caller tx.new.attempts.caller) }
        ensures together { OnOk result (StoodTogether L.holds tx.new.attempts.caller) }
        ensures may { OnOk result ((map : List Val) × MayBegin L.holds tx.new.attempts.caller map) }
    {
        self.pop(tx, false)
    }

    /// Takes the last key out, and answers it with its value, if there is one.
    pub fn pop_last<L: Law, S: Holds<L>>(
        self,
        tx: &mut Attempt<L, S>,
    ) -> Result<Option<(u64, V)>, Stop>
        ensures goes { GoesOn L.holds tx.old tx.new }
        ensures stops { IfErr result (λ stop. Stops (order_end self.map.cells) tx.old.notes tx.old tx.new stop.why) }
        ensures pops { IfOk result (λ popped. Does L.holds (order_end self.map.cells) (PopsLast V.found self popped)
            tx.old.attempts.caller tx.new.attempts.caller) }
        ensures together { OnOk result (StoodTogether L.holds tx.new.attempts.caller) }
        ensures may { OnOk result ((map : List Val) × MayBegin L.holds tx.new.attempts.caller map) }
    {
        self.pop(tx, true)
    }

    // Takes the first key out, or the last one, and answers it with its value, if there is one.
    fn pop<L: Law, S: Holds<L>>(
        self,
        tx: &mut Attempt<L, S>,
        greatest: bool,
    ) -> Result<Option<(u64, V)>, Stop>
        ensures goes { GoesOn L.holds tx.old tx.new }
        ensures stops { IfErr result (λ stop. Stops (order_end self.map.cells) tx.old.notes tx.old tx.new stop.why) }
        ensures pops { IfOk result (λ popped. Does L.holds (order_end self.map.cells) (PopsEnd V.found self greatest popped)
            tx.old.attempts.caller tx.new.attempts.caller) }
        ensures together { OnOk result (StoodTogether L.holds tx.new.attempts.caller) }
        ensures may { OnOk result ((map : List Val) × MayBegin L.holds tx.new.attempts.caller map) }
    {
        let end = self.end(tx, greatest)?;
        let Some(entry) = end else {
            return Ok(None);
        };
        let _removed = self.remove(tx, entry.0)?;
        Ok(Some(entry))
    }

    // The first key with its value, or the last one.
    fn end<L: Law, S: Holds<L>>(
        self,
        tx: &mut Attempt<L, S>,
        greatest: bool,
    ) -> Result<Option<(u64, V)>, Stop>
        ensures goes { GoesOn L.holds tx.old tx.new }
        ensures stops { IfErr result (λ stop. Stops (order_end self.map.cells) false tx.old tx.new stop.why) }
        ensures tells { IfOk result (λ answer. Does L.holds (order_end self.map.cells) (TellsEnd V.found self greatest answer)
            tx.old.attempts.caller tx.new.attempts.caller) }
        ensures together { OnOk result (StoodTogether L.holds tx.new.attempts.caller) }
        ensures may { OnOk result ((map : List Val) × MayBegin L.holds tx.new.attempts.caller map) }
    {
        let order = Order {
            cells: self.map.cells,
        };
        let place = order.end(tx, greatest)?;
        let entry = self.entry(tx, place)?;
        Ok(entry)
    }

    // Adds a key that is not there.
    pub(crate) fn add<L: Law, S: Holds<L>>(
        self,
        tx: &mut Attempt<L, S>,
        key: u64,
        value: V,
    ) -> Result<Placed<V>, Stop>
        ensures goes { GoesOn L.holds tx.old tx.new }
        ensures stops { IfErr result (λ stop. Stops (order_end self.map.cells) tx.old.notes tx.old tx.new stop.why) }
        ensures absent { IfOk result (λ placed. had_by placed ≡ None) }
        ensures adds { IfOk result (λ placed. Does L.holds (order_end self.map.cells) (Adding V.found self key value placed)
            tx.old.attempts.caller tx.new.attempts.caller) }
        ensures together { OnOk result (StillTogether L.holds tx.old.attempts.caller tx.new.attempts.caller) }
        ensures may { OnOk result (StillMay L.holds tx.old.attempts.caller tx.new.attempts.caller) }
    {
        let order = Order {
            cells: self.map.cells,
        };
        let free = order.free_fork(tx, self.map.home(key))?;
        let Some(cell) = free else {
            return Ok(Placed::Full);
        };
        let placed = self.map.insert(tx, key, value)?;
        let Some(at) = placed else {
            return Ok(Placed::Full);
        };
        order.add(tx, key, at, cell)?;
        Ok(Placed::New)
    }

    // Takes a key out that stands at this place.
    fn take<L: Law, S: Holds<L>>(
        self,
        tx: &mut Attempt<L, S>,
        key: u64,
        at: u32,
    ) -> Result<(), Stop>
        requires { at < self.map.cells.capacity }
        ensures goes { GoesOn L.holds tx.old tx.new }
        ensures stops { IfErr result (λ stop. Stops (order_end self.map.cells) tx.old.notes tx.old tx.new stop.why) }
        ensures takes { OnOk result (Does L.holds (order_end self.map.cells) (Takes V.found self key at)
            tx.old.attempts.caller tx.new.attempts.caller) }
        ensures together { OnOk result (StoodTogether L.holds tx.new.attempts.caller) }
        ensures may { OnOk result ((map : List Val) × MayBegin L.holds tx.new.attempts.caller map) }
    {
        let order = Order {
            cells: self.map.cells,
        };
        order.drop_key(tx, key, at)?;
        self.map.clear(tx, key)?;
        Ok(())
    }

    // The key of a place with its value, if it holds one.
    fn entry<L: Law, S: Holds<L>>(
        self,
        tx: &mut Attempt<L, S>,
        place: Option<u32>,
    ) -> Result<Option<(u64, V)>, Stop>
        requires { IfSome place (λ at. at < self.map.cells.capacity) }
        ensures goes { GoesOn L.holds tx.old tx.new }
        ensures stops { IfErr result (λ stop. Stops (order_end self.map.cells) false tx.old tx.new stop.why) }
        ensures looks { IfOk result (λ answer. Does L.holds (order_end self.map.cells) (Looks V.found self place answer)
            tx.old.attempts.caller tx.new.attempts.caller) }
        ensures together { OnOk result (StillTogether L.holds tx.old.attempts.caller tx.new.attempts.caller) }
        ensures may { OnOk result (StillMay L.holds tx.old.attempts.caller tx.new.attempts.caller) }
    {
        let Some(at) = place else {
            return Ok(None);
        };
        let slot = tx.get(self.map.cells.slot_at(at))?;
        let Some(key) = slot.key else {
            return Ok(None);
        };
        let value = tx.get(self.map.value_at(at))?;
        Ok(Some((key, value)))
    }
}
