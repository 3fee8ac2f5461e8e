// An ordered set in the cells of a memory.
ghost use Rattle.std.specs.Prelude.{◌≡◌, ◌⊎◌, ◌↔◌, ◌+◌, ◌*◌, ◌<◌, List, false, length, Err, IfErr, IfOk, MatchOption, OnOk};
ghost use Rattle.dstm_attempts.specs.Attempts.{StoodTogether};
ghost use Rattle.dstm_cells.specs.Cells.{WantsRoom};
ghost use Rattle.dstm_cells.specs.UnderWay.{MayBegin};
ghost use Rattle.dstm_cells.specs.declared.error.Failed.TheVariants as failed;
ghost use Rattle.dstm_model.specs.declared.value.Val.{Val};
ghost use Rattle.dstm_structures.specs.Effects.{Does, GoesOn, Stops};
ghost use Rattle.dstm_structures.specs.Maps.{end_of};
ghost use Rattle.dstm_structures.specs.Orders.{order_end};
ghost use Rattle.dstm_structures.specs.Sets.{Adds, Inserts, Pops, PopsLast, Removes, TellsAbove, TellsBelow, TellsFirst, TellsIf, TellsLast, inserted_by, key_in};

use crate::map::Placed;
use crate::ordered::OrderedMap;
use dstm_cells::{Attempt, Failed, Holds, Memory, Stop, Word};
use dstm_model::{Law, Val};

/// A set of at most so many keys that also tells them by their order, in the cells of a memory. It is a name: copies of it
/// name the same set. It costs what an `OrderedMap` costs.
#[derive(Clone, Copy)]
pub struct OrderedSet {
    pub(crate) map: OrderedMap<Present>,
}

/// How a key was inserted into a set.
#[derive(Clone, Copy, Debug, PartialEq, Eq)]
pub enum Inserted {
    /// It was not there.
    New,
    /// It was there. Nothing is set.
    There,
    /// It was not there, and there is no room for another one. Nothing is set.
    Full,
}

// What a set has for each of its keys.
#[derive(Clone, Copy, Debug, PartialEq, Eq)]
pub struct Present;

impl Word for Present {
    ghost found = { λ val. record {} };

    fn to_val(self) -> Val {
        Val { low: 0, high: 0 }
    }

    fn of_val(_val: Val) -> Present {
        Present
    }
}

impl OrderedSet {
    /// An empty set in new cells of a memory: three for each key that it has room for, which are from 1 on, and one more.
    pub fn new<L: Law + Copy>(memory: &mut Memory<L>, capacity: u32) -> Result<OrderedSet, Failed>
        ensures adds { IfOk result (λ set. Adds set memory.old.values.items memory.new.values.items) }
        ensures capacity { IfOk result (λ set. set.map.map.cells.capacity ≡ capacity) }
        ensures full { result ≡ Err failed.Full ↔ (capacity ≡ 0) ⊎ (524288 < length memory.old.values.items + 3 * capacity + 1) }
        ensures fails { IfErr result (λ why. (memory.new.values.items ≡ memory.old.values.items) × WantsRoom why) }
        ensures engine { memory.new.engine ≡ memory.old.engine }
        ensures law { memory.new.law ≡ memory.old.law }
    {
        let map = OrderedMap::new(memory, capacity)?;
        Ok(OrderedSet { map })
    }

    /// The set whose cells have the numbers from this one on, if so many keys have room in them: there are three for each, and
    /// one more.
    pub fn at(first: u32, capacity: u32) -> Option<OrderedSet>
        ensures { MatchOption result ((capacity ≡ 0) ⊎ (524288 < first + 3 * capacity + 1))
            (λ set. (set.map.map.cells.first ≡ first) × (set.map.map.cells.capacity ≡ capacity)) }
    {
        let map = OrderedMap::at(first, capacity)?;
        Some(OrderedSet { map })
    }

    /// How many keys it has room for.
    pub fn capacity(self) -> u32
        ensures { result ≡ self.map.map.cells.capacity }
    {
        self.map.capacity()
    }

    /// Tells whether a key is in the set. It reads what a `HashMap` reads.
    pub fn contains<L: Law, S: Holds<L>>(
        self,
        tx: &mut Attempt<L, S>,
        key: u64,
    ) -> Result<bool, Stop>
        ensures goes { GoesOn L.holds tx.old tx.new }
        ensures stops { IfErr result (λ stop. Stops (end_of self.map.map) false tx.old tx.new stop.why) }
        ensures tells { IfOk result (λ answer. Does L.holds (end_of self.map.map) (TellsIf self key answer)
            tx.old.attempts.caller tx.new.attempts.caller) }
        ensures together { OnOk result (StoodTogether L.holds tx.new.attempts.caller) }
        ensures may { OnOk result ((map : List Val) × MayBegin L.holds tx.new.attempts.caller map) }
    {
        self.map.contains(tx, key)
    }

    /// Inserts a key, where it is not there. Where it is, nothing is set, and nothing of the order is read.
    pub fn insert<L: Law, S: Holds<L>>(
        self,
        tx: &mut Attempt<L, S>,
        key: u64,
    ) -> Result<Inserted, Stop>
        ensures goes { GoesOn L.holds tx.old tx.new }
        ensures stops { IfErr result (λ stop. Stops (order_end self.map.map.cells) tx.old.notes tx.old tx.new stop.why) }
        ensures inserts { IfOk result (λ inserted. Does L.holds (order_end self.map.map.cells) (Inserts self key inserted)
            tx.old.attempts.caller tx.new.attempts.caller) }
        ensures together { OnOk result (StoodTogether L.holds tx.new.attempts.caller) }
        ensures may { OnOk result ((map : List Val) × MayBegin L.holds tx.new.attempts.caller map) }
    {
        let found = self.map.map.find(tx, key)?;
        if found.is_some() {
            return Ok(Inserted::There);
        }
        let placed = self.map.add(tx, key, Present)?;
        Ok(inserted_by(placed))
    }

    /// Takes a key out, and tells whether it was there.
    pub fn remove<L: Law, S: Holds<L>>(self, tx: &mut Attempt<L, S>, key: u64) -> Result<bool, Stop>
        ensures goes { GoesOn L.holds tx.old tx.new }
        ensures stops { IfErr result (λ stop. Stops (order_end self.map.map.cells) tx.old.notes tx.old tx.new stop.why) }
        ensures removes { IfOk result (λ removed. Does L.holds (order_end self.map.map.cells) (Removes self key removed)
            tx.old.attempts.caller tx.new.attempts.caller) }
        ensures together { OnOk result (StoodTogether L.holds tx.new.attempts.caller) }
        ensures may { OnOk result ((map : List Val) × MayBegin L.holds tx.new.attempts.caller map) }
    {
        let removed = self.map.remove(tx, key)?;
        Ok(removed.is_some())
    }

    /// The first key, if there is one.
    pub fn first<L: Law, S: Holds<L>>(self, tx: &mut Attempt<L, S>) -> Result<Option<u64>, Stop>
        ensures goes { GoesOn L.holds tx.old tx.new }
        ensures stops { IfErr result (λ stop. Stops (order_end self.map.map.cells) false tx.old tx.new stop.why) }
        ensures tells { IfOk result (λ answer. Does L.holds (order_end self.map.map.cells) (TellsFirst self answer)
            tx.old.attempts.caller tx.new.attempts.caller) }
        ensures together { OnOk result (StoodTogether L.holds tx.new.attempts.caller) }
        ensures may { OnOk result ((map : List Val) × MayBegin L.holds tx.new.attempts.caller map) }
    {
        let first = self.map.first(tx)?;
        Ok(key_in(first))
    }

    /// The last key, if there is one.
    pub fn last<L: Law, S: Holds<L>>(self, tx: &mut Attempt<L, S>) -> Result<Option<u64>, Stop>
        ensures goes { GoesOn L.holds tx.old tx.new }
        ensures stops { IfErr result (λ stop. Stops (order_end self.map.map.cells) false tx.old tx.new stop.why) }
        ensures tells { IfOk result (λ answer. Does L.holds (order_end self.map.map.cells) (TellsLast self answer)
            tx.old.attempts.caller tx.new.attempts.caller) }
        ensures together { OnOk result (StoodTogether L.holds tx.new.attempts.caller) }
        ensures may { OnOk result ((map : List Val) × MayBegin L.holds tx.new.attempts.caller map) }
    {
        let last = self.map.last(tx)?;
        Ok(key_in(last))
    }

    /// The first key above this one, if there is one. The key itself need not be there.
    pub fn next_above<L: Law, S: Holds<L>>(
        self,
        tx: &mut Attempt<L, S>,
        key: u64,
    ) -> Result<Option<u64>, Stop>
        ensures goes { GoesOn L.holds tx.old tx.new }
        ensures stops { IfErr result (λ stop. Stops (order_end self.map.map.cells) false tx.old tx.new stop.why) }
        ensures tells { IfOk result (λ answer. Does L.holds (order_end self.map.map.cells) (TellsAbove self key answer)
            tx.old.attempts.caller tx.new.attempts.caller) }
        ensures together { OnOk result (StoodTogether L.holds tx.new.attempts.caller) }
        ensures may { OnOk result ((map : List Val) × MayBegin L.holds tx.new.attempts.caller map) }
    {
        let next = self.map.next_above(tx, key)?;
        Ok(key_in(next))
    }

    /// The last key below this one, if there is one. The key itself need not be there.
    pub fn next_below<L: Law, S: Holds<L>>(
        self,
        tx: &mut Attempt<L, S>,
        key: u64,
    ) -> Result<Option<u64>, Stop>
        ensures goes { GoesOn L.holds tx.old tx.new }
        ensures stops { IfErr result (λ stop. Stops (order_end self.map.map.cells) false tx.old tx.new stop.why) }
        ensures tells { IfOk result (λ answer. Does L.holds (order_end self.map.map.cells) (TellsBelow self key answer)
            tx.old.attempts.caller tx.new.attempts.caller) }
        ensures together { OnOk result (StoodTogether L.holds tx.new.attempts.caller) }
        ensures may { OnOk result ((map : List Val) × MayBegin L.holds tx.new.attempts.caller map) }
    {
        let before = self.map.next_below(tx, key)?;
        Ok(key_in(before))
    }

    /// Takes the first key out, and answers it, if there is one.
    pub fn pop_first<L: Law, S: Holds<L>>(self, tx: &mut Attempt<L, S>) -> Result<Option<u64>, Stop>
        ensures goes { GoesOn L.holds tx.old tx.new }
        ensures stops { IfErr result (λ stop. Stops (order_end self.map.map.cells) tx.old.notes tx.old tx.new stop.why) }
        ensures pops { IfOk result (λ popped. Does L.holds (order_end self.map.map.cells) (Pops self popped)
            tx.old.attempts.caller tx.new.attempts.caller) }
        ensures together { OnOk result (StoodTogether L.holds tx.new.attempts.caller) }
        ensures may { OnOk result ((map : List Val) × MayBegin L.holds tx.new.attempts.caller map) }
    {
        let popped = self.map.pop_first(tx)?;
        Ok(key_in(popped))
    }

    /// Takes the last key out, and answers it, if there is one.
    pub fn pop_last<L: Law, S: Holds<L>>(self, tx: &mut Attempt<L, S>) -> Result<Option<u64>, Stop>
        ensures goes { GoesOn L.holds tx.old tx.new }
        ensures stops { IfErr result (λ stop. Stops (order_end self.map.map.cells) tx.old.notes tx.old tx.new stop.why) }
        ensures pops { IfOk result (λ popped. Does L.holds (order_end self.map.map.cells) (PopsLast self popped)
            tx.old.attempts.caller tx.new.attempts.caller) }
        ensures together { OnOk result (StoodTogether L.holds tx.new.attempts.caller) }
        ensures may { OnOk result ((map : List Val) × MayBegin L.holds tx.new.attempts.caller map) }
    {
        let popped = self.map.pop_last(tx)?;
        Ok(key_in(popped))
    }
}

// The key of an entry.
fn key_in(entry: Option<(u64, Present)>) -> Option<u64>
    ensures { result ≡ key_in entry }
{
    match entry {
        Some((key, Present)) => Some(key),
        None => None,
    }
}

// How a key was inserted that was put so.
fn inserted_by(placed: Placed<Present>) -> Inserted
    ensures { result ≡ inserted_by placed }
{
    match placed {
        Placed::New => Inserted::New,
        Placed::Instead(Present) => Inserted::There,
        Placed::Full => Inserted::Full,
    }
}
