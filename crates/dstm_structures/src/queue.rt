// A queue in the cells of a memory.
ghost use Rattle.std.specs.Prelude.{◌≡◌, ◌⊎◌, ◌↔◌, ◌+◌, ◌<◌, List, false, true, length, Err, IfErr, IfOk, MatchOption, OnOk};
ghost use Rattle.dstm_attempts.specs.Attempts.{StoodTogether};
ghost use Rattle.dstm_cells.specs.Cells.{WantsRoom};
ghost use Rattle.dstm_cells.specs.UnderWay.{MayBegin, stop_by};
ghost use Rattle.dstm_cells.specs.declared.error.Failed.TheVariants as failed;
ghost use Rattle.dstm_cells.specs.declared.error.Why.TheVariants.{Retry};
ghost use Rattle.dstm_model.specs.declared.value.Val.{Val};
ghost use Rattle.dstm_structures.specs.Effects.{Does, GoesOn, Stops};
ghost use Rattle.dstm_structures.specs.Queues.{Adds, Counts, Fronts, OpensEnds, OpensPlace, OpensToFront, OpensToPop, OpensToPush, Pops, PutsLast, Pushes, TakesFirst, end_of, within};

use crate::cells::{Ring, behind, cell, next, number};
use dstm_cells::{Attempt, Cell, Failed, Holds, MOST_CELLS, Memory, Stop, Word, retry};
use dstm_model::Law;
use std::marker::PhantomData;

/// A queue of at most so many values, first in, first out, in the cells of a memory. It is a name: copies of it name the
/// same queue.
#[derive(Clone, Copy)]
pub struct Queue<T> {
    pub(crate) cells: Ring,
    holds: PhantomData<T>,
}

impl<T: Word> Queue<T> {
    /// An empty queue in new cells of a memory: one for each place, and one more.
    pub fn new<L: Law + Copy>(memory: &mut Memory<L>, capacity: u32) -> Result<Queue<T>, Failed>
        ensures adds { IfOk result (λ queue. Adds T.found queue memory.old.values.items memory.new.values.items) }
        ensures capacity { IfOk result (λ queue. queue.cells.capacity ≡ capacity) }
        ensures full { result ≡ Err failed.Full ↔ 524288 < length memory.old.values.items + capacity + 1 }
        ensures fails { IfErr result (λ why. (memory.new.values.items ≡ memory.old.values.items) × WantsRoom why) }
        ensures engine { memory.new.engine ≡ memory.old.engine }
        ensures law { memory.new.law ≡ memory.old.law }
    {
        if capacity >= MOST_CELLS {
            return Err(Failed::Full);
        }
        let cells = memory.cells((0u32, 0u32), capacity + 1)?;
        let cells = Ring {
            first: number(cells[0]),
            capacity,
        };
        Ok(Queue {
            cells,
            holds: PhantomData,
        })
    }

    /// The queue whose cells have the numbers from this one on, if so many values have room in them: there is one for each, and
    /// one more.
    pub fn at(first: u32, capacity: u32) -> Option<Queue<T>>
        ensures { MatchOption result ((capacity ≡ 0) ⊎ (524288 < first + capacity + 1))
            (λ queue. (queue.cells.first ≡ first) × (queue.cells.capacity ≡ capacity)) }
    {
        if capacity == 0 || capacity >= MOST_CELLS || first > MOST_CELLS - 1 - capacity {
            return None;
        }
        Some(Queue {
            cells: Ring { first, capacity },
            holds: PhantomData,
        })
    }

    /// How many values it has room for.
    pub fn capacity(self) -> u32
        ensures { result ≡ self.cells.capacity }
    {
        self.cells.capacity
    }

    /// How many values it has.
    pub fn len<L: Law, S: Holds<L>>(self, tx: &mut Attempt<L, S>) -> Result<u32, Stop>
        ensures goes { GoesOn L.holds tx.old tx.new }
        ensures stops { IfErr result (λ stop. Stops (end_of self) false tx.old tx.new stop.why) }
        ensures counts { IfOk result (λ count. Does L.holds (end_of self) (Counts T.found self count)
            tx.old.attempts.caller tx.new.attempts.caller) }
        ensures opens { OnOk result (OpensEnds T.found self L.holds tx.old.attempts.caller tx.new.attempts.caller) }
        ensures together { OnOk result (StoodTogether L.holds tx.new.attempts.caller) }
        ensures may { OnOk result ((map : List Val) × MayBegin L.holds tx.new.attempts.caller map) }
    {
        let ends = tx.get(self.ends())?;
        Ok(self.within(ends).1)
    }

    /// Puts a value at the end, and tells whether there was room.
    pub fn try_push<L: Law, S: Holds<L>>(
        self,
        tx: &mut Attempt<L, S>,
        value: T,
    ) -> Result<bool, Stop>
        ensures goes { GoesOn L.holds tx.old tx.new }
        ensures stops { IfErr result (λ stop. Stops (end_of self) tx.old.notes tx.old tx.new stop.why) }
        ensures pushes { IfOk result (λ pushed. Does L.holds (end_of self) (Pushes T.found self value pushed)
            tx.old.attempts.caller tx.new.attempts.caller) }
        ensures opens { IfOk result (λ pushed. OpensToPush T.found self L.holds pushed tx.old.attempts.caller tx.new.attempts.caller) }
        ensures together { OnOk result (StoodTogether L.holds tx.new.attempts.caller) }
        ensures may { OnOk result ((map : List Val) × MayBegin L.holds tx.new.attempts.caller map) }
    {
        let ends = tx.get(self.ends())?;
        let (at, count) = self.within(ends);
        if count >= self.cells.capacity {
            return Ok(false);
        }
        tx.set(self.place(behind(self.cells.capacity, at, count)), value)?;
        tx.set(self.ends(), (at, count + 1))?;
        Ok(true)
    }

    /// Puts a value at the end, once there is room.
    pub fn push<L: Law, S: Holds<L>>(self, tx: &mut Attempt<L, S>, value: T) -> Result<(), Stop>
        ensures goes { GoesOn L.holds tx.old tx.new }
        ensures stops { IfErr result (λ stop. (stop.why ≡ Retry) ⊎ Stops (end_of self) tx.old.notes tx.old tx.new stop.why) }
        ensures retries { result ≡ Err (stop_by Retry) → Does L.holds (end_of self) (Counts T.found self self.cells.capacity)
            tx.old.attempts.caller tx.new.attempts.caller }
        ensures pushes { OnOk result (Does L.holds (end_of self) (PutsLast T.found self value)
            tx.old.attempts.caller tx.new.attempts.caller) }
        ensures opens { OnOk result (OpensPlace T.found self L.holds true tx.old.attempts.caller tx.new.attempts.caller) }
        ensures looks { result ≡ Err (stop_by Retry) → OpensEnds T.found self L.holds tx.old.attempts.caller tx.new.attempts.caller }
        ensures together { OnOk result (StoodTogether L.holds tx.new.attempts.caller) }
        ensures may { OnOk result ((map : List Val) × MayBegin L.holds tx.new.attempts.caller map) }
        ensures waits { result ≡ Err (stop_by Retry) → ((map : List Val) × MayBegin L.holds tx.new.attempts.caller map) }
    {
        let pushed = self.try_push(tx, value)?;
        if pushed { Ok(()) } else { retry() }
    }

    /// Takes the first value, if there is one.
    pub fn try_pop<L: Law, S: Holds<L>>(self, tx: &mut Attempt<L, S>) -> Result<Option<T>, Stop>
        ensures goes { GoesOn L.holds tx.old tx.new }
        ensures stops { IfErr result (λ stop. Stops (end_of self) tx.old.notes tx.old tx.new stop.why) }
        ensures pops { IfOk result (λ popped. Does L.holds (end_of self) (Pops T.found self popped)
            tx.old.attempts.caller tx.new.attempts.caller) }
        ensures opens { IfOk result (λ popped. OpensToPop T.found self L.holds popped tx.old.attempts.caller tx.new.attempts.caller) }
        ensures together { OnOk result (StoodTogether L.holds tx.new.attempts.caller) }
        ensures may { OnOk result ((map : List Val) × MayBegin L.holds tx.new.attempts.caller map) }
    {
        let ends = tx.get(self.ends())?;
        let (at, count) = self.within(ends);
        if count == 0 {
            return Ok(None);
        }
        let value = tx.get(self.place(at))?;
        tx.set(self.ends(), (next(self.cells.capacity, at), count - 1))?;
        Ok(Some(value))
    }

    /// Takes the first value, once there is one.
    pub fn pop<L: Law, S: Holds<L>>(self, tx: &mut Attempt<L, S>) -> Result<T, Stop>
        ensures goes { GoesOn L.holds tx.old tx.new }
        ensures stops { IfErr result (λ stop. (stop.why ≡ Retry) ⊎ Stops (end_of self) tx.old.notes tx.old tx.new stop.why) }
        ensures retries { result ≡ Err (stop_by Retry) → Does L.holds (end_of self) (Counts T.found self 0)
            tx.old.attempts.caller tx.new.attempts.caller }
        ensures pops { IfOk result (λ value. Does L.holds (end_of self) (TakesFirst T.found self value)
            tx.old.attempts.caller tx.new.attempts.caller) }
        ensures opens { OnOk result (OpensPlace T.found self L.holds false tx.old.attempts.caller tx.new.attempts.caller) }
        ensures looks { result ≡ Err (stop_by Retry) → OpensEnds T.found self L.holds tx.old.attempts.caller tx.new.attempts.caller }
        ensures together { OnOk result (StoodTogether L.holds tx.new.attempts.caller) }
        ensures may { OnOk result ((map : List Val) × MayBegin L.holds tx.new.attempts.caller map) }
        ensures waits { result ≡ Err (stop_by Retry) → ((map : List Val) × MayBegin L.holds tx.new.attempts.caller map) }
    {
        let popped = self.try_pop(tx)?;
        match popped {
            Some(value) => Ok(value),
            None => retry(),
        }
    }

    /// The first value, if there is one.
    pub fn front<L: Law, S: Holds<L>>(self, tx: &mut Attempt<L, S>) -> Result<Option<T>, Stop>
        ensures goes { GoesOn L.holds tx.old tx.new }
        ensures stops { IfErr result (λ stop. Stops (end_of self) false tx.old tx.new stop.why) }
        ensures fronts { IfOk result (λ front. Does L.holds (end_of self) (Fronts T.found self front)
            tx.old.attempts.caller tx.new.attempts.caller) }
        ensures opens { IfOk result (λ front. OpensToFront T.found self L.holds front tx.old.attempts.caller tx.new.attempts.caller) }
        ensures together { OnOk result (StoodTogether L.holds tx.new.attempts.caller) }
        ensures may { OnOk result ((map : List Val) × MayBegin L.holds tx.new.attempts.caller map) }
    {
        let ends = tx.get(self.ends())?;
        let (at, count) = self.within(ends);
        if count == 0 {
            return Ok(None);
        }
        let front = tx.get(self.place(at))?;
        Ok(Some(front))
    }

    // The cell that holds the place of the first value, and how many there are.
    fn ends(self) -> Cell<(u32, u32)>
        ensures { result.object ≡ self.cells.first }
    {
        cell(self.cells.first)
    }

    // The cell of a place.
    fn place(self, at: u32) -> Cell<T>
        requires { at < self.cells.capacity }
        ensures { result.object ≡ self.cells.first + 1 + at }
    {
        cell(self.cells.first + 1 + at)
    }

    // A place of the queue, and a number of values that it has room for: these, where that can be.
    fn within(self, ends: (u32, u32)) -> (u32, u32)
        ensures { result ≡ within self.cells.capacity ends }
    {
        let at = if ends.0 < self.cells.capacity {
            ends.0
        } else {
            0
        };
        let count = if ends.1 < self.cells.capacity {
            ends.1
        } else {
            self.cells.capacity
        };
        (at, count)
    }
}
