// A pool of cells in the cells of a memory.
ghost use Rattle.std.specs.Prelude.{◌≡◌, ◌⊎◌, ◌↔◌, ◌+◌, ◌*◌, ◌%◌, ◌<◌, ◌≤◌, List, None, false, length, Err, IfErr, IfOk, IfSome, MatchOption, OnOk};
ghost use Rattle.dstm_attempts.specs.Attempts.{StoodTogether};
ghost use Rattle.dstm_cells.specs.Cells.{WantsRoom};
ghost use Rattle.dstm_cells.specs.UnderWay.{MayBegin};
ghost use Rattle.dstm_cells.specs.declared.error.Failed.TheVariants as failed;
ghost use Rattle.dstm_model.specs.declared.value.Val.{Val};
ghost use Rattle.dstm_structures.specs.Effects.{Does, GoesOn, Stops};
ghost use Rattle.dstm_structures.specs.Pools.{Adds, Gives, OpensToGive, OpensToSeek, OpensToTake, Seeks, Takes, cell_at, end_of, mark_at};

use crate::cells::{Stock, behind, cell, number};
use dstm_cells::{Attempt, Cell, Failed, Holds, MOST_CELLS, Memory, Stop, Word};
use dstm_model::Law;
use std::marker::PhantomData;

/// A pool of so many cells, in the cells of a memory: transactions take cells out of it and give them back. It is a name:
/// copies of it name the same pool.
#[derive(Clone, Copy)]
pub struct Pool<T> {
    pub(crate) cells: Stock,
    holds: PhantomData<T>,
}

impl<T: Word> Pool<T> {
    /// A pool of so many cells, of which none is taken, in new cells of a memory: two for each, from 1 on.
    pub fn new<L: Law + Copy>(memory: &mut Memory<L>, capacity: u32) -> Result<Pool<T>, Failed>
        ensures adds { IfOk result (λ pool. Adds pool memory.old.values.items memory.new.values.items) }
        ensures capacity { IfOk result (λ pool. pool.cells.capacity ≡ capacity) }
        ensures full { result ≡ Err failed.Full ↔ (capacity ≡ 0) ⊎ (524288 < length memory.old.values.items + 2 * capacity) }
        ensures fails { IfErr result (λ why. (memory.new.values.items ≡ memory.old.values.items) × WantsRoom why) }
        ensures engine { memory.new.engine ≡ memory.old.engine }
        ensures law { memory.new.law ≡ memory.old.law }
    {
        if capacity == 0 || capacity > MOST_CELLS / 2 {
            return Err(Failed::Full);
        }
        let cells = memory.cells((0u64, 0u64), 2 * capacity)?;
        let cells = Stock {
            first: number(cells[0]),
            capacity,
        };
        Ok(Pool {
            cells,
            holds: PhantomData,
        })
    }

    /// The pool whose cells have the numbers from this one on, if it has so many: there are two for each.
    pub fn at(first: u32, capacity: u32) -> Option<Pool<T>>
        ensures { MatchOption result ((capacity ≡ 0) ⊎ (524288 < first + 2 * capacity))
            (λ pool. (pool.cells.first ≡ first) × (pool.cells.capacity ≡ capacity)) }
    {
        if capacity == 0 || capacity > MOST_CELLS / 2 || first > MOST_CELLS - 2 * capacity {
            return None;
        }
        Some(Pool {
            cells: Stock { first, capacity },
            holds: PhantomData,
        })
    }

    /// How many cells it has, with those that are taken.
    pub fn capacity(self) -> u32
        ensures { result ≡ self.cells.capacity }
    {
        self.cells.capacity
    }

    /// Takes a cell, and puts this value into it: the first one that is not taken, from a place on, in a circle; none where all
    /// are taken. The places are numbered from 0, and go on again from there.
    pub fn take<L: Law, S: Holds<L>>(
        self,
        tx: &mut Attempt<L, S>,
        from: u32,
        value: T,
    ) -> Result<Option<Cell<T>>, Stop>
        ensures goes { GoesOn L.holds tx.old tx.new }
        ensures stops { IfErr result (λ stop. Stops (end_of self) tx.old.notes tx.old tx.new stop.why) }
        ensures takes { IfOk result (λ taken. Does L.holds (end_of self)
            (Takes self T.found (from % self.cells.capacity) value taken) tx.old.attempts.caller tx.new.attempts.caller) }
        ensures opens { IfOk result (λ taken. OpensToTake self L.holds (from % self.cells.capacity) taken
            tx.old.attempts.caller tx.new.attempts.caller) }
        ensures together { OnOk result (StoodTogether L.holds tx.new.attempts.caller) }
        ensures may { OnOk result ((map : List Val) × MayBegin L.holds tx.new.attempts.caller map) }
    {
        let free = self.free(tx, from % self.cells.capacity)?;
        let Some(at) = free else {
            return Ok(None);
        };
        tx.set(self.mark_at(at), true)?;
        let taken = self.cell_at(at);
        tx.set(taken, value)?;
        Ok(Some(taken))
    }

    /// Gives a cell back, and tells whether it was taken; nothing is set where it was not, or is none of the pool's. What it
    /// holds stays until it is taken again.
    pub fn give<L: Law, S: Holds<L>>(
        self,
        tx: &mut Attempt<L, S>,
        given: Cell<T>,
    ) -> Result<bool, Stop>
        ensures goes { GoesOn L.holds tx.old tx.new }
        ensures stops { IfErr result (λ stop. Stops (end_of self) tx.old.notes tx.old tx.new stop.why) }
        ensures gives { IfOk result (λ was. Does L.holds (end_of self) (Gives self given.object was)
            tx.old.attempts.caller tx.new.attempts.caller) }
        ensures opens { IfOk result (λ was. OpensToGive self L.holds was tx.old.attempts.caller tx.new.attempts.caller) }
        ensures together { OnOk result (StoodTogether L.holds tx.new.attempts.caller) }
        ensures may { OnOk result ((map : List Val) × MayBegin L.holds tx.new.attempts.caller map) }
    {
        let place = self.place_of(given);
        let Some(at) = place else {
            let _first = tx.get(self.mark_at(0))?;
            return Ok(false);
        };
        let taken = tx.get(self.mark_at(at))?;
        if !taken {
            return Ok(false);
        }
        tx.set(self.mark_at(at), false)?;
        Ok(true)
    }

    // The first place from this one on, in a circle, whose cell is not taken.
    fn free<L: Law, S: Holds<L>>(
        self,
        tx: &mut Attempt<L, S>,
        start: u32,
    ) -> Result<Option<u32>, Stop>
        requires { start < self.cells.capacity }
        ensures goes { GoesOn L.holds tx.old tx.new }
        ensures stops { IfErr result (λ stop. Stops (end_of self) false tx.old tx.new stop.why) }
        ensures within { IfOk result (λ place. IfSome place (λ at. at < self.cells.capacity)) }
        ensures seeks { IfOk result (λ place. Does L.holds (end_of self) (Seeks self start place)
            tx.old.attempts.caller tx.new.attempts.caller) }
        ensures opens { IfOk result (λ place. OpensToSeek self L.holds start place
            tx.old.attempts.caller tx.new.attempts.caller) }
        ensures together { OnOk result (StoodTogether L.holds tx.new.attempts.caller) }
        ensures may { OnOk result ((map : List Val) × MayBegin L.holds tx.new.attempts.caller map) }
    {
        for passed in 0..self.cells.capacity {
            let at = behind(self.cells.capacity, start, passed);
            let mark = tx.get(self.mark_at(at))?;
            if !mark {
                return Ok(Some(at));
            }
        }
        Ok(None)
    }

    // The place of a cell, if it is one of the pool's.
    fn place_of(self, given: Cell<T>) -> Option<u32>
        ensures there { IfSome result (λ at. (at < self.cells.capacity) × (given.object ≡ cell_at self at)) }
        ensures nowhere { result ≡ None →
            (given.object < self.cells.first) ⊎ (self.cells.first + self.cells.capacity ≤ given.object) }
    {
        let object = number(given);
        if object < self.cells.first || object >= self.cells.first + self.cells.capacity {
            return None;
        }
        Some(object - self.cells.first)
    }

    // The cell of a place.
    fn cell_at(self, at: u32) -> Cell<T>
        requires { at < self.cells.capacity }
        ensures { result.object ≡ cell_at self at }
    {
        cell(self.cells.first + at)
    }

    // Its mark: whether it is taken.
    fn mark_at(self, at: u32) -> Cell<bool>
        requires { at < self.cells.capacity }
        ensures { result.object ≡ mark_at self at }
    {
        cell(self.cells.first + self.cells.capacity + at)
    }
}
