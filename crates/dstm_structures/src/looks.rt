// Looks at the cells of a map: by a transaction under way, or between runs.
ghost use Rattle.std.specs.Prelude.{◌≡◌, ◌<◌, ℕ, Bool, List, length, false, true, IfErr, IfOk, OnOk};
ghost use Rattle.dstm_model.specs.Map.{value_at};
ghost use Rattle.dstm_model.specs.declared.value.Val.{Val};
ghost use Rattle.dstm_structures.specs.Effects.{Stops};
ghost use Rattle.dstm_structures.specs.Looks.{OnlyLooks, Shows, StandsAt, StandsSomewhere};

use dstm_cells::{Attempt, Cell, Failed, Holds, Memory, Stop, Word};
use dstm_model::Law;
use std::alloc::AllocError;

// What looks at cells.
pub(crate) trait Looks {
    // Why a look fails.
    type Err;

    // It stands at these values, if it has begun at this map.
    ghost Stands: { Self → List Val → List Val → Type 0 };

    // What it has read stood together at one moment.
    ghost Together: { Self → Type 0 };

    // It has only looked, and stands where it stood.
    ghost Stays: { Self → Self → Type 0 };

    // Why looks at cells among so many fail, and what that leaves; and whether a list is made, for which there may not be enough
    // memory.
    ghost Fails: { (lists : Bool) → ℕ → (old new : Self) → Self.Err → Type 0 };

    // What a cell holds.
    fn look<T: Word>(&mut self, cell: Cell<T>) -> Result<T, Self::Err>
        ensures stays { Stays self.old self.new }
        ensures fails { IfErr result (λ why. (size : ℕ) → cell.object < size → Fails false size self.old self.new why) }
        ensures is { IfOk result (λ value. Shows Stands (λ values. value ≡ T.found (value_at values cell.object)) self.new) }
        ensures may { OnOk result (StandsSomewhere Stands Together self.new) };

    // There is not enough memory for a list.
    fn lacks(error: AllocError) -> Self::Err
        ensures { (size : ℕ) (old new : Self) → Fails true size old new result };

    ghost still: { (k : Self) → Stays k k };

    ghost again: { (k m n : Self) → Stays k m → Stays m n → Stays k n };

    ghost narrows: { (k n : Self) (map values : List Val) → Stays k n → Stands n map values → Stands k map values };

    ghost fails_later: { (lists : Bool) (size : ℕ) (k m n : Self) (why : Self.Err) → Stays k m → Fails lists size m n why →
        Fails lists size k n why };

    ghost fails_listing: { (size : ℕ) (k n : Self) (why : Self.Err) → Fails false size k n why → Fails true size k n why };
}

impl<L: Law, S: Holds<L>> Looks for Attempt<L, S> {
    ghost use Rattle.dstm_attempts.specs.Attempts.{StoodTogether};
    ghost use Rattle.dstm_structures.specs.Looks.{looks-again, looks-narrow, looks-still, stops-later, stops-listing};

    type Err = Stop;

    ghost Stands = { λ tx. StandsAt L.holds tx };

    ghost Together = { λ tx. StoodTogether L.holds tx.attempts.caller };

    ghost Stays = { λ old new. OnlyLooks L.holds old new };

    ghost Fails = { λ lists size old new stop. Stops size lists old new stop.why };

    fn look<T: Word>(&mut self, cell: Cell<T>) -> Result<T, Stop> {
        let value = self.get(cell)?;
        Ok(value)
    }

    fn lacks(error: AllocError) -> Stop {
        Stop::from(error)
    }

    ghost still = { λ k. looks-still L.holds k };

    ghost again = { λ k m n. looks-again L.holds k m n };

    ghost narrows = { λ k n. looks-narrow L.holds k n };

    ghost fails_later = { λ lists size k m n stop. stops-later L.holds lists size k m n stop.why };

    ghost fails_listing = { λ size k n stop. stops-listing L.holds size k n stop.why };
}

// A memory between runs.
#[derive(Clone, Copy)]
pub(crate) struct Between<'a, L: Law> {
    pub(crate) memory: &'a Memory<L>,
}

impl<L: Law + Copy> Looks for Between<'_, L> {
    ghost use Rattle.std.proofs.Common.{◌∙◌, ap, refl, subst, sym};
    ghost use Rattle.dstm_structures.specs.Looks.{FailsBetween, between-listing};

    type Err = Failed;

    ghost Stands = { λ by map values. by.memory.now.values.items ≡ values };

    ghost Together = { λ by. Unit {0} };

    ghost Stays = { λ old new. new ≡ old };

    ghost Fails = { λ lists size old new why. FailsBetween lists size (length old.memory.now.values.items) why };

    fn look<T: Word>(&mut self, cell: Cell<T>) -> Result<T, Failed> {
        let value = self.memory.get(cell)?;
        Ok(value)
    }

    fn lacks(error: AllocError) -> Failed {
        Failed::from(error)
    }

    ghost still = { λ k. refl };

    ghost again = { λ k m n one two. two ∙ one };

    ghost narrows = { λ k n map values stays at. ap (λ b. b.memory.now.values.items) (sym stays) ∙ at };

    ghost fails_later = { λ lists size k m n why stays. subst
        (λ b. FailsBetween lists size (length b.memory.now.values.items) why) stays };

    ghost fails_listing = { λ size k n why. between-listing size (length k.memory.now.values.items) why };
}
