// What makes the transactions of a thread, one after the other.
ghost use Rattle.std.specs.Prelude.{◌++◌, ◌≡◌, ◌<◌, ℕ, List, [], true, false, length, IfErr, OnOk};
ghost use Rattle.dstm_tables.specs.declared.tables.Caller.{Caller};
ghost use Rattle.dstm_attempts.specs.Attempts.{AddsNothing, Begins, BeginsNone, IsLost, IsQuit, IsSpent, Keeps, LeavesLawful, TakesEffect, attempts_of, begun, renewed};
ghost use Rattle.dstm_cells.specs.Alternatives.{HasSetBack, Noting, StopsUndoing, Undoes, noting, settings};
ghost use Rattle.dstm_cells.specs.Attempts.{FollowsAndLeaves, IsLeft, StaysFor, WithinLooks};
ghost use Rattle.dstm_cells.specs.declared.error.GaveUp.TheVariants.{Spent};
ghost use Rattle.dstm_cells.specs.declared.under_way.Undo.{Undo};

use crate::error::{GaveUp, Stop};
use crate::holds::Holds;
use crate::rest::Rest;
use crate::under_way::Attempt;
use dstm_model::Law;

/// What makes the transactions of a thread, one after the other, on a memory under a law: an `Attempt`.
pub trait Transaction: Drop {
    /// The law.
    type Rule: Law;

    /// The caller of a table that makes the attempts.
    ghost caller: { Self → Caller Self.Rule };

    /// How often a transaction that retries looks at most.
    ghost patience: { Self → ℕ };

    /// The attempt, and what it notes so that an alternative can be undone.
    ghost noting: { Self → Noting Self.Rule };

    /// The attempts of its caller in a run.
    fn attempts(&self) -> u64
        ensures { result ≡ attempts_of (caller self.now) };

    /// Makes the next attempt the first of a new transaction.
    fn renew(&mut self)
        ensures caller { caller self.new ≡ renewed (caller self.old) }
        ensures patience { patience self.new ≡ patience self.old };

    /// Begins an attempt.
    fn begin(&mut self) -> Result<(), GaveUp>
        ensures begins { OnOk result (Begins Self.Rule.holds (caller self.old) (caller self.new)) }
        ensures unbegun { IfErr result (λ _. BeginsNone Self.Rule.holds (caller self.old) (caller self.new)) }
        ensures spent { IfErr result (λ why. (why ≡ Spent) × IsSpent (caller self.new)) }
        ensures none { IfErr result (λ _. begun (caller self.new) ≡ begun (caller self.old)) }
        ensures quit { IfErr result (λ _. IsQuit (caller self.new)) }
        ensures nothing { AddsNothing (caller self.old) (caller self.new) }
        ensures unnoted { ((noting self.new).notes ≡ false) × ((noting self.new).undos ≡ []) }
        ensures patience { patience self.new ≡ patience self.old };

    /// Commits the attempt, and tells whether it has taken effect.
    fn commit(&mut self) -> bool
        requires lawful { LeavesLawful Self.Rule.holds (caller self.old) }
        ensures takes { result ≡ true → TakesEffect Self.Rule.holds (caller self.old) (caller self.new) }
        ensures keeps { result ≡ false → Keeps (caller self.old) (caller self.new) }
        ensures lost { result ≡ false → IsLost Self.Rule.holds (caller self.old) (caller self.new) }
        ensures patience { patience self.new ≡ patience self.old };

    /// Leaves the attempt, so that nothing of it takes effect, and tells whether it was under way until then.
    fn finish(&mut self) -> bool
        ensures leaves { IsLeft Self.Rule.holds result (caller self.old) (caller self.new) }
        ensures lost { result ≡ false → IsLost Self.Rule.holds (caller self.old) (caller self.new) }
        ensures patience { patience self.new ≡ patience self.old };

    /// Leaves the attempt that a closure has stopped, and tells whether there may be another one.
    fn leave<R: Rest>(&mut self, stop: Stop, rest: &mut R) -> Result<(), GaveUp>
        ensures stays { StaysFor stop.why (caller self.old) (caller self.new) }
        ensures quit { IsQuit (caller self.new) }
        ensures follows { WithinLooks R.tires (patience self.old) (λ looks.
            FollowsAndLeaves Self.Rule.holds looks (caller self.old) stop.why (caller self.new) result) }
        ensures patience { patience self.new ≡ patience self.old };

    /// How often a transaction that retries looks at most whether something that it has read has changed.
    fn set_looks(&mut self, looks: u32)
        ensures same { caller self.new ≡ caller self.old }
        ensures looks { patience self.new ≡ looks };

    /// From here on it notes what it sets, or no longer. Tells whether it did before.
    fn note(&mut self, notes: bool) -> bool
        ensures before { result ≡ (noting self.old).notes }
        ensures notes { noting self.new ≡ record (noting self.old) { notes = notes } };

    /// How much it has noted.
    fn noted(&self) -> usize
        ensures { result ≡ length (noting self.now).undos };

    /// Undoes what was set since so much was noted, the last one first.
    fn undo_to(&mut self, kept: usize) -> Result<(), Stop>
        ensures keeps { Keeps (noting self.old).caller (noting self.new).caller }
        ensures notes { settings (noting self.new) ≡ settings (noting self.old) }
        ensures undone { OnOk result ((first added : List Undo) → (noting self.old).undos ≡ first ++ added → length first ≡ kept
            → Undoes Self.Rule.holds first added [] (noting self.old) (noting self.new)) }
        ensures back { OnOk result ((first added : List Undo) → (noting self.old).undos ≡ first ++ added → length first ≡ kept
            → HasSetBack Self.Rule.holds (noting self.old).undos first (noting self.old).caller (noting self.new).caller) }
        ensures left { IfErr result (λ _. (first added : List Undo) → (noting self.old).undos ≡ first ++ added
            → length first ≡ kept
            → (left : List Undo) × Undoes Self.Rule.holds first added left (noting self.old) (noting self.new)) }
        ensures some { IfErr result (λ _. kept < length (noting self.old).undos) }
        ensures stops { IfErr result (StopsUndoing Self.Rule.holds (noting self.old).undos (noting self.old).caller
            (noting self.new).caller) };
}

impl<L: Law, S: Holds<L>> Transaction for Attempt<L, S> {
    type Rule = L;

    ghost caller = { λ tx. tx.attempts.caller };

    ghost patience = { λ tx. tx.looks };

    ghost noting = { noting };

    fn attempts(&self) -> u64 {
        self.attempts.attempts(self.table.table())
    }

    fn renew(&mut self) {
        self.attempts.renew();
    }

    fn begin(&mut self) -> Result<(), GaveUp> {
        self.undos.clear();
        self.notes = false;
        let Ok(()) = self.attempts.begin(self.table.table()) else {
            return Err(GaveUp::Spent);
        };
        Ok(())
    }

    #[inline(always)]
    fn commit(&mut self) -> bool {
        self.attempts.commit(self.table.table())
    }

    #[inline(always)]
    fn finish(&mut self) -> bool {
        let is_under_way = self.attempts.is_under_way();
        if is_under_way {
            self.attempts.abandon(self.table.table());
        }
        is_under_way
    }

    fn leave<R: Rest>(&mut self, stop: Stop, rest: &mut R) -> Result<(), GaveUp> {
        let Stop { why } = stop;
        let next = self.follow(why, rest);
        self.attempts.abandon(self.table.table());
        next
    }

    fn set_looks(&mut self, looks: u32) {
        self.looks = looks;
    }

    fn note(&mut self, notes: bool) -> bool {
        let before = self.notes;
        self.notes = notes;
        before
    }

    fn noted(&self) -> usize {
        self.undos.len()
    }

    fn undo_to(&mut self, kept: usize) -> Result<(), Stop> {
        while self.undos.len() > kept {
            let last = self.undos.len() - 1;
            let undo = self.undos[last];
            self.put(undo.object, undo.value)?;
            self.undos.truncate(last);
        }
        Ok(())
    }
}
