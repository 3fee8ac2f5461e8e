// What threads do in a run under a law.
ghost use Rattle.std.specs.Prelude.{◌≡◌, ℕ, Result};
ghost use Rattle.dstm_cells.specs.declared.error.GaveUp.{GaveUp};
ghost use Rattle.dstm_tables.specs.Callers.{home_of};
ghost use Rattle.dstm_tables.specs.declared.tables.Caller.{Caller};

use crate::error::GaveUp;
use crate::thread::Me;
use dstm_model::Law;

/// What the threads of a run do, each with its number, on a memory under a law.
pub trait Work<L: Law> {
    /// What is known once the thread of this number has ended like this: `Unit`, where nothing is to be told.
    ghost ends: { Self → ℕ → Result (Unit {0}) GaveUp → Type 0 };

    /// What the thread of this number has done, from the caller of its part as it was to that which it has left: `Unit`,
    /// where nothing is to be told.
    ghost does: { Self → ℕ → Caller L → Caller L → Type 0 };

    /// Does a thread's work, by transactions of its part, and leaves this part and no other one in its place.
    fn work(&self, me: &mut Me<'_, L>, number: usize) -> Result<(), GaveUp>
        ensures ends { ends self.now number result }
        ensures does { does self.now number me.old.tx.attempts.caller me.new.tx.attempts.caller }
        ensures part { home_of me.new.tx.attempts.caller ≡ home_of me.old.tx.attempts.caller };
}
