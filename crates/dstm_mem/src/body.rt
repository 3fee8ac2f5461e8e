ghost use Rattle.std.specs.Prelude.{◌≡◌, ℕ, Bool, List, Option, OnOk, IfErr};
ghost use Rattle.dstm_model.specs.declared.value.Val.{Val};
ghost use Rattle.dstm_mem.specs.Memory.{with_set};
ghost use Rattle.dstm_mem.specs.Operations.{IsFresh, Leads};

use crate::memory::Mem;
use dstm_model::Law;

/// The body of a transaction. It has one law, which every map that it leaves obeys, and one task, which
/// says what it was made to do. `run` leaves both as they are, whatever it answers.
pub trait Body<L: Law> {
    /// What it was made to do, as plain data.
    type Task;

    /// What it keeps of its last run that ended without an error, as plain data.
    type Outcome;

    ghost law: { Self → L };

    ghost task: { Self → Self.Task };

    ghost outcome: { Self → Self.Outcome };

    /// The outcome is right for the task, for a transaction that starts at the first map and leaves the
    /// second.
    ghost right: { Self → List Val → List Val → Type 0 };

    /// What a run that ends without an error leaves of its memory: of the reads that this holds, and of the objects that
    /// are opened for writing.
    ghost leaves: { Self → (ℕ → Option Val) → (ℕ → Bool) → Type 0 };

    /// Runs the body once, on a memory in which nothing was read, set or opened for writing. A run that
    /// ends in an error keeps the outcome of the run before.
    fn run<M: Mem>(&mut self, mem: &mut M) -> Result<(), M::Err>
        requires fresh { IsFresh M.Mem mem.old }
        requires lawful { (map : List Val) → M.Admits mem.old map → L.holds (law self.old) map }

        ensures lawful { OnOk result ((map : List Val) → M.Admits mem.new map →
            L.holds (law self.new) (with_set map (M.written mem.new))) }
        ensures right { OnOk result ((map : List Val) → M.Admits mem.new map →
            right self.new map (with_set map (M.written mem.new))) }
        ensures leaves { OnOk result (leaves self.new (M.held mem.new) (M.is_opened mem.new)) }
        ensures law { law self.new ≡ law self.old }
        ensures task { task self.new ≡ task self.old }
        ensures outcome { IfErr result (λ _. outcome self.new ≡ outcome self.old) }
        ensures leads { Leads M.Mem mem.old mem.new result };
}
