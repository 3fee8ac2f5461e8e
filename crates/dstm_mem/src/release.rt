ghost use Rattle.std.specs.Prelude.{◌≡◌, ℕ, ◌<◌, ◌&&◌, ◌↔◌, Bool, List, Option, is_some, not, IsTrue, false, OnOk, IfErr};
ghost use Rattle.dstm_model.specs.declared.value.Val.{Val};
ghost use Rattle.dstm_mem.specs.Memory.{with_set, AgreesWith, HoldsAtMost, HoldsWithout};
ghost use Rattle.dstm_mem.specs.Operations.{IsFresh, Leads};
ghost use Rattle.dstm_mem.specs.Release.{AdmitsWhatItHolds};

use crate::memory::Mem;
use dstm_model::Law;

/// A memory whose reads can be let go. At every moment a live one admits exactly those maps, of the ones that
/// it admitted before its first open, that have every value that it holds: both laws say it together, since
/// before its first open it holds nothing. So a map that it admits no more where a read is added can be
/// admitted again where that read is let go.
pub trait Release: Mem {
    /// The maps that the memory admitted before its first open.
    ghost Began: { Self → List Val → Type 0 };

    /// The object is among the reads, and was not opened for writing.
    fn is_read(&self, o: u32) -> bool
        requires exists { o < Self.objects self.now }
        ensures { result ≡ (is_some (Self.held self.now o) && not (Self.is_opened self.now o)) };

    /// Lets a read go. An object that is opened later is found anew, maybe with another value.
    fn release(&mut self, o: u32)
        requires exists { o < Self.objects self.old }
        requires live { IsTrue (Self.is_live self.old) }
        requires read { IsTrue (is_some (Self.held self.old o) && not (Self.is_opened self.old o)) }

        ensures held { HoldsWithout o (Self.held self.old) (Self.held self.new) }
        ensures written { (p : ℕ) → Self.written self.new p ≡ Self.written self.old p }
        ensures opened { (p : ℕ) → Self.is_opened self.new p ≡ Self.is_opened self.old p }

        ensures place { Self.place self.new ≡ Self.place self.old }
        ensures objects { Self.objects self.new ≡ Self.objects self.old }
        ensures widens { (map : List Val) → Self.Admits self.old map → Self.Admits self.new map }
        ensures live { IsTrue (Self.is_live self.new) };

    /// A live memory admits exactly those of the maps that it began with that have every value that is held.
    ghost admits_exactly: { (s : Self) (map : List Val) → IsTrue (Self.is_live s) →
        Self.Admits s map ↔ (Began s map × AgreesWith map (Self.held s)) };

    /// The maps that a memory began with stay the same.
    ghost began_stays: { (s t : Self) (map : List Val) → Self.place s ≡ Self.place t → Began s map → Began t map };
}

/// At every moment a live memory admits exactly those maps, of the ones that it admitted before its first open,
/// that have every value that it holds.
pub fn admits_what_it_holds<M: Release>()
    ensures { AdmitsWhatItHolds M.Mem }
{}

/// The body of a transaction that lets reads go: a [`Body`](crate::Body) for these memories alone. At its end
/// all that it promises holds of every map that has the values of the reads that are kept.
pub trait LooseBody<L: Law> {
    /// What it was made to do, as plain data.
    type Task;

    /// What it keeps of its last run that ended without an error, as plain data.
    type Outcome;

    ghost law: { Self → L };

    ghost task: { Self → Self.Task };

    ghost outcome: { Self → Self.Outcome };

    /// The outcome is right for the task, for a transaction that starts at the first map and leaves the
    /// second.
    ghost right: { Self → List Val → List Val → Type 0 };

    /// What a run that ends without an error leaves of its memory: of the reads that are kept, and of the objects that are
    /// opened for writing.
    ghost leaves: { Self → (ℕ → Option Val) → (ℕ → Bool) → Type 0 };

    /// A run that ends without an error, on a memory whose reads stay reads, keeps at most so many.
    ghost keeps_at_most: { Self → ℕ → Type 0 };

    /// Runs the body once, on a memory in which nothing was read, set or opened for writing. A run that
    /// ends in an error keeps the outcome of the run before.
    fn run<M: Release>(&mut self, mem: &mut M) -> Result<(), M::Err>
        requires fresh { IsFresh M.Mem mem.old }
        requires lawful { (map : List Val) → M.Mem.Admits mem.old map → L.holds (law self.old) map }

        ensures lawful { OnOk result ((map : List Val) → M.Mem.Admits mem.new map →
            L.holds (law self.new) (with_set map (M.Mem.written mem.new))) }
        ensures right { OnOk result ((map : List Val) → M.Mem.Admits mem.new map →
            right self.new map (with_set map (M.Mem.written mem.new))) }
        ensures leaves { OnOk result (leaves self.new (M.Mem.held mem.new) (M.Mem.is_opened mem.new)) }
        ensures few { OnOk result (M.Mem.all_write (M.Mem.place mem.old) ≡ false →
            (most : ℕ) → keeps_at_most self.new most → HoldsAtMost most (M.Mem.held mem.new)) }
        ensures law { law self.new ≡ law self.old }
        ensures task { task self.new ≡ task self.old }
        ensures outcome { IfErr result (λ _. outcome self.new ≡ outcome self.old) }
        ensures leads { Leads M.Mem mem.old mem.new result };
}
