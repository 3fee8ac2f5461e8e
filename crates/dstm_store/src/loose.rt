ghost use Rattle.std.specs.Prelude.{◌≡◌, ℕ, List, [], false, All, IsSome, IfErr, OnOk};
ghost use Rattle.dstm_model.specs.declared.value.Val.{Val};
ghost use Rattle.dstm_model.specs.Layout.{IsValid, FitsLayout};
ghost use Rattle.dstm_model.specs.Store.{IsPlain};
ghost use Rattle.dstm_mem.specs.Memory.{with_set, HoldsAtMost};
ghost use Rattle.dstm_mem.specs.Operations.{IsFresh, Leads};
ghost use Rattle.dstm_store.specs.Whole.{IsLawful};
ghost use Rattle.dstm_store.specs.Job.{DoesAll, Audits, KeepsAtMost, KeepsOut};
ghost use Rattle.dstm_store.specs.Opens.{OnlyLooksAt, SetsIfOpened, IsOnlyRead, IsOpenedToSet};

use crate::job::{JobTask, run_fresh};
use crate::law::StoreLaw;
use crate::lists::HandOverHand;
use dstm_mem::{LooseBody, Release};
use dstm_model::{Layout, Ops, Replies};
use std::marker::Model;

/// The body of one job that lets reads go: a [`JobBody`](crate::JobBody) whose operations on the list walk hand over
/// hand. A job of such operations alone keeps few reads, however long the list is: at most five for an insertion, four
/// for a removal and three for a lookup. It keeps the replies of the last run that ended without an error.
#[derive(Debug, Drop)]
pub struct LooseJobBody {
    task: JobTask,
    replies: Replies,
}

impl Model for LooseJobBody {
    ghost use Rattle.dstm_store.specs.Job.{Job, CanRun};

    ghost Value = { Job };

    ghost view = { λ job. record { task = job.task; replies = job.replies } };

    ghost invariant = { λ job. CanRun job.task };
}

impl LooseJobBody {
    /// The body of a job that did not run yet.
    pub fn make(layout: &Layout, ops: &Ops) -> LooseJobBody
        requires valid { IsValid layout.now }
        requires fits { All (FitsLayout layout.now) ops.now }
        requires plain { All IsPlain ops.now }
        ensures layout { result.task.layout ≡ layout.now }
        ensures ops { result.task.ops ≡ ops.now }
        ensures replies { result.replies ≡ [] }
    {
        let task = JobTask {
            layout: *layout,
            ops: ops.copy(),
        };
        LooseJobBody {
            task,
            replies: Replies::new(),
        }
    }

    /// The replies of the last run that ended without an error, in the order of the operations; before
    /// it there are none.
    pub fn replies(&self) -> Replies
        ensures { result ≡ self.now.replies }
    {
        self.replies.copy()
    }
}

impl LooseBody<StoreLaw> for LooseJobBody {
    ghost use Rattle.dstm_store.specs.Job.{DoesAll, Audits, KeepsAtMost, KeepsOut};

    type Task = JobTask;

    type Outcome = Replies;

    ghost law = { λ job. record { layout = job.task.layout } };

    ghost task = { λ job. job.task };

    ghost outcome = { λ job. job.replies };

    ghost right = { λ job before after. DoesAll job.task before after job.replies };

    ghost leaves = { λ job held opened. ((o : ℕ) → Audits job.task o → IsSome (held o)) × KeepsOut job.task held opened };

    ghost keeps_at_most = { λ job. KeepsAtMost job.task };

    // The clauses of the trait, and which of its own objects a job sets and opens for writing.
    fn run<M: Release>(&mut self, mem: &mut M) -> Result<(), M::Err>
        requires fresh { IsFresh M.Mem mem.old }
        requires lawful { (map : List Val) → M.Mem.Admits mem.old map → IsLawful self.old.task.layout map }

        ensures lawful { OnOk result ((map : List Val) → M.Mem.Admits mem.new map →
            IsLawful self.new.task.layout (with_set map (M.Mem.written mem.new))) }
        ensures right { OnOk result ((map : List Val) → M.Mem.Admits mem.new map →
            DoesAll self.new.task map (with_set map (M.Mem.written mem.new)) self.new.replies) }
        ensures leaves { OnOk result (((o : ℕ) → Audits self.new.task o → IsSome (M.Mem.held mem.new o))
            × KeepsOut self.new.task (M.Mem.held mem.new) (M.Mem.is_opened mem.new)) }
        ensures few { OnOk result (M.Mem.all_write (M.Mem.place mem.old) ≡ false →
            (most : ℕ) → KeepsAtMost self.new.task most → HoldsAtMost most (M.Mem.held mem.new)) }
        ensures law { self.new.task.layout ≡ self.old.task.layout }
        ensures task { self.new.task ≡ self.old.task }
        ensures outcome { IfErr result (λ _. self.new.replies ≡ self.old.replies) }
        ensures leads { Leads M.Mem mem.old mem.new result }
        ensures quiet { OnOk result ((o : ℕ) → OnlyLooksAt self.new.task self.new.replies o →
            IsOnlyRead M.Mem o mem.old mem.new) }
        ensures marks { OnOk result ((o : ℕ) → SetsIfOpened self.new.task self.new.replies o →
            IsOpenedToSet M.Mem o mem.old mem.new) }
    {
        self.replies = run_fresh::<M, HandOverHand>(mem, &self.task.layout, &self.task.ops)?;
        Ok(())
    }
}
