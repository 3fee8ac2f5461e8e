ghost use Rattle.std.specs.Prelude.{◌≡◌, ℕ, ◌<◌, ◌≤◌, List, [], length, true, false, All, IsSome, IfOk, IfErr, OnOk};
ghost use Rattle.dstm_model.specs.declared.value.Val.{Val};
ghost use Rattle.dstm_model.specs.Layout.{IsValid, FitsLayout};
ghost use Rattle.dstm_model.specs.Store.{IsPlain};
ghost use Rattle.dstm_model.specs.Objects.{objects_of};
ghost use Rattle.dstm_mem.specs.Memory.{with_set, HoldsAtMost};
ghost use Rattle.dstm_mem.specs.Operations.{IsFresh, IsReady, Leads};
ghost use Rattle.dstm_mem.specs.Operates.{Applies, IsUntouched};
ghost use Rattle.dstm_store.specs.Whole.{StandsFor, IsLawful};
ghost use Rattle.dstm_store.specs.Job.{DoesAll, Audits, IsForeign, KeepsAtMost, KeepsOut};
ghost use Rattle.dstm_store.specs.Concerns.{Concerns};
ghost use Rattle.dstm_store.specs.Keeps.{is_of_list, most_kept, TouchesAtMost};
ghost use Rattle.dstm_store.specs.Opens.{OnlyLooksAt, SetsIfOpened, IsOnlyRead, IsOpenedToSet};

use crate::law::StoreLaw;
use crate::lists::{KeepsReads, ListWalk};
use crate::run::run_with;
use dstm_mem::{Body, Mem};
use dstm_model::{Layout, Op, Ops, Replies, Reply};
use std::marker::Model;

/// What a job is made to do: these operations, on a store of this layout.
#[derive(Debug, Drop)]
pub struct JobTask {
    pub layout: Layout,
    pub ops: Ops,
}

/// The body of one job. It keeps the replies of the last run that ended without an error.
#[derive(Drop)]
pub struct JobBody<'a> {
    layout: &'a Layout,
    ops: &'a Ops,
    replies: Replies,
}

impl<'a> Model for JobBody<'a> {
    ghost use Rattle.dstm_store.specs.Job.{Job, CanRun};

    ghost Value = { Job };

    ghost view = { λ job. record { task = record { layout = job.layout.now; ops = job.ops.now }; replies = job.replies } };

    ghost invariant = { λ job. CanRun (record { layout = job.layout.now; ops = job.ops.now }) };
}

impl<'a> JobBody<'a> {
    /// The body of a job that did not run yet.
    pub fn make(layout: &'a Layout, ops: &'a Ops) -> JobBody<'a>
        requires valid { IsValid layout.now }
        requires fits { All (FitsLayout layout.now) ops.now }
        requires plain { All IsPlain ops.now }
        ensures layout { result.task.layout ≡ layout.now }
        ensures ops { result.task.ops ≡ ops.now }
        ensures replies { result.replies ≡ [] }
    {
        JobBody {
            layout,
            ops,
            replies: Replies::new(),
        }
    }

    /// The replies of the last run that ended without an error, in the order of the operations; before
    /// it there are none.
    pub fn replies(&self) -> Replies
        ensures { result ≡ self.now.replies }
    {
        self.replies.copy()
    }

    /// The same, at the body's end.
    pub fn into_replies(self) -> Replies
        ensures { result ≡ self.entry.replies }
    {
        let JobBody { replies, .. } = self;
        replies
    }
}

impl<'a> Body<StoreLaw> for JobBody<'a> {
    ghost use Rattle.dstm_store.specs.Job.{DoesAll, Audits, KeepsOut};

    type Task = JobTask;

    type Outcome = Replies;

    ghost law = { λ job. record { layout = job.task.layout } };

    ghost task = { λ job. job.task };

    ghost outcome = { λ job. job.replies };

    ghost right = { λ job before after. DoesAll job.task before after job.replies };

    ghost leaves = { λ job held opened. ((o : ℕ) → Audits job.task o → IsSome (held o)) × KeepsOut job.task held opened };

    // The clauses of the trait, and which of its own objects a job sets and opens for writing.
    fn run<M: Mem>(&mut self, mem: &mut M) -> Result<(), M::Err>
        requires fresh { IsFresh M.Mem mem.old }
        requires lawful { (map : List Val) → M.Admits mem.old map → IsLawful self.old.task.layout map }

        ensures lawful { OnOk result ((map : List Val) → M.Admits mem.new map →
            IsLawful self.new.task.layout (with_set map (M.written mem.new))) }
        ensures right { OnOk result ((map : List Val) → M.Admits mem.new map →
            DoesAll self.new.task map (with_set map (M.written mem.new)) self.new.replies) }
        ensures leaves { OnOk result (((o : ℕ) → Audits self.new.task o → IsSome (M.held mem.new o))
            × KeepsOut self.new.task (M.held mem.new) (M.is_opened mem.new)) }
        ensures law { self.new.task.layout ≡ self.old.task.layout }
        ensures task { self.new.task ≡ self.old.task }
        ensures outcome { IfErr result (λ _. self.new.replies ≡ self.old.replies) }
        ensures leads { Leads M.Mem mem.old mem.new result }
        ensures quiet { OnOk result ((o : ℕ) → OnlyLooksAt self.new.task self.new.replies o →
            IsOnlyRead M.Mem o mem.old mem.new) }
        ensures marks { OnOk result ((o : ℕ) → SetsIfOpened self.new.task self.new.replies o →
            IsOpenedToSet M.Mem o mem.old mem.new) }
    {
        self.replies = run_fresh::<M, KeepsReads>(mem, self.layout, self.ops)?;
        Ok(())
    }
}

/// Runs operations in order as the body of a transaction: on a fresh memory, from any map that it admits.
#[inline(always)]
pub(crate) fn run_fresh<M: Mem, L: ListWalk<M>>(
    mem: &mut M,
    layout: &Layout,
    ops: &Ops,
) -> Result<Replies, M::Err>
    requires valid { IsValid layout.now }
    requires fits { All (FitsLayout layout.now) ops.now }
    requires fresh { IsFresh M.Mem mem.old }
    requires lawful { (map : List Val) → M.Admits mem.old map → IsLawful layout.now map }

    ensures right { IfOk result (λ replies. (map : List Val) → M.Admits mem.new map →
        DoesAll (record { layout = layout.now; ops = ops.now }) map (with_set map (M.written mem.new)) replies) }
    ensures lawful { OnOk result ((map : List Val) → M.Admits mem.new map →
        IsLawful layout.now (with_set map (M.written mem.new))) }
    ensures audits { OnOk result ((o : ℕ) → Audits (record { layout = layout.now; ops = ops.now }) o →
        IsSome (M.held mem.new o)) }
    ensures few { L.lets_go ≡ true → M.all_write (M.place mem.old) ≡ false →
        OnOk result ((most : ℕ) → KeepsAtMost (record { layout = layout.now; ops = ops.now }) most →
        HoldsAtMost most (M.held mem.new)) }
    ensures outside { OnOk result (KeepsOut (record { layout = layout.now; ops = ops.now }) (M.held mem.new)
        (M.is_opened mem.new)) }
    ensures quiet { IfOk result (λ replies. (o : ℕ) →
        OnlyLooksAt (record { layout = layout.now; ops = ops.now }) replies o → IsOnlyRead M.Mem o mem.old mem.new) }
    ensures marks { IfOk result (λ replies. (o : ℕ) →
        SetsIfOpened (record { layout = layout.now; ops = ops.now }) replies o →
        IsOpenedToSet M.Mem o mem.old mem.new) }

    ensures leads { Leads M.Mem mem.old mem.new result }
{
    let replies = run_all::<M, L>(mem, layout, ops.as_slice())?;
    Ok(replies)
}

/// Runs operations in order, and answers their replies. A condition among them was seen to hold, so it
/// answers yes.
pub fn run_all<M: Mem, L: ListWalk<M>>(
    mem: &mut M,
    layout: &Layout,
    ops: &[Op],
) -> Result<Replies, M::Err>
    requires valid { IsValid layout.now }
    requires fits { All (FitsLayout layout.now) ops.now }
    requires short { length ops.now ≤ 8 }
    requires ready { IsReady M.Mem (objects_of layout.now) (StandsFor layout.now) mem.old }
    requires admits { (map : List Val) × M.Admits mem.old map }

    ensures does { IfOk result (λ replies. (map : List Val) → M.Admits mem.new map →
        DoesAll (record { layout = layout.now; ops = ops.now })
        (with_set map (M.written mem.old)) (with_set map (M.written mem.new)) replies) }
    ensures lawful { OnOk result ((map : List Val) → M.Admits mem.new map →
        IsLawful layout.now (with_set map (M.written mem.new))) }
    ensures audits { OnOk result ((o : ℕ) → Audits (record { layout = layout.now; ops = ops.now }) o →
        IsSome (M.held mem.new o)) }
    ensures few { L.lets_go ≡ true → IsFresh M.Mem mem.old → M.all_write (M.place mem.old) ≡ false →
        OnOk result ((most : ℕ) → KeepsAtMost (record { layout = layout.now; ops = ops.now }) most →
        HoldsAtMost most (M.held mem.new)) }
    ensures outside { OnOk result ((o : ℕ) → IsForeign (record { layout = layout.now; ops = ops.now }) o →
        IsUntouched M.Mem o mem.old mem.new) }
    ensures quiet { IfOk result (λ replies. (o : ℕ) →
        OnlyLooksAt (record { layout = layout.now; ops = ops.now }) replies o → IsOnlyRead M.Mem o mem.old mem.new) }
    ensures marks { IfOk result (λ replies. (o : ℕ) →
        SetsIfOpened (record { layout = layout.now; ops = ops.now }) replies o →
        IsOpenedToSet M.Mem o mem.old mem.new) }

    ensures leads { Leads M.Mem mem.old mem.new result }
{
    let mut replies = Replies::new();
    for op in ops {
        let reply = run_in_branch::<M, L>(mem, layout, op)?;
        replies.push(reply);
    }
    Ok(replies)
}

// Runs one operation of a branch that is taken.
fn run_in_branch<M: Mem, L: ListWalk<M>>(
    mem: &mut M,
    layout: &Layout,
    op: &Op,
) -> Result<Reply, M::Err>
    requires valid { IsValid layout.now }
    requires fits { FitsLayout layout.now op.now }
    requires ready { IsReady M.Mem (objects_of layout.now) (StandsFor layout.now) mem.old }
    requires admits { (map : List Val) × M.Admits mem.old map }

    ensures applies { Applies M.Mem (Concerns layout.now op.now) (StandsFor layout.now) op.now mem.old mem.new result }
    ensures audits { op.now ≡ Op.Total → OnOk result ((a : ℕ) → a < layout.now.accounts →
        IsSome (M.held mem.new a)) }
    ensures touches { L.lets_go ≡ true → M.all_write (M.place mem.old) ≡ false → is_of_list op.now ≡ true →
        OnOk result (TouchesAtMost (most_kept op.now) M.Mem mem.old mem.new) }
{
    match op {
        Op::Await(_) | Op::OrElse => Ok(Reply::Yes),
        _ => run_with::<M, L>(mem, layout, op),
    }
}
