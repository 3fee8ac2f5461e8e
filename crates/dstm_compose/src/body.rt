ghost use Rattle.std.specs.Prelude.{◌≡◌, ℕ, ◌≤◌, List, [], length, All, IsSome, IfOk, IfErr, OnOk};
ghost use Rattle.dstm_model.specs.declared.value.Val.{Val};
ghost use Rattle.dstm_model.specs.Layout.{IsValid, FitsLayout};
ghost use Rattle.dstm_model.specs.Store.{Store};
ghost use Rattle.dstm_model.specs.Objects.{objects_of};
ghost use Rattle.dstm_mem.specs.Memory.{with_set};
ghost use Rattle.dstm_mem.specs.Operates.{IsUntouched};
ghost use Rattle.dstm_mem.specs.Operations.{IsFresh, IsReady, Leads, OnlyReads};
ghost use Rattle.dstm_store.specs.Whole.{StandsFor, IsLawful};
ghost use Rattle.dstm_store.specs.Opens.{IsOnlyRead, IsOpenedToSet};
ghost use Rattle.dstm_compose.specs.Compose.{IsRight, Audits, AuditsIn, IsAwaited, IsForeign, KeepsOut};
ghost use Rattle.dstm_compose.specs.Compose.{OnlyLooksIn, SetsIfOpenedIn};

use crate::branch::open_branch;
use dstm_mem::{Body, Mem};
use dstm_model::{Layout, Op, Ops, Replies};
use dstm_store::{JobTask, KeepsReads, StoreLaw, run_all};
use std::marker::Model;

/// How a run of a job with branches ended.
#[derive(Debug, Drop)]
pub enum Outcome {
    /// The first open branch was run, with these replies. Its condition answers yes.
    Ran(Replies),
    /// No branch was open, and nothing was set.
    Blocked,
}

/// The body of one job with branches. It keeps the outcome of the last run that ended without an error.
#[derive(Debug, Drop)]
pub struct CompBody {
    task: JobTask,
    outcome: Outcome,
}

impl Model for CompBody {
    ghost use Rattle.dstm_compose.specs.Compose.{Composition, CanChoose};

    ghost Value = { Composition };

    ghost view = { λ body. record { task = body.task; outcome = body.outcome } };

    ghost invariant = { λ body. CanChoose body.task };
}

impl CompBody {
    /// The body of a job that did not run yet.
    pub fn make(layout: &Layout, ops: &Ops) -> CompBody
        requires valid { IsValid layout.now }
        requires fits { All (FitsLayout layout.now) ops.now }
        ensures layout { result.task.layout ≡ layout.now }
        ensures ops { result.task.ops ≡ ops.now }
        ensures outcome { result.outcome ≡ Outcome.Ran [] }
    {
        let task = JobTask {
            layout: *layout,
            ops: ops.copy(),
        };
        CompBody {
            task,
            outcome: Outcome::Ran(Replies::new()),
        }
    }

    /// How the last run ended that had no error; before it no operation was run.
    pub fn outcome(&self) -> Outcome
        ensures { result ≡ self.now.outcome }
    {
        match &self.outcome {
            Outcome::Ran(replies) => Outcome::Ran(replies.copy()),
            Outcome::Blocked => Outcome::Blocked,
        }
    }
}

impl Body<StoreLaw> for CompBody {
    ghost use Rattle.dstm_compose.specs.Compose.{IsRight, Audits, KeepsOut};

    type Task = JobTask;

    type Outcome = Outcome;

    ghost law = { λ body. record { layout = body.task.layout } };

    ghost task = { λ body. body.task };

    ghost outcome = { λ body. body.outcome };

    ghost right = { λ body before after. IsRight body.task before after body.outcome };

    ghost leaves = { λ body held opened. ((o : ℕ) → Audits body.task body.outcome o → IsSome (held o))
        × KeepsOut body.task held opened };

    // The clauses of the trait, that a run which ends blocked has only read, and only what its job's conditions are
    // about, that a total of the branch that is taken reads every account, and what this branch sets and opens for
    // writing.
    fn run<M: Mem>(&mut self, mem: &mut M) -> Result<(), M::Err>
        requires fresh { IsFresh M.Mem mem.old }
        requires lawful { (map : List Val) → M.Admits mem.old map → IsLawful self.old.task.layout map }

        ensures lawful { OnOk result ((map : List Val) → M.Admits mem.new map →
            IsLawful self.new.task.layout (with_set map (M.written mem.new))) }
        ensures right { OnOk result ((map : List Val) → M.Admits mem.new map →
            IsRight self.new.task map (with_set map (M.written mem.new)) self.new.outcome) }
        ensures leaves { OnOk result (((o : ℕ) → Audits self.new.task self.new.outcome o → IsSome (M.held mem.new o))
            × KeepsOut self.new.task (M.held mem.new) (M.is_opened mem.new)) }
        ensures law { self.new.task.layout ≡ self.old.task.layout }
        ensures task { self.new.task ≡ self.old.task }
        ensures outcome { IfErr result (λ _. self.new.outcome ≡ self.old.outcome) }
        ensures leads { Leads M.Mem mem.old mem.new result }
        ensures looks { OnOk result (self.new.outcome ≡ Outcome.Blocked → OnlyReads M.Mem mem.old mem.new) }
        ensures awaited { OnOk result (self.new.outcome ≡ Outcome.Blocked →
            (o : ℕ) → ¬ (IsAwaited self.new.task.layout self.new.task.ops o) → IsUntouched M.Mem o mem.old mem.new) }
        ensures totals { OnOk result ((map : List Val) → M.Admits mem.new map → (store : Store) →
            StandsFor self.new.task.layout map store → (o : ℕ) → AuditsIn self.new.task store o →
            IsSome (M.held mem.new o)) }
        ensures quiet { OnOk result ((map : List Val) → M.Admits mem.new map → (store : Store) →
            StandsFor self.new.task.layout map store → (o : ℕ) →
            OnlyLooksIn self.new.task store self.new.outcome o → IsOnlyRead M.Mem o mem.old mem.new) }
        ensures marks { OnOk result ((map : List Val) → M.Admits mem.new map → (store : Store) →
            StandsFor self.new.task.layout map store → (o : ℕ) →
            SetsIfOpenedIn self.new.task store self.new.outcome o → IsOpenedToSet M.Mem o mem.old mem.new) }
    {
        self.outcome = run_job(mem, &self.task.layout, self.task.ops.as_slice())?;
        Ok(())
    }
}

// Runs the first open branch of these operations. Where it answers Blocked, it has read enough to tell that no
// branch is open: that holds on each map that is still admitted.
fn run_job<M: Mem>(mem: &mut M, layout: &Layout, ops: &[Op]) -> Result<Outcome, M::Err>
    requires valid { IsValid layout.now }
    requires fits { All (FitsLayout layout.now) ops.now }
    requires short { length ops.now ≤ 8 }
    requires ready { IsReady M.Mem (objects_of layout.now) (StandsFor layout.now) mem.old }
    requires admits { (map : List Val) × M.Admits mem.old map }

    ensures right { IfOk result (λ outcome. (map : List Val) → M.Admits mem.new map →
        IsRight (record { layout = layout.now; ops = ops.now })
        (with_set map (M.written mem.old)) (with_set map (M.written mem.new)) outcome) }
    ensures lawful { OnOk result ((map : List Val) → M.Admits mem.new map →
        IsLawful layout.now (with_set map (M.written mem.new))) }
    ensures looks { IfOk result (λ outcome. outcome ≡ Outcome.Blocked → OnlyReads M.Mem mem.old mem.new) }
    ensures awaited { IfOk result (λ outcome. outcome ≡ Outcome.Blocked →
        (o : ℕ) → ¬ (IsAwaited layout.now ops.now o) → IsUntouched M.Mem o mem.old mem.new) }
    ensures audits { IfOk result (λ outcome. (o : ℕ) →
        Audits (record { layout = layout.now; ops = ops.now }) outcome o → IsSome (M.held mem.new o)) }
    ensures totals { OnOk result ((map : List Val) → M.Admits mem.new map → (store : Store) →
        StandsFor layout.now (with_set map (M.written mem.old)) store → (o : ℕ) →
        AuditsIn (record { layout = layout.now; ops = ops.now }) store o → IsSome (M.held mem.new o)) }
    ensures outside { OnOk result ((o : ℕ) → IsForeign (record { layout = layout.now; ops = ops.now }) o →
        IsUntouched M.Mem o mem.old mem.new) }
    ensures quiet { IfOk result (λ outcome. (map : List Val) → M.Admits mem.new map → (store : Store) →
        StandsFor layout.now (with_set map (M.written mem.old)) store → (o : ℕ) →
        OnlyLooksIn (record { layout = layout.now; ops = ops.now }) store outcome o →
        IsOnlyRead M.Mem o mem.old mem.new) }
    ensures marks { IfOk result (λ outcome. (map : List Val) → M.Admits mem.new map → (store : Store) →
        StandsFor layout.now (with_set map (M.written mem.old)) store → (o : ℕ) →
        SetsIfOpenedIn (record { layout = layout.now; ops = ops.now }) store outcome o →
        IsOpenedToSet M.Mem o mem.old mem.new) }

    ensures leads { Leads M.Mem mem.old mem.new result }
{
    match open_branch(mem, layout, ops)? {
        Some(branch) => {
            let replies = run_all::<M, KeepsReads>(mem, layout, branch)?;
            Ok(Outcome::Ran(replies))
        }
        None => Ok(Outcome::Blocked),
    }
}
