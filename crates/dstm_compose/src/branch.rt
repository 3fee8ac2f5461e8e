ghost use Rattle.std.specs.Prelude.{◌≡◌, ℕ, ◌≤◌, Contains, List, length, All, IfOk, OnOk, IfSome, option_copied};
ghost use Rattle.dstm_model.specs.declared.value.Val.{Val};
ghost use Rattle.dstm_model.specs.declared.op.Op.{Op};
ghost use Rattle.dstm_model.specs.Layout.{IsValid, FitsLayout, FitsCond};
ghost use Rattle.dstm_model.specs.Store.{Store};
ghost use Rattle.dstm_model.specs.Job.{open_branch, is_open, holds_in, branches_of};
ghost use Rattle.dstm_model.specs.Objects.{objects_of};
ghost use Rattle.dstm_mem.specs.Memory.{with_set};
ghost use Rattle.dstm_mem.specs.Operations.{IsReady, Leads, OnlyReads};
ghost use Rattle.dstm_mem.specs.Operates.{IsUntouched};
ghost use Rattle.dstm_store.specs.Concerns.{Concerns};
ghost use Rattle.dstm_store.specs.Whole.{StandsFor};
ghost use Rattle.dstm_compose.specs.Compose.{condition_of, look_of, shows, IsAwaited, IsAwaitedFirst};

use dstm_mem::Mem;
use dstm_model::{Cond, Layout, Op, Reply, first_branch};
use dstm_store::run_op;

/// The first open branch of a job. It looks at the conditions in order, up to the first that holds, and touches only what
/// they are about.
pub fn open_branch<'a, M: Mem>(
    mem: &mut M,
    layout: &Layout,
    ops: &'a [Op],
) -> Result<Option<&'a [Op]>, M::Err>
    requires valid { IsValid layout.now }
    requires fits { All (FitsLayout layout.now) ops.now }
    requires ready { IsReady M.Mem (objects_of layout.now) (StandsFor layout.now) mem.old }
    requires admits { (map : List Val) × M.Admits mem.old map }

    ensures found { IfOk result (λ branch. (map : List Val) → M.Admits mem.new map → (store : Store) →
        StandsFor layout.now (with_set map (M.written mem.old)) store →
        option_copied branch ≡ open_branch ops.now store) }
    ensures fits { IfOk result (λ branch. IfSome branch (λ ops. All (FitsLayout layout.now) ops.now)) }
    ensures short { IfOk result (λ branch. IfSome branch (λ some. length some.now ≤ length ops.now)) }
    ensures among { IfOk result (λ branch. IfSome branch (λ some. (x : Op) → Contains some.now x → Contains ops.now x)) }
    ensures looks { OnOk result (OnlyReads M.Mem mem.old mem.new) }
    ensures awaited { OnOk result ((o : ℕ) → ¬ (IsAwaited layout.now ops.now o) →
        IsUntouched M.Mem o mem.old mem.new) }
    ensures first { OnOk result ((map : List Val) → M.Admits mem.new map → (store : Store) →
        StandsFor layout.now (with_set map (M.written mem.old)) store → (o : ℕ) →
        ¬ (IsAwaitedFirst layout.now store (branches_of ops.now) o) → IsUntouched M.Mem o mem.old mem.new) }

    ensures leads { Leads M.Mem mem.old mem.new result }
{
    let mut rest = Some(ops);
    while let Some(ops) = rest {
        let (branch, after) = first_branch(ops);
        if is_open(mem, layout, branch)? {
            return Ok(Some(branch));
        }
        rest = after;
    }
    Ok(None)
}

// Tells whether a branch begins with no condition, or with one that holds.
fn is_open<M: Mem>(mem: &mut M, layout: &Layout, branch: &[Op]) -> Result<bool, M::Err>
    requires valid { IsValid layout.now }
    requires fits { All (FitsLayout layout.now) branch.now }
    requires ready { IsReady M.Mem (objects_of layout.now) (StandsFor layout.now) mem.old }
    requires admits { (map : List Val) × M.Admits mem.old map }

    ensures tells { IfOk result (λ yes. (map : List Val) → M.Admits mem.new map → (store : Store) →
        StandsFor layout.now (with_set map (M.written mem.old)) store → yes ≡ is_open store branch.now) }
    ensures looks { OnOk result (OnlyReads M.Mem mem.old mem.new) }
    ensures awaited { OnOk result ((o : ℕ) → ¬ (IsAwaited layout.now branch.now o) →
        IsUntouched M.Mem o mem.old mem.new) }

    ensures leads { Leads M.Mem mem.old mem.new result }
{
    match condition_of(branch) {
        Some(cond) => holds(mem, layout, cond),
        None => Ok(true),
    }
}

// The condition that a branch begins with.
fn condition_of(branch: &[Op]) -> Option<Cond>
    ensures { result ≡ condition_of branch.now }
{
    match branch {
        [Op::Await(cond), ..] => Some(*cond),
        _ => None,
    }
}

// Tells whether a condition holds.
fn holds<M: Mem>(mem: &mut M, layout: &Layout, cond: Cond) -> Result<bool, M::Err>
    requires valid { IsValid layout.now }
    requires fits { FitsCond layout.now cond }
    requires ready { IsReady M.Mem (objects_of layout.now) (StandsFor layout.now) mem.old }

    ensures tells { IfOk result (λ yes. (map : List Val) → M.Admits mem.new map → (store : Store) →
        StandsFor layout.now (with_set map (M.written mem.old)) store → yes ≡ holds_in cond store) }
    ensures looks { OnOk result (OnlyReads M.Mem mem.old mem.new) }
    ensures about { OnOk result ((o : ℕ) → ¬ (Concerns layout.now (look_of cond) o) →
        IsUntouched M.Mem o mem.old mem.new) }

    ensures leads { Leads M.Mem mem.old mem.new result }
{
    let op = look_of(cond);
    let reply = run_op(mem, layout, &op)?;
    Ok(shows(cond, reply))
}

// The operation that looks at what a condition is about.
fn look_of(cond: Cond) -> Op
    ensures { result ≡ look_of cond }
{
    match cond {
        Cond::Balance { account, .. } => Op::Balance { account },
        Cond::Key { which, key } => Op::Member { which, key },
    }
}

// Tells whether its reply shows that the condition holds.
fn shows(cond: Cond, reply: Reply) -> bool
    ensures { result ≡ shows cond reply }
{
    match (cond, reply) {
        (Cond::Balance { least, .. }, Reply::Number(balance)) => least <= balance,
        (Cond::Key { .. }, Reply::Yes) => true,
        _ => false,
    }
}
