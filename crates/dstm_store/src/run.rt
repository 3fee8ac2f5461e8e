ghost use Rattle.std.specs.Prelude.{◌≡◌, ℕ, ◌<◌, List, true, false, IsSome, OnOk};
ghost use Rattle.dstm_model.specs.declared.value.Val.{Val};
ghost use Rattle.dstm_model.specs.Layout.{IsValid, FitsLayout};
ghost use Rattle.dstm_model.specs.Store.{IsPlain};
ghost use Rattle.dstm_model.specs.Objects.{objects_of};
ghost use Rattle.dstm_mem.specs.Memory.{with_set};
ghost use Rattle.dstm_mem.specs.Operates.{Applies, IsReady};
ghost use Rattle.dstm_store.specs.Whole.{StandsFor, IsLawful};
ghost use Rattle.dstm_store.specs.Concerns.{Concerns};
ghost use Rattle.dstm_store.specs.Keeps.{is_of_list, most_kept, TouchesAtMost};

use crate::lists::{KeepsReads, ListWalk};
use dstm_mem::Mem;
use dstm_model::{Layout, Op, Reply, Which};

/// Runs one operation, on the structure that it is about.
pub fn run_op<M: Mem>(mem: &mut M, layout: &Layout, op: &Op) -> Result<Reply, M::Err>
    requires valid { IsValid layout.now }
    requires fits { FitsLayout layout.now op.now }
    requires plain { IsPlain op.now }
    requires ready { IsReady M.Mem (objects_of layout.now) (StandsFor layout.now) mem.old }

    ensures applies { Applies M.Mem (Concerns layout.now op.now) (StandsFor layout.now) op.now mem.old mem.new result }
    ensures lawful { OnOk result ((map : List Val) → M.Admits mem.new map →
        IsLawful layout.now (with_set map (M.written mem.new))) }
    ensures audits { op.now ≡ Op.Total → OnOk result ((a : ℕ) → a < layout.now.accounts →
        IsSome (M.held mem.new a)) }
{
    run_with::<M, KeepsReads>(mem, layout, op)
}

/// The same with another way to walk along the list.
pub fn run_with<M: Mem, L: ListWalk<M>>(
    mem: &mut M,
    layout: &Layout,
    op: &Op,
) -> Result<Reply, M::Err>
    requires valid { IsValid layout.now }
    requires fits { FitsLayout layout.now op.now }
    requires plain { IsPlain op.now }
    requires ready { IsReady M.Mem (objects_of layout.now) (StandsFor layout.now) mem.old }

    ensures applies { Applies M.Mem (Concerns layout.now op.now) (StandsFor layout.now) op.now mem.old mem.new result }
    ensures audits { op.now ≡ Op.Total → OnOk result ((a : ℕ) → a < layout.now.accounts →
        IsSome (M.held mem.new a)) }
    ensures touches { L.lets_go ≡ true → M.all_write (M.place mem.old) ≡ false → is_of_list op.now ≡ true →
        OnOk result (TouchesAtMost (most_kept op.now) M.Mem mem.old mem.new) }
{
    match *op {
        Op::Transfer {
            source,
            target,
            amount,
        } => dstm_bank::transfer(mem, layout, source, target, amount),
        Op::Balance { account } => dstm_bank::balance(mem, layout, account),
        Op::Total => dstm_bank::total(mem, layout),
        Op::Insert {
            which: Which::List,
            key,
        } => L::insert(mem, layout, key),
        Op::Remove {
            which: Which::List,
            key,
        } => L::remove(mem, layout, key),
        Op::Member {
            which: Which::List,
            key,
        } => L::member(mem, layout, key),
        Op::Insert {
            which: Which::Tree,
            key,
        } => dstm_tree::insert(mem, layout, key),
        Op::Remove {
            which: Which::Tree,
            key,
        } => dstm_tree::remove(mem, layout, key),
        Op::Member {
            which: Which::Tree,
            key,
        } => dstm_tree::member(mem, layout, key),
        Op::Put { key, value } => dstm_tree::put(mem, layout, key, value),
        Op::Get { key } => dstm_tree::get(mem, layout, key),
        Op::Await(_) | Op::OrElse => unreachable!(),
    }
}
