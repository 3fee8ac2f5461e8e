ghost use Rattle.std.specs.Prelude.{◌≡◌, Bool, true, false, OnOk};
ghost use Rattle.dstm_model.specs.declared.op.Which.TheVariants as which;
ghost use Rattle.dstm_model.specs.Layout.{IsValid, FitsLayout};
ghost use Rattle.dstm_model.specs.Objects.{objects_of};
ghost use Rattle.dstm_mem.specs.Operates.{Applies, IsReady};
ghost use Rattle.dstm_list.specs.List.{IsList, IsOfList};
ghost use Rattle.dstm_store.specs.Keeps.{TouchesAtMost};

use dstm_mem::{Mem, Release};
use dstm_model::{Layout, Op, Reply};

/// How the list's operations walk along it on a memory of this kind.
pub trait ListWalk<M: Mem> {
    /// Reads on the way are let go.
    ghost lets_go: { Bool };

    /// Adds a key. Where reads are let go, at most five objects more than before are held.
    fn insert(mem: &mut M, layout: &Layout, key: u32) -> Result<Reply, M::Err>
        requires valid { IsValid layout.now }
        requires fits { FitsLayout layout.now (Op.Insert which.List key) }
        requires ready { IsReady M.Mem (objects_of layout.now) (IsList layout.now) mem.old }

        ensures applies { Applies M.Mem (IsOfList layout.now) (IsList layout.now) (Op.Insert which.List key)
            mem.old mem.new result }
        ensures touches { lets_go ≡ true → M.all_write (M.place mem.old) ≡ false →
            OnOk result (TouchesAtMost 5 M.Mem mem.old mem.new) };

    /// Takes a key out. Where reads are let go, at most four objects more than before are held.
    fn remove(mem: &mut M, layout: &Layout, key: u32) -> Result<Reply, M::Err>
        requires valid { IsValid layout.now }
        requires fits { FitsLayout layout.now (Op.Remove which.List key) }
        requires ready { IsReady M.Mem (objects_of layout.now) (IsList layout.now) mem.old }

        ensures applies { Applies M.Mem (IsOfList layout.now) (IsList layout.now) (Op.Remove which.List key)
            mem.old mem.new result }
        ensures touches { lets_go ≡ true → M.all_write (M.place mem.old) ≡ false →
            OnOk result (TouchesAtMost 4 M.Mem mem.old mem.new) };

    /// Tells whether a key is there. Where reads are let go, at most three objects more than before are held.
    fn member(mem: &mut M, layout: &Layout, key: u32) -> Result<Reply, M::Err>
        requires valid { IsValid layout.now }
        requires fits { FitsLayout layout.now (Op.Member which.List key) }
        requires ready { IsReady M.Mem (objects_of layout.now) (IsList layout.now) mem.old }

        ensures applies { Applies M.Mem (IsOfList layout.now) (IsList layout.now) (Op.Member which.List key)
            mem.old mem.new result }
        ensures touches { lets_go ≡ true → M.all_write (M.place mem.old) ≡ false →
            OnOk result (TouchesAtMost 3 M.Mem mem.old mem.new) };
}

/// They keep every read.
#[derive(Clone, Copy)]
pub struct KeepsReads;

/// They let go what they read before the last two nodes.
#[derive(Clone, Copy)]
pub struct HandOverHand;

impl<M: Mem> ListWalk<M> for KeepsReads {
    ghost lets_go = { false };

    fn insert(mem: &mut M, layout: &Layout, key: u32) -> Result<Reply, M::Err> {
        dstm_list::insert(mem, layout, key)
    }

    fn remove(mem: &mut M, layout: &Layout, key: u32) -> Result<Reply, M::Err> {
        dstm_list::remove(mem, layout, key)
    }

    fn member(mem: &mut M, layout: &Layout, key: u32) -> Result<Reply, M::Err> {
        dstm_list::member(mem, layout, key)
    }
}

impl<M: Release> ListWalk<M> for HandOverHand {
    ghost lets_go = { true };

    fn insert(mem: &mut M, layout: &Layout, key: u32) -> Result<Reply, M::Err> {
        dstm_release_list::insert(mem, layout, key)
    }

    fn remove(mem: &mut M, layout: &Layout, key: u32) -> Result<Reply, M::Err> {
        dstm_release_list::remove(mem, layout, key)
    }

    fn member(mem: &mut M, layout: &Layout, key: u32) -> Result<Reply, M::Err> {
        dstm_release_list::member(mem, layout, key)
    }
}
