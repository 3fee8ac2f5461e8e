ghost use Rattle.std.specs.Prelude.{IfOk, OnOk};
ghost use Rattle.dstm_model.specs.declared.op.Which.TheVariants as which;
ghost use Rattle.dstm_model.specs.Layout.{IsValid, FitsLayout};
ghost use Rattle.dstm_model.specs.Objects.{objects_of};
ghost use Rattle.dstm_mem.specs.Operates.{Applies, IsReady};
ghost use Rattle.dstm_region.specs.Region.{list_region};
ghost use Rattle.dstm_list.specs.List.{IsList, IsOfList, SameButThree};
ghost use Rattle.dstm_release_list.specs.Walk.{AddsAtMost, most_of_insert, most_of_remove};

use crate::region::{insert_in, member_in, remove_in};
use dstm_mem::Release;
use dstm_model::{Layout, Op, Reply};
use dstm_region::list_region;

/// Adds a key. Where the reply is Yes it sets the node that was the first free one, the head of the free
/// chain, and the head or the node that now links to the new node; else it sets nothing. At most two objects more than
/// before are reads where the reply is Yes, three where it is No, and four where it is Full.
pub fn insert<M: Release>(mem: &mut M, layout: &Layout, key: u32) -> Result<Reply, M::Err>
    requires valid { IsValid layout.now }
    requires fits { FitsLayout layout.now (Op.Insert which.List key) }
    requires ready { IsReady M.Mem (objects_of layout.now) (IsList layout.now) mem.old }

    ensures applies { Applies M.Mem (IsOfList layout.now) (IsList layout.now) (Op.Insert which.List key)
        mem.old mem.new result }
    ensures few { OnOk result (SameButThree (list_region layout.now) (M.Mem.written mem.old) (M.Mem.written mem.new)) }
    ensures adds { IfOk result (λ reply. AddsAtMost (most_of_insert reply) M.Mem mem.old mem.new) }
{
    let reply = insert_in(mem, list_region(layout), key)?;
    Ok(reply)
}

/// Takes a key out. Where the reply is Yes it sets the key's node, the head of the free chain, and the head
/// or the node that linked to the key's node; else it sets nothing. At most one object more than before is a read
/// where the reply is Yes, and three are where it is No.
pub fn remove<M: Release>(mem: &mut M, layout: &Layout, key: u32) -> Result<Reply, M::Err>
    requires valid { IsValid layout.now }
    requires fits { FitsLayout layout.now (Op.Remove which.List key) }
    requires ready { IsReady M.Mem (objects_of layout.now) (IsList layout.now) mem.old }

    ensures applies { Applies M.Mem (IsOfList layout.now) (IsList layout.now) (Op.Remove which.List key)
        mem.old mem.new result }
    ensures few { OnOk result (SameButThree (list_region layout.now) (M.Mem.written mem.old) (M.Mem.written mem.new)) }
    ensures adds { IfOk result (λ reply. AddsAtMost (most_of_remove reply) M.Mem mem.old mem.new) }
{
    let reply = remove_in(mem, list_region(layout), key)?;
    Ok(reply)
}

/// Tells whether a key is there. At most three objects more than before are reads.
pub fn member<M: Release>(mem: &mut M, layout: &Layout, key: u32) -> Result<Reply, M::Err>
    requires valid { IsValid layout.now }
    requires fits { FitsLayout layout.now (Op.Member which.List key) }
    requires ready { IsReady M.Mem (objects_of layout.now) (IsList layout.now) mem.old }

    ensures applies { Applies M.Mem (IsOfList layout.now) (IsList layout.now) (Op.Member which.List key)
        mem.old mem.new result }
    ensures adds { OnOk result (AddsAtMost 3 M.Mem mem.old mem.new) }
{
    let reply = member_in(mem, list_region(layout), key)?;
    Ok(reply)
}
