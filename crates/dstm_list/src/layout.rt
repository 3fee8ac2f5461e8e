ghost use Rattle.std.specs.Prelude.{◌≡◌, ◌<◌, OnOk};
ghost use Rattle.dstm_model.specs.declared.op.Which.TheVariants as which;
ghost use Rattle.dstm_model.specs.Layout.{IsValid, FitsLayout};
ghost use Rattle.dstm_model.specs.Objects.{objects_of, list_begin, node_object};
ghost use Rattle.dstm_mem.specs.Operates.{Applies, IsReady};
ghost use Rattle.dstm_region.specs.Region.{list_region};
ghost use Rattle.dstm_list.specs.List.{IsList, IsOfList, SameButThree};

use crate::region::{insert_in, member_in, remove_in};
use dstm_mem::Mem;
use dstm_model::{Layout, Op, Reply};
use dstm_region::list_region;

/// The object of a node of the list, or the head of the free chain for the number 0.
pub fn node_object(layout: &Layout, number: u32) -> u32
    requires valid { IsValid layout.now }
    requires small { number < 2048 }
    ensures { result ≡ node_object (list_begin layout.now) number }
{
    layout.accounts + 1 + number
}

/// Adds a key. Where the reply is Yes it sets the node that was the first free one, the head of the free
/// chain, and the head or the node that now links to the new node; else it sets nothing.
pub fn insert<M: Mem>(mem: &mut M, layout: &Layout, key: u32) -> Result<Reply, M::Err>
    requires valid { IsValid layout.now }
    requires fits { FitsLayout layout.now (Op.Insert which.List key) }
    requires ready { IsReady M.Mem (objects_of layout.now) (IsList layout.now) mem.old }

    ensures applies { Applies M.Mem (IsOfList layout.now) (IsList layout.now) (Op.Insert which.List key)
        mem.old mem.new result }
    ensures few { OnOk result (SameButThree (list_region layout.now) (M.written mem.old) (M.written mem.new)) }
{
    let reply = insert_in(mem, list_region(layout), key)?;
    Ok(reply)
}

/// Takes a key out. Where the reply is Yes it sets the key's node, the head of the free chain, and the head
/// or the node that linked to the key's node; else it sets nothing.
pub fn remove<M: Mem>(mem: &mut M, layout: &Layout, key: u32) -> Result<Reply, M::Err>
    requires valid { IsValid layout.now }
    requires fits { FitsLayout layout.now (Op.Remove which.List key) }
    requires ready { IsReady M.Mem (objects_of layout.now) (IsList layout.now) mem.old }

    ensures applies { Applies M.Mem (IsOfList layout.now) (IsList layout.now) (Op.Remove which.List key)
        mem.old mem.new result }
    ensures few { OnOk result (SameButThree (list_region layout.now) (M.written mem.old) (M.written mem.new)) }
{
    let reply = remove_in(mem, list_region(layout), key)?;
    Ok(reply)
}

/// Tells whether a key is there.
pub fn member<M: Mem>(mem: &mut M, layout: &Layout, key: u32) -> Result<Reply, M::Err>
    requires valid { IsValid layout.now }
    requires fits { FitsLayout layout.now (Op.Member which.List key) }
    requires ready { IsReady M.Mem (objects_of layout.now) (IsList layout.now) mem.old }

    ensures { Applies M.Mem (IsOfList layout.now) (IsList layout.now) (Op.Member which.List key)
        mem.old mem.new result }
{
    let reply = member_in(mem, list_region(layout), key)?;
    Ok(reply)
}
