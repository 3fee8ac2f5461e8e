ghost use Rattle.std.specs.Prelude.{◌≡◌, ◌<◌, ◌≤◌};
ghost use Rattle.dstm_model.specs.Layout.{IsValid, FitsLayout};
ghost use Rattle.dstm_model.specs.Objects.{objects_of};
ghost use Rattle.dstm_mem.specs.Operates.{Applies, IsReady};
ghost use Rattle.dstm_region.specs.Region.{tree_region};
ghost use Rattle.dstm_tree.specs.Objects.{root_of, object_of, IsTree};
ghost use Rattle.dstm_tree.specs.Node.{HasTree};
ghost use Rattle.dstm_tree.specs.Steps.{IsOfTree};

use crate::cells::node_object_in;
use crate::find::get_in;
use crate::place::{insert_in, put_in};
use crate::removal::remove_in;
use dstm_mem::Mem;
use dstm_model::{Layout, Op, Reply, Which};
use dstm_region::tree_region;

/// The first of the tree's objects, which names the root.
pub fn root_object(layout: &Layout) -> u32
    requires { HasTree layout.now }
    ensures object { result ≡ root_of (tree_region layout.now) }
    ensures exists { result < objects_of layout.now }
{
    tree_region(layout).first
}

/// The object of a node.
pub fn node_object(layout: &Layout, number: u16) -> u32
    requires tree { HasTree layout.now }
    requires number { number ≤ layout.now.tree }
    ensures object { result ≡ object_of (tree_region layout.now) number }
    ensures exists { result < objects_of layout.now }
{
    node_object_in(tree_region(layout), number)
}

/// Adds a key with the value 0; the value of a key that is there stays. Nothing is set where the key is there
/// or no node is free.
pub fn insert<M: Mem>(mem: &mut M, layout: &Layout, key: u32) -> Result<Reply, M::Err>
    requires valid { IsValid layout.now }
    requires fits { FitsLayout layout.now (Op.Insert Which.Tree key) }
    requires ready { IsReady M.Mem (objects_of layout.now) (IsTree layout.now) mem.old }

    ensures { Applies M.Mem (IsOfTree layout.now) (IsTree layout.now) (Op.Insert Which.Tree key)
        mem.old mem.new result }
{
    let reply = insert_in(mem, tree_region(layout), key, 0)?;
    Ok(reply)
}

/// Gives a key this value, and adds the key where it is absent. Nothing is set where no node is free; the node
/// of a key that is there is set, also where the key has this value.
pub fn put<M: Mem>(mem: &mut M, layout: &Layout, key: u32, value: u64) -> Result<Reply, M::Err>
    requires valid { IsValid layout.now }
    requires fits { FitsLayout layout.now (Op.Put key value) }
    requires ready { IsReady M.Mem (objects_of layout.now) (IsTree layout.now) mem.old }

    ensures { Applies M.Mem (IsOfTree layout.now) (IsTree layout.now) (Op.Put key value) mem.old mem.new result }
{
    let reply = put_in(mem, tree_region(layout), key, value)?;
    Ok(reply)
}

/// Tells whether a key is there.
pub fn member<M: Mem>(mem: &mut M, layout: &Layout, key: u32) -> Result<Reply, M::Err>
    requires valid { IsValid layout.now }
    requires fits { FitsLayout layout.now (Op.Member Which.Tree key) }
    requires ready { IsReady M.Mem (objects_of layout.now) (IsTree layout.now) mem.old }

    ensures { Applies M.Mem (IsOfTree layout.now) (IsTree layout.now) (Op.Member Which.Tree key)
        mem.old mem.new result }
{
    let found = get_in(mem, tree_region(layout), key)?;
    if found.is_some() {
        return Ok(Reply::Yes);
    }
    Ok(Reply::No)
}

/// Tells a key's value.
pub fn get<M: Mem>(mem: &mut M, layout: &Layout, key: u32) -> Result<Reply, M::Err>
    requires valid { IsValid layout.now }
    requires fits { FitsLayout layout.now (Op.Get key) }
    requires ready { IsReady M.Mem (objects_of layout.now) (IsTree layout.now) mem.old }

    ensures { Applies M.Mem (IsOfTree layout.now) (IsTree layout.now) (Op.Get key) mem.old mem.new result }
{
    let found = get_in(mem, tree_region(layout), key)?;
    match found {
        Some(value) => Ok(Reply::Number(value)),
        None => Ok(Reply::Absent),
    }
}

/// Takes a key out, if it is there. Its node becomes the first free one. Nothing is set where the key is absent.
pub fn remove<M: Mem>(mem: &mut M, layout: &Layout, key: u32) -> Result<Reply, M::Err>
    requires valid { IsValid layout.now }
    requires fits { FitsLayout layout.now (Op.Remove Which.Tree key) }
    requires ready { IsReady M.Mem (objects_of layout.now) (IsTree layout.now) mem.old }

    ensures { Applies M.Mem (IsOfTree layout.now) (IsTree layout.now) (Op.Remove Which.Tree key)
        mem.old mem.new result }
{
    let reply = remove_in(mem, tree_region(layout), key)?;
    Ok(reply)
}
