ghost use Rattle.std.specs.Prelude.{◌≡◌, ◌≤◌, IsTrue, IfOk};
ghost use Rattle.dstm_model.specs.Objects.{plain};
ghost use Rattle.dstm_region.specs.Region.{IsInside, IsWithin};
ghost use Rattle.dstm_tree.specs.Objects.{free_of, object_of};
ghost use Rattle.dstm_tree.specs.Node.{FitsTree, FitsNode, IsRead, val_of};
ghost use Rattle.dstm_tree.specs.Steps.{IsOpen, IsReadyIn, Steps, Reads, ReadsRoot, Sets};

use crate::node::{Node, encode};
use dstm_mem::Mem;
use dstm_model::Val;
use dstm_region::Region;

// The object that names the first free node.
pub(crate) fn free_object(region: Region) -> u32
    requires { FitsTree region }
    ensures object { result ≡ free_of region }
    ensures inside { IsInside region result }
{
    region.first + 1
}

/// The object of a node of a region.
#[inline(always)]
pub fn node_object_in(region: Region, number: u16) -> u32
    requires tree { FitsTree region }
    requires number { number ≤ region.nodes }
    ensures object { result ≡ object_of region number }
    ensures inside { IsInside region result }
{
    region.first + 1 + u32::from(number)
}

// The value that names a node, or with 0 none.
pub(crate) fn name(number: u16) -> Val
    ensures { result ≡ plain number }
{
    Val {
        low: u64::from(number),
        high: 0,
    }
}

// Reads one of the region's objects.
#[inline(always)]
pub(crate) fn read<M: Mem>(mem: &mut M, region: Region, object: u32) -> Result<Val, M::Err>
    requires inside { IsInside region object }
    requires objects { IsWithin region (M.objects mem.old) }
    requires live { IsTrue (M.is_live mem.old) }
    ensures { Steps M.Mem region (λ value. Unit {0}) (Reads object) mem.old mem.new result }
{
    let value = mem.open_read(object)?;
    Ok(value)
}

// Opens one of the region's objects for writing and sets it.
pub(crate) fn write<M: Mem>(
    mem: &mut M,
    region: Region,
    object: u32,
    value: Val,
) -> Result<(), M::Err>
    requires inside { IsInside region object }
    requires objects { IsWithin region (M.objects mem.old) }
    requires live { IsTrue (M.is_live mem.old) }
    ensures { Steps M.Mem region (λ done. ⊥) (λ done. Sets object value) mem.old mem.new result }
{
    mem.open_write(object)?;
    mem.set(object, value);
    Ok(())
}

// Reads the number of the root.
#[inline(always)]
pub(crate) fn read_root<M: Mem>(mem: &mut M, region: Region) -> Result<u16, M::Err>
    requires { IsReadyIn M.Mem region mem.old }
    ensures steps { Steps M.Mem region (λ root. Unit {0}) (ReadsRoot region) mem.old mem.new result }
    ensures within { IfOk result (λ root. root ≤ region.nodes) }
{
    let value = read(mem, region, region.first)?;
    Ok(value.low as u16)
}

// Reads a node.
#[inline(always)]
pub(crate) fn read_node<M: Mem>(mem: &mut M, region: Region, number: u16) -> Result<Node, M::Err>
    requires number { number ≤ region.nodes }
    requires ready { IsOpen M.Mem region mem.old }
    ensures steps { Steps M.Mem region (λ node. Unit {0}) (IsRead region number) mem.old mem.new result }
    ensures fits { IfOk result (λ node. FitsNode region node) }
{
    let value = read(mem, region, node_object_in(region, number))?;
    Ok(Node::of(number, value))
}

// Opens a node for writing and sets it.
pub(crate) fn write_node<M: Mem>(mem: &mut M, region: Region, node: Node) -> Result<(), M::Err>
    requires fits { FitsNode region node }
    requires ready { IsOpen M.Mem region mem.old }
    ensures { Steps M.Mem region (λ done. ⊥) (λ done. Sets (object_of region node.number) (val_of node))
        mem.old mem.new result }
{
    let value = encode(&node);
    write(mem, region, node_object_in(region, node.number), value)?;
    Ok(())
}
