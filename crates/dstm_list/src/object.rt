ghost use Rattle.std.specs.Prelude.{◌≡◌, ◌<◌, IsTrue, OnOk};
ghost use Rattle.dstm_model.specs.Objects.{node_object};
ghost use Rattle.dstm_mem.specs.Memory.{SetsOnly};
ghost use Rattle.dstm_region.specs.Region.{IsInside, IsWithin};
ghost use Rattle.dstm_list.specs.List.{FitsList};
ghost use Rattle.dstm_list.specs.Edits.{Calls};
ghost use Rattle.dstm_list.specs.Place.{Sees, Replaces};
ghost use Rattle.dstm_list.specs.Reads.{AddsNoRead, AddsReadOf, OpensAlso};

use crate::node::Node;
use dstm_mem::Mem;
use dstm_model::Val;
use dstm_region::Region;

/// The object of a node of a region, or the head of the free chain for the number 0.
#[inline(always)]
pub fn node_object_in(region: Region, number: u32) -> u32
    requires fits { FitsList region }
    requires small { number < 2048 }
    ensures { result ≡ node_object region.first number }
{
    region.first + 1 + number
}

/// Opens an object of the region for reading, and answers what it holds.
#[inline(always)]
pub fn look<M: Mem>(mem: &mut M, region: Region, object: u32) -> Result<Node, M::Err>
    requires inside { IsInside region object }
    requires objects { IsWithin region (M.objects mem.old) }
    requires live { IsTrue (M.is_live mem.old) }

    ensures looks { Calls M.Mem region (λ node. Unit {0}) (Sees object) mem.old mem.new result }
    ensures reads { OnOk result (AddsReadOf M.Mem object mem.old mem.new) }
{
    let value = mem.open_read(object)?;
    Ok(Node::of(value))
}

/// Opens an object of the region for writing and sets it, and answers the value that it had.
pub fn replace<M: Mem>(mem: &mut M, region: Region, object: u32, value: Val) -> Result<Val, M::Err>
    requires inside { IsInside region object }
    requires objects { IsWithin region (M.objects mem.old) }
    requires live { IsTrue (M.is_live mem.old) }

    ensures sets { Calls M.Mem region (λ had. ⊥) (Replaces object value) mem.old mem.new result }
    ensures written { OnOk result (SetsOnly object value (M.written mem.old) (M.written mem.new)) }
    ensures reads { OnOk result (AddsNoRead M.Mem mem.old mem.new) }
    ensures opened { OnOk result (OpensAlso object (M.is_opened mem.old) (M.is_opened mem.new)) }
{
    let had = mem.open_write(object)?;
    mem.set(object, value);
    Ok(had)
}
