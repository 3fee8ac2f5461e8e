ghost use Rattle.std.specs.Prelude.{IfOk};
ghost use Rattle.dstm_list.specs.List.{FitsList};
ghost use Rattle.dstm_list.specs.Edits.{Calls};
ghost use Rattle.dstm_list.specs.Place.{Walks, IsReadyIn, IsReadyAt};
ghost use Rattle.dstm_release_list.specs.Walk.{AddsToPlace};

use crate::stop::{Stop, let_go, visit};
use dstm_list::{Place, node_object_in, place_before};
use dstm_mem::Release;
use dstm_region::Region;

/// Walks along the list to a key's place, hand over hand. It keeps the last two nodes, and the head while the first
/// node is one of them or the list is empty.
pub fn walk<M: Release>(mem: &mut M, region: Region, key: u32) -> Result<Place, M::Err>
    requires fits { FitsList region }
    requires ready { IsReadyIn M.Mem region mem.old }

    ensures walks { Calls M.Mem region (λ found. Unit {0}) (Walks region key) mem.old mem.new result }
    ensures ready { IfOk result (λ found. IsReadyAt M.Mem region key found mem.new) }
    ensures adds { IfOk result (AddsToPlace M.Mem region mem.old mem.new) }
{
    let head = visit(mem, region.first)?;
    let mut behind = None;
    let mut last = head;
    while last.node.next != 0 {
        let next = visit(mem, node_object_in(region, last.node.next))?;
        let_go(mem, region, head, behind);
        if next.node.key >= u64::from(key) {
            return Ok(place_before(last.object, last.node, next.node, key));
        }
        behind = last.unless_at(head);
        last = next;
    }
    Ok(Place {
        link: last.object,
        before: last.node,
        node: None,
    })
}
