ghost use Rattle.std.specs.Prelude.{◌≡◌, ◌≢◌, IfOk, OnOk, IsTrue, is_some};
ghost use Rattle.dstm_model.specs.Store.{yes_or_no};
ghost use Rattle.dstm_model.specs.Objects.{free_object, node_object};
ghost use Rattle.dstm_list.specs.List.{FitsList, SameButThree};
ghost use Rattle.dstm_list.specs.Edits.{Adds, Calls, TakesOut};
ghost use Rattle.dstm_list.specs.Place.{IsReadyAt};
ghost use Rattle.dstm_list.specs.Reads.{AddsNoRead, AddsReadOf};

use crate::node::Node;
use crate::object::{look, node_object_in, replace};
use crate::walk::Place;
use dstm_mem::Mem;
use dstm_model::Reply;
use dstm_region::Region;

/// Adds a key at its place. Where the reply is Yes it sets the node that was the first free one, the head of the
/// free chain, and the head or the node that now links to the new node; else it sets nothing. What it reads stays a
/// read only where the reply is Full, and is the head of the free chain.
pub fn insert_at<M: Mem>(
    mem: &mut M,
    region: Region,
    key: u32,
    place: Place,
) -> Result<Reply, M::Err>
    requires fits { FitsList region }
    requires ready { IsReadyAt M.Mem region key place mem.old }

    ensures applies { Calls M.Mem region (λ reply. reply ≢ Reply.Yes) (Adds region key) mem.old mem.new result }
    ensures few { OnOk result (SameButThree region (M.written mem.old) (M.written mem.new)) }
    ensures looked { OnOk result (AddsReadOf M.Mem (free_object region.first) mem.old mem.new) }
    ensures reads { IfOk result (λ reply. reply ≢ Reply.Full → AddsNoRead M.Mem mem.old mem.new) }
    ensures link_opened { IfOk result (λ reply. reply ≡ Reply.Yes → IsTrue (M.is_opened mem.new place.link)) }
{
    if place.node.is_some() {
        return Ok(Reply::No);
    }
    let free = node_object_in(region, 0);
    let number = look(mem, region, free)?.next;
    if number == 0 {
        return Ok(Reply::Full);
    }
    let object = node_object_in(region, number);
    let node = Node {
        key: u64::from(key),
        next: place.before.next,
    };
    let linked = Node {
        key: place.before.key,
        next: number,
    };
    let rest = replace(mem, region, object, node.value())?;
    replace(mem, region, free, rest)?;
    replace(mem, region, place.link, linked.value())?;
    Ok(Reply::Yes)
}

/// Takes the key at a place out. Where the reply is Yes it sets the key's node, the head of the free chain, and the
/// head or the node that linked to the key's node; else it sets nothing. It reads nothing but what it sets.
pub fn remove_at<M: Mem>(
    mem: &mut M,
    region: Region,
    key: u32,
    place: Place,
) -> Result<Reply, M::Err>
    requires fits { FitsList region }
    requires ready { IsReadyAt M.Mem region key place mem.old }

    ensures applies { Calls M.Mem region (λ reply. reply ≢ Reply.Yes) (TakesOut region key) mem.old mem.new result }
    ensures few { OnOk result (SameButThree region (M.written mem.old) (M.written mem.new)) }
    ensures reads { OnOk result (AddsNoRead M.Mem mem.old mem.new) }
    ensures there { IfOk result (λ reply. reply ≡ yes_or_no (is_some place.node)) }
    ensures link_opened { IfOk result (λ reply. reply ≡ Reply.Yes → IsTrue (M.is_opened mem.new place.link)) }
    ensures node_opened { IfOk result (λ reply. reply ≡ Reply.Yes →
        IsTrue (M.is_opened mem.new (node_object region.first place.before.next))) }
{
    let Some(node) = place.node else {
        return Ok(Reply::No);
    };
    let free = node_object_in(region, 0);
    let object = node_object_in(region, place.before.next);
    let freed = Node {
        key: 0,
        next: place.before.next,
    };
    let linked = Node {
        key: place.before.key,
        next: node.next,
    };
    let rest = replace(mem, region, free, freed.value())?;
    replace(mem, region, object, rest)?;
    replace(mem, region, place.link, linked.value())?;
    Ok(Reply::Yes)
}

/// Tells whether the key is there whose place this is.
pub fn member_at(place: Place) -> Reply
    ensures { result ≡ yes_or_no (is_some place.node) }
{
    if place.node.is_some() {
        return Reply::Yes;
    }
    Reply::No
}
