ghost use Rattle.std.specs.Prelude.{◌≡◌, ◌<◌, ◌≤◌, IfOk, MatchOption};
ghost use Rattle.dstm_list.specs.List.{FitsList};
ghost use Rattle.dstm_list.specs.Edits.{Calls};
ghost use Rattle.dstm_list.specs.Place.{Walks, IsReadyIn, IsReadyAt};

use crate::node::Node;
use crate::object::{look, node_object_in};
use dstm_mem::Mem;
use dstm_region::Region;

/// Where a key stands in the list, or would stand.
#[derive(Clone, Copy)]
pub struct Place {
    /// The object that links to the place: the head, or the last node with a lesser key.
    pub link: u32,
    /// What that object holds.
    pub before: Node,
    /// The node that holds the key, where there is one.
    pub node: Option<Node>,
}

/// Walks along the list to a key's place, and opens what it passes for reading.
pub fn find<M: Mem>(mem: &mut M, region: Region, key: u32) -> Result<Place, M::Err>
    requires fits { FitsList region }
    requires ready { IsReadyIn M.Mem region mem.old }

    ensures walks { Calls M.Mem region (λ found. Unit {0}) (Walks region key) mem.old mem.new result }
    ensures ready { IfOk result (λ found. IsReadyAt M.Mem region key found mem.new) }
{
    let mut link = region.first;
    let mut before = look(mem, region, link)?;
    while before.next != 0 {
        let object = node_object_in(region, before.next);
        let node = look(mem, region, object)?;
        if node.key >= u64::from(key) {
            return Ok(place_before(link, before, node, key));
        }
        link = object;
        before = node;
    }
    Ok(Place {
        link,
        before,
        node: None,
    })
}

/// The place of a key behind an object that holds `before`, where the node comes next.
pub fn place_before(link: u32, before: Node, next: Node, key: u32) -> Place
    requires { key ≤ next.key }
    ensures link { result.link ≡ link }
    ensures before { result.before ≡ before }
    ensures node { MatchOption result.node (key < next.key) (λ node. (node ≡ next) × (next.key ≡ key)) }
{
    Place {
        link,
        before,
        node: (next.key == u64::from(key)).then_some(next),
    }
}
