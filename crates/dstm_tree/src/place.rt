ghost use Rattle.std.specs.Prelude.{◌≡◌, ◌≢◌, ℕ, ◌^◌, ◌<◌, ◌≤◌, true, false, List, IfOk};
ghost use Rattle.dstm_model.specs.declared.value.Val.{Val};
ghost use Rattle.dstm_mem.specs.Memory.{with_set};
ghost use Rattle.dstm_tree.specs.Steps.{IsOpen, IsReadyIn, Steps};
ghost use Rattle.dstm_tree.specs.Items.{Puts};
ghost use Rattle.dstm_tree.specs.Node.{FitsNode};
ghost use Rattle.dstm_tree.specs.Place.{IsFree, IsTaken, CanPlace, FitsPlaced, Attaches, Places, PlacesLeaf};
ghost use Rattle.dstm_tree.specs.Place.{Answers, IsSettled, LeavesAll, LeavesStore};

use crate::cells::{
    free_object, name, node_object_in, read, read_node, read_root, write, write_node,
};
use crate::node::Node;
use crate::side::Side;
use dstm_mem::Mem;
use dstm_model::Reply;
use dstm_region::Region;

/// Adds a key with a value to a region's tree; the value of a key that is there stays. Nothing is set where the key is
/// there or no node is free.
#[inline(always)]
pub fn insert_in<M: Mem>(mem: &mut M, region: Region, key: u32, value: u64) -> Result<Reply, M::Err>
    requires key { key < 2 ^ 31 }
    requires ready { IsReadyIn M.Mem region mem.old }
    ensures { Steps M.Mem region (λ reply. reply ≢ Reply.Yes) (Puts region false key value) mem.old mem.new result }
{
    let request = Request {
        key,
        value,
        replaces: false,
    };
    let added = place(mem, region, request)?;
    Ok(added)
}

/// Gives a key of a region's tree this value, and adds the key where it is absent. Nothing is set where no node is
/// free; the node of a key that is there is set, also where the key has this value.
#[inline(always)]
pub fn put_in<M: Mem>(mem: &mut M, region: Region, key: u32, value: u64) -> Result<Reply, M::Err>
    requires key { key < 2 ^ 31 }
    requires ready { IsReadyIn M.Mem region mem.old }
    ensures { Steps M.Mem region (λ reply. reply ≡ Reply.Full) (Puts region true key value) mem.old mem.new result }
{
    let request = Request {
        key,
        value,
        replaces: true,
    };
    let reply = place(mem, region, request)?;
    Ok(reply)
}

// What is placed: a key with a value, which replaces the value of a key that is there only if it is to.
#[derive(Clone, Copy, Debug)]
pub(crate) struct Request {
    pub(crate) key: u32,
    pub(crate) value: u64,
    pub(crate) replaces: bool,
}

// Places a key in the whole tree.
fn place<M: Mem>(mem: &mut M, region: Region, request: Request) -> Result<Reply, M::Err>
    requires key { request.key < 2 ^ 31 }
    requires ready { IsReadyIn M.Mem region mem.old }
    ensures { Steps M.Mem region (LeavesStore request) (Answers region request) mem.old mem.new result }
{
    let root = read_root(mem, region)?;
    let placed = place_below(mem, region, root, request, region.nodes)?;
    match placed {
        Placed::Full => Ok(Reply::Full),
        Placed::Found => Ok(Reply::No),
        Placed::Added => Ok(Reply::Yes),
        Placed::Root(node) => {
            write_node(mem, region, node.with_red(false))?;
            write(mem, region, region.first, name(node.number))?;
            Ok(Reply::Yes)
        }
        Placed::Pair(..) => unreachable!(),
    }
}

// How a key was placed in a subtree.
#[derive(Clone, Copy, Debug)]
pub(crate) enum Placed {
    // The key is absent, and no node is free.
    Full,
    // The key was there.
    Found,
    // The key was added, and the subtree's root stayed where it was.
    Added,
    // The key was added under this red root, which is still to be written.
    Root(Node),
    // The key was added, and two red nodes stand one over the other, which are still to be written: the one
    // with the lesser key, and the other. The subtree between them is named by both.
    Pair(Node, Node),
}

// Takes the first node off the free chain, or answers 0 where there is none.
fn take_free<M: Mem>(mem: &mut M, region: Region) -> Result<u16, M::Err>
    requires ready { IsOpen M.Mem region mem.old }
    requires lawful { (map : List Val) → M.Admits mem.old map →
        (free : List ℕ) × IsFree region (with_set map (M.written mem.old)) free }
    ensures steps { Steps M.Mem region (λ number. number ≡ 0) (IsTaken region) mem.old mem.new result }
    ensures within { IfOk result (λ number. number ≤ region.nodes) }
{
    let head = read(mem, region, free_object(region))?;
    let first = head.low as u16;
    if first == 0 {
        return Ok(0);
    }
    let next = read(mem, region, node_object_in(region, first))?;
    write(mem, region, free_object(region), next)?;
    Ok(first)
}

// Hangs what was placed on a side of a node under the node.
fn attach<M: Mem>(
    mem: &mut M,
    region: Region,
    side: Side,
    parent: Node,
    below: Placed,
) -> Result<Placed, M::Err>
    requires parent { FitsNode region parent }
    requires below { FitsPlaced region below }
    requires ready { IsOpen M.Mem region mem.old }
    ensures steps { Steps M.Mem region IsSettled (Attaches region side parent below) mem.old mem.new result }
    ensures settled { IfOk result (λ placed. IsSettled placed → below ≡ placed) }
    ensures fits { IfOk result (λ placed. FitsPlaced region placed) }
{
    let far = side.other();
    match below {
        Placed::Root(child) => {
            if parent.red {
                let upper = parent.with_child(side, child.child(far));
                let (lesser, greater) = side.order(child, upper);
                return Ok(Placed::Pair(lesser, greater));
            }
            write_node(mem, region, child)?;
            write_node(mem, region, parent.with_child(side, child.number))?;
            Ok(Placed::Added)
        }
        Placed::Pair(lesser, greater) => {
            let (outer, inner) = side.order(lesser, greater);
            write_node(mem, region, outer.with_red(false))?;
            write_node(mem, region, parent.with_child(side, inner.child(far)))?;
            let top = inner.with_child(side, outer.number);
            Ok(Placed::Root(top.with_child(far, parent.number)))
        }
        Placed::Full => Ok(Placed::Full),
        Placed::Found => Ok(Placed::Found),
        Placed::Added => Ok(Placed::Added),
    }
}

// Places a key in the subtree whose root is numbered `at` and which has at most `depth` nodes.
fn place_below<M: Mem>(
    mem: &mut M,
    region: Region,
    at: u16,
    request: Request,
    depth: u32,
) -> Result<Placed, M::Err>
    requires key { request.key < 2 ^ 31 }
    requires within { at ≤ region.nodes }
    requires ready { IsOpen M.Mem region mem.old }
    requires lawful { (map : List Val) → M.Admits mem.old map →
        CanPlace region (with_set map (M.written mem.old)) at depth }
    ensures steps { Steps M.Mem region (LeavesAll request) (Places region request at depth)
        mem.old mem.new result }
    ensures fits { IfOk result (λ placed. FitsPlaced region placed) }
{
    if at == 0 {
        let placed = place_leaf(mem, region, request)?;
        return Ok(placed);
    }
    let node = read_node(mem, region, at)?;
    if request.key != node.key {
        let side = Side::toward(request.key, node.key);
        let below = place_below(mem, region, node.child(side), request, depth - 1)?;
        let placed = attach(mem, region, side, node, below)?;
        return Ok(placed);
    }
    if request.replaces {
        let value = request.value;
        write_node(mem, region, Node { value, ..node })?;
        return Ok(Placed::Found);
    }
    Ok(Placed::Found)
}

// Places a key where the search for it has ended.
fn place_leaf<M: Mem>(mem: &mut M, region: Region, request: Request) -> Result<Placed, M::Err>
    requires key { request.key < 2 ^ 31 }
    requires ready { IsOpen M.Mem region mem.old }
    requires lawful { (map : List Val) → M.Admits mem.old map →
        (free : List ℕ) × IsFree region (with_set map (M.written mem.old)) free }
    ensures steps { Steps M.Mem region IsSettled (PlacesLeaf region request) mem.old mem.new result }
    ensures fits { IfOk result (λ placed. FitsPlaced region placed) }
{
    let number = take_free(mem, region)?;
    if number == 0 {
        return Ok(Placed::Full);
    }
    Ok(Placed::Root(Node {
        number,
        red: true,
        key: request.key,
        value: request.value,
        left: 0,
        right: 0,
    }))
}
