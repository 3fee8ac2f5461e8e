ghost use Rattle.std.specs.Prelude.{◌≡◌, ◌≢◌, ◌<◌, ◌≤◌, List, None, IfOk};
ghost use Rattle.dstm_model.specs.declared.value.Val.{Val};
ghost use Rattle.dstm_mem.specs.Memory.{with_set};
ghost use Rattle.dstm_tree.specs.Steps.{IsOpen, IsReadyIn, Steps};
ghost use Rattle.dstm_tree.specs.Items.{TakesOut};
ghost use Rattle.dstm_tree.specs.Node.{FitsNode, Subtree, IsRead};
ghost use Rattle.dstm_tree.specs.Remove.{GivesBack, Hoists, NamesRoot, RemovesRoot, RemovesIf, TakesLeast};

use crate::balance::{Cut, close};
use crate::cells::{
    free_object, name, node_object_in, read, read_node, read_root, write, write_node,
};
use crate::node::Node;
use crate::side::Side;
use dstm_mem::Mem;
use dstm_model::Reply;
use dstm_region::Region;

/// Takes a key out of a region's tree, if it is there. Its node becomes the first free one. Nothing is set where the
/// key is absent.
pub fn remove_in<M: Mem>(mem: &mut M, region: Region, key: u32) -> Result<Reply, M::Err>
    requires { IsReadyIn M.Mem region mem.old }
    ensures { Steps M.Mem region (λ reply. reply ≢ Reply.Yes) (TakesOut region key) mem.old mem.new result }
{
    let root = read_root(mem, region)?;
    let found = remove_below(mem, region, root, key, region.nodes)?;
    let Some(removed) = found else {
        return Ok(Reply::No);
    };
    give_back(mem, region, removed.number)?;
    update_root(mem, region, root, removed.cut.root)?;
    Ok(Reply::Yes)
}

// Puts a node in front of the free chain.
fn give_back<M: Mem>(mem: &mut M, region: Region, number: u16) -> Result<(), M::Err>
    requires number { (0 < number) × (number ≤ region.nodes) }
    requires ready { IsOpen M.Mem region mem.old }
    ensures { Steps M.Mem region (λ done. ⊥) (λ done. GivesBack region number) mem.old mem.new result }
{
    let first = read(mem, region, free_object(region))?;
    write(mem, region, node_object_in(region, number), first)?;
    write(mem, region, free_object(region), name(number))?;
    Ok(())
}

// Names the root, unless it is named as it is to be.
fn update_root<M: Mem>(mem: &mut M, region: Region, held: u16, root: u16) -> Result<(), M::Err>
    requires { IsOpen M.Mem region mem.old }
    ensures { Steps M.Mem region (λ done. ⊥) (λ done. NamesRoot region held root) mem.old mem.new result }
{
    if root == held {
        return Ok(());
    }
    write(mem, region, region.first, name(root))?;
    Ok(())
}

// The node with the least key, which was taken out of a subtree, and what is left of it.
#[derive(Clone, Copy, Debug)]
pub(crate) struct Least {
    pub(crate) node: Node,
    pub(crate) cut: Cut,
}

// The number of a node that was taken out of a subtree, and what is left of it.
#[derive(Clone, Copy, Debug)]
pub(crate) struct Removed {
    pub(crate) number: u16,
    pub(crate) cut: Cut,
}

// The only child of a node of this colour takes the node's place.
fn hoist<M: Mem>(mem: &mut M, region: Region, child: u16, red: bool) -> Result<Cut, M::Err>
    requires within { child ≤ region.nodes }
    requires ready { IsOpen M.Mem region mem.old }
    ensures { Steps M.Mem region (λ cut. ⊥) (Hoists region child red) mem.old mem.new result }
{
    if child == 0 {
        return Ok(Cut {
            root: 0,
            fell: !red,
        });
    }
    let node = read_node(mem, region, child)?;
    write_node(mem, region, node.with_red(false))?;
    Ok(Cut {
        root: child,
        fell: false,
    })
}

// Takes the node with the least key out of the subtree whose root is numbered `at`, and which has at most
// `depth` nodes. The node itself is left as it is.
fn take_least<M: Mem>(mem: &mut M, region: Region, at: u16, depth: u32) -> Result<Least, M::Err>
    requires some { 0 < at }
    requires within { at ≤ region.nodes }
    requires ready { IsOpen M.Mem region mem.old }
    requires lawful { (map : List Val) → M.Admits mem.old map →
        Subtree region (with_set map (M.written mem.old)) at depth }
    ensures steps { Steps M.Mem region (λ least. ⊥) (TakesLeast region at depth) mem.old mem.new result }
    ensures fits { IfOk result (λ least. FitsNode region least.node) }
{
    let node = read_node(mem, region, at)?;
    if node.left == 0 {
        let cut = hoist(mem, region, node.right, node.red)?;
        return Ok(Least { node, cut });
    }
    let below = take_least(mem, region, node.left, depth - 1)?;
    let parent = node.with_child(Side::Left, below.cut.root);
    let cut = close(mem, region, Side::Left, node, parent, below.cut.fell)?;
    Ok(Least {
        node: below.node,
        cut,
    })
}

// Takes the key of a node that was read out of its subtree. Where the node has two children, it gets the next
// key, and the node of that one is taken out.
fn remove_root<M: Mem>(
    mem: &mut M,
    region: Region,
    node: Node,
    depth: u32,
) -> Result<Removed, M::Err>
    requires some { 0 < node.number }
    requires fits { FitsNode region node }
    requires ready { IsOpen M.Mem region mem.old }
    requires lawful { (map : List Val) → M.Admits mem.old map →
        let before = with_set map (M.written mem.old) in
        Subtree region before node.number depth × IsRead region node.number node before before }
    ensures { Steps M.Mem region (λ removed. ⊥) (RemovesRoot region node depth) mem.old mem.new result }
{
    if let Some(side) = node.missing() {
        let cut = hoist(mem, region, node.child(side.other()), node.red)?;
        return Ok(Removed {
            number: node.number,
            cut,
        });
    }
    let least = take_least(mem, region, node.right, depth - 1)?;
    let next = Node {
        key: least.node.key,
        value: least.node.value,
        ..node
    };
    let parent = next.with_child(Side::Right, least.cut.root);
    let cut = close(mem, region, Side::Right, node, parent, least.cut.fell)?;
    Ok(Removed {
        number: least.node.number,
        cut,
    })
}

// Takes a key out of the subtree whose root is numbered `at`, and which has at most `depth` nodes.
fn remove_below<M: Mem>(
    mem: &mut M,
    region: Region,
    at: u16,
    key: u32,
    depth: u32,
) -> Result<Option<Removed>, M::Err>
    requires within { at ≤ region.nodes }
    requires ready { IsOpen M.Mem region mem.old }
    requires lawful { (map : List Val) → M.Admits mem.old map →
        Subtree region (with_set map (M.written mem.old)) at depth }
    ensures { Steps M.Mem region (λ found. found ≡ None) (RemovesIf region key at depth)
        mem.old mem.new result }
{
    if at == 0 {
        return Ok(None);
    }
    let node = read_node(mem, region, at)?;
    if key == node.key {
        let removed = remove_root(mem, region, node, depth)?;
        return Ok(Some(removed));
    }
    let side = Side::toward(key, node.key);
    let below = remove_below(mem, region, node.child(side), key, depth - 1)?;
    let Some(removed) = below else {
        return Ok(None);
    };
    let parent = node.with_child(side, removed.cut.root);
    let cut = close(mem, region, side, node, parent, removed.cut.fell)?;
    Ok(Some(Removed {
        number: removed.number,
        cut,
    }))
}
