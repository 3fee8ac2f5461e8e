ghost use Rattle.std.specs.Prelude.{◌≤◌, List, IfOk, IfSome, true, false};
ghost use Rattle.dstm_model.specs.declared.value.Val.{Val};
ghost use Rattle.dstm_mem.specs.Memory.{with_set};
ghost use Rattle.dstm_tree.specs.Node.{FitsNode};
ghost use Rattle.dstm_tree.specs.Steps.{IsOpen, Steps, Updates};
ghost use Rattle.dstm_tree.specs.Remove.{Arranges, HasGap, HasFall, Recolours, Closes, Lifts, FindsRed};

use crate::cells::{read_node, write_node};
use crate::node::Node;
use crate::side::Side;
use dstm_mem::Mem;
use dstm_region::Region;

// What is left of a subtree.
#[derive(Clone, Copy, Debug)]
pub(crate) struct Cut {
    // The number of its root, 0 where nothing is left.
    pub(crate) root: u16,
    // On each way down from it there is one black node less than before.
    pub(crate) fell: bool,
}

// Reads a child, if there is one, and answers it if it is red.
fn read_red<M: Mem>(mem: &mut M, region: Region, number: u16) -> Result<Option<Node>, M::Err>
    requires number { number ≤ region.nodes }
    requires ready { IsOpen M.Mem region mem.old }
    ensures steps { Steps M.Mem region (λ found. Unit {0}) (FindsRed region number) mem.old mem.new result }
    ensures fits { IfOk result (λ found. IfSome found (λ node. FitsNode region node)) }
{
    if number == 0 {
        return Ok(None);
    }
    let node = read_node(mem, region, number)?;
    if node.red {
        return Ok(Some(node));
    }
    Ok(None)
}

// Writes a node, unless it is held as it is to be.
fn update_node<M: Mem>(mem: &mut M, region: Region, held: Node, node: Node) -> Result<(), M::Err>
    requires fits { FitsNode region node }
    requires ready { IsOpen M.Mem region mem.old }
    ensures { Steps M.Mem region (λ done. ⊥) (λ done. Updates region held node) mem.old mem.new result }
{
    if node == held {
        return Ok(());
    }
    write_node(mem, region, node)?;
    Ok(())
}

// Writes the children of a node, and the node.
fn arrange<M: Mem>(
    mem: &mut M,
    region: Region,
    near: Node,
    far: Node,
    top: Node,
) -> Result<Cut, M::Err>
    requires near { FitsNode region near }
    requires far { FitsNode region far }
    requires top { FitsNode region top }
    requires ready { IsOpen M.Mem region mem.old }
    ensures { Steps M.Mem region (λ cut. ⊥) (Arranges region near far top) mem.old mem.new result }
{
    write_node(mem, region, near)?;
    write_node(mem, region, far)?;
    write_node(mem, region, top)?;
    Ok(Cut {
        root: top.number,
        fell: false,
    })
}

// Makes a black sibling red, and its parent black: a black parent passes the fall up.
fn recolour<M: Mem>(
    mem: &mut M,
    region: Region,
    held: Node,
    parent: Node,
    sibling: Node,
) -> Result<Cut, M::Err>
    requires parent { FitsNode region parent }
    requires sibling { FitsNode region sibling }
    requires ready { IsOpen M.Mem region mem.old }
    ensures { Steps M.Mem region (λ cut. ⊥) (Recolours region held parent sibling) mem.old mem.new result }
{
    write_node(mem, region, sibling.with_red(true))?;
    update_node(mem, region, held, parent.with_red(false))?;
    Ok(Cut {
        root: parent.number,
        fell: !parent.red,
    })
}

// Balances a node whose subtree on a side has fallen, and whose other child, the sibling, is black.
fn lift<M: Mem>(
    mem: &mut M,
    region: Region,
    side: Side,
    held: Node,
    parent: Node,
    sibling: Node,
) -> Result<Cut, M::Err>
    requires parent { FitsNode region parent }
    requires sibling { FitsNode region sibling }
    requires ready { IsOpen M.Mem region mem.old }
    requires lawful { (map : List Val) → M.Admits mem.old map →
        HasFall region side false held parent sibling (with_set map (M.written mem.old)) }
    ensures { Steps M.Mem region (λ cut. ⊥) (Lifts region side false held parent sibling)
        mem.old mem.new result }
{
    let far = side.other();
    let found = read_red(mem, region, sibling.child(far))?;
    if let Some(outer) = found {
        let low = parent.with_child(far, sibling.child(side)).with_red(false);
        let top = sibling.with_child(side, parent.number).with_red(parent.red);
        let cut = arrange(mem, region, low, outer.with_red(false), top)?;
        return Ok(cut);
    }
    let found_near = read_red(mem, region, sibling.child(side))?;
    if let Some(inner) = found_near {
        let low = parent.with_child(far, inner.child(side)).with_red(false);
        let high = sibling.with_child(side, inner.child(far));
        let top = inner
            .with_child(side, parent.number)
            .with_child(far, sibling.number);
        let cut = arrange(mem, region, low, high, top.with_red(parent.red))?;
        return Ok(cut);
    }
    let cut = recolour(mem, region, held, parent, sibling)?;
    Ok(cut)
}

// Balances a node whose subtree on a side may have fallen: the node as it is held, and as it is to be.
pub(crate) fn close<M: Mem>(
    mem: &mut M,
    region: Region,
    side: Side,
    held: Node,
    parent: Node,
    fell: bool,
) -> Result<Cut, M::Err>
    requires parent { FitsNode region parent }
    requires ready { IsOpen M.Mem region mem.old }
    requires lawful { (map : List Val) → M.Admits mem.old map →
        HasGap region side held parent fell (with_set map (M.written mem.old)) }
    ensures { Steps M.Mem region (λ cut. ⊥) (Closes region side held parent fell) mem.old mem.new result }
{
    if !fell {
        update_node(mem, region, held, parent)?;
        return Ok(Cut {
            root: parent.number,
            fell: false,
        });
    }
    let sibling = read_node(mem, region, parent.child(side.other()))?;
    if !sibling.red {
        let cut = lift(mem, region, side, held, parent, sibling)?;
        return Ok(cut);
    }
    let cut = close_red(mem, region, side, held, parent, sibling)?;
    Ok(cut)
}

// The same beside a red sibling: the node becomes red, and is balanced with the sibling's near child as its other
// child; the black sibling stands over it then.
fn close_red<M: Mem>(
    mem: &mut M,
    region: Region,
    side: Side,
    held: Node,
    parent: Node,
    sibling: Node,
) -> Result<Cut, M::Err>
    requires parent { FitsNode region parent }
    requires sibling { FitsNode region sibling }
    requires ready { IsOpen M.Mem region mem.old }
    requires lawful { (map : List Val) → M.Admits mem.old map →
        HasFall region side true held parent sibling (with_set map (M.written mem.old)) }
    ensures { Steps M.Mem region (λ cut. ⊥) (Lifts region side true held parent sibling)
        mem.old mem.new result }
{
    let number = sibling.child(side);
    let nephew = read_node(mem, region, number)?;
    let below = parent.with_child(side.other(), number).with_red(true);
    let cut = lift(mem, region, side, held, below, nephew)?;
    write_node(
        mem,
        region,
        sibling.with_child(side, cut.root).with_red(false),
    )?;
    Ok(Cut {
        root: sibling.number,
        fell: false,
    })
}
