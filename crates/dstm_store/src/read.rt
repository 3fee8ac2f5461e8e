ghost use Rattle.std.specs.Prelude.{◌≡◌, ◌++◌, map, length, IfOk, OnOk};
ghost use Rattle.dstm_model.specs.Layout.{IsValid};
ghost use Rattle.dstm_model.specs.Objects.{objects_of};
ghost use Rattle.dstm_model.specs.Store.{Store, state_of, item_of};
ghost use Rattle.dstm_region.specs.Region.{tree_region};
ghost use Rattle.dstm_tree.specs.Tree.{items_of};
ghost use Rattle.dstm_tree.specs.Node.{HasTree, Subtree};
ghost use Rattle.dstm_store.specs.Whole.{StandsFor, IsLawful};

use dstm_model::{Item, Items, Layout, Numbers, State, Val};
use std::alloc::{AllocError, Global};

/// What the store holds that the values stand for.
pub fn read_state(alloc: Global, layout: &Layout, values: &[Val]) -> Result<State, AllocError>
    requires valid { IsValid layout.now }
    requires lawful { IsLawful layout.now values.now }
    ensures { IfOk result (λ state. (store : Store) → StandsFor layout.now values.now store →
        state ≡ state_of store) }
{
    let balances = read_bank(alloc, layout, values)?;
    let keys = read_list(alloc, layout, values)?;
    let items = read_tree(alloc, layout, values)?;
    Ok(State {
        bank: Numbers::from_vec(balances),
        list: Numbers::from_vec(keys),
        tree: Items::from_vec(items),
    })
}

// The balances of the accounts, which are the first objects.
fn read_bank(alloc: Global, layout: &Layout, values: &[Val]) -> Result<Vec<u64>, AllocError>
    requires { IsLawful layout.now values.now }
    ensures { IfOk result (λ balances. (store : Store) → StandsFor layout.now values.now store →
        balances.items ≡ store.balances) }
{
    let balances = low_parts(alloc, &values[..layout.accounts as usize])?;
    Ok(balances)
}

fn low_parts(alloc: Global, values: &[Val]) -> Result<Vec<u64>, AllocError>
    ensures { IfOk result (λ lows. lows.items ≡ map (λ value. value.low) values.now) }
{
    values.iter().map(|value| value.low).collect(alloc)
}

// The keys of the list, along the chain from its head.
fn read_list(alloc: Global, layout: &Layout, values: &[Val]) -> Result<Vec<u64>, AllocError>
    requires valid { IsValid layout.now }
    requires lawful { IsLawful layout.now values.now }
    ensures { IfOk result (λ keys. (store : Store) → StandsFor layout.now values.now store →
        keys.items ≡ store.keys) }
{
    let mut keys = Vec::new(alloc);
    if layout.list == 0 {
        return Ok(keys);
    }
    let head = values[layout.accounts as usize];
    let mut at = dstm_list::Node::of(head).next;
    for _step in 0..layout.list {
        if at == 0 {
            return Ok(keys);
        }
        let object = dstm_list::node_object(layout, at);
        let node = dstm_list::Node::of(values[object as usize]);
        keys.push(node.key)?;
        at = node.next;
    }
    Ok(keys)
}

// The keys of the tree with their values, from left to right.
fn read_tree(alloc: Global, layout: &Layout, values: &[Val]) -> Result<Vec<Item>, AllocError>
    requires valid { IsValid layout.now }
    requires lawful { IsLawful layout.now values.now }
    ensures { IfOk result (λ items. (store : Store) → StandsFor layout.now values.now store →
        items.items ≡ map item_of store.items) }
{
    let mut items = Vec::new(alloc);
    if layout.tree == 0 {
        return Ok(items);
    }
    let root = values[dstm_tree::root_object(layout) as usize].low as u16;
    read_below(layout, values, root, layout.tree, &mut items)?;
    Ok(items)
}

// Puts the items of a part of the tree, of at most `depth` nodes, behind those read so far.
fn read_below(
    layout: &Layout,
    values: &[Val],
    at: u16,
    depth: u32,
    items: &mut Vec<Item>,
) -> Result<(), AllocError>
    requires tree { HasTree layout.now }
    requires objects { length values.now ≡ objects_of layout.now }
    requires stands { Subtree (tree_region layout.now) values.now at depth }
    ensures { OnOk result ((below : Subtree (tree_region layout.now) values.now at depth) →
        items.new.items ≡ items.old.items ++ map item_of (items_of below.tree)) }
{
    if at == 0 {
        return Ok(());
    }
    let object = dstm_tree::node_object(layout, at);
    let node = dstm_tree::Node::of(at, values[object as usize]);
    let item = Item {
        key: u64::from(node.key),
        value: node.value,
    };
    read_below(layout, values, node.left, depth - 1, items)?;
    items.push(item)?;
    read_below(layout, values, node.right, depth - 1, items)?;
    Ok(())
}
