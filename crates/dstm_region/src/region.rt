ghost use Rattle.std.specs.Prelude.{◌≡◌};
ghost use Rattle.dstm_model.specs.Layout.{IsValid};
ghost use Rattle.dstm_region.specs.Region.{list_region, tree_region};

use dstm_model::Layout;

/// A run of objects that a structure of numbered nodes stands on. Its first object is the structure's head or root,
/// the next one the head of its free chain, and then come its nodes, from number 1 on.
#[derive(Clone, Copy, Debug, PartialEq, Eq)]
pub struct Region {
    /// The first object.
    pub first: u32,
    /// How many nodes there are.
    pub nodes: u32,
}

/// The region of a layout's list.
#[inline(always)]
pub fn list_region(layout: &Layout) -> Region
    ensures { result ≡ list_region layout.now }
{
    Region {
        first: layout.accounts,
        nodes: layout.list,
    }
}

/// The region of a layout's tree.
#[inline(always)]
pub fn tree_region(layout: &Layout) -> Region
    requires { IsValid layout.now }
    ensures { result ≡ tree_region layout.now }
{
    let list = if layout.list == 0 { 0 } else { layout.list + 2 };
    Region {
        first: layout.accounts + list,
        nodes: layout.tree,
    }
}
