ghost use Rattle.dstm_tree.specs.Steps.{IsReadyIn, Steps, Finds, FindsIf};

use crate::cells::{read_node, read_root};
use crate::side::Side;
use dstm_mem::Mem;
use dstm_region::Region;

/// Tells whether a region's tree has a key.
pub fn member_in<M: Mem>(mem: &mut M, region: Region, key: u32) -> Result<bool, M::Err>
    requires { IsReadyIn M.Mem region mem.old }
    ensures { Steps M.Mem region (λ found. Unit {0}) (FindsIf region key) mem.old mem.new result }
{
    let found = get_in(mem, region, key)?;
    Ok(found.is_some())
}

/// The value of a key in a region's tree, if it is there: a search from the root, on which no way is longer than there
/// are nodes.
pub fn get_in<M: Mem>(mem: &mut M, region: Region, key: u32) -> Result<Option<u64>, M::Err>
    requires { IsReadyIn M.Mem region mem.old }
    ensures { Steps M.Mem region (λ found. Unit {0}) (Finds region key) mem.old mem.new result }
{
    let mut at = read_root(mem, region)?;
    for _step in 0..region.nodes {
        if at == 0 {
            return Ok(None);
        }
        let node = read_node(mem, region, at)?;
        if key == node.key {
            return Ok(Some(node.value));
        }
        at = node.child(Side::toward(key, node.key));
    }
    Ok(None)
}
