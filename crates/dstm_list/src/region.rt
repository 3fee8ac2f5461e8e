ghost use Rattle.std.specs.Prelude.{◌≢◌, OnOk};
ghost use Rattle.dstm_list.specs.List.{FitsList, SameButThree};
ghost use Rattle.dstm_list.specs.Edits.{Adds, Calls, TakesOut, Tells};
ghost use Rattle.dstm_list.specs.Place.{IsReadyIn};

use crate::edit::{insert_at, member_at, remove_at};
use crate::walk::find;
use dstm_mem::Mem;
use dstm_model::Reply;
use dstm_region::Region;

/// Adds a key to a region's list. Where the reply is Yes it sets the node that was the first free one, the head of the
/// free chain, and the head or the node that now links to the new node; else it sets nothing.
#[inline(always)]
pub fn insert_in<M: Mem>(mem: &mut M, region: Region, key: u32) -> Result<Reply, M::Err>
    requires fits { FitsList region }
    requires ready { IsReadyIn M.Mem region mem.old }

    ensures applies { Calls M.Mem region (λ reply. reply ≢ Reply.Yes) (Adds region key) mem.old mem.new result }
    ensures few { OnOk result (SameButThree region (M.written mem.old) (M.written mem.new)) }
{
    let place = find(mem, region, key)?;
    let reply = insert_at(mem, region, key, place)?;
    Ok(reply)
}

/// Takes a key out of a region's list. Where the reply is Yes it sets the key's node, the head of the free chain, and
/// the head or the node that linked to the key's node; else it sets nothing.
#[inline(always)]
pub fn remove_in<M: Mem>(mem: &mut M, region: Region, key: u32) -> Result<Reply, M::Err>
    requires fits { FitsList region }
    requires ready { IsReadyIn M.Mem region mem.old }

    ensures applies { Calls M.Mem region (λ reply. reply ≢ Reply.Yes) (TakesOut region key) mem.old mem.new result }
    ensures few { OnOk result (SameButThree region (M.written mem.old) (M.written mem.new)) }
{
    let place = find(mem, region, key)?;
    let reply = remove_at(mem, region, key, place)?;
    Ok(reply)
}

/// Tells whether a region's list has a key.
#[inline(always)]
pub fn member_in<M: Mem>(mem: &mut M, region: Region, key: u32) -> Result<Reply, M::Err>
    requires fits { FitsList region }
    requires ready { IsReadyIn M.Mem region mem.old }

    ensures { Calls M.Mem region (λ reply. Unit {0}) (Tells region key) mem.old mem.new result }
{
    let place = find(mem, region, key)?;
    Ok(member_at(place))
}
