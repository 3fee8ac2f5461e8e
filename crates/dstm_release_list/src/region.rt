ghost use Rattle.std.specs.Prelude.{◌≢◌, IfOk, OnOk};
ghost use Rattle.dstm_list.specs.List.{FitsList, SameButThree};
ghost use Rattle.dstm_list.specs.Edits.{Adds, Calls, TakesOut, Tells};
ghost use Rattle.dstm_list.specs.Place.{IsReadyIn};
ghost use Rattle.dstm_release_list.specs.Walk.{AddsAtMost, most_of_insert, most_of_remove};

use crate::walk::walk;
use dstm_list::{insert_at, member_at, remove_at};
use dstm_mem::Release;
use dstm_model::Reply;
use dstm_region::Region;

/// Adds a key to a region's list. Where the reply is Yes it sets the node that was the first free one, the head of the
/// free chain, and the head or the node that now links to the new node; else it sets nothing. At most two objects more
/// than before are reads where the reply is Yes, three where it is No, and four where it is Full.
#[inline(always)]
pub fn insert_in<M: Release>(mem: &mut M, region: Region, key: u32) -> Result<Reply, M::Err>
    requires fits { FitsList region }
    requires ready { IsReadyIn M.Mem region mem.old }

    ensures applies { Calls M.Mem region (λ reply. reply ≢ Reply.Yes) (Adds region key) mem.old mem.new result }
    ensures few { OnOk result (SameButThree region (M.Mem.written mem.old) (M.Mem.written mem.new)) }
    ensures adds { IfOk result (λ reply. AddsAtMost (most_of_insert reply) M.Mem mem.old mem.new) }
{
    let place = walk(mem, region, key)?;
    let reply = insert_at(mem, region, key, place)?;
    Ok(reply)
}

/// Takes a key out of a region's list. Where the reply is Yes it sets the key's node, the head of the free chain, and
/// the head or the node that linked to the key's node; else it sets nothing. At most one object more than before is a read
/// where the reply is Yes, and three are where it is No.
#[inline(always)]
pub fn remove_in<M: Release>(mem: &mut M, region: Region, key: u32) -> Result<Reply, M::Err>
    requires fits { FitsList region }
    requires ready { IsReadyIn M.Mem region mem.old }

    ensures applies { Calls M.Mem region (λ reply. reply ≢ Reply.Yes) (TakesOut region key) mem.old mem.new result }
    ensures few { OnOk result (SameButThree region (M.Mem.written mem.old) (M.Mem.written mem.new)) }
    ensures adds { IfOk result (λ reply. AddsAtMost (most_of_remove reply) M.Mem mem.old mem.new) }
{
    let found = walk(mem, region, key)?;
    let reply = remove_at(mem, region, key, found)?;
    Ok(reply)
}

/// Tells whether a region's list has a key. At most three objects more than before are reads.
#[inline(always)]
pub fn member_in<M: Release>(mem: &mut M, region: Region, key: u32) -> Result<Reply, M::Err>
    requires fits { FitsList region }
    requires ready { IsReadyIn M.Mem region mem.old }

    ensures applies { Calls M.Mem region (λ reply. Unit {0}) (Tells region key) mem.old mem.new result }
    ensures adds { OnOk result (AddsAtMost 3 M.Mem mem.old mem.new) }
{
    Ok(member_at(walk(mem, region, key)?))
}
