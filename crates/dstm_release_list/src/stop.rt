ghost use Rattle.std.specs.Prelude.{◌≡◌, ◌≢◌, ℕ, ◌<◌, ◌⊎◌, IsTrue, false, None, IfOk, OnOk, IfSome};
ghost use Rattle.dstm_list.specs.List.{FitsList};
ghost use Rattle.dstm_mem.specs.Operations.{Leads, OnlyReads};
ghost use Rattle.dstm_list.specs.Reads.{IsRead};
ghost use Rattle.dstm_release_list.specs.Walk.{Visits, IsOwn, IsOwnOfTwo, LetsGo};

use dstm_list::{Node, node_object_in};
use dstm_mem::Release;
use dstm_region::Region;

/// An object of the list that a walk opened.
#[derive(Clone, Copy)]
pub struct Stop {
    pub object: u32,
    /// What it held.
    pub node: Node,
    /// The walk read it first, so it may let the read go.
    pub is_own: bool,
}

impl Stop {
    /// The stop, unless it is at the head.
    pub fn unless_at(self, head: Stop) -> Option<Stop>
        ensures none { result ≡ None → self.object ≡ head.object }
        ensures some { IfSome result (λ stop. (stop ≡ self) × (self.object ≢ head.object)) }
    {
        if self.object == head.object {
            return None;
        }
        Some(self)
    }
}

/// Opens an object for reading.
pub fn visit<M: Release>(mem: &mut M, object: u32) -> Result<Stop, M::Err>
    requires exists { object < M.Mem.objects mem.old }
    requires live { IsTrue (M.Mem.is_live mem.old) }

    ensures visits { IfOk result (λ stop. Visits M.Mem mem.old mem.new object stop) }
    ensures looks { OnOk result (OnlyReads M.Mem mem.old mem.new) }

    ensures leads { Leads M.Mem mem.old mem.new result }
{
    let was_read = mem.is_read(object);
    let value = mem.open_read(object)?;
    let is_read = mem.is_read(object);
    Ok(Stop {
        object,
        node: Node::of(value),
        is_own: is_read && !was_read,
    })
}

/// Lets the node go that stands before the last two, and with the first node the head.
pub fn let_go<M: Release>(mem: &mut M, region: Region, head: Stop, older: Option<Stop>)
    requires fits { FitsList region }
    requires head { head.object < M.Mem.objects mem.old }
    requires exists { IfSome older (λ stop. stop.object < M.Mem.objects mem.old) }
    requires live { IsTrue (M.Mem.is_live mem.old) }

    ensures lets { LetsGo M.Mem (IsOwnOfTwo head older) mem.old mem.new }
    ensures gone { IfSome older (λ stop. IsTrue stop.is_own → ¬ IsRead M.Mem mem.new stop.object) }
{
    let Some(older) = older else {
        return;
    };
    leave(mem, older);
    if older.object == node_object_in(region, head.node.next) {
        leave(mem, head);
    }
}

// Lets a read of the walk's own go.
fn leave<M: Release>(mem: &mut M, stop: Stop)
    requires exists { stop.object < M.Mem.objects mem.old }
    requires live { IsTrue (M.Mem.is_live mem.old) }

    ensures lets { LetsGo M.Mem (IsOwn stop) mem.old mem.new }
    ensures gone { IsTrue stop.is_own → ¬ IsRead M.Mem mem.new stop.object }
{
    if stop.is_own && mem.is_read(stop.object) {
        mem.release(stop.object);
    }
}
