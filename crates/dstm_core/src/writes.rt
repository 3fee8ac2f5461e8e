ghost use Rattle.std.specs.Prelude.{◌≡◌, ◌+◌, ◌<◌, ◌↔◌, ◌++◌, ◌∷◌, [], length, slice_get, IsSome, IsTrue, OnOk, OnErr};
ghost use Rattle.dstm_core.specs.State.{write_of};

use crate::state::Write;
use std::alloc::{AllocError, Global};
use std::collections::BTreeSet;
use std::marker::Model;

/// The objects that an attempt has opened for writing, the oldest first, and how many of them have
/// their new value put.
#[derive(Drop)]
pub(crate) struct Writes {
    items: Vec<Write>,
    // The objects of all these writes.
    objects: BTreeSet<u64>,
    written: usize,
}

impl Model for Writes {
    ghost use Rattle.std.specs.Prelude.{◌≡◌, ℕ, is_some};
    ghost use Rattle.std.specs.BTreeSet.{contains};
    ghost use Rattle.std.specs.Ordering.{nat_cmp};
    ghost use Rattle.dstm_core.specs.State.{write_of};
    ghost use Rattle.dstm_core.specs.Writes.{Worklist};

    ghost Value = { Worklist };

    ghost view = { λ w. record { writes = w.items.items; written = w.written } };

    ghost invariant = { λ w. (o : ℕ) → contains nat_cmp w.objects o ≡ is_some (write_of o w.items.items) };
}

impl Writes {
    pub(crate) fn new(alloc: Global) -> Writes
        ensures { result ≡ record { writes = []; written = 0 } }
    {
        Writes {
            items: Vec::new(alloc),
            objects: BTreeSet::new(alloc),
            written: 0,
        }
    }

    /// Whether the object is not among them.
    pub(crate) fn lack(&self, object: u64) -> bool
        ensures { IsTrue result ↔ (write_of object self.now.writes ≡ None) }
    {
        !self.objects.contains(&object)
    }

    /// The write whose value is put next.
    pub(crate) fn next(&self) -> Option<Write>
        ensures write { result ≡ slice_get self.now.writes self.now.written }
        ensures within { IsSome result ↔ (self.now.written < length self.now.writes) }
    {
        self.items.get(self.written).copied()
    }

    pub(crate) fn is_empty(&self) -> bool
        ensures { IsTrue result ↔ (self.now.writes ≡ []) }
    {
        self.items.is_empty()
    }

    /// Whether every write has its value put.
    pub(crate) fn are_put(&self) -> bool
        ensures { IsTrue result ↔ (self.now.written ≡ length self.now.writes) }
    {
        self.written == self.items.len()
    }

    /// Counts the value of the next write as put.
    pub(crate) fn put_next(&mut self)
        requires { self.old.written < length self.old.writes }
        ensures { self.new ≡ record self.old { written = self.old.written + 1 } }
    {
        self.written += 1;
    }

    /// Adds a write as the last one.
    pub(crate) fn push(&mut self, write: Write) -> Result<(), AllocError>
        ensures ok { OnOk result (self.new ≡ record self.old { writes = self.old.writes ++ write ∷ [] }) }
        ensures err { OnErr result (self.new ≡ self.old) }
    {
        self.items.push(write)?;
        if let Err(full) = self.objects.insert(write.object) {
            self.items.pop();
            return Err(full.into());
        }
        Ok(())
    }

    /// Drops every write.
    pub(crate) fn clear(&mut self)
        ensures { self.new ≡ record { writes = []; written = 0 } }
    {
        self.items.clear();
        self.objects.clear();
        self.written = 0;
    }
}
