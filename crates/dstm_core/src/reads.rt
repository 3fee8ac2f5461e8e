ghost use Rattle.std.specs.Prelude.{◌≡◌, ◌+◌, ◌<◌, ◌↔◌, ◌++◌, ◌∷◌, [], length, slice_get, IfSome, IsSome, true, IsTrue, OnOk, OnErr};
ghost use Rattle.dstm_core.specs.Indexed.{is_among, count_before};
ghost use Rattle.dstm_core.specs.State.{read_of, drop_read};

use crate::state::Read;
use std::alloc::{AllocError, Global};
use std::collections::{BTreeMap, BTreeSet};
use std::marker::Model;

/// The reads that an attempt has recorded, the oldest first, and how many of them it has checked.
/// A read is found, checked or dropped in logarithmic time.
#[derive(Drop)]
pub(crate) struct Reads {
    // Every read that was recorded, those dropped too.
    recorded: Vec<Read>,
    // The places of those that are not dropped.
    live: BTreeSet<usize>,
    // The place of the read of each object.
    places: BTreeMap<u64, usize>,
    // The reads before this place are checked.
    cursor: usize,
}

impl Model for Reads {
    ghost use Rattle.dstm_core.specs.Indexed.{IsIndexed, reads_at, count_before};
    ghost use Rattle.dstm_core.specs.Reads.{Checklist};

    ghost Value = { Checklist };

    ghost view = { λ r. record {
      reads = reads_at r.recorded.items r.live.keys;
      checked = count_before r.cursor r.live.keys;
    } };

    ghost invariant = { λ r. IsIndexed r.recorded.items r.live.keys r.places.entries r.cursor };
}

impl Reads {
    pub(crate) fn new(alloc: Global) -> Reads
        ensures { result ≡ record { reads = []; checked = 0 } }
    {
        Reads {
            recorded: Vec::new(alloc),
            live: BTreeSet::new(alloc),
            places: BTreeMap::new(alloc),
            cursor: 0,
        }
    }

    /// The read of an object.
    pub(crate) fn find(&self, object: u64) -> Option<Read>
        ensures { result ≡ read_of object self.now.reads }
    {
        match self.places.get(&object) {
            None => None,
            Some(place) => Some(self.recorded[*place]),
        }
    }

    /// The read that is to be checked next.
    pub(crate) fn next(&self) -> Option<Read>
        ensures read { result ≡ slice_get self.now.reads self.now.checked }
        ensures within { IsSome result ↔ (self.now.checked < length self.now.reads) }
    {
        match next_place(&self.live, self.cursor) {
            None => None,
            Some(place) => Some(self.recorded[place]),
        }
    }

    /// Whether every read was checked.
    pub(crate) fn are_checked(&self) -> bool
        ensures { IsTrue result ↔ (self.now.checked ≡ length self.now.reads) }
    {
        next_place(&self.live, self.cursor).is_none()
    }

    /// Counts the next read as checked.
    pub(crate) fn check_next(&mut self)
        requires { self.old.checked < length self.old.reads }
        ensures { self.new ≡ record self.old { checked = self.old.checked + 1 } }
    {
        if let Some(place) = next_place(&self.live, self.cursor) {
            self.cursor = place + 1;
        }
    }

    /// Forgets which reads were checked.
    pub(crate) fn uncheck(&mut self)
        ensures { self.new ≡ record self.old { checked = 0 } }
    {
        self.cursor = 0;
    }

    /// Adds a read of an object that has none, as the last one.
    pub(crate) fn push(&mut self, read: Read) -> Result<(), AllocError>
        requires { read_of read.object self.old.reads ≡ None }
        ensures ok { OnOk result (self.new ≡ record self.old { reads = self.old.reads ++ read ∷ [] }) }
        ensures err { OnErr result (self.new ≡ self.old) }
    {
        let place = self.recorded.len();
        self.recorded.push(read)?;
        self.live.insert(place)?;
        if let Err(full) = self.places.insert(read.object, place) {
            self.live.remove(&place);
            return Err(full.into());
        }
        Ok(())
    }

    /// Drops the read of an object, and forgets which reads were checked.
    pub(crate) fn remove(&mut self, object: u64)
        ensures { self.new ≡ record { reads = drop_read object self.old.reads; checked = 0 } }
    {
        self.cursor = 0;
        let Some(place) = self.places.remove(&object) else {
            return;
        };
        self.live.remove(&place);
    }

    /// Drops every read.
    pub(crate) fn clear(&mut self)
        ensures { self.new ≡ record { reads = []; checked = 0 } }
    {
        self.recorded.clear();
        self.live.clear();
        self.places.clear();
        self.cursor = 0;
    }
}

// The first place that does not stand before the cursor.
fn next_place(live: &BTreeSet<usize>, cursor: usize) -> Option<usize>
    ensures place { result ≡ slice_get live.now.keys (count_before cursor live.now.keys) }
    ensures among { IfSome result (λ place. is_among place live.now.keys ≡ true) }
    ensures count { IfSome result
        (λ place. count_before (place + 1) live.now.keys ≡ count_before cursor live.now.keys + 1) }
{
    live.range(cursor..).next().copied()
}
