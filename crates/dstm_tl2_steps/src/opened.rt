// What an attempt has open, and where each object stands in it.
ghost use Rattle.std.specs.Prelude.{IfSome, ◌≡◌, ◌≢◌, ℕ, ◌^◌, ◌<◌, ◌≤◌, [], ◌∷◌, ◌++◌, Some, None, IfOk, IsSome, length};
ghost use Rattle.dstm_mem.specs.Memory.{value_in};
ghost use Rattle.dstm_tl2_steps.specs.Opened.{OpenedAs, read_at, read_slot, set_writes, slots_value, with_value, write_at};

use dstm_mem::{Place, Slot, forget, look, push};
use dstm_model::Val;
use std::alloc::{AllocError, Global};
use std::marker::Model;

/// A read of an object: the lock word that was found, and the value.
#[derive(Clone, Copy, Debug, PartialEq, Eq)]
pub struct ReadSlot {
    pub object: u32,
    pub word: u64,
    pub value: Val,
}

impl Slot for ReadSlot {
    ghost use Rattle.dstm_tl2_steps.specs.Opened.{reads_sort};

    ghost sort = { reads_sort };

    fn object(&self) -> u32 {
        self.object
    }
}

/// The reads and the writes of an attempt. There is room for all objects from the making on.
#[derive(Drop)]
pub struct Opened {
    reads: Vec<ReadSlot>,
    writes: Vec<(u32, Val)>,
    /// Whether each of the writes was set.
    sets: Vec<bool>,
    places: Vec<Place>,
}

impl Model for Opened {
    ghost use Rattle.std.specs.Prelude.{IfSome, length};
    ghost use Rattle.dstm_tl2_steps.specs.Opened.{HasPlaces, OpenedAs, set_writes};

    ghost Value = { OpenedAs };

    ghost view = { λ o. record {
      objects = length o.places.items;
      reads = o.reads.items;
      writes = o.writes.items;
      set = set_writes o.sets.items o.writes.items;
    } };

    ghost invariant = { HasPlaces };
}

impl Opened {
    /// Room for all objects.
    pub fn make(alloc: Global, objects: u32) -> Result<Opened, AllocError>
        requires few { objects < 2 ^ 31 }
        ensures { IfOk result (λ o. o ≡ record { objects = objects; reads = []; writes = []; set = [] }) }
    {
        let nowhere = Place { read: 0, write: 0 };
        Ok(Opened {
            reads: Vec::with_capacity(alloc, objects as usize)?,
            writes: Vec::with_capacity(alloc, objects as usize)?,
            sets: Vec::with_capacity(alloc, objects as usize)?,
            places: vec![in alloc; nowhere; objects as usize]?,
        })
    }

    /// The read of an object.
    #[tactic(auto, using(crate::proofs::Placing::found_read))]
    pub fn read(&self, o: u32) -> Option<ReadSlot>
        requires exists { o < self.now.objects }
        ensures { result ≡ read_slot self.now.reads o }
    {
        look(&self.reads, self.places[o as usize].read)
    }

    /// The new value of an object that is open for writing.
    pub fn write(&self, o: u32) -> Option<Val>
        requires exists { o < self.now.objects }
        ensures { result ≡ value_in self.now.writes o }
    {
        match look(&self.writes, self.places[o as usize].write) {
            Some(write) => Some(write.1),
            None => None,
        }
    }

    /// The new value of an object, or else the one that was read.
    pub fn value(&self, o: u32) -> Option<Val>
        requires exists { o < self.now.objects }
        ensures { result ≡ slots_value (value_in self.now.writes o) (read_slot self.now.reads o) }
    {
        match self.write(o) {
            Some(value) => Some(value),
            None => self.read(o).map(|slot| slot.value),
        }
    }

    /// The lock word that was found as an object was read.
    pub fn word(&self, o: u32) -> u64
        requires exists { o < self.now.objects }
        requires read { IsSome (read_slot self.now.reads o) }
        ensures { IfSome (read_slot self.now.reads o) (λ slot. result ≡ slot.word) }
    {
        match self.read(o) {
            Some(slot) => slot.word,
            None => 0,
        }
    }

    /// The reads, the oldest first.
    pub fn reads(&self) -> &[ReadSlot]
        ensures items { result.now ≡ self.now.reads }
        ensures below { (i : ℕ) → i < length self.now.reads → (read_at self.now.reads i).object < self.now.objects }
        ensures apart { (i j : ℕ) → i < j → j < length self.now.reads →
            (read_at self.now.reads i).object ≢ (read_at self.now.reads j).object }
        ensures few { (length self.now.reads ≤ self.now.objects) × (self.now.objects < 2 ^ 31) }
    {
        &self.reads
    }

    /// The writes, the oldest first.
    pub fn writes(&self) -> &Vec<(u32, Val)>
        ensures items { result.now.items ≡ self.now.writes }
        ensures below { (i : ℕ) → i < length self.now.writes → (write_at self.now.writes i).0 < self.now.objects }
        ensures apart { (i j : ℕ) → i < j → j < length self.now.writes →
            (write_at self.now.writes i).0 ≢ (write_at self.now.writes j).0 }
        ensures few { (length self.now.writes ≤ self.now.objects) × (self.now.objects < 2 ^ 31) }
    {
        &self.writes
    }

    /// Records a read.
    pub fn push_read(&mut self, slot: ReadSlot)
        requires exists { slot.object < self.old.objects }
        requires unread { read_slot self.old.reads slot.object ≡ None }
        ensures { self.new ≡ record self.old { reads = self.old.reads ++ slot ∷ [] } }
    {
        push(
            &mut self.reads,
            &mut self.places[slot.object as usize].read,
            slot,
        );
    }

    /// Opens an object for writing, which keeps its value until one is set.
    pub fn push_write(&mut self, o: u32, value: Val)
        requires exists { o < self.old.objects }
        requires unopened { value_in self.old.writes o ≡ None }
        ensures { self.new ≡ record self.old { writes = self.old.writes ++ (o, value) ∷ [] } }
    {
        push(
            &mut self.writes,
            &mut self.places[o as usize].write,
            (o, value),
        );
        self.sets.push_reserved(false);
    }

    /// Sets the value of an object that is open for writing.
    pub fn set(&mut self, o: u32, value: Val)
        requires exists { o < self.old.objects }
        requires opened { IsSome (value_in self.old.writes o) }
        ensures writes { self.new.writes ≡ with_value o value self.old.writes }
        ensures set { (p : ℕ) → p ≢ o → value_in self.new.set p ≡ value_in self.old.set p }
        ensures value { value_in self.new.set o ≡ Some value }
        ensures rest { (self.new.objects ≡ self.old.objects) × (self.new.reads ≡ self.old.reads) }
    {
        let slot = self.places[o as usize].write as usize - 1;
        self.writes[slot].1 = value;
        self.sets[slot] = true;
    }

    /// Nothing is open any more.
    pub fn clear(&mut self)
        ensures { self.new ≡ record self.old { reads = []; writes = []; set = [] } }
    {
        forget(&mut self.places, &self.reads);
        forget(&mut self.places, &self.writes);
        self.reads.clear();
        self.writes.clear();
        self.sets.clear();
    }
}
