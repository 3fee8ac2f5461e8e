// What an attempt has open, and where each object stands in it.
ghost use Rattle.std.specs.Prelude.{◌≡◌, ◌≢◌, ℕ, List, ◌+◌, ◌*◌, ◌^◌, ◌<◌, ◌≤◌, [], ◌∷◌, ◌++◌, true, None, IfOk, IsSome, OnOk, filter, length, map, vec_capacity};
ghost use Rattle.dstm_steps.specs.Reads.{kept};
ghost use Rattle.dstm_engine.specs.Mirror.{slot_old, slot_value, slot_word};
ghost use Rattle.dstm_engine.specs.Opened.{OpenedAs, read_at, read_slot, slots_value, with_set_slot, without_read, write_slot, AreApart, AreReadPlaces};
ghost use Rattle.dstm_steps.specs.Sorts.{is_kept};
ghost use Rattle.dstm_mem.specs.Slots.{place_at};
ghost use Rattle.dstm_steps.specs.declared.slots.WriteSlot.{WriteSlot};

use dstm_mem::{Place, forget, look, push};
use dstm_model::Val;
use dstm_steps::{ReadSlot, WriteSlot};
use std::alloc::{AllocError, Global};
use std::marker::Model;

// The reads and the writes of an attempt. There is room for all objects from the making on, and as much for reads that
// were let go: at most half of the slots are of these when a read is recorded.
#[derive(Drop)]
pub struct Opened {
    reads: Vec<ReadSlot>,
    writes: Vec<WriteSlot>,
    places: Vec<Place>,
    // How many of the reads were let go.
    gone: usize,
}

impl Model for Opened {
    ghost use Rattle.std.specs.Prelude.{filter, length};
    ghost use Rattle.dstm_engine.specs.Opened.{HasPlaces, OpenedAs};
    ghost use Rattle.dstm_steps.specs.Sorts.{is_kept};

    ghost Value = { OpenedAs };

    ghost view = { λ o. record {
      objects = length o.places.items;
      reads = filter is_kept o.reads.items;
      writes = o.writes.items;
    } };

    ghost invariant = { HasPlaces };
}

impl Opened {
    // Room for all objects.
    pub fn make(alloc: Global, objects: u32) -> Result<Opened, AllocError>
        requires few { objects < 2 ^ 31 }
        ensures { IfOk result (λ o. o ≡ record { objects = objects; reads = []; writes = [] }) }
    {
        Ok(Opened {
            reads: Vec::with_capacity(alloc, 2 * objects as usize)?,
            writes: Vec::with_capacity(alloc, objects as usize)?,
            places: vec![in alloc; Place { read: 0, write: 0 }; objects as usize]?,
            gone: 0,
        })
    }

    // The read of an object.
    #[tactic(auto, using(crate::proofs::AtPlace::found_read))]
    pub fn read(&self, o: u32) -> Option<ReadSlot>
        requires exists { o < self.now.objects }
        ensures { result ≡ read_slot self.now.reads o }
    {
        look(&self.reads, self.places[o as usize].read)
    }

    // What an object is open for writing with.
    #[tactic(auto, using(crate::proofs::AtPlace::found_write))]
    pub fn write(&self, o: u32) -> Option<WriteSlot>
        requires exists { o < self.now.objects }
        ensures { result ≡ write_slot self.now.writes o }
    {
        look(&self.writes, self.places[o as usize].write)
    }

    // The value last set for an object, or else the one that is held.
    pub fn value(&self, o: u32) -> Option<Val>
        requires exists { o < self.now.objects }
        ensures { result ≡ slots_value (write_slot self.now.writes o) (read_slot self.now.reads o) }
    {
        match self.write(o) {
            Some(slot) => Some(slot.to_put()),
            None => self.read(o).map(|slot| slot.value),
        }
    }

    // The slots of the reads, with those that were let go.
    pub fn reads(&self) -> &[ReadSlot]
        ensures { kept result.now ≡ map slot_word self.now.reads }
    {
        &self.reads
    }

    // The slots of the objects open for writing.
    pub fn writes(&self) -> &[WriteSlot]
        ensures { result.now ≡ self.now.writes }
    {
        &self.writes
    }

    // Copies what is held: the values of the reads, and the old ones of the objects open for writing.
    pub fn copy_held(&self, values: &mut Vec<(u32, Val)>) -> Result<(), AllocError>
        ensures { OnOk result (values.new.items ≡ map slot_value self.now.reads ++ map slot_old self.now.writes) }
    {
        values.clear();
        copy_reads(&self.reads, values)?;
        copy_olds(&self.writes, values)
    }

    // Records a read. Where more than half of the slots were let go the others move together first.
    pub fn push_read(&mut self, object: u32, word: u64, value: Val)
        requires exists { object < self.old.objects }
        requires unread { read_slot self.old.reads object ≡ None }
        requires room { length self.old.reads < self.old.objects }
        ensures { self.new ≡ record self.old {
          reads = self.old.reads ++ record { object = object; kept = true; word = word; value = value } ∷ [];
        } }
    {
        make_room(&mut self.reads, &mut self.places, &mut self.gone);
        let slot = ReadSlot {
            object,
            kept: true,
            word,
            value,
        };
        push(
            &mut self.reads,
            &mut self.places[object as usize].read,
            slot,
        );
    }

    // Lets the read of an object go, where there is one.
    pub fn drop_read(&mut self, o: u32)
        requires exists { o < self.old.objects }
        ensures { self.new ≡ record self.old { reads = without_read o self.old.reads } }
    {
        let place = self.places[o as usize].read;
        if place == 0 {
            return;
        }
        self.places[o as usize].read = 0;
        self.reads[place as usize - 1].kept = false;
        self.gone += 1;
    }

    // Opens an object for writing.
    pub fn push_write(&mut self, slot: WriteSlot)
        requires exists { slot.object < self.old.objects }
        requires unopened { write_slot self.old.writes slot.object ≡ None }
        requires room { length self.old.writes < self.old.objects }
        ensures { self.new ≡ record self.old { writes = self.old.writes ++ slot ∷ [] } }
    {
        push(
            &mut self.writes,
            &mut self.places[slot.object as usize].write,
            slot,
        );
    }

    // Sets the value of an object that is open for writing.
    pub fn set(&mut self, o: u32, v: Val)
        requires exists { o < self.old.objects }
        requires opened { IsSome (write_slot self.old.writes o) }
        ensures { self.new ≡ record self.old { writes = with_set_slot o v self.old.writes } }
    {
        let place = self.places[o as usize].write;
        self.writes[place as usize - 1].new = Some(v);
    }

    // Nothing is open any more.
    pub fn clear(&mut self)
        ensures { self.new ≡ record self.old { reads = []; writes = [] } }
    {
        forget(&mut self.places, &self.reads);
        forget(&mut self.places, &self.writes);
        self.reads.clear();
        self.writes.clear();
        self.gone = 0;
    }
}

// Copies the values of the reads that are kept, behind others.
fn copy_reads(reads: &[ReadSlot], values: &mut Vec<(u32, Val)>) -> Result<(), AllocError>
    ensures { OnOk result (values.new.items ≡ values.old.items ++ map slot_value (filter is_kept reads.now)) }
{
    for slot in reads {
        if slot.kept {
            values.push((slot.object, slot.value))?;
        }
    }
    Ok(())
}

// Copies the old values of objects open for writing, behind others.
fn copy_olds(writes: &[WriteSlot], values: &mut Vec<(u32, Val)>) -> Result<(), AllocError>
    ensures { OnOk result (values.new.items ≡ values.old.items ++ map slot_old writes.now) }
{
    for slot in writes {
        values.push((slot.object, slot.old))?;
    }
    Ok(())
}

// Where more than half of the reads were let go the others move together, and else nothing changes.
fn make_room(reads: &mut Vec<ReadSlot>, places: &mut Vec<Place>, gone: &mut usize)
    requires placed { AreReadPlaces reads.old.items places.old.items }
    requires counted { gone.old + length (filter is_kept reads.old.items) ≡ length reads.old.items }
    requires few { length reads.old.items < 2 ^ 32 }
    ensures same { 2 * gone.old ≤ length reads.old.items →
        (reads.new ≡ reads.old) × (places.new ≡ places.old) × (gone.new ≡ gone.old) }
    ensures placed { AreReadPlaces reads.new.items places.new.items }
    ensures writes { (o : ℕ) → (place_at places.new.items o).write ≡ (place_at places.old.items o).write }
    ensures kept { filter is_kept reads.new.items ≡ filter is_kept reads.old.items }
    ensures counted { gone.new + length (filter is_kept reads.new.items) ≡ length reads.new.items }
    ensures room { length reads.new.items ≤ 2 * length (filter is_kept reads.old.items) }
    ensures size { length places.new.items ≡ length places.old.items }
    ensures capacity { vec_capacity reads.new ≡ vec_capacity reads.old }
{
    if *gone == 0 || *gone <= reads.len() / 2 {
        return;
    }
    *gone = 0;
    keep_reads(reads);
    place_reads(places, reads);
}

// The reads that are kept move together.
fn keep_reads(reads: &mut Vec<ReadSlot>)
    ensures items { reads.new.items ≡ filter is_kept reads.old.items }
    ensures room { vec_capacity reads.new ≡ vec_capacity reads.old }
{
    reads.retain(|slot| slot.kept);
}

// Each read, of an object of its own, stands in its place.
fn place_reads(places: &mut [Place], reads: &[ReadSlot])
    requires below { (i : ℕ) → i < length reads.now → (read_at reads.now i).object < length places.old }
    requires apart { AreApart reads.now }
    requires few { length reads.now < 2 ^ 32 }
    ensures size { length places.new ≡ length places.old }
    ensures done { (i : ℕ) → i < length reads.now → (place_at places.new (read_at reads.now i).object).read ≡ i + 1 }
    ensures others { (o : ℕ) → ((i : ℕ) → i < length reads.now → (read_at reads.now i).object ≢ o) →
        (place_at places.new o).read ≡ (place_at places.old o).read }
    ensures writes { (o : ℕ) → (place_at places.new o).write ≡ (place_at places.old o).write }
{
    for (i, slot) in reads.iter().enumerate() {
        places[slot.object as usize].read = i as u32 + 1;
    }
}
