ghost use Rattle.std.specs.Prelude.{◌≡◌, ℕ, ◌<◌, ◌↔◌, List, length, IsTrue, true, false, IfOk, None};
ghost use Rattle.dstm_model.specs.declared.value.Val.{Val};
ghost use Rattle.dstm_mem.specs.Memory.{with_set};
ghost use Rattle.dstm_mem.specs.Flat.{written_in};

use crate::memory::Mem;
use crate::release::Release;
use dstm_model::Val;
use std::alloc::{AllocError, Global};

/// The error of a memory whose calls never give up.
#[derive(Drop)]
pub enum Never {}

// What was done with one object.
#[derive(Clone, Copy, Debug)]
struct Note {
    is_read: bool,
    is_opened: bool,
    written: Option<Val>,
}

const UNTOUCHED: Note = Note {
    is_read: false,
    is_opened: false,
    written: None,
};

/// The memory of one thread: it stands for the one map that it was made from, and no call on it gives up.
#[derive(Debug, Drop)]
pub struct FlatMem {
    values: Vec<Val>,
    notes: Vec<Note>,
    ghost noted: { length notes.items ≡ length values.items },
}

impl Mem for FlatMem {
    ghost use Rattle.dstm_mem.specs.Flat.{held_in, note_at, held_in-agrees};
    ghost use Rattle.std.proofs.Common.{ap, subst, sym};
    ghost use Rattle.dstm_mem.specs.Memory.{AgreesWith};

    type Err = Never;

    ghost Place = { List Val };

    ghost place = { λ m. m.values.items };

    ghost all_write = { λ _. false };

    ghost objects = { λ m. length m.values.items };

    ghost held = { λ m. held_in m.values.items m.notes.items };

    ghost written = { λ m. written_in m.notes.items };

    ghost is_opened = { λ m o. (note_at m.notes.items o).is_opened };

    ghost is_live = { λ _. true };

    ghost error = { λ _. None };

    ghost Admits = { λ m map. map ≡ m.values.items };

    fn open_read(&mut self, o: u32) -> Result<Val, Never> {
        let value = self.values[o as usize];
        let note = &mut self.notes[o as usize];
        note.is_read = true;
        Ok(note.written.unwrap_or(value))
    }

    fn open_write(&mut self, o: u32) -> Result<Val, Never> {
        self.notes[o as usize].is_opened = true;
        self.open_read(o)
    }

    fn set(&mut self, o: u32, v: Val) {
        self.notes[o as usize].written = Some(v);
    }

    ghost admitted_length = { λ m map e. ap length e };

    ghost admitted_agrees = { λ m map e. subst (λ x. AgreesWith x (held_in m.values.items m.notes.items)) (sym e)
        (held_in-agrees m.values.items m.notes.items) };
}

impl Release for FlatMem {
    ghost use Rattle.dstm_mem.specs.Flat.{flat_admits};
    ghost use Rattle.std.proofs.Common.{◌∙◌};

    ghost Began = { λ m map. map ≡ m.values.items };

    fn is_read(&self, o: u32) -> bool {
        let note = &self.notes[o as usize];
        note.is_read && !note.is_opened
    }

    fn release(&mut self, o: u32) {
        self.notes[o as usize].is_read = false;
    }

    ghost admits_exactly = { λ m map live. flat_admits m.values.items m.notes.items map };

    ghost began_stays = { λ m n map same began. began ∙ same };
}

impl FlatMem {
    /// A memory of these values, in which nothing was read, set or opened.
    pub fn make(alloc: Global, values: Vec<Val>) -> Result<FlatMem, AllocError>
        ensures live { IfOk result (λ mem. IsTrue (⟦<FlatMem as Mem>⟧.is_live mem)) }
        ensures admits { IfOk result (λ mem. (map : List Val) →
            ⟦<FlatMem as Mem>⟧.Admits mem map ↔ (map ≡ values.items)) }
        ensures objects { IfOk result (λ mem. ⟦<FlatMem as Mem>⟧.objects mem ≡ length values.items) }
        ensures unread { IfOk result (λ mem. (p : ℕ) → ⟦<FlatMem as Mem>⟧.held mem p ≡ None) }
        ensures unwritten { IfOk result (λ mem. (p : ℕ) → ⟦<FlatMem as Mem>⟧.written mem p ≡ None) }
        ensures unopened { IfOk result (λ mem. (p : ℕ) → ⟦<FlatMem as Mem>⟧.is_opened mem p ≡ false) }
        ensures untouched { IfOk result (λ mem. (map : List Val) →
            with_set map (⟦<FlatMem as Mem>⟧.written mem) ≡ map) }
    {
        let notes = vec![in alloc; UNTOUCHED; values.len()]?;
        Ok(FlatMem { values, notes })
    }

    /// The values with what is set.
    pub fn values(self) -> Vec<Val>
        ensures { (map : List Val) → ⟦<FlatMem as Mem>⟧.Admits self map →
            result.items ≡ with_set map (⟦<FlatMem as Mem>⟧.written self) }
    {
        let FlatMem { mut values, notes } = self;
        settle(&mut values, &notes);
        values
    }
}

// Puts what was set in the place of the old values.
fn settle(values: &mut [Val], notes: &[Note])
    requires { length notes.now ≡ length values.old }
    ensures { values.new ≡ with_set values.old (written_in notes.now) }
{
    for (i, note) in notes.iter().enumerate() {
        if let Some(value) = note.written {
            values[i] = value;
        }
    }
}
