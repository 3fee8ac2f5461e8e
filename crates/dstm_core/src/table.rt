ghost use Rattle.std.specs.Prelude.{◌≡◌, ◌↔◌, ◌<◌, ℕ, IsTrue, IfOk, [], length, reverse, slice_index};
ghost use Rattle.dstm_core.specs.declared.event.Kind.TheVariants.{Enrol};
ghost use Rattle.dstm_core.specs.Replays.{IsFirstBroken, Judges, Stands};
ghost use Rattle.dstm_core.specs.Runs.{Core};
ghost use Rattle.dstm_core.specs.Words.{IsValid};

use crate::event::{Event, Kind};
use crate::local::Local;
use crate::shape::Shape;
use crate::verdict::Replay;
use std::alloc::{AllocError, Global};

/// Replays a trace, and answers whether it is a core run of the shape, the law on the values put
/// aside: each event finds what the last one on its word put, an Enrol finds its caller's number,
/// and the rules allow its caller each event. It keeps all words of a table, and takes logarithmic
/// time for each event.
pub fn replay(alloc: Global, shape: &Shape, trace: &[Event]) -> Result<Replay, AllocError>
    requires { IsValid shape.now }
    ensures run { IfOk result (λ answer. (answer ≡ Replay.Run) ↔ Core shape.now (reverse trace.now)) }
    ensures broken { IfOk result (λ answer. (i : ℕ) → (answer ≡ Replay.Broken i) ↔ IsFirstBroken shape.now trace.now i) }
{
    let mut table = Table::new(alloc, shape)?;
    for (i, event) in trace.iter().enumerate() {
        if !table.step(event)? {
            return Ok(Replay::Broken(i as u64));
        }
    }
    Ok(Replay::Run)
}

// The words of a table, and the state of each of its callers.
#[derive(Drop)]
struct Table {
    words: Vec<u64>,
    callers: Vec<Local>,
}

impl Table {
    // A table on which no event has come yet.
    fn new(alloc: Global, shape: &Shape) -> Result<Table, AllocError>
        requires { IsValid shape.now }
        ensures { IfOk result (λ table. Stands shape.now table.words.items table.callers.items []) }
    {
        let words = vec![in alloc; 0; shape.words() as usize]?;
        let mut callers = Vec::with_capacity(alloc, shape.callers as usize)?;
        for _ in 0..shape.callers {
            callers.push(Local::start(alloc, shape)?)?;
        }
        Ok(Table { words, callers })
    }

    // Moves on by the next event, and answers whether it fits those before it.
    fn step(&mut self, event: &Event) -> Result<bool, AllocError>
        ensures { IfOk result
            (λ fits.
            Judges self.old.words.items self.old.callers.items event.now fits
            self.new.words.items self.new.callers.items) }
    {
        if !self.is_linked(event) {
            return Ok(false);
        }
        let Some(caller) = self.callers.get_mut(event.caller as usize) else {
            return Ok(false);
        };
        if !caller.next(event)? {
            return Ok(false);
        }
        self.words[event.place as usize] = event.put;
        Ok(true)
    }

    // The event finds what its word holds, and if it is an Enrol its caller's number.
    fn is_linked(&self, event: &Event) -> bool
        ensures { IsTrue result
            ↔ (event.now.place < length self.now.words.items)
            × (slice_index self.now.words.items event.now.place ≡ event.now.found)
            × (event.now.kind ≡ Enrol → event.now.found ≡ event.now.caller) }
    {
        let Some(word) = self.words.get(event.place as usize) else {
            return false;
        };
        *word == event.found
            && (event.kind != Kind::Enrol || event.found == u64::from(event.caller))
    }
}
