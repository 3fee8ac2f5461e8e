// Calls on structures of cells, by handles.
ghost use Rattle.std.specs.Prelude.{◌≡◌, Err};
ghost use Rattle.dstm_handles.specs.Held.{OfMemory, OfPart};
ghost use Rattle.dstm_handles.specs.Memories.{MakesCells};
ghost use Rattle.dstm_handles.specs.Threads.{CallsOnce};
ghost use Rattle.dstm_handles.specs.declared.code.Code.TheVariants.{Closed};
ghost use Rattle.dstm_c.specs.Codes.{TellsValue};

use crate::exports::{number, take};
use dstm_cells::{Owned, Stop};
use dstm_handles::{Code, Handle};
use dstm_model::{AnyLaw, Law, Val};
use std::alloc::Global;

// Makes a call on a structure, as a part of the transaction of a thread's part.
#[tactic(auto, using(crate::proofs::Opening::by_open, crate::proofs::Opening::by_closed))]
#[inline]
pub(crate) fn on<R: Drop, F>(alloc: Global, thread: &mut Handle, f: F) -> Result<R, Code>
where
    F: FnOnce(&mut Owned) -> Result<R, Stop>,
    requires callable { F.IsAlwaysCallable f }
    ensures { OfPart (λ old new. CallsOnce (λ t. t.tx) F.FnOnce f old new result) (result ≡ Err Closed) thread.old.held
        thread.new.held }
{
    let Some(mut held) = take(alloc, thread) else {
        return Err(Code::Closed);
    };
    let answer = held.on(f);
    *thread = Handle::of(held);
    answer
}

// Makes the cells of an empty structure.
#[tactic(auto, using(crate::proofs::Opening::by_open, crate::proofs::Opening::by_closed))]
pub(crate) fn make(alloc: Global, memory: &mut Handle, cells: u32, first: &mut u32) -> u32
    ensures { TellsValue result first.old first.new (λ answer. OfMemory
        (λ old new. MakesCells ⟦<AnyLaw as Law>⟧.holds (record { low = 0; high = 0 }) cells old new answer)
        (answer ≡ Err Closed) memory.old.held memory.new.held) }
{
    match take(alloc, memory) {
        None => number(Code::Closed),
        Some(held) => {
            let mut held = held;
            let made = held.cells(Val { low: 0, high: 0 }, cells);
            *memory = Handle::of(held);
            match made {
                Ok(made) => {
                    *first = made;
                    number(Code::Done)
                }
                Err(code) => number(code),
            }
        }
    }
}
