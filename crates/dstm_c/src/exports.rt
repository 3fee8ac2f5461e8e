// What C calls.
ghost use Rattle.std.specs.Prelude.{◌≡◌, ◌≢◌, ◌⊎◌, ◌↔◌, ◌<◌, Err, MatchOption, None, Result, Some};
ghost use Rattle.dstm_handles.specs.Held.{ByMemory, OfMemory, OfPart};
ghost use Rattle.dstm_handles.specs.Memories.{GivesOut, MakesCell, Peeks};
ghost use Rattle.dstm_handles.specs.Threads.{BeginsOr, Commits, Enters, Gets, GivesUp, Marks, Sets, UndoesTo};
ghost use Rattle.dstm_handles.specs.Waiting.{Looks};
ghost use Rattle.dstm_handles.specs.declared.code.Code.{Code};
ghost use Rattle.dstm_handles.specs.declared.code.Code.TheVariants.{Closed, Done, Taken};
ghost use Rattle.dstm_handles.specs.declared.code.Code.TheVariants as code;
ghost use Rattle.dstm_handles.specs.declared.thread.Thread.{Thread};
ghost use Rattle.dstm_model.specs.declared.value.Val.{Val};
ghost use Rattle.dstm_c.specs.Codes.{FreesMemory, FreesPart, IsBoxed, IsOutOfRange, OpensMemory, OpensPart, Tells, TellsAnswer, TellsValue, code_of, engine_number, number_of};

use core::mem::replace_with;
use dstm_core::Manager;
use dstm_handles::{Code, Engine, Handle, Held, Memory, free};
use dstm_model::{AnyLaw, Law, Val};
use std::alloc::Global;
use std::mem;

// What `dstmc_version` answers: 10,000 for each version, 100 for each addition to it, and 1 for each mending.
const VERSION: u32 = 10_200;

// The number of a code.
pub(crate) fn number(code: Code) -> u32
    ensures done { code ≡ Done → result ≡ 0 }
    ensures other { code ≢ Done → result ≢ 0 }
    ensures is { result ≡ number_of code }
{
    match code {
        Code::Done => 0,
        Code::Again => 1,
        Code::Spent => 2,
        Code::Foreign => 3,
        Code::Idle => 4,
        Code::Open => 5,
        Code::Closed => 6,
        Code::Taken => 7,
        Code::Busy => 8,
        Code::Full => 9,
        Code::Memory => 10,
        Code::Range => 11,
    }
}

// The engine of a number.
fn engine_of(number: u32) -> Option<Engine>
    ensures { MatchOption result (4 < number) (λ engine. engine_number engine ≡ number) }
{
    match number {
        0 => Some(Engine::Tl2),
        1 => Some(Engine::Dstm(Manager::Polka)),
        2 => Some(Engine::Dstm(Manager::Karma)),
        3 => Some(Engine::Dstm(Manager::Polite)),
        4 => Some(Engine::Dstm(Manager::Greedy)),
        _ => None,
    }
}

// Takes what a handle stands for out of it, which is closed then.
#[inline]
pub(crate) fn take(alloc: Global, handle: &mut Handle) -> Option<Box<Held>>
    ensures held { MatchOption result (handle.old.held ≡ None) (λ held. handle.old.held ≡ Some held.value) }
    ensures closed { handle.new.held ≡ None }
{
    mem::replace(handle, Handle::closed(alloc)).into_held()
}

// Puts a value where a pointer leads.
#[inline]
fn put(value: Val, low: &mut u64, high: &mut u64)
    ensures low { low.new ≡ value.low }
    ensures high { high.new ≡ value.high }
{
    *low = value.low;
    *high = value.high;
}

// Opens a closed handle.
fn open_handle(alloc: Global, handle: &mut Handle, held: Held) -> Code
    ensures opened { result ≡ Done → (handle.old.held ≡ None) × (handle.new.held ≡ Some held) }
    ensures kept { result ≢ Done → handle.new.held ≡ handle.old.held }
    ensures taken { handle.old.held ≢ None → result ≡ Taken }
    ensures was_closed { result ≡ Taken → handle.old.held ≢ None }
    ensures tells { (result ≡ Done) ⊎ (result ≡ Taken) ⊎ (result ≡ code.Memory) }
{
    match take(alloc, handle) {
        Some(had) => {
            *handle = Handle::of(had);
            Code::Taken
        }
        None => match Box::new(alloc, held) {
            Ok(made) => {
                *handle = Handle::of(made);
                Code::Done
            }
            Err(_) => Code::Memory,
        },
    }
}

// A part of a memory. The room for it comes first: where there is none, no part is used up.
#[tactic(auto, using(crate::proofs::Opening::held_no_room, crate::proofs::Opening::held_closed))]
fn part_of(alloc: Global, memory: &mut Held) -> Result<Box<Held>, Code>
    ensures { (answer : Result Thread Code) × IsBoxed answer result
        × ByMemory (λ old new. GivesOut ⟦<AnyLaw as Law>⟧.holds old new answer) (answer ≡ Err Closed) memory.old memory.new }
{
    if !memory.is_memory() {
        return Err(Code::Closed);
    }
    let Ok(empty) = Memory::new(alloc, 1, Engine::Tl2) else {
        return Err(Code::Memory);
    };
    let Ok(mut room) = Box::new(alloc, Held::Memory(empty)) else {
        return Err(Code::Memory);
    };
    *room = Held::Thread(memory.part()?);
    Ok(room)
}

/// Which version the library is.
#[unsafe(no_mangle)]
pub extern "C" fn dstmc_version() -> u32
    ensures { result ≡ 10200 }
{
    VERSION
}

/// Opens a memory with no cell, in which so many threads may have parts at once.
#[unsafe(no_mangle)]
pub extern "C" fn dstmc_memory_new(
    alloc: Global,
    memory: &mut Handle,
    threads: u32,
    engine: u32,
) -> u32
    ensures opens { result ≡ 0 → OpensMemory threads engine memory.new.held }
    ensures was_closed { result ≡ 0 → memory.old.held ≡ None }
    ensures kept { result ≢ 0 → memory.new.held ≡ memory.old.held }
    ensures range { result ≡ 11 ↔ IsOutOfRange threads engine }
    ensures taken { result ≡ 7 → memory.old.held ≢ None }
    ensures open { memory.old.held ≢ None → (result ≡ 7) ⊎ (result ≡ 11) }
    ensures tells { (result ≡ 0) ⊎ (result ≡ 7) ⊎ (result ≡ 10) ⊎ (result ≡ 11) }
{
    let Some(engine) = engine_of(engine) else {
        return number(Code::Range);
    };
    match Memory::new(alloc, threads, engine) {
        Ok(made) => number(open_handle(alloc, memory, Held::Memory(made))),
        Err(code) => number(code),
    }
}

/// Closes a memory. Parts that threads have stay good.
#[unsafe(no_mangle)]
pub extern "C" fn dstmc_memory_free(alloc: Global, memory: &mut Handle) -> u32
    ensures { FreesMemory memory.old.held memory.new.held result }
{
    match take(alloc, memory) {
        None => number(Code::Closed),
        Some(held) => {
            if held.is_memory() {
                free(held);
                return number(Code::Done);
            }
            *memory = Handle::of(held);
            number(Code::Closed)
        }
    }
}

/// Makes a cell, while no thread has a part.
#[tactic(auto, using(crate::proofs::Opening::by_open, crate::proofs::Opening::by_closed))]
#[unsafe(no_mangle)]
pub extern "C" fn dstmc_cell_new(
    alloc: Global,
    memory: &mut Handle,
    low: u64,
    high: u64,
    cell: &mut u32,
) -> u32
    ensures { TellsValue result cell.old cell.new (λ answer. OfMemory
        (λ old new. MakesCell ⟦<AnyLaw as Law>⟧.holds (record { low = low; high = high }) old new answer)
        (answer ≡ Err Closed) memory.old.held memory.new.held) }
{
    match take(alloc, memory) {
        None => number(Code::Closed),
        Some(held) => {
            let mut held = held;
            let made = held.cell(Val { low, high });
            *memory = Handle::of(held);
            match made {
                Ok(made) => {
                    *cell = made;
                    number(Code::Done)
                }
                Err(code) => number(code),
            }
        }
    }
}

/// Tells what a cell holds, while no thread has a part.
#[tactic(auto, using(crate::proofs::Opening::by_open, crate::proofs::Opening::by_closed))]
#[unsafe(no_mangle)]
pub extern "C" fn dstmc_peek(
    alloc: Global,
    memory: &mut Handle,
    cell: u32,
    low: &mut u64,
    high: &mut u64,
) -> u32
    ensures { TellsValue result (record { low = low.old; high = high.old }) (record { low = low.new; high = high.new })
        (λ answer. OfMemory (λ old new. Peeks ⟦<AnyLaw as Law>⟧.holds cell old new answer) (answer ≡ Err Closed)
        memory.old.held memory.new.held) }
{
    match take(alloc, memory) {
        None => number(Code::Closed),
        Some(held) => {
            let mut held = held;
            let value = held.peek(cell);
            *memory = Handle::of(held);
            match value {
                Ok(value) => {
                    put(value, low, high);
                    number(Code::Done)
                }
                Err(code) => number(code),
            }
        }
    }
}

/// Opens a part for a thread.
#[tactic(auto, using(crate::proofs::Opening::by_open, crate::proofs::Opening::by_closed))]
#[unsafe(no_mangle)]
pub extern "C" fn dstmc_thread_new(alloc: Global, memory: &mut Handle, thread: &mut Handle) -> u32
    ensures taken { thread.old.held ≢ None → (result ≡ 7) × (thread.new.held ≡ thread.old.held)
        × (memory.new.held ≡ memory.old.held) }
    ensures opens { thread.old.held ≡ None → OpensPart ⟦<AnyLaw as Law>⟧.holds memory.old.held memory.new.held
        thread.new.held result }
{
    if let Some(had) = take(alloc, thread) {
        *thread = Handle::of(had);
        return number(Code::Taken);
    }
    match take(alloc, memory) {
        None => number(Code::Closed),
        Some(held) => {
            let mut held = held;
            let made = part_of(alloc, &mut held);
            *memory = Handle::of(held);
            match made {
                Ok(made) => {
                    *thread = Handle::of(made);
                    number(Code::Done)
                }
                Err(code) => number(code),
            }
        }
    }
}

/// Gives a thread's part back. A transaction that is under way is given up first.
#[unsafe(no_mangle)]
pub extern "C" fn dstmc_thread_free(alloc: Global, thread: &mut Handle) -> u32
    ensures { FreesPart ⟦<AnyLaw as Law>⟧.holds thread.old.held thread.new.held result }
{
    match take(alloc, thread) {
        None => number(Code::Closed),
        Some(held) => {
            let mut held = held;
            if held.is_memory() {
                *thread = Handle::of(held);
                return number(Code::Closed);
            }
            let _code = held.abort();
            free(held);
            number(Code::Done)
        }
    }
}

/// Before an attempt at a transaction that was lost so often: tells whether another thread, which has the turn, is let go
/// first.
#[tactic(auto, using(crate::proofs::Opening::by_open, crate::proofs::Opening::by_closed))]
#[unsafe(no_mangle)]
pub extern "C" fn dstmc_turn(alloc: Global, thread: &mut Handle, lost: u32) -> u32
    ensures { Tells result (λ code. OfPart (λ old new. Enters old new code) (code ≡ Closed)
        thread.old.held thread.new.held) }
{
    number(replace_with(thread, (alloc, lost), enter))
}

// Takes the turn, or looks whose it is, by what a handle stands for.
#[tactic(auto, using(crate::proofs::Opening::by_open, crate::proofs::Opening::by_closed))]
#[inline]
fn enter(thread: Handle, by: (Global, u32)) -> (Handle, Code)
    ensures { OfPart (λ old new. Enters old new result.1) (result.1 ≡ Closed) thread.held result.0.held }
{
    let (alloc, lost) = by;
    let Some(mut held) = thread.into_held() else {
        return (Handle::closed(alloc), Code::Closed);
    };
    let code = held.enter(lost);
    (Handle::of(held), code)
}

/// Begins a transaction, or the next attempt at one that was lost.
#[tactic(auto, using(crate::proofs::Opening::by_open, crate::proofs::Opening::by_closed))]
#[unsafe(no_mangle)]
pub extern "C" fn dstmc_begin(alloc: Global, thread: &mut Handle) -> u32
    ensures { Tells result (λ code. OfPart (λ old new. BeginsOr ⟦<AnyLaw as Law>⟧.holds old new code) (code ≡ Closed)
        thread.old.held thread.new.held) }
{
    number(replace_with(thread, alloc, begin))
}

// Begins by what a handle stands for.
#[tactic(auto, using(crate::proofs::Opening::by_open, crate::proofs::Opening::by_closed))]
#[inline]
fn begin(thread: Handle, alloc: Global) -> (Handle, Code)
    ensures { OfPart (λ old new. BeginsOr ⟦<AnyLaw as Law>⟧.holds old new result.1) (result.1 ≡ Closed) thread.held result.0.held }
{
    let Some(mut held) = thread.into_held() else {
        return (Handle::closed(alloc), Code::Closed);
    };
    let code = held.begin();
    (Handle::of(held), code)
}

/// Tells what a cell holds.
#[tactic(auto, using(crate::proofs::Opening::by_open, crate::proofs::Opening::by_closed))]
#[unsafe(no_mangle)]
pub extern "C" fn dstmc_get(
    alloc: Global,
    thread: &mut Handle,
    cell: u32,
    low: &mut u64,
    high: &mut u64,
) -> u32
    ensures { TellsValue result (record { low = low.old; high = high.old }) (record { low = low.new; high = high.new })
        (λ answer. OfPart (λ old new. Gets ⟦<AnyLaw as Law>⟧.holds cell old new answer) (answer ≡ Err Closed)
        thread.old.held thread.new.held) }
{
    match replace_with(thread, (alloc, cell), get) {
        Ok(value) => {
            put(value, low, high);
            number(Code::Done)
        }
        Err(code) => number(code),
    }
}

// Gets by what a handle stands for.
#[tactic(auto, using(crate::proofs::Opening::by_open, crate::proofs::Opening::by_closed))]
#[inline]
fn get(thread: Handle, by: (Global, u32)) -> (Handle, Result<Val, Code>)
    ensures { OfPart (λ old new. Gets ⟦<AnyLaw as Law>⟧.holds by.1 old new result.1) (result.1 ≡ Err Closed) thread.held result.0.held }
{
    let (alloc, cell) = by;
    let Some(mut held) = thread.into_held() else {
        return (Handle::closed(alloc), Err(Code::Closed));
    };
    let value = held.get(cell);
    (Handle::of(held), value)
}

/// Puts a value into a cell.
#[tactic(auto, using(crate::proofs::Opening::by_open, crate::proofs::Opening::by_closed))]
#[unsafe(no_mangle)]
pub extern "C" fn dstmc_set(
    alloc: Global,
    thread: &mut Handle,
    cell: u32,
    low: u64,
    high: u64,
) -> u32
    ensures { TellsAnswer result (λ answer. OfPart
        (λ old new. Sets ⟦<AnyLaw as Law>⟧.holds cell (record { low = low; high = high }) old new answer)
        (answer ≡ Err Closed) thread.old.held thread.new.held) }
{
    number(replace_with(thread, (alloc, cell, Val { low, high }), set))
}

// Sets by what a handle stands for.
#[tactic(auto, using(crate::proofs::Opening::by_open, crate::proofs::Opening::by_closed))]
#[inline]
fn set(thread: Handle, by: (Global, u32, Val)) -> (Handle, Code)
    ensures { (answer : Result Val Code) × (result.1 ≡ code_of answer)
        × OfPart (λ old new. Sets ⟦<AnyLaw as Law>⟧.holds by.1 by.2 old new answer) (answer ≡ Err Closed)
        thread.held result.0.held }
{
    let (alloc, cell, value) = by;
    let Some(mut held) = thread.into_held() else {
        return (Handle::closed(alloc), Code::Closed);
    };
    match held.set(cell, value) {
        Ok(_had) => (Handle::of(held), Code::Done),
        Err(code) => (Handle::of(held), code),
    }
}

/// Commits the transaction.
#[tactic(auto, using(crate::proofs::Opening::by_open, crate::proofs::Opening::by_closed))]
#[unsafe(no_mangle)]
pub extern "C" fn dstmc_commit(alloc: Global, thread: &mut Handle) -> u32
    ensures { Tells result (λ code. OfPart (λ old new. Commits ⟦<AnyLaw as Law>⟧.holds old new code) (code ≡ Closed)
        thread.old.held thread.new.held) }
{
    number(replace_with(thread, alloc, commit))
}

// Commits by what a handle stands for.
#[tactic(auto, using(crate::proofs::Opening::by_open, crate::proofs::Opening::by_closed))]
#[inline]
fn commit(thread: Handle, alloc: Global) -> (Handle, Code)
    ensures { OfPart (λ old new. Commits ⟦<AnyLaw as Law>⟧.holds old new result.1) (result.1 ≡ Closed) thread.held result.0.held }
{
    let Some(mut held) = thread.into_held() else {
        return (Handle::closed(alloc), Code::Closed);
    };
    let code = held.commit();
    (Handle::of(held), code)
}

/// Gives the transaction up.
#[tactic(auto, using(crate::proofs::Opening::by_open, crate::proofs::Opening::by_closed))]
#[unsafe(no_mangle)]
pub extern "C" fn dstmc_abort(alloc: Global, thread: &mut Handle) -> u32
    ensures { Tells result (λ code. OfPart (λ old new. GivesUp ⟦<AnyLaw as Law>⟧.holds old new code) (code ≡ Closed)
        thread.old.held thread.new.held) }
{
    match take(alloc, thread) {
        None => number(Code::Closed),
        Some(held) => {
            let mut held = held;
            let code = held.abort();
            *thread = Handle::of(held);
            number(code)
        }
    }
}

/// Looks whether something that the transaction has read may have changed.
#[tactic(auto, using(crate::proofs::Opening::by_open, crate::proofs::Opening::by_closed))]
#[unsafe(no_mangle)]
pub extern "C" fn dstmc_look(alloc: Global, thread: &mut Handle) -> u32
    ensures { Tells result (λ code. OfPart (λ old new. Looks old new code) (code ≡ Closed)
        thread.old.held thread.new.held) }
{
    match take(alloc, thread) {
        None => number(Code::Closed),
        Some(held) => {
            let mut held = held;
            let code = held.look();
            *thread = Handle::of(held);
            number(code)
        }
    }
}

/// Marks what the transaction has set.
#[tactic(auto, using(crate::proofs::Opening::by_open, crate::proofs::Opening::by_closed))]
#[unsafe(no_mangle)]
pub extern "C" fn dstmc_mark(alloc: Global, thread: &mut Handle, mark: &mut u64) -> u32
    ensures { TellsValue result mark.old mark.new (λ answer. OfPart (λ old new. Marks old new answer)
        (answer ≡ Err Closed) thread.old.held thread.new.held) }
{
    match take(alloc, thread) {
        None => number(Code::Closed),
        Some(held) => {
            let mut held = held;
            let made = held.mark();
            *thread = Handle::of(held);
            match made {
                Ok(made) => {
                    *mark = made;
                    number(Code::Done)
                }
                Err(code) => number(code),
            }
        }
    }
}

/// Undoes what was set since a mark.
#[tactic(auto, using(crate::proofs::Opening::by_open, crate::proofs::Opening::by_closed))]
#[unsafe(no_mangle)]
pub extern "C" fn dstmc_undo_to(alloc: Global, thread: &mut Handle, mark: u64) -> u32
    ensures { Tells result (λ code. OfPart (λ old new. UndoesTo ⟦<AnyLaw as Law>⟧.holds mark old new code) (code ≡ Closed)
        thread.old.held thread.new.held) }
{
    match take(alloc, thread) {
        None => number(Code::Closed),
        Some(held) => {
            let mut held = held;
            let code = held.undo_to(mark);
            *thread = Handle::of(held);
            number(code)
        }
    }
}
