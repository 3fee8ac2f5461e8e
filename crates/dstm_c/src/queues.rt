// Queues by the numbers of their cells.
ghost use Rattle.std.specs.Prelude.{◌≡◌, false, IfOk};
ghost use Rattle.dstm_structures.specs.Queues.{Counts, Fronts, OpensToFront, OpensToPop, OpensToPush, Pops, Pushes, end_of};
ghost use Rattle.dstm_c.specs.Codes.{TellsValue};
ghost use Rattle.dstm_c.specs.Queues.{MakesQueue, OnQueue};
ghost use Rattle.dstm_c.specs.Structures.{AndOpens, Ensures, LooksWithin, SetsWithin, TellsBy, pair_of, put_count, put_found, put_if};

use crate::answers::{Pair, tell_count, tell_if, tell_value};
use crate::calls::{make, on};
use crate::exports::number;
use dstm_cells::{Owned, Stop};
use dstm_handles::{Code, Handle};
use dstm_model::{AnyLaw, Law};
use dstm_structures::Queue;
use std::alloc::Global;

/// An empty queue in new cells, one for each value that it has room for, and one more: the number of its first cell.
#[unsafe(no_mangle)]
pub extern "C" fn dstmc_queue_new(
    alloc: Global,
    memory: &mut Handle,
    capacity: u32,
    first: &mut u32,
) -> u32
    ensures { TellsValue result first.old first.new (MakesQueue ⟦<AnyLaw as Law>⟧.holds capacity memory.old.held memory.new.held) }
{
    let Some(_) = Queue::<Pair>::at(0, capacity) else {
        return number(Code::Range);
    };
    make(alloc, memory, capacity + 1, first)
}

/// Puts a value at the end of a queue, and tells whether there was room.
#[unsafe(no_mangle)]
pub extern "C" fn dstmc_queue_try_push(
    alloc: Global,
    thread: &mut Handle,
    first: u32,
    capacity: u32,
    low: u64,
    high: u64,
    pushed: &mut u32,
) -> u32
    ensures { TellsBy put_if result pushed.old pushed.new (OnQueue first capacity
        (λ queue. AndOpens (SetsWithin ⟦<AnyLaw as Law>⟧.holds (end_of queue) (Pushes pair_of queue (low, high)))
        (OpensToPush pair_of queue ⟦<AnyLaw as Law>⟧.holds)) thread.old.held thread.new.held) }
{
    let Some(queue) = Queue::<Pair>::at(first, capacity) else {
        return number(Code::Range);
    };
    let answer = on(alloc, thread, |tx| try_push(queue, tx, (low, high)));
    tell_if(answer, pushed)
}

/// Takes the first value of a queue, if there is one.
#[unsafe(no_mangle)]
pub extern "C" fn dstmc_queue_try_pop(
    alloc: Global,
    thread: &mut Handle,
    first: u32,
    capacity: u32,
    there: &mut u32,
    low: &mut u64,
    high: &mut u64,
) -> u32
    ensures { TellsBy put_found result (there.old, (low.old, high.old)) (there.new, (low.new, high.new)) (OnQueue first capacity
        (λ queue. AndOpens (SetsWithin ⟦<AnyLaw as Law>⟧.holds (end_of queue) (Pops pair_of queue))
        (OpensToPop pair_of queue ⟦<AnyLaw as Law>⟧.holds)) thread.old.held thread.new.held) }
{
    let Some(queue) = Queue::<Pair>::at(first, capacity) else {
        return number(Code::Range);
    };
    let answer = on(alloc, thread, |tx| try_pop(queue, tx));
    tell_value(answer, there, low, high)
}

/// The first value of a queue, if there is one.
#[unsafe(no_mangle)]
pub extern "C" fn dstmc_queue_front(
    alloc: Global,
    thread: &mut Handle,
    first: u32,
    capacity: u32,
    there: &mut u32,
    low: &mut u64,
    high: &mut u64,
) -> u32
    ensures { TellsBy put_found result (there.old, (low.old, high.old)) (there.new, (low.new, high.new)) (OnQueue first capacity
        (λ queue. AndOpens (LooksWithin ⟦<AnyLaw as Law>⟧.holds (end_of queue) (Fronts pair_of queue))
        (OpensToFront pair_of queue ⟦<AnyLaw as Law>⟧.holds)) thread.old.held thread.new.held) }
{
    let Some(queue) = Queue::<Pair>::at(first, capacity) else {
        return number(Code::Range);
    };
    let answer = on(alloc, thread, |tx| front(queue, tx));
    tell_value(answer, there, low, high)
}

/// How many values a queue has.
#[unsafe(no_mangle)]
pub extern "C" fn dstmc_queue_len(
    alloc: Global,
    thread: &mut Handle,
    first: u32,
    capacity: u32,
    len: &mut u32,
) -> u32
    ensures { TellsBy put_count result len.old len.new (OnQueue first capacity
        (λ queue. LooksWithin ⟦<AnyLaw as Law>⟧.holds (end_of queue) (Counts pair_of queue)) thread.old.held thread.new.held) }
{
    let Some(queue) = Queue::<Pair>::at(first, capacity) else {
        return number(Code::Range);
    };
    let answer = on(alloc, thread, |tx| queue.len(tx));
    tell_count(answer, len)
}

// Puts a value at the end.
#[inline]
fn try_push(queue: Queue<Pair>, tx: &mut Owned, value: Pair) -> Result<bool, Stop>
    ensures does { Ensures ⟦<AnyLaw as Law>⟧.holds (end_of queue) (Pushes pair_of queue value) tx.old.notes tx.old tx.new result }
    ensures opens { IfOk result (λ told. OpensToPush pair_of queue ⟦<AnyLaw as Law>⟧.holds told tx.old.attempts.caller tx.new.attempts.caller) }
{
    queue.try_push(tx, value)
}

// Takes the first value.
#[inline]
fn try_pop(queue: Queue<Pair>, tx: &mut Owned) -> Result<Option<Pair>, Stop>
    ensures does { Ensures ⟦<AnyLaw as Law>⟧.holds (end_of queue) (Pops pair_of queue) tx.old.notes tx.old tx.new result }
    ensures opens { IfOk result (λ told. OpensToPop pair_of queue ⟦<AnyLaw as Law>⟧.holds told tx.old.attempts.caller tx.new.attempts.caller) }
{
    queue.try_pop(tx)
}

// Tells the first value.
#[inline]
fn front(queue: Queue<Pair>, tx: &mut Owned) -> Result<Option<Pair>, Stop>
    ensures does { Ensures ⟦<AnyLaw as Law>⟧.holds (end_of queue) (Fronts pair_of queue) false tx.old tx.new result }
    ensures opens { IfOk result (λ told. OpensToFront pair_of queue ⟦<AnyLaw as Law>⟧.holds told tx.old.attempts.caller tx.new.attempts.caller) }
{
    queue.front(tx)
}
