// Ordered maps by the numbers of their cells.
ghost use Rattle.std.specs.Prelude.{◌≡◌};
ghost use Rattle.dstm_structures.specs.Items.{Counts};
ghost use Rattle.dstm_structures.specs.Maps.{Tells, TellsIf, end_of};
ghost use Rattle.dstm_structures.specs.Ordered.{Pops, PopsLast, Puts, Removes, TellsAbove, TellsBelow, TellsFirst, TellsLast};
ghost use Rattle.dstm_structures.specs.Orders.{order_end};
ghost use Rattle.dstm_c.specs.Codes.{TellsValue};
ghost use Rattle.dstm_c.specs.Ordered.{MakesMap, OnMap};
ghost use Rattle.dstm_c.specs.Structures.{Ensures, LooksWithin, SetsWithin, TellsBy, pair_of, put_count, put_found, put_if, put_placed};

use crate::answers::{Pair, tell_count, tell_entry, tell_if, tell_placed, tell_value};
use crate::calls::{make, on};
use crate::exports::number;
use dstm_cells::{Owned, Stop};
use dstm_handles::{Code, Handle};
use dstm_model::{AnyLaw, Law};
use dstm_structures::{OrderedMap, Placed};
use std::alloc::Global;

/// An empty ordered map in new cells, three for each key that it has room for, and one more: the number of its first cell.
#[unsafe(no_mangle)]
pub extern "C" fn dstmc_ordered_new(
    alloc: Global,
    memory: &mut Handle,
    capacity: u32,
    first: &mut u32,
) -> u32
    ensures { TellsValue result first.old first.new (MakesMap ⟦<AnyLaw as Law>⟧.holds capacity memory.old.held memory.new.held) }
{
    let Some(_) = OrderedMap::<Pair>::at(0, capacity) else {
        return number(Code::Range);
    };
    make(alloc, memory, 3 * capacity + 1, first)
}

/// What a map has for a key, and whether the key is there.
#[unsafe(no_mangle)]
pub extern "C" fn dstmc_ordered_get(
    alloc: Global,
    thread: &mut Handle,
    first: u32,
    capacity: u32,
    key: u64,
    there: &mut u32,
    low: &mut u64,
    high: &mut u64,
) -> u32
    ensures { TellsBy put_found result (there.old, (low.old, high.old)) (there.new, (low.new, high.new)) (OnMap first capacity
        (λ map. LooksWithin ⟦<AnyLaw as Law>⟧.holds (end_of map.map) (Tells pair_of map.map key)) thread.old.held thread.new.held) }
{
    let Some(map) = OrderedMap::<Pair>::at(first, capacity) else {
        return number(Code::Range);
    };
    let answer = on(alloc, thread, |tx| map.get(tx, key));
    tell_value(answer, there, low, high)
}

/// Whether a key is in a map.
#[unsafe(no_mangle)]
pub extern "C" fn dstmc_ordered_contains(
    alloc: Global,
    thread: &mut Handle,
    first: u32,
    capacity: u32,
    key: u64,
    there: &mut u32,
) -> u32
    ensures { TellsBy put_if result there.old there.new (OnMap first capacity
        (λ map. LooksWithin ⟦<AnyLaw as Law>⟧.holds (end_of map.map) (TellsIf pair_of map.map key)) thread.old.held thread.new.held) }
{
    let Some(map) = OrderedMap::<Pair>::at(first, capacity) else {
        return number(Code::Range);
    };
    let answer = on(alloc, thread, |tx| map.contains(tx, key));
    tell_if(answer, there)
}

/// Gives a key of a map a value: 0 where it was not there, 1 where it was, with the value that it had, and 2 where there is no room
/// for another one.
#[unsafe(no_mangle)]
pub extern "C" fn dstmc_ordered_put(
    alloc: Global,
    thread: &mut Handle,
    first: u32,
    capacity: u32,
    key: u64,
    low: u64,
    high: u64,
    placed: &mut u32,
    had_low: &mut u64,
    had_high: &mut u64,
) -> u32
    ensures { TellsBy put_placed result (placed.old, (had_low.old, had_high.old)) (placed.new, (had_low.new, had_high.new)) (OnMap first capacity
        (λ map. SetsWithin ⟦<AnyLaw as Law>⟧.holds (order_end map.map.cells) (Puts pair_of map key (low, high))) thread.old.held thread.new.held) }
{
    let Some(map) = OrderedMap::<Pair>::at(first, capacity) else {
        return number(Code::Range);
    };
    let answer = on(alloc, thread, |tx| put(map, tx, key, (low, high)));
    tell_placed(answer, placed, had_low, had_high)
}

/// Takes a key out of a map, and tells what it had.
#[unsafe(no_mangle)]
pub extern "C" fn dstmc_ordered_remove(
    alloc: Global,
    thread: &mut Handle,
    first: u32,
    capacity: u32,
    key: u64,
    there: &mut u32,
    low: &mut u64,
    high: &mut u64,
) -> u32
    ensures { TellsBy put_found result (there.old, (low.old, high.old)) (there.new, (low.new, high.new)) (OnMap first capacity
        (λ map. SetsWithin ⟦<AnyLaw as Law>⟧.holds (order_end map.map.cells) (Removes pair_of map key)) thread.old.held thread.new.held) }
{
    let Some(map) = OrderedMap::<Pair>::at(first, capacity) else {
        return number(Code::Range);
    };
    let answer = on(alloc, thread, |tx| remove(map, tx, key));
    tell_value(answer, there, low, high)
}

/// How many keys a map has.
#[unsafe(no_mangle)]
pub extern "C" fn dstmc_ordered_len(
    alloc: Global,
    thread: &mut Handle,
    first: u32,
    capacity: u32,
    len: &mut u32,
) -> u32
    ensures { TellsBy put_count result len.old len.new (OnMap first capacity
        (λ map. LooksWithin ⟦<AnyLaw as Law>⟧.holds (end_of map.map) (Counts pair_of map.map)) thread.old.held thread.new.held) }
{
    let Some(map) = OrderedMap::<Pair>::at(first, capacity) else {
        return number(Code::Range);
    };
    let answer = on(alloc, thread, |tx| map.len(tx));
    tell_count(answer, len)
}

/// The first key of a map with its value, if there is one.
#[unsafe(no_mangle)]
pub extern "C" fn dstmc_ordered_first(
    alloc: Global,
    thread: &mut Handle,
    first: u32,
    capacity: u32,
    there: &mut u32,
    key: &mut u64,
    low: &mut u64,
    high: &mut u64,
) -> u32
    ensures { TellsBy put_found result (there.old, (key.old, (low.old, high.old))) (there.new, (key.new, (low.new, high.new))) (OnMap first capacity
        (λ map. LooksWithin ⟦<AnyLaw as Law>⟧.holds (order_end map.map.cells) (TellsFirst pair_of map)) thread.old.held thread.new.held) }
{
    let Some(map) = OrderedMap::<Pair>::at(first, capacity) else {
        return number(Code::Range);
    };
    let answer = on(alloc, thread, |tx| map.first(tx));
    tell_entry(answer, there, key, low, high)
}

/// The last key of a map with its value, if there is one.
#[unsafe(no_mangle)]
pub extern "C" fn dstmc_ordered_last(
    alloc: Global,
    thread: &mut Handle,
    first: u32,
    capacity: u32,
    there: &mut u32,
    key: &mut u64,
    low: &mut u64,
    high: &mut u64,
) -> u32
    ensures { TellsBy put_found result (there.old, (key.old, (low.old, high.old))) (there.new, (key.new, (low.new, high.new))) (OnMap first capacity
        (λ map. LooksWithin ⟦<AnyLaw as Law>⟧.holds (order_end map.map.cells) (TellsLast pair_of map)) thread.old.held thread.new.held) }
{
    let Some(map) = OrderedMap::<Pair>::at(first, capacity) else {
        return number(Code::Range);
    };
    let answer = on(alloc, thread, |tx| map.last(tx));
    tell_entry(answer, there, key, low, high)
}

/// The first key of a map above a bound with its value, if there is one.
#[unsafe(no_mangle)]
pub extern "C" fn dstmc_ordered_next_above(
    alloc: Global,
    thread: &mut Handle,
    first: u32,
    capacity: u32,
    bound: u64,
    there: &mut u32,
    key: &mut u64,
    low: &mut u64,
    high: &mut u64,
) -> u32
    ensures { TellsBy put_found result (there.old, (key.old, (low.old, high.old))) (there.new, (key.new, (low.new, high.new))) (OnMap first capacity
        (λ map. LooksWithin ⟦<AnyLaw as Law>⟧.holds (order_end map.map.cells) (TellsAbove pair_of map bound)) thread.old.held thread.new.held) }
{
    let Some(map) = OrderedMap::<Pair>::at(first, capacity) else {
        return number(Code::Range);
    };
    let answer = on(alloc, thread, |tx| map.next_above(tx, bound));
    tell_entry(answer, there, key, low, high)
}

/// The last key of a map below a bound with its value, if there is one.
#[unsafe(no_mangle)]
pub extern "C" fn dstmc_ordered_next_below(
    alloc: Global,
    thread: &mut Handle,
    first: u32,
    capacity: u32,
    bound: u64,
    there: &mut u32,
    key: &mut u64,
    low: &mut u64,
    high: &mut u64,
) -> u32
    ensures { TellsBy put_found result (there.old, (key.old, (low.old, high.old))) (there.new, (key.new, (low.new, high.new))) (OnMap first capacity
        (λ map. LooksWithin ⟦<AnyLaw as Law>⟧.holds (order_end map.map.cells) (TellsBelow pair_of map bound)) thread.old.held thread.new.held) }
{
    let Some(map) = OrderedMap::<Pair>::at(first, capacity) else {
        return number(Code::Range);
    };
    let answer = on(alloc, thread, |tx| map.next_below(tx, bound));
    tell_entry(answer, there, key, low, high)
}

/// Takes the first key out of a map, and tells it with its value, if there is one.
#[unsafe(no_mangle)]
pub extern "C" fn dstmc_ordered_pop_first(
    alloc: Global,
    thread: &mut Handle,
    first: u32,
    capacity: u32,
    there: &mut u32,
    key: &mut u64,
    low: &mut u64,
    high: &mut u64,
) -> u32
    ensures { TellsBy put_found result (there.old, (key.old, (low.old, high.old))) (there.new, (key.new, (low.new, high.new))) (OnMap first capacity
        (λ map. SetsWithin ⟦<AnyLaw as Law>⟧.holds (order_end map.map.cells) (Pops pair_of map)) thread.old.held thread.new.held) }
{
    let Some(map) = OrderedMap::<Pair>::at(first, capacity) else {
        return number(Code::Range);
    };
    let answer = on(alloc, thread, |tx| pop_first(map, tx));
    tell_entry(answer, there, key, low, high)
}

/// Takes the last key out of a map, and tells it with its value, if there is one.
#[unsafe(no_mangle)]
pub extern "C" fn dstmc_ordered_pop_last(
    alloc: Global,
    thread: &mut Handle,
    first: u32,
    capacity: u32,
    there: &mut u32,
    key: &mut u64,
    low: &mut u64,
    high: &mut u64,
) -> u32
    ensures { TellsBy put_found result (there.old, (key.old, (low.old, high.old))) (there.new, (key.new, (low.new, high.new))) (OnMap first capacity
        (λ map. SetsWithin ⟦<AnyLaw as Law>⟧.holds (order_end map.map.cells) (PopsLast pair_of map)) thread.old.held thread.new.held) }
{
    let Some(map) = OrderedMap::<Pair>::at(first, capacity) else {
        return number(Code::Range);
    };
    let answer = on(alloc, thread, |tx| pop_last(map, tx));
    tell_entry(answer, there, key, low, high)
}

// Puts a key with its value.
#[inline]
fn put(map: OrderedMap<Pair>, tx: &mut Owned, key: u64, value: Pair) -> Result<Placed<Pair>, Stop>
    ensures { Ensures ⟦<AnyLaw as Law>⟧.holds (order_end map.map.cells) (Puts pair_of map key value) tx.old.notes tx.old tx.new result }
{
    map.put(tx, key, value)
}

// Takes a key out.
#[inline]
fn remove(map: OrderedMap<Pair>, tx: &mut Owned, key: u64) -> Result<Option<Pair>, Stop>
    ensures { Ensures ⟦<AnyLaw as Law>⟧.holds (order_end map.map.cells) (Removes pair_of map key) tx.old.notes tx.old tx.new result }
{
    map.remove(tx, key)
}

// Takes the smallest key out.
#[inline]
fn pop_first(map: OrderedMap<Pair>, tx: &mut Owned) -> Result<Option<(u64, Pair)>, Stop>
    ensures { Ensures ⟦<AnyLaw as Law>⟧.holds (order_end map.map.cells) (Pops pair_of map) tx.old.notes tx.old tx.new result }
{
    map.pop_first(tx)
}

// Takes the greatest key out.
#[inline]
fn pop_last(map: OrderedMap<Pair>, tx: &mut Owned) -> Result<Option<(u64, Pair)>, Stop>
    ensures { Ensures ⟦<AnyLaw as Law>⟧.holds (order_end map.map.cells) (PopsLast pair_of map) tx.old.notes tx.old tx.new result }
{
    map.pop_last(tx)
}
