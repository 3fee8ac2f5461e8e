// Sets by the numbers of their cells.
ghost use Rattle.std.specs.Prelude.{◌≡◌};
ghost use Rattle.dstm_structures.specs.Maps.{end_of};
ghost use Rattle.dstm_structures.specs.Orders.{order_end};
ghost use Rattle.dstm_structures.specs.Sets.{Counts, Inserts, Pops, PopsLast, Removes, TellsAbove, TellsBelow, TellsFirst, TellsIf, TellsLast};
ghost use Rattle.dstm_c.specs.Codes.{TellsValue};
ghost use Rattle.dstm_c.specs.Sets.{MakesSet, OnSet};
ghost use Rattle.dstm_c.specs.Structures.{LooksWithin, SetsWithin, TellsBy, put_count, put_found, put_if, put_inserted};

use crate::answers::{tell_count, tell_if, tell_inserted, tell_key};
use crate::calls::{make, on};
use crate::exports::number;
use dstm_handles::{Code, Handle};
use dstm_model::{AnyLaw, Law};
use dstm_structures::OrderedSet;
use std::alloc::Global;

/// An empty set in new cells, three for each key that it has room for, and one more: the number of its first cell.
#[unsafe(no_mangle)]
pub extern "C" fn dstmc_set_new(
    alloc: Global,
    memory: &mut Handle,
    capacity: u32,
    first: &mut u32,
) -> u32
    ensures { TellsValue result first.old first.new (MakesSet ⟦<AnyLaw as Law>⟧.holds capacity memory.old.held memory.new.held) }
{
    let Some(_) = OrderedSet::at(0, capacity) else {
        return number(Code::Range);
    };
    make(alloc, memory, 3 * capacity + 1, first)
}

/// Inserts a key into a set: 0 where it was not there, 1 where it was, and 2 where there is no room for another one.
#[unsafe(no_mangle)]
pub extern "C" fn dstmc_set_insert(
    alloc: Global,
    thread: &mut Handle,
    first: u32,
    capacity: u32,
    key: u64,
    inserted: &mut u32,
) -> u32
    ensures { TellsBy put_inserted result inserted.old inserted.new (OnSet first capacity
        (λ set. SetsWithin ⟦<AnyLaw as Law>⟧.holds (order_end set.map.map.cells) (Inserts set key)) thread.old.held thread.new.held) }
{
    let Some(set) = OrderedSet::at(first, capacity) else {
        return number(Code::Range);
    };
    let answer = on(alloc, thread, |tx| set.insert(tx, key));
    tell_inserted(answer, inserted)
}

/// Takes a key out of a set, and tells whether it was there.
#[unsafe(no_mangle)]
pub extern "C" fn dstmc_set_remove(
    alloc: Global,
    thread: &mut Handle,
    first: u32,
    capacity: u32,
    key: u64,
    there: &mut u32,
) -> u32
    ensures { TellsBy put_if result there.old there.new (OnSet first capacity
        (λ set. SetsWithin ⟦<AnyLaw as Law>⟧.holds (order_end set.map.map.cells) (Removes set key)) thread.old.held thread.new.held) }
{
    let Some(set) = OrderedSet::at(first, capacity) else {
        return number(Code::Range);
    };
    let answer = on(alloc, thread, |tx| set.remove(tx, key));
    tell_if(answer, there)
}

/// Whether a key is in a set.
#[unsafe(no_mangle)]
pub extern "C" fn dstmc_set_contains(
    alloc: Global,
    thread: &mut Handle,
    first: u32,
    capacity: u32,
    key: u64,
    there: &mut u32,
) -> u32
    ensures { TellsBy put_if result there.old there.new (OnSet first capacity
        (λ set. LooksWithin ⟦<AnyLaw as Law>⟧.holds (end_of set.map.map) (TellsIf set key)) thread.old.held thread.new.held) }
{
    let Some(set) = OrderedSet::at(first, capacity) else {
        return number(Code::Range);
    };
    let answer = on(alloc, thread, |tx| set.contains(tx, key));
    tell_if(answer, there)
}

/// How many keys a set has.
#[unsafe(no_mangle)]
pub extern "C" fn dstmc_set_len(
    alloc: Global,
    thread: &mut Handle,
    first: u32,
    capacity: u32,
    len: &mut u32,
) -> u32
    ensures { TellsBy put_count result len.old len.new (OnSet first capacity
        (λ set. LooksWithin ⟦<AnyLaw as Law>⟧.holds (end_of set.map.map) (Counts set)) thread.old.held thread.new.held) }
{
    let Some(set) = OrderedSet::at(first, capacity) else {
        return number(Code::Range);
    };
    let answer = on(alloc, thread, |tx| set.len(tx));
    tell_count(answer, len)
}

/// The first key of a set, if there is one.
#[unsafe(no_mangle)]
pub extern "C" fn dstmc_set_first(
    alloc: Global,
    thread: &mut Handle,
    first: u32,
    capacity: u32,
    there: &mut u32,
    key: &mut u64,
) -> u32
    ensures { TellsBy put_found result (there.old, key.old) (there.new, key.new) (OnSet first capacity
        (λ set. LooksWithin ⟦<AnyLaw as Law>⟧.holds (order_end set.map.map.cells) (TellsFirst set)) thread.old.held thread.new.held) }
{
    let Some(set) = OrderedSet::at(first, capacity) else {
        return number(Code::Range);
    };
    let answer = on(alloc, thread, |tx| set.first(tx));
    tell_key(answer, there, key)
}

/// The last key of a set, if there is one.
#[unsafe(no_mangle)]
pub extern "C" fn dstmc_set_last(
    alloc: Global,
    thread: &mut Handle,
    first: u32,
    capacity: u32,
    there: &mut u32,
    key: &mut u64,
) -> u32
    ensures { TellsBy put_found result (there.old, key.old) (there.new, key.new) (OnSet first capacity
        (λ set. LooksWithin ⟦<AnyLaw as Law>⟧.holds (order_end set.map.map.cells) (TellsLast set)) thread.old.held thread.new.held) }
{
    let Some(set) = OrderedSet::at(first, capacity) else {
        return number(Code::Range);
    };
    let answer = on(alloc, thread, |tx| set.last(tx));
    tell_key(answer, there, key)
}

/// The first key of a set above a bound, if there is one.
#[unsafe(no_mangle)]
pub extern "C" fn dstmc_set_next_above(
    alloc: Global,
    thread: &mut Handle,
    first: u32,
    capacity: u32,
    bound: u64,
    there: &mut u32,
    key: &mut u64,
) -> u32
    ensures { TellsBy put_found result (there.old, key.old) (there.new, key.new) (OnSet first capacity
        (λ set. LooksWithin ⟦<AnyLaw as Law>⟧.holds (order_end set.map.map.cells) (TellsAbove set bound)) thread.old.held thread.new.held) }
{
    let Some(set) = OrderedSet::at(first, capacity) else {
        return number(Code::Range);
    };
    let answer = on(alloc, thread, |tx| set.next_above(tx, bound));
    tell_key(answer, there, key)
}

/// The last key of a set below a bound, if there is one.
#[unsafe(no_mangle)]
pub extern "C" fn dstmc_set_next_below(
    alloc: Global,
    thread: &mut Handle,
    first: u32,
    capacity: u32,
    bound: u64,
    there: &mut u32,
    key: &mut u64,
) -> u32
    ensures { TellsBy put_found result (there.old, key.old) (there.new, key.new) (OnSet first capacity
        (λ set. LooksWithin ⟦<AnyLaw as Law>⟧.holds (order_end set.map.map.cells) (TellsBelow set bound)) thread.old.held thread.new.held) }
{
    let Some(set) = OrderedSet::at(first, capacity) else {
        return number(Code::Range);
    };
    let answer = on(alloc, thread, |tx| set.next_below(tx, bound));
    tell_key(answer, there, key)
}

/// Takes the first key out of a set, and tells it, if there is one.
#[unsafe(no_mangle)]
pub extern "C" fn dstmc_set_pop_first(
    alloc: Global,
    thread: &mut Handle,
    first: u32,
    capacity: u32,
    there: &mut u32,
    key: &mut u64,
) -> u32
    ensures { TellsBy put_found result (there.old, key.old) (there.new, key.new) (OnSet first capacity
        (λ set. SetsWithin ⟦<AnyLaw as Law>⟧.holds (order_end set.map.map.cells) (Pops set)) thread.old.held thread.new.held) }
{
    let Some(set) = OrderedSet::at(first, capacity) else {
        return number(Code::Range);
    };
    let answer = on(alloc, thread, |tx| set.pop_first(tx));
    tell_key(answer, there, key)
}

/// Takes the last key out of a set, and tells it, if there is one.
#[unsafe(no_mangle)]
pub extern "C" fn dstmc_set_pop_last(
    alloc: Global,
    thread: &mut Handle,
    first: u32,
    capacity: u32,
    there: &mut u32,
    key: &mut u64,
) -> u32
    ensures { TellsBy put_found result (there.old, key.old) (there.new, key.new) (OnSet first capacity
        (λ set. SetsWithin ⟦<AnyLaw as Law>⟧.holds (order_end set.map.map.cells) (PopsLast set)) thread.old.held thread.new.held) }
{
    let Some(set) = OrderedSet::at(first, capacity) else {
        return number(Code::Range);
    };
    let answer = on(alloc, thread, |tx| set.pop_last(tx));
    tell_key(answer, there, key)
}
