// Pools by the numbers of their cells.
ghost use Rattle.std.specs.Prelude.{◌≡◌, ◌%◌, ◌<◌};
ghost use Rattle.dstm_structures.specs.Pools.{Gives, OpensToGive, OpensToTake, Takes, end_of};
ghost use Rattle.dstm_c.specs.Codes.{TellsValue};
ghost use Rattle.dstm_c.specs.Pools.{MakesPool, OnPool};
ghost use Rattle.dstm_c.specs.Structures.{AndOpens, SetsWithin, TellsBy, pair_of, put_cell, put_if};

use crate::answers::{Pair, cell as cell_of, tell_cell, tell_if};
use crate::calls::{make, on};
use crate::exports::number;
use dstm_handles::{Code, Handle};
use dstm_model::{AnyLaw, Law};
use dstm_structures::Pool;
use std::alloc::Global;

/// A pool of so many cells, of which none is taken, in new cells, two for each: the number of its first cell.
#[unsafe(no_mangle)]
pub extern "C" fn dstmc_pool_new(
    alloc: Global,
    memory: &mut Handle,
    cells: u32,
    first: &mut u32,
) -> u32
    ensures { TellsValue result first.old first.new (MakesPool ⟦<AnyLaw as Law>⟧.holds cells memory.old.held memory.new.held) }
{
    let Some(_) = Pool::<Pair>::at(0, cells) else {
        return number(Code::Range);
    };
    make(alloc, memory, 2 * cells, first)
}

/// Takes a cell of a pool, from a place on, and puts a value into it, if one is not taken.
#[unsafe(no_mangle)]
pub extern "C" fn dstmc_pool_take(
    alloc: Global,
    thread: &mut Handle,
    first: u32,
    cells: u32,
    from: u64,
    low: u64,
    high: u64,
    there: &mut u32,
    cell: &mut u32,
) -> u32
    ensures { TellsBy put_cell result (there.old, cell.old) (there.new, cell.new) (OnPool first cells
        (λ pool. AndOpens (SetsWithin ⟦<AnyLaw as Law>⟧.holds (end_of pool) (Takes pool pair_of (from % pool.cells.capacity) (low, high)))
        (OpensToTake pool ⟦<AnyLaw as Law>⟧.holds (from % pool.cells.capacity))) thread.old.held thread.new.held) }
{
    let Some(pool) = Pool::<Pair>::at(first, cells) else {
        return number(Code::Range);
    };
    let start = place_in(cells, from);
    let answer = on(alloc, thread, |tx| pool.take(tx, start, (low, high)));
    tell_cell(answer, there, cell)
}

/// Gives a cell of a pool back, and tells whether it was taken.
#[unsafe(no_mangle)]
pub extern "C" fn dstmc_pool_give(
    alloc: Global,
    thread: &mut Handle,
    first: u32,
    cells: u32,
    cell: u32,
    given: &mut u32,
) -> u32
    ensures { TellsBy put_if result given.old given.new (OnPool first cells
        (λ pool. AndOpens (SetsWithin ⟦<AnyLaw as Law>⟧.holds (end_of pool) (Gives pool cell))
        (OpensToGive pool ⟦<AnyLaw as Law>⟧.holds)) thread.old.held thread.new.held) }
{
    let Some(pool) = Pool::<Pair>::at(first, cells) else {
        return number(Code::Range);
    };
    let answer = on(alloc, thread, |tx| pool.give(tx, cell_of(cell)));
    tell_if(answer, given)
}

// The place of a number in a pool of so many cells: they stand in a circle.
#[inline]
fn place_in(cells: u32, from: u64) -> u32
    requires { 0 < cells }
    ensures { result ≡ from % cells }
{
    (from % u64::from(cells)) as u32
}
