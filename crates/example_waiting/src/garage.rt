// A garage that cars enter where it has a place, and else are refused.
use dstm_cells::{Cell, Failed, Memory, Stop, Tx, ensure};
use std::thread::Threads;

/// Three threads bring fifty cars each. This answers how many are in, and how many were refused.
pub fn fill<R: Threads + Sync>(rt: &R, memory: &mut Memory) -> Result<(u64, u64), Failed> {
    let cars = memory.cell(0u64)?;
    let refused = memory.cell(0u64)?;
    memory.run(rt, 3, |me, _| {
        for _ in 0..50 {
            me.atomically(|tx| tx.or_else(|tx| park(tx, cars), |tx| count(tx, refused)))?;
        }
        Ok(())
    })?;
    Ok((memory.get(cars)?, memory.get(refused)?))
}

// Parks a car, once there is a place.
fn park(tx: &mut Tx<'_>, cars: Cell<u64>) -> Result<(), Stop> {
    let inside = tx.get(cars)?;
    ensure(inside < 100)?;
    tx.set(cars, inside + 1)
}

// Adds one to a cell.
fn count(tx: &mut Tx<'_>, cell: Cell<u64>) -> Result<(), Stop> {
    let counted = tx.get(cell)?;
    tx.set(cell, counted.wrapping_add(1))
}
