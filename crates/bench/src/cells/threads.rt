// Transactions over cells on threads.
ghost use Rattle.std.specs.Prelude.{◌<◌, ◌≤◌};

use crate::draws::draw;
use crate::spans::{since, whole};
use dstm_cells::{Cell, Engine, GaveUp, Me, Memory};
use dstm_model::AnyLaw;
use std::alloc::Global;
use std::thread::Threads;
use std::time::{Clock, Instant};

/// What a transaction does.
#[derive(Clone, Copy, Debug, PartialEq, Eq)]
pub enum Kind {
    /// It adds to one cell and takes from another, of those of its thread.
    Disjoint,
    /// It adds to the one cell that all have.
    One,
    /// It moves one from a cell to another of 16.
    Bank,
    /// It reads 16 cells of 1,024, and one in fifty adds to one of them.
    Reads,
}

impl Kind {
    /// The kind of a name.
    pub fn named(name: &str) -> Option<Kind> {
        match name {
            "disjoint" => Some(Kind::Disjoint),
            "one" => Some(Kind::One),
            "bank" => Some(Kind::Bank),
            "reads" => Some(Kind::Reads),
            _ => None,
        }
    }

    fn cells(self) -> u32 {
        match self {
            Kind::Disjoint => 8_192,
            Kind::One => 1,
            Kind::Bank => 16,
            Kind::Reads => 1_024,
        }
    }

    // How many transactions all threads make together.
    fn transactions(self) -> u32 {
        if self == Kind::Reads { 40_000 } else { 60_000 }
    }
}

/// The nanoseconds from the start of the first thread to the end of the last one, by the share of one transaction.
pub fn time_threads<R: Threads + Clock + Sync>(
    rt: &R,
    alloc: Global,
    engine: Engine,
    kind: Kind,
    threads: u32,
) -> anyhow::Result<f64>
    requires some { 0 < threads }
    requires few { threads ≤ 4 }
{
    let mut memory = Memory::with_law(alloc, engine, AnyLaw);
    let cells = memory.cells(1_000_000u64, kind.cells())?;
    let begun = Instant::now(rt)?;
    let count = kind.transactions() / threads;
    let spans = memory.run_each(rt, threads, |me, number| {
        let first = since(rt, begun);
        make_all(me, &cells, kind, count, number)?;
        Ok((first, since(rt, begun)))
    })?;
    Ok(whole(&spans) / f64::from(kind.transactions()))
}

// Makes so many transactions.
fn make_all(
    me: &mut Me<'_>,
    cells: &[Cell<u64>],
    kind: Kind,
    count: u32,
    number: usize,
) -> Result<(), GaveUp> {
    let mut seed = number as u64;
    for _ in 0..count {
        make(me, cells, kind, (number % 4) as u32, &mut seed)?;
    }
    Ok(())
}

// Makes a transaction.
fn make(
    me: &mut Me<'_>,
    cells: &[Cell<u64>],
    kind: Kind,
    thread: u32,
    seed: &mut u64,
) -> Result<(), GaveUp>
    requires few { thread < 4 }
{
    match kind {
        Kind::Disjoint => {
            let first = pick(cells, 2_048 * thread + draw(seed, 1_024))?;
            let second = pick(cells, 2_048 * thread + draw(seed, 1_024))?;
            me.atomically(|tx| {
                tx.update(first, |n| n.wrapping_add(1))?;
                tx.update(second, |n| n.wrapping_sub(1))
            })?;
        }
        Kind::One => {
            let cell = pick(cells, 0)?;
            me.atomically(|tx| tx.update(cell, |n| n.wrapping_add(1)))?;
        }
        Kind::Bank => {
            let place = draw(seed, 16);
            let source = pick(cells, place)?;
            let target = pick(cells, (place + 1 + draw(seed, 15)) % 16)?;
            me.atomically(|tx| {
                let had = tx.get(source)?;
                if had > 0 {
                    tx.set(source, had - 1)?;
                    tx.update(target, |n| n.wrapping_add(1))?;
                }
                Ok(())
            })?;
        }
        Kind::Reads => {
            let writes = draw(seed, 50) == 0;
            let from = *seed;
            let first = pick(cells, 0)?;
            *seed = me.atomically(|tx| {
                let mut here = from;
                let mut last = first;
                for _ in 0..16 {
                    last = pick(cells, draw(&mut here, 1_024)).unwrap_or(first);
                    let _value = tx.get(last)?;
                }
                if writes {
                    tx.update(last, |n| n.wrapping_add(1))?;
                }
                Ok(here)
            })?;
        }
    }
    Ok(())
}

fn pick(cells: &[Cell<u64>], place: u32) -> Result<Cell<u64>, GaveUp> {
    match cells.get(place as usize) {
        Some(cell) => Ok(*cell),
        None => Err(GaveUp::Foreign),
    }
}
