// Transactions that change two objects, as a body of the engines and as a closure over cells.
ghost use Rattle.std.specs.Prelude.{◌≡◌, ◌<◌, ◌≤◌};
ghost use Rattle.bench.specs.Ready.{IsReadyOn};

use anyhow::bail;
use dstm_cells::{Cell, GaveUp, Me, Memory};
use dstm_mem::{Body, Mem, OfSize};
use dstm_model::{AnyLaw, Val};
use dstm_tables::{Caller, Engine, Table, attempt, make};
use std::alloc::Global;
use std::thread::Threads;
use std::time::{Clock, Instant};

/// The most objects of a table.
pub const MAX_OBJECTS: u32 = 10_000;

// The transactions that are timed together.
const ATTEMPTS: u32 = 400;

// Adds one to an object and takes one from another one, which may be the same.
#[derive(Debug, Drop)]
struct Pair {
    law: OfSize,
    first: u32,
    second: u32,
    ghost exist: { (first < law.objects) × (second < law.objects) },
}

impl Body<OfSize> for Pair {
    type Task = ();

    type Outcome = ();

    ghost law = { λ pair. pair.law };

    ghost task = { λ _. tt };

    ghost outcome = { λ _. tt };

    ghost right = { λ _ _ _. Unit {0} };

    ghost leaves = { λ _ _ _. Unit {0} };

    fn run<M: Mem>(&mut self, mem: &mut M) -> Result<(), M::Err> {
        let first = mem.open_write(self.first)?;
        mem.set(self.first, with_low(first, first.low.wrapping_add(1)));
        let second = mem.open_write(self.second)?;
        mem.set(self.second, with_low(second, second.low.wrapping_sub(1)));
        Ok(())
    }
}

fn with_low(value: Val, low: u64) -> Val {
    Val { low, ..value }
}

// The objects of a transaction.
fn pair_of(number: u32, objects: u32) -> (u32, u32)
    requires some { 0 < objects }
    requires few { number ≤ ATTEMPTS }
    ensures { (result.0 < objects) × (result.1 < objects) }
{
    (37 * number % objects, (37 * number + 11) % objects)
}

/// The nanoseconds that a transaction takes as a body, by the mean of some on a new table.
pub fn time_bodies(
    clock: &impl Clock,
    alloc: Global,
    engine: Engine,
    objects: u32,
) -> anyhow::Result<f64>
    requires some { 0 < objects }
    requires few { objects ≤ MAX_OBJECTS }
{
    let start = vec![in alloc; Val { low: 1, high: 0 }; objects as usize]?;
    let law = OfSize { objects };
    let (table, mut founder) = make(alloc, engine, start, 1, law)?;
    let mut caller = founder.next_caller(alloc, &table, 1)?;
    let _first = run_bodies(&table, &mut caller, law);
    let start = Instant::now(clock)?;
    let all = run_bodies(&table, &mut caller, law);
    let took = Instant::now(clock)?.duration_since(start);
    if !all {
        bail!("an attempt was left");
    }
    Ok(1e9 * took.as_secs_f64() / f64::from(ATTEMPTS))
}

// Makes the transactions, and tells whether all took effect.
fn run_bodies(table: &Table<OfSize>, caller: &mut Caller<OfSize>, law: OfSize) -> bool
    requires ready { IsReadyOn table.now law caller.old }
    requires some { 0 < law.objects }
    ensures ready { IsReadyOn table.now law caller.new }
{
    let mut all = true;
    for number in 0..ATTEMPTS {
        let (first, second) = pair_of(number, law.objects);
        let mut pair = Pair { law, first, second };
        all &= attempt(caller, table, &mut pair).is_ok();
    }
    all
}

/// The nanoseconds that the same transaction takes as a closure over the cells of a memory, by the mean of some.
pub fn time_cells<R: Clock + Threads + Sync>(
    rt: &R,
    alloc: Global,
    engine: Engine,
    objects: u32,
) -> anyhow::Result<f64>
    requires some { 0 < objects }
    requires few { objects ≤ MAX_OBJECTS }
{
    let mut memory = Memory::with_law(alloc, engine, AnyLaw);
    let cells = memory.cells(1u64, objects)?;
    let took = memory.cell(0u64)?;
    memory.run(
        rt,
        1,
        |me, _|
            requires { 0 < objects }
        {
            run_closures(me, &cells, objects)?;
            let Ok(start) = Instant::now(rt) else {
                return Ok(());
            };
            run_closures(me, &cells, objects)?;
            let Ok(end) = Instant::now(rt) else {
                return Ok(());
            };
            let nanos = u64::try_from(end.duration_since(start).as_nanos()).unwrap_or(u64::MAX);
            me.atomically(|tx| tx.set(took, nanos))
        },
    )?;
    let nanos = u32::try_from(memory.get(took)?).unwrap_or(u32::MAX);
    Ok(f64::from(nanos) / f64::from(ATTEMPTS))
}

// Makes the transactions.
fn run_closures(me: &mut Me<'_>, cells: &[Cell<u64>], objects: u32) -> Result<(), GaveUp>
    requires some { 0 < objects }
{
    for number in 0..ATTEMPTS {
        let (first, second) = pair_of(number, objects);
        let Some(first) = cells.get(first as usize) else {
            return Ok(());
        };
        let Some(second) = cells.get(second as usize) else {
            return Ok(());
        };
        me.atomically(|tx| {
            tx.update(*first, |n| n.wrapping_add(1))?;
            tx.update(*second, |n| n.wrapping_sub(1))
        })?;
    }
    Ok(())
}
