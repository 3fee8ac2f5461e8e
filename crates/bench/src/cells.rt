// What transactions take as closures over cells.
ghost use Rattle.std.specs.Prelude.{◌<◌, ◌≤◌};

mod pairs;
mod runs;
mod threads;

use crate::words::{engine_of, threads_of};
use dstm_tables::{Engine, Manager};
use pairs::{MAX_OBJECTS, time_bodies, time_cells};
use runs::time_run;
use std::alloc::Global;
use std::thread::Threads;
use std::time::Clock;
use threads::{Kind, time_threads};

const ENGINES: [Engine; 5] = [
    Engine::Tl2,
    Engine::Dstm(Manager::Polite),
    Engine::Dstm(Manager::Karma),
    Engine::Dstm(Manager::Polka),
    Engine::Dstm(Manager::Greedy),
];

// How many objects the tables have.
const SIZES: [u32; 3] = [1, 100, 10_000];

// The tables of which the least of each time is told.
const TABLES: u32 = 15;

/// Tells what a transaction takes on one thread, as a body of the engines and as a closure over cells.
pub fn tell_pairs<R: Clock + Threads + Print + Sync>(
    rt: &R,
    alloc: Global,
) -> anyhow::Result<bool> {
    println!(rt; "objects body cells engine")?;
    for engine in ENGINES {
        for objects in SIZES {
            let (body, cells) = measure(rt, alloc, engine, objects)?;
            println!(rt; "{objects} {body:.1} {cells:.1} {engine:?}")?;
        }
    }
    Ok(true)
}

// The least of each time on several tables, in nanoseconds.
fn measure<R: Clock + Threads + Sync>(
    rt: &R,
    alloc: Global,
    engine: Engine,
    objects: u32,
) -> anyhow::Result<(f64, f64)>
    requires some { 0 < objects }
    requires few { objects ≤ MAX_OBJECTS }
{
    let mut body = f64::INFINITY;
    let mut cells = f64::INFINITY;
    for _ in 0..TABLES {
        body = body.min(time_bodies(rt, alloc, engine, objects)?);
        cells = cells.min(time_cells(rt, alloc, engine, objects)?);
    }
    Ok((body, cells))
}

/// Tells the nanoseconds that a transaction of this kind takes by this engine on so many threads, or a run that does nothing;
/// and whether there are such a kind and engine.
pub fn tell_threads<R: Clock + Threads + Print + Sync>(
    rt: &R,
    alloc: Global,
    by: &str,
    kind: &str,
    threads: &str,
) -> anyhow::Result<bool> {
    let Some(engine) = engine_of(by) else {
        return Ok(false);
    };
    let threads = threads_of(threads);
    let nanos = match Kind::named(kind) {
        Some(kind) => time_threads(rt, alloc, engine, kind, threads)?,
        None if kind == "nothing" => time_run(rt, alloc, engine, threads)?,
        None => return Ok(false),
    };
    println!(rt; "{nanos:.1}")?;
    Ok(true)
}
