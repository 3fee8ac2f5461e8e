// What threads take for long transactions of one kind, by callers of either engine.
mod load;
mod shot;
mod workers;

use crate::words::{engine_of, threads_of};
use load::Load;
use std::alloc::Global;
use std::thread::Threads;
use std::time::Clock;
use workers::time;

/// Tells what so many threads take for a load by this engine, and whether there are such a load and engine.
pub fn tell<R: Threads + Clock + Print + Sync>(
    rt: &R,
    alloc: Global,
    by: &str,
    load: &str,
    threads: &str,
) -> anyhow::Result<bool> {
    let (Some(engine), Some(load)) = (engine_of(by), Load::named(load)) else {
        return Ok(false);
    };
    let told = time(rt, alloc, engine, load, threads_of(threads))?;
    println!(rt; "run {} left {} lost {}", told.nanos, told.left, told.lost)?;
    Ok(true)
}
