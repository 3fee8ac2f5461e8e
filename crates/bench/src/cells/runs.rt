// Runs on cells that do nothing.
use dstm_cells::{Engine, Memory};
use dstm_model::AnyLaw;
use std::alloc::Global;
use std::thread::Threads;
use std::time::{Clock, Instant};

/// The nanoseconds of a run of so many threads that do nothing, on a memory of one cell.
pub fn time_run<R: Threads + Clock + Sync>(
    rt: &R,
    alloc: Global,
    engine: Engine,
    threads: u32,
) -> anyhow::Result<f64> {
    let mut memory = Memory::with_law(alloc, engine, AnyLaw);
    let _cell = memory.cell(0u64)?;
    let begun = Instant::now(rt)?;
    memory.run(rt, threads, |_, _| Ok(()))?;
    let took = Instant::now(rt)?.duration_since(begun);
    Ok(1e9 * took.as_secs_f64())
}
