// Five philosophers at a round table with five forks. Each takes the two forks beside it together, or waits.
use dstm_cells::{Cell, Failed, Memory, Stop, Tx};
use std::thread::Threads;

/// Each eats so often. This answers how many meals there were and how many forks are held in the end.
pub fn dine<R: Threads + Sync>(
    rt: &R,
    memory: &mut Memory,
    often: u32,
) -> Result<(u64, usize), Failed> {
    let mut forks = [memory.cell(false)?; 5];
    for fork in &mut forks {
        *fork = memory.cell(false)?;
    }
    let meals = memory.cell(0u64)?;
    memory.run(rt, 5, |me, number| {
        let left = forks[number % 5];
        let right = forks[(number % 5 + 1) % 5];
        for _ in 0..often {
            me.atomically(|tx| {
                take(tx, left)?;
                take(tx, right)
            })?;
            me.atomically(|tx| {
                tx.set(left, false)?;
                tx.set(right, false)?;
                tx.update(meals, |eaten| eaten.wrapping_add(1))
            })?;
        }
        Ok(())
    })?;
    let held = forks
        .iter()
        .filter(|fork| memory.get(**fork) == Ok(true))
        .count();
    Ok((memory.get(meals)?, held))
}

// Takes a fork, once nobody holds it.
fn take(tx: &mut Tx<'_>, fork: Cell<bool>) -> Result<(), Stop> {
    let held = tx.replace(fork, true)?;
    tx.ensure(!held)
}
