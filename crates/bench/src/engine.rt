// What the calls of DSTM's engine take on one thread.
mod attempts;
mod places;
mod table;
mod times;

use crate::words::manager_of;
use places::MAX_OPENED;
use std::alloc::Global;
use std::time::Clock;
use times::measure;

// How many objects the tables have.
const SIZES: [u32; 3] = [1, 100, 10_000];

/// Tells the times under the manager of this name, and whether there is one.
pub fn tell<R: Clock + Print>(rt: &R, alloc: Global, manager: &str) -> anyhow::Result<bool> {
    let Some(manager) = manager_of(manager) else {
        return Ok(false);
    };
    println!(rt; "objects opened     quit   commit     read    write")?;
    for objects in SIZES {
        let times = measure(rt, alloc, manager, objects)?;
        println!(rt; "{objects:>7} {:>6} {times}", objects.min(MAX_OPENED))?;
    }
    Ok(true)
}
