// Long transactions beside short ones: a thread looks at all cells, or lists a map, while three others change some of them.
mod ground;
mod signs;
mod threads;

use crate::words::engine_of;
use dstm_cells::Memory;
use dstm_model::AnyLaw;
use ground::Ground;
use signs::Signs;
use std::alloc::Global;
use std::thread::Threads;
use std::time::{Clock, Duration, Instant};
use threads::{Long, Share, change_all, look_all, rest};

// The threads that change cells, beside the one that looks at them.
const WRITERS: u32 = 3;

// What threads that change cells make alone is measured as long as the long transactions took, but from 0.1 to 0.5 s.
const LEAST_NANOS: u64 = 100_000_000;

const MOST_NANOS: u64 = 500_000_000;

/// Tells of so many long transactions over so many cells or keys how many attempts and nanoseconds they took, and how many
/// changes the other threads made in how many nanoseconds of theirs, beside them and alone; and whether there are such an
/// engine and words.
pub fn tell<R: Threads + Clock + Print + Sync>(
    rt: &R,
    alloc: Global,
    by: &str,
    what: &str,
    how: &str,
    count: &str,
    scans: &str,
) -> anyhow::Result<bool> {
    let (Some(engine), Some(views)) = (engine_of(by), views_of(how)) else {
        return Ok(false);
    };
    let mut memory = Memory::with_law(alloc, engine, AnyLaw);
    let Some(ground) = Ground::make(&mut memory, what, count.parse()?)? else {
        return Ok(false);
    };
    memory.run(rt, 1, |me, _| ground.fill(me))?;
    let long = Long {
        alloc,
        views,
        scans: scans.parse()?,
    };
    let beside = time(rt, &mut memory, &ground, Some(long), 0)?;
    let nanos = beside.0.nanos.max(LEAST_NANOS).min(MOST_NANOS);
    let alone = time(rt, &mut memory, &ground, None, nanos)?;
    let (looks, changes) = beside;
    print!(rt;
        "scans {} attempts {} nanos {} ",
        looks.made, looks.attempts, looks.nanos
    )?;
    print!(rt;
        "changes {} busy {} spent {} ",
        changes.made, changes.nanos, changes.spent
    )?;
    println!(rt; "alone {} alone_busy {}", alone.1.made, alone.1.nanos)?;
    Ok(true)
}

// Whether a long transaction is a view.
fn views_of(word: &str) -> Option<bool> {
    match word {
        "view" => Some(true),
        "atomically" => Some(false),
        _ => None,
    }
}

// What the thread with the long transactions has made, or one that only waits so long, and what the others have made together.
fn time<R: Threads + Clock + Sync>(
    rt: &R,
    memory: &mut Memory,
    ground: &Ground,
    long: Option<Long>,
    nanos: u64,
) -> anyhow::Result<(Share, Share)> {
    let signs = Signs::new();
    let begun = Instant::now(rt)?;
    let shares = memory.run_each(rt, 1 + WRITERS, |me, number| {
        if number > 0 {
            change_all(rt, begun, me, ground, &signs, number)
        } else if let Some(long) = long {
            signs.await_all(WRITERS);
            look_all(rt, begun, me, ground, &signs, long)
        } else {
            rest(rt, &signs, Duration::from_nanos(nanos))
        }
    })?;
    Ok(split(&shares))
}

// The share of the first, and that of all others together.
fn split(shares: &[Share]) -> (Share, Share) {
    let mut first = Share::none();
    let mut others = Share::none();
    for (number, share) in shares.iter().enumerate() {
        if number == 0 {
            first = *share;
        } else {
            others = others.and(*share);
        }
    }
    (first, others)
}
