// What transactions over a map take on threads.
ghost use Rattle.std.specs.Prelude.{◌<◌};

use crate::draws::draw;
use crate::spans::{since, whole};
use crate::words::{engine_of, threads_of};
use dstm_cells::{Failed, GaveUp, Me, Memory, Stop, Tx};
use dstm_model::AnyLaw;
use dstm_structures::{HashMap, OrderedMap};
use std::alloc::Global;
use std::thread::Threads;
use std::time::{Clock, Instant};

// Keys are below this. The map has room for all of them, and in the beginning it has the even ones.
const KEYS: u32 = 65_536;

// In how many runs the map is filled.
const FILLS: u32 = 4;

// In how many runs one thread is timed; two threads make half as many.
const RUNS: u32 = 16;

// The transactions of a thread in a run: by DSTM it has 65,536 attempts there.
const TRANSACTIONS: u32 = 60_000;

// Of moves between two maps, which meet more often, each run makes a part, and there are as many more runs.
const PARTS: u32 = 4;

#[derive(Clone, Copy)]
enum Map {
    Hash(HashMap<u64>),
    Ordered(OrderedMap<u64>),
}

// What the transactions do.
#[derive(Clone, Copy)]
enum Work {
    // So many of a hundred look a key up, and the others put one in or take one out.
    Single(u32),
    // Each moves a key from the map that has it to the other one.
    Moves(Map),
}

impl Work {
    // In how many runs one thread is timed.
    fn runs(self) -> u32 {
        match self {
            Work::Single(_) => RUNS,
            Work::Moves(_) => RUNS * PARTS,
        }
    }

    // The transactions of a thread in a run.
    fn count(self) -> u32 {
        match self {
            Work::Single(_) => TRANSACTIONS,
            Work::Moves(_) => TRANSACTIONS / PARTS,
        }
    }
}

/// Tells the nanoseconds that a transaction on a map of this kind takes by this engine on so many threads, where so many of a
/// hundred look a key up, or each moves a key between two maps, and whether there are such an engine, kind and number.
pub fn tell<R: Threads + Clock + Print + Sync>(
    rt: &R,
    alloc: Global,
    by: &str,
    kind: &str,
    looks: &str,
    threads: &str,
) -> anyhow::Result<bool> {
    let Some(engine) = engine_of(by) else {
        return Ok(false);
    };
    let mut memory = Memory::with_law(alloc, engine, AnyLaw);
    let Some(map) = map_of(&mut memory, kind)? else {
        return Ok(false);
    };
    let Some(work) = work_of(&mut memory, kind, looks)? else {
        return Ok(false);
    };
    let nanos = time(rt, memory, map, work, threads_of(threads))?;
    println!(rt; "{nanos:.1}")?;
    Ok(true)
}

// An empty map of a kind, if there is such a kind.
fn map_of(memory: &mut Memory, kind: &str) -> Result<Option<Map>, Failed> {
    let map = match kind {
        "hash" => Map::Hash(HashMap::new(memory, KEYS)?),
        "ordered" => Map::Ordered(OrderedMap::new(memory, KEYS)?),
        _ => return Ok(None),
    };
    Ok(Some(map))
}

// What the transactions do, by a word.
fn work_of(memory: &mut Memory, kind: &str, looks: &str) -> Result<Option<Work>, Failed> {
    let work = match looks {
        "90" => Work::Single(90),
        "98" => Work::Single(98),
        "100" => Work::Single(100),
        "move" => match map_of(memory, kind)? {
            Some(other) => Work::Moves(other),
            None => return Ok(None),
        },
        _ => return Ok(None),
    };
    Ok(Some(work))
}

// The nanoseconds from the start of the first thread to the end of the last one, by the share of one transaction.
fn time<R: Threads + Clock + Sync>(
    rt: &R,
    memory: Memory,
    map: Map,
    work: Work,
    threads: u32,
) -> anyhow::Result<f64>
    requires some { 0 < threads }
{
    let mut memory = memory;
    for part in 0..FILLS {
        memory.run(rt, 1, |me, _| fill(me, map, part))?;
    }
    let runs = work.runs() / threads;
    let mut nanos = 0.0;
    for run in 0..runs {
        let begun = Instant::now(rt)?;
        let spans = memory.run_each(rt, threads, |me, number| {
            let first = since(rt, begun);
            make_all(me, map, work, seed_of(run, number))?;
            Ok((first, since(rt, begun)))
        })?;
        nanos += whole(&spans);
    }
    Ok(nanos / (f64::from(runs) * f64::from(threads) * f64::from(work.count())))
}

// Puts a part of the even keys in.
fn fill(me: &mut Me<'_>, map: Map, part: u32) -> Result<(), GaveUp> {
    for number in 0..KEYS / 2 / FILLS {
        let place = part.wrapping_mul(KEYS / 2 / FILLS).wrapping_add(number);
        let key = u64::from(place.wrapping_mul(12_347) % (KEYS / 2) * 2);
        me.atomically(|tx| put(tx, map, key, key))?;
    }
    Ok(())
}

// Where the random numbers of a thread begin.
fn seed_of(run: u32, number: usize) -> u64 {
    u64::from(run).wrapping_mul(64).wrapping_add(number as u64)
}

// Makes so many transactions.
fn make_all(me: &mut Me<'_>, map: Map, work: Work, seed: u64) -> Result<(), GaveUp> {
    let mut seed = seed;
    for _ in 0..work.count() {
        let drawn = draw(&mut seed, 200 * KEYS);
        match work {
            Work::Single(looks) => make(me, map, looks, drawn)?,
            Work::Moves(other) => shift(me, map, other, u64::from(drawn % KEYS))?,
        }
    }
    Ok(())
}

// Moves a key from the one of two maps that has it to the other one.
fn shift(me: &mut Me<'_>, map: Map, other: Map, key: u64) -> Result<(), GaveUp> {
    me.atomically(|tx| {
        if !move_key(tx, map, other, key)? {
            let _moved = move_key(tx, other, map, key)?;
        }
        Ok(())
    })
}

// Moves a key that the first map has, and tells whether it had it.
fn move_key(tx: &mut Tx<'_>, map: Map, other: Map, key: u64) -> Result<bool, Stop> {
    let Some(value) = remove(tx, map, key)? else {
        return Ok(false);
    };
    put(tx, other, key, value)?;
    Ok(true)
}

// A transaction that is drawn: it looks a key up, puts it in or takes it out.
fn make(me: &mut Me<'_>, map: Map, looks: u32, drawn: u32) -> Result<(), GaveUp> {
    let key = u64::from(drawn % KEYS);
    let chance = drawn / KEYS;
    if chance / 2 < looks {
        me.view(|tx| get(tx, map, key))
    } else if chance % 2 == 0 {
        me.atomically(|tx| put(tx, map, key, key))
    } else {
        me.atomically(|tx| {
            let _value = remove(tx, map, key)?;
            Ok(())
        })
    }
}

fn get(tx: &mut Tx<'_>, map: Map, key: u64) -> Result<(), Stop> {
    let _value = match map {
        Map::Hash(map) => map.get(tx, key)?,
        Map::Ordered(map) => map.get(tx, key)?,
    };
    Ok(())
}

fn put(tx: &mut Tx<'_>, map: Map, key: u64, value: u64) -> Result<(), Stop> {
    let _placed = match map {
        Map::Hash(map) => map.put(tx, key, value)?,
        Map::Ordered(map) => map.put(tx, key, value)?,
    };
    Ok(())
}

fn remove(tx: &mut Tx<'_>, map: Map, key: u64) -> Result<Option<u64>, Stop> {
    match map {
        Map::Hash(map) => map.remove(tx, key),
        Map::Ordered(map) => map.remove(tx, key),
    }
}
