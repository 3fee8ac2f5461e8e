// Threads that make the transactions of a load.
ghost use Rattle.std.specs.Prelude.{◌≡◌, ◌<◌, length, All, IfOk};
ghost use Rattle.bench.specs.Ready.{IsSeated};
ghost use Rattle.bench.specs.declared.scale.load.TheConstants.{LAYOUT};
ghost use Rattle.dstm_core.specs.Words.{IsValid};
ghost use Rattle.dstm_store.specs.Whole.{IsLawful};
ghost use Rattle.dstm_tables.specs.Founders.{founded, home_there};
ghost use Rattle.dstm_tables.specs.Tables.{law_there};

use super::load::{Batch, LAYOUT, Load};
use super::shot::{Shot, filled};
use anyhow::bail;
use dstm_core::{Manager, Shape};
use dstm_model::Val;
use dstm_store::StoreLaw;
use dstm_tables::{Caller, Ended, Engine, Founder, Table, Zeros, attempt, make_dstm, make_tl2};
use std::alloc::{AllocError, Global};
use std::thread::{Threads, for_each_mut, yield_now};
use std::time::{Clock, Instant};

/// The most threads.
const MOST_THREADS: u32 = 4;

/// The objects of the store.
const OBJECTS: u32 = 69_633;

/// What the threads took: nanoseconds; and how many transactions were left, and attempts lost.
#[derive(Clone, Copy, Debug)]
pub struct Told {
    pub nanos: u64,
    pub left: u64,
    pub lost: u64,
}

// A thread's part: its caller of the table, and what it has done.
#[derive(Drop)]
struct Worker<'a> {
    table: &'a Table<StoreLaw>,
    caller: Caller<StoreLaw>,
    load: Load,
    thread: u32,
    count: u32,
    left: u64,
    lost: u64,
}

impl Worker<'_> {
    fn run(&mut self)
        requires ready { IsSeated self.old.table.now self.old.caller }
    {
        for number in 0..self.count {
            let batch = Batch {
                load: self.load,
                thread: self.thread,
                number,
            };
            if !self.make(Shot { batch }) {
                self.left = self.left.wrapping_add(1);
            }
        }
    }

    // Makes a transaction, and tells whether it took effect. Between two attempts it gives way, as the crew does.
    fn make(&mut self, shot: Shot) -> bool
        requires ready { IsSeated self.old.table.now self.old.caller }
        ensures ready { IsSeated self.new.table.now self.new.caller }
    {
        let mut shot = shot;
        let mut turns: u32 = 1;
        for _number in 0..65_536 {
            match attempt(&mut self.caller, self.table, &mut shot) {
                Ok(_) => return true,
                Err(Ended::Spent) => return false,
                Err(Ended::Again) => {}
            }
            self.lost = self.lost.wrapping_add(1);
            turns = turns.saturating_mul(2).min(64);
            for _turn in 0..turns {
                yield_now();
            }
        }
        false
    }
}

// The shape of a table of DSTM.
fn shape(manager: Manager) -> Shape
    ensures valid { IsValid result }
    ensures objects { result.objects ≡ OBJECTS }
{
    Shape {
        objects: OBJECTS,
        callers: MOST_THREADS,
        attempts: 65_536,
        locators: OBJECTS + 524_288,
        manager,
        all_write: false,
    }
}

// A new table of the engine on these values, and its founder.
fn make_table(
    alloc: Global,
    engine: Engine,
    values: Vec<Val>,
) -> Result<(Table<StoreLaw>, Founder<StoreLaw>), AllocError>
    requires size { length values.items ≡ OBJECTS }
    requires lawful { IsLawful LAYOUT values.items }
    ensures law { IfOk result (λ t. law_there t.0 ≡ record { layout = LAYOUT }) }
    ensures founder { IfOk result (λ t. t.1 ≡ founded t.0) }
{
    let law = StoreLaw { layout: LAYOUT };
    match engine {
        Engine::Tl2 => make_tl2(alloc, values, MOST_THREADS, 1_048_576, law),
        Engine::Dstm(manager) => {
            make_dstm(alloc, &mut Zeros::new(alloc), values, shape(manager), law)
        }
    }
}

// The part of a thread.
fn seat<'a>(
    alloc: Global,
    table: &'a Table<StoreLaw>,
    founder: &mut Founder<StoreLaw>,
    load: Load,
    threads: u32,
    thread: u32,
) -> anyhow::Result<Worker<'a>>
    requires some { 0 < threads }
    requires table { home_there founder.old ≡ table.now }
    requires law { law_there table.now ≡ record { layout = LAYOUT } }
    ensures table { home_there founder.new ≡ table.now }
    ensures ready { IfOk result (λ worker. IsSeated worker.table.now worker.caller) }
{
    match founder.caller(alloc, table, u64::from(thread)) {
        Ok(caller) => Ok(Worker {
            table,
            caller,
            load,
            thread,
            count: load.transactions() / threads,
            left: 0,
            lost: 0,
        }),
        Err(_) => bail!("no caller"),
    }
}

// The parts of the threads of a new table.
fn seat_all<'a>(
    alloc: Global,
    table: &'a Table<StoreLaw>,
    founder: &mut Founder<StoreLaw>,
    load: Load,
    threads: u32,
) -> anyhow::Result<Vec<Worker<'a>>>
    requires some { 0 < threads }
    requires table { home_there founder.old ≡ table.now }
    requires law { law_there table.now ≡ record { layout = LAYOUT } }
    ensures { IfOk result (λ workers. All (λ worker. IsSeated worker.table.now worker.caller) workers.items) }
{
    let mut workers = Vec::with_capacity(alloc, threads as usize)?;
    for thread in 0..threads {
        let worker = seat(alloc, table, founder, load, threads, thread)?;
        workers.push(worker)?;
    }
    Ok(workers)
}

/// Makes the transactions of a load, by so many threads.
pub fn time<R: Threads + Clock + Sync>(
    rt: &R,
    alloc: Global,
    engine: Engine,
    load: Load,
    threads: u32,
) -> anyhow::Result<Told>
    requires some { 0 < threads }
{
    let values = filled(alloc)?;
    if values.len() != OBJECTS as usize {
        bail!("another store");
    }
    let (table, mut founder) = make_table(alloc, engine, values)?;
    let mut workers = seat_all(alloc, &table, &mut founder, load, threads)?;
    let begun = Instant::now(rt)?;
    for_each_mut(
        rt,
        &mut workers,
        threads as usize,
        &|_, worker: &mut Worker<'_>|
            requires { IsSeated worker.now.table.now worker.now.caller }
        { worker.run() },
    );
    let took = Instant::now(rt)?.duration_since(begun);
    let mut told = Told {
        nanos: u64::try_from(took.as_nanos()).unwrap_or(u64::MAX),
        left: 0,
        lost: 0,
    };
    for worker in &workers {
        told.left = told.left.wrapping_add(worker.left);
        told.lost = told.lost.wrapping_add(worker.lost);
    }
    Ok(told)
}
