// Calls on a memory, its threads and their transactions. Their contracts say nothing of what is left: the tests look at that. What
// threads and transactions do are methods of values, so that each call takes one closure for all tests.
use dstm_cells::{Cell, Failed, GaveUp, Manager, Me, Memory, Stop, Tx, Word};
use std::alloc::Global;
use std::process::Abort;
use std::test::Fail;
use std::thread::Threads;

/// What each thread of a run does, and what it answers.
pub trait Part {
    type Answer: Send + Drop;

    fn play(&self, me: &mut Me<'_>, number: usize) -> Result<Self::Answer, GaveUp>;
}

/// What a transaction does, and what it answers.
pub trait Change {
    type Answer: Drop;

    fn make(&self, tx: &mut Tx<'_>) -> Result<Self::Answer, Stop>;
}

/// Two alternatives of a transaction.
pub trait Choice {
    type Answer: Drop;

    fn first(&self, tx: &mut Tx<'_>) -> Result<Self::Answer, Stop>;

    fn second(&self, tx: &mut Tx<'_>) -> Result<Self::Answer, Stop>;
}

/// Cells of a memory, what threads do with them, and whether that is left which is to be.
pub trait Trial: Part<Answer = ()> + Drop {
    fn of(memory: &mut Memory) -> Result<Self, Failed>;

    fn is_left(&self, memory: &Memory) -> Result<bool, Failed>;
}

/// A memory by TL2, or by DSTM under a manager.
pub fn memory_by(alloc: Global, manager: Option<Manager>) -> Memory {
    match manager {
        Some(manager) => Memory::with_manager(alloc, manager),
        None => Memory::new(alloc),
    }
}

pub fn cell_of<T: Word>(memory: &mut Memory, value: T) -> Result<Cell<T>, Failed> {
    memory.cell(value)
}

pub fn held<T: Word>(memory: &Memory, cell: Cell<T>) -> Result<T, Failed> {
    memory.get(cell)
}

pub fn run<R: Threads + Sync, P: Part<Answer = ()> + Sync>(
    rt: &R,
    memory: &mut Memory,
    threads: u32,
    part: &P,
) -> Result<(), Failed> {
    memory.run(rt, threads, |me, number| part.play(me, number))
}

pub fn run_each<R: Threads + Sync, P: Part + Sync>(
    rt: &R,
    memory: &mut Memory,
    threads: u32,
    part: &P,
) -> Result<Vec<P::Answer>, Failed> {
    memory.run_each(rt, threads, |me, number| part.play(me, number))
}

/// One thread does this, and tells whether all was as it was to be.
pub fn is_so<R: Threads + Sync, P: Part<Answer = bool> + Sync>(
    rt: &R,
    memory: &mut Memory,
    part: &P,
) -> Result<bool, Failed> {
    let told = run_each(rt, memory, 1, part)?;
    Ok(matches!(told.as_slice(), [true]))
}

// Whether that is left on a memory which is to be.
fn is_left<T: Trial + Sync, R: Threads + Sync>(
    rt: &R,
    memory: &mut Memory,
    threads: u32,
) -> Result<bool, Failed> {
    let trial = T::of(memory)?;
    run(rt, memory, threads, &trial)?;
    trial.is_left(memory)
}

/// Tries this on a memory by TL2, and on one by DSTM under a manager.
pub fn tries<T: Trial + Sync, R: Abort + Threads + Sync>(
    rt: &R,
    alloc: Global,
    manager: Manager,
    threads: u32,
) -> Result<(), Fail> {
    assert!(rt; is_left::<T, R>(rt, &mut memory_by(alloc, None), threads)?);
    assert!(rt; is_left::<T, R>(rt, &mut memory_by(alloc, Some(manager)), threads)?);
    Ok(())
}

pub fn atomically<C: Change>(me: &mut Me<'_>, change: &C) -> Result<C::Answer, GaveUp> {
    me.atomically(|tx| change.make(tx))
}

/// What a transaction would do is only looked at.
pub fn view<C: Change>(me: &mut Me<'_>, change: &C) -> Result<C::Answer, GaveUp> {
    me.view(|tx| change.make(tx))
}

pub fn choose<C: Choice>(tx: &mut Tx<'_>, choice: &C) -> Result<C::Answer, Stop> {
    tx.or_else(|tx| choice.first(tx), |tx| choice.second(tx))
}

pub fn get<T: Word>(tx: &mut Tx<'_>, cell: Cell<T>) -> Result<T, Stop> {
    tx.get(cell)
}

pub fn set<T: Word>(tx: &mut Tx<'_>, cell: Cell<T>, value: T) -> Result<(), Stop> {
    tx.set(cell, value)
}

/// Adds to a cell, and answers what it held.
pub fn add(tx: &mut Tx<'_>, cell: Cell<u64>, more: u64) -> Result<u64, Stop> {
    tx.update(cell, |n| n.wrapping_add(more))
}

/// A transaction that sets a cell.
#[derive(Drop)]
pub struct Setting<T: Word> {
    pub cell: Cell<T>,
    pub value: T,
}

impl<T: Word> Change for Setting<T> {
    type Answer = ();

    fn make(&self, tx: &mut Tx<'_>) -> Result<(), Stop> {
        set(tx, self.cell, self.value)
    }
}

/// One that adds to a cell, and answers what it held.
#[derive(Drop)]
pub struct Adding {
    pub cell: Cell<u64>,
    pub more: u64,
}

impl Change for Adding {
    type Answer = u64;

    fn make(&self, tx: &mut Tx<'_>) -> Result<u64, Stop> {
        add(tx, self.cell, self.more)
    }
}
