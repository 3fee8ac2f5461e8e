// Waits in which a thread sleeps between two looks.
use crate::tests::plain::{Part, cell_of, held, memory_by, run, run_each};
use dstm_cells::{Cell, Failed, GaveUp, Manager, Me, Memory, Naps, retry};
use std::alloc::Global;
use std::process::Abort;
use std::test::Fail;
use std::thread::{Threads, sleep};
use std::time::{Clock, Duration};

// The first thread sleeps, and then opens a gate. The others pass it once it is open.
#[derive(Drop)]
struct Gate<'a, C: Clock> {
    clock: &'a C,
    is_open: Cell<bool>,
    passed: Cell<u64>,
}

impl<'a, C: Clock> Part for Gate<'a, C> {
    type Answer = ();

    fn play(&self, me: &mut Me<'_>, number: usize) -> Result<(), GaveUp> {
        let is_open = self.is_open;
        let passed = self.passed;
        if number == 0 {
            sleep(self.clock, Duration::from_millis(5));
            return me.atomically(|tx| tx.set(is_open, true));
        }
        let mut naps = Naps::new(self.clock);
        me.atomically_by(&mut naps, |tx| {
            let opened = tx.get(is_open)?;
            tx.ensure(opened)?;
            let _before = tx.update(passed, |count| count.wrapping_add(1))?;
            Ok(())
        })
    }
}

fn all_pass<R: Clock + Threads + Sync>(rt: &R, memory: &mut Memory) -> Result<bool, Failed> {
    let is_open = cell_of(memory, false)?;
    let passed = cell_of(memory, 0u64)?;
    let gate = Gate {
        clock: rt,
        is_open,
        passed,
    };
    run(rt, memory, 4, &gate)?;
    Ok(held(memory, passed)? == 3)
}

// A thread waits for what never comes, by a transaction and by a view, and tells whether both had enough of it.
#[derive(Drop)]
struct InVain<'a, C: Clock> {
    clock: &'a C,
}

impl<'a, C: Clock> Part for InVain<'a, C> {
    type Answer = bool;

    fn play(&self, me: &mut Me<'_>, _number: usize) -> Result<bool, GaveUp> {
        let mut naps = Naps::new(self.clock).with_patience(Duration::from_millis(3));
        let made = me.atomically_by(&mut naps, |_tx| retry::<()>());
        let viewed = me.view_by(&mut naps, |_tx| retry::<()>());
        Ok(made == Err(GaveUp::Idle) && viewed == Err(GaveUp::Idle))
    }
}

fn all_are_told<R: Clock + Threads + Sync>(rt: &R, memory: &mut Memory) -> Result<bool, Failed> {
    let told = run_each(rt, memory, 4, &InVain { clock: rt })?;
    Ok(told.iter().all(|idle| *idle))
}

// The first thread changes a cell until the second has lost its patience, which waits for what never comes.
#[derive(Drop)]
struct Beside<'a, C: Clock> {
    clock: &'a C,
    count: Cell<u64>,
    is_over: Cell<bool>,
}

impl<'a, C: Clock> Part for Beside<'a, C> {
    type Answer = bool;

    fn play(&self, me: &mut Me<'_>, number: usize) -> Result<bool, GaveUp> {
        let count = self.count;
        let is_over = self.is_over;
        if number == 0 {
            for _ in 0..20_000 {
                let over = me.atomically(|tx| {
                    let _before = tx.update(count, |n| n.wrapping_add(1))?;
                    tx.get(is_over)
                })?;
                if over {
                    return Ok(true);
                }
            }
            return Ok(true);
        }
        let mut naps = Naps::new(self.clock).with_patience(Duration::from_millis(3));
        let waited = me.atomically_by(&mut naps, |tx| {
            let over = tx.get(is_over)?;
            tx.ensure(over)
        });
        me.atomically(|tx| tx.set(is_over, true))?;
        Ok(waited == Err(GaveUp::Idle))
    }
}

fn is_told_beside<R: Clock + Threads + Sync>(rt: &R, memory: &mut Memory) -> Result<bool, Failed> {
    let count = cell_of(memory, 0u64)?;
    let is_over = cell_of(memory, false)?;
    let beside = Beside {
        clock: rt,
        count,
        is_over,
    };
    let told = run_each(rt, memory, 2, &beside)?;
    Ok(told.iter().all(|idle| *idle))
}

fn tries_both<R: Abort + Clock + Threads + Sync>(rt: &R, alloc: Global) -> Result<(), Fail> {
    for manager in [None, Some(Manager::Polka)] {
        assert!(rt; all_pass(rt, &mut memory_by(alloc, manager))?);
        assert!(rt; all_are_told(rt, &mut memory_by(alloc, manager))?);
        assert!(rt; is_told_beside(rt, &mut memory_by(alloc, manager))?);
    }
    Ok(())
}

#[test]
fn who_sleeps_is_woken_and_loses_patience(rt: HostRuntime) -> Result<(), Fail> {
    tries_both(&rt, rt.alloc())
}
