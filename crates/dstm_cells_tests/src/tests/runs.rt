// Runs that hand back what their threads have answered.
use crate::tests::plain::{Adding, Part, atomically, cell_of, held, memory_by, run_each};
use dstm_cells::{Cell, Failed, GaveUp, Manager, Me, Memory};
use std::test::Fail;
use std::thread::Threads;

// A thread answers its number, and the one that it has drawn.
#[derive(Drop)]
struct Tickets {
    next: Cell<u64>,
}

impl Part for Tickets {
    type Answer = (usize, u64);

    fn play(&self, me: &mut Me<'_>, number: usize) -> Result<(usize, u64), GaveUp> {
        let cell = self.next;
        let drawn = atomically(me, &Adding { cell, more: 1 })?;
        Ok((number, drawn))
    }
}

// Whether three threads stand in their order, each with another one of the first three tickets.
fn are_three(tickets: &[(usize, u64)]) -> bool {
    let mut seen = [false, false, false];
    for (place, ticket) in tickets.iter().enumerate() {
        if ticket.0 != place || ticket.1 >= 3 {
            return false;
        }
        seen[ticket.1 as usize] = true;
    }
    tickets.len() == 3 && seen == [true, true, true]
}

fn are_handed_back<R: Threads + Sync>(rt: &R, memory: &mut Memory) -> Result<bool, Failed> {
    let next = cell_of(memory, 0u64)?;
    let tickets = run_each(rt, memory, 3, &Tickets { next })?;
    Ok(are_three(&tickets) && held(memory, next)? == 3)
}

#[test]
fn a_run_hands_back_what_each_thread_answered(rt: HostRuntime) -> Result<(), Fail> {
    assert!(rt; are_handed_back(&rt, &mut memory_by(rt.alloc(), None))?);
    let by = Some(Manager::Polka);
    assert!(rt; are_handed_back(&rt, &mut memory_by(rt.alloc(), by))?);
    Ok(())
}

// The first thread answers, and the others give up.
#[derive(Drop)]
struct First;

impl Part for First {
    type Answer = usize;

    fn play(&self, _me: &mut Me<'_>, number: usize) -> Result<usize, GaveUp> {
        if number == 0 {
            Ok(number)
        } else {
            Err(GaveUp::Idle)
        }
    }
}

fn fails<R: Threads + Sync>(rt: &R, memory: &mut Memory) -> bool {
    let failed = run_each(rt, memory, 3, &First);
    matches!(failed, Err(Failed::GaveUp(GaveUp::Idle)))
}

#[test]
fn a_run_fails_where_a_thread_has_failed(rt: HostRuntime) {
    assert!(rt; fails(&rt, &mut memory_by(rt.alloc(), None)));
    let by = Some(Manager::Polka);
    assert!(rt; fails(&rt, &mut memory_by(rt.alloc(), by)));
}
