// Moves of numbers from one object to another, by two callers on two threads, and by one of TL2 alone.
ghost use Rattle.std.specs.Prelude.{◌≡◌, length};

use crate::tests::attempts::low;
use dstm_mem::{Body, Mem};
use dstm_model::{Law, Val};
use dstm_tl2_engine::{TlFounder, TlStm, tl_attempt};
use std::alloc::Global;
use std::test::Fail;
use std::thread::{Threads, join};

// How many moves each thread makes at most.
pub const MOVES: u32 = 10_000;

// The attempts that it has for them.
pub const ATTEMPTS: u32 = 65_536;

// The law of two objects.
#[derive(Clone, Copy)]
pub struct TwoObjects;

impl Law for TwoObjects {
    ghost use Rattle.std.specs.Prelude.{◌≡◌, length};

    ghost holds = { λ _ map. length map ≡ 2 };
}

// Takes one from the first object and adds it to the second.
#[derive(Drop)]
pub struct Move {
    pub law: TwoObjects,
}

impl Body<TwoObjects> for Move {
    type Task = ();

    type Outcome = ();

    ghost law = { λ body. body.law };

    ghost task = { λ _. tt };

    ghost outcome = { λ _. tt };

    ghost right = { λ _ _ _. Unit {0} };

    ghost leaves = { λ _ _ _. Unit {0} };

    fn run<M: Mem>(&mut self, mem: &mut M) -> Result<(), M::Err> {
        let source = mem.open_write(0)?;
        let target = mem.open_write(1)?;
        mem.set(0, low(source.low.wrapping_sub(1)));
        mem.set(1, low(target.low.wrapping_add(1)));
        Ok(())
    }
}

/// A caller of a table with two objects. `T` stands for the table.
pub trait Mover<T> {
    ghost use Rattle.dstm_engine_tests.specs.declared.tests.moves.TwoObjects.{TwoObjects};

    /// What is known of a table.
    ghost Place: { Type 0 };

    /// The table of the caller.
    ghost home: { Self → Self.Place };

    /// What is known of this table.
    ghost place: { T → Self.Place };

    /// The law of a table.
    ghost law: { Self.Place → TwoObjects };

    /// Makes one attempt at a move: it commits or not. None where no attempt is left.
    fn try_move(&mut self, table: &T, body: &mut Move) -> Option<bool>
        requires table { home self.old ≡ place table.now }
        requires law { body.old.law ≡ law (place table.now) }
        ensures table { home self.new ≡ home self.old }
        ensures law { body.new.law ≡ body.old.law };
}

// Makes the moves, up to so many, while attempts are left, and counts them.
fn move_all<T, C: Mover<T>>(table: &T, caller: C, law: TwoObjects) -> (C, u32)
    requires table { C.home caller ≡ C.place table.now }
    requires law { C.law (C.place table.now) ≡ law }
    ensures table { C.home result.0 ≡ C.place table.entry.now }
{
    let mut caller = caller;
    let mut body = Move { law };
    let mut done = 0;
    for _ in 0..ATTEMPTS {
        if done == MOVES {
            break;
        }
        match caller.try_move(table, &mut body) {
            Some(true) => done += 1,
            Some(false) => {}
            None => break,
        }
    }
    (caller, done)
}

// Two callers make their moves, each on a thread of its own.
pub fn move_both<R: Threads + Sync, T: Sync, C: Mover<T> + Send + Drop>(
    rt: &R,
    table: &T,
    east: C,
    west: C,
    law: TwoObjects,
) -> ((C, u32), (C, u32))
    requires homes { (C.home east ≡ C.place table.now) × (C.home west ≡ C.place table.now) }
    requires law { C.law (C.place table.now) ≡ law }
    ensures homes { (C.home result.0.0 ≡ C.place table.entry.now) × (C.home result.1.0 ≡ C.place table.entry.now) }
{
    join(
        rt,
        move || -> (C, u32)
            requires { (C.home east ≡ C.place table.now) × (C.law (C.place table.now) ≡ law) }
            ensures { C.home result.0 ≡ C.place table.entry.now }
        { move_all(table, east, law) },
        move || -> (C, u32)
            requires { (C.home west ≡ C.place table.now) × (C.law (C.place table.now) ≡ law) }
            ensures { C.home result.0 ≡ C.place table.entry.now }
        { move_all(table, west, law) },
    )
}

// A body that is run alone commits, with the first number, and what it has set is left.
#[test]
fn a_body_alone_commits(rt: HostRuntime) -> Result<(), Fail> {
    let alloc = rt.alloc();
    let (number, values) = moved_alone(alloc, vec![in alloc; low(5), low(5)]?)?;
    assert!(rt; number == Some(0));
    assert!(rt; values.as_slice() == [low(4), low(6)].as_slice());
    Ok(())
}

// Makes one move with no other caller: its number, and what the objects are left with.
fn moved_alone(alloc: Global, start: Vec<Val>) -> Result<(Option<u64>, Vec<Val>), Fail>
    requires objects { length start.items ≡ 2 }
{
    let (stm, mut founder) = TlStm::make(alloc, start, 1, 1, TwoObjects)?;
    let number = move_alone(alloc, &stm, &mut founder);
    let (values, _record) = stm.close(alloc, founder)?;
    Ok((number, values))
}

// A new caller makes one move and goes: its number.
fn move_alone(
    alloc: Global,
    stm: &TlStm<TwoObjects>,
    founder: &mut TlFounder<TwoObjects>,
) -> Option<u64>
    requires table { founder.old.home ≡ stm.now }
    ensures table { founder.new.home ≡ stm.now }
    ensures out { founder.new.view.out ≡ founder.old.view.out }
{
    let Ok(mut caller) = founder.caller(alloc, stm) else {
        return None;
    };
    let number = match tl_attempt(&mut caller, stm, &mut Move { law: TwoObjects }) {
        Ok(done) => Some(done.number),
        Err(_) => None,
    };
    founder.retire(stm, caller);
    number
}
