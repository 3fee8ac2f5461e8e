// One caller alone, under Polite.
ghost use Rattle.std.specs.Prelude.{◌≡◌, IfOk};

use crate::tests::attempts::{End, Step, low};
use crate::tests::calls::{Answer, Done, Pair, once, shape, tally, two_callers};
use Step::{Nothing, Read, Set};
use dstm_core::Manager;
use dstm_engine::{Caller, Stm, Tally};
use dstm_model::{AnyLaw, Val};
use std::alloc::Global;
use std::test::Fail;

// A table of three objects.
fn three_objects(alloc: Global, all_write: bool) -> Result<Pair<AnyLaw>, Fail>
    ensures one { IfOk result (λ p. p.one.home ≡ p.stm) }
{
    two_callers(alloc, shape(3, Manager::Polite, all_write))
}

// Makes these steps on a new table and commits.
fn commit_alone(
    alloc: Global,
    all_write: bool,
    steps: [Step; 4],
) -> Result<(Option<Done>, Tally), Fail> {
    let mut pair = three_objects(alloc, all_write)?;
    let done = once(&mut pair.one, &pair.stm, steps, End::Commit);
    Ok((done, pair.one.tally()))
}

#[test]
fn one_caller_reads(rt: HostRuntime) -> Result<(), Fail> {
    let zero = Some(Ok(low(0)));
    let number = Some(Ok(0));
    let three = commit_alone(rt.alloc(), false, [Read(0), Read(1), Read(2), Nothing])?;
    assert!(rt; three == (Some(([zero, zero, zero, None], number)), tally(14, 0, 0)));
    let one = commit_alone(rt.alloc(), true, [Read(0), Nothing, Nothing, Nothing])?;
    assert!(rt; one == (Some(([zero, None, None, None], number)), tally(12, 0, 0)));
    Ok(())
}

// Reads an object, sets it and reads it: tells whether it was the first value and is the second one then, and the
// number is this one.
fn changes(
    stm: &Stm<AnyLaw>,
    one: &mut Caller<AnyLaw>,
    was: Val,
    is: Val,
    end: End,
    number: Answer,
) -> bool
    requires home { one.old.home ≡ stm.now }
    ensures home { one.new.home ≡ stm.now }
{
    let done = once(one, stm, [Read(0), Set(0, is), Read(0), Nothing], end);
    let was = Some(Ok(was));
    done == Some(([was, was, Some(Ok(is)), None], number))
}

// What is set in an attempt that is dropped is not left, and both parts of what is set in one that commits are.
fn keeps_what_commits(stm: &Stm<AnyLaw>, caller: &mut Caller<AnyLaw>) -> bool
    requires home { caller.old.home ≡ stm.now }
{
    let zero = low(0);
    let seven = Val { low: 7, high: 8 };
    let one = Val { low: 1, high: 2 };
    changes(stm, caller, zero, low(9), End::Drop, None)
        && changes(stm, caller, zero, seven, End::Commit, Some(Ok(0)))
        && changes(stm, caller, seven, one, End::Commit, Some(Ok(1)))
        && changes(stm, caller, one, zero, End::Commit, Some(Ok(2)))
}

#[test]
fn one_caller_reads_and_sets(rt: HostRuntime) -> Result<(), Fail> {
    let mut pair = three_objects(rt.alloc(), false)?;
    assert!(rt; keeps_what_commits(&pair.stm, &mut pair.one));
    assert!(rt; pair.one.draws() == 3);
    Ok(())
}
