// Reads that are no longer current, under Polite.
ghost use Rattle.std.specs.Prelude.{◌≡◌, IfOk, IfSome};

use crate::tests::attempts::{End, Step, low, make_step};
use crate::tests::calls::{
    Answer, Crossed, Done, Found, Met, Pair, begin, commit, cross, meet, once, release, shape,
    two_callers,
};
use Step::{Nothing, Open, Read, Set};
use dstm_core::Manager;
use dstm_engine::{Caller, Stm};
use dstm_model::{AnyLaw, Val};
use dstm_order::Again;
use std::alloc::Global;
use std::test::Fail;

// What the first of two callers found, whether it let its read go, what the other one was answered, and how the first
// committed.
type Released = (Found, bool, Option<Done>, Answer);

// What a caller has read another one sets before the first commits, but the read was let go.
fn release_and_commit(
    stm: &Stm<AnyLaw>,
    one: &mut Caller<AnyLaw>,
    two: &mut Caller<AnyLaw>,
) -> Option<Released>
    requires homes { (one.old.home ≡ stm.now) × (two.old.home ≡ stm.now) }
    requires objects { stm.now.terms.shape.objects ≡ 2 }
{
    let mut a = begin(one, stm)?;
    let first = make_step(&mut a, 2, Read(0));
    let is_released = release(&mut a, 0);
    let other = once(two, stm, SET_SEVEN, End::Commit);
    if !a.is_live() {
        return None;
    }
    Some((first, is_released, other, commit(a)))
}

// The first object is set to 7.
const SET_SEVEN: [Step; 4] = [Set(0, Val { low: 7, high: 0 }), Nothing, Nothing, Nothing];

const READ_FIRST: [Step; 4] = [Read(0), Nothing, Nothing, Nothing];

// A table of two objects.
fn two_objects(alloc: Global) -> Result<Pair<AnyLaw>, Fail>
    ensures one { IfOk result (λ p. p.one.home ≡ p.stm) }
    ensures two { IfOk result (λ p. p.two.home ≡ p.stm) }
    ensures objects { IfOk result (λ p. p.stm.terms.shape.objects ≡ 2) }
{
    two_callers(alloc, shape(2, Manager::Polite, false))
}

// Each of two callers reads what the other one opens for writing, and commits. Then the second of them alone does.
fn cross_and_again(
    stm: &Stm<AnyLaw>,
    one: &mut Caller<AnyLaw>,
    two: &mut Caller<AnyLaw>,
) -> Option<(Crossed, Option<Done>)>
    requires homes { (one.old.home ≡ stm.now) × (two.old.home ≡ stm.now) }
{
    let met = cross(stm, one, two, [Read(0), Read(1), Open(1), Open(0)])?;
    let alone = once(two, stm, [Read(1), Open(0), Nothing, Nothing], End::Commit);
    Some((met, alone))
}

fn crossed(alloc: Global) -> Result<Option<(Crossed, Option<Done>)>, Fail> {
    let mut pair = two_objects(alloc)?;
    Ok(cross_and_again(&pair.stm, &mut pair.one, &mut pair.two))
}

#[test]
fn of_a_crossed_pair_the_second_is_stale(rt: HostRuntime) -> Result<(), Fail> {
    let met = crossed(rt.alloc())?;
    let zero = Some(Ok(low(0)));
    let commits = [Some(Ok(0)), Some(Err(Again::Stale(1)))];
    let alone = Some(([zero, zero, None, None], Some(Ok(2))));
    assert!(rt; met == Some((([zero, zero, zero, zero], commits), alone)));
    Ok(())
}

// What a caller has read another one sets before the first opens its next object. Then the first tries again.
fn overtake(
    stm: &Stm<AnyLaw>,
    one: &mut Caller<AnyLaw>,
    two: &mut Caller<AnyLaw>,
) -> Option<(Met, Option<Done>)>
    requires homes { (one.old.home ≡ stm.now) × (two.old.home ≡ stm.now) }
{
    let behind = [Read(1), Nothing, Nothing, Nothing];
    let met = meet(
        stm,
        one,
        two,
        READ_FIRST,
        SET_SEVEN,
        End::Commit,
        behind,
        End::Drop,
    )?;
    let again = once(one, stm, READ_FIRST, End::Drop);
    Some((met, again))
}

fn overtaken(alloc: Global) -> Result<Option<(Met, Option<Done>)>, Fail> {
    let mut pair = two_objects(alloc)?;
    Ok(overtake(&pair.stm, &mut pair.one, &mut pair.two))
}

#[test]
fn a_read_that_was_overtaken_is_stale(rt: HostRuntime) -> Result<(), Fail> {
    let met = overtaken(rt.alloc())?;
    let zero = Some(Ok(low(0)));
    let other = Some(([zero, None, None, None], Some(Ok(0))));
    let stale = [Some(Err(Again::Stale(0))), None, None, None];
    let again = Some(([Some(Ok(low(7))), None, None, None], None));
    let first = ([zero, None, None, None], other, (stale, None));
    assert!(rt; met == Some((first, again)));
    Ok(())
}

fn released(alloc: Global) -> Result<Option<Released>, Fail> {
    let mut pair = two_objects(alloc)?;
    Ok(release_and_commit(&pair.stm, &mut pair.one, &mut pair.two))
}

#[test]
fn a_read_that_was_let_go_is_not_stale(rt: HostRuntime) -> Result<(), Fail> {
    let met = released(rt.alloc())?;
    let zero = Some(Ok(low(0)));
    let other = Some(([zero, None, None, None], Some(Ok(0))));
    assert!(rt; met == Some((zero, true, other, Some(Ok(1)))));
    Ok(())
}
