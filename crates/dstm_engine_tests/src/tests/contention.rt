// Callers that meet, under Karma and Greedy.
ghost use Rattle.std.specs.Prelude.{◌≡◌, IfSome};

use crate::tests::attempts::{End, Step, low, make_step, play};
use crate::tests::calls::{
    Answer, Crossed, Found, abandon, begin, cross, meet, once, shape, tally, two_callers,
};
use Step::{Nothing, Open, Read};
use dstm_core::Manager;
use dstm_engine::{Caller, Stm, Tally};
use dstm_model::AnyLaw;
use dstm_order::Again;
use std::alloc::Global;
use std::test::Fail;

const NONE: [Step; 4] = [Nothing; 4];

const OPEN_FIRST: [Step; 4] = [Open(0), Nothing, Nothing, Nothing];

// What the one that came to an object of the other was answered as it committed, its counts, and what the other was
// answered as it committed.
type Meeting = (Answer, Tally, Answer);

// Five steps of an attempt that a caller abandons.
type Earns = ([Step; 4], Step);

// A caller makes them.
fn earn(caller: &mut Caller<AnyLaw>, stm: &Stm<AnyLaw>, steps: Earns) -> Option<()>
    requires table { caller.old.home ≡ stm.now }
    ensures home { IfSome result (λ _. caller.new.home ≡ stm.now) }
{
    let (first, last) = steps;
    let mut tx = begin(caller, stm)?;
    let objects = stm.shape().objects;
    let _found = play(&mut tx, objects, first);
    let _last = make_step(&mut tx, objects, last);
    abandon(tx);
    Some(())
}

// Under Karma, A has read some objects in an attempt that it has abandoned. B reads two and opens a third one. A opens
// that one too and commits.
fn karma(
    stm: &Stm<AnyLaw>,
    one: &mut Caller<AnyLaw>,
    two: &mut Caller<AnyLaw>,
    earns: Earns,
) -> Option<Meeting>
    requires homes { (one.old.home ≡ stm.now) × (two.old.home ≡ stm.now) }
{
    earn(one, stm, earns)?;
    let opens = [Read(1), Read(2), Open(0), Nothing];
    let (_found, came, other) = meet(
        stm,
        two,
        one,
        opens,
        OPEN_FIRST,
        End::Commit,
        NONE,
        End::Commit,
    )?;
    let (_found, number) = came?;
    let (_found, killed) = other;
    Some((number, one.tally(), killed))
}

fn meet_karma(alloc: Global, earns: Earns) -> Result<Option<Meeting>, Fail> {
    let mut pair = two_callers(alloc, shape(8, Manager::Karma, false))?;
    Ok(karma(&pair.stm, &mut pair.one, &mut pair.two, earns))
}

const NO_READS: Earns = ([Nothing; 4], Nothing);

const FIVE_READS: Earns = ([Read(3), Read(4), Read(5), Read(6)], Read(7));

const THREE_READS: Earns = ([Read(3), Read(4), Read(5), Nothing], Nothing);

#[test]
fn under_karma_a_higher_rank_waits_less(rt: HostRuntime) -> Result<(), Fail> {
    let alloc = rt.alloc();
    let number = Some(Ok(0));
    let killed = Some(Err(Again::Killed));
    assert!(rt; meet_karma(alloc, NO_READS)? == Some((number, tally(34, 16, 1), killed)));
    assert!(rt; meet_karma(alloc, FIVE_READS)? == Some((number, tally(18, 0, 1), killed)));
    assert!(rt; meet_karma(alloc, THREE_READS)? == Some((number, tally(22, 4, 1), killed)));
    Ok(())
}

// Under Greedy, B opens an object and A comes to it. A draws its stamp after B: since it begins later, or since it begins a new
// transaction.
fn greedy_younger(
    stm: &Stm<AnyLaw>,
    one: &mut Caller<AnyLaw>,
    two: &mut Caller<AnyLaw>,
    anew: bool,
) -> Option<([Found; 4], Tally)>
    requires homes { (one.old.home ≡ stm.now) × (two.old.home ≡ stm.now) }
{
    if anew {
        let _none = once(one, stm, NONE, End::Abandon);
        one.next_transaction();
    }
    let (_open, came, _none) = meet(
        stm,
        two,
        one,
        OPEN_FIRST,
        OPEN_FIRST,
        End::Drop,
        NONE,
        End::Drop,
    )?;
    let (found, _number) = came?;
    Some((found, one.tally()))
}

// The same, but A began first, and has the older stamp.
fn meet_younger(alloc: Global) -> Result<(Option<Crossed>, Tally), Fail> {
    let mut pair = two_callers(alloc, shape(2, Manager::Greedy, false))?;
    let steps = [Nothing, Open(0), Open(0), Nothing];
    let met = cross(&pair.stm, &mut pair.one, &mut pair.two, steps);
    Ok((met, pair.one.tally()))
}

fn meet_older(alloc: Global, anew: bool) -> Result<Option<([Found; 4], Tally)>, Fail> {
    let mut pair = two_callers(alloc, shape(2, Manager::Greedy, false))?;
    Ok(greedy_younger(&pair.stm, &mut pair.one, &mut pair.two, anew))
}

#[test]
fn under_greedy_the_older_kills_and_the_younger_waits(rt: HostRuntime) -> Result<(), Fail> {
    let alloc = rt.alloc();
    let (met, counts) = meet_younger(alloc)?;
    let zero = Some(Ok(low(0)));
    let commits = [Some(Ok(0)), Some(Err(Again::Killed))];
    assert!(rt; met == Some(([None, zero, zero, None], commits)));
    // As under Karma, but without a new rank after the open.
    assert!(rt; counts == tally(17, 0, 1));
    let waited = Some((
        [Some(Err(Again::Waited)), None, None, None],
        tally(4_103, 4_096, 0),
    ));
    assert!(rt; meet_older(alloc, false)? == waited);
    assert!(rt; meet_older(alloc, true)? == waited);
    Ok(())
}
