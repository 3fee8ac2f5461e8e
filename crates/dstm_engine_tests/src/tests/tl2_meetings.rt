// Callers that meet on one thread, step by step.
ghost use Rattle.std.specs.Prelude.{◌≡◌, ◌+◌, ◌<◌, ◌≤◌, length, IfOk, IfSome, IsTrue, true};
ghost use Rattle.dstm_tl2_steps.specs.Reads.{AtRest};
ghost use Rattle.dstm_tl2_engine.specs.Callers.{is_live, state};
ghost use Rattle.dstm_tl2_engine.specs.Transactions.{HasLocked};
ghost use Rattle.dstm_engine_tests.specs.Attempts.{IsSound};

use crate::tests::attempts::{Attempt, End, Step, alternate, low, play};
use Step::{Nothing, Open, Read, Set};
use dstm_mem::Mem;
use dstm_model::{AnyLaw, Val};
use dstm_tl2_engine::{TlAgain, TlCaller, TlEnrol, TlFounder, TlLocked, TlSpent, TlStm, TlTx};
use std::alloc::Global;
use std::test::Fail;

type Answer = crate::tests::attempts::Answer<TlAgain>;

type Found = crate::tests::attempts::Found<TlAgain>;

type Done = crate::tests::attempts::Done<TlAgain>;

// A table of zeros with two callers.
#[derive(Drop)]
struct Pair {
    stm: TlStm<AnyLaw>,
    founder: TlFounder<AnyLaw>,
    one: TlCaller<AnyLaw>,
    two: TlCaller<AnyLaw>,
}

fn two_callers(alloc: Global, objects: u32) -> Result<Pair, Fail>
    requires objects { objects ≤ 4 }
    ensures objects { IfOk result (λ p. length p.stm.terms.start.value.items ≡ objects) }
    ensures one { IfOk result (λ p. p.one.home ≡ p.stm) }
    ensures two { IfOk result (λ p. p.two.home ≡ p.stm) }
    ensures founder { IfOk result (λ p. p.founder.home ≡ p.stm) }
    ensures out { IfOk result (λ p. p.founder.view.out ≡ 2) }
{
    let start = vec![in alloc; low(0); objects as usize]?;
    let (stm, mut founder) = TlStm::make(alloc, start, 2, 8, AnyLaw)?;
    let (one, two) = both(alloc, &stm, &mut founder)?;
    Ok(Pair {
        stm,
        founder,
        one,
        two,
    })
}

// Two new callers.
fn both(
    alloc: Global,
    stm: &TlStm<AnyLaw>,
    founder: &mut TlFounder<AnyLaw>,
) -> Result<(TlCaller<AnyLaw>, TlCaller<AnyLaw>), Fail>
    requires table { founder.old.home ≡ stm.now }
    ensures table { founder.new.home ≡ founder.old.home }
    ensures out { IfOk result (λ _. founder.new.view.out ≡ founder.old.view.out + 2) }
    ensures callers { IfOk result (λ callers. (callers.0.home ≡ stm.now) × (callers.1.home ≡ stm.now)) }
{
    let one = caller(alloc, stm, founder)?;
    let two = caller(alloc, stm, founder)?;
    Ok((one, two))
}

fn caller(
    alloc: Global,
    stm: &TlStm<AnyLaw>,
    founder: &mut TlFounder<AnyLaw>,
) -> Result<TlCaller<AnyLaw>, Fail>
    requires table { founder.old.home ≡ stm.now }
    ensures table { founder.new.home ≡ founder.old.home }
    ensures out { IfOk result (λ _. founder.new.view.out ≡ founder.old.view.out + 1) }
    ensures caller { IfOk result (λ k. k.home ≡ stm.now) }
{
    match founder.caller(alloc, stm) {
        Ok(caller) => Ok(caller),
        Err(_) => Err(Fail::new("no caller")),
    }
}

fn begin<'a>(caller: &'a mut TlCaller<AnyLaw>, stm: &'a TlStm<AnyLaw>) -> Option<TlTx<'a, AnyLaw>>
    requires table { caller.old.home ≡ stm.now }
    ensures reference { IfSome result (λ t. t.caller.ghost_name ≡ caller.entry.ghost_name) }
    ensures table { IfSome result (λ t. t.stm.now ≡ stm.now) }
    ensures home { IfSome result (λ t. t.caller.now.home ≡ stm.now) }
    ensures rest { IfSome result (λ t. AtRest (state t.caller.now)) }
{
    match caller.begin(stm) {
        Ok(tx) => Some(tx),
        Err(TlSpent) => None,
    }
}

impl Attempt for TlTx<'_, AnyLaw> {
    fn is_live(&self) -> bool {
        TlTx::is_live(self)
    }
}

// It is live, and so it is at rest.
fn rests<'a>(tx: &TlTx<'a, AnyLaw>) -> bool
    requires sound { IsSound ⟦<TlTx<'a, AnyLaw> as Mem>⟧ tx.now }
    ensures { result ≡ true → IsTrue (is_live tx.now.caller.now) × AtRest (state tx.now.caller.now) }
{
    tx.is_live()
}

// Commits, and answers the number that was drawn.
fn commit(tx: TlTx<'_, AnyLaw>) -> Answer
    requires live { IsTrue (is_live tx.caller.now) }
    requires rest { AtRest (state tx.caller.now) }
    ensures home { tx.exit.0.now.home ≡ tx.entry.caller.now.home }
{
    Some(tx.commit())
}

// Quits an attempt.
fn abandon(tx: TlTx<'_, AnyLaw>)
    ensures home { tx.exit.0.now.home ≡ tx.entry.caller.now.home }
{
    tx.abandon();
}

// Makes an attempt of these steps. None where the caller has none left.
fn once(
    caller: &mut TlCaller<AnyLaw>,
    stm: &TlStm<AnyLaw>,
    steps: [Step; 4],
    end: End,
) -> Option<Done>
    requires table { caller.old.home ≡ stm.now }
    ensures home { caller.new.home ≡ stm.now }
{
    let mut tx = match caller.begin(stm) {
        Ok(tx) => tx,
        Err(TlSpent) => return None,
    };
    let found = play(&mut tx, stm.objects(), steps);
    if matches!(end, End::Drop) || !rests(&tx) {
        return Some((found, None));
    }
    if matches!(end, End::Abandon) {
        abandon(tx);
        return Some((found, None));
    }
    Some((found, commit(tx)))
}

// What two attempts were answered that meet: the first one at its steps before the other one, the other one, and the
// first one behind it.
type Met = ([Found; 4], Option<Done>, Done);

// Makes an attempt of another caller between the steps of one.
fn meet(
    stm: &TlStm<AnyLaw>,
    one: &mut TlCaller<AnyLaw>,
    two: &mut TlCaller<AnyLaw>,
    before: [Step; 4],
    between: [Step; 4],
    ends: End,
    behind: [Step; 4],
    end: End,
) -> Option<Met>
    requires homes { (one.old.home ≡ stm.now) × (two.old.home ≡ stm.now) }
    ensures homes { IfSome result (λ _. (one.new.home ≡ stm.now) × (two.new.home ≡ stm.now)) }
{
    let mut a = begin(one, stm)?;
    let objects = stm.objects();
    let first = play(&mut a, objects, before);
    let other = once(two, stm, between, ends);
    let last = play(&mut a, objects, behind);
    if matches!(end, End::Drop) || !rests(&a) {
        return Some((first, other, (last, None)));
    }
    if matches!(end, End::Abandon) {
        abandon(a);
        return Some((first, other, (last, None)));
    }
    Some((first, other, (last, commit(a))))
}

// One step of an attempt.
fn only(step: Step) -> [Step; 4] {
    [step, Nothing, Nothing, Nothing]
}

// What two attempts were answered whose steps alternate, and as each of them committed.
type Crossed = ([Found; 4], [Answer; 2]);

// Two callers begin, one after the other, make steps in turn and commit.
fn cross(
    stm: &TlStm<AnyLaw>,
    one: &mut TlCaller<AnyLaw>,
    two: &mut TlCaller<AnyLaw>,
    steps: [Step; 4],
) -> Option<Crossed>
    requires homes { (one.old.home ≡ stm.now) × (two.old.home ≡ stm.now) }
    ensures homes { IfSome result (λ _. (one.new.home ≡ stm.now) × (two.new.home ≡ stm.now)) }
{
    let mut a = begin(one, stm)?;
    let mut b = begin(two, stm)?;
    let found = alternate(&mut a, &mut b, stm.objects(), steps);
    if !rests(&a) || !rests(&b) {
        return None;
    }
    let commits = [commit(a), commit(b)];
    Some((found, commits))
}

// Each of two callers reads what the other one opens for writing, and commits. Then the second of them alone does.
fn cross_and_again(
    stm: &TlStm<AnyLaw>,
    one: &mut TlCaller<AnyLaw>,
    two: &mut TlCaller<AnyLaw>,
) -> Option<(Crossed, Option<Done>)>
    requires homes { (one.old.home ≡ stm.now) × (two.old.home ≡ stm.now) }
{
    let met = cross(stm, one, two, [Read(0), Read(1), Open(1), Open(0)])?;
    let alone = once(two, stm, [Read(1), Open(0), Nothing, Nothing], End::Commit);
    Some((met, alone))
}

// The same, and how many numbers each has drawn.
fn crossed(alloc: Global) -> Result<(Option<(Crossed, Option<Done>)>, [u64; 2]), Fail> {
    let mut pair = two_callers(alloc, 2)?;
    let met = cross_and_again(&pair.stm, &mut pair.one, &mut pair.two);
    Ok((met, [pair.one.draws(), pair.two.draws()]))
}

// The second of a crossed pair had drawn 1.
#[test]
fn of_a_crossed_pair_the_first_commits(rt: HostRuntime) -> Result<(), Fail> {
    let met = crossed(rt.alloc())?;
    let zero = Some(Ok(low(0)));
    let commits = [Some(Ok(0)), Some(Err(TlAgain::Changed(1)))];
    let alone = Some(([zero, zero, None, None], Some(Ok(2))));
    assert!(rt; met == (Some((([zero, zero, zero, zero], commits), alone)), [1, 2]));
    Ok(())
}

// An object is written after an attempt has begun. Then the first caller tries again.
fn overtake(
    stm: &TlStm<AnyLaw>,
    one: &mut TlCaller<AnyLaw>,
    two: &mut TlCaller<AnyLaw>,
) -> Option<(Met, Option<Done>)>
    requires homes { (one.old.home ≡ stm.now) × (two.old.home ≡ stm.now) }
{
    let none = [Nothing; 4];
    let set = only(Set(0, low(7)));
    let read = only(Read(0));
    let met = meet(stm, one, two, none, set, End::Commit, read, End::Abandon)?;
    let again = once(one, stm, read, End::Drop);
    Some((met, again))
}

fn overtaken(alloc: Global) -> Result<Option<(Met, Option<Done>)>, Fail> {
    let mut pair = two_callers(alloc, 1)?;
    Ok(overtake(&pair.stm, &mut pair.one, &mut pair.two))
}

#[test]
fn an_attempt_meets_a_newer_version(rt: HostRuntime) -> Result<(), Fail> {
    let met = overtaken(rt.alloc())?;
    let other = Some(([Some(Ok(low(0))), None, None, None], Some(Ok(0))));
    let newer = [Some(Err(TlAgain::Newer(0))), None, None, None];
    let again = Some(([Some(Ok(low(7))), None, None, None], None));
    assert!(rt; met == Some((([None; 4], other, (newer, None)), again)));
    Ok(())
}

// Commits what is locked.
fn finish(locked: TlLocked<'_, AnyLaw>) -> Answer
    requires locked { HasLocked locked.caller.now }
    ensures home { locked.exit.0.now.home ≡ locked.entry.caller.now.home }
{
    Some(locked.finish())
}

// Lets what is locked go as it is.
fn drop_locked(locked: TlLocked<'_, AnyLaw>)
    ensures home { locked.exit.0.now.home ≡ locked.entry.caller.now.home }
{
    let _locked = locked;
}

// What the steps before a lock were answered, another attempt while it was held, and the commit.
type Held = ([Found; 4], Option<Done>, Answer);

// Makes an attempt of another caller while one has locked what it opened for writing, which commits then or goes away.
fn lock(
    stm: &TlStm<AnyLaw>,
    one: &mut TlCaller<AnyLaw>,
    two: &mut TlCaller<AnyLaw>,
    steps: [Step; 4],
    between: [Step; 4],
    end: End,
) -> Option<Held>
    requires homes { (one.old.home ≡ stm.now) × (two.old.home ≡ stm.now) }
    ensures homes { IfSome result (λ _. (one.new.home ≡ stm.now) × (two.new.home ≡ stm.now)) }
{
    let mut a = begin(one, stm)?;
    let found = play(&mut a, stm.objects(), steps);
    if !rests(&a) {
        return None;
    }
    let Ok(locked) = a.lock() else {
        return None;
    };
    let other = once(two, stm, between, End::Drop);
    if matches!(end, End::Commit) {
        return Some((found, other, finish(locked)));
    }
    drop_locked(locked);
    Some((found, other, None))
}

fn locked(alloc: Global) -> Result<Option<Held>, Fail> {
    let steps = [Read(0), Open(0), Nothing, Nothing];
    let between = only(Read(0));
    let mut pair = two_callers(alloc, 1)?;
    let (stm, end) = (&pair.stm, End::Commit);
    Ok(lock(stm, &mut pair.one, &mut pair.two, steps, between, end))
}

// An object is read while another attempt has it locked, which commits then.
#[test]
fn an_attempt_meets_a_lock(rt: HostRuntime) -> Result<(), Fail> {
    let met = locked(rt.alloc())?;
    let zero = Some(Ok(low(0)));
    let other = Some(([Some(Err(TlAgain::Locked(0))), None, None, None], None));
    assert!(rt; met == Some(([zero, zero, None, None], other, Some(Ok(0)))));
    Ok(())
}

// Takes a caller back.
fn retire(founder: &mut TlFounder<AnyLaw>, stm: &TlStm<AnyLaw>, caller: TlCaller<AnyLaw>)
    requires table { founder.old.home ≡ stm.now }
    requires caller { caller.home ≡ stm.now }
    ensures table { founder.new.home ≡ stm.now }
{
    founder.retire(stm, caller);
}

// Closes a table of which all callers are back: its values.
fn close(alloc: Global, stm: TlStm<AnyLaw>, founder: TlFounder<AnyLaw>) -> Result<Vec<Val>, Fail>
    requires table { founder.home ≡ stm }
{
    if founder.out() > 0 {
        return Err(Fail::new("a caller is out"));
    }
    let (values, _record) = stm.close(alloc, founder)?;
    Ok(values)
}

// Retires both callers and closes their table: its values.
fn close_both(alloc: Global, pair: Pair) -> Result<Vec<Val>, Fail>
    requires homes { (pair.one.home ≡ pair.stm) × (pair.two.home ≡ pair.stm) }
    requires founder { pair.founder.home ≡ pair.stm }
{
    let Pair {
        stm,
        founder,
        one,
        two,
    } = pair;
    let mut founder = founder;
    retire(&mut founder, &stm, one);
    retire(&mut founder, &stm, two);
    close(alloc, stm, founder)
}

// Tells whether an attempt that reads the first object finds this, and commits under this number.
fn reads(stm: &TlStm<AnyLaw>, caller: &mut TlCaller<AnyLaw>, found: Found, number: Answer) -> bool
    requires home { caller.old.home ≡ stm.now }
    ensures home { caller.new.home ≡ stm.now }
{
    let done = once(caller, stm, only(Read(0)), End::Commit);
    done == Some(([found, None, None, None], number))
}

const FIVE: Val = Val { low: 5, high: 6 };

// Whether a caller is the only one of its table, whether its attempt has found what it was to find, what it is answered
// when it tries again, and how many were out.
type Spent = (bool, bool, Option<Done>, u32);

// The only caller of a table reads, tries again and goes.
fn read_twice(
    alloc: Global,
    stm: &TlStm<AnyLaw>,
    founder: &mut TlFounder<AnyLaw>,
) -> Result<Spent, Fail>
    requires table { founder.old.home ≡ stm.now }
    ensures table { founder.new.home ≡ stm.now }
{
    let mut one = caller(alloc, stm, founder)?;
    let is_full = matches!(founder.caller(alloc, stm), Err(TlEnrol::Full));
    let is_five = reads(stm, &mut one, Some(Ok(FIVE)), Some(Ok(0)));
    let again = once(&mut one, stm, only(Nothing), End::Drop);
    let out = founder.out();
    retire(founder, stm, one);
    Ok((is_full, is_five, again, out))
}

#[test]
fn a_caller_with_one_attempt_is_spent_after_it(rt: HostRuntime) -> Result<(), Fail> {
    let alloc = rt.alloc();
    let start = vec![in alloc; FIVE]?;
    let (stm, mut founder) = TlStm::make(alloc, start, 1, 1, AnyLaw)?;
    let found = read_twice(alloc, &stm, &mut founder)?;
    assert!(rt; founder.out() == 0);
    let values = close(alloc, stm, founder)?;
    assert!(rt; found == (true, true, None, 1));
    assert!(rt; values.as_slice() == [FIVE].as_slice());
    Ok(())
}

// The first caller locks the object, having set it, and goes away.
fn lock_and_drop(
    stm: &TlStm<AnyLaw>,
    one: &mut TlCaller<AnyLaw>,
    two: &mut TlCaller<AnyLaw>,
) -> Option<Held>
    requires homes { (one.old.home ≡ stm.now) × (two.old.home ≡ stm.now) }
    ensures homes { IfSome result (λ _. (one.new.home ≡ stm.now) × (two.new.home ≡ stm.now)) }
{
    let sets = only(Set(0, low(9)));
    lock(stm, one, two, sets, [Nothing; 4], End::Drop)
}

// What is locked by an attempt that was dropped stays so until its caller begins again. Then it locks and is dropped
// again.
fn holds_locks(stm: &TlStm<AnyLaw>, one: &mut TlCaller<AnyLaw>, two: &mut TlCaller<AnyLaw>) -> bool
    requires homes { (one.old.home ≡ stm.now) × (two.old.home ≡ stm.now) }
    ensures homes { result ≡ true → (one.new.home ≡ stm.now) × (two.new.home ≡ stm.now) }
{
    let zero = Some(Ok(low(0)));
    let locked = Some(Err(TlAgain::Locked(0)));
    let held = ([zero, None, None, None], Some(([None; 4], None)), None);
    let Some(first) = lock_and_drop(stm, one, two) else {
        return false;
    };
    let is_held = reads(stm, two, locked, None);
    let ended = once(one, stm, [Nothing; 4], End::Abandon);
    let is_free = reads(stm, two, zero, Some(Ok(0)));
    let Some(second) = lock_and_drop(stm, one, two) else {
        return false;
    };
    let are_dropped = first == held && second == held;
    are_dropped && is_held && is_free && ended == Some(([None; 4], None))
}

// A caller whose attempt was dropped is retired, too, and then its lock is free.
#[test]
fn a_dropped_attempt_holds_its_locks(rt: HostRuntime) -> Result<(), Fail> {
    let mut pair = two_callers(rt.alloc(), 1)?;
    assert!(rt; holds_locks(&pair.stm, &mut pair.one, &mut pair.two));
    let Pair {
        stm,
        founder,
        one,
        two,
    } = pair;
    let mut founder = founder;
    retire(&mut founder, &stm, one);
    let mut two = two;
    assert!(rt; reads(&stm, &mut two, Some(Ok(low(0))), Some(Ok(1))));
    retire(&mut founder, &stm, two);
    let values = close(rt.alloc(), stm, founder)?;
    assert!(rt; values.as_slice() == [low(0)].as_slice());
    Ok(())
}

// A second lock fails where another caller has committed since: the first one is given back.
fn gives_locks_back(
    stm: &TlStm<AnyLaw>,
    one: &mut TlCaller<AnyLaw>,
    two: &mut TlCaller<AnyLaw>,
    seven: Val,
) -> bool
    requires homes { (one.old.home ≡ stm.now) × (two.old.home ≡ stm.now) }
    ensures homes { result ≡ true → (one.new.home ≡ stm.now) × (two.new.home ≡ stm.now) }
{
    let sets = [Set(0, low(3)), Set(1, low(4)), Nothing, Nothing];
    let set = only(Set(1, seven));
    let none = [Nothing; 4];
    let Some(met) = meet(stm, one, two, sets, set, End::Commit, none, End::Commit) else {
        return false;
    };
    let zero = Some(Ok(low(0)));
    let other = Some(([zero, None, None, None], Some(Ok(0))));
    let failed = Some(Err(TlAgain::Changed(1)));
    let steps = [Read(0), Read(1), Nothing, Nothing];
    let both = once(two, stm, steps, End::Drop);
    met == ([zero, zero, None, None], other, ([None; 4], failed))
        && both == Some(([zero, Some(Ok(seven)), None, None], None))
}

#[test]
fn a_commit_that_fails_gives_its_locks_back(rt: HostRuntime) -> Result<(), Fail> {
    let mut pair = two_callers(rt.alloc(), 2)?;
    let seven = Val { low: 7, high: 8 };
    assert!(rt; gives_locks_back(&pair.stm, &mut pair.one, &mut pair.two, seven));
    assert!(rt; [pair.one.draws(), pair.two.draws()] == [0, 1]);
    let values = close_both(rt.alloc(), pair)?;
    assert!(rt; values.as_slice() == [low(0), seven].as_slice());
    Ok(())
}

// An object is set twice and read in between: what is answered, and whether the last value is read in the next attempt.
fn set_twice(stm: &TlStm<AnyLaw>, caller: &mut TlCaller<AnyLaw>) -> (Option<Done>, bool)
    requires home { caller.old.home ≡ stm.now }
{
    let sets = [Read(0), Set(0, low(3)), Read(0), Set(0, low(4))];
    let done = once(caller, stm, sets, End::Commit);
    let is_read = reads(stm, caller, Some(Ok(low(4))), Some(Ok(1)));
    (done, is_read)
}

fn is_set_twice(alloc: Global) -> Result<(Option<Done>, bool), Fail> {
    let mut pair = two_callers(alloc, 1)?;
    Ok(set_twice(&pair.stm, &mut pair.one))
}

#[test]
fn an_attempt_reads_what_it_has_set(rt: HostRuntime) -> Result<(), Fail> {
    let set = is_set_twice(rt.alloc())?;
    let zero = Some(Ok(low(0)));
    let three = Some(Ok(low(3)));
    assert!(rt; set == (Some(([zero, zero, three, three], Some(Ok(0)))), true));
    Ok(())
}
