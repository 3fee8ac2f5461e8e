// What the tests of DSTM's engine share: tables of zeros with two callers, and calls on an attempt whose contracts
// say no more than the tests need.
ghost use Rattle.std.specs.Prelude.{◌≡◌, ◌<◌, ◌≤◌, IfOk, IfSome, IsTrue};
ghost use Rattle.dstm_core.specs.Words.{IsValid};
ghost use Rattle.dstm_engine.specs.Callers.{is_live, shape_of};
ghost use Rattle.dstm_engine_tests.specs.Attempts.{GoesOn, IsSound};

use crate::tests::attempts::{Attempt, End, Step, alternate, low, play};
use dstm_core::{Manager, Shape};
use dstm_engine::{Caller, Founder, Spent, Stm, Tally, Tx};
use dstm_mem::Mem;
use dstm_model::{AnyLaw, Law};
use dstm_order::Again;
use std::alloc::Global;
use std::test::Fail;

pub type Answer = crate::tests::attempts::Answer<Again>;

pub type Found = crate::tests::attempts::Found<Again>;

pub type Done = crate::tests::attempts::Done<Again>;

// A table with two callers.
#[derive(Drop)]
pub struct Pair<L: Law> {
    pub stm: Stm<L>,
    pub one: Caller<L>,
    pub two: Caller<L>,
}

// A shape of a few objects for two callers, with four attempts and sixteen locators each.
pub fn shape(objects: u32, manager: Manager, all_write: bool) -> Shape
    requires objects { (0 < objects) × (objects ≤ 8) }
    ensures valid { IsValid result }
    ensures objects { result.objects ≡ objects }
{
    Shape {
        objects,
        callers: 2,
        attempts: 4,
        locators: 16,
        manager,
        all_write,
    }
}

// A shape with one object, and one attempt and one locator for each caller.
pub fn small(callers: u32, manager: Manager) -> Shape
    requires callers { (0 < callers) × (callers ≤ 2) }
    ensures valid { IsValid result }
    ensures objects { result.objects ≡ 1 }
    ensures callers { result.callers ≡ callers }
    ensures manager { result.manager ≡ manager }
{
    Shape {
        objects: 1,
        callers,
        attempts: 1,
        locators: 1,
        manager,
        all_write: false,
    }
}

// A table of this shape, whose values are all 0, with two callers.
pub fn two_callers(alloc: Global, shape: Shape) -> Result<Pair<AnyLaw>, Fail>
    requires valid { IsValid shape }
    ensures shape { IfOk result (λ p. p.stm.terms.shape ≡ shape) }
    ensures one { IfOk result (λ p. p.one.home ≡ p.stm) }
    ensures two { IfOk result (λ p. p.two.home ≡ p.stm) }
{
    let start = vec![in alloc; low(0); shape.objects as usize]?;
    let (stm, founder) = Stm::make(alloc, start, shape, AnyLaw)?;
    pair_of(alloc, stm, founder)
}

// A table and two callers of it.
pub fn pair_of<L: Law>(alloc: Global, stm: Stm<L>, founder: Founder<L>) -> Result<Pair<L>, Fail>
    requires table { founder.home ≡ stm }
    ensures stm { IfOk result (λ p. p.stm ≡ stm) }
    ensures one { IfOk result (λ p. p.one.home ≡ stm) }
    ensures two { IfOk result (λ p. p.two.home ≡ stm) }
{
    let mut founder = founder;
    let (one, two) = both(alloc, &stm, &mut founder)?;
    Ok(Pair { stm, one, two })
}

// Two new callers.
fn both<L: Law>(
    alloc: Global,
    stm: &Stm<L>,
    founder: &mut Founder<L>,
) -> Result<(Caller<L>, Caller<L>), Fail>
    requires table { founder.old.home ≡ stm.now }
    ensures callers { IfOk result (λ callers. (callers.0.home ≡ stm.now) × (callers.1.home ≡ stm.now)) }
{
    let one = caller(alloc, stm, founder)?;
    let two = caller(alloc, stm, founder)?;
    Ok((one, two))
}

// A new caller.
pub fn caller<L: Law>(
    alloc: Global,
    stm: &Stm<L>,
    founder: &mut Founder<L>,
) -> Result<Caller<L>, Fail>
    requires table { founder.old.home ≡ stm.now }
    ensures table { founder.new.home ≡ stm.now }
    ensures guests { founder.new.guests ≡ founder.old.guests }
    ensures caller { IfOk result (λ k. k.home ≡ stm.now) }
{
    match founder.caller(alloc, stm, 0) {
        Ok(caller) => Ok(caller),
        Err(_) => Err(Fail::new("no caller")),
    }
}

// Begins an attempt.
pub fn begin<'a>(caller: &'a mut Caller<AnyLaw>, stm: &'a Stm<AnyLaw>) -> Option<Tx<'a, AnyLaw>>
    requires table { caller.old.home ≡ stm.now }
    ensures reference { IfSome result (λ t. t.caller.ghost_name ≡ caller.entry.ghost_name) }
    ensures table { IfSome result (λ t. t.stm.now ≡ stm.now) }
    ensures home { IfSome result (λ t. t.caller.now.home ≡ stm.now) }
    ensures live { IfSome result (λ t. IsTrue (is_live t.caller.now)) }
{
    match caller.begin(stm) {
        Ok(tx) => Some(tx),
        Err(Spent) => None,
    }
}

impl Attempt for Tx<'_, AnyLaw> {
    fn is_live(&self) -> bool {
        Tx::is_live(self)
    }
}

// Lets a read go, if there is one.
pub fn release<'a>(tx: &mut Tx<'a, AnyLaw>, o: u32) -> bool
    requires exists { o < (shape_of tx.old.caller.now).objects }
    requires sound { IsSound ⟦<Tx<'a, AnyLaw> as Mem>⟧ tx.old }
    ensures { GoesOn ⟦<Tx<'a, AnyLaw> as Mem>⟧ tx.old tx.new }
{
    let is_read = tx.is_live() && tx.is_read(o);
    if is_read {
        tx.release(o);
    }
    is_read
}

// Commits, and answers the number that was drawn.
pub fn commit(tx: Tx<'_, AnyLaw>) -> Answer
    requires live { IsTrue (is_live tx.caller.now) }
    ensures home { tx.exit.0.now.home ≡ tx.entry.caller.now.home }
{
    Some(tx.commit())
}

// Quits an attempt.
pub fn abandon(tx: Tx<'_, AnyLaw>)
    ensures home { tx.exit.0.now.home ≡ tx.entry.caller.now.home }
{
    tx.abandon();
}

// Makes an attempt of these steps. None where the caller has none left.
pub fn once(
    caller: &mut Caller<AnyLaw>,
    stm: &Stm<AnyLaw>,
    steps: [Step; 4],
    end: End,
) -> Option<Done>
    requires table { caller.old.home ≡ stm.now }
    ensures home { caller.new.home ≡ stm.now }
{
    let mut tx = match caller.begin(stm) {
        Ok(tx) => tx,
        Err(Spent) => return None,
    };
    let found = play(&mut tx, stm.shape().objects, steps);
    if matches!(end, End::Drop) || !tx.is_live() {
        return Some((found, None));
    }
    if matches!(end, End::Abandon) {
        abandon(tx);
        return Some((found, None));
    }
    Some((found, commit(tx)))
}

// What two attempts were answered that meet: the first one at its steps before the other one, the other one, and the
// first one behind it.
pub type Met = ([Found; 4], Option<Done>, Done);

// Makes an attempt of another caller between the steps of one.
pub fn meet(
    stm: &Stm<AnyLaw>,
    one: &mut Caller<AnyLaw>,
    two: &mut Caller<AnyLaw>,
    before: [Step; 4],
    between: [Step; 4],
    ends: End,
    behind: [Step; 4],
    end: End,
) -> Option<Met>
    requires homes { (one.old.home ≡ stm.now) × (two.old.home ≡ stm.now) }
    ensures homes { IfSome result (λ _. (one.new.home ≡ stm.now) × (two.new.home ≡ stm.now)) }
{
    let mut a = begin(one, stm)?;
    let objects = stm.shape().objects;
    let first = play(&mut a, objects, before);
    let other = once(two, stm, between, ends);
    let last = play(&mut a, objects, behind);
    if matches!(end, End::Drop) || !a.is_live() {
        return Some((first, other, (last, None)));
    }
    if matches!(end, End::Abandon) {
        abandon(a);
        return Some((first, other, (last, None)));
    }
    Some((first, other, (last, commit(a))))
}

// What two attempts were answered whose steps alternate, and as each of them committed.
pub type Crossed = ([Found; 4], [Answer; 2]);

// Two callers begin, one after the other, make steps in turn and commit.
pub fn cross(
    stm: &Stm<AnyLaw>,
    one: &mut Caller<AnyLaw>,
    two: &mut Caller<AnyLaw>,
    steps: [Step; 4],
) -> Option<Crossed>
    requires homes { (one.old.home ≡ stm.now) × (two.old.home ≡ stm.now) }
    ensures homes { IfSome result (λ _. (one.new.home ≡ stm.now) × (two.new.home ≡ stm.now)) }
{
    let mut a = begin(one, stm)?;
    let mut b = begin(two, stm)?;
    let found = alternate(&mut a, &mut b, stm.shape().objects, steps);
    if !a.is_live() || !b.is_live() {
        return None;
    }
    let commits = [commit(a), commit(b)];
    Some((found, commits))
}

pub fn tally(steps: u64, turns: u64, kills: u64) -> Tally {
    Tally {
        steps,
        turns,
        kills,
    }
}
