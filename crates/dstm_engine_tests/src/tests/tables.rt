ghost use Rattle.std.specs.Prelude.{◌≡◌, ◌+◌, ◌≤◌};
ghost use Rattle.dstm_core.specs.Words.{IsValid};

use crate::tests::attempts::{End, Step, low};
use crate::tests::calls::{Answer, Done, caller, commit, once, small};
use crate::tests::founding::{close, is_full, retire, table_of};
use Step::{Nothing, Set};
use dstm_core::{Kind, Manager};
use dstm_engine::{Caller, Founder, Spent, Stm};
use dstm_model::{AnyLaw, Val};
use dstm_order::Again;
use std::alloc::{AllocError, Global};
use std::test::Fail;

const SET_NINE: [Step; 4] = [Set(0, Val { low: 9, high: 0 }), Nothing, Nothing, Nothing];

// The only caller of a table sets 9, and again, and goes: whether the table has no other one, and what it was answered.
fn set_twice(
    alloc: Global,
    stm: &Stm<AnyLaw>,
    founder: &mut Founder<AnyLaw>,
) -> Result<(bool, [Option<Done>; 2]), Fail>
    requires table { founder.old.home ≡ stm.now }
    ensures table { founder.new.home ≡ stm.now }
    ensures guests { founder.new.guests ≡ founder.old.guests }
{
    let mut one = caller(alloc, stm, founder)?;
    let is_alone = is_full(alloc, stm, founder);
    let first = once(&mut one, stm, SET_NINE, End::Commit);
    let second = once(&mut one, stm, SET_NINE, End::Commit);
    retire(founder, stm, one);
    Ok((is_alone, [first, second]))
}

// A table for one caller with one attempt has no second one of either. It closes with what the attempt has set.
#[test]
fn a_caller_with_one_attempt_is_spent_after_it(rt: HostRuntime) -> Result<(), Fail> {
    let alloc = rt.alloc();
    let (stm, mut founder) = table_of(alloc, low(0), small(1, Manager::Polite))?;
    let sets = set_twice(alloc, &stm, &mut founder)?;
    assert!(rt; founder.out() == 0);
    let values = close(alloc, stm, founder)?;
    let done = Some(([Some(Ok(low(0))), None, None, None], Some(Ok(0))));
    assert!(rt; sets == (true, [done, None]));
    assert!(rt; values.as_slice() == [low(9)].as_slice());
    Ok(())
}

// Two callers are given out and taken back: how many there were, and how many were out.
fn give_out_two(
    alloc: Global,
    stm: &Stm<AnyLaw>,
    founder: &mut Founder<AnyLaw>,
) -> Result<(usize, u32), AllocError>
    requires table { founder.old.home ≡ stm.now }
    requires room { founder.old.made + 2 ≤ stm.now.terms.shape.callers }
    ensures table { founder.new.home ≡ stm.now }
    ensures guests { founder.new.guests ≡ founder.old.guests }
{
    let callers = founder.callers(alloc, stm, 2)?;
    let counts = (callers.len(), founder.out());
    founder.retire_all(stm, callers);
    Ok(counts)
}

// Callers that are given out together are taken back together.
#[test]
fn callers_are_given_out_and_taken_back_together(rt: HostRuntime) -> Result<(), Fail> {
    let alloc = rt.alloc();
    let (stm, mut founder) = table_of(alloc, low(7), small(2, Manager::Polite))?;
    let counts = give_out_two(alloc, &stm, &mut founder)?;
    assert!(rt; founder.out() == 0);
    let values = close(alloc, stm, founder)?;
    assert!(rt; counts == (2, 2));
    assert!(rt; values.as_slice() == [low(7)].as_slice());
    Ok(())
}

// A guest draws a number on the table's words, and goes: the number, and whether there was no second guest.
fn draw(stm: &Stm<AnyLaw>, founder: &mut Founder<AnyLaw>) -> Option<(u64, bool)>
    requires table { founder.old.home ≡ stm.now }
    requires valid { IsValid stm.now.terms.shape }
    ensures table { founder.new.home ≡ stm.now }
{
    let mut seat = founder.guest(stm)?;
    let place = stm.shape().callers_place();
    let number = stm.words().add(&mut seat, Kind::Enrol, place);
    let is_alone = founder.guest(stm).is_none();
    founder.dismiss(stm, seat);
    Some((number, is_alone))
}

// A guest draws a number of its own on the table's words. The table closes without a record.
#[test]
fn a_guest_draws_a_number_of_its_own(rt: HostRuntime) -> Result<(), Fail> {
    let five = Val { low: 5, high: 1 };
    let (stm, mut founder) = table_of(rt.alloc(), five, small(1, Manager::Polite))?;
    let drawn = draw(&stm, &mut founder);
    assert!(rt; founder.out() == 0);
    let values = stm.close_plain(rt.alloc(), founder)?;
    assert!(rt; drawn == Some((0, true)));
    assert!(rt; values.as_slice() == [five].as_slice());
    Ok(())
}

// Whether reads are current together, and the commit.
type Rechecked = (Result<(), Again>, Answer);

// Makes sure of the reads of an attempt that has none, and commits.
fn recheck_and_commit(caller: &mut Caller<AnyLaw>, stm: &Stm<AnyLaw>) -> Option<Rechecked>
    requires table { caller.old.home ≡ stm.now }
    ensures home { caller.new.home ≡ stm.now }
{
    let mut tx = match caller.begin(stm) {
        Ok(tx) => tx,
        Err(Spent) => return None,
    };
    let rechecked = tx.recheck();
    if !tx.is_live() {
        return None;
    }
    Some((rechecked, commit(tx)))
}

// A new caller does so: what it is answered, whether its attempt is live then, and what it is answered when it tries again.
fn recheck_once(
    alloc: Global,
    stm: &Stm<AnyLaw>,
    founder: &mut Founder<AnyLaw>,
) -> Result<(Option<Rechecked>, bool, Option<Done>), Fail>
    requires table { founder.old.home ≡ stm.now }
{
    let mut one = caller(alloc, stm, founder)?;
    let rechecked = recheck_and_commit(&mut one, stm);
    let is_live = one.is_live();
    let again = once(&mut one, stm, [Nothing; 4], End::Drop);
    Ok((rechecked, is_live, again))
}

// An attempt that opens nothing is rechecked and commits, under the first number.
#[test]
fn an_attempt_that_opens_nothing_is_rechecked_and_commits(rt: HostRuntime) -> Result<(), Fail> {
    let alloc = rt.alloc();
    let (stm, mut founder) = table_of(alloc, low(5), small(1, Manager::Polite))?;
    let found = recheck_once(alloc, &stm, &mut founder)?;
    assert!(rt; found == (Some((Ok(()), Some(Ok(0)))), false, None));
    Ok(())
}
