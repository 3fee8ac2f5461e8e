ghost use Rattle.std.specs.Prelude.{◌≡◌, ◌<◌, Some};
ghost use Rattle.dstm_core.specs.State.{first};
ghost use Rattle.dstm_core.specs.Words.{IsValid};
ghost use Rattle.dstm_words.specs.Seats.{view_of, caller_state, CanEnrol, IsOf, IsOut};

use crate::tests::calls::small;
use dstm_core::{Kind, Manager, Shape, Status};
use dstm_model::{AnyLaw, Law, Val};
use dstm_words::{CoreSeat, Words};
use std::test::Fail;

// What an attempt found in the first object and, as it quit, in its own status.
#[derive(Drop)]
struct Found {
    word: u64,
    status: Result<u64, u64>,
}

fn enrol<L: Law>(words: &Words<L>, shape: &Shape, seat: &mut CoreSeat<L>) -> u64
    requires shape { (words.now.terms.shape ≡ shape.now) × IsValid shape.now }
    requires seat { IsOf words.now seat.old }
    requires new { CanEnrol (view_of seat.old) }
    ensures seat { IsOf words.now seat.new }
    ensures number { result < shape.now.callers }
    ensures state { caller_state words.now.terms (view_of seat.new) ≡ record first { number = Some result } }
    ensures named { (view_of seat.new).number ≡ Some result }
    ensures kept { IsOut (view_of seat.old) → IsOut (view_of seat.new) }
{
    words.add(seat, Kind::Enrol, shape.callers_place())
}

// Begins an attempt, looks at the first object and quits.
fn try_once<L: Law>(words: &Words<L>, shape: &Shape, seat: &mut CoreSeat<L>, number: u64) -> Found
    requires shape { (words.now.terms.shape ≡ shape.now) × IsValid shape.now }
    requires polite { (shape.now.manager ≡ Manager.Polite) × (0 < shape.now.objects) }
    requires seat { IsOf words.now seat.old }
    requires number { number < shape.now.callers }
    requires state { caller_state words.now.terms (view_of seat.old) ≡ record first { number = Some number } }
    requires named { (view_of seat.old).number ≡ Some number }
    ensures seat { IsOf words.now seat.new }
    ensures kept { IsOut (view_of seat.old) → IsOut (view_of seat.new) }
{
    let active = Status::Active.code();
    let status = shape.status(number as u32 * shape.attempts);
    words.store(seat, Kind::Begin, status, active);
    let word = words.load(seat, Kind::LookObj, shape.object(0));
    let aborted = Status::Aborted.code();
    let status = words.exchange(seat, Kind::Quit, status, active, aborted);
    Found { word, status }
}

#[test]
fn one_caller(rt: HostRuntime) -> Result<(), Fail> {
    let shape = small(1, Manager::Polite);
    let start = [Val { low: 5, high: 0 }];
    let (words, mut first) = Words::make(rt.alloc(), shape, AnyLaw, start.as_slice())?;
    let mut seat = words.split(&mut first);
    let number = enrol(&words, &shape, &mut seat);
    assert!(rt; number == 0);
    let found = try_once(&words, &shape, &mut seat, number);
    assert!(rt; found.word == 0);
    assert!(rt; found.status == Ok(1));
    words.join(&mut first, seat);
    let left = words.close(rt.alloc(), first)?;
    assert!(rt; left.as_slice() == [0, 5, 0, 0, 0, 0, 0, 1, 0, 0].as_slice());
    Ok(())
}

// Two seats on one thread, whose events alternate. The one that is joined first knows the longer log.
#[test]
fn two_callers_in_turns(rt: HostRuntime) -> Result<(), Fail> {
    let shape = small(2, Manager::Polite);
    let start = [Val { low: 5, high: 0 }];
    let (words, mut first) = Words::make(rt.alloc(), shape, AnyLaw, start.as_slice())?;
    let mut one = words.split(&mut first);
    let mut two = words.split(&mut first);
    let second = enrol(&words, &shape, &mut two);
    let number = enrol(&words, &shape, &mut one);
    assert!(rt; (second, number) == (0, 1));
    let found = try_once(&words, &shape, &mut one, number);
    assert!(rt; found.word == 0);
    let found = try_once(&words, &shape, &mut two, second);
    assert!(rt; found.status == Ok(1));
    words.join(&mut first, two);
    words.join(&mut first, one);
    let left = words.close(rt.alloc(), first)?;
    let expected = [0, 5, 5, 0, 0, 0, 0, 0, 0, 0, 0, 0, 0, 2, 0, 0];
    assert!(rt; left.as_slice() == expected.as_slice());
    Ok(())
}
