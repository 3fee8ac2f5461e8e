ghost use Rattle.std.specs.Prelude.{◌≡◌, ◌≢◌, ◌*◌, ◌+◌, ◌<◌, ◌≤◌, [], ◌∷◌, Some, length, true};
ghost use Rattle.dstm_tl2.specs.Rules.{begin};
ghost use Rattle.dstm_tl2.specs.State.{first};
ghost use Rattle.dstm_tl2_words.specs.Seats.{view_of, caller_state, CanEnrol, IsOf, IsOut};

use dstm_model::{AnyLaw, Law, Val};
use dstm_tl2::Kind;
use dstm_tl2_words::{Tl2Seat, Words};
use std::test::Fail;
use std::thread::{Threads, join};

fn enrol<L: Law>(words: &Words<L>, objects: u64, seat: &mut Tl2Seat<L>) -> u64
    requires objects { length words.now.terms.start.value.items ≡ objects }
    requires few { objects ≤ 4 }
    requires seat { IsOf words.now seat.old }
    requires new { CanEnrol (view_of seat.old) }
    ensures seat { IsOf words.now seat.new }
    ensures state { caller_state words.now.terms (view_of seat.new) ≡ record first { number = Some result } }
    ensures named { (view_of seat.new).number ≡ Some result }
    ensures numbers { (view_of seat.new).numbers ≡ result ∷ (view_of seat.old).numbers }
    ensures kept { IsOut (view_of seat.old) → IsOut (view_of seat.new) }
{
    words.add(seat, Kind::Enrol, 3 * objects)
}

// Begins an attempt: the clock as it found it.
fn sample<L: Law>(words: &Words<L>, objects: u64, seat: &mut Tl2Seat<L>, number: u64) -> u64
    requires objects { length words.now.terms.start.value.items ≡ objects }
    requires few { objects ≤ 4 }
    requires attempts { 0 < words.now.terms.attempts }
    requires seat { IsOf words.now seat.old }
    requires state { caller_state words.now.terms (view_of seat.old) ≡ record first { number = Some number } }
    requires named { (view_of seat.old).number ≡ Some number }
    ensures seat { IsOf words.now seat.new }
    ensures state { caller_state words.now.terms (view_of seat.new)
        ≡ begin (record first { number = Some number }) result }
    ensures numbers { (view_of seat.new).numbers ≡ (view_of seat.old).numbers }
    ensures kept { IsOut (view_of seat.old) → IsOut (view_of seat.new) }
{
    words.load(seat, Kind::Sample, 3 * objects + 1)
}

// A caller of its own on a new seat.
fn visit<L: Law>(words: &Words<L>, objects: u64, seat: Tl2Seat<L>) -> (u64, Tl2Seat<L>)
    requires objects { length words.now.terms.start.value.items ≡ objects }
    requires few { objects ≤ 4 }
    requires attempts { 0 < words.now.terms.attempts }
    requires seat { IsOf words.now seat }
    requires new { CanEnrol (view_of seat) × IsOut (view_of seat) }
    ensures seat { IsOf words.now result.1 }
    ensures out { IsOut (view_of result.1) }
    ensures numbers { (view_of result.1).numbers ≡ result.0 ∷ (view_of seat).numbers }
{
    let mut seat = seat;
    let number = enrol(words, objects, &mut seat);
    let _clock = sample(words, objects, &mut seat, number);
    (number, seat)
}

// Two callers on two threads.
fn side_by_side<L: Law + Send + Sync, R: Threads + Sync>(
    rt: &R,
    words: &Words<L>,
    objects: u64,
    first: &mut Tl2Seat<L>,
) -> (u64, u64)
    requires objects { length words.now.terms.start.value.items ≡ objects }
    requires few { objects ≤ 4 }
    requires attempts { 0 < words.now.terms.attempts }
    requires seat { IsOf words.now first.old }
    requires first { ((view_of first.old).first ≡ true) × (1 < (view_of first.old).enrolments) }
    ensures seat { IsOf words.now first.new }
    ensures differ { result.0 ≢ result.1 }
{
    let one = words.split(first);
    let two = words.split(first);
    let (one, two) = join(
        rt,
        move || -> (u64, Tl2Seat<L>)
            requires { (length words.now.terms.start.value.items ≡ objects) × (objects ≤ 4)
                × (0 < words.now.terms.attempts)
                × IsOf words.now one × CanEnrol (view_of one) × IsOut (view_of one)
                × ((view_of one).numbers ≡ []) }
            ensures { IsOf words.entry.now result.1 × IsOut (view_of result.1)
                × ((view_of result.1).numbers ≡ result.0 ∷ []) }
        { visit(words, objects, one) },
        move || -> (u64, Tl2Seat<L>)
            requires { (length words.now.terms.start.value.items ≡ objects) × (objects ≤ 4)
                × (0 < words.now.terms.attempts)
                × IsOf words.now two × CanEnrol (view_of two) × IsOut (view_of two)
                × ((view_of two).numbers ≡ []) }
            ensures { IsOf words.entry.now result.1 × IsOut (view_of result.1)
                × ((view_of result.1).numbers ≡ result.0 ∷ []) }
        { visit(words, objects, two) },
    );
    words.join(first, one.1);
    words.join(first, two.1);
    (one.0, two.0)
}

#[test]
fn one_caller(rt: HostRuntime) -> Result<(), Fail> {
    let start = [Val { low: 5, high: 6 }];
    let (words, mut first) = Words::make(rt.alloc(), 1, 1, AnyLaw, start.as_slice())?;
    let mut seat = words.split(&mut first);
    let number = enrol(&words, 1, &mut seat);
    assert!(rt; number == 0);
    assert!(rt; sample(&words, 1, &mut seat, number) == 0);
    words.join(&mut first, seat);
    let left = words.close(rt.alloc(), first)?;
    assert!(rt; left.as_slice() == [0, 5, 6, 1, 0].as_slice());
    Ok(())
}

#[test]
fn two_callers_side_by_side(rt: HostRuntime) -> Result<(), Fail> {
    let start = [Val { low: 5, high: 6 }, Val { low: 7, high: 8 }];
    let (words, mut first) = Words::make(rt.alloc(), 2, 1, AnyLaw, start.as_slice())?;
    let (one, two) = side_by_side(&rt, &words, 2, &mut first);
    assert!(rt; (one.min(two), one.max(two)) == (0, 1));
    let left = words.close(rt.alloc(), first)?;
    assert!(rt; left.as_slice() == [0, 0, 5, 7, 6, 8, 2, 0].as_slice());
    Ok(())
}
