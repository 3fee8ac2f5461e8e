// A guest that plays events on the words of a table, each of which the local rules allow.
ghost use Rattle.std.specs.Prelude.{◌≡◌, true, IfOk, IfSome};
ghost use Rattle.dstm_core.specs.Rules.{AllowedAs};
ghost use Rattle.dstm_core.specs.Words.{IsValid};
ghost use Rattle.dstm_words.specs.Seats.{caller_state, view_of};
ghost use Rattle.dstm_engine_tests.specs.Guests.{
  GoesOnBy,
  IsGuest,
  IsTracked,
  is_add,
  is_exchange,
  is_load,
  is_store,
};

use crate::tests::attempts::{End, Step, low};
use crate::tests::calls::{Done, caller, once, small, tally};
use crate::tests::founding::{close_plain, retire, table_of};
use dstm_core::{Event, Kind, Local, Manager, Shape};
use dstm_engine::{Founder, Stm, Tally};
use dstm_model::{AnyLaw, Val};
use dstm_words::{CoreSeat, Words};
use std::alloc::{AllocError, Global};
use std::test::Fail;

// Makes an event that the rules allow, and answers what it found.
fn add(words: &Words<AnyLaw>, seat: &mut CoreSeat<AnyLaw>, event: &Event) -> u64
    requires guest { IsGuest words.now seat.old }
    requires adds { is_add event.now.kind ≡ true }
    requires allowed { AllowedAs event.now.kind words.now.terms.shape
        (caller_state words.now.terms (view_of seat.old)) event.now }
    ensures { GoesOnBy words.now seat.old seat.new event.now result }
{
    words.add(seat, event.kind, event.place)
}

fn load(words: &Words<AnyLaw>, seat: &mut CoreSeat<AnyLaw>, event: &Event) -> u64
    requires guest { IsGuest words.now seat.old }
    requires loads { is_load event.now.kind ≡ true }
    requires allowed { AllowedAs event.now.kind words.now.terms.shape
        (caller_state words.now.terms (view_of seat.old)) event.now }
    ensures { GoesOnBy words.now seat.old seat.new event.now result }
{
    words.load(seat, event.kind, event.place)
}

fn store(words: &Words<AnyLaw>, seat: &mut CoreSeat<AnyLaw>, event: &Event)
    requires guest { IsGuest words.now seat.old }
    requires stores { is_store event.now.kind ≡ true }
    requires allowed { AllowedAs event.now.kind words.now.terms.shape
        (caller_state words.now.terms (view_of seat.old)) event.now }
    ensures { GoesOnBy words.now seat.old seat.new event.now event.now.found }
{
    words.store(seat, event.kind, event.place, event.put)
}

fn exchange(words: &Words<AnyLaw>, seat: &mut CoreSeat<AnyLaw>, event: &Event) -> u64
    requires guest { IsGuest words.now seat.old }
    requires exchanges { is_exchange event.now.kind ≡ true }
    requires found { event.now.expected ≡ event.now.found }
    requires allowed { AllowedAs event.now.kind words.now.terms.shape
        (caller_state words.now.terms (view_of seat.old)) event.now }
    ensures { GoesOnBy words.now seat.old seat.new event.now result }
{
    match words.exchange(seat, event.kind, event.place, event.expected, event.put) {
        Ok(found) | Err(found) => found,
    }
}

// The same for each kind of event that a guest makes.
fn make(words: &Words<AnyLaw>, seat: &mut CoreSeat<AnyLaw>, event: &Event) -> Option<u64>
    requires guest { IsGuest words.now seat.old }
    requires found { event.now.expected ≡ event.now.found }
    requires allowed { AllowedAs event.now.kind words.now.terms.shape
        (caller_state words.now.terms (view_of seat.old)) event.now }
    ensures { IfSome result (λ found. GoesOnBy words.now seat.old seat.new event.now found) }
{
    match event.kind {
        Kind::Enrol | Kind::Draw => Some(add(words, seat, event)),
        Kind::LookObj | Kind::LookNumber | Kind::LookSelf => Some(load(words, seat, event)),
        Kind::Rank | Kind::Begin | Kind::PutOwner | Kind::PutOld | Kind::PutHigh | Kind::PutNew => {
            store(words, seat, event);
            Some(event.found)
        }
        Kind::Install | Kind::Validating | Kind::Commit => Some(exchange(words, seat, event)),
        _ => None,
    }
}

// Makes an event where the rules allow it. It tells whether they did, and the event found what it was to find.
fn act(
    words: &Words<AnyLaw>,
    seat: &mut CoreSeat<AnyLaw>,
    local: &mut Local,
    event: &Event,
) -> Result<bool, AllocError>
    requires guest { IsGuest words.now seat.old }
    requires tracked { IsTracked words.now seat.old local.old }
    ensures { IfOk result (λ yes. yes ≡ true → IsGuest words.now seat.new × IsTracked words.now seat.new local.new) }
{
    if event.expected != event.found || !local.next(event)? {
        return Ok(false);
    }
    match make(words, seat, event) {
        Some(found) => Ok(found == event.found),
        None => Ok(false),
    }
}

// An event of the guest: its kind, the place of its word, what this holds, and what is put there.
type Row = (Kind, u64, u64, u64);

// The guest opens the object for writing, sets 9 and commits.
const COMMITS: [Row; 15] = [
    (Kind::Enrol, 13, 0, 1),
    (Kind::Rank, 3, 0, 0),
    (Kind::Begin, 1, 0, 1),
    (Kind::LookObj, 0, 0, 0),
    (Kind::PutOwner, 5, 0, 0),
    (Kind::PutOld, 7, 0, 0),
    (Kind::Install, 0, 0, 1),
    (Kind::LookNumber, 14, 0, 0),
    (Kind::LookSelf, 1, 1, 1),
    (Kind::Rank, 3, 0, 1),
    (Kind::PutHigh, 11, 0, 0),
    (Kind::PutNew, 9, 0, 9),
    (Kind::Validating, 1, 1, 3),
    (Kind::Draw, 14, 0, 1),
    (Kind::Commit, 1, 3, 4),
];

fn event_of(row: Row) -> Event {
    let (kind, place, found, put) = row;
    Event {
        caller: 0,
        kind,
        place,
        expected: found,
        found,
        put,
    }
}

// The guest makes its first events, up to this one. Under Polite there are no ranks.
fn play(
    alloc: Global,
    words: &Words<AnyLaw>,
    seat: CoreSeat<AnyLaw>,
    shape: &Shape,
    last: usize,
) -> Result<CoreSeat<AnyLaw>, Fail>
    requires shape { (words.now.terms.shape ≡ shape.now) × IsValid shape.now }
    requires guest { IsGuest words.now seat }
    requires new { (view_of seat).number ≡ None }
    ensures { IfOk result (IsGuest words.entry.now) }
{
    let mut seat = seat;
    let mut local = Local::start(alloc, shape)?;
    for row in COMMITS.iter().take(last) {
        if shape.manager == Manager::Polite && row.0 == Kind::Rank {
            continue;
        }
        if !act(words, &mut seat, &mut local, &event_of(*row))? {
            return Err(Fail::new("not as it was to be"));
        }
    }
    Ok(seat)
}

// A guest of a table that has made its first events, up to this one.
fn stopped(
    alloc: Global,
    stm: &Stm<AnyLaw>,
    founder: &mut Founder<AnyLaw>,
    shape: &Shape,
    last: usize,
) -> Result<CoreSeat<AnyLaw>, Fail>
    requires table { founder.old.home ≡ stm.now }
    requires shape { (stm.now.terms.shape ≡ shape.now) × IsValid shape.now }
    ensures table { founder.new.home ≡ stm.now }
    ensures guest { IfOk result (IsGuest stm.now) }
{
    match founder.guest(stm) {
        Some(guest) => play(alloc, stm.words(), guest, shape, last),
        None => Err(Fail::new("no guest")),
    }
}

// What a caller gets that opens the guest's object and commits, and its counts.
type Visit = (Option<Done>, Tally);

// A new caller opens the object, commits and goes.
fn visit(alloc: Global, stm: &Stm<AnyLaw>, founder: &mut Founder<AnyLaw>) -> Result<Visit, Fail>
    requires table { founder.old.home ≡ stm.now }
    ensures table { founder.new.home ≡ stm.now }
{
    let mut one = caller(alloc, stm, founder)?;
    let opens = [Step::Open(0), Step::Nothing, Step::Nothing, Step::Nothing];
    let done = once(&mut one, stm, opens, End::Commit);
    let counts = one.tally();
    retire(founder, stm, one);
    Ok((done, counts))
}

// What a caller gets that comes after this event of the guest, where there is no second guest.
fn come(
    alloc: Global,
    stm: &Stm<AnyLaw>,
    founder: &mut Founder<AnyLaw>,
    shape: &Shape,
    last: usize,
) -> Result<Visit, Fail>
    requires table { founder.old.home ≡ stm.now }
    requires shape { (stm.now.terms.shape ≡ shape.now) × IsValid shape.now }
    ensures table { founder.new.home ≡ stm.now }
{
    let seat = stopped(alloc, stm, founder, shape, last)?;
    let (done, counts) = visit(alloc, stm, founder)?;
    let is_full = founder.guest(stm).is_none();
    founder.dismiss(stm, seat);
    Ok((if is_full { done } else { None }, counts))
}

// What it found and drew, its counts, and what is left.
type Outcome = (Done, Tally, u64);

fn after_guest(alloc: Global, manager: Manager, last: usize) -> Result<Outcome, Fail> {
    let shape = small(2, manager);
    let (stm, mut founder) = table_of(alloc, low(5), shape)?;
    let (done, counts) = come(alloc, &stm, &mut founder, &shape, last)?;
    let values = close_plain(alloc, stm, founder)?;
    let Some(done) = done else {
        return Err(Fail::new("spent, or a second guest"));
    };
    let [left] = values.as_slice() else {
        return Err(Fail::new("one object"));
    };
    Ok((done, counts, left.low))
}

fn outcome(value: u64, number: u64, counts: Tally) -> Outcome {
    let found = [Some(Ok(low(value))), None, None, None];
    ((found, Some(Ok(number))), counts, value)
}

// The number that the caller draws after this event of the guest, whose Draw is the last but one.
fn number_after(last: usize) -> u64 {
    u64::from(last >= 14)
}

#[test]
fn a_guest_that_stops_is_waited_for_and_killed_by_rank(rt: HostRuntime) -> Result<(), Fail> {
    for last in 1..=15 {
        let expected = match last {
            ..=6 => outcome(5, 0, tally(13, 0, 0)),
            7..=9 => outcome(5, 0, tally(22, 4, 1)),
            10..=14 => outcome(5, number_after(last), tally(26, 8, 1)),
            _ => outcome(9, 1, tally(17, 0, 0)),
        };
        let came = after_guest(rt.alloc(), Manager::Karma, last)?;
        assert!(rt; came == expected);
    }
    Ok(())
}

#[test]
fn a_guest_that_stops_is_killed_after_eight_waits(rt: HostRuntime) -> Result<(), Fail> {
    for last in 7..=14 {
        let came = after_guest(rt.alloc(), Manager::Polite, last)?;
        let turns = came.1.turns;
        assert!(rt; (8..=1_020).contains(&turns));
        assert!(rt; came == outcome(5, number_after(last), tally(turns + 16, turns, 1)));
    }
    Ok(())
}

#[test]
fn a_guest_of_no_rank_is_killed_after_one_turn(rt: HostRuntime) -> Result<(), Fail> {
    for last in 7..=9 {
        let came = after_guest(rt.alloc(), Manager::Polka, last)?;
        assert!(rt; came == outcome(5, 0, tally(19, 1, 1)));
    }
    Ok(())
}
