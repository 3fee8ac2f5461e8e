ghost use Rattle.dstm_core.specs.Words.{IsValid};

use crate::tests::calls::small;
use crate::tests::rows::{Row, event_of, events_of};
use dstm_core::{Event, Kind, Local, Manager, Replay, Shape, Status, replay};
use std::alloc::{AllocError, Global};
use std::test::Fail;

// What the first events of a trace are found to be with another event after them.
fn replay_with(
    alloc: Global,
    shape: &Shape,
    trace: &[Event],
    count: usize,
    last: Row,
) -> Result<Replay, AllocError>
    requires { IsValid shape.now }
{
    let mut events: Vec<Event> = trace.iter().take(count).copied().collect(alloc)?;
    events.push(event_of(last))?;
    replay(alloc, shape, &events)
}

// Tells whether each of these rows breaks the rules behind so many events of a trace.
fn break_rules(
    alloc: Global,
    shape: &Shape,
    trace: &[Event],
    rows: &[(usize, Row)],
) -> Result<bool, AllocError>
    requires { IsValid shape.now }
{
    for (count, last) in rows {
        if replay_with(alloc, shape, trace, *count, *last)? != Replay::Broken(*count as u64) {
            return Ok(false);
        }
    }
    Ok(true)
}

// One caller opens an object and commits.
const COMMITS: [Row; 11] = [
    (0, Kind::Enrol, 7, 0, 0, 1),
    (0, Kind::Begin, 1, 0, 0, 1),
    (0, Kind::LookObj, 0, 0, 0, 0),
    (0, Kind::PutOwner, 3, 0, 0, 0),
    (0, Kind::PutOld, 4, 0, 0, 0),
    (0, Kind::Install, 0, 0, 0, 1),
    (0, Kind::PutHigh, 6, 0, 0, 0),
    (0, Kind::PutNew, 5, 0, 0, 9),
    (0, Kind::Validating, 1, 1, 1, 3),
    (0, Kind::Draw, 8, 0, 0, 1),
    (0, Kind::Commit, 1, 3, 3, 4),
];

#[test]
fn one_caller_commits(rt: HostRuntime) -> Result<(), Fail> {
    let shape = small(1, Manager::Polite);
    let trace = events_of(rt.alloc(), &COMMITS)?;
    assert!(rt; replay(rt.alloc(), &shape, &trace)? == Replay::Run);
    // There is no number, and another status is found.
    let broken = [
        (9, (0, Kind::Commit, 1, 3, 3, 4)),
        (10, (0, Kind::Commit, 1, 3, 1, 4)),
    ];
    assert!(rt; break_rules(rt.alloc(), &shape, &trace, &broken)?);
    Ok(())
}

// A caller reads an object and lets it go, writes another one and commits. In its next attempt it
// reads what it wrote.
const ALONE: [Row; 24] = [
    (0, Kind::Enrol, 16, 0, 0, 1),
    (0, Kind::Begin, 2, 0, 0, 1),
    (0, Kind::LookObj, 0, 0, 0, 0),
    (0, Kind::LookNumber, 17, 0, 0, 0),
    (0, Kind::Check, 0, 0, 0, 0),
    (0, Kind::LookSelf, 2, 1, 1, 1),
    (0, Kind::Release, 0, 0, 0, 0),
    (0, Kind::LookObj, 1, 0, 0, 0),
    (0, Kind::PutOwner, 8, 0, 0, 0),
    (0, Kind::PutOld, 10, 0, 0, 0),
    (0, Kind::Install, 1, 0, 0, 1),
    (0, Kind::PutHigh, 14, 0, 0, 0),
    (0, Kind::PutNew, 12, 0, 0, 9),
    (0, Kind::Validating, 2, 1, 1, 3),
    (0, Kind::Draw, 17, 0, 0, 1),
    (0, Kind::Commit, 2, 3, 3, 4),
    (0, Kind::Begin, 3, 0, 0, 1),
    (0, Kind::LookObj, 1, 1, 1, 1),
    (0, Kind::LookOwner, 8, 0, 0, 0),
    (0, Kind::LookStatus, 2, 4, 4, 4),
    (0, Kind::LookHigh, 14, 0, 0, 0),
    (0, Kind::LookNew, 12, 9, 9, 9),
    (0, Kind::LookNumber, 17, 1, 1, 1),
    (0, Kind::Quit, 3, 1, 1, 5),
];

// After so many of these events another one is refused: ..
const ALONE_BROKEN: [(usize, Row); 21] = [
    // it does not add
    (0, (0, Kind::Enrol, 16, 0, 0, 2)),
    // there is no attempt
    (1, (0, Kind::LookNumber, 17, 0, 0, 0)),
    (1, (0, Kind::LookObj, 0, 0, 0, 0)),
    // the attempt has begun
    (2, (0, Kind::Begin, 3, 0, 0, 1)),
    // no read is recorded
    (3, (0, Kind::Release, 0, 0, 0, 0)),
    // the read is not checked
    (4, (0, Kind::LookSelf, 2, 1, 1, 1)),
    // every read is checked
    (5, (0, Kind::Check, 0, 0, 0, 0)),
    // another attempt is put
    (8, (0, Kind::PutOwner, 8, 0, 0, 1)),
    // the locator holds no attempt
    (8, (0, Kind::PutOld, 10, 0, 0, 0)),
    // it holds no version
    (9, (0, Kind::Install, 1, 0, 0, 1)),
    // no locator is installed
    (10, (0, Kind::PutHigh, 14, 0, 0, 0)),
    // the object is open for writing
    (11, (0, Kind::LookObj, 1, 1, 1, 1)),
    // the high part is not put
    (11, (0, Kind::PutNew, 12, 0, 0, 9)),
    // the low part is not put
    (12, (0, Kind::Validating, 2, 1, 1, 3)),
    // the attempt does not validate
    (13, (0, Kind::Draw, 17, 0, 0, 1)),
    // it has drawn no number
    (14, (0, Kind::Commit, 2, 3, 3, 4)),
    // there is no attempt
    (16, (0, Kind::Quit, 2, 0, 4, 4)),
    // no object is looked at
    (17, (0, Kind::LookOwner, 8, 0, 0, 0)),
    // the owner is not known
    (18, (0, Kind::LookStatus, 2, 4, 4, 4)),
    // the version is not known
    (19, (0, Kind::LookHigh, 14, 0, 0, 0)),
    // the high part is not known
    (20, (0, Kind::LookNew, 12, 9, 9, 9)),
];

#[test]
fn a_caller_alone_keeps_the_rules(rt: HostRuntime) -> Result<(), Fail> {
    let shape = Shape {
        callers: 1,
        attempts: 3,
        manager: Manager::Polite,
        ..GREEDY
    };
    let trace = events_of(rt.alloc(), &ALONE)?;
    assert!(rt; replay(rt.alloc(), &shape, &trace)? == Replay::Run);
    assert!(rt; break_rules(rt.alloc(), &shape, &trace, &ALONE_BROKEN)?);
    Ok(())
}

// The stamps of callers 0 and 2: the older of the two has stamp 1.
#[derive(Drop)]
struct Stamps {
    older: u32,
    younger: u32,
    first: u64,
    third: u64,
}

// Under Greedy caller 1, with stamp 0, owns object 0. Caller 0 owns object 1, meets caller 1 and
// pauses. Caller 2 meets caller 0 on object 1 and finds it waiting.
fn meeting(stamps: &Stamps) -> [Row; 33] {
    [
        (0, Kind::Enrol, 32, 0, 0, 1),
        (1, Kind::Enrol, 32, 1, 1, 2),
        (2, Kind::Enrol, 32, 2, 2, 3),
        (1, Kind::Stamp, 34, 0, 0, 1),
        (1, Kind::Rank, 6, 0, 0, 0),
        (1, Kind::Begin, 3, 0, 0, 1),
        (1, Kind::LookObj, 0, 0, 0, 0),
        (1, Kind::PutOwner, 10, 0, 0, 1),
        (1, Kind::PutOld, 16, 0, 0, 0),
        (1, Kind::Install, 0, 0, 0, 3),
        (1, Kind::LookNumber, 33, 0, 0, 0),
        (1, Kind::LookSelf, 3, 1, 1, 1),
        (stamps.older, Kind::Stamp, 34, 1, 1, 2),
        (stamps.younger, Kind::Stamp, 34, 2, 2, 3),
        (2, Kind::Rank, 7, 0, 0, stamps.third),
        (2, Kind::Begin, 4, 0, 0, 1),
        (0, Kind::Rank, 5, 0, 0, stamps.first),
        (0, Kind::Begin, 2, 0, 0, 1),
        (0, Kind::LookObj, 1, 0, 0, 0),
        (0, Kind::PutOwner, 8, 0, 0, 0),
        (0, Kind::PutOld, 14, 0, 0, 0),
        (0, Kind::Install, 1, 0, 0, 1),
        (0, Kind::LookNumber, 33, 0, 0, 0),
        (0, Kind::LookSelf, 2, 1, 1, 1),
        (0, Kind::LookObj, 0, 3, 3, 3),
        (0, Kind::LookOwner, 10, 1, 1, 1),
        (0, Kind::LookStatus, 3, 1, 1, 1),
        (0, Kind::LookRank, 6, 0, 0, 0),
        (0, Kind::Pause, 2, 1, 1, 2),
        (2, Kind::LookObj, 1, 1, 1, 1),
        (2, Kind::LookOwner, 8, 0, 0, 0),
        (
            2,
            Kind::LookRank,
            5,
            stamps.first,
            stamps.first,
            stamps.first,
        ),
        (2, Kind::LookStatus, 2, 2, 2, 2),
    ]
}

const GREEDY: Shape = Shape {
    objects: 2,
    callers: 3,
    attempts: 1,
    locators: 2,
    manager: Manager::Greedy,
    all_write: false,
};

#[test]
fn a_younger_waiting_caller_is_killed(rt: HostRuntime) -> Result<(), Fail> {
    let stamps = Stamps {
        older: 2,
        younger: 0,
        first: 2,
        third: 1,
    };
    let mut trace = events_of(rt.alloc(), &meeting(&stamps))?;
    trace.push(event_of((2, Kind::Kill, 2, 2, 2, 5)))?;
    trace.push(event_of((2, Kind::LookOld, 14, 0, 0, 0)))?;
    assert!(rt; replay(rt.alloc(), &GREEDY, &trace)? == Replay::Run);
    assert!(rt; break_rules(rt.alloc(), &GREEDY, &trace, &GREEDY_BROKEN)?);
    Ok(())
}

// After so many of these events another one is refused: ..
const GREEDY_BROKEN: [(usize, Row); 8] = [
    // there is no stamp
    (3, (1, Kind::Rank, 6, 0, 0, 0)),
    // there is a stamp
    (4, (1, Kind::Stamp, 34, 1, 1, 2)),
    // there is no rank
    (4, (1, Kind::Begin, 3, 0, 0, 1)),
    // the owner is not known
    (25, (0, Kind::LookRank, 6, 0, 0, 0)),
    // the owner's rank is not known
    (27, (0, Kind::Pause, 2, 1, 1, 2)),
    // the owner is older
    (28, (0, Kind::Kill, 3, 1, 1, 5)),
    // the caller does not wait
    (28, (0, Kind::Resume, 2, 2, 1, 1)),
    // the owner is not aborted
    (33, (2, Kind::LookOld, 14, 0, 0, 0)),
];

#[test]
fn an_older_caller_that_resumed_is_not_killed(rt: HostRuntime) -> Result<(), Fail> {
    let stamps = Stamps {
        older: 0,
        younger: 2,
        first: 1,
        third: 2,
    };
    let mut trace = events_of(rt.alloc(), &meeting(&stamps))?;
    trace.push(event_of((0, Kind::Resume, 2, 2, 2, 1)))?;
    // The kill expects the status that was found last, which was waiting, and fails.
    let failed = replay_with(rt.alloc(), &GREEDY, &trace, 34, (2, Kind::Kill, 2, 2, 1, 1))?;
    assert!(rt; failed == Replay::Run);
    let changed = replay_with(rt.alloc(), &GREEDY, &trace, 34, (2, Kind::Kill, 2, 1, 1, 5))?;
    assert!(rt; changed == Replay::Broken(34));
    Ok(())
}

#[test]
fn words_stand_at_their_places(rt: HostRuntime) -> Result<(), Fail> {
    assert!(rt; GREEDY.is_valid());
    let few_locators = Shape {
        locators: 1,
        ..GREEDY
    };
    assert!(rt; !few_locators.is_valid());
    assert!(rt; GREEDY.words() == 35);
    let places = [
        GREEDY.object(1),
        GREEDY.status(2),
        GREEDY.rank(2),
        GREEDY.owner(5),
        GREEDY.old_cell(5),
        GREEDY.new_cell(5),
        GREEDY.high_cell(5),
        GREEDY.callers_place(),
        GREEDY.numbers_place(),
        GREEDY.stamps_place(),
    ];
    assert!(rt; places == [1, 4, 7, 13, 19, 25, 31, 32, 33, 34]);
    assert!(rt; Status::of(4) == Some(Status::Committed));
    assert!(rt; Status::of(6) == None);
    assert!(rt; Status::Aborted.code() == 5);
    Ok(())
}

// A number that no run gives is taken, and names no attempt of the shape.
#[test]
fn a_caller_out_of_the_shape_begins_nothing(rt: HostRuntime) -> Result<(), Fail> {
    let mut caller = Local::start(rt.alloc(), &GREEDY)?;
    let events = [
        (
            (0, Kind::Enrol, 32, u64::MAX - 1, u64::MAX - 1, u64::MAX),
            true,
        ),
        ((0, Kind::Enrol, 32, 0, 0, 1), false),
        ((0, Kind::LookObj, 0, 0, 0, 0), false),
        ((0, Kind::Stamp, 34, 0, 0, 1), true),
        ((0, Kind::Rank, 5, 0, 0, 0), false),
    ];
    for (row, allowed) in events {
        assert!(rt; caller.next(&event_of(row))? == allowed);
    }
    Ok(())
}
