ghost use Rattle.dstm_core.specs.Words.{IsValid};
ghost use Rattle.dstm_opacity.specs.Laws.{CommittedLegal, LawAtEveryPrefix, PassAgrees, WritersInDrawOrder};

use crate::tests::calls::small;
use crate::tests::rows::{Row, event_of};
use dstm_core::{Kind, Manager, Replay, Shape, replay};
use dstm_model::{AnyLaw, Law};
use dstm_opacity::{laws, some_contest, some_run};
use std::alloc::{AllocError, Global};
use std::test::Fail;

// Caller 0 reads object 0 and writes object 1, while caller 1 reads object 1 and writes object 0 and
// installs its locator. Then caller 0 draws its number, which is the one that its passes found.
const CROSSED: [Row; 28] = [
    (0, Kind::Enrol, 22, 0, 0, 1),
    (0, Kind::Begin, 2, 0, 0, 1),
    (0, Kind::LookObj, 0, 0, 0, 0),
    (0, Kind::LookNumber, 23, 0, 0, 0),
    (0, Kind::Check, 0, 0, 0, 0),
    (0, Kind::LookSelf, 2, 1, 1, 1),
    (1, Kind::Enrol, 22, 1, 1, 2),
    (1, Kind::Begin, 3, 0, 0, 1),
    (1, Kind::LookObj, 1, 0, 0, 0),
    (1, Kind::LookNumber, 23, 0, 0, 0),
    (1, Kind::Check, 1, 0, 0, 0),
    (1, Kind::LookSelf, 3, 1, 1, 1),
    (0, Kind::LookObj, 1, 0, 0, 0),
    (0, Kind::PutOwner, 6, 0, 0, 0),
    (0, Kind::PutOld, 10, 0, 0, 0),
    (0, Kind::Install, 1, 0, 0, 1),
    (0, Kind::LookNumber, 23, 0, 0, 0),
    (0, Kind::LookSelf, 2, 1, 1, 1),
    (1, Kind::LookObj, 0, 0, 0, 0),
    (1, Kind::PutOwner, 8, 0, 0, 1),
    (1, Kind::PutOld, 12, 0, 0, 0),
    (1, Kind::Install, 0, 0, 0, 3),
    (1, Kind::LookNumber, 23, 0, 0, 0),
    (1, Kind::LookSelf, 3, 1, 1, 1),
    (0, Kind::PutHigh, 18, 0, 0, 0),
    (0, Kind::PutNew, 14, 0, 0, 5),
    (0, Kind::Validating, 2, 1, 1, 3),
    (0, Kind::Draw, 23, 0, 0, 1),
];

// The Check of object 0, which caller 1 has replaced.
const CHECK: Row = (0, Kind::Check, 0, 3, 3, 3);

const COMMIT: Row = (0, Kind::Commit, 2, 3, 3, 4);

// The schedule, and then some more events.
fn replay_crossed(alloc: Global, shape: &Shape, more: &[Row]) -> Result<Replay, AllocError>
    requires { IsValid shape.now }
{
    let mut events = Vec::new(alloc);
    for row in CROSSED.iter().chain(more) {
        events.push(event_of(*row))?;
    }
    replay(alloc, shape, &events)
}

// Every law stands for a law on maps that the caller names.
fn assure<L: Law>()
    ensures order { WritersInDrawOrder L.holds }
    ensures sights { PassAgrees L.holds }
    ensures history { CommittedLegal L.holds }
    ensures law { LawAtEveryPrefix L.holds }
{
    laws::no_locator_twice::<L>();
    laws::writers_in_draw_order::<L>();
    laws::pass_agrees::<L>();
    laws::committed_legal::<L>();
    laws::law_at_every_prefix::<L>();
    laws::numbers_rise::<L>();
    laws::numbers_count::<L>();
    laws::commits_stand::<L>();
    laws::places_have_prefixes::<L>();
    laws::current_values::<L>();
    laws::entry_stays();
    laws::put_stays();
    laws::seen_stays();
    laws::found_stays();
}

#[test]
fn commits_by_the_number_alone(rt: HostRuntime) -> Result<(), Fail> {
    let shape = Shape {
        objects: 2,
        attempts: 1,
        locators: 2,
        ..small(2, Manager::Polite)
    };
    assure::<AnyLaw>();
    some_run();
    some_contest();
    // The number stands, so the attempt may commit. A Check that fails all the same forbids it.
    assert!(rt; replay_crossed(rt.alloc(), &shape, &[COMMIT])? == Replay::Run);
    assert!(rt; replay_crossed(rt.alloc(), &shape, &[CHECK])? == Replay::Run);
    assert!(rt; replay_crossed(rt.alloc(), &shape, &[CHECK, COMMIT])? == Replay::Broken(29));
    Ok(())
}
