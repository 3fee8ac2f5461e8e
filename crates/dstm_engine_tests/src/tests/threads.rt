// Two threads that move numbers from one object to another.
ghost use Rattle.std.specs.Prelude.{◌≡◌, length, IfSome};
ghost use Rattle.dstm_core.specs.Words.{IsValid};

use crate::tests::attempts::low;
use crate::tests::moves::{ATTEMPTS, MOVES, Move, Mover, TwoObjects, move_both};
use dstm_core::{Manager, Shape};
use dstm_engine::{Caller, Ended, Founder, Stm, attempt};
use dstm_model::Val;
use std::alloc::Global;
use std::test::Fail;
use std::thread::Threads;

impl Mover<Stm<TwoObjects>> for Caller<TwoObjects> {
    ghost use Rattle.dstm_words.specs.Seats.{Home};
    ghost use Rattle.dstm_engine_tests.specs.declared.tests.moves.TwoObjects.{TwoObjects};

    ghost Place = { Home TwoObjects };

    ghost home = { λ caller. caller.home };

    ghost place = { λ stm. stm };

    ghost law = { λ home. home.terms.law.value };

    fn try_move(&mut self, stm: &Stm<TwoObjects>, body: &mut Move) -> Option<bool> {
        match attempt(self, stm, body) {
            Ok(_) => Some(true),
            Err(Ended::Again(_)) => Some(false),
            Err(Ended::Spent) => None,
        }
    }
}

// Both threads make their moves: how many each made, and what the objects are left with.
fn move_by_two<R: Threads + Sync>(
    rt: &R,
    alloc: Global,
    start: Vec<Val>,
    shape: Shape,
) -> Result<(u32, u32, Vec<Val>), Fail>
    requires valid { IsValid shape }
    requires objects { (shape.objects ≡ 2) × (length start.items ≡ 2) }
{
    let (stm, mut founder) = Stm::make(alloc, start, shape, TwoObjects)?;
    let Some((east, west)) = move_beside(rt, alloc, &stm, &mut founder) else {
        return Err(Fail::new("no caller"));
    };
    let (values, _record) = stm.close(alloc, founder)?;
    Ok((east, west, values))
}

// Two new callers make their moves beside each other, and go: how many each made.
fn move_beside<R: Threads + Sync>(
    rt: &R,
    alloc: Global,
    stm: &Stm<TwoObjects>,
    founder: &mut Founder<TwoObjects>,
) -> Option<(u32, u32)>
    requires table { founder.old.home ≡ stm.now }
    ensures table { founder.new.home ≡ stm.now }
    ensures guests { founder.new.guests ≡ founder.old.guests }
    ensures out { IfSome result (λ _. founder.new.view.out ≡ founder.old.view.out) }
{
    let Ok(east) = founder.caller(alloc, stm, 1) else {
        return None;
    };
    let Ok(west) = founder.caller(alloc, stm, 2) else {
        return None;
    };
    let (east, west) = move_both(rt, stm, east, west, TwoObjects);
    founder.retire(stm, east.0);
    founder.retire(stm, west.0);
    Some((east.1, west.1))
}

#[test]
fn two_threads_move_and_lose_nothing(rt: HostRuntime) -> Result<(), Fail> {
    let alloc = rt.alloc();
    let shape = Shape {
        objects: 2,
        callers: 2,
        attempts: ATTEMPTS,
        locators: 2 * ATTEMPTS + 2,
        manager: Manager::Polka,
        all_write: false,
    };
    let start = vec![in alloc; low(1_000_000), low(1_000_000)]?;
    let (east, west, values) = move_by_two(&rt, alloc, start, shape)?;
    assert!(rt; (east, west) == (MOVES, MOVES));
    assert!(rt; values.as_slice() == [low(980_000), low(1_020_000)].as_slice());
    Ok(())
}
