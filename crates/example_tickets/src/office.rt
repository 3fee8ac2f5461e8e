// Two desks that sell the same tickets.
ghost use Rattle.std.specs.Prelude.{◌≡◌, ◌+◌, ◌<◌, IfOk};
ghost use Rattle.dstm_engine.specs.Tables.{Enrols};
ghost use Rattle.dstm_core.specs.Words.{IsValid};

use crate::sale::{Desk, NoneLost, Sell};
use dstm_core::{Manager, Shape};
use dstm_engine::{Caller, Ended, EnrolError, Founder, Stm, attempt};
use dstm_model::{Law, Val};
use std::alloc::{AllocError, Global};
use std::thread::{Threads, join};

/// The attempts that a desk may make.
const ATTEMPTS: u32 = 4_096;

/// What became of the tickets: how many are left, and how many each desk has sold.
#[derive(Clone, Copy, Debug, PartialEq, Eq)]
pub struct Sales {
    pub left: u64,
    pub east: u64,
    pub west: u64,
}

/// Sells these tickets at two desks, on two threads, until none is left or a desk has no attempt left.
pub fn sell_all<R: Threads + Sync>(rt: &R, alloc: Global, all: u64) -> Result<Sales, AllocError>
    ensures { IfOk result (λ sales. sales.left + sales.east + sales.west ≡ all) }
{
    let none = Val { low: 0, high: 0 };
    let start = vec![in alloc; Val { low: all, high: 0 }, none, none]?;
    let law = NoneLost { all };
    let (stm, mut founder) = Stm::make(alloc, start, office(), law)?;
    let east = caller(alloc, &stm, &mut founder, 1)?;
    let west = caller(alloc, &stm, &mut founder, 2)?;
    let table = &stm;
    let (east, west) = join(
        rt,
        move || -> Caller<NoneLost>
            requires { (east.home ≡ table.now) × (table.now.terms.law.value ≡ law) }
            ensures { result.home ≡ table.entry.now }
        { sell(table, east, law, Desk::East) },
        move || -> Caller<NoneLost>
            requires { (west.home ≡ table.now) × (table.now.terms.law.value ≡ law) }
            ensures { result.home ≡ table.entry.now }
        { sell(table, west, law, Desk::West) },
    );
    founder.retire(&stm, east);
    founder.retire(&stm, west);
    let (values, _record) = stm.close(alloc, founder)?;
    Ok(Sales {
        left: values[0].low,
        east: values[1].low,
        west: values[2].low,
    })
}

// An object for the tickets that are left and one for each desk, and a caller for each desk.
fn office() -> Shape
    ensures valid { IsValid result }
    ensures size { (result.objects ≡ 3) × (result.callers ≡ 2) }
{
    Shape {
        objects: 3,
        callers: 2,
        attempts: ATTEMPTS,
        locators: 2 * ATTEMPTS,
        manager: Manager::Karma,
        all_write: false,
    }
}

// A caller for a desk. There are not more desks than callers.
fn caller(
    alloc: Global,
    stm: &Stm<NoneLost>,
    founder: &mut Founder<NoneLost>,
    seed: u64,
) -> Result<Caller<NoneLost>, AllocError>
    requires table { founder.old.home ≡ stm.now }
    requires room { founder.old.made < founder.old.home.terms.shape.callers }
    ensures enrols { IfOk result (λ caller. Enrols ⟦<NoneLost as Law>⟧.holds founder.old founder.new seed caller) }
{
    match founder.caller(alloc, stm, seed) {
        Ok(caller) => Ok(caller),
        Err(EnrolError::Memory(error)) => Err(error),
        Err(EnrolError::Full) => unreachable!(),
    }
}

// Sells at one desk, ticket after ticket.
fn sell(
    stm: &Stm<NoneLost>,
    caller: Caller<NoneLost>,
    law: NoneLost,
    desk: Desk,
) -> Caller<NoneLost>
    requires table { caller.home ≡ stm.now }
    requires law { stm.now.terms.law.value ≡ law }
    ensures table { result.home ≡ stm.entry.now }
{
    let mut caller = caller;
    let mut sale = Sell {
        law,
        desk,
        sold: false,
    };
    for _ in 0..ATTEMPTS {
        match attempt(&mut caller, stm, &mut sale) {
            Ok(_) if !sale.sold => break,
            Ok(_) | Err(Ended::Again(_)) => {}
            Err(Ended::Spent) => break,
        }
    }
    caller
}
