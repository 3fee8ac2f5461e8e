// A table whose attempts are timed.
ghost use Rattle.std.specs.Prelude.{◌≡◌, ◌<◌, ◌≤◌, All, IfOk};
ghost use Rattle.std.proofs.Props.{props};
ghost use Rattle.bench.specs.Places.{Exist};

use super::attempts::{Use, try_all};
use super::places::{ATTEMPTS, MAX_OBJECTS, choose_all, shape_of};
use anyhow::bail;
use dstm_core::Manager;
use dstm_engine::{Caller, Founder, Stm};
use dstm_model::{AnyLaw, Val};
use std::alloc::Global;
use std::time::{Clock, Instant};

/// A table with one caller, and the objects that each of its attempts opens.
#[derive(Drop)]
pub struct Table {
    stm: Stm<AnyLaw>,
    caller: Caller<AnyLaw>,
    lists: Vec<Vec<u32>>,
    ghost home: { caller.home ≡ stm },
    ghost exist: { All (λ places. Exist stm.terms.shape places.items) lists.items } by { Prim.hlevel props },
}

impl Table {
    /// A new table of so many objects.
    pub fn make(alloc: Global, manager: Manager, objects: u32) -> anyhow::Result<Table>
        requires some { 0 < objects }
        requires few { objects ≤ MAX_OBJECTS }
    {
        let shape = shape_of(objects, manager);
        let lists = choose_all(alloc, &shape)?;
        let start = vec![in alloc; Val { low: 1, high: 0 }; objects as usize]?;
        let (stm, mut founder) = Stm::make(alloc, start, shape, AnyLaw)?;
        let caller = caller(alloc, &stm, &mut founder)?;
        Ok(Table { stm, caller, lists })
    }

    /// The nanoseconds that an attempt takes, by the mean of one with each list of objects.
    pub fn time(&mut self, clock: &impl Clock, usage: Use) -> anyhow::Result<f64> {
        let start = Instant::now(clock)?;
        let all = try_all(&self.stm, &mut self.caller, &self.lists, usage);
        let took = Instant::now(clock)?.duration_since(start);
        if !all {
            bail!("an attempt was left");
        }
        Ok(1e9 * took.as_secs_f64() / f64::from(ATTEMPTS))
    }
}

// A new caller of the table.
fn caller(
    alloc: Global,
    stm: &Stm<AnyLaw>,
    founder: &mut Founder<AnyLaw>,
) -> anyhow::Result<Caller<AnyLaw>>
    requires table { founder.old.home ≡ stm.now }
    ensures { IfOk result (λ k. k.home ≡ stm.now) }
{
    match founder.caller(alloc, stm, 1) {
        Ok(caller) => Ok(caller),
        Err(_) => bail!("no caller"),
    }
}
