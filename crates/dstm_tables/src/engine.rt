// The tables of programs, which choose an engine alone.
ghost use Rattle.std.specs.Prelude.{◌≡◌, ◌≤◌, IfOk, length};
ghost use Rattle.dstm_tables.specs.Engines.{WorksBy};
ghost use Rattle.dstm_tables.specs.Founders.{founded};
ghost use Rattle.dstm_tables.specs.Tables.{callers_there, law_there, objects_there, start_there};

use crate::founding::{Founder, make_dstm, make_tl2};
use crate::tables::Table;
use dstm_core::{Manager, Shape};
use dstm_engine::{Zeros, shape_for};
use dstm_model::{Law, Val};
use std::alloc::{AllocError, Global};

/// The most attempts of a caller by TL2: 2^54.
pub const MOST_ATTEMPTS: u64 = 18_014_398_509_481_984;

/// By which engine a table works.
#[derive(Clone, Copy, Debug, PartialEq, Eq)]
pub enum Engine {
    /// By TL2: a transaction locks the objects that it changes while it takes effect, and a caller may make any number
    /// of them.
    Tl2,
    /// By DSTM: nothing is locked, and this manager decides what a transaction does when another one is changing an
    /// object that it wants to change. A caller has 65,536 attempts.
    Dstm(Manager),
}

/// A new table of this engine, whose objects have these values, and its founder. Its callers have as many attempts as
/// the engine allows.
pub fn make<L: Law>(
    alloc: Global,
    engine: Engine,
    values: Vec<Val>,
    callers: u32,
    law: L,
) -> Result<(Table<L>, Founder<L>), AllocError>
    requires values { length values.items ≤ 524288 }
    requires callers { (1 ≤ callers) × (callers ≤ 64) }
    requires lawful { L.holds law values.items }
    ensures engine { IfOk result (λ t. WorksBy engine t.0) }
    ensures callers { IfOk result (λ t. callers_there t.0 ≡ callers) }
    ensures objects { IfOk result (λ t. objects_there t.0 ≡ length values.items) }
    ensures law { IfOk result (λ t. law_there t.0 ≡ law) }
    ensures start { IfOk result (λ t. start_there t.0 ≡ values.items) }
    ensures founder { IfOk result (λ t. t.1 ≡ founded t.0) }
{
    match engine {
        Engine::Tl2 => make_tl2(alloc, values, callers, MOST_ATTEMPTS, law),
        Engine::Dstm(manager) => {
            let shape = Shape {
                manager,
                ..shape_for(values.len() as u32, callers)
            };
            make_dstm(alloc, &mut Zeros::new(alloc), values, shape, law)
        }
    }
}
