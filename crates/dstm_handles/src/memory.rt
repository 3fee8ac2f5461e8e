// Cells, and the table on which threads change them.
ghost use Rattle.std.specs.Prelude.{◌≡◌, ◌≤◌, length, IfSome};
ghost use Rattle.std.proofs.Props.{props};
ghost use Rattle.std.specs.Arc.{arc_value};
ghost use Rattle.dstm_tables.specs.Callers.{home_of};
ghost use Rattle.dstm_tables.specs.Founders.{home_there};
ghost use Rattle.dstm_tables.specs.Tables.{objects_there};

use crate::thread::Thread;
use dstm_cells::Turn;
use dstm_model::{AnyLaw, Val};
use dstm_tables::{Engine, Founder, Table};
use std::alloc::Global;
use std::sync::Arc;

/// Cells that the transactions of threads may change.
#[derive(Drop)]
pub struct Memory {
    pub(crate) alloc: Global,
    pub(crate) engine: Engine,
    pub(crate) threads: u32,
    pub(crate) values: Vec<Val>,
    pub(crate) home: Option<Home>,
    pub(crate) seeds: u64,
    ghost few: { length values.items ≤ 524288 },
    ghost some: { (1 ≤ threads) × (threads ≤ 63) },
    ghost fits: { IfSome home (λ it. objects_there (arc_value it.table) ≡ length values.items) } by { Prim.hlevel props },
}

/// The table on which threads change the cells.
#[derive(Drop)]
pub struct Home {
    pub(crate) table: Arc<Table<AnyLaw>, Global>,
    // The turn of the threads that have parts.
    pub(crate) turn: Arc<Turn, Global>,
    pub(crate) founder: Founder<AnyLaw>,
    // The memory's own part, which reads all cells when no thread has one.
    pub(crate) last: Thread,
    // How many parts it has given out.
    pub(crate) given: u32,
    ghost founded: { home_there founder ≡ arc_value table },
    ghost own: { home_of last.tx.attempts.caller ≡ arc_value table },
}
