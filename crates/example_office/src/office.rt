// Two desks that sell the same tickets.
ghost use Rattle.std.specs.Prelude.{◌≡◌, ◌+◌, IfOk};

use crate::sale::{Desks, NoneLost};
use dstm_cells::{Engine, Failed, Memory};
use std::alloc::Global;
use std::thread::Threads;

/// What became of the tickets: how many are left, and how many each desk has sold.
#[derive(Clone, Copy, Debug, PartialEq, Eq)]
pub struct Sales {
    pub left: u64,
    pub east: u64,
    pub west: u64,
}

/// Sells these tickets at two desks, on two threads.
pub fn sell_all<R: Threads + Sync>(rt: &R, alloc: Global, all: u64) -> Result<Sales, Failed>
    ensures { IfOk result (λ sales. sales.left + sales.east + sales.west ≡ all) }
{
    let mut office = Memory::with_law(alloc, Engine::Tl2, NoneLost { all });
    let left = office.cell(all)?;
    let east = office.cell(0u64)?;
    let west = office.cell(0u64)?;
    let desks = Desks {
        left,
        east,
        west,
        most: all,
    };
    office.run_work(rt, 2, &desks)?;
    Ok(Sales {
        left: office.get(left)?,
        east: office.get(east)?,
        west: office.get(west)?,
    })
}
