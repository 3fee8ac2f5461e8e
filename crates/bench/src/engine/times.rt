// What attempts take on a table of some size, with one caller.
ghost use Rattle.std.specs.Prelude.{◌<◌, ◌≤◌};

use super::attempts::Use;
use super::places::MAX_OBJECTS;
use super::table::Table;
use dstm_core::Manager;
use std::alloc::Global;
use std::fmt::{self, Display, Formatter, Write};
use std::time::Clock;

// The tables of which the least of each time is told.
const TABLES: u32 = 15;

/// The nanoseconds of an attempt, by its use.
#[derive(Clone, Copy)]
pub struct Times {
    quit: f64,
    commit: f64,
    read: f64,
    write: f64,
}

impl Times {
    // The times on a table. In its first attempts no object has a locator: those count for nothing.
    fn of(table: &mut Table, clock: &impl Clock) -> anyhow::Result<Times> {
        let _first = table.time(clock, Use::Write)?;
        Ok(Times {
            quit: table.time(clock, Use::Quit)?,
            commit: table.time(clock, Use::Commit)?,
            read: table.time(clock, Use::Read)?,
            write: table.time(clock, Use::Write)?,
        })
    }

    // The less of each.
    fn min(self, other: Times) -> Times {
        Times {
            quit: self.quit.min(other.quit),
            commit: self.commit.min(other.commit),
            read: self.read.min(other.read),
            write: self.write.min(other.write),
        }
    }
}

impl Display for Times {
    fn fmt<W: Write>(&self, f: &mut Formatter<W>) -> fmt::Result {
        write!(f, "{:>8.1} {:>8.1} ", self.quit, self.commit)?;
        write!(f, "{:>8.1} {:>8.1}", self.read, self.write)
    }
}

/// The least of each time on several tables.
pub fn measure(
    clock: &impl Clock,
    alloc: Global,
    manager: Manager,
    objects: u32,
) -> anyhow::Result<Times>
    requires some { 0 < objects }
    requires few { objects ≤ MAX_OBJECTS }
{
    let mut least = Times {
        quit: f64::INFINITY,
        commit: f64::INFINITY,
        read: f64::INFINITY,
        write: f64::INFINITY,
    };
    for _ in 0..TABLES {
        let mut table = Table::make(alloc, manager, objects)?;
        least = least.min(Times::of(&mut table, clock)?);
    }
    Ok(least)
}
