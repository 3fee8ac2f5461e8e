// The calls of a memory.
ghost use Rattle.std.specs.Prelude.{◌≡◌, ◌≢◌, ◌⊎◌, ◌↔◌, ◌+◌, ◌%◌, ◌^◌, Err, ◌<◌, ◌≤◌, List, [], length, false, None, IfErr, IfOk, OnOk};
ghost use Rattle.dstm_attempts.specs.Attempts.{AddsNothing, IsUntouched, Keeps, MayBegin, objects_of};
ghost use Rattle.dstm_model.specs.Map.{value_at};
ghost use Rattle.dstm_model.specs.declared.value.AnyLaw.{AnyLaw as AnyLawValue};
ghost use Rattle.dstm_model.specs.declared.value.Val.{Val};
ghost use Rattle.dstm_tables.specs.Callers.{home_of};
ghost use Rattle.dstm_tables.specs.Engines.{WorksBy};
ghost use Rattle.dstm_tables.specs.Founders.{Enrols, founded};
ghost use Rattle.dstm_tables.specs.Tables.{objects_there};
ghost use Rattle.dstm_tables.specs.declared.tables.Caller.{Caller};
ghost use Rattle.dstm_handles.specs.Memories.{EnrolsAtHome, EnrolsFirst, GivesAtHome, GivesOut, HasSettled, IsAt, IsWithheld, KeepsTerms, MakesCell, MakesCells, MakesMemory, Peeks, ReadsAll, StartsWith, StaysOut, table_at};
ghost use Rattle.dstm_handles.specs.Threads.{MayCall, caller_of};
ghost use Rattle.dstm_handles.specs.declared.code.Code.TheVariants.{Again, Done, Foreign, Full, Range, Spent};
ghost use Rattle.dstm_handles.specs.declared.code.Code.TheVariants as code;

use crate::code::Code;
use crate::memory::{Home, Memory};
use crate::thread::Thread;
use dstm_cells::Turn;
use dstm_model::{AnyLaw, Law, Val};
use dstm_tables::{Engine, EnrolError, MOST_OBJECTS, make};
use std::alloc::{AllocError, Global};
use std::sync::Arc;

/// The most cells of a memory.
pub const MOST_CELLS: u32 = MOST_OBJECTS;

/// The most threads that have parts in a memory at once.
pub const MOST_THREADS: u32 = 63;

// How often all cells are read together, when nobody sets them any more.
const READINGS: u32 = 64;

// How many parts a table by TL2 gives out, with the memory's own.
const CALLERS: u32 = 64;

impl Memory {
    /// A memory with no cell, in which so many threads, from 1 to 63, may have parts at once.
    pub fn new(alloc: Global, threads: u32, engine: Engine) -> Result<Memory, Code>
        ensures { MakesMemory threads engine result }
    {
        if threads == 0 || threads > MOST_THREADS {
            return Err(Code::Range);
        }
        Ok(Memory {
            alloc,
            engine,
            threads,
            values: Vec::new(alloc),
            home: None,
            seeds: 0,
        })
    }

    /// A new cell. No thread may have a part then.
    pub fn cell(&mut self, value: Val) -> Result<u32, Code>
        ensures { MakesCell ⟦<AnyLaw as Law>⟧.holds value self.old self.new result }
    {
        self.settle()?;
        if self.values.len() >= MOST_CELLS as usize {
            return Err(Code::Full);
        }
        let cell = self.values.len() as u32;
        match self.values.push(value) {
            Ok(()) => Ok(cell),
            Err(_) => Err(Code::Memory),
        }
    }

    /// So many new cells side by side, which hold this: the number of the first one. No thread may have a part then.
    pub fn cells(&mut self, value: Val, count: u32) -> Result<u32, Code>
        ensures { MakesCells ⟦<AnyLaw as Law>⟧.holds value count self.old self.new result }
    {
        self.settle()?;
        if count as usize > MOST_CELLS as usize - self.values.len() {
            return Err(Code::Full);
        }
        let first = self.values.len() as u32;
        let Ok(added) = vec![in self.alloc; value; count as usize] else {
            return Err(Code::Memory);
        };
        match self.values.extend_from_slice(&added) {
            Ok(()) => Ok(first),
            Err(_) => Err(Code::Memory),
        }
    }

    /// What a cell holds, while no thread has a part.
    pub fn peek(&mut self, cell: u32) -> Result<Val, Code>
        ensures { Peeks ⟦<AnyLaw as Law>⟧.holds cell self.old self.new result }
    {
        self.settle()?;
        match self.values.get(cell as usize) {
            Some(value) => Ok(*value),
            None => Err(Code::Foreign),
        }
    }

    /// A part for a thread. Where all parts are back, and the table has fewer left to give out than threads may have at
    /// once, there is a new table.
    pub fn thread(&mut self) -> Result<Thread, Code>
        ensures { GivesOut ⟦<AnyLaw as Law>⟧.holds self.old self.new result }
    {
        match self.given() {
            Err(Code::Full) => {}
            made => return made,
        }
        match self.settle() {
            Ok(()) => self.begun(),
            Err(Code::Busy) => Err(Code::Full),
            Err(code) => Err(code),
        }
    }

    /// Takes the values of the cells back from the threads: none may have a part. The next part is one of a new
    /// table, which has these values.
    pub fn settle(&mut self) -> Result<(), Code>
        ensures settled { OnOk result (HasSettled ⟦<AnyLaw as Law>⟧.holds self.old self.new.values.items) }
        ensures home { OnOk result (self.new.home ≡ None) }
        ensures kept { IfErr result (λ why. self.new.values.items ≡ self.old.values.items) }
        ensures stays { IfErr result (λ why. StaysOut self.old self.new) }
        ensures withheld { IfErr result IsWithheld }
        ensures fails { IfErr result (λ why. why ≢ Done) }
        ensures same { (self.new.engine ≡ self.old.engine) × (self.new.threads ≡ self.old.threads)
            × (self.new.seeds ≡ self.old.seeds) }
    {
        match &mut self.home {
            None => return Ok(()),
            Some(home) => {
                if home.parts_out() != 0 {
                    return Err(Code::Busy);
                }
                self.values = home.values(self.alloc, self.values.len() as u32)?;
            }
        }
        self.home = None;
        Ok(())
    }

    // A part of the table that is there, if one is.
    fn given(&mut self) -> Result<Thread, Code>
        ensures table { IfOk result (λ part. IsAt self.old.home (home_of (caller_of part))) }
        ensures idle { IfOk result (λ part. part.begun ≡ false) }
        ensures fails { IfErr result (λ why. (why ≡ Full) ⊎ (why ≡ code.Memory)) }
        ensures same { (values : List Val) → HasSettled ⟦<AnyLaw as Law>⟧.holds self.new values
            → HasSettled ⟦<AnyLaw as Law>⟧.holds self.old values }
        ensures values { self.new.values.items ≡ self.old.values.items }
        ensures at { IfOk result (λ part. IsAt self.new.home (home_of (caller_of part))) }
        ensures home { OnOk result (GivesAtHome self.old.home self.new.home) }
        ensures seeds { OnOk result (self.new.seeds ≡ (self.old.seeds + 1) % 2 ^ 64) }
        ensures unsown { IfErr result (λ why. self.new.seeds ≡ self.old.seeds) }
        ensures enrols { IfOk result
            (EnrolsAtHome ⟦<AnyLaw as Law>⟧.holds self.old.home self.new.home self.new.seeds) }
        ensures kept { IfErr result (λ why. self.new.home ≡ self.old.home) }
        ensures terms { KeepsTerms self.old self.new }
    {
        match &mut self.home {
            None => Err(Code::Full),
            Some(home) => {
                let out = home.parts_out();
                if out >= self.threads as usize {
                    return Err(Code::Full);
                }
                let callers = callers_by(self.engine, self.threads);
                if out == 0 && home.given.saturating_add(self.threads) >= callers {
                    return Err(Code::Full);
                }
                let seed = self.seeds.wrapping_add(1);
                let part = home.part(self.alloc, seed)?;
                self.seeds = seed;
                Ok(part)
            }
        }
    }

    // A part of a new table.
    fn begun(&mut self) -> Result<Thread, Code>
        ensures starts { IfOk result (λ part. StartsWith self.old.values.items (home_of (caller_of part))) }
        ensures works { IfOk result (λ part. WorksBy self.old.engine (home_of (caller_of part))) }
        ensures at { IfOk result (λ part. IsAt self.new.home (home_of (caller_of part))) }
        ensures seeds { OnOk result (self.new.seeds ≡ (self.old.seeds + 1) % 2 ^ 64) }
        ensures enrols { IfOk result (EnrolsFirst ⟦<AnyLaw as Law>⟧.holds self.new.home self.new.seeds) }
        ensures values { self.new.values.items ≡ self.old.values.items }
        ensures kept { IfErr result (λ why. self.new.home ≡ self.old.home) }
        ensures terms { KeepsTerms self.old self.new }
        ensures idle { IfOk result (λ part. part.begun ≡ false) }
        ensures fails { IfErr result (λ why. (why ≡ Full) ⊎ (why ≡ code.Memory)) }
    {
        let seed = self.seeds.wrapping_add(1);
        let mut home = self.found()?;
        let part = home.part(self.alloc, seed)?;
        self.seeds = seed;
        self.home = Some(home);
        Ok(part)
    }

    // A table that has the values of the cells.
    fn found(&self) -> Result<Home, Code>
        ensures starts { IfOk result (λ home. StartsWith self.now.values.items (table_at home)) }
        ensures works { IfOk result (λ home. WorksBy self.now.engine (table_at home)) }
        ensures own { IfOk result (λ home. Enrols ⟦<AnyLaw as Law>⟧.holds (founded (table_at home)) home.founder 0
            (caller_of home.last)) }
        ensures fails { IfErr result (λ why. why ≡ code.Memory) }
    {
        let Ok(start) = Vec::from_slice(self.alloc, &self.values) else {
            return Err(Code::Memory);
        };
        let callers = callers_by(self.engine, self.threads);
        let Ok((table, mut founder)) = make(self.alloc, self.engine, start, callers, AnyLaw) else {
            return Err(Code::Memory);
        };
        let Ok(caller) = founder.caller(self.alloc, &table, 0) else {
            return Err(Code::Memory);
        };
        let Ok(table) = Arc::new(self.alloc, table) else {
            return Err(Code::Memory);
        };
        let Ok(shared) = Arc::try_clone(&table) else {
            return Err(Code::Memory);
        };
        let Ok(turn) = Arc::new(self.alloc, Turn::new()) else {
            return Err(Code::Memory);
        };
        let Ok(own) = Arc::try_clone(&turn) else {
            return Err(Code::Memory);
        };
        Ok(Home {
            table,
            turn,
            founder,
            last: Thread::of(self.alloc, shared, own, caller),
            given: 0,
        })
    }
}

impl Home {
    // How many parts are out.
    fn parts_out(&self) -> usize {
        Arc::strong_count(&self.table).saturating_sub(2)
    }

    fn part(&mut self, alloc: Global, seed: u64) -> Result<Thread, Code>
        ensures table { table_at self.new ≡ table_at self.old }
        ensures own { self.new.last ≡ self.old.last }
        ensures same { IfErr result (λ why. self.new ≡ self.old) }
        ensures part { IfOk result (λ part. home_of (caller_of part) ≡ table_at self.old) }
        ensures enrols { IfOk result (λ part. Enrols ⟦<AnyLaw as Law>⟧.holds self.old.founder self.new.founder seed
            (caller_of part)) }
        ensures idle { IfOk result (λ part. part.begun ≡ false) }
        ensures fails { IfErr result (λ why. (why ≡ Full) ⊎ (why ≡ code.Memory)) }
    {
        let Ok(table) = Arc::try_clone(&self.table) else {
            return Err(Code::Memory);
        };
        let Ok(turn) = Arc::try_clone(&self.turn) else {
            return Err(Code::Memory);
        };
        match self.founder.caller(alloc, &self.table, seed) {
            Ok(caller) => {
                self.given = self.given.saturating_add(1);
                Ok(Thread::of(alloc, table, turn, caller))
            }
            Err(EnrolError::Memory(_)) => Err(Code::Memory),
            Err(EnrolError::Full) => Err(Code::Full),
        }
    }

    // The values of all cells, so many.
    fn values(&mut self, alloc: Global, cells: u32) -> Result<Vec<Val>, Code>
        requires all { cells ≡ objects_there (table_at self.old) }
        ensures table { table_at self.new ≡ table_at self.old }
        ensures founder { self.new.founder ≡ self.old.founder }
        ensures nothing { IfErr result (λ why. AddsNothing
            (caller_of self.old.last) (caller_of self.new.last)) }
        ensures size { IfOk result (λ values. length values.items ≡ cells) }
        ensures reads { IfOk result (λ values.
            ReadsAll ⟦<AnyLaw as Law>⟧.holds (caller_of self.old.last) values.items) }
        ensures fails { IfErr result (λ why. IsWithheld why) }
    {
        for _reading in 0..READINGS {
            let _code = self.last.abort();
            match reading(alloc, &mut self.last, cells) {
                Err(Code::Again) => {}
                read => return read,
            }
        }
        Err(Code::Busy)
    }
}

// How many parts a table gives out, with the memory's own. One of DSTM takes 5.3 MB for each.
fn callers_by(engine: Engine, threads: u32) -> u32
    requires threads { (1 ≤ threads) × (threads ≤ 63) }
    ensures { (1 ≤ result) × (result ≤ 64) }
{
    match engine {
        Engine::Tl2 => CALLERS,
        Engine::Dstm(_) => threads + 1,
    }
}

// The values of so many cells, by one attempt.
fn reading(alloc: Global, last: &mut Thread, cells: u32) -> Result<Vec<Val>, Code>
    requires idle { last.old.begun ≡ false }
    requires all { cells ≡ objects_of (caller_of last.old) }
    ensures home { home_of (caller_of last.new) ≡ home_of (caller_of last.old) }
    ensures size { IfOk result (λ values. length values.items ≡ cells) }
    ensures reads { IfOk result (λ values. (k : Caller AnyLawValue) → AddsNothing k (caller_of last.old)
        → ReadsAll ⟦<AnyLaw as Law>⟧.holds k values.items) }
    ensures nothing { IfErr result (λ why. AddsNothing (caller_of last.old) (caller_of last.new)) }
    ensures fails { IfErr result (λ why. (why ≡ Again) ⊎ (why ≡ code.Memory) ⊎ (why ≡ Spent)) }
{
    match last.begin() {
        Code::Done => {}
        code => return Err(code),
    }
    let values = all(alloc, last, cells)?;
    match last.commit() {
        Code::Done => Ok(values),
        code => Err(code),
    }
}

// The values of so many cells, by a transaction that has set nothing.
fn all(alloc: Global, last: &mut Thread, cells: u32) -> Result<Vec<Val>, Code>
    requires all { cells ≡ objects_of (caller_of last.old) }
    requires untouched { IsUntouched (caller_of last.old) }
    requires may { MayCall last.old }
    ensures keeps { Keeps (caller_of last.old) (caller_of last.new) }
    ensures size { IfOk result (λ values. length values.items ≡ cells) }
    ensures reads { IfOk result (λ values. (map : List Val) → MayBegin ⟦<AnyLaw as Law>⟧.holds
        (caller_of last.new) map → map ≡ values.items) }
    ensures untouched { OnOk result (IsUntouched (caller_of last.new)) }
    ensures may { MayCall last.new }
    ensures fails { IfErr result (λ why. (why ≡ Again) ⊎ (why ≡ code.Memory)) }
{
    let Ok(mut values) = Vec::with_capacity(alloc, cells as usize) else {
        return Err(Code::Memory);
    };
    for cell in 0..cells {
        let value = last.get(cell)?;
        if values.push(value).is_err() {
            return Err(Code::Memory);
        }
    }
    Ok(values)
}
