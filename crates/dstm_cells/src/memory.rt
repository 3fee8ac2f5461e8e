// Cells, and threads that change them.
ghost use Rattle.std.specs.Prelude.{◌≡◌, ◌≢◌, ◌⊎◌, ◌↔◌, ◌+◌, ◌<◌, ◌≤◌, ℕ, [], length, slice_index_or, vec_capacity, All, Ok, Err, true, false, IfErr, IfOk, OnOk};
ghost use Rattle.dstm_attempts.specs.Attempts.{above};
ghost use Rattle.dstm_cells.specs.Attempts.{CouldNotRead};
ghost use Rattle.dstm_cells.specs.Cells.{Adds, AddsAll, AreNamed, ComesTooEarly, Founds, GivesAtMostOne, IsFor, LeavesUnread, ReadsAll, ReadsAmiss, ReadsBehind, Sets, Takes, WantsRoom, drawn_by};
ghost use Rattle.dstm_cells.specs.Runs.{AnswerEach, AreAt, AreNumbered, CalledFor, FailsByFirst, FailsFor, GivesOutSeats, HaveAnswered, HaveNew, IsFirst, IsFirstOf, IsWorked, LeavesBy, RanInTurn, RanOn, TakesBackSeats, WasCalled, WasReadAmiss, WasUnread, ends_of};
ghost use Rattle.dstm_cells.specs.declared.error.Failed.TheVariants as failed;
ghost use Rattle.dstm_model.specs.Map.{state_after, value_at};
ghost use Rattle.dstm_tables.specs.Callers.{home_of};
ghost use Rattle.dstm_tables.specs.Engines.{WorksBy};
ghost use Rattle.dstm_tables.specs.Founders.{Enrols, Retires, history_by, home_there, made_of, out_of};
ghost use Rattle.dstm_tables.specs.Tables.{callers_there, start_there};
ghost use Rattle.dstm_tables.specs.declared.engine.Engine.TheVariants.{Dstm, Tl2};

use crate::cell::{Cell, Word};
use crate::error::{Failed, GaveUp};
use crate::thread::{Me, Part};
use crate::turn::Turn;
use crate::under_way::{Attempt, Tx};
use crate::work::Work;
use dstm_model::{AnyLaw, Law, Val};
use dstm_tables::{Engine, EnrolError, Founder, MOST_OBJECTS, Manager, Table, make};
use std::alloc::{AllocError, Global};
use std::marker::PhantomData;
use std::thread::{Threads, for_each_mut, map_vec};

/// The most cells of a memory.
pub const MOST_CELLS: u32 = MOST_OBJECTS;

/// The most threads of a run.
pub const MOST_THREADS: u32 = 63;

/// Cells that transactions on threads may change, under a law: one that forbids nothing, where none is named.
#[derive(Drop)]
pub struct Memory<L: Law = AnyLaw> {
    alloc: Global,
    engine: Engine,
    law: L,
    values: Vec<Val>,
    ghost few: { length values.items ≤ 524288 },
}

// A thread's part in a run, its number, and how it ended.
#[derive(Drop)]
struct Seat<'a, X> {
    me: Part<'a, X>,
    number: usize,
    ended: Result<(), GaveUp>,
}

// How a thread has ended, the number of the newest that its part has committed, and how many numbers that has drawn.
#[derive(Drop)]
struct Ended<T> {
    end: Result<T, GaveUp>,
    newest: Option<u64>,
    draws: u64,
}

impl Memory {
    /// A memory with no cell, which works by TL2.
    pub fn new(alloc: Global) -> Memory
        ensures engine { result.engine ≡ Tl2 }
        ensures empty { result.values.items ≡ [] }
    {
        Memory::with_law(alloc, Engine::Tl2, AnyLaw)
    }

    /// One that works by DSTM under a manager, which decides what a transaction does when another one is changing a cell
    /// that it wants to change.
    pub fn with_manager(alloc: Global, manager: Manager) -> Memory
        ensures engine { result.engine ≡ Dstm manager }
        ensures empty { result.values.items ≡ [] }
    {
        Memory::with_law(alloc, Engine::Dstm(manager), AnyLaw)
    }
}

impl<L: Law + Copy> Memory<L> {
    /// A memory with no cell, whose runs keep a law over the values of its cells, in the order in which they were made.
    pub fn with_law(alloc: Global, engine: Engine, law: L) -> Memory<L>
        ensures engine { result.engine ≡ engine }
        ensures law { result.law ≡ law }
        ensures empty { result.values.items ≡ [] }
    {
        Memory {
            alloc,
            engine,
            law,
            values: Vec::new(alloc),
        }
    }

    /// A new cell. There are at most 524,288.
    pub fn cell<T: Word>(&mut self, value: T) -> Result<Cell<T>, Failed>
        ensures engine { self.new.engine ≡ self.old.engine }
        ensures law { self.new.law ≡ self.old.law }
        ensures full { result ≡ Err failed.Full ↔ length self.old.values.items ≡ 524288 }
        ensures fails { IfErr result (λ why. (self.new.values.items ≡ self.old.values.items) × WantsRoom why) }
        ensures made { IfOk result (λ cell. Adds T.found self.old.values.items self.new.values.items cell.object value) }
    {
        if self.values.len() >= MOST_CELLS as usize {
            return Err(Failed::Full);
        }
        let object = self.values.len() as u32;
        self.values.push(value.to_val())?;
        Ok(Cell {
            object,
            holds: PhantomData,
        })
    }

    /// So many new cells, each of which holds the value.
    pub fn cells<T: Word>(&mut self, value: T, count: u32) -> Result<Vec<Cell<T>>, Failed>
        ensures engine { self.new.engine ≡ self.old.engine }
        ensures law { self.new.law ≡ self.old.law }
        ensures full { result ≡ Err failed.Full ↔ 524288 < length self.old.values.items + count }
        ensures fails { IfErr result (λ why. (self.new.values.items ≡ self.old.values.items) × WantsRoom why) }
        ensures count { IfOk result (λ cells. length cells.items ≡ count) }
        ensures made { IfOk result (λ cells. AddsAll T.found self.old.values.items self.new.values.items cells.items value) }
    {
        if count as usize > MOST_CELLS as usize - self.values.len() {
            return Err(Failed::Full);
        }
        let cells = names(self.alloc, self.values.len() as u32, count)?;
        let added = vec![in self.alloc; value.to_val(); count as usize]?;
        self.values.extend_from_slice(&added)?;
        Ok(cells)
    }

    /// What a cell holds between runs.
    pub fn get<T: Word>(&self, cell: Cell<T>) -> Result<T, Failed>
        ensures gets { IfOk result (λ value. value ≡ T.found (value_at self.now.values.items cell.object)) }
        ensures foreign { result ≡ Err failed.Foreign ↔ length self.now.values.items ≤ cell.object }
        ensures fails { IfErr result (λ why. why ≡ failed.Foreign) }
    {
        match self.values.get(cell.object as usize) {
            Some(value) => Ok(T::of_val(*value)),
            None => Err(Failed::Foreign),
        }
    }

    /// Puts a value into a cell between runs, and answers what it held.
    pub fn set<T: Word>(&mut self, cell: Cell<T>, value: T) -> Result<T, Failed>
        ensures engine { self.new.engine ≡ self.old.engine }
        ensures law { self.new.law ≡ self.old.law }
        ensures sets { IfOk result (λ had. Sets T.found self.old.values.items self.new.values.items cell.object had value) }
        ensures foreign { result ≡ Err failed.Foreign ↔ length self.old.values.items ≤ cell.object }
        ensures fails { IfErr result (λ why. (why ≡ failed.Foreign) × (self.new.values.items ≡ self.old.values.items)) }
    {
        let object = cell.object as usize;
        if object >= self.values.len() {
            return Err(Failed::Foreign);
        }
        let had = T::of_val(self.values[object]);
        self.values[object] = value.to_val();
        Ok(had)
    }

    /// A table that has the values of the cells, for a run of so many threads, from 1 to 63, and what gives out their
    /// parts.
    pub fn found(&self, threads: u32) -> Result<(Table<L>, Founder<L>), Failed>
        requires lawful { L.holds self.now.law self.now.values.items }
        ensures founds { IfOk result (λ t. Founds self.now.law self.now.values.items t.0 t.1) }
        ensures engine { IfOk result (λ t. WorksBy self.now.engine t.0) }
        ensures callers { IfOk result (λ t. callers_there t.0 ≡ threads + 1) }
        ensures threads { OnOk result ((1 ≤ threads) × (threads ≤ 63)) }
        ensures refused { result ≡ Err failed.Threads ↔ ((threads ≡ 0) ⊎ (63 < threads)) }
        ensures fails { IfErr result (λ why. (why ≡ failed.Threads) ⊎ (why ≡ failed.Memory)) }
    {
        if threads == 0 || threads > MOST_THREADS {
            return Err(Failed::Threads);
        }
        let start = Vec::from_slice(self.alloc, &self.values)?;
        Ok(make(self.alloc, self.engine, start, threads + 1, self.law)?)
    }

    /// A thread's part in a run on a table that was founded for it. From the seed come the random lengths of its waits.
    pub fn part<'a>(
        &self,
        table: &'a Table<L>,
        founder: &mut Founder<L>,
        seed: u64,
    ) -> Result<Me<'a, L>, Failed>
        requires table { home_there founder.old ≡ table.now }
        ensures table { home_there founder.new ≡ table.now }
        ensures home { IfOk result (λ me. home_of me.tx.attempts.caller ≡ table.now) }
        ensures enrols { IfOk result (λ me. Enrols L.holds founder.old founder.new seed me.tx.attempts.caller) }
        ensures looks { IfOk result (λ me. me.tx.looks ≡ 1048576) }
        ensures full { result ≡ Err failed.Threads ↔ made_of founder.old ≡ callers_there table.now }
        ensures fails { IfErr result (λ why. (why ≡ failed.Threads) ⊎ (why ≡ failed.Memory)) }
        ensures same { IfErr result (λ _. founder.new ≡ founder.old) }
    {
        match founder.caller(self.alloc, table, seed) {
            Ok(caller) => Ok(Part::of(Attempt::new(self.alloc, caller, table))),
            Err(EnrolError::Memory(error)) => Err(Failed::from(error)),
            Err(EnrolError::Full) => Err(Failed::Threads),
        }
    }

    /// Takes the values of the cells from a table that was founded for a run, by a transaction of a part of its own: those
    /// that they have together at its place in the order of all transactions. They are lawful.
    pub fn take(&mut self, table: &Table<L>, founder: &mut Founder<L>) -> Result<(), Failed>
        requires lawful { L.holds self.old.law self.old.values.items }
        requires founds { IsFor self.old.law self.old.values.items table.now }
        requires table { home_there founder.old ≡ table.now }
        ensures engine { self.new.engine ≡ self.old.engine }
        ensures law { self.new.law ≡ self.old.law }
        ensures lawful { L.holds self.new.law self.new.values.items }
        ensures size { length self.new.values.items ≡ length self.old.values.items }
        ensures table { home_there founder.new ≡ table.now }
        ensures takes { OnOk result (Takes L.holds founder.old founder.new self.new.values.items) }
        ensures full { result ≡ Err failed.Threads ↔ made_of founder.old ≡ callers_there table.now }
        ensures fails { IfErr result (λ why. (self.new ≡ self.old)
            × ((why ≡ failed.Threads) ⊎ (why ≡ failed.Memory) ⊎ (why ≡ failed.Unread))) }
        ensures unread { result ≡ Err failed.Unread → LeavesUnread L.holds founder.old founder.new }
        ensures gives { GivesAtMostOne L.holds founder.old founder.new }
    {
        let mut last = self.part(table, founder, 0)?;
        self.take_by(&mut last)
    }

    // Takes the values of the cells by a part of a table that was founded for a run.
    fn take_by(&mut self, last: &mut Me<'_, L>) -> Result<(), Failed>
        requires lawful { L.holds self.old.law self.old.values.items }
        requires founds { IsFor self.old.law self.old.values.items (home_of last.old.tx.attempts.caller) }
        ensures engine { self.new.engine ≡ self.old.engine }
        ensures law { self.new.law ≡ self.old.law }
        ensures lawful { L.holds self.new.law self.new.values.items }
        ensures size { length self.new.values.items ≡ length self.old.values.items }
        ensures reads { OnOk result (ReadsAll L.holds last.old.tx.attempts.caller self.new.values.items) }
        ensures fails { IfErr result (λ why. (self.new ≡ self.old) × ((why ≡ failed.Memory) ⊎ (why ≡ failed.Unread))) }
        ensures unread { result ≡ Err failed.Unread → CouldNotRead L.holds 64 last.old.tx.attempts.caller last.new.tx.attempts.caller }
    {
        let (values, _) = last.tx.values(self.alloc, self.values.len() as u32)?;
        self.values = values;
        Ok(())
    }

    // The same, by a transaction that stands behind all that these threads have committed, where nobody else has drawn a number
    // before it.
    fn take_behind<T>(&mut self, last: &mut Me<'_, L>, ends: &[Ended<T>]) -> Result<(), Failed>
        requires lawful { L.holds self.old.law self.old.values.items }
        requires founds { IsFor self.old.law self.old.values.items (home_of last.old.tx.attempts.caller) }
        ensures reads { OnOk result (ReadsBehind L.holds ends.now last.old.tx.attempts.caller self.new.values.items) }
        ensures engine { self.new.engine ≡ self.old.engine }
        ensures law { self.new.law ≡ self.old.law }
        ensures lawful { L.holds self.new.law self.new.values.items }
        ensures size { length self.new.values.items ≡ length self.old.values.items }
        ensures fails { IfErr result (λ why. (self.new ≡ self.old) × ((why ≡ failed.Memory) ⊎ (why ≡ failed.Unread))) }
        ensures unread { result ≡ Err failed.Unread → CouldNotRead L.holds 64 last.old.tx.attempts.caller last.new.tx.attempts.caller
            ⊎ ReadsAmiss L.holds ends.now last.old.tx.attempts.caller }
    {
        let (values, number) = last.tx.values(self.alloc, self.values.len() as u32)?;
        if !are_before(ends, number) || !have_drawn_all(ends, last.tx.attempts.draws(), number) {
            return Err(Failed::Unread);
        }
        self.values = values;
        Ok(())
    }

    /// Takes back a thread's part of a table. What it has committed is told by the founder's log.
    pub fn retire(&self, table: &Table<L>, founder: &mut Founder<L>, me: Me<'_, L>)
        requires table { home_there founder.old ≡ table.now }
        requires part { home_of me.tx.attempts.caller ≡ table.now }
        ensures table { home_there founder.new ≡ table.now }
        ensures retired { Retires L.holds founder.old founder.new me.entry.tx.attempts.caller }
    {
        let Part { tx, .. } = me;
        let Attempt { attempts, .. } = tx;
        founder.retire(table, attempts.into_caller());
    }

    /// Takes the values of the cells from a table that was founded for a run, and closes it: all parts are back, and the
    /// values are those behind all that took effect.
    pub fn close(&mut self, table: Table<L>, founder: Founder<L>) -> Result<(), Failed>
        requires founds { IsFor self.old.law self.old.values.items table }
        requires table { home_there founder ≡ table }
        requires out { out_of founder ≡ 0 }
        ensures engine { self.new.engine ≡ self.old.engine }
        ensures law { self.new.law ≡ self.old.law }
        ensures lawful { OnOk result (L.holds self.new.law self.new.values.items) }
        ensures size { length self.new.values.items ≡ length self.old.values.items }
        ensures values { OnOk result (self.new.values.items ≡ state_after (start_there table) (history_by founder)) }
        ensures fails { IfErr result (λ why. (why ≡ failed.Memory) × (self.new ≡ self.old)) }
    {
        self.values = table.close_plain(self.alloc, founder)?;
        Ok(())
    }

    // Gives out so many seats of the table, which share a turn.
    fn seats<'a>(
        &self,
        table: &'a Table<L>,
        founder: &mut Founder<L>,
        turn: &'a Turn,
        count: u32,
    ) -> Result<Vec<Seat<'a, Tx<'a, L>>>, Failed>
        requires table { home_there founder.old ≡ table.now }
        requires room { made_of founder.old + count ≤ callers_there table.now }
        ensures count { IfOk result (λ seats. length seats.items ≡ count) }
        ensures new { IfOk result (λ seats. HaveNew L.holds table.now seats.items) }
        ensures table { OnOk result (home_there founder.new ≡ table.now) }
        ensures gives { IfOk result (λ seats. GivesOutSeats L.holds founder.old seats.items founder.new) }
        ensures numbered { IfOk result (λ seats. AreNumbered seats.items) }
        ensures fails { IfErr result (λ why. why ≡ failed.Memory) }
    {
        let mut seats = Vec::with_capacity(self.alloc, count as usize)?;
        for seed in 0..count {
            seats.push(Seat {
                me: self.part(table, founder, u64::from(seed))?.with_turn(turn),
                number: seed as usize,
                ended: Ok(()),
            })?;
        }
        Ok(seats)
    }

    // Takes the parts of all seats back.
    fn retire_all(
        &self,
        table: &Table<L>,
        founder: &mut Founder<L>,
        seats: Vec<Seat<'_, Tx<'_, L>>>,
    )
        requires table { home_there founder.old ≡ table.now }
        requires parts { AreAt table.now seats.items }
        ensures table { home_there founder.new ≡ table.now }
        ensures takes { TakesBackSeats L.holds founder.old seats.entry.items founder.new }
    {
        for seat in seats {
            let Seat { me, .. } = seat;
            self.retire(table, founder, me);
        }
    }
}

impl<L: Law + Copy + Sync> Memory<L> {
    /// Does the work with each number below `threads`, from 1 to 63, each in a thread of its own where one can be made, as
    /// `run` does on a memory without a law. What it leaves is lawful.
    pub fn run_work<R: Threads + Sync, W: Work<L> + Sync>(
        &mut self,
        rt: &R,
        threads: u32,
        work: &W,
    ) -> Result<(), Failed>
        requires lawful { L.holds self.old.law self.old.values.items }
        ensures engine { self.new.engine ≡ self.old.engine }
        ensures law { self.new.law ≡ self.old.law }
        ensures lawful { L.holds self.new.law self.new.values.items }
        ensures size { length self.new.values.items ≡ length self.old.values.items }
        ensures threads { OnOk result ((1 ≤ threads) × (threads ≤ 63)) }
        ensures refused { (threads ≡ 0) ⊎ (63 < threads) → (result ≡ Err failed.Threads) × (self.new ≡ self.old) }
        ensures ended { OnOk result ((number : ℕ) → number < threads → W.ends work.now number (Ok tt)) }
        ensures fails { IfErr result (FailsFor (W.ends work.now)
            (RanInTurn L.holds self.old.engine self.old.law self.old.values.items threads (W.does work.now) (LeavesUnread L.holds)) threads) }
        ensures left { LeavesBy (RanInTurn L.holds self.old.engine self.old.law self.old.values.items threads (W.does work.now)
            (λ back last. Takes L.holds back last self.new.values.items)) (self.new ≡ self.old) result }
    {
        let (table, mut founder) = self.found(threads)?;
        let turn = Turn::new();
        let mut seats = self.seats(&table, &mut founder, &turn, threads)?;
        for_each_mut(
            rt,
            &mut seats,
            threads as usize,
            &|number, seat: &mut Seat<'_, Tx<'_, L>>|
                ensures { IsWorked (W.ends work.entry.now) (W.does work.entry.now) number seat.entry.now seat.exit.now }
            { seat.ended = work.work(&mut seat.me, number) },
        );
        let ended = how_all_ended(&seats);
        self.retire_all(&table, &mut founder, seats);
        self.take(&table, &mut founder)?;
        ended
    }
}

impl Memory {
    /// Calls the closure with each number below `threads`, from 1 to 63, each in a thread of its own where one can be
    /// made, and gives it the thread's part by which to make transactions. The values that it leaves are read behind all that
    /// the threads have committed, and nobody else has drawn a number on the table before that.
    pub fn run<R: Threads + Sync, F>(&mut self, rt: &R, threads: u32, f: F) -> Result<(), Failed>
    where
        F: Fn(&mut Me<'_>, usize) -> Result<(), GaveUp> + Sync,
        requires callable { F.IsAlwaysCallable f }
        ensures engine { self.new.engine ≡ self.old.engine }
        ensures size { length self.new.values.items ≡ length self.old.values.items }
        ensures threads { OnOk result ((1 ≤ threads) × (threads ≤ 63)) }
        ensures refused { (threads ≡ 0) ⊎ (63 < threads) → (result ≡ Err failed.Threads) × (self.new ≡ self.old) }
        ensures called { OnOk result ((number : ℕ) → number < threads
            → CalledFor ⟦<AnyLaw as Law>⟧.holds F.Fn f self.old.engine self.old.law self.old.values.items number (Ok tt)) }
        ensures fails { IfErr result (FailsFor
            (CalledFor ⟦<AnyLaw as Law>⟧.holds F.Fn f self.old.engine self.old.law self.old.values.items)
            (WasUnread ⟦<AnyLaw as Law>⟧.holds self.old.engine self.old.law self.old.values.items
            ⊎ WasReadAmiss ⟦<AnyLaw as Law>⟧.holds F.Fn f self.old.engine self.old.law self.old.values.items threads) threads) }
        ensures left { LeavesBy (RanOn ⟦<AnyLaw as Law>⟧.holds F.Fn f self.old.engine self.old.law self.old.values.items threads
            self.new.values.items (λ ends. OnOk result ((number : ℕ) → number < threads → ends number ≡ Ok tt)
            × FailsByFirst ends threads result)) (self.new ≡ self.old) result }
    {
        self.run_each(rt, threads, f)?;
        Ok(())
    }

    /// As `run`, and hands back what the closure has answered with each number, in their order. Where there is no memory for
    /// the answers, the cells are as before.
    pub fn run_each<R: Threads + Sync, T: Send + Drop, F>(
        &mut self,
        rt: &R,
        threads: u32,
        f: F,
    ) -> Result<Vec<T>, Failed>
    where
        F: Fn(&mut Me<'_>, usize) -> Result<T, GaveUp> + Sync,
        requires callable { F.IsAlwaysCallable f }
        ensures engine { self.new.engine ≡ self.old.engine }
        ensures size { length self.new.values.items ≡ length self.old.values.items }
        ensures threads { OnOk result ((1 ≤ threads) × (threads ≤ 63)) }
        ensures refused { (threads ≡ 0) ⊎ (63 < threads) → (result ≡ Err failed.Threads) × (self.new ≡ self.old) }
        ensures count { IfOk result (λ answers. length answers.items ≡ threads) }
        ensures called { IfOk result (λ answers. (number : ℕ) (other : T) → number < threads
            → CalledFor ⟦<AnyLaw as Law>⟧.holds F.Fn f self.old.engine self.old.law self.old.values.items number
            (Ok (slice_index_or answers.items number other))) }
        ensures fails { IfErr result (FailsFor
            (CalledFor ⟦<AnyLaw as Law>⟧.holds F.Fn f self.old.engine self.old.law self.old.values.items)
            (WasUnread ⟦<AnyLaw as Law>⟧.holds self.old.engine self.old.law self.old.values.items
            ⊎ WasReadAmiss ⟦<AnyLaw as Law>⟧.holds F.Fn f self.old.engine self.old.law self.old.values.items threads) threads) }
        ensures left { LeavesBy (RanOn ⟦<AnyLaw as Law>⟧.holds F.Fn f self.old.engine self.old.law self.old.values.items threads
            self.new.values.items (λ ends. IfOk result (λ answers. AnswerEach ends threads answers.items)
            × FailsByFirst ends threads result)) (self.new ≡ self.old) result }
    {
        let (table, mut founder) = self.found(threads)?;
        let mut reader = self.part(&table, &mut founder, 0)?;
        let answers = Vec::with_capacity(self.alloc, threads as usize)?;
        let turn = Turn::new();
        let seats = self.seats(&table, &mut founder, &turn, threads)?;
        let ends = map_vec(
            rt,
            seats,
            &|seat: Seat<'_, Tx<'_>>|
                requires { F.IsAlwaysCallable f }
                ensures { WasCalled F.Fn f seat.entry.number seat.entry.me result }
            { answer(&f, seat) },
        )?;
        self.take_behind(&mut reader, &ends)?;
        all_answers(answers, ends)
    }
}

// So many cells, from one number on.
fn names<T>(alloc: Global, first: u32, count: u32) -> Result<Vec<Cell<T>>, AllocError>
    requires few { first + count ≤ 524288 }
    ensures count { IfOk result (λ cells. length cells.items ≡ count) }
    ensures names { IfOk result (λ cells. AreNamed first cells.items) }
{
    let mut cells = Vec::with_capacity(alloc, count as usize)?;
    for number in 0..count {
        cells.push(Cell {
            object: first + number,
            holds: PhantomData,
        })?;
    }
    Ok(cells)
}

// How the first thread ended that did not end well.
fn how_all_ended<X>(seats: &[Seat<'_, X>]) -> Result<(), Failed>
    ensures well { OnOk result (All (λ seat. seat.ended ≡ Ok tt) seats.now) }
    ensures first { IfErr result (IsFirst seats.now) }
{
    for seat in seats {
        if let Err(why) = seat.ended {
            return Err(Failed::GaveUp(why));
        }
    }
    Ok(())
}

// Calls the closure on a seat, and hands back what it has answered, up to which number its part has committed then, and how many
// numbers that has drawn.
fn answer<T, F>(f: &F, seat: Seat<'_, Tx<'_>>) -> Ended<T>
where
    F: Fn(&mut Me<'_>, usize) -> Result<T, GaveUp>,
    requires callable { F.IsAlwaysCallable f.now }
    ensures { WasCalled F.Fn f.now seat.entry.number seat.entry.me result }
{
    let Seat { me, number, .. } = seat;
    let mut me = me;
    let end = f(&mut me, number);
    Ended {
        end,
        newest: me.tx.attempts.newest(),
        draws: me.tx.attempts.draws(),
    }
}

// Whether all that these threads have committed has smaller numbers.
fn are_before<T>(ends: &[Ended<T>], number: u64) -> bool
    ensures before { result ≡ true → All (λ ended. above ended.newest ≤ number) ends.now }
    ensures early { result ≡ false → ComesTooEarly ends.now number }
{
    for ended in ends {
        if let Some(newest) = ended.newest {
            if newest >= number {
                return false;
            }
        }
    }
    true
}

// Whether these threads, and one more that has drawn so many numbers, have drawn all up to this one.
fn have_drawn_all<T>(ends: &[Ended<T>], own: u64, number: u64) -> bool
    ensures all { result ≡ true → drawn_by ends.now + own ≡ number + 1 }
    ensures missing { result ≡ false → drawn_by ends.now + own ≢ number + 1 }
{
    let mut drawn = u128::from(own);
    for ended in ends {
        drawn = drawn.saturating_add(u128::from(ended.draws));
    }
    drawn == u128::from(number) + 1
}

// What all threads have answered, or how the first one ended that did not end well.
fn all_answers<T: Drop>(answers: Vec<T>, ends: Vec<Ended<T>>) -> Result<Vec<T>, Failed>
    requires none { answers.items ≡ [] }
    requires room { length ends.items ≤ vec_capacity answers }
    ensures well { IfOk result (λ answers. HaveAnswered (ends_of ends.items) answers.items) }
    ensures first { IfErr result (IsFirstOf (ends_of ends.items)) }
{
    let mut answers = answers;
    for ended in ends {
        let Ended { end, .. } = ended;
        match end {
            Ok(answer) => answers.push_reserved(answer),
            Err(why) => return Err(Failed::GaveUp(why)),
        }
    }
    Ok(answers)
}
