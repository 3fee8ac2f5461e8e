// What a closure may do in its transaction.
ghost use Rattle.std.specs.Prelude.{◌++◌, ◌⊎◌, ◌≡◌, List, [], ◌∷◌, length, true, false, IfErr, IfOk, Ok, OnOk, Err, if◌then◌else◌};
ghost use Rattle.dstm_tables.specs.Callers.{done, home_of, law_of};
ghost use Rattle.dstm_attempts.specs.Attempts.{Exchanges, Finds, IsClosed, IsUntouched, Keeps, MayBegin, Opens, StoodTogether, objects_of};
ghost use Rattle.dstm_cells.specs.Alternatives.{Notes, NotesOnce, OpensAndSets, OrElse, noting, settings};
ghost use Rattle.dstm_cells.specs.Attempts.{CouldNotRead, Follows, FollowsLooks, FollowsOver, FollowsRetry, ReadsInTurn, StaysFor, StaysLooking, StaysWaiting, StopsReading, WithinLooks};
ghost use Rattle.dstm_cells.specs.Cells.{ReadsAll};
ghost use Rattle.dstm_cells.specs.Closures.{KeepsOnce};
ghost use Rattle.dstm_cells.specs.UnderWay.{Changes, Gets, Refuses, StopsChange, StopsLook, stop_by};
ghost use Rattle.dstm_cells.specs.declared.error.Failed.TheVariants as failed;
ghost use Rattle.dstm_cells.specs.declared.error.Why.TheVariants.{Retry};

use crate::alternatives::or_else;
use crate::cell::{Cell, Word};
use crate::error::{Failed, GaveUp, Stop, Why};
use crate::holds::Holds;
use crate::rest::Rest;
use crate::transaction::Transaction;
use crate::under_way::{Attempt, Tx, Undo};
use dstm_attempts::{Attempts, Look};
use dstm_model::{AnyLaw, Law, Val};
use dstm_tables::Caller;
use std::alloc::{AllocFailed, Global};

/// How often a transaction that retries looks whether something that it has read has changed, where it is not told.
pub const LOOKS: u32 = 1_048_576;

// How often all objects are read together when nobody sets them any more.
const READINGS: u32 = 64;

impl<L: Law, S: Holds<L>> Attempt<L, S> {
    // What makes the transactions of one caller of a table, one after the other.
    pub(crate) fn new(alloc: Global, caller: Caller<L>, table: S) -> Attempt<L, S>
        requires table { home_of caller ≡ S.held table }
        requires closed { IsClosed caller }
        requires none { done caller ≡ [] }
        ensures caller { result.attempts.caller ≡ caller }
        ensures looks { result.looks ≡ 1048576 }
        ensures unnoted { (result.notes ≡ false) × (result.undos.items ≡ []) }
    {
        Attempt {
            attempts: Attempts::of(alloc, caller),
            table,
            undos: Vec::new(alloc),
            notes: false,
            looks: LOOKS,
        }
    }

    /// What a cell holds.
    pub fn get<T: Word>(&mut self, cell: Cell<T>) -> Result<T, Stop>
        ensures keeps { Keeps self.old.attempts.caller self.new.attempts.caller }
        ensures stops { IfErr result (λ stop. StopsLook L.holds cell.object self.old.attempts.caller self.new.attempts.caller stop.why) }
        ensures notes { Notes L.holds (noting self.old) (noting self.new) }
        ensures undos { self.new.undos.items ≡ self.old.undos.items }
        ensures refuses { Refuses self.old.attempts.caller cell.object result }
        ensures gets { IfOk result (Gets L.holds T.found self.old.attempts.caller self.new.attempts.caller cell.object) }
        ensures once { OnOk result (Opens L.holds false cell.object self.old.attempts.caller self.new.attempts.caller) }
        ensures together { OnOk result (StoodTogether L.holds self.new.attempts.caller) }
        ensures may { OnOk result ((map : List Val) × MayBegin L.holds self.new.attempts.caller map) }
    {
        let val = self.read(cell.object)?;
        Ok(T::of_val(val))
    }

    /// Puts a value into a cell.
    pub fn set<T: Word>(&mut self, cell: Cell<T>, value: T) -> Result<(), Stop>
        ensures keeps { Keeps self.old.attempts.caller self.new.attempts.caller }
        ensures stops { IfErr result (λ stop. StopsChange L.holds self.old.notes cell.object self.old.attempts.caller self.new.attempts.caller stop.why) }
        ensures notes { Notes L.holds (noting self.old) (noting self.new) }
        ensures unnoted { self.old.notes ≡ false → self.new.undos.items ≡ self.old.undos.items }
        ensures undos { IfErr result (λ _. self.new.undos.items ≡ self.old.undos.items) }
        ensures refuses { Refuses self.old.attempts.caller cell.object result }
        ensures puts { OnOk result ((had : T) × Changes L.holds T.found self.old.attempts.caller self.new.attempts.caller cell.object had value) }
        ensures once { OnOk result (Opens L.holds true cell.object self.old.attempts.caller self.new.attempts.caller) }
        ensures together { OnOk result (StoodTogether L.holds self.new.attempts.caller) }
        ensures may { OnOk result ((map : List Val) × MayBegin L.holds self.new.attempts.caller map) }
    {
        let _old = self.replace(cell, value)?;
        Ok(())
    }

    /// Puts a value into a cell, and answers what it held.
    pub fn replace<T: Word>(&mut self, cell: Cell<T>, value: T) -> Result<T, Stop>
        ensures keeps { Keeps self.old.attempts.caller self.new.attempts.caller }
        ensures stops { IfErr result (λ stop. StopsChange L.holds self.old.notes cell.object self.old.attempts.caller self.new.attempts.caller stop.why) }
        ensures notes { Notes L.holds (noting self.old) (noting self.new) }
        ensures unnoted { self.old.notes ≡ false → self.new.undos.items ≡ self.old.undos.items }
        ensures undos { IfErr result (λ _. self.new.undos.items ≡ self.old.undos.items) }
        ensures refuses { Refuses self.old.attempts.caller cell.object result }
        ensures puts { IfOk result (λ had. Changes L.holds T.found self.old.attempts.caller self.new.attempts.caller cell.object had value) }
        ensures once { OnOk result (Opens L.holds true cell.object self.old.attempts.caller self.new.attempts.caller) }
        ensures together { OnOk result (StoodTogether L.holds self.new.attempts.caller) }
        ensures may { OnOk result ((map : List Val) × MayBegin L.holds self.new.attempts.caller map) }
    {
        let old = self.change(cell.object, |_| value.to_val())?;
        Ok(T::of_val(old))
    }

    /// Changes what a cell holds, and answers what it held.
    pub fn update<T: Word, F: FnOnce(T) -> T>(&mut self, cell: Cell<T>, f: F) -> Result<T, Stop>
        requires callable { F.IsAlwaysCallable f }
        ensures keeps { Keeps self.old.attempts.caller self.new.attempts.caller }
        ensures stops { IfErr result (λ stop. StopsChange L.holds self.old.notes cell.object self.old.attempts.caller self.new.attempts.caller stop.why) }
        ensures notes { Notes L.holds (noting self.old) (noting self.new) }
        ensures unnoted { self.old.notes ≡ false → self.new.undos.items ≡ self.old.undos.items }
        ensures undos { IfErr result (λ _. self.new.undos.items ≡ self.old.undos.items) }
        ensures refuses { Refuses self.old.attempts.caller cell.object result }
        ensures puts { IfOk result (λ had.
            (value : T) × F.post f had value × Changes L.holds T.found self.old.attempts.caller self.new.attempts.caller cell.object had value) }
        ensures once { OnOk result (Opens L.holds true cell.object self.old.attempts.caller self.new.attempts.caller) }
        ensures together { OnOk result (StoodTogether L.holds self.new.attempts.caller) }
        ensures may { OnOk result ((map : List Val) × MayBegin L.holds self.new.attempts.caller map) }
    {
        let old = self.change(cell.object, |val| f(T::of_val(val)).to_val())?;
        Ok(T::of_val(old))
    }

    /// Retries where the condition does not hold: the closure is called again once something that it has read has
    /// changed.
    pub fn ensure(&self, holds: bool) -> Result<(), Stop>
        ensures { result ≡ (if holds then Ok tt else Err (stop_by Retry)) }
    {
        ensure(holds)
    }

    /// Has the closure called again once something that it has read has changed; by TL2 once any transaction may have taken
    /// effect.
    pub fn retry<R>(&self) -> Result<R, Stop>
        ensures { result ≡ Err (stop_by Retry) }
    {
        retry()
    }

    // Opens an object for reading.
    pub(crate) fn read(&mut self, object: u32) -> Result<Val, Stop>
        ensures keeps { Keeps self.old.attempts.caller self.new.attempts.caller }
        ensures stops { IfErr result (λ stop. StopsLook L.holds object self.old.attempts.caller self.new.attempts.caller stop.why) }
        ensures notes { Notes L.holds (noting self.old) (noting self.new) }
        ensures settings { settings (noting self.new) ≡ settings (noting self.old) }
        ensures undos { self.new.undos.items ≡ self.old.undos.items }
        ensures refuses { Refuses self.old.attempts.caller object result }
        ensures finds { IfOk result (Finds L.holds self.old.attempts.caller self.new.attempts.caller object) }
        ensures once { OnOk result (Opens L.holds false object self.old.attempts.caller self.new.attempts.caller) }
        ensures together { OnOk result (StoodTogether L.holds self.new.attempts.caller) }
        ensures may { OnOk result ((map : List Val) × MayBegin L.holds self.new.attempts.caller map) }
    {
        let value = self.attempts.read(self.table.table(), object)?;
        Ok(value)
    }

    // Sets an object to what this makes of its value, and answers what it had. In an alternative this is noted.
    pub(crate) fn change<F: FnOnce(Val) -> Val>(&mut self, object: u32, f: F) -> Result<Val, Stop>
        requires callable { F.IsAlwaysCallable f }
        ensures keeps { Keeps self.old.attempts.caller self.new.attempts.caller }
        ensures stops { IfErr result (λ stop. StopsChange L.holds self.old.notes object self.old.attempts.caller self.new.attempts.caller stop.why) }
        ensures notes { Notes L.holds (noting self.old) (noting self.new) }
        ensures settings { settings (noting self.new) ≡ settings (noting self.old) }
        ensures noted { IfOk result (λ had. self.old.notes ≡ true
            → self.new.undos.items ≡ self.old.undos.items ++ (record { object = object; value = had } ∷ [])) }
        ensures unnoted { self.old.notes ≡ false → self.new.undos.items ≡ self.old.undos.items }
        ensures undos { IfErr result (λ _. self.new.undos.items ≡ self.old.undos.items) }
        ensures refuses { Refuses self.old.attempts.caller object result }
        ensures changes { IfOk result (λ had.
            (value : Val) × F.post f had value × Exchanges L.holds self.old.attempts.caller self.new.attempts.caller object had value) }
        ensures once { OnOk result (Opens L.holds true object self.old.attempts.caller self.new.attempts.caller) }
        ensures together { OnOk result (StoodTogether L.holds self.new.attempts.caller) }
        ensures may { OnOk result ((map : List Val) × MayBegin L.holds self.new.attempts.caller map) }
    {
        let value = self.attempts.write(self.table.table(), object)?;
        note_undo(&mut self.undos, self.notes, Undo { object, value })?;
        self.attempts.set(self.table.table(), object, f(value));
        Ok(value)
    }

    // Sets an object, and opens it for writing where it is not open. It notes nothing.
    pub(crate) fn put(&mut self, object: u32, value: Val) -> Result<(), Stop>
        ensures keeps { Keeps self.old.attempts.caller self.new.attempts.caller }
        ensures stops { IfErr result (λ stop. StopsChange L.holds false object self.old.attempts.caller self.new.attempts.caller stop.why) }
        ensures undos { self.new.undos.items ≡ self.old.undos.items }
        ensures notes { settings (noting self.new) ≡ settings (noting self.old) }
        ensures refuses { Refuses self.old.attempts.caller object result }
        ensures puts { OnOk result ((had : Val) × Exchanges L.holds self.old.attempts.caller self.new.attempts.caller object had value) }
        ensures once { OnOk result (OpensAndSets L.holds object self.old.attempts.caller self.new.attempts.caller) }
    {
        let _old = self.attempts.write(self.table.table(), object)?;
        self.attempts.set(self.table.table(), object, value);
        Ok(())
    }

    // What follows where a closure has stopped the attempt. After a retry it waits.
    pub(crate) fn follow<R: Rest>(&mut self, why: Why, rest: &mut R) -> Result<(), GaveUp>
        ensures stays { StaysFor why self.old.attempts.caller self.new.attempts.caller }
        ensures looks { self.new.looks ≡ self.old.looks }
        ensures follows { WithinLooks R.tires self.old.looks (λ looks.
            Follows L.holds looks self.old.attempts.caller why self.new.attempts.caller result) }
    {
        match why {
            Why::Again => self.over(),
            Why::Retry => self.wait(rest),
            Why::Foreign => Err(GaveUp::Foreign),
            Why::Memory => Err(GaveUp::Memory),
        }
    }

    // What follows where the closure was told that an attempt is over: nothing, where its own is still under way.
    fn over(&self) -> Result<(), GaveUp>
        ensures { FollowsOver self.now.attempts.caller result }
    {
        if self.attempts.is_under_way() {
            return Err(GaveUp::Elsewhere);
        }
        Ok(())
    }

    // Waits until something has changed. First the attempt lets go of what it has set, so that it stands in nobody's way.
    fn wait<R: Rest>(&mut self, rest: &mut R) -> Result<(), GaveUp>
        ensures stays { StaysWaiting self.old.attempts.caller self.new.attempts.caller }
        ensures looks { self.new.looks ≡ self.old.looks }
        ensures follows { WithinLooks R.tires self.old.looks (λ looks.
            FollowsRetry L.holds looks self.old.attempts.caller self.new.attempts.caller result) }
    {
        match self.attempts.let_go(self.table.table()) {
            Ok(Look::Same) => self.look_on(rest),
            Ok(Look::Changed) => Ok(()),
            Ok(Look::Spent) => Err(GaveUp::Spent),
            Err(_) => Err(GaveUp::Memory),
        }
    }

    // Looks until something has changed, or it is tired. It rests before each look.
    fn look_on<R: Rest>(&mut self, rest: &mut R) -> Result<(), GaveUp>
        ensures stays { StaysLooking self.old.attempts.caller self.new.attempts.caller }
        ensures looks { self.new.looks ≡ self.old.looks }
        ensures follows { WithinLooks R.tires self.old.looks (λ looks.
            FollowsLooks L.holds looks self.old.attempts.caller self.new.attempts.caller result) }
    {
        let began = self.attempts.clock();
        for _look in 0..self.looks {
            rest.rest();
            match self.attempts.look(self.table.table(), began) {
                Look::Same => {}
                Look::Changed => return Ok(()),
                Look::Spent => return Err(GaveUp::Spent),
            }
            if rest.is_tired() {
                return Err(GaveUp::Idle);
            }
        }
        Err(GaveUp::Idle)
    }

    // The values of all objects, so many, by one transaction, and its number. They are lawful.
    pub(crate) fn values(&mut self, alloc: Global, objects: u32) -> Result<(Vec<Val>, u64), Failed>
        requires all { objects ≡ objects_of self.old.attempts.caller }
        ensures all { IfOk result (λ read. length read.0.items ≡ objects) }
        ensures lawful { IfOk result (λ read. L.holds (law_of self.old.attempts.caller) read.0.items) }
        ensures reads { IfOk result (λ read.
            (reads : ReadsAll L.holds self.old.attempts.caller read.0.items) × (reads.takes.number ≡ read.1)
            × (reads.after ≡ self.new.attempts.caller)) }
        ensures fails { IfErr result (λ why. (why ≡ failed.Memory) ⊎ (why ≡ failed.Unread)) }
        ensures unread { result ≡ Err failed.Unread → CouldNotRead L.holds 64 self.old.attempts.caller self.new.attempts.caller }
    {
        for _reading in 0..READINGS {
            let Ok(()) = self.begin() else {
                return Err(Failed::Unread);
            };
            match self.all(alloc, objects) {
                Ok(values) => {
                    if let Some(number) = self.attempts.commit_under(self.table.table()) {
                        return Ok((values, number));
                    }
                }
                Err(Stop { why: Why::Again }) => {}
                Err(Stop { why: _ }) => return Err(Failed::Memory),
            }
        }
        Err(Failed::Unread)
    }

    // The values of all objects, by an attempt that has set nothing. They are lawful.
    pub(crate) fn all(&mut self, alloc: Global, objects: u32) -> Result<Vec<Val>, Stop>
        requires all { objects ≡ objects_of self.old.attempts.caller }
        requires may { (map : List Val) × MayBegin L.holds self.old.attempts.caller map }
        requires untouched { IsUntouched self.old.attempts.caller }
        ensures all { IfOk result (λ values. length values.items ≡ objects) }
        ensures lawful { IfOk result (λ values. L.holds (law_of self.old.attempts.caller) values.items) }
        ensures reads { IfOk result (λ values. (map : List Val) → MayBegin L.holds self.new.attempts.caller map → map ≡ values.items) }
        ensures untouched { OnOk result (IsUntouched self.new.attempts.caller) }
        ensures keeps { Keeps self.old.attempts.caller self.new.attempts.caller }
        ensures in_turn { OnOk result
            (ReadsInTurn L.holds (objects_of self.old.attempts.caller) self.old.attempts.caller self.new.attempts.caller) }
        ensures stops { IfErr result (λ stop. StopsReading L.holds self.old.attempts.caller self.new.attempts.caller stop.why) }
    {
        let mut values = Vec::with_capacity(alloc, objects as usize)?;
        for object in 0..objects {
            values.push(self.read(object)?)?;
        }
        Ok(values)
    }
}

impl<'a> Tx<'a> {
    /// Goes on by the first alternative, or by the second one where the first retries. What the first has set is then
    /// undone; what it has read stays read, so that a change of it ends the waiting if the second retries too.
    pub fn or_else<R: Drop, F, G>(&mut self, first: F, second: G) -> Result<R, Stop>
    where
        F: FnOnce(&mut Tx<'_>) -> Result<R, Stop>,
        G: FnOnce(&mut Tx<'_>) -> Result<R, Stop>,
        requires first { F.IsAlwaysCallable first }
        requires second { G.IsAlwaysCallable second }
        ensures keeps { KeepsOnce (λ tx. tx.attempts.caller) F.FnOnce first → KeepsOnce (λ tx. tx.attempts.caller) G.FnOnce second
            → Keeps self.old.attempts.caller self.new.attempts.caller }
        ensures notes { NotesOnce noting F.FnOnce first ⟦<AnyLaw as Law>⟧.holds → NotesOnce noting G.FnOnce second ⟦<AnyLaw as Law>⟧.holds
            → Notes ⟦<AnyLaw as Law>⟧.holds (noting self.old) (noting self.new) }
        ensures does { NotesOnce noting F.FnOnce first ⟦<AnyLaw as Law>⟧.holds
            → OrElse noting ⟦<AnyLaw as Law>⟧.holds F.FnOnce first G.FnOnce second (noting self.old) (noting self.new) result }
    {
        or_else(self, first, second)
    }
}

/// Retries where the condition does not hold. It is `Tx::ensure` for a condition that itself reads cells, as in
/// `ensure(tx.get(count)? < 100)?`.
pub fn ensure(holds: bool) -> Result<(), Stop>
    ensures { result ≡ (if holds then Ok tt else Err (stop_by Retry)) }
{
    if holds { Ok(()) } else { retry() }
}

/// Has the closure called again once something that it has read has changed; by TL2 once any transaction may have taken
/// effect. It is `Tx::retry` where no transaction is at hand.
pub fn retry<R>() -> Result<R, Stop>
    ensures { result ≡ Err (stop_by Retry) }
{
    Err(Stop { why: Why::Retry })
}

// Notes, in an alternative, what an object had.
#[inline]
fn note_undo(undos: &mut Vec<Undo>, notes: bool, undo: Undo) -> Result<(), AllocFailed<Undo>>
    ensures noted { OnOk result (notes ≡ true → undos.new.items ≡ undos.old.items ++ (undo ∷ [])) }
    ensures unnoted { OnOk result (notes ≡ false → undos.new.items ≡ undos.old.items) }
    ensures failed { IfErr result (λ _. (notes ≡ true) × (undos.new.items ≡ undos.old.items)) }
{
    if !notes {
        return Ok(());
    }
    undos.push(undo)
}
