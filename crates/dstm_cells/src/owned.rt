// A transaction that has no lifetime, and the calls of who makes its attempts: no closure is given one.
ghost use Rattle.std.specs.Prelude.{◌++◌, ◌≡◌, ◌≢◌, ◌≤◌, ◌<◌, List, [], ◌∷◌, length, true, false, Err, IfErr, IfOk, Ok, OnOk};
ghost use Rattle.std.specs.Arc.{arc_value};
ghost use Rattle.std.specs.Fn.{FnOnceReturnsAtMut};
ghost use Rattle.dstm_attempts.specs.Attempts.{AddsNothing, Begins, BeginsNone, Exchanges, Finds, IsAbandoned, IsClosed, IsLost, IsQuit, IsSpent, Keeps, LooksChanged, LooksOnce, LooksSame, LooksSpent, MayBegin, Opens, StoodTogether, TakesEffect, begun, clock, is_under_way, objects_of, renewed};
ghost use Rattle.dstm_attempts.specs.Waiting.{FindsChange, HasNoRoom, IsSpentLettingGo, LetsGo};
ghost use Rattle.dstm_attempts.specs.declared.error.Look.TheVariants as look;
ghost use Rattle.dstm_cells.specs.Alternatives.{HasSetBack, Notes, StopsUndoing, Undoes, noting, settings};
ghost use Rattle.dstm_cells.specs.UnderWay.{RefusesFor, StopsChange, StopsLook, answer_by};
ghost use Rattle.dstm_cells.specs.declared.error.GaveUp.TheVariants.{Spent};
ghost use Rattle.dstm_cells.specs.declared.under_way.Undo.{Undo};
ghost use Rattle.dstm_model.specs.declared.value.Val.{Val};
ghost use Rattle.dstm_tables.specs.Callers.{done, home_of};

use crate::error::{GaveUp, Stop, Why};
use crate::transaction::Transaction;
use crate::under_way::Attempt;
use dstm_attempts::Look;
use dstm_model::{AnyLaw, Law, Val};
use dstm_tables::{Caller, Table};
use std::alloc::{AllocError, Global};
use std::sync::Arc;

/// A transaction that has no lifetime: its table lives as long as one of them does.
pub type Owned = Attempt<AnyLaw, Arc<Table<AnyLaw>, Global>>;

impl Owned {
    /// What makes the transactions of one caller of a table, one after the other.
    pub fn of(alloc: Global, table: Arc<Table<AnyLaw>, Global>, caller: Caller<AnyLaw>) -> Owned
        requires home { home_of caller ≡ arc_value table }
        requires closed { IsClosed caller }
        requires none { done caller ≡ [] }
        ensures caller { result.attempts.caller ≡ caller }
        ensures looks { result.looks ≡ 1048576 }
        ensures unnoted { (result.notes ≡ false) × (result.undos.items ≡ []) }
    {
        Attempt::new(alloc, caller, table)
    }

    /// Makes the next attempt the first of a new transaction.
    pub fn renew_attempts(&mut self)
        ensures caller { self.new.attempts.caller ≡ renewed self.old.attempts.caller }
    {
        self.renew();
    }

    /// Begins an attempt, which has noted nothing.
    #[inline(always)]
    pub fn begin_attempt(&mut self) -> Result<(), GaveUp>
        ensures begins { OnOk result (Begins ⟦<AnyLaw as Law>⟧.holds self.old.attempts.caller self.new.attempts.caller) }
        ensures unbegun { IfErr result (λ _. BeginsNone ⟦<AnyLaw as Law>⟧.holds self.old.attempts.caller self.new.attempts.caller) }
        ensures spent { IfErr result (λ why. (why ≡ Spent) × IsSpent self.new.attempts.caller) }
        ensures none { IfErr result (λ _. begun self.new.attempts.caller ≡ begun self.old.attempts.caller) }
        ensures quit { IfErr result (λ _. IsQuit self.new.attempts.caller) }
        ensures nothing { AddsNothing self.old.attempts.caller self.new.attempts.caller }
        ensures unnoted { (self.new.notes ≡ false) × (self.new.undos.items ≡ []) }
    {
        self.begin()
    }

    /// An attempt is under way. By TL2 it is not told where the caller has none left.
    pub fn is_under_way(&self) -> bool
        ensures is { result ≡ true → is_under_way self.now.attempts.caller ≡ true }
        ensures is_not { result ≡ false → IsClosed self.now.attempts.caller }
    {
        self.attempts.is_under_way()
    }

    /// By TL2 how many numbers had been drawn as the last attempt began; by DSTM zero.
    pub fn clock(&self) -> u64
        ensures { result ≡ clock self.now.attempts.caller }
    {
        self.attempts.clock()
    }

    /// Opens an object for reading, and answers its value.
    #[inline(always)]
    pub fn read_object(&mut self, object: u32) -> Result<Val, Why>
        ensures keeps { Keeps self.old.attempts.caller self.new.attempts.caller }
        ensures stops { IfErr result (StopsLook ⟦<AnyLaw as Law>⟧.holds object self.old.attempts.caller self.new.attempts.caller) }
        ensures notes { (self.new.notes ≡ self.old.notes) × (self.new.undos.items ≡ self.old.undos.items) }
        ensures refuses { RefusesFor self.old.attempts.caller object result }
        ensures finds { IfOk result (Finds ⟦<AnyLaw as Law>⟧.holds self.old.attempts.caller self.new.attempts.caller object) }
        ensures once { OnOk result (Opens ⟦<AnyLaw as Law>⟧.holds false object self.old.attempts.caller self.new.attempts.caller) }
        ensures together { OnOk result (StoodTogether ⟦<AnyLaw as Law>⟧.holds self.new.attempts.caller) }
        ensures may { OnOk result ((map : List Val) × MayBegin ⟦<AnyLaw as Law>⟧.holds self.new.attempts.caller map) }
    {
        match self.read(object) {
            Ok(value) => Ok(value),
            Err(Stop { why }) => Err(why),
        }
    }

    /// Sets an object, and answers the value that it had. Where it notes what it sets, this is noted.
    #[inline(always)]
    pub fn set_object(&mut self, object: u32, value: Val) -> Result<Val, Why>
        ensures keeps { Keeps self.old.attempts.caller self.new.attempts.caller }
        ensures stops { IfErr result
            (StopsChange ⟦<AnyLaw as Law>⟧.holds self.old.notes object self.old.attempts.caller self.new.attempts.caller) }
        ensures notes { Notes ⟦<AnyLaw as Law>⟧.holds (noting self.old) (noting self.new) }
        ensures settings { settings (noting self.new) ≡ settings (noting self.old) }
        ensures noted { IfOk result (λ had. self.old.notes ≡ true
            → self.new.undos.items ≡ self.old.undos.items ++ (record { object = object; value = had } ∷ [])) }
        ensures unnoted { self.old.notes ≡ false → self.new.undos.items ≡ self.old.undos.items }
        ensures undos { IfErr result (λ _. self.new.undos.items ≡ self.old.undos.items) }
        ensures refuses { RefusesFor self.old.attempts.caller object result }
        ensures puts { IfOk result (λ had.
            Exchanges ⟦<AnyLaw as Law>⟧.holds self.old.attempts.caller self.new.attempts.caller object had value) }
        ensures once { OnOk result (Opens ⟦<AnyLaw as Law>⟧.holds true object self.old.attempts.caller self.new.attempts.caller) }
        ensures together { OnOk result (StoodTogether ⟦<AnyLaw as Law>⟧.holds self.new.attempts.caller) }
        ensures may { OnOk result ((map : List Val) × MayBegin ⟦<AnyLaw as Law>⟧.holds self.new.attempts.caller map) }
    {
        match self.change(object, |_| value) {
            Ok(had) => Ok(had),
            Err(Stop { why }) => Err(why),
        }
    }

    /// Calls a closure on the transaction, and tells why it has stopped, where it has.
    #[inline]
    pub fn call<R: Drop, F>(&mut self, f: F) -> Result<R, Why>
    where
        F: FnOnce(&mut Owned) -> Result<R, Stop>,
        requires callable { F.IsAlwaysCallable f }
        ensures { FnOnceReturnsAtMut F.FnOnce f self.old (answer_by result) self.new }
    {
        match f(self) {
            Ok(answer) => Ok(answer),
            Err(Stop { why }) => Err(why),
        }
    }

    /// Commits the attempt, and tells whether it has taken effect.
    #[inline(always)]
    pub fn commit_attempt(&mut self) -> bool
        ensures takes { result ≡ true → TakesEffect ⟦<AnyLaw as Law>⟧.holds self.old.attempts.caller self.new.attempts.caller }
        ensures keeps { result ≡ false → Keeps self.old.attempts.caller self.new.attempts.caller }
        ensures lost { result ≡ false → IsLost ⟦<AnyLaw as Law>⟧.holds self.old.attempts.caller self.new.attempts.caller }
        ensures home { home_of self.new.attempts.caller ≡ home_of self.old.attempts.caller }
        ensures notes { (self.new.notes ≡ self.old.notes) × (self.new.undos.items ≡ self.old.undos.items) }
    {
        self.attempts.commit(&self.table)
    }

    /// Leaves the attempt: nobody sees what it has set.
    pub fn abandon(&mut self)
        ensures leaves { IsAbandoned ⟦<AnyLaw as Law>⟧.holds self.old.attempts.caller self.new.attempts.caller }
        ensures keeps { Keeps self.old.attempts.caller self.new.attempts.caller }
        ensures quit { IsQuit self.new.attempts.caller }
    {
        self.attempts.abandon(&self.table);
    }

    /// Lets go of what the attempt has set, before it is looked whether something has changed.
    pub fn let_go(&mut self) -> Result<Look, AllocError>
        ensures same { result ≡ Ok look.Same → LetsGo ⟦<AnyLaw as Law>⟧.holds self.old.attempts.caller self.new.attempts.caller }
        ensures changed { result ≡ Ok look.Changed
            → FindsChange ⟦<AnyLaw as Law>⟧.holds self.old.attempts.caller self.new.attempts.caller }
        ensures spent { result ≡ Ok look.Spent → IsSpentLettingGo self.old.attempts.caller self.new.attempts.caller }
        ensures unbegun { result ≡ Ok look.Spent
            → BeginsNone ⟦<AnyLaw as Law>⟧.holds self.old.attempts.caller self.new.attempts.caller }
        ensures memory { IfErr result (λ _. HasNoRoom self.old.attempts.caller self.new.attempts.caller) }
        ensures begun { begun self.old.attempts.caller ≤ begun self.new.attempts.caller }
        ensures nothing { AddsNothing self.old.attempts.caller self.new.attempts.caller }
    {
        self.attempts.let_go(&self.table)
    }

    /// One look whether something has changed since so many numbers had been drawn, where it holds nothing that others meet.
    pub fn look(&mut self, since: u64) -> Look
        ensures same { result ≡ look.Same → LooksSame since self.old.attempts.caller self.new.attempts.caller }
        ensures changed { result ≡ look.Changed
            → LooksChanged ⟦<AnyLaw as Law>⟧.holds since self.old.attempts.caller self.new.attempts.caller }
        ensures spent { result ≡ look.Spent → LooksSpent self.old.attempts.caller self.new.attempts.caller }
        ensures once { result ≢ look.Spent → LooksOnce ⟦<AnyLaw as Law>⟧.holds self.old.attempts.caller self.new.attempts.caller }
        ensures unbegun { result ≡ look.Spent
            → BeginsNone ⟦<AnyLaw as Law>⟧.holds self.old.attempts.caller self.new.attempts.caller }
        ensures live { result ≡ look.Same → is_under_way self.new.attempts.caller ≡ true }
        ensures nothing { AddsNothing self.old.attempts.caller self.new.attempts.caller }
    {
        self.attempts.look(&self.table, since)
    }

    /// From here on it notes what it sets, so that this can be undone.
    pub fn note_settings(&mut self)
        ensures notes { self.new.notes ≡ true }
        ensures same { (self.new.attempts ≡ self.old.attempts) × (self.new.table ≡ self.old.table)
            × (self.new.undos ≡ self.old.undos) × (self.new.looks ≡ self.old.looks) }
    {
        self.notes = true;
    }

    /// How much it has noted.
    pub fn count_noted(&self) -> usize
        ensures { result ≡ length self.now.undos.items }
    {
        self.undos.len()
    }

    /// Undoes what was set since so much was noted, the last one first. What was read stays read.
    pub fn set_back_to(&mut self, kept: usize) -> Result<(), Why>
        ensures keeps { Keeps self.old.attempts.caller self.new.attempts.caller }
        ensures notes { settings (noting self.new) ≡ settings (noting self.old) }
        ensures undone { OnOk result ((first added : List Undo) → self.old.undos.items ≡ first ++ added → length first ≡ kept
            → Undoes ⟦<AnyLaw as Law>⟧.holds first added [] (noting self.old) (noting self.new)) }
        ensures back { OnOk result ((first added : List Undo) → self.old.undos.items ≡ first ++ added → length first ≡ kept
            → HasSetBack ⟦<AnyLaw as Law>⟧.holds self.old.undos.items first self.old.attempts.caller self.new.attempts.caller) }
        ensures left { IfErr result (λ _. (first added : List Undo) → self.old.undos.items ≡ first ++ added → length first ≡ kept
            → (left : List Undo) × Undoes ⟦<AnyLaw as Law>⟧.holds first added left (noting self.old) (noting self.new)) }
        ensures some { IfErr result (λ _. kept < length self.old.undos.items) }
        ensures stops { IfErr result (λ why. StopsUndoing ⟦<AnyLaw as Law>⟧.holds self.old.undos.items self.old.attempts.caller
            self.new.attempts.caller (record { why = why })) }
    {
        match self.undo_to(kept) {
            Ok(()) => Ok(()),
            Err(Stop { why }) => Err(why),
        }
    }
}
