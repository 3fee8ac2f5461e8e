// The calls of a thread's part.
ghost use Rattle.std.specs.Prelude.{◌≡◌, ◌≢◌, ◌⊎◌, [], true, false, None, IfErr, IfSome, Ok};
ghost use Rattle.std.specs.Arc.{arc_value};
ghost use Rattle.dstm_attempts.specs.Attempts.{AddsNothing, Begins, BeginsNone, IsClosed, LooksChanged, LooksOnce, LooksSame, LooksSpent, clock, goes_on, is_under_way};
ghost use Rattle.dstm_tables.specs.Callers.{done, home_of};
ghost use Rattle.dstm_handles.specs.Threads.{BeginsOr, CallsOnce, Commits, Enters, Gets, GivesUp, HasBegun, HasNoneLeft, IsSame, Marks, MayCall, RefusesBy, Sets, UndoesTo, caller_of, code_for};
ghost use Rattle.dstm_handles.specs.Waiting.{FindsChangeBefore, HasNoRoomBefore, IsSpentBefore, LetsGoBefore, Looks};
ghost use Rattle.dstm_attempts.specs.declared.error.Look.TheVariants as look;
ghost use Rattle.dstm_handles.specs.declared.code.Code.TheVariants.{Again, Done, Idle, Memory, Open, Spent};

use crate::code::Code;
use crate::thread::Thread;
use dstm_attempts::Look;
use dstm_cells::{Courtesy, MOST_LOST, Owned, Stop, Turn, Why};
use dstm_model::{AnyLaw, Law, Val};
use dstm_tables::{Caller, Table};
use std::alloc::{AllocError, Global};
use std::sync::Arc;

impl Thread {
    /// The part that makes the attempts of a caller of this table.
    pub(crate) fn of(
        alloc: Global,
        table: Arc<Table<AnyLaw>, Global>,
        turn: Arc<Turn, Global>,
        caller: Caller<AnyLaw>,
    ) -> Thread
        requires home { home_of caller ≡ arc_value table }
        requires closed { IsClosed caller }
        requires none { done caller ≡ [] }
        ensures caller { caller_of result ≡ caller }
        ensures idle { result.begun ≡ false }
    {
        Thread {
            tx: Owned::of(alloc, table, caller),
            begun: false,
            waits: false,
            since: 0,
            turn,
            ticket: None,
            courtesy: Courtesy::new(),
        }
    }

    /// Before an attempt at a transaction that was lost so often. One that was lost often takes the turn of the memory's
    /// threads; `Again` where another one has it, which is let go first for some time.
    pub fn enter(&mut self, lost: u32) -> Code
        ensures { Enters self.old self.new result }
    {
        if lost >= MOST_LOST {
            self.ticket = self.turn.go_first(self.ticket);
        }
        if self.ticket.is_none() && self.turn.is_to_wait(&mut self.courtesy) {
            return Code::Again;
        }
        Code::Done
    }

    // Gives the turn back, where it has it.
    #[inline]
    fn end_turn(&mut self)
        ensures { IsSame self.old self.new }
    {
        if let Some(ticket) = self.ticket {
            self.turn.give_back(ticket);
            self.ticket = None;
        }
    }

    /// Begins a transaction, or the next attempt at one that was lost.
    #[inline(always)]
    pub fn begin(&mut self) -> Code
        ensures { BeginsOr ⟦<AnyLaw as Law>⟧.holds self.old self.new result }
    {
        if !self.begun {
            self.tx.renew_attempts();
            return self.attempt();
        }
        if self.is_open() {
            return Code::Open;
        }
        self.attempt()
    }

    // The attempt of a transaction is under way, which does not wait.
    #[inline]
    fn is_open(&self) -> bool
        ensures waits { result ≡ true → self.now.waits ≡ false }
        ensures live { result ≡ true → is_under_way (caller_of self.now) ≡ true }
        ensures over { result ≡ false → MayCall self.now → goes_on (caller_of self.now) ≡ true → ⊥ }
    {
        !self.waits && self.tx.is_under_way()
    }

    // Begins an attempt.
    fn attempt(&mut self) -> Code
        ensures begins { result ≡ Done → HasBegun ⟦<AnyLaw as Law>⟧.holds (caller_of self.old) self.new }
        ensures spent { result ≡ Spent → HasNoneLeft ⟦<AnyLaw as Law>⟧.holds (caller_of self.old) self.new }
        ensures tells { (result ≡ Done) ⊎ (result ≡ Spent) }
        ensures nothing { AddsNothing (caller_of self.old) (caller_of self.new) }
    {
        self.waits = false;
        match self.tx.begin_attempt() {
            Ok(()) => {
                self.begun = true;
                self.since = self.tx.clock();
                Code::Done
            }
            Err(_spent) => {
                self.end_turn();
                self.begun = false;
                Code::Spent
            }
        }
    }

    /// What a cell holds.
    #[inline(always)]
    pub fn get(&mut self, cell: u32) -> Result<Val, Code>
        ensures { Gets ⟦<AnyLaw as Law>⟧.holds cell self.old self.new result }
    {
        if let Some(code) = self.refused() {
            return Err(code);
        }
        match self.tx.read_object(cell) {
            Ok(value) => Ok(value),
            Err(why) => Err(code_of(why)),
        }
    }

    /// Puts a value into a cell, and answers what it held.
    pub fn set(&mut self, cell: u32, value: Val) -> Result<Val, Code>
        ensures { Sets ⟦<AnyLaw as Law>⟧.holds cell value self.old self.new result }
    {
        if let Some(code) = self.refused() {
            return Err(code);
        }
        match self.tx.set_object(cell, value) {
            Ok(had) => Ok(had),
            Err(why) => Err(code_of(why)),
        }
    }

    /// Makes a call on a structure of cells.
    #[inline]
    pub fn on<R: Drop, F>(&mut self, f: F) -> Result<R, Code>
    where
        F: FnOnce(&mut Owned) -> Result<R, Stop>,
        requires callable { F.IsAlwaysCallable f }
        ensures { CallsOnce (λ t. t.tx) F.FnOnce f self.old self.new result }
    {
        if let Some(code) = self.refused() {
            return Err(code);
        }
        match self.tx.call(f) {
            Ok(answer) => Ok(answer),
            Err(why) => Err(code_of(why)),
        }
    }

    /// Commits the transaction.
    #[inline(always)]
    pub fn commit(&mut self) -> Code
        ensures { Commits ⟦<AnyLaw as Law>⟧.holds self.old self.new result }
    {
        if let Some(code) = self.refused() {
            return code;
        }
        if self.tx.commit_attempt() {
            self.end_turn();
            self.begun = false;
            return Code::Done;
        }
        Code::Again
    }

    /// Gives the transaction up: nobody sees what it has set.
    pub fn abort(&mut self) -> Code
        ensures { GivesUp ⟦<AnyLaw as Law>⟧.holds self.old self.new result }
    {
        if !self.begun {
            return Code::Idle;
        }
        self.tx.abandon();
        self.end_turn();
        self.begun = false;
        Code::Done
    }

    /// One look whether something that the transaction has read may have changed: `Done` where nothing has, and
    /// `Again` where something has. At its first look a transaction lets go of what it has set, and from then on it can
    /// only look, begin again, or be given up.
    pub fn look(&mut self) -> Code
        ensures { Looks self.old self.new result }
    {
        if !self.begun {
            return Code::Idle;
        }
        match self.let_go() {
            Ok(Look::Same) => self.look_on(),
            Ok(Look::Changed) => Code::Again,
            Ok(Look::Spent) => {
                self.begun = false;
                Code::Spent
            }
            Err(_) => Code::Memory,
        }
    }

    // Lets go of what the transaction has set, where it has not looked yet.
    fn let_go(&mut self) -> Result<Look, AllocError>
        ensures same { result ≡ Ok look.Same → LetsGoBefore self.old.waits
            (caller_of self.old) (caller_of self.new) }
        ensures changed { result ≡ Ok look.Changed → FindsChangeBefore self.old.waits (caller_of self.old)
            (caller_of self.new) }
        ensures spent { result ≡ Ok look.Spent → IsSpentBefore self.old.waits (caller_of self.old)
            (caller_of self.new) }
        ensures memory { IfErr result (λ _. HasNoRoomBefore self.old.waits (caller_of self.old)
            (caller_of self.new)) }
        ensures waits { self.new.waits ≡ true }
        ensures since { self.new.since ≡ self.old.since }
        ensures begun { self.new.begun ≡ self.old.begun }
        ensures nothing { AddsNothing (caller_of self.old) (caller_of self.new) }
    {
        if self.waits {
            return Ok(Look::Same);
        }
        self.waits = true;
        self.end_turn();
        self.tx.let_go()
    }

    // One look, where the transaction holds nothing that others meet.
    fn look_on(&mut self) -> Code
        ensures same { result ≡ Done → LooksSame self.old.since (caller_of self.old) (caller_of self.new) }
        ensures changed { result ≡ Again → LooksChanged ⟦<AnyLaw as Law>⟧.holds self.old.since
            (caller_of self.old) (caller_of self.new) }
        ensures spent { result ≡ Spent → LooksSpent (caller_of self.old) (caller_of self.new) }
        ensures once { (result ≡ Done) ⊎ (result ≡ Again) → LooksOnce ⟦<AnyLaw as Law>⟧.holds (caller_of self.old)
            (caller_of self.new) }
        ensures unbegun { result ≡ Spent → BeginsNone ⟦<AnyLaw as Law>⟧.holds (caller_of self.old)
            (caller_of self.new) }
        ensures only { (result ≢ Memory) × (result ≢ Idle) }
        ensures tells { (result ≡ Done) ⊎ (result ≡ Again) ⊎ (result ≡ Spent) }
        ensures begun { result ≢ Spent → self.new.begun ≡ self.old.begun }
        ensures over { result ≡ Spent → self.new.begun ≡ false }
        ensures waits { self.new.waits ≡ self.old.waits }
        ensures since { self.new.since ≡ self.old.since }
        ensures nothing { AddsNothing (caller_of self.old) (caller_of self.new) }
    {
        match self.tx.look(self.since) {
            Look::Same => Code::Done,
            Look::Changed => Code::Again,
            Look::Spent => {
                self.begun = false;
                Code::Spent
            }
        }
    }

    /// Marks what the transaction has set, so that what it sets from here on can be undone.
    pub fn mark(&mut self) -> Result<u64, Code>
        ensures { Marks self.old self.new result }
    {
        if let Some(code) = self.refused() {
            return Err(code);
        }
        self.tx.note_settings();
        Ok(self.tx.count_noted() as u64)
    }

    /// Undoes what was set since a mark, the last one first. What was read stays read.
    pub fn undo_to(&mut self, mark: u64) -> Code
        ensures { UndoesTo ⟦<AnyLaw as Law>⟧.holds mark self.old self.new result }
    {
        if let Some(code) = self.refused() {
            return code;
        }
        if mark > self.tx.count_noted() as u64 {
            return Code::Range;
        }
        match self.tx.set_back_to(mark as usize) {
            Ok(()) => Code::Done,
            Err(why) => code_of(why),
        }
    }

    // Why a call on a transaction does nothing, if it does.
    #[inline]
    fn refused(&self) -> Option<Code>
        ensures may { result ≡ None → MayCall self.now }
        ensures may_not { IfSome result (λ code. MayCall self.now → ⊥) }
        ensures refuses { IfSome result (λ code. RefusesBy self.now (λ why. code ≡ why)) }
        ensures not_done { IfSome result (λ code. code ≢ Done) }
    {
        if !self.begun {
            return Some(Code::Idle);
        }
        if self.waits {
            return Some(Code::Again);
        }
        None
    }
}

// Why a call on the transaction has stopped.
#[inline]
fn code_of(why: Why) -> Code
    ensures code { result ≡ code_for why }
    ensures not_done { result ≢ Done }
{
    match why {
        Why::Again => Code::Again,
        Why::Retry => Code::Again,
        Why::Foreign => Code::Foreign,
        Why::Memory => Code::Memory,
    }
}
