ghost use Rattle.std.specs.Prelude.{◌≡◌, ◌↔◌, ◌+◌, ◌<◌, ◌≤◌, length, true, IfOk, IfErr, IsOk, Some};
ghost use Rattle.dstm_model.specs.Map.{state_after};
ghost use Rattle.dstm_machines.specs.Traces.Access.{Add};
ghost use Rattle.dstm_tl2.specs.declared.kind.Kind.TheVariants.{Enrol};
ghost use Rattle.dstm_tl2.specs.Histories.{history_of};
ghost use Rattle.dstm_tl2.specs.Runs.{local};
ghost use Rattle.dstm_tl2.specs.Sharing.{IsRunOf, table_of};
ghost use Rattle.dstm_tl2.specs.State.{first};
ghost use Rattle.dstm_tl2.specs.Words.{place};
ghost use Rattle.dstm_tl2.specs.Words.Word.{CallersWord};
ghost use Rattle.dstm_tl2_words.specs.Seats.{view_of, CanEnrol, IsOf, Makes};
ghost use Rattle.dstm_tl2_engine.specs.Tables.{Enrols, IsFull, Retires, founded};

use crate::caller::TlCaller;
use crate::closing::settle;
use crate::error::TlEnrol;
use dstm_model::{Law, Val};
use dstm_tl2::{Kind, Terms};
use dstm_tl2_steps::Opened;
use dstm_tl2_words::{Tl2Seat, Words};
use std::alloc::{AllocError, Global};
use std::marker::Model;
use std::snapshot::Snapshot;

/// A transactional memory, which threads share by reference.
#[derive(Drop)]
pub struct TlStm<L: Law> {
    words: Words<L>,
    start: Vec<Val>,
    callers: u32,
    attempts: u64,
    law: L,
}

impl<L: Law> Model for TlStm<L> {
    ghost use Rattle.std.specs.Prelude.{◌≡◌, ◌≤◌, length};
    ghost use Rattle.dstm_tl2_words.specs.Seats.{Home};

    ghost Value = { Home L };

    ghost view = { λ s. s.words };

    ghost invariant = { λ s. (s.words.terms.start.value ≡ s.start) × (s.words.terms.callers ≡ s.callers)
        × (s.words.terms.attempts ≡ s.attempts) × (s.words.terms.law.value ≡ s.law)
        × (length s.start.items ≤ 1048576) };
}

/// What gives out the callers of a table.
#[derive(Drop)]
pub struct TlFounder<L: Law> {
    terms: Terms<L>,
    seat: Tl2Seat<L>,
    made: u32,
    out: u32,
}

impl<L: Law> Model for TlFounder<L> {
    ghost use Rattle.std.specs.Prelude.{◌≡◌, ◌+◌, ◌≤◌, true, [], Some};
    ghost use Rattle.dstm_tl2_engine.specs.Tables.{HasReturned, TlFounding};

    ghost Value = { TlFounding L };

    ghost view = { λ f. record {
      home = record { table = f.seat.table_id; terms = f.terms };
      view = f.seat.me.0;
      made = f.made;
    } };

    ghost invariant = { λ f. (f.seat.me.0.terms ≡ Some f.terms) × (f.seat.me.1 ≡ []) × (f.seat.me.0.first ≡ true)
        × (f.seat.me.0.out ≡ f.out) × (f.made ≤ f.terms.callers)
        × (f.terms.callers ≤ f.made + f.seat.me.0.enrolments) × HasReturned f.terms f.made f.seat.me.0 };
}

/// What is kept of a table that was closed.
#[derive(Drop)]
pub struct TlRecord<L: Law> {
    terms: Terms<L>,
    seat: Snapshot<Tl2Seat<L>>,
}

impl<L: Law> Model for TlRecord<L> {
    ghost use Rattle.dstm_tl2_engine.specs.Tables.{TlRecorded};

    ghost Value = { TlRecorded L };

    ghost view = { λ r. record { terms = r.terms; log = r.seat.value.me.0.log } };
}

impl<L: Law> TlRecord<L> {
    // What is kept of a table that was told this, by its founder's seat.
    fn of(terms: Terms<L>, seat: &Tl2Seat<L>) -> TlRecord<L>
        ensures { result ≡ record { terms = terms; log = (view_of seat.now).log } }
    {
        TlRecord {
            terms,
            seat: Snapshot::of(seat),
        }
    }
}

impl<L: Law> TlStm<L> {
    /// A new table, whose objects have these values, and what gives out its callers.
    pub fn make(
        alloc: Global,
        start: Vec<Val>,
        callers: u32,
        attempts: u32,
        law: L,
    ) -> Result<(TlStm<L>, TlFounder<L>), AllocError>
        requires objects { length start.items ≤ 1048576 }
        requires callers { (1 ≤ callers) × (callers ≤ 64) }
        requires attempts { (1 ≤ attempts) × (attempts ≤ 65536) }
        requires lawful { L.holds law start.items }
        ensures callers { IfOk result (λ t. t.0.terms.callers ≡ callers) }
        ensures attempts { IfOk result (λ t. t.0.terms.attempts ≡ attempts) }
        ensures law { IfOk result (λ t. t.0.terms.law.value ≡ law) }
        ensures start { IfOk result (λ t. t.0.terms.start.value.items ≡ start.items) }
        ensures founder { IfOk result (λ t. t.1 ≡ founded t.0) }
    {
        TlStm::make_long(alloc, start, callers, u64::from(attempts), law)
    }

    /// The same for more attempts: up to 2^54 of each caller, which no program uses up.
    pub fn make_long(
        alloc: Global,
        start: Vec<Val>,
        callers: u32,
        attempts: u64,
        law: L,
    ) -> Result<(TlStm<L>, TlFounder<L>), AllocError>
        requires objects { length start.items ≤ 1048576 }
        requires callers { (1 ≤ callers) × (callers ≤ 64) }
        requires attempts { (1 ≤ attempts) × (attempts ≤ 18014398509481984) }
        requires lawful { L.holds law start.items }
        ensures callers { IfOk result (λ t. t.0.terms.callers ≡ callers) }
        ensures attempts { IfOk result (λ t. t.0.terms.attempts ≡ attempts) }
        ensures law { IfOk result (λ t. t.0.terms.law.value ≡ law) }
        ensures start { IfOk result (λ t. t.0.terms.start.value.items ≡ start.items) }
        ensures founder { IfOk result (λ t. t.1 ≡ founded t.0) }
    {
        let terms = Terms {
            callers,
            attempts,
            law: Snapshot::of(&law),
            start: Snapshot::of(&start),
        };
        let (words, seat) = Words::of_terms(alloc, &terms, &start)?;
        let stm = TlStm {
            words,
            start,
            callers,
            attempts,
            law,
        };
        let founder = TlFounder {
            terms,
            seat,
            made: 0,
            out: 0,
        };
        Ok((stm, founder))
    }

    // The words of the table.
    pub(crate) fn words(&self) -> &Words<L>
        ensures { result.now ≡ self.now }
    {
        &self.words
    }

    // What the table was told.
    fn terms(&self) -> Terms<L>
        ensures { result ≡ self.now.terms }
    {
        Terms {
            callers: self.callers,
            attempts: self.attempts,
            law: Snapshot::of(&self.law),
            start: Snapshot::of(&self.start),
        }
    }

    /// How many objects the table has.
    pub fn objects(&self) -> u32
        ensures { result ≡ length self.now.terms.start.value.items }
    {
        self.start.len() as u32
    }

    /// How many attempts each caller has.
    pub fn attempts(&self) -> u64
        ensures { result ≡ self.now.terms.attempts }
    {
        self.attempts
    }

    // Draws the number of a caller whose seat has none.
    fn enrol(&self, seat: &mut Tl2Seat<L>) -> u32
        requires seat { IsOf self.now seat.old }
        requires new { CanEnrol (view_of seat.old) }
        ensures seat { IsOf self.now seat.new }
        ensures number { result < self.now.terms.callers }
        ensures enrols { Makes L.holds (view_of seat.old) Add Enrol (place (table_of self.now.terms) CallersWord) result
            (view_of seat.new) }
        ensures state { local (table_of self.now.terms) (view_of seat.new).log result
            ≡ record first { number = Some result } }
    {
        let callers = 3 * self.objects() as u64;
        self.words.add(seat, Kind::Enrol, callers) as u32
    }

    /// The current value of each object, and what is kept of the table: the last event of each caller is in its log. It
    /// copies no word and takes no memory of `alloc`, so it never fails.
    pub fn close(
        self,
        alloc: Global,
        founder: TlFounder<L>,
    ) -> Result<(Vec<Val>, TlRecord<L>), AllocError>
        requires founder { founder.home ≡ self }
        requires out { founder.view.out ≡ 0 }
        ensures done { IsOk result }
        ensures values { IfOk result (λ t. t.0.items
            ≡ state_after self.terms.start.value.items (history_of (table_of self.terms) founder.view.log)) }
        ensures lawful { IfOk result (λ t. L.holds self.terms.law.value t.0.items) }
        ensures record { IfOk result (λ t. t.1 ≡ record { terms = self.terms; log = founder.view.log }) }
        ensures run { IfOk result (λ t. IsRunOf L.holds t.1.terms t.1.log) }
    {
        let TlFounder { terms, seat, .. } = founder;
        let record = TlRecord::of(terms, &seat);
        let TlStm {
            words,
            start,
            law,
            ..
        } = self;
        drop(law);
        let left = words.close_in_place(seat);
        let values = settle(&left, start);
        left.free();
        Ok((values, record))
    }
}

impl<L: Law> TlFounder<L> {
    /// A new caller.
    pub fn caller(&mut self, alloc: Global, stm: &TlStm<L>) -> Result<TlCaller<L>, TlEnrol>
        requires table { self.old.home ≡ stm.now }
        ensures caller { IfOk result (λ k. Enrols L.holds self.old self.new k) }
        ensures full { IfErr result (λ e. IsFull e ↔ (self.old.made ≡ self.old.home.terms.callers)) }
        ensures room { IfOk result (λ _. self.old.made < self.old.home.terms.callers) }
        ensures same { IfErr result (λ _. self.new ≡ self.old) }
    {
        if self.made == stm.callers {
            return Err(TlEnrol::Full);
        }
        let objects = stm.objects();
        let opened = Opened::make(alloc, objects).map_err(TlEnrol::Memory)?;
        let mut seat = stm.words.split(&mut self.seat);
        self.made += 1;
        self.out += 1;
        let number = stm.enrol(&mut seat);
        Ok(TlCaller::enrolled(stm.terms(), seat, objects, number, opened))
    }

    /// Gives back what a dropped attempt of a caller has locked, and takes in what the caller has seen.
    pub fn retire(&mut self, stm: &TlStm<L>, caller: TlCaller<L>)
        requires table { self.old.home ≡ stm.now }
        requires caller { caller.home ≡ stm.now }
        ensures retired { Retires L.holds self.old self.new caller }
    {
        let mut caller = caller;
        caller.give_back(stm);
        stm.words.join(&mut self.seat, caller.into_seat());
        self.out = self.out.saturating_sub(1);
    }

    /// How many callers were made and not retired.
    pub fn out(&self) -> u32
        ensures { result ≡ self.now.view.out }
    {
        self.out
    }
}
