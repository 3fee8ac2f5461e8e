ghost use Rattle.std.specs.Prelude.{◌≡◌, ◌↔◌, ℕ, ◌+◌, ◌<◌, ◌≤◌, ◌∷◌, length, max, true, IfOk, IfErr, IsOk, MatchResult, MatchOption, OnOk, Some};
ghost use Rattle.dstm_core.specs.Histories.{history_of};
ghost use Rattle.dstm_core.specs.Words.{IsValid, place, word_count};
ghost use Rattle.dstm_engine.specs.Callers.{Called};
ghost use Rattle.dstm_engine.specs.Tables.{Enrols, Retires, founded};
ghost use Rattle.dstm_model.specs.Map.{state_after, value_at};
ghost use Rattle.dstm_opacity.specs.Laws.{IsCurrent};
ghost use Rattle.dstm_words.specs.Seats.{view_of, CanEnrol, IsOf, IsOut, IsRunOf, Joined, Makes, given_part, kept_part};
ghost use Rattle.dstm_core.specs.Runs.{local};
ghost use Rattle.dstm_core.specs.State.{first};
ghost use Rattle.dstm_machines.specs.Traces.Access.{Add};
ghost use Rattle.dstm_core.specs.Words.Word.{CallersWord};
ghost use Rattle.dstm_engine.specs.Tables.{IsFull};

use crate::caller::Caller;
use crate::closing::settle;
use crate::error::EnrolError;
use crate::opened::Opened;
use dstm_core::{Kind, Shape};
use dstm_managers::Decider;
use dstm_model::{Law, Val};
use dstm_words::{CoreSeat, Terms, Words, Zeros};
use std::alloc::{AllocError, Global};
use std::marker::Model;
use std::snapshot::Snapshot;

/// A transactional memory, which threads share by reference.
#[derive(Drop)]
pub struct Stm<L: Law> {
    words: Words<L>,
    shape: Shape,
    start: Vec<Val>,
    law: L,
}

impl<L: Law> Model for Stm<L> {
    ghost use Rattle.std.specs.Prelude.{◌≡◌};
    ghost use Rattle.dstm_core.specs.Words.{IsValid};
    ghost use Rattle.dstm_words.specs.Seats.{Home};

    ghost Value = { Home L };

    ghost view = { λ s. s.words };

    ghost invariant = { λ s. (s.words.terms.shape ≡ s.shape) × (s.words.terms.start.value ≡ s.start)
        × (s.words.terms.law.value ≡ s.law) × IsValid s.shape };
}

/// What gives out the callers of a table.
#[derive(Drop)]
pub struct Founder<L: Law> {
    terms: Terms<L>,
    seat: CoreSeat<L>,
    made: u32,
    guests: u32,
    out: u32,
}

impl<L: Law> Model for Founder<L> {
    ghost use Rattle.std.specs.Prelude.{◌≡◌, ◌+◌, ◌≤◌, true, [], Some};
    ghost use Rattle.dstm_words.specs.Seats.{Home};
    ghost use Rattle.dstm_engine.specs.Tables.{Founding};

    ghost Value = { Founding L };

    ghost view = { λ f. record {
      home = record { table = f.seat.table_id; terms = f.terms };
      view = f.seat.me.0;
      made = f.made;
      guests = f.guests;
    } };

    ghost invariant = { λ f. (f.seat.me.0.terms ≡ Some f.terms) × (f.seat.me.1 ≡ []) × (f.seat.me.0.first ≡ true)
        × (f.seat.me.0.out ≡ f.out) × (f.made ≤ f.terms.shape.callers)
        × (f.terms.shape.callers ≤ f.made + f.seat.me.0.enrolments) × (f.guests ≤ f.made) × (f.out ≤ f.made) };
}

/// What is kept of a table that was closed.
#[derive(Drop)]
pub struct Record<L: Law> {
    terms: Terms<L>,
    seat: Snapshot<CoreSeat<L>>,
}

impl<L: Law> Model for Record<L> {
    ghost use Rattle.dstm_engine.specs.Tables.{Recorded};

    ghost Value = { Recorded L };

    ghost view = { λ r. record { terms = r.terms; log = r.seat.value.me.0.log } };
}

impl<L: Law> Record<L> {
    // What is kept of a table that was told this, by its founder's seat.
    fn of(terms: Terms<L>, seat: &CoreSeat<L>) -> Record<L>
        ensures { result ≡ record { terms = terms; log = (view_of seat.now).log } }
    {
        Record {
            terms,
            seat: Snapshot::of(seat),
        }
    }
}

impl<L: Law> Stm<L> {
    /// A new table, whose objects have these values, and what gives out its callers.
    pub fn make(
        alloc: Global,
        start: Vec<Val>,
        shape: Shape,
        law: L,
    ) -> Result<(Stm<L>, Founder<L>), AllocError>
        requires valid { IsValid shape }
        requires values { length start.items ≡ shape.objects }
        requires lawful { L.holds law start.items }
        ensures shape { IfOk result (λ t. t.0.terms.shape ≡ shape) }
        ensures law { IfOk result (λ t. t.0.terms.law.value ≡ law) }
        ensures start { IfOk result (λ t. t.0.terms.start.value.items ≡ start.items) }
        ensures founder { IfOk result (λ t. t.1 ≡ founded t.0) }
    {
        Stm::make_with(alloc, &mut Zeros::new(alloc), start, shape, law)
    }

    /// The same, for a program that makes tables one after the other: the words are copied from zeros, which stay for
    /// the next table.
    pub fn make_with(
        alloc: Global,
        zeros: &mut Zeros,
        start: Vec<Val>,
        shape: Shape,
        law: L,
    ) -> Result<(Stm<L>, Founder<L>), AllocError>
        requires valid { IsValid shape }
        requires values { length start.items ≡ shape.objects }
        requires lawful { L.holds law start.items }
        ensures shape { IfOk result (λ t. t.0.terms.shape ≡ shape) }
        ensures law { IfOk result (λ t. t.0.terms.law.value ≡ law) }
        ensures start { IfOk result (λ t. t.0.terms.start.value.items ≡ start.items) }
        ensures founder { IfOk result (λ t. t.1 ≡ founded t.0) }
        ensures zeros { OnOk result (zeros.new ≡ max zeros.old (word_count shape)) }
    {
        let terms = Terms {
            shape,
            law: Snapshot::of(&law),
            start: Snapshot::of(&start),
        };
        let (words, seat) = Words::of_terms(alloc, zeros, &terms)?;
        let stm = Stm {
            words,
            shape,
            start,
            law,
        };
        let founder = Founder {
            terms,
            seat,
            made: 0,
            guests: 0,
            out: 0,
        };
        Ok((stm, founder))
    }

    /// How large the table is, and how its callers behave.
    pub fn shape(&self) -> Shape
        ensures { result ≡ self.now.terms.shape }
    {
        self.shape
    }

    /// The words of the table, for guests.
    pub fn words(&self) -> &Words<L>
        ensures { result.now ≡ self.now }
    {
        &self.words
    }

    // What the table was told.
    fn terms(&self) -> Terms<L>
        ensures { result ≡ self.now.terms }
    {
        Terms {
            shape: self.shape,
            law: Snapshot::of(&self.law),
            start: Snapshot::of(&self.start),
        }
    }

    // The value that an object had first.
    pub(crate) fn first(&self, o: u32) -> Val
        requires values { length self.now.terms.start.value.items ≡ self.now.terms.shape.objects }
        requires exists { o < self.now.terms.shape.objects }
        ensures { result ≡ value_at self.now.terms.start.value.items o }
    {
        self.start[o as usize]
    }

    // Draws the number of a caller whose seat has none.
    fn enrol(&self, seat: &mut CoreSeat<L>) -> u32
        requires seat { IsOf self.now seat.old }
        requires new { CanEnrol (view_of seat.old) }
        ensures seat { IsOf self.now seat.new }
        ensures number { result < self.now.terms.shape.callers }
        ensures enrols { Makes L.holds (view_of seat.old) Add Kind.Enrol
            (place self.now.terms.shape CallersWord) result (view_of seat.new) }
        ensures state { local self.now.terms.shape (view_of seat.new).log result
            ≡ record first { number = Some result } }
    {
        self.words
            .add(seat, Kind::Enrol, self.shape.callers_place()) as u32
    }

    /// The current value of each object, and what is kept of the table: the last event of each caller is in its log.
    /// A table that had guests keeps no record; see `close_plain`. It copies no word and takes no memory of `alloc`, so it
    /// never fails.
    pub fn close(
        self,
        alloc: Global,
        founder: Founder<L>,
    ) -> Result<(Vec<Val>, Record<L>), AllocError>
        requires founder { founder.home ≡ self }
        requires out { founder.view.out ≡ 0 }
        requires guests { founder.guests ≡ 0 }
        ensures done { IsOk result }
        ensures values { IfOk result (λ t. t.0.items
            ≡ state_after self.terms.start.value.items
            (history_of self.terms.shape self.terms.start.value.items founder.view.log)) }
        ensures current { IfOk result (λ t.
            IsCurrent self.terms.shape self.terms.start.value.items founder.view.log t.0.items) }
        ensures lawful { IfOk result (λ t. L.holds self.terms.law.value t.0.items) }
        ensures record { IfOk result (λ t. t.1 ≡ record { terms = self.terms; log = founder.view.log }) }
        ensures run { IfOk result (λ t. IsRunOf L.holds t.1.terms t.1.log) }
    {
        let Founder { terms, seat, .. } = founder;
        let record = Record::of(terms, &seat);
        Ok((self.last_values(seat), record))
    }

    /// The values of the objects as they stand, of a table that had guests.
    pub fn close_plain(self, alloc: Global, founder: Founder<L>) -> Result<Vec<Val>, AllocError>
        requires founder { founder.home ≡ self }
        requires out { founder.view.out ≡ 0 }
        ensures values { IfOk result (λ values. values.items
            ≡ state_after self.terms.start.value.items
            (history_of self.terms.shape self.terms.start.value.items founder.view.log)) }
        ensures current { IfOk result (λ values.
            IsCurrent self.terms.shape self.terms.start.value.items founder.view.log values.items) }
        ensures lawful { IfOk result (λ values. L.holds self.terms.law.value values.items) }
    {
        let Founder { seat, .. } = founder;
        Ok(self.last_values(seat))
    }

    // The current values, by the founder's seat.
    fn last_values(self, seat: CoreSeat<L>) -> Vec<Val>
        requires seat { IsOf self seat }
        requires whole { ((view_of seat).first ≡ true) × ((view_of seat).out ≡ 0) }
        ensures values { result.items ≡ state_after self.terms.start.value.items
            (history_of self.terms.shape self.terms.start.value.items (view_of seat).log) }
        ensures current { IsCurrent self.terms.shape self.terms.start.value.items (view_of seat).log result.items }
        ensures lawful { L.holds self.terms.law.value result.items }
        ensures run { IsRunOf L.holds self.terms (view_of seat).log }
    {
        let Stm {
            words,
            shape,
            start,
            law,
        } = self;
        drop(law);
        let left = words.close_in_place(seat);
        let values = settle(&shape, &left, start);
        left.free();
        values
    }
}

impl<L: Law> Founder<L> {
    /// A new caller, whose waits take the random words that `seed` gives.
    pub fn caller(
        &mut self,
        alloc: Global,
        stm: &Stm<L>,
        seed: u64,
    ) -> Result<Caller<L>, EnrolError>
        requires table { self.old.home ≡ stm.now }
        ensures caller { IfOk result (λ k. Enrols L.holds self.old self.new seed k) }
        ensures full { IfErr result (λ e. IsFull e ↔ (self.old.made ≡ self.old.home.terms.shape.callers)) }
        ensures room { IfOk result (λ _. self.old.made < self.old.home.terms.shape.callers) }
        ensures same { IfErr result (λ _. self.new ≡ self.old) }
    {
        if self.made == stm.shape.callers {
            return Err(EnrolError::Full);
        }
        let opened = Opened::make(alloc, stm.shape.objects).map_err(EnrolError::Memory)?;
        let mut seat = stm.words.split(&mut self.seat);
        self.made += 1;
        self.out += 1;
        let number = stm.enrol(&mut seat);
        let decider = Decider::make(stm.shape.manager, seed);
        Ok(Caller::enrolled(stm.terms(), seat, number, decider, opened))
    }

    /// Quits the attempt of a caller if it was dropped before its end, and takes in what the caller has seen.
    pub fn retire(&mut self, stm: &Stm<L>, caller: Caller<L>)
        requires table { self.old.home ≡ stm.now }
        requires caller { caller.home ≡ stm.now }
        ensures retired { Retires L.holds self.old self.new caller }
    {
        let mut caller = caller;
        caller.leave(stm);
        stm.words.join(&mut self.seat, caller.into_seat());
        self.out = self.out.saturating_sub(1);
    }

    /// How many callers and guests were made and neither retired nor dismissed.
    pub fn out(&self) -> u32
        ensures { result ≡ self.now.view.out }
    {
        self.out
    }

    /// A seat of the table for a guest, which makes its own events on the table's words.
    pub fn guest(&mut self, stm: &Stm<L>) -> Option<CoreSeat<L>>
        requires table { self.old.home ≡ stm.now }
        ensures guest { MatchOption result
            ((self.old.made ≡ self.old.home.terms.shape.callers) × (self.new ≡ self.old))
            (λ seat. (self.old.made < self.old.home.terms.shape.callers) × IsOf stm.now seat
            × (view_of seat ≡ given_part self.old.view) × CanEnrol (view_of seat)
            × (self.new ≡ record self.old {
              view = kept_part self.old.view;
              made = self.old.made + 1;
              guests = self.old.guests + 1;
            })) }
    {
        if self.made == stm.shape.callers {
            return None;
        }
        let seat = stm.words.split(&mut self.seat);
        self.made += 1;
        self.guests += 1;
        self.out += 1;
        Some(seat)
    }

    /// Takes in what a guest has seen. Its attempt stays as it is.
    pub fn dismiss(&mut self, stm: &Stm<L>, seat: CoreSeat<L>)
        requires table { self.old.home ≡ stm.now }
        requires seat { IsOf stm.now seat }
        requires out { IsOut (view_of seat) }
        ensures joined { Joined L.holds self.old.view (view_of seat) self.new.view }
        ensures rest { self.new ≡ record self.old { view = self.new.view } }
    {
        stm.words.join(&mut self.seat, seat);
        self.out = self.out.saturating_sub(1);
    }
}
