// The steps of a caller, counted.
ghost use Rattle.std.specs.Prelude.{◌≡◌, ◌≢◌, ℕ, true, false, MatchResult};
ghost use Rattle.dstm_core.specs.Events.{Event};
ghost use Rattle.dstm_order.specs.Counts.{is_kill};
ghost use Rattle.dstm_order.specs.Efforts.{is_turn};
ghost use Rattle.dstm_machines.specs.Traces.Access.{Load, Store, Exchange, Add};
ghost use Rattle.dstm_words.specs.Seats.{ActsBy, caller_state, found_in, view_of, IsOf, MayMake, StoresLawfully, Makes};
ghost use Rattle.dstm_core.specs.Histories.{is_draw};
ghost use Rattle.dstm_steps.specs.Counting.{counts_by, draws_by, tally_of, IsUnbegun};
ghost use Rattle.dstm_steps.specs.Ticks.{kills, stands};
ghost use Rattle.dstm_steps.specs.Under.{is_exchange};

use crate::counter::{Counter, one_more};
use dstm_core::Kind;
use dstm_model::Law;
use dstm_words::{CoreSeat, Words};
use std::marker::Model;

/// What a caller counts since the Begin of its last attempt.
#[derive(Clone, Copy, Debug, PartialEq, Eq)]
pub struct Tally {
    pub steps: u64,
    pub turns: u64,
    pub kills: u64,
}

/// The seat of a caller, which counts the caller's steps since the Begin of its last attempt, and the numbers that it has
/// drawn.
#[derive(Drop)]
pub struct CallerSeat<L: Law> {
    seat: CoreSeat<L>,
    tally: Counter,
    draws: u64,
}

impl<L: Law> Model for CallerSeat<L> {
    ghost use Rattle.std.specs.Prelude.{ℕ};
    ghost use Rattle.atomic_table.specs.declared.shared.Seat.{Seat};
    ghost use Rattle.dstm_words.specs.Seats.{View};
    ghost use Rattle.dstm_steps.specs.Counting.{Counts};

    ghost Value = { Seat ℕ (View L) };

    ghost view = { λ s. s.seat };

    ghost invariant = { Counts };
}

impl<L: Law> CallerSeat<L> {
    /// The seat of a caller that has begun no attempt.
    pub fn make(seat: CoreSeat<L>) -> CallerSeat<L>
        requires unbegun { IsUnbegun (view_of seat) }
        requires undrawn { draws_by (view_of seat) ≡ 0 }
        ensures { result ≡ seat }
    {
        CallerSeat {
            seat,
            tally: Counter::idle(),
            draws: 0,
        }
    }

    /// What it counts. A count stands at the greatest u64.
    pub fn tally(&self) -> Tally
        ensures { result ≡ tally_of (counts_by (view_of self.now)) }
    {
        self.tally.tally()
    }

    /// How many numbers it has drawn. The count stands at the greatest u64.
    pub fn draws(&self) -> u64
        ensures { result ≡ stands (draws_by (view_of self.now)) }
    {
        self.draws
    }

    /// The seat as the words know it.
    pub fn into_seat(self) -> CoreSeat<L>
        ensures { result ≡ self }
    {
        self.seat
    }

    /// Loads the word at a place. `turn` tells whether the load is a turn of a conflict.
    pub(crate) fn load(&mut self, words: &Words<L>, kind: Kind, place: u64, turn: bool) -> u64
        requires seat { IsOf words.now self.old }
        requires loads { ActsBy kind Load }
        requires allowed { MayMake words.now.terms (view_of self.old) Load kind place }
        requires turn { turn ≡ is_turn kind (caller_state words.now.terms (view_of self.old)) }
        ensures seat { IsOf words.now self.new }
        ensures event { Makes L.holds (view_of self.old) Load kind place result (view_of self.new) }
    {
        let found = words.load(&mut self.seat, kind, place);
        self.tally.tick(kind, turn, false);
        found
    }

    /// Stores a number in the word at a place.
    pub(crate) fn store(&mut self, words: &Words<L>, kind: Kind, place: u64, put: u64)
        requires seat { IsOf words.now self.old }
        requires allowed { MayMake words.now.terms (view_of self.old) (Store put) kind place }
        requires lawful { StoresLawfully L.holds words.now.terms (view_of self.old) kind place put }
        requires no_turn { is_turn kind (caller_state words.now.terms (view_of self.old)) ≡ false }
        requires no_kill { (event : Event) → is_kill kind event ≡ false }
        requires no_draw { is_draw kind ≡ false }
        ensures seat { IsOf words.now self.new }
        ensures event { (found : ℕ)
            × Makes L.holds (view_of self.old) (Store put) kind place found (view_of self.new) }
    {
        words.store(&mut self.seat, kind, place, put);
        self.tally.tick(kind, false, false);
    }

    /// Puts a number in the word at a place if this holds the expected one. The answer holds the word found.
    pub fn exchange(
        &mut self,
        words: &Words<L>,
        kind: Kind,
        place: u64,
        expected: u64,
        put: u64,
    ) -> Result<u64, u64>
        requires seat { IsOf words.now self.old }
        requires exchanges { is_exchange kind ≡ true }
        requires allowed { MayMake words.now.terms (view_of self.old) (Exchange expected put) kind place }
        ensures seat { IsOf words.now self.new }
        ensures event { Makes L.holds (view_of self.old) (Exchange expected put) kind place (found_in result)
            (view_of self.new) }
        ensures answer { MatchResult result (λ found. found ≡ expected) (λ found. found ≢ expected) }
    {
        let answer = words.exchange(&mut self.seat, kind, place, expected, put);
        let kills = kills(kind) & answer.is_ok();
        self.tally.tick(kind, false, kills);
        answer
    }

    /// Adds one to the word at a place.
    pub(crate) fn add(&mut self, words: &Words<L>, kind: Kind, place: u64) -> u64
        requires seat { IsOf words.now self.old }
        requires adds { ActsBy kind Add }
        requires allowed { MayMake words.now.terms (view_of self.old) Add kind place }
        ensures seat { IsOf words.now self.new }
        ensures event { Makes L.holds (view_of self.old) Add kind place result (view_of self.new) }
    {
        let found = words.add(&mut self.seat, kind, place);
        self.tally.tick(kind, false, false);
        self.draws = one_more(self.draws, draws(kind));
        found
    }
}

fn kills(kind: Kind) -> bool
    ensures { result ≡ kills kind }
{
    matches!(kind, Kind::Kill)
}

fn draws(kind: Kind) -> bool
    ensures { result ≡ is_draw kind }
{
    matches!(kind, Kind::Draw)
}
