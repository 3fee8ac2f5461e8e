// The steps of a caller, of which those that draw a number are counted.
ghost use Rattle.std.specs.Prelude.{◌≡◌, ◌≢◌, ℕ, ◌+◌, ◌-◌, ◌^◌, ◌<◌, MatchResult, None, min, true, false};
ghost use Rattle.atomic_table.specs.declared.shared.Seat.{Seat};
ghost use Rattle.dstm_machines.specs.Traces.Access.{Load, Store, Exchange, Add};
ghost use Rattle.dstm_tl2.specs.Histories.{is_draw};
ghost use Rattle.dstm_tl2_words.specs.Seats.{DrawsLawfully, IsOf, Makes, MayMake, View, found_in, view_of};
ghost use Rattle.dstm_tl2_steps.specs.Counting.{Counts, draws_by};

use dstm_model::Law;
use dstm_tl2::Kind;
use dstm_tl2_words::{Tl2Seat, Words};
use std::marker::Model;

/// The seat of a caller, which counts the numbers that the caller has drawn.
#[derive(Drop)]
pub struct CallerSeat<L: Law> {
    seat: Tl2Seat<L>,
    draws: u64,
}

impl<L: Law> Model for CallerSeat<L> {
    ghost Value = { Seat ℕ (View L) };

    ghost view = { λ s. s.seat };

    ghost invariant = { Counts };
}

impl<L: Law> CallerSeat<L> {
    /// The seat of a caller that has drawn no number.
    pub fn make(seat: Tl2Seat<L>) -> CallerSeat<L>
        requires undrawn { draws_by (view_of seat) ≡ 0 }
        ensures { result ≡ seat }
    {
        CallerSeat { seat, draws: 0 }
    }

    /// How many numbers it has drawn. The count stands at the greatest u64.
    pub fn draws(&self) -> u64
        ensures { result ≡ min (draws_by (view_of self.now)) (2 ^ 64 - 1) }
    {
        self.draws
    }

    /// The seat as the words know it.
    pub fn into_seat(self) -> Tl2Seat<L>
        ensures { result ≡ self }
    {
        self.seat
    }

    /// Loads the word at a place.
    pub(crate) fn load(&mut self, words: &Words<L>, kind: Kind, place: u64) -> u64
        requires seat { IsOf words.now self.old }
        requires no_draw { is_draw kind ≡ false }
        requires allowed { MayMake words.now.terms (view_of self.old) Load kind place }
        ensures seat { IsOf words.now self.new }
        ensures event { Makes L.holds (view_of self.old) Load kind place result (view_of self.new) }
    {
        words.load(&mut self.seat, kind, place)
    }

    /// Stores a number in the word at a place.
    pub(crate) fn store(&mut self, words: &Words<L>, kind: Kind, place: u64, put: u64)
        requires seat { IsOf words.now self.old }
        requires no_draw { is_draw kind ≡ false }
        requires allowed { MayMake words.now.terms (view_of self.old) (Store put) kind place }
        ensures seat { IsOf words.now self.new }
        ensures event { (found : ℕ)
            × Makes L.holds (view_of self.old) (Store put) kind place found (view_of self.new) }
    {
        words.store(&mut self.seat, kind, place, put)
    }

    /// Raises the word at a place by one if it holds this number. The answer holds the word found.
    pub fn raise(&mut self, words: &Words<L>, kind: Kind, at: u64, word: u64) -> Result<u64, u64>
        requires seat { IsOf words.now self.old }
        requires no_draw { is_draw kind ≡ false }
        requires fits { word < 2 ^ 62 }
        requires allowed { MayMake words.now.terms (view_of self.old) (Exchange word (word + 1)) kind at }
        ensures seat { IsOf words.now self.new }
        ensures event { Makes L.holds (view_of self.old) (Exchange word (word + 1)) kind at (found_in result)
            (view_of self.new) }
        ensures answer { MatchResult result (λ found. found ≡ word) (λ found. found ≢ word) }
    {
        words.exchange(&mut self.seat, kind, at, word, word + 1)
    }

    /// Adds one to the word at a place, by which a number is drawn.
    pub(crate) fn add(&mut self, words: &Words<L>, kind: Kind, place: u64) -> u64
        requires seat { IsOf words.now self.old }
        requires draw { is_draw kind ≡ true }
        requires allowed { MayMake words.now.terms (view_of self.old) Add kind place }
        requires lawful { DrawsLawfully L.holds words.now.terms (view_of self.old) kind }
        requires caller { (view_of self.old).number ≢ None }
        ensures seat { IsOf words.now self.new }
        ensures event { Makes L.holds (view_of self.old) Add kind place result (view_of self.new) }
    {
        self.draws = self.draws.saturating_add(1);
        words.add(&mut self.seat, kind, place)
    }
}
