// The words, and the steps on them.
ghost use Rattle.std.specs.Prelude.{◌≡◌, ◌≢◌, ℕ, ◌<◌, length, max, true, None, IfOk, MatchResult, OnOk};
ghost use Rattle.dstm_machines.specs.Traces.Access.{Load, Store, Exchange, Add};
ghost use Rattle.dstm_core.specs.Words.{IsValid, word_count};
ghost use Rattle.dstm_words.specs.Seats.{view_of, founder, found_in, kept_part, given_part, ActsBy, IsOf, IsOut, Joined, LeftBy, Makes, MayMake, StoresLawfully};

use crate::machine::{Core, CoreSeat};
use crate::terms::Terms;
use crate::zeros::Zeros;
use dstm_core::{Kind, Shape};
use dstm_model::{Law, Val};
use dstm_seats::Left;
use std::alloc::{AllocError, Global};
use std::marker::Model;
use std::snapshot::Snapshot;

/// The words of a table. Threads share it by reference, and each steps with a seat of its own.
#[derive(Drop)]
pub struct Words<L: Law> {
    words: dstm_seats::Words<Core<L>>,
}

impl<L: Law> Model for Words<L> {
    ghost use Rattle.dstm_words.specs.Seats.{Home};

    ghost Value = { Home L };

    ghost view = { λ w. w.words };
}

impl<L: Law> Words<L> {
    /// A new table, whose words are all 0, and its first seat. `start` has the first value of each object.
    pub fn make(
        alloc: Global,
        shape: Shape,
        law: L,
        start: &[Val],
    ) -> Result<(Words<L>, CoreSeat<L>), AllocError>
        requires valid { IsValid shape }
        requires values { length start.now ≡ shape.objects }
        requires lawful { L.holds law start.now }
        ensures shape { IfOk result (λ t. t.0.terms.shape ≡ shape) }
        ensures law { IfOk result (λ t. t.0.terms.law.value ≡ law) }
        ensures start { IfOk result (λ t. t.0.terms.start.value.items ≡ start.now) }
        ensures seat { IfOk result (λ t. IsOf t.0 t.1) }
        ensures new { IfOk result (λ t. view_of t.1 ≡ founder t.0.terms) }
    {
        // A copy, so that what is said of the table can name the first values once the list of the caller is gone.
        let first = Vec::from_slice(alloc, start)?;
        let terms = Terms {
            shape,
            law: Snapshot::of(&law),
            start: Snapshot::of(&first),
        };
        Words::of_terms(alloc, &mut Zeros::new(alloc), &terms)
    }

    /// A new table that was told this. Its words are copied from zeros, which stay for the next table.
    pub fn of_terms(
        alloc: Global,
        zeros: &mut Zeros,
        terms: &Terms<L>,
    ) -> Result<(Words<L>, CoreSeat<L>), AllocError>
        requires valid { IsValid terms.now.shape }
        requires values { length terms.now.start.value.items ≡ terms.now.shape.objects }
        requires lawful { L.holds terms.now.law.value terms.now.start.value.items }
        ensures terms { IfOk result (λ t. t.0.terms ≡ terms.now) }
        ensures seat { IfOk result (λ t. IsOf t.0 t.1) }
        ensures new { IfOk result (λ t. view_of t.1 ≡ founder terms.now) }
        ensures zeros { OnOk result (zeros.new ≡ max zeros.old (word_count terms.now.shape)) }
    {
        let count = terms.shape.words() as usize;
        zeros.grow(count)?;
        let (words, seat) = dstm_seats::Words::make(alloc, terms, zeros.first(count))?;
        Ok((Words { words }, seat))
    }

    /// Loads the word at a place. `kind` is what the seat's caller loads it for.
    pub fn load(&self, seat: &mut CoreSeat<L>, kind: Kind, place: u64) -> u64
        requires seat { IsOf self.now seat.old }
        requires loads { ActsBy kind Load }
        requires allowed { MayMake self.now.terms (view_of seat.old) Load kind place }
        ensures seat { IsOf self.now seat.new }
        ensures event { Makes L.holds (view_of seat.old) Load kind place result (view_of seat.new) }
    {
        self.words.load(seat, kind, place)
    }

    /// Stores a number in the word at a place.
    pub fn store(&self, seat: &mut CoreSeat<L>, kind: Kind, place: u64, put: u64)
        requires seat { IsOf self.now seat.old }
        requires allowed { MayMake self.now.terms (view_of seat.old) (Store put) kind place }
        requires lawful { StoresLawfully L.holds self.now.terms (view_of seat.old) kind place put }
        ensures seat { IsOf self.now seat.new }
        ensures event { (found : ℕ)
            × Makes L.holds (view_of seat.old) (Store put) kind place found (view_of seat.new) }
    {
        self.words.store(seat, kind, place, put)
    }

    /// Puts a number in the word at a place if this holds the expected one. The answer holds the word found.
    pub fn exchange(
        &self,
        seat: &mut CoreSeat<L>,
        kind: Kind,
        place: u64,
        expected: u64,
        put: u64,
    ) -> Result<u64, u64>
        requires seat { IsOf self.now seat.old }
        requires allowed { MayMake self.now.terms (view_of seat.old) (Exchange expected put) kind place }
        ensures seat { IsOf self.now seat.new }
        ensures event { Makes L.holds (view_of seat.old) (Exchange expected put) kind place (found_in result)
            (view_of seat.new) }
        ensures answer { MatchResult result (λ found. found ≡ expected) (λ found. found ≢ expected) }
    {
        self.words.exchange(seat, kind, place, expected, put)
    }

    /// Adds one to the word at a place. A seat with no number enrols by it: the number found is its number.
    pub fn add(&self, seat: &mut CoreSeat<L>, kind: Kind, place: u64) -> u64
        requires seat { IsOf self.now seat.old }
        requires adds { ActsBy kind Add }
        requires allowed { MayMake self.now.terms (view_of seat.old) Add kind place }
        requires enrolment { (view_of seat.old).number ≡ None → 0 < (view_of seat.old).enrolments }
        ensures seat { IsOf self.now seat.new }
        ensures event { Makes L.holds (view_of seat.old) Add kind place result (view_of seat.new) }
    {
        self.words.add(seat, kind, place)
    }

    /// Cuts a new seat off the first one, which has seen as much and gets an enrolment where one is left.
    pub fn split(&self, seat: &mut CoreSeat<L>) -> CoreSeat<L>
        requires seat { IsOf self.now seat.old }
        requires first { (view_of seat.old).first ≡ true }
        ensures seat { IsOf self.now seat.new }
        ensures kept { view_of seat.new ≡ kept_part (view_of seat.old) }
        ensures other { IsOf self.now result }
        ensures given { view_of result ≡ given_part (view_of seat.old) }
    {
        self.words.split(seat)
    }

    /// Joins a seat to the first one, which it was split from. Then the first one meets the longest log.
    pub fn join(&self, seat: &mut CoreSeat<L>, other: CoreSeat<L>)
        requires seat { IsOf self.now seat.old }
        requires first { (view_of seat.old).first ≡ true }
        requires other { IsOf self.now other }
        requires out { IsOut (view_of other) }
        ensures seat { IsOf self.now seat.new }
        ensures joined { Joined L.holds (view_of seat.old) (view_of other) (view_of seat.new) }
    {
        self.words.join(seat, other)
    }

    /// The words as they stand. On want of memory the table is given up.
    pub fn close(self, alloc: Global, seat: CoreSeat<L>) -> Result<Vec<u64>, AllocError>
        requires { IsOf self seat }
        ensures { IfOk result (λ words. LeftBy L.holds self.terms (view_of seat) words.items) }
    {
        let Words { words } = self;
        words.close(alloc, seat)
    }

    /// The words as they stand, where they are: nothing is copied.
    pub fn close_in_place(self, seat: CoreSeat<L>) -> Left
        requires { IsOf self seat }
        ensures { LeftBy L.holds self.terms (view_of seat) result }
    {
        let Words { words } = self;
        words.close_in_place(seat)
    }
}
