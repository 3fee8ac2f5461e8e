// The words, and the steps on them.
ghost use Rattle.std.specs.Prelude.{◌≡◌, ◌≢◌, ◌⊎◌, ℕ, ◌<◌, ◌≤◌, length, true, None, IfOk, MatchResult};
ghost use Rattle.dstm_machines.specs.Traces.Access.{Load, Store, Exchange, Add};
ghost use Rattle.dstm_tl2.specs.declared.kind.Kind.TheVariants.{Enrol};
ghost use Rattle.dstm_tl2.specs.Histories.{is_draw};
ghost use Rattle.dstm_tl2.specs.Words.{words_of};
ghost use Rattle.dstm_tl2_words.specs.Seats.{view_of, founder, found_in, kept_part, given_part, DrawsLawfully, IsOf, IsOut, Joined, LeftBy, Makes, MayMake};

use crate::machine::{Tl2, Tl2Seat};
use dstm_model::{Law, Val};
use dstm_seats::Left;
use dstm_tl2::{Kind, Terms};
use std::alloc::{AllocError, Global};
use std::marker::Model;
use std::snapshot::Snapshot;

/// The words of a table. Threads share it by reference, and each steps with a seat of its own.
#[derive(Drop)]
pub struct Words<L: Law> {
    words: dstm_seats::Words<Tl2<L>>,
}

impl<L: Law> Model for Words<L> {
    ghost use Rattle.dstm_tl2_words.specs.Seats.{Home};

    ghost Value = { Home L };

    ghost view = { λ w. w.words };
}

impl<L: Law> Words<L> {
    /// A new table, in which each object has its first value, and its first seat.
    pub fn make(
        alloc: Global,
        callers: u32,
        attempts: u64,
        law: L,
        start: &[Val],
    ) -> Result<(Words<L>, Tl2Seat<L>), AllocError>
        requires callers { callers ≤ 64 }
        requires attempts { attempts ≤ 18014398509481984 }
        requires objects { length start.now ≤ 1048576 }
        requires lawful { L.holds law start.now }
        ensures callers { IfOk result (λ t. t.0.terms.callers ≡ callers) }
        ensures attempts { IfOk result (λ t. t.0.terms.attempts ≡ attempts) }
        ensures law { IfOk result (λ t. t.0.terms.law.value ≡ law) }
        ensures start { IfOk result (λ t. t.0.terms.start.value.items ≡ start.now) }
        ensures seat { IfOk result (λ t. IsOf t.0 t.1) }
        ensures new { IfOk result (λ t. view_of t.1 ≡ founder t.0.terms) }
    {
        let first = Vec::from_slice(alloc, start)?;
        let terms = Terms {
            callers,
            attempts,
            law: Snapshot::of(&law),
            start: Snapshot::of(&first),
        };
        Words::of_terms(alloc, &terms, start)
    }

    /// A new table that was told this, and its first seat. `start` has the first value of each object.
    pub fn of_terms(
        alloc: Global,
        terms: &Terms<L>,
        start: &[Val],
    ) -> Result<(Words<L>, Tl2Seat<L>), AllocError>
        requires start { terms.now.start.value.items ≡ start.now }
        requires callers { terms.now.callers ≤ 64 }
        requires attempts { terms.now.attempts ≤ 18014398509481984 }
        requires objects { length start.now ≤ 1048576 }
        requires lawful { L.holds terms.now.law.value start.now }
        ensures terms { IfOk result (λ t. t.0.terms ≡ terms.now) }
        ensures seat { IfOk result (λ t. IsOf t.0 t.1) }
        ensures new { IfOk result (λ t. view_of t.1 ≡ founder terms.now) }
    {
        let words = first_words(alloc, start)?;
        let (words, seat) = dstm_seats::Words::make(alloc, terms, words.as_slice())?;
        Ok((Words { words }, seat))
    }

    /// Loads the word at a place. `kind` is what the seat's caller loads it for.
    pub fn load(&self, seat: &mut Tl2Seat<L>, kind: Kind, place: u64) -> u64
        requires seat { IsOf self.now seat.old }
        requires allowed { MayMake self.now.terms (view_of seat.old) Load kind place }
        ensures seat { IsOf self.now seat.new }
        ensures event { Makes L.holds (view_of seat.old) Load kind place result (view_of seat.new) }
    {
        self.words.load(seat, kind, place)
    }

    /// Stores a number in the word at a place.
    pub fn store(&self, seat: &mut Tl2Seat<L>, kind: Kind, place: u64, put: u64)
        requires seat { IsOf self.now seat.old }
        requires allowed { MayMake self.now.terms (view_of seat.old) (Store put) kind place }
        ensures seat { IsOf self.now seat.new }
        ensures event { (found : ℕ)
            × Makes L.holds (view_of seat.old) (Store put) kind place found (view_of seat.new) }
    {
        self.words.store(seat, kind, place, put)
    }

    /// Puts a number in the word at a place if this holds the expected one. The answer holds the word found.
    pub fn exchange(
        &self,
        seat: &mut Tl2Seat<L>,
        kind: Kind,
        place: u64,
        expected: u64,
        put: u64,
    ) -> Result<u64, u64>
        requires seat { IsOf self.now seat.old }
        requires allowed { MayMake self.now.terms (view_of seat.old) (Exchange expected put) kind place }
        ensures seat { IsOf self.now seat.new }
        ensures event { Makes L.holds (view_of seat.old) (Exchange expected put) kind place (found_in result)
            (view_of seat.new) }
        ensures answer { MatchResult result (λ found. found ≡ expected) (λ found. found ≢ expected) }
    {
        self.words.exchange(seat, kind, place, expected, put)
    }

    /// Adds one to the word at a place. A seat with no number enrols by it: the number found is its number.
    pub fn add(&self, seat: &mut Tl2Seat<L>, kind: Kind, place: u64) -> u64
        requires seat { IsOf self.now seat.old }
        requires adds { (kind ≡ Enrol) ⊎ (is_draw kind ≡ true) }
        requires allowed { MayMake self.now.terms (view_of seat.old) Add kind place }
        requires lawful { DrawsLawfully L.holds self.now.terms (view_of seat.old) kind }
        requires enrolment { (view_of seat.old).number ≡ None → 0 < (view_of seat.old).enrolments }
        ensures seat { IsOf self.now seat.new }
        ensures event { Makes L.holds (view_of seat.old) Add kind place result (view_of seat.new) }
    {
        self.words.add(seat, kind, place)
    }

    /// Cuts a new seat off the first one, which has seen as much and gets an enrolment where one is left.
    pub fn split(&self, seat: &mut Tl2Seat<L>) -> Tl2Seat<L>
        requires seat { IsOf self.now seat.old }
        requires first { (view_of seat.old).first ≡ true }
        ensures seat { IsOf self.now seat.new }
        ensures kept { view_of seat.new ≡ kept_part (view_of seat.old) }
        ensures other { IsOf self.now result }
        ensures given { view_of result ≡ given_part (view_of seat.old) }
    {
        self.words.split(seat)
    }

    /// Joins a seat to the first one, which it was split from. Then the first one meets the longest log.
    pub fn join(&self, seat: &mut Tl2Seat<L>, other: Tl2Seat<L>)
        requires seat { IsOf self.now seat.old }
        requires first { (view_of seat.old).first ≡ true }
        requires other { IsOf self.now other }
        requires out { IsOut (view_of other) }
        ensures seat { IsOf self.now seat.new }
        ensures joined { Joined L.holds (view_of seat.old) (view_of other) (view_of seat.new) }
    {
        self.words.join(seat, other)
    }

    /// The words as they stand. On want of memory the table is given up.
    pub fn close(self, alloc: Global, seat: Tl2Seat<L>) -> Result<Vec<u64>, AllocError>
        requires { IsOf self seat }
        ensures { IfOk result (λ words. LeftBy L.holds self.terms (view_of seat) words.items) }
    {
        let Words { words } = self;
        words.close(alloc, seat)
    }

    /// The words as they stand, where they are: nothing is copied.
    pub fn close_in_place(self, seat: Tl2Seat<L>) -> Left
        requires { IsOf self seat }
        ensures { LeftBy L.holds self.terms (view_of seat) result }
    {
        let Words { words } = self;
        words.close_in_place(seat)
    }
}

fn first_words(alloc: Global, start: &[Val]) -> Result<Vec<u64>, AllocError>
    ensures { IfOk result (λ words. words.items ≡ words_of start.now) }
{
    let mut words = vec![in alloc; 0u64; start.len()]?;
    words.reserve_exact(start.len().saturating_mul(2).saturating_add(2))?;
    for value in start {
        words.push(value.low)?;
    }
    for value in start {
        words.push(value.high)?;
    }
    words.push(0)?;
    words.push(0)?;
    Ok(words)
}
