// The words, and the steps on them.
ghost use Rattle.std.specs.Prelude.{◌≡◌, ◌≢◌, ℕ, ◌<◌, ◌≤◌, List, [], length, slice_index_or, true, Some, None, IfOk, MatchResult, vec_capacity};
ghost use Rattle.std.specs.Mem.Slots.{slots_items, slots_len, IsFull};
ghost use mathlib.Core.Option.{some};
ghost use lib.ListN.{get_elem?};
ghost use Rattle.dstm_machines.specs.Traces.Access.{Load, Store, Exchange, Add};
ghost use Rattle.dstm_seats.specs.Seats.{view_of, founder, found_in, kept_part, given_part, IsOf, IsOut, Joined, MakesKept, LeftBy, Makes, MayMake};

use crate::view::{
    Adders, Exchanges, Loads, MachineRule, MachineSeat, Meeting, Parting, Stores, Told, View,
};
use atomic_table::{Closed, Table};
use dstm_machines::Machine;
use std::alloc::{AllocError, Global};
use std::marker::{Brand, Model};

/// The words of a table. Threads share it by reference, and each steps with a seat of its own.
#[derive(Drop)]
pub struct Words<M: Machine> {
    table: Table<u8, View<M::Kind, M::Terms>, M::Terms, MachineRule<M>, Global>,
}

impl<M: Machine> Model for Words<M> {
    ghost use Rattle.std.specs.Prelude.{◌≡◌};
    ghost use Rattle.dstm_seats.specs.Seats.{Home};

    ghost Value = { Home M.Terms };

    ghost view = { λ w. record { table = w.table.shared.table_id; terms = w.table.shared.key } };

    ghost invariant = { λ w. (w.table.shared.table_id.slots ≡ 0)
        × (w.table.shared.table_id.words ≡ M.shared.word_count (M.shared.table w.table.shared.key)) };
}

impl<M: Machine> Words<M> {
    /// A new table, whose words hold what they hold at first, and its first seat.
    pub fn make(
        alloc: Global,
        terms: &M::Terms,
        words: &[u64],
    ) -> Result<(Words<M>, MachineSeat<M>), AllocError>
        requires run { M.shared.IsRunOf terms.now [] }
        requires count { length words.now ≡ M.shared.word_count (M.shared.table terms.now) }
        requires first { (p : ℕ) → p < M.shared.word_count (M.shared.table terms.now) →
            slice_index_or words.now p 0 ≡ M.shared.machine.initial (M.shared.table terms.now) p }
        ensures terms { IfOk result (λ t. t.0.terms ≡ terms.now) }
        ensures seat { IfOk result (λ t. IsOf t.0 t.1) }
        ensures new { IfOk result (λ t. view_of t.1 ≡ founder M.shared terms.now) }
    {
        let (table, seat) = Table::of_words(alloc, words, terms)?;
        Ok((Words { table }, seat))
    }

    /// Loads the word at a place. `kind` is what the seat's caller loads it for.
    pub fn load(&self, seat: &mut MachineSeat<M>, kind: M::Kind, place: u64) -> u64
        requires seat { IsOf self.now seat.old }
        requires allowed { MayMake M.shared self.now.terms (view_of seat.old) Load kind place }
        requires keeps { MakesKept M.shared self.now.terms (view_of seat.old) Load kind place }
        ensures seat { IsOf self.now seat.new }
        ensures event { Makes M.shared (view_of seat.old) Load kind place result (view_of seat.new) }
    {
        self.load_as::<Brand>(seat, kind, place)
    }

    /// Stores a number in the word at a place.
    pub fn store(&self, seat: &mut MachineSeat<M>, kind: M::Kind, place: u64, put: u64)
        requires seat { IsOf self.now seat.old }
        requires allowed { MayMake M.shared self.now.terms (view_of seat.old) (Store put) kind place }
        requires keeps { MakesKept M.shared self.now.terms (view_of seat.old) (Store put) kind place }
        ensures seat { IsOf self.now seat.new }
        ensures event { (found : ℕ)
            × Makes M.shared (view_of seat.old) (Store put) kind place found (view_of seat.new) }
    {
        self.store_as::<Brand>(seat, kind, place, put)
    }

    /// Puts a number in the word at a place if this holds the expected one. The answer holds the word found.
    pub fn exchange(
        &self,
        seat: &mut MachineSeat<M>,
        kind: M::Kind,
        place: u64,
        expected: u64,
        put: u64,
    ) -> Result<u64, u64>
        requires seat { IsOf self.now seat.old }
        requires allowed { MayMake M.shared self.now.terms (view_of seat.old) (Exchange expected put) kind place }
        requires keeps { MakesKept M.shared self.now.terms (view_of seat.old) (Exchange expected put) kind place }
        ensures seat { IsOf self.now seat.new }
        ensures event { Makes M.shared (view_of seat.old) (Exchange expected put) kind place (found_in result)
            (view_of seat.new) }
        ensures answer { MatchResult result (λ found. found ≡ expected) (λ found. found ≢ expected) }
    {
        let found = self.exchange_as::<Brand>(seat, kind, place, expected, put);
        if found == expected {
            Ok(found)
        } else {
            Err(found)
        }
    }

    /// Adds one to the word at a place. A seat with no number enrols by it: the number found is its number.
    pub fn add(&self, seat: &mut MachineSeat<M>, kind: M::Kind, place: u64) -> u64
        requires seat { IsOf self.now seat.old }
        requires adds { M.shared.Adds kind }
        requires allowed { MayMake M.shared self.now.terms (view_of seat.old) Add kind place }
        requires keeps { MakesKept M.shared self.now.terms (view_of seat.old) Add kind place }
        requires enrolment { (view_of seat.old).number ≡ None → 0 < (view_of seat.old).enrolments }
        ensures seat { IsOf self.now seat.new }
        ensures event { Makes M.shared (view_of seat.old) Add kind place result (view_of seat.new) }
    {
        self.add_as::<Brand>(seat, kind, place)
    }

    /// Cuts a new seat off the first one, which has seen as much and gets an enrolment where one is left.
    pub fn split(&self, seat: &mut MachineSeat<M>) -> MachineSeat<M>
        requires seat { IsOf self.now seat.old }
        requires first { (view_of seat.old).first ≡ true }
        ensures seat { IsOf self.now seat.new }
        ensures kept { view_of seat.new ≡ kept_part (view_of seat.old) }
        ensures other { IsOf self.now result }
        ensures given { view_of result ≡ given_part (view_of seat.old) }
    {
        self.table.shared.split_seat::<Parting>(seat)
    }

    /// Joins a seat to the first one, which it was split from. Then the first one meets the longest log.
    pub fn join(&self, seat: &mut MachineSeat<M>, other: MachineSeat<M>)
        requires seat { IsOf self.now seat.old }
        requires first { (view_of seat.old).first ≡ true }
        requires other { IsOf self.now other }
        requires out { IsOut (view_of other) }
        ensures seat { IsOf self.now seat.new }
        ensures joined { Joined M.shared (view_of seat.old) (view_of other) (view_of seat.new) }
    {
        self.table.shared.join_seat::<Parting>(seat, other);
        // One load more, which is no event: by it the first seat learns which of the two logs goes on from the other.
        let _found = self.table.shared.load::<Meeting<M>>(seat, 0);
    }

    /// The words as they stand. On want of memory the table is given up.
    pub fn close(self, alloc: Global, seat: MachineSeat<M>) -> Result<Vec<u64>, AllocError>
        requires { IsOf self seat }
        ensures { IfOk result (λ words. LeftBy M.shared self.terms (view_of seat) words.items) }
    {
        let Words { table } = self;
        let count = table.word_count();
        let mut words = Vec::with_capacity(alloc, count)?;
        let closed = table.close_with(seat);
        copy_words(&closed, &mut words, count);
        closed.free();
        Ok(words)
    }

    /// The words as they stand, where they are: nothing is copied.
    pub fn close_in_place(self, seat: MachineSeat<M>) -> Left
        requires { IsOf self seat }
        ensures { LeftBy M.shared self.terms (view_of seat) result }
    {
        let Words { table } = self;
        let closed = table.close_with(seat);
        Left { closed }
    }

    // The four steps. The kind of event that a step tells is a ghost parameter of its play, so each public call
    // picks it for one of these.
    fn load_as<J: Told<M::Kind>>(&self, seat: &mut MachineSeat<M>, kind: M::Kind, place: u64) -> u64
        requires kind { J.kind ≡ Some kind }
        requires seat { IsOf self.now seat.old }
        requires allowed { MayMake M.shared self.now.terms (view_of seat.old) Load kind place }
        requires keeps { MakesKept M.shared self.now.terms (view_of seat.old) Load kind place }
        ensures seat { IsOf self.now seat.new }
        ensures event { Makes M.shared (view_of seat.old) Load kind place result (view_of seat.new) }
    {
        // The contract alone speaks of it; the play has it as `J`.
        let _ = kind;
        self.table.shared.load::<Loads<M, J>>(seat, place as usize)
    }

    fn store_as<J: Told<M::Kind>>(
        &self,
        seat: &mut MachineSeat<M>,
        kind: M::Kind,
        place: u64,
        put: u64,
    )
        requires kind { J.kind ≡ Some kind }
        requires seat { IsOf self.now seat.old }
        requires allowed { MayMake M.shared self.now.terms (view_of seat.old) (Store put) kind place }
        requires keeps { MakesKept M.shared self.now.terms (view_of seat.old) (Store put) kind place }
        ensures seat { IsOf self.now seat.new }
        ensures event { (found : ℕ)
            × Makes M.shared (view_of seat.old) (Store put) kind place found (view_of seat.new) }
    {
        // The contract alone speaks of it; the play has it as `J`.
        let _ = kind;
        self.table
            .shared
            .store::<Stores<M, J>>(seat, place as usize, put)
    }

    fn exchange_as<J: Told<M::Kind>>(
        &self,
        seat: &mut MachineSeat<M>,
        kind: M::Kind,
        place: u64,
        expected: u64,
        put: u64,
    ) -> u64
        requires kind { J.kind ≡ Some kind }
        requires seat { IsOf self.now seat.old }
        requires allowed { MayMake M.shared self.now.terms (view_of seat.old) (Exchange expected put) kind place }
        requires keeps { MakesKept M.shared self.now.terms (view_of seat.old) (Exchange expected put) kind place }
        ensures seat { IsOf self.now seat.new }
        ensures event { Makes M.shared (view_of seat.old) (Exchange expected put) kind place result
            (view_of seat.new) }
    {
        // The contract alone speaks of it; the play has it as `J`.
        let _ = kind;
        self.table
            .shared
            .compare_exchange::<Exchanges<M, J>>(seat, place as usize, expected, put)
    }

    fn add_as<J: Told<M::Kind>>(&self, seat: &mut MachineSeat<M>, kind: M::Kind, place: u64) -> u64
        requires kind { J.kind ≡ Some kind }
        requires seat { IsOf self.now seat.old }
        requires adds { M.shared.Adds kind }
        requires allowed { MayMake M.shared self.now.terms (view_of seat.old) Add kind place }
        requires keeps { MakesKept M.shared self.now.terms (view_of seat.old) Add kind place }
        requires enrolment { (view_of seat.old).number ≡ None → 0 < (view_of seat.old).enrolments }
        ensures seat { IsOf self.now seat.new }
        ensures event { Makes M.shared (view_of seat.old) Add kind place result (view_of seat.new) }
    {
        // The contract alone speaks of it; the play has it as `J`.
        let _ = kind;
        self.table
            .shared
            .fetch_add::<Adders<M, J>>(seat, place as usize, 1)
    }
}

/// The words that a table had when it was closed.
pub struct Left {
    closed: Closed<u8, Global>,
}

impl Model for Left {
    ghost use Rattle.std.specs.Prelude.{List, ℕ, ◌≡◌};
    ghost use Rattle.std.specs.Mem.Slots.{slots_items, slots_len, IsFull};

    ghost Value = { List ℕ };

    ghost view = { λ l. slots_items l.closed.words };

    ghost invariant = { λ l. IsFull l.closed.words × (slots_len l.closed.slots ≡ 0) };
}

impl Left {
    /// A word.
    pub fn word(&self, place: u64) -> u64
        requires { place < length self.now }
        ensures { get_elem? self.now place ≡ some result }
    {
        self.closed.word(place as usize)
    }

    /// Gives the memory back.
    pub fn free(self) {
        let Left { closed } = self;
        closed.free();
    }
}

fn copy_words(closed: &Closed<u8, Global>, words: &mut Vec<u64>, count: usize)
    requires full { (slots_len closed.now.words ≡ count) × IsFull closed.now.words }
    requires room { (words.old.items ≡ []) × (count ≤ vec_capacity words.old) }
    ensures { words.new.items ≡ slots_items closed.now.words }
{
    for i in 0..count {
        words.push_reserved(closed.word(i));
    }
}
