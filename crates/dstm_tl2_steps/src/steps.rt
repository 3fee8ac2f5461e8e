// The steps of a caller: each is one event.
ghost use Rattle.std.specs.Prelude.{◌≡◌, ◌≢◌, ◌+◌, ◌<◌, ℕ, Option, None, MatchResult, List, [], ◌∷◌, is_some, length, true, false};
ghost use Rattle.dstm_model.specs.Map.{KeepsLaw};
ghost use Rattle.dstm_machines.specs.Traces.Access.{Load, Store, Exchange, Add};
ghost use Rattle.dstm_tl2.specs.declared.kind.Kind.TheVariants.{Check, LookAgain, LookHigh, LookLock, LookLow, Sample, Unlock, WriteHigh, WriteLow};
ghost use Rattle.dstm_tl2.specs.Histories.{entry_of};
ghost use Rattle.dstm_tl2.specs.Rules.{Event, IsHeld, IsReadable, IsTold, MayUnlock};
ghost use Rattle.dstm_tl2.specs.Sharing.{table_of};
ghost use Rattle.dstm_tl2.specs.State.{hold_of, is_valid, look_of, next_check, next_write, or_hold, read_of, recorded, to_check};
ghost use Rattle.dstm_tl2.specs.Words.{objects, place};
ghost use Rattle.dstm_tl2.specs.Words.Word.{ClockWord, HighWord, LockWord, LowWord};
ghost use Rattle.dstm_tl2_words.specs.Seats.{found_in, view_of};
ghost use Rattle.dstm_tl2_order.specs.declared.again.TlAgain.{TlAgain};
ghost use Rattle.dstm_tl2_order.specs.Order.{draws, locks};
ghost use Rattle.dstm_tl2_order.specs.Order.Due.{FreeAs, Just, LookAt, PutHigh, PutLow};
ghost use Rattle.dstm_tl2_steps.specs.Under.{made_by, now, Loaded, Stored, Under, Went};

use crate::counting::CallerSeat;
use crate::places::Places;
use dstm_model::{Law, Val};
use dstm_tl2::{Kind, Writes};
use dstm_tl2_words::Words;
use std::marker::Brand;
use std::snapshot::Snapshot;

/// How a call began.
pub trait InCall {
    ghost use Rattle.dstm_tl2_steps.specs.Under.{Began};

    ghost began: { Began };
}

// What stands for it, before a call picks it.
impl InCall for Brand {
    ghost use Rattle.dstm_tl2_steps.specs.Under.{unbegun};

    ghost began = { unbegun };
}

/// The steps of a caller.
#[derive(Drop)]
pub struct Steps<L: Law> {
    pub seat: CallerSeat<L>,
    pub places: Places,
    /// What the last attempt found of the clock as it began.
    pub sample: u64,
}

impl<L: Law> Steps<L> {
    /// Begins an attempt.
    pub fn begin<B: InCall>(&mut self, words: &Words<L>)
        requires under { Under L.holds words.now B.began self.old (Just Sample) None }
        requires number { is_some (now words.now self.old).number ≡ true }
        requires free { (now words.now self.old).holds ≡ [] }
        requires left { (now words.now self.old).begun < words.now.terms.attempts }
        ensures went { Went L.holds words.now B.began self.old self.new None
            (made_by B.began Load Sample (place (table_of words.now.terms) ClockWord) self.new.sample) }
        ensures top { (before : List Event) × ((view_of self.new.seat).log
            ≡ made_by B.began Load Sample (place (table_of words.now.terms) ClockWord) self.new.sample ∷ before) }
    {
        let clock = self.places.clock();
        self.sample = self.seat.load(words, Kind::Sample, clock);
    }

    /// Looks at the lock of an object that was not read.
    pub fn look_lock<B: InCall>(&mut self, words: &Words<L>, o: u32) -> u64
        requires under { Under L.holds words.now B.began self.old (LookAt o) None }
        requires exists { o < objects (table_of words.now.terms) }
        requires begun { 0 < (now words.now self.old).begun }
        requires untold { (now words.now self.old).writes ≡ None }
        requires unread { read_of o (now words.now self.old).reads ≡ None }
        ensures { Loaded L.holds words.now B.began self.old self.new LookLock (LockWord o) result }
    {
        let lock = self.places.lock(o);
        self.seat.load(words, Kind::LookLock, lock)
    }

    /// Looks at the low part of its value.
    pub fn look_low<B: InCall>(&mut self, words: &Words<L>, o: u32) -> u64
        requires under { Under L.holds words.now B.began self.old (Just LookLow) None }
        requires exists { o < objects (table_of words.now.terms) }
        requires untold { (now words.now self.old).writes ≡ None }
        requires begins { (now words.now self.old).look ≢ None }
        requires looks { (look_of (now words.now self.old)).object ≡ o }
        requires readable { IsReadable (now words.now self.old).sample (look_of (now words.now self.old)).word }
        ensures { Loaded L.holds words.now B.began self.old self.new LookLow (LowWord o) result }
    {
        let low = self.places.low(o);
        self.seat.load(words, Kind::LookLow, low)
    }

    /// Looks at the high part of its value.
    pub fn look_high<B: InCall>(&mut self, words: &Words<L>, o: u32) -> u64
        requires under { Under L.holds words.now B.began self.old (Just LookHigh) None }
        requires exists { o < objects (table_of words.now.terms) }
        requires untold { (now words.now self.old).writes ≡ None }
        requires looks { (look_of (now words.now self.old)).object ≡ o }
        requires low { (look_of (now words.now self.old)).low ≢ None }
        requires readable { IsReadable (now words.now self.old).sample (look_of (now words.now self.old)).word }
        ensures { Loaded L.holds words.now B.began self.old self.new LookHigh (HighWord o) result }
    {
        let high = self.places.high(o);
        self.seat.load(words, Kind::LookHigh, high)
    }

    /// Looks at its lock again. The read is recorded where that has not changed.
    pub fn look_again<B: InCall>(&mut self, words: &Words<L>, o: u32) -> u64
        requires under { Under L.holds words.now B.began self.old (Just LookAgain) None }
        requires exists { o < objects (table_of words.now.terms) }
        requires untold { (now words.now self.old).writes ≡ None }
        requires looks { (look_of (now words.now self.old)).object ≡ o }
        requires value { (look_of (now words.now self.old)).value ≢ None }
        ensures { Loaded L.holds words.now B.began self.old self.new LookAgain (LockWord o) result }
    {
        let lock = self.places.lock(o);
        self.seat.load(words, Kind::LookAgain, lock)
    }

    /// Locks the next object written, which was read with this word.
    pub fn lock<B: InCall>(
        &mut self,
        words: &Words<L>,
        writes: &Vec<(u32, Val)>,
        o: u32,
        word: u64,
    ) -> Result<u64, u64>
        requires under { Under L.holds words.now B.began self.old (Just (locks writes.now.items)) None }
        requires exists { o < objects (table_of words.now.terms) }
        requires told { IsTold (now words.now self.old) writes.now.items }
        requires undrawn { (now words.now self.old).drawn ≡ None }
        requires sound { ((now words.now self.old).failed ≡ false) × ((now words.now self.old).gave_back ≡ false) }
        requires left { (now words.now self.old).locked < length writes.now.items }
        requires next { (next_write (now words.now self.old) writes.now.items).0 ≡ o }
        requires read { read_of o (now words.now self.old).reads ≢ None }
        requires word { recorded o (now words.now self.old).reads ≡ word }
        ensures answer { MatchResult result (λ found. found ≡ word) (λ found. found ≢ word) }
        ensures went { Went L.holds words.now B.began self.old self.new None
            (made_by B.began (Exchange word (word + 1)) (locks writes.now.items) o (found_in result)) }
        ensures rest { self.new ≡ record self.old { seat = self.new.seat } }
    {
        let lock = self.places.lock(o);
        let told = Writes::of(writes);
        self.seat
            .raise(words, Kind::Lock(Snapshot::of(&told)), lock, word)
    }

    /// Draws the number that places the attempt in the history.
    pub fn draw<B: InCall>(&mut self, words: &Words<L>, writes: &Vec<(u32, Val)>) -> u64
        requires under { Under L.holds words.now B.began self.old (Just (draws writes.now.items)) None }
        requires begun { 0 < (now words.now self.old).begun }
        requires told { IsTold (now words.now self.old) writes.now.items }
        requires undrawn { (now words.now self.old).drawn ≡ None }
        requires sound { ((now words.now self.old).failed ≡ false) × ((now words.now self.old).gave_back ≡ false) }
        requires locked { (now words.now self.old).locked ≡ length writes.now.items }
        requires lawful { KeepsLaw (L.holds words.now.terms.law.value) (objects (table_of words.now.terms))
            (entry_of (now words.now self.old) writes.now.items) }
        ensures went { Went L.holds words.now B.began self.old self.new None
            (made_by B.began Add (draws writes.now.items) (place (table_of words.now.terms) ClockWord) result) }
        ensures rest { self.new ≡ record self.old { seat = self.new.seat } }
    {
        let clock = self.places.clock();
        let told = Writes::of(writes);
        self.seat.add(words, Kind::Draw(Snapshot::of(&told)), clock)
    }

    /// Checks the next read of an object that is not written.
    pub fn check<B: InCall>(&mut self, words: &Words<L>, o: u32) -> u64
        requires under { Under L.holds words.now B.began self.old (Just Check) None }
        requires exists { o < objects (table_of words.now.terms) }
        requires drawn { (now words.now self.old).drawn ≢ None }
        requires kept { (now words.now self.old).gave_back ≡ false }
        requires left { (now words.now self.old).checked < length (to_check (now words.now self.old)) }
        requires next { (next_check (now words.now self.old)).object ≡ o }
        ensures { Loaded L.holds words.now B.began self.old self.new Check (LockWord o) result }
    {
        let lock = self.places.lock(o);
        self.seat.load(words, Kind::Check, lock)
    }

    /// Writes the low part of the new value of an object that is locked.
    pub fn write_low<B: InCall>(&mut self, words: &Words<L>, o: u32, low: u64)
        requires under { Under L.holds words.now B.began self.old (PutLow o) None }
        requires exists { o < objects (table_of words.now.terms) }
        requires valid { is_valid (now words.now self.old) ≡ true }
        requires held { IsHeld (now words.now self.old) o }
        requires value { (or_hold (hold_of o (now words.now self.old).holds)).value.low ≡ low }
        ensures { Stored L.holds words.now B.began self.old self.new WriteLow (LowWord o) low }
    {
        let place = self.places.low(o);
        self.seat.store(words, Kind::WriteLow, place, low);
    }

    /// Writes the high part.
    pub fn write_high<B: InCall>(&mut self, words: &Words<L>, o: u32, high: u64)
        requires under { Under L.holds words.now B.began self.old (PutHigh o) None }
        requires exists { o < objects (table_of words.now.terms) }
        requires valid { is_valid (now words.now self.old) ≡ true }
        requires held { IsHeld (now words.now self.old) o }
        requires value { (or_hold (hold_of o (now words.now self.old).holds)).value.high ≡ high }
        ensures { Stored L.holds words.now B.began self.old self.new WriteHigh (HighWord o) high }
    {
        let place = self.places.high(o);
        self.seat.store(words, Kind::WriteHigh, place, high);
    }

    /// Unlocks an object with this word: its new version, or the recorded word. What the call answers stays.
    pub fn unlock<B: InCall>(&mut self, words: &Words<L>, o: u32, word: u64)
        requires under { (again : Option TlAgain) × Under L.holds words.now B.began self.old (FreeAs o word) again }
        requires exists { o < objects (table_of words.now.terms) }
        requires held { IsHeld (now words.now self.old) o }
        requires may { MayUnlock (now words.now self.old) (or_hold (hold_of o (now words.now self.old).holds)) word }
        ensures went { (again : Option TlAgain) → Under L.holds words.now B.began self.old (FreeAs o word) again →
            (found : ℕ) × Went L.holds words.now B.began self.old self.new again
            (made_by B.began (Store word) Unlock o found) }
        ensures rest { self.new ≡ record self.old { seat = self.new.seat } }
    {
        let lock = self.places.lock(o);
        self.seat.store(words, Kind::Unlock, lock, word);
    }
}
