ghost use Rattle.std.specs.Prelude.{◌+◌, ◌≡◌, ◌≢◌, ◌↔◌, ℕ, ◌<◌, ◌≤◌, List, [], Bool, true, false, not, min, IsSome, is_some, IsTrue, Option, None, Some, Ok, Err, IfOk, OnOk, IfErr, MatchResult, ◌&&◌, cond};
ghost use Rattle.std.specs.Borrow.{sem, RestsIfErr};
ghost use Rattle.dstm_core.specs.State.{read_of};
ghost use Rattle.dstm_engine.specs.contracts.caller.Caller.{the_row};
ghost use Rattle.dstm_engine.specs.Attempts.{Sighted, Admits, Commits, done, sights};
ghost use Rattle.dstm_engine.specs.Callers.{Called, shape_of, law_of, state, is_live, is_opened, live_held, live_opened, held, written, handed, new_value, begun_log};
ghost use Rattle.dstm_engine.specs.Calls.{IsUnderWay, Performs, reading};
ghost use Rattle.dstm_engine.specs.Outcomes.{IsEnded};
ghost use Rattle.dstm_engine.specs.Transactions.{
  tx_place,
  given_back,
  is_ok,
  IsStaleOrKilled,
  SpentFrom,
  BeginsAnew,
  Leaves,
  Stays,
};
ghost use Rattle.dstm_mem.specs.Memory.{with_set, HoldsAlso, HoldsWithout, MarksAtMost, SetsOnly};
ghost use Rattle.dstm_order.specs.Tasks.Task.{Leaving, Doing};
ghost use Rattle.dstm_order.specs.Tasks.Work.{Writing, Releasing, Rechecking, Committing};
ghost use Rattle.dstm_order.specs.Counts.{counts_of};

use crate::caller::Caller;
use crate::error::Spent;
use crate::stm::Stm;
use dstm_mem::{Mem, Release};
use dstm_model::{Law, Val};
use dstm_order::Again;

/// An attempt under way.
#[derive(Drop)]
pub struct Tx<'a, L: Law> {
    pub(crate) caller: &'a mut Caller<L>,
    pub(crate) stm: &'a Stm<L>,
    ghost table: { caller.now.home ≡ stm.now },
}

impl<L: Law> Caller<L> {
    /// Begins an attempt. One that was dropped before its end is quit first.
    pub fn begin<'a>(&'a mut self, stm: &'a Stm<L>) -> Result<Tx<'a, L>, Spent>
        requires table { self.old.home ≡ stm.now }
        ensures* spent { sem 𝓛 (RestsIfErr (the_row L.row L.Law) self.entry (λ t. t.caller.ghost_name) result
            (SpentFrom L.holds self.old)) }
        ensures same { IfOk result (λ t. t.caller.ghost_name ≡ self.entry.ghost_name) }
        ensures table { IfOk result (λ t. t.stm.now ≡ stm.now) }
        ensures begins { IfOk result (λ t. BeginsAnew L.holds self.old t.caller.now) }
    {
        self.begin_one(stm)?;
        Ok(Tx { caller: self, stm })
    }

    /// Goes on with the last attempt, as it was left: its `Tx` was dropped before its end.
    pub fn resume<'a>(&'a mut self, stm: &'a Stm<L>) -> Tx<'a, L>
        requires table { self.old.home ≡ stm.now }
        ensures same { result.caller.ghost_name ≡ self.entry.ghost_name }
        ensures table { result.stm.now ≡ stm.now }
        ensures attempt { result.caller.now ≡ self.old }
    {
        Tx { caller: self, stm }
    }
}

impl<'a, L: Law> Tx<'a, L> {
    /// How many objects there are.
    pub fn objects(&self) -> u32
        ensures { result ≡ (shape_of self.now.caller.now).objects }
    {
        self.stm.shape().objects
    }

    /// No call on it answered an error.
    pub fn is_live(&self) -> bool
        ensures { result ≡ is_live self.now.caller.now }
    {
        self.caller.is_live()
    }

    /// Opens an object for reading: answers the value last set, or else the one that is held.
    #[inline(always)]
    pub fn open_read(&mut self, o: u32) -> Result<Val, Again>
        requires exists { o < (shape_of self.old.caller.now).objects }
        requires live { IsTrue (is_live self.old.caller.now) }

        ensures again { IsSome (held self.old.caller.now o) → self.new.caller.now ≡ self.old.caller.now }
        ensures answered { IsSome (held self.old.caller.now o) → IsTrue (is_ok result) }
        ensures stays { held self.old.caller.now o ≡ None → OnOk result
            (Stays L.holds (reading (shape_of self.old.caller.now) o) self.old.caller.now self.new.caller.now) }
        ensures leaves { IfErr result
            (Leaves L.holds (reading (shape_of self.old.caller.now) o) self.old.caller.now self.new.caller.now) }
        ensures kept { self.new.caller.now ≡ record self.old.caller.now {
          log = self.new.caller.now.log;
          generator = self.new.caller.now.generator;
          left = given_back result;
        } }
        ensures sight { OnOk result (Sighted self.new.caller.now) }

        ensures value { IfOk result (λ v. Some v ≡ handed self.new.caller.now o) }
        ensures held { OnOk result (HoldsAlso o (held self.old.caller.now) (held self.new.caller.now)) }
        ensures opened { OnOk result (MarksAtMost o (is_opened self.old.caller.now) (is_opened self.new.caller.now)) }
        ensures unmarked { OnOk result ((shape_of self.old.caller.now).all_write ≡ false →
            (p : ℕ) → is_opened self.new.caller.now p ≡ is_opened self.old.caller.now p) }
        ensures reference { self.new.caller.ghost_name ≡ self.old.caller.ghost_name }
        ensures table { self.new.stm.now ≡ self.old.stm.now }
        ensures place { tx_place self.new.caller.ghost_name self.new.stm.now self.new.caller.now
            ≡ tx_place self.old.caller.ghost_name self.old.stm.now self.old.caller.now }
        ensures narrows { (map : List Val) → Admits L.holds self.new.caller.now map
            → Admits L.holds self.old.caller.now map }
        ensures admits { OnOk result ((map : List Val) × Admits L.holds self.new.caller.now map) }
        ensures live { is_live self.new.caller.now ≡ is_ok result }
    {
        self.caller.open_read(self.stm, o)
    }

    /// Opens an object for reading and writing, with the same answer.
    #[inline(always)]
    pub fn open_write(&mut self, o: u32) -> Result<Val, Again>
        requires exists { o < (shape_of self.old.caller.now).objects }
        requires live { IsTrue (is_live self.old.caller.now) }

        ensures again { IsTrue (is_opened self.old.caller.now o) → self.new.caller.now ≡ self.old.caller.now }
        ensures answered { IsTrue (is_opened self.old.caller.now o) → IsTrue (is_ok result) }
        ensures stays { is_opened self.old.caller.now o ≡ false → OnOk result
            (Stays L.holds (Writing o) self.old.caller.now self.new.caller.now) }
        ensures leaves { IfErr result (Leaves L.holds (Writing o) self.old.caller.now self.new.caller.now) }
        ensures kept { self.new.caller.now ≡ record self.old.caller.now {
          log = self.new.caller.now.log;
          generator = self.new.caller.now.generator;
          left = given_back result;
        } }
        ensures sight { OnOk result (Sighted self.new.caller.now) }

        ensures value { IfOk result (λ v. Some v ≡ handed self.new.caller.now o) }
        ensures held { OnOk result (HoldsAlso o (held self.old.caller.now) (held self.new.caller.now)) }
        ensures opened { OnOk result (MarksAtMost o (is_opened self.old.caller.now) (is_opened self.new.caller.now)) }
        ensures opens { OnOk result (IsTrue (is_opened self.new.caller.now o)) }
        ensures reference { self.new.caller.ghost_name ≡ self.old.caller.ghost_name }
        ensures table { self.new.stm.now ≡ self.old.stm.now }
        ensures place { tx_place self.new.caller.ghost_name self.new.stm.now self.new.caller.now
            ≡ tx_place self.old.caller.ghost_name self.old.stm.now self.old.caller.now }
        ensures narrows { (map : List Val) → Admits L.holds self.new.caller.now map
            → Admits L.holds self.old.caller.now map }
        ensures admits { OnOk result ((map : List Val) × Admits L.holds self.new.caller.now map) }
        ensures live { is_live self.new.caller.now ≡ is_ok result }
    {
        self.caller.open_write(self.stm, o)
    }

    /// Sets the value of an object that is opened for writing.
    pub fn set(&mut self, o: u32, v: Val)
        requires exists { o < (shape_of self.old.caller.now).objects }
        requires live { IsTrue (is_live self.old.caller.now) }
        requires opened { IsTrue (is_opened self.old.caller.now o) }
        ensures written { SetsOnly o v (written self.old.caller.now) (written self.new.caller.now) }
        ensures kept { self.new.caller.now ≡ record self.old.caller.now { set = self.new.caller.now.set } }
        ensures reference { self.new.caller.ghost_name ≡ self.old.caller.ghost_name }
        ensures table { self.new.stm.now ≡ self.old.stm.now }
    {
        self.caller.set(o, v);
    }

    /// The attempt is live, and the object is among its reads and was not opened for writing.
    pub fn is_read(&self, o: u32) -> bool
        requires exists { o < (shape_of self.now.caller.now).objects }
        ensures { result ≡ (is_some (live_held self.now.caller.now o) && not (live_opened self.now.caller.now o)) }
    {
        self.caller.is_read(o)
    }

    /// Lets go a read of an object that is not opened for writing.
    pub fn release(&mut self, o: u32)
        requires exists { o < (shape_of self.old.caller.now).objects }
        requires live { IsTrue (is_live self.old.caller.now) }
        requires read { IsTrue (is_some (held self.old.caller.now o) && not (is_opened self.old.caller.now o)) }
        ensures steps { Performs L.holds (Doing (Releasing o)) self.old.caller.now self.new.caller.now None }
        ensures kept { self.new.caller.now ≡ record self.old.caller.now { log = self.new.caller.now.log } }
        ensures held { HoldsWithout o (held self.old.caller.now) (held self.new.caller.now) }
        ensures opened { (p : ℕ) → is_opened self.new.caller.now p ≡ is_opened self.old.caller.now p }
        ensures live { IsTrue (is_live self.new.caller.now) }
        ensures reference { self.new.caller.ghost_name ≡ self.old.caller.ghost_name }
        ensures table { self.new.stm.now ≡ self.old.stm.now }
        ensures place { tx_place self.new.caller.ghost_name self.new.stm.now self.new.caller.now
            ≡ tx_place self.old.caller.ghost_name self.old.stm.now self.old.caller.now }
        ensures widens { (map : List Val) → Admits L.holds self.old.caller.now map
            → Admits L.holds self.new.caller.now map }
    {
        self.caller.release(self.stm, o);
    }

    /// Tells whether all reads are still current together.
    pub fn recheck(&mut self) -> Result<(), Again>
        requires live { IsTrue (is_live self.old.caller.now) }
        ensures stays { OnOk result (Stays L.holds Rechecking self.old.caller.now self.new.caller.now) }
        ensures leaves { IfErr result (Leaves L.holds Rechecking self.old.caller.now self.new.caller.now) }
        ensures cause { IfErr result IsStaleOrKilled }
        ensures kept { self.new.caller.now ≡ record self.old.caller.now {
          log = self.new.caller.now.log;
          left = given_back result;
        } }
        ensures sight { OnOk result (Sighted self.new.caller.now) }
        ensures sights { OnOk result (sights self.new.caller.now ≡ sights self.old.caller.now + 1) }
        ensures held { (p : ℕ) → held self.new.caller.now p ≡ held self.old.caller.now p }
        ensures opened { (p : ℕ) → is_opened self.new.caller.now p ≡ is_opened self.old.caller.now p }
        ensures live { is_live self.new.caller.now ≡ is_ok result }
        ensures reference { self.new.caller.ghost_name ≡ self.old.caller.ghost_name }
        ensures table { self.new.stm.now ≡ self.old.stm.now }
        ensures place { tx_place self.new.caller.ghost_name self.new.stm.now self.new.caller.now
            ≡ tx_place self.old.caller.ghost_name self.old.stm.now self.old.caller.now }
    {
        self.caller.recheck(self.stm)
    }

    /// Quits the attempt, if it is live.
    pub fn abandon(self)
        ensures steps { Performs L.holds Leaving self.entry.caller.now self.exit.0.now None }
        ensures kept { self.exit.0.now ≡ record self.entry.caller.now { log = self.exit.0.now.log } }
        ensures dead { self.entry.caller.now.left ≢ None → self.exit.0.now ≡ self.entry.caller.now }
        ensures attempt { begun_log self.exit.0.now.number self.exit.0.now.log
            ≡ begun_log self.entry.caller.now.number self.entry.caller.now.log }
        ensures done { done self.exit.0.now ≡ done self.entry.caller.now }
        ensures ended { IsUnderWay self.entry.caller.now → IsEnded self.entry.caller.now }
    {
        let Tx { caller, stm } = self;
        caller.abandon(stm);
    }

    /// Commits the attempt, and answers the number that it drew.
    pub fn commit(self) -> Result<u64, Again>
        requires live { IsTrue (is_live self.caller.now) }
        requires lawful { (map : List Val) → Admits L.holds self.caller.now map →
            L.holds (law_of self.caller.now) (with_set map (written self.caller.now)) }
        ensures stays { OnOk result
            (Stays L.holds (Committing (new_value self.entry.caller.now)) self.entry.caller.now self.exit.0.now) }
        ensures leaves { IfErr result
            (Leaves L.holds (Committing (new_value self.entry.caller.now)) self.entry.caller.now self.exit.0.now) }
        ensures number { IfOk result (λ number. Commits self.entry.caller.now self.exit.0.now number) }
        ensures kept { self.exit.0.now ≡ record self.entry.caller.now {
          log = self.exit.0.now.log;
          left = given_back result;
          fresh = cond (is_ok result) true self.entry.caller.now.fresh;
        } }
        ensures attempt { begun_log self.exit.0.now.number self.exit.0.now.log
            ≡ begun_log self.entry.caller.now.number self.entry.caller.now.log }
        ensures done { IfErr result (λ _. done self.exit.0.now ≡ done self.entry.caller.now) }
        ensures ended { IsEnded self.exit.0.now }
    {
        let Tx { caller, stm } = self;
        caller.commit(stm)
    }
}

impl<'a, L: Law> Mem for Tx<'a, L> {
    ghost use Rattle.dstm_engine.specs.Attempts.{Admits};
    ghost use Rattle.dstm_engine.specs.Callers.{shape_of, is_live, live_held, live_opened, written};
    ghost use Rattle.dstm_engine.specs.Places.{live_agrees};
    ghost use Rattle.dstm_engine.specs.Transactions.{TxPlace, tx_place};

    type Err = Again;

    ghost Place = { TxPlace L };

    ghost place = { λ t. tx_place t.caller.ghost_name t.stm.now t.caller.now };

    ghost all_write = { λ p. p.home.terms.shape.all_write };

    ghost objects = { λ t. (shape_of t.caller.now).objects };

    ghost held = { λ t. live_held t.caller.now };

    ghost written = { λ t. written t.caller.now };

    ghost is_opened = { λ t. live_opened t.caller.now };

    ghost is_live = { λ t. is_live t.caller.now };

    ghost error = { λ t. t.caller.now.left };

    ghost Admits = { λ t. Admits L.holds t.caller.now };

    #[inline(always)]
    fn open_read(&mut self, o: u32) -> Result<Val, Again> {
        Tx::open_read(self, o)
    }

    #[inline(always)]
    fn open_write(&mut self, o: u32) -> Result<Val, Again> {
        Tx::open_write(self, o)
    }

    fn set(&mut self, o: u32, v: Val) {
        Tx::set(self, o, v);
    }

    ghost admitted_length = { λ t map admits. admits.length };

    ghost admitted_agrees = { λ t map admits. live_agrees t.caller.now map admits.agrees };
}

impl<'a, L: Law> Release for Tx<'a, L> {
    ghost use Rattle.std.proofs.Common.{sym};
    ghost use Rattle.dstm_engine.specs.Callers.{is_live};
    ghost use Rattle.dstm_engine.specs.Places.{IsBegunMap, admits_exactly, began_stays};

    ghost Began = { λ t. IsBegunMap L.holds t.caller.now };

    fn is_read(&self, o: u32) -> bool {
        Tx::is_read(self, o)
    }

    fn release(&mut self, o: u32) {
        Tx::release(self, o);
    }

    ghost admits_exactly = { λ t map live. admits_exactly L.holds t.caller.now map live };

    ghost began_stays = { λ s t map same. began_stays L.holds s.caller.now t.caller.now map s.caller.ghost_name
        t.caller.ghost_name s.stm.now t.stm.now same };
}
