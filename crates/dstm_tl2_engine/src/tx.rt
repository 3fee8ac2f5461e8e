ghost use Rattle.std.specs.Prelude.{◌≡◌, ℕ, ◌<◌, List, false, IsSome, IsTrue, None, Some, IfSome, IfOk, OnOk, IfErr};
ghost use Rattle.std.specs.Borrow.{sem, RestsIfErr};
ghost use Rattle.dstm_mem.specs.Memory.{HoldsAlso, MarksAtMost, SetsOnly};
ghost use Rattle.dstm_model.specs.declared.value.Val.{Val};
ghost use Rattle.dstm_tl2_engine.specs.contracts.caller.TlCaller.{the_row};
ghost use Rattle.dstm_tl2_engine.specs.Attempts.{Admits, Commits, Seen, done};
ghost use Rattle.dstm_tl2_engine.specs.Calls.{IsMade, IsTold};
ghost use Rattle.dstm_tl2_engine.specs.Callers.{handed, held, is_live, is_opened, objects_of, state, written};
ghost use Rattle.dstm_tl2.specs.Sharing.{IsRunOf};
ghost use Rattle.dstm_tl2_steps.specs.Reads.{AtRest};
ghost use Rattle.dstm_tl2_engine.specs.Outcomes.{IsLeft};
ghost use Rattle.dstm_tl2_steps.specs.Opened.{with_value};
ghost use Rattle.dstm_tl2_order.specs.Tasks.Work.{Committing, Locking, Opening};
ghost use Rattle.dstm_tl2_engine.specs.Transactions.{BeginsAnew, IsLawful, HasLocked, Leaves, LeavesFrom, Marks, SpentFrom, Stays, given_back, is_ok, tx_place};

use crate::caller::TlCaller;
use crate::error::TlSpent;
use crate::locked::TlHeld;
use crate::stm::TlStm;
use crate::table::TlTable;
use dstm_mem::Mem;
use dstm_model::{Law, Val};
use dstm_tl2_order::TlAgain;

/// An attempt under way, which has locked nothing. `S` stands for its table.
#[derive(Drop)]
pub struct TlAttempt<'a, L: Law, S: TlTable<L>> {
    caller: &'a mut TlCaller<L>,
    stm: S,
    ghost table: { caller.now.home ≡ S.home stm },
}

/// An attempt under way on a table that it borrows, which has locked nothing.
pub type TlTx<'a, L> = TlAttempt<'a, L, &'a TlStm<L>>;

impl<L: Law> TlCaller<L> {
    /// Begins an attempt. What one that was dropped has locked is given back first.
    pub fn begin<'a>(&'a mut self, stm: &'a TlStm<L>) -> Result<TlTx<'a, L>, TlSpent>
        requires table { self.old.home ≡ stm.now }
        ensures* spent { sem 𝓛 (RestsIfErr (the_row L.row L.Law) self.entry (λ t. t.caller.ghost_name) result
            (SpentFrom L.holds self.old)) }
        ensures same { IfOk result (λ t. t.caller.ghost_name ≡ self.entry.ghost_name) }
        ensures table { IfOk result (λ t. t.stm.now ≡ stm.now) }
        ensures begins { IfOk result (λ t. BeginsAnew L.holds self.old t.caller.now) }
        ensures rest { IfOk result (λ t. AtRest (state t.caller.now)) }
    {
        self.begin_one(stm)?;
        Ok(TlAttempt { caller: self, stm })
    }

    /// Goes on with the last attempt, as it was left: its `TlTx` was dropped before its end.
    pub fn resume<'a>(&'a mut self, stm: &'a TlStm<L>) -> TlTx<'a, L>
        requires table { self.old.home ≡ stm.now }
        ensures same { result.caller.ghost_name ≡ self.entry.ghost_name }
        ensures table { result.stm.now ≡ stm.now }
        ensures attempt { result.caller.now ≡ self.old }
    {
        TlAttempt { caller: self, stm }
    }
}

impl<'a, L: Law, S: TlTable<L>> TlAttempt<'a, L, S> {
    /// No call on it answered an error.
    pub fn is_live(&self) -> bool
        ensures { result ≡ is_live self.now.caller.now }
    {
        self.caller.is_live()
    }

    /// Opens an object for reading: answers the value last set, or else the one that is held.
    pub fn open_read(&mut self, o: u32) -> Result<Val, TlAgain>
        requires exists { o < objects_of self.old.caller.now }
        requires live { IsTrue (is_live self.old.caller.now) }
        requires rest { AtRest (state self.old.caller.now) }

        ensures again { IsSome (held self.old.caller.now o) → self.new.caller.now ≡ self.old.caller.now }
        ensures answered { IsSome (held self.old.caller.now o) → IsTrue (is_ok result) }
        ensures stays { held self.old.caller.now o ≡ None → OnOk result
            (Stays L.holds (Opening o) self.old.caller.now self.new.caller.now) }
        ensures leaves { IfErr result (Leaves L.holds (Opening o) self.old.caller.now self.new.caller.now) }
        ensures kept { self.new.caller.now ≡ record self.old.caller.now {
          log = self.new.caller.now.log;
          left = given_back result;
        } }
        ensures seen { Seen L.holds self.new.caller.now }

        ensures value { IfOk result (λ v. Some v ≡ handed self.new.caller.now o) }
        ensures held { OnOk result (HoldsAlso o (held self.old.caller.now) (held self.new.caller.now)) }
        ensures reference { self.new.caller.ghost_name ≡ self.old.caller.ghost_name }
        ensures table { S.home self.new.stm ≡ S.home self.old.stm }
        ensures place { tx_place self.new.caller.ghost_name (S.home self.new.stm) self.new.caller.now
            ≡ tx_place self.old.caller.ghost_name (S.home self.old.stm) self.old.caller.now }
        ensures narrows { (map : List Val) → Admits L.holds self.new.caller.now map
            → Admits L.holds self.old.caller.now map }
        ensures admits { OnOk result ((map : List Val) × Admits L.holds self.new.caller.now map) }
        ensures live { is_live self.new.caller.now ≡ is_ok result }
        ensures rest { OnOk result (AtRest (state self.new.caller.now)) }
    {
        self.caller.open_read(self.stm.table(), o)
    }

    /// Opens an object for reading and writing, with the same answer. It is read, where it was not.
    pub fn open_write(&mut self, o: u32) -> Result<Val, TlAgain>
        requires exists { o < objects_of self.old.caller.now }
        requires live { IsTrue (is_live self.old.caller.now) }
        requires rest { AtRest (state self.old.caller.now) }

        ensures again { IsTrue (is_opened self.old.caller.now o) → self.new.caller.now ≡ self.old.caller.now }
        ensures answered { IsSome (held self.old.caller.now o) → IsTrue (is_ok result) }
        ensures stays { held self.old.caller.now o ≡ None → OnOk result
            (Stays L.holds (Opening o) self.old.caller.now self.new.caller.now) }
        ensures steps { IsSome (held self.old.caller.now o) → self.new.caller.now.log ≡ self.old.caller.now.log }
        ensures marks { is_opened self.old.caller.now o ≡ false →
            IfOk result (Marks o self.old.caller.now self.new.caller.now) }
        ensures leaves { IfErr result (Leaves L.holds (Opening o) self.old.caller.now self.new.caller.now) }
        ensures kept { self.new.caller.now ≡ record self.old.caller.now {
          log = self.new.caller.now.log;
          writes = self.new.caller.now.writes;
          left = given_back result;
        } }
        ensures seen { Seen L.holds self.new.caller.now }

        ensures value { IfOk result (λ v. Some v ≡ handed self.new.caller.now o) }
        ensures held { OnOk result (HoldsAlso o (held self.old.caller.now) (held self.new.caller.now)) }
        ensures opened { OnOk result (MarksAtMost o (is_opened self.old.caller.now) (is_opened self.new.caller.now)) }
        ensures opens { OnOk result (IsTrue (is_opened self.new.caller.now o)) }
        ensures reference { self.new.caller.ghost_name ≡ self.old.caller.ghost_name }
        ensures table { S.home self.new.stm ≡ S.home self.old.stm }
        ensures place { tx_place self.new.caller.ghost_name (S.home self.new.stm) self.new.caller.now
            ≡ tx_place self.old.caller.ghost_name (S.home self.old.stm) self.old.caller.now }
        ensures narrows { (map : List Val) → Admits L.holds self.new.caller.now map
            → Admits L.holds self.old.caller.now map }
        ensures admits { OnOk result ((map : List Val) × Admits L.holds self.new.caller.now map) }
        ensures live { is_live self.new.caller.now ≡ is_ok result }
        ensures rest { OnOk result (AtRest (state self.new.caller.now)) }
    {
        self.caller.open_write(self.stm.table(), o)
    }

    /// Sets the value of an object that is opened for writing.
    pub fn set(&mut self, o: u32, v: Val)
        requires exists { o < objects_of self.old.caller.now }
        requires live { IsTrue (is_live self.old.caller.now) }
        requires rest { AtRest (state self.old.caller.now) }
        requires opened { IsTrue (is_opened self.old.caller.now o) }
        ensures written { SetsOnly o v (written self.old.caller.now) (written self.new.caller.now) }
        ensures writes { self.new.caller.now.writes ≡ with_value o v self.old.caller.now.writes }
        ensures kept { self.new.caller.now ≡ record self.old.caller.now {
          writes = self.new.caller.now.writes;
          set = self.new.caller.now.set;
        } }
        ensures opened { (p : ℕ) → is_opened self.new.caller.now p ≡ is_opened self.old.caller.now p }
        ensures reference { self.new.caller.ghost_name ≡ self.old.caller.ghost_name }
        ensures table { S.home self.new.stm ≡ S.home self.old.stm }
    {
        self.caller.set(o, v);
    }

    /// Leaves the attempt. It takes no step.
    pub fn abandon(self)
        ensures same { self.exit.0.now ≡ self.entry.caller.now }
        ensures left { IfSome self.entry.caller.now.left (λ _. IsLeft self.entry.caller.now) }
        ensures told { IsMade self.entry.caller.now → IsTold self.entry.caller.now }
        ensures seen { Seen L.holds self.entry.caller.now }
        ensures run { IsRunOf L.holds self.entry.caller.now.home.terms self.entry.caller.now.log }
    {
        let TlAttempt { caller, .. } = self;
        caller.abandon();
    }

    /// Locks the objects opened for writing.
    pub fn lock(self) -> Result<TlHeld<'a, L, S>, TlAgain>
        requires live { IsTrue (is_live self.caller.now) }
        requires rest { AtRest (state self.caller.now) }
        requires lawful { IsLawful L.holds self.caller.now }
        ensures* leaves { sem 𝓛 (RestsIfErr (the_row L.row L.Law) self.entry.caller (λ t. t.caller.ghost_name) result
            (LeavesFrom L.holds (Locking self.entry.caller.now.writes) self.entry.caller.now result)) }
        ensures same { IfOk result (λ t. t.caller.ghost_name ≡ self.entry.caller.ghost_name) }
        ensures table { IfOk result (λ t. t.stm ≡ self.entry.stm) }
        ensures stays { IfOk result (λ t.
            Stays L.holds (Locking self.entry.caller.now.writes) self.entry.caller.now t.caller.now) }
        ensures kept { IfOk result (λ t. t.caller.now ≡ record self.entry.caller.now { log = t.caller.now.log }) }
        ensures locked { IfOk result (λ t. HasLocked t.caller.now) }
        ensures done { IfOk result (λ t. done t.caller.now ≡ done self.entry.caller.now) }
        ensures seen { IfOk result (λ t. Seen L.holds t.caller.now) }
    {
        let TlAttempt { caller, stm } = self;
        caller.lock(stm.table())?;
        Ok(TlHeld { caller, stm })
    }

    /// Commits the attempt, and answers the number that it drew.
    pub fn commit(self) -> Result<u64, TlAgain>
        requires live { IsTrue (is_live self.caller.now) }
        requires rest { AtRest (state self.caller.now) }
        requires lawful { IsLawful L.holds self.caller.now }
        ensures stays { OnOk result
            (Stays L.holds (Committing self.entry.caller.now.writes) self.entry.caller.now self.exit.0.now) }
        ensures leaves { IfErr result
            (Leaves L.holds (Committing self.entry.caller.now.writes) self.entry.caller.now self.exit.0.now) }
        ensures number { IfOk result (Commits self.entry.caller.now self.exit.0.now) }
        ensures kept { self.exit.0.now ≡ record self.entry.caller.now {
          log = self.exit.0.now.log;
          left = given_back result;
        } }
        ensures told { IsMade self.exit.0.now → IsTold self.exit.0.now }
        ensures seen { Seen L.holds self.exit.0.now }
    {
        let TlAttempt { caller, stm } = self;
        caller.commit(stm.table())
    }
}

impl<'a, L: Law, S: TlTable<L>> Mem for TlAttempt<'a, L, S> {
    ghost use Rattle.std.specs.Prelude.{false, ◌&&◌};
    ghost use Rattle.dstm_tl2_engine.specs.Attempts.{Admits};
    ghost use Rattle.dstm_tl2_engine.specs.Callers.{held, is_live, is_opened, is_resting, objects_of, state, written};
    ghost use Rattle.dstm_tl2_engine.specs.Transactions.{TxPlace, tx_place};

    type Err = TlAgain;

    ghost Place = { TxPlace L };

    ghost place = { λ t. tx_place t.caller.ghost_name (S.home t.stm) t.caller.now };

    ghost all_write = { λ _. false };

    ghost objects = { λ t. objects_of t.caller.now };

    ghost held = { λ t. held t.caller.now };

    ghost written = { λ t. written t.caller.now };

    ghost is_opened = { λ t. is_opened t.caller.now };

    ghost is_live = { λ t. is_live t.caller.now && is_resting (state t.caller.now) };

    ghost error = { λ t. t.caller.now.left };

    ghost Admits = { λ t. Admits L.holds t.caller.now };

    fn open_read(&mut self, o: u32) -> Result<Val, TlAgain> {
        TlAttempt::open_read(self, o)
    }

    fn open_write(&mut self, o: u32) -> Result<Val, TlAgain> {
        TlAttempt::open_write(self, o)
    }

    fn set(&mut self, o: u32, v: Val) {
        TlAttempt::set(self, o, v);
    }

    ghost admitted_length = { λ t map admits. admits.length };

    ghost admitted_agrees = { λ t map admits. admits.agrees };
}
