ghost use Rattle.std.specs.Prelude.{OnOk, ◌≡◌, ◌<◌, [], None, Some, IfErr, IfOk, IfSome, IsSome, IsTrue, false};
ghost use Rattle.dstm_mem.specs.Memory.{SetsOnly};
ghost use Rattle.dstm_model.specs.declared.value.Val.{Val};
ghost use Rattle.dstm_tl2.specs.Sharing.{IsRunOf};
ghost use Rattle.dstm_tl2.specs.State.{first};
ghost use Rattle.dstm_tl2_engine.specs.Attempts.{Commits, Seen, done, draws};
ghost use Rattle.dstm_tl2_engine.specs.Callers.{handed, held, is_live, is_opened, objects_of, seat_view, state, written};
ghost use Rattle.dstm_tl2_engine.specs.Calls.{IsMade, IsTold, Performs};
ghost use Rattle.dstm_tl2_steps.specs.Reads.{AtRest};
ghost use Rattle.dstm_tl2_engine.specs.Outcomes.{IsLeft};
ghost use Rattle.dstm_tl2_steps.specs.Opened.{with_value};
ghost use Rattle.dstm_tl2_engine.specs.Opens.{Continues, HasOpened};
ghost use Rattle.dstm_tl2_engine.specs.Tables.{enrolled_as};
ghost use Rattle.dstm_tl2_order.specs.Tasks.Task.{Returning};
ghost use Rattle.dstm_tl2_order.specs.Tasks.Work.{Committing, Finishing, Locking, Opening};
ghost use Rattle.dstm_tl2_engine.specs.Transactions.{BeginsAnew, IsLawful, HasLocked, Leaves, Marks, SpentFrom, Stays, given_back, is_ok};

use crate::beginning::{begin_next, free_first};
use crate::error::TlSpent;
use crate::stm::TlStm;
use dstm_model::{Law, Val};
use dstm_tl2::Terms;
use dstm_tl2_order::TlAgain;
use dstm_tl2_steps::{CallerSeat, Opened, Places, Steps};
use dstm_tl2_words::Tl2Seat;
use std::marker::{Brand, Model};

/// One that makes attempts on a table, one after the other.
#[derive(Drop)]
pub struct TlCaller<L: Law> {
    terms: Terms<L>,
    steps: Steps<L>,
    number: u32,
    begun: u64,
    // How many objects are still locked: the first ones of those open for writing.
    locked: u32,
    left: Option<TlAgain>,
    opened: Opened,
}

impl<L: Law> Model for TlCaller<L> {
    ghost use Rattle.dstm_tl2_engine.specs.Callers.{TlCalled};
    ghost use Rattle.dstm_tl2_engine.specs.Mirror.{called, Tied};

    ghost Value = { TlCalled L };

    ghost view = { called };

    ghost invariant = { Tied L.holds };
}

impl<L: Law> TlCaller<L> {
    // A caller that has just drawn its number.
    pub(crate) fn enrolled(
        terms: Terms<L>,
        seat: Tl2Seat<L>,
        objects: u32,
        number: u32,
        opened: Opened,
    ) -> TlCaller<L>
        requires view { seat.me.0 ≡ seat_view (enrolled_as terms seat number) }
        requires slots { seat.me.1 ≡ [] }
        requires run { IsRunOf L.holds terms seat.me.0.log }
        requires objects { objects_of (enrolled_as terms seat number) ≡ objects }
        requires number { number < terms.callers }
        requires state { state (enrolled_as terms seat number) ≡ record first { number = Some number } }
        requires undrawn { draws (enrolled_as terms seat number) ≡ 0 }
        requires opened { opened ≡ record { objects = objects; reads = []; writes = []; set = [] } }
        ensures { result ≡ enrolled_as terms seat number }
    {
        let steps = Steps {
            seat: CallerSeat::make(seat),
            places: Places::of(objects),
            sample: 0,
        };
        TlCaller {
            terms,
            steps,
            number,
            begun: 0,
            locked: 0,
            left: None,
            opened,
        }
    }

    // No call on its last attempt answered an error.
    pub(crate) fn is_live(&self) -> bool
        ensures { result ≡ is_live self.now }
    {
        self.left.is_none()
    }

    /// How many numbers had been drawn as its last attempt began.
    pub fn sample(&self) -> u64
        ensures { result ≡ (state self.now).sample }
    {
        self.steps.sample
    }

    /// How many numbers it has drawn.
    pub fn draws(&self) -> u64
        ensures { result ≡ draws self.now }
    {
        self.steps.seat.draws()
    }

    // What is known of its last attempt. It takes no step.
    pub(crate) fn abandon(&self)
        ensures left { IfSome self.now.left (λ _. IsLeft self.now) }
        ensures told { IsMade self.now → IsTold self.now }
        ensures seen { Seen L.holds self.now }
        ensures run { IsRunOf L.holds self.now.home.terms self.now.log }
    {
        // A read of the caller, so that what its type keeps is known here.
        let _ = &self.left;
    }

    // Gives back what a dropped attempt has locked.
    pub(crate) fn give_back(&mut self, stm: &TlStm<L>)
        requires table { self.old.home ≡ stm.now }
        ensures steps { Performs L.holds Returning self.old self.new None }
        ensures kept { self.new ≡ record self.old { log = self.new.log } }
        ensures free { (state self.new).holds ≡ [] }
        ensures rest { (state self.old).holds ≡ [] → self.new ≡ self.old }
        ensures done { done self.new ≡ done self.old }
    {
        free_first::<L, Brand>(&mut self.steps, stm.words(), &self.opened, &mut self.locked);
    }

    // Begins an attempt, if one is left. What a dropped one has locked is given back first.
    pub(crate) fn begin_one(&mut self, stm: &TlStm<L>) -> Result<(), TlSpent>
        requires table { self.old.home ≡ stm.now }
        ensures begins { IfOk result (λ _. BeginsAnew L.holds self.old self.new) }
        ensures spent { IfErr result (λ _. SpentFrom L.holds self.old self.new) }
        ensures rest { OnOk result (AtRest (state self.new)) }
    {
        let spent = self.begun >= self.terms.attempts;
        begin_next::<L, Brand>(
            &mut self.steps,
            stm.words(),
            &self.opened,
            &mut self.locked,
            spent,
        );
        if spent {
            return Err(TlSpent);
        }
        self.begun += 1;
        self.left = None;
        self.opened.clear();
        Ok(())
    }

    // Opens an object for reading: answers the value last set, or else the one that is held.
    pub(crate) fn open_read(&mut self, stm: &TlStm<L>, o: u32) -> Result<Val, TlAgain>
        requires table { self.old.home ≡ stm.now }
        requires exists { o < objects_of self.old }
        requires live { IsTrue (is_live self.old) }
        requires rest { AtRest (state self.old) }
        ensures again { IsSome (held self.old o) → self.new ≡ self.old }
        ensures answered { IsSome (held self.old o) → IsTrue (is_ok result) }
        ensures stays { held self.old o ≡ None → OnOk result (Stays L.holds (Opening o) self.old self.new) }
        ensures leaves { IfErr result (Leaves L.holds (Opening o) self.old self.new) }
        ensures kept { self.new ≡ record self.old { log = self.new.log; left = given_back result } }
        ensures continues { Continues L.holds self.old self.new }
        ensures opens { OnOk result (HasOpened L.holds o self.old self.new) }
        ensures rest { OnOk result (AtRest (state self.new)) }
        ensures seen { Seen L.holds self.new }
        ensures value { IfOk result (λ v. Some v ≡ handed self.new o) }
    {
        if let Some(value) = self.opened.value(o) {
            return Ok(value);
        }
        // The two ways out stay apart: as the call's own answer they would be joined first, by eight instructions.
        let value = self.read_first(stm, o)?;
        Ok(value)
    }

    // Opens an object for reading and writing, with the same answer.
    pub(crate) fn open_write(&mut self, stm: &TlStm<L>, o: u32) -> Result<Val, TlAgain>
        requires table { self.old.home ≡ stm.now }
        requires exists { o < objects_of self.old }
        requires live { IsTrue (is_live self.old) }
        requires rest { AtRest (state self.old) }
        ensures again { IsTrue (is_opened self.old o) → self.new ≡ self.old }
        ensures answered { IsSome (held self.old o) → IsTrue (is_ok result) }
        ensures stays { held self.old o ≡ None → OnOk result (Stays L.holds (Opening o) self.old self.new) }
        ensures steps { IsSome (held self.old o) → self.new.log ≡ self.old.log }
        ensures marks { is_opened self.old o ≡ false → IfOk result (Marks o self.old self.new) }
        ensures leaves { IfErr result (Leaves L.holds (Opening o) self.old self.new) }
        ensures kept { self.new ≡ record self.old {
          log = self.new.log;
          writes = self.new.writes;
          left = given_back result;
        } }
        ensures continues { Continues L.holds self.old self.new }
        ensures opens { OnOk result (HasOpened L.holds o self.old self.new) }
        ensures rest { OnOk result (AtRest (state self.new)) }
        ensures seen { Seen L.holds self.new }
        ensures value { IfOk result (λ v. Some v ≡ handed self.new o) }
    {
        if let Some(value) = self.opened.write(o) {
            return Ok(value);
        }
        let value = match self.opened.read(o) {
            Some(slot) => slot.value,
            None => self.read_first(stm, o)?,
        };
        self.opened.push_write(o, value);
        Ok(value)
    }

    // Reads an object that was not read.
    fn read_first(&mut self, stm: &TlStm<L>, o: u32) -> Result<Val, TlAgain>
        requires table { self.old.home ≡ stm.now }
        requires exists { o < objects_of self.old }
        requires live { IsTrue (is_live self.old) }
        requires rest { AtRest (state self.old) }
        requires unread { held self.old o ≡ None }
        ensures stays { OnOk result (Stays L.holds (Opening o) self.old self.new) }
        ensures leaves { IfErr result (Leaves L.holds (Opening o) self.old self.new) }
        ensures kept { self.new ≡ record self.old { log = self.new.log; left = given_back result } }
        ensures continues { Continues L.holds self.old self.new }
        ensures opens { OnOk result (HasOpened L.holds o self.old self.new) }
        ensures rest { OnOk result (AtRest (state self.new)) }
        ensures seen { Seen L.holds self.new }
        ensures value { IfOk result (λ v. Some v ≡ held self.new o) }
    {
        match self.steps.read::<Brand>(stm.words(), o) {
            Ok(slot) => {
                self.opened.push_read(slot);
                Ok(slot.value)
            }
            Err(again) => {
                self.left = Some(again);
                Err(again)
            }
        }
    }

    // Sets the value of an object that is open for writing.
    pub(crate) fn set(&mut self, o: u32, v: Val)
        requires exists { o < objects_of self.old }
        requires live { IsTrue (is_live self.old) }
        requires rest { AtRest (state self.old) }
        requires opened { IsTrue (is_opened self.old o) }
        ensures written { SetsOnly o v (written self.old) (written self.new) }
        ensures writes { self.new.writes ≡ with_value o v self.old.writes }
        ensures kept { self.new ≡ record self.old { writes = self.new.writes; set = self.new.set } }
    {
        self.opened.set(o, v);
    }

    // Locks what the attempt writes.
    pub(crate) fn lock(&mut self, stm: &TlStm<L>) -> Result<(), TlAgain>
        requires table { self.old.home ≡ stm.now }
        requires live { IsTrue (is_live self.old) }
        requires rest { AtRest (state self.old) }
        requires lawful { IsLawful L.holds self.old }
        ensures stays { OnOk result (Stays L.holds (Locking self.old.writes) self.old self.new) }
        ensures leaves { IfErr result (Leaves L.holds (Locking self.old.writes) self.old self.new) }
        ensures kept { self.new ≡ record self.old { log = self.new.log; left = given_back result } }
        ensures locked { OnOk result (HasLocked self.new) }
        ensures done { OnOk result (done self.new ≡ done self.old) }
        ensures told { IsMade self.new → IsTold self.new }
        ensures seen { Seen L.holds self.new }
    {
        // No two of its writes are of one object.
        let _ = self.opened.writes();
        let locked = self
            .steps
            .lock_all::<Brand>(stm.words(), &self.opened, &mut self.locked);
        if let Err(again) = locked {
            self.left = Some(again);
        }
        locked
    }

    // Commits what is locked, and answers the number drawn.
    pub(crate) fn finish(&mut self, stm: &TlStm<L>) -> Result<u64, TlAgain>
        requires table { self.old.home ≡ stm.now }
        requires locked { HasLocked self.old }
        ensures stays { OnOk result (Stays L.holds (Finishing self.old.writes) self.old self.new) }
        ensures leaves { IfErr result (Leaves L.holds (Finishing self.old.writes) self.old self.new) }
        ensures number { IfOk result (Commits self.old self.new) }
        ensures kept { self.new ≡ record self.old { log = self.new.log; left = given_back result } }
        ensures told { IsMade self.new → IsTold self.new }
        ensures seen { Seen L.holds self.new }
    {
        // No two of its writes are of one object.
        let _ = self.opened.writes();
        let committed = self
            .steps
            .finish::<Brand>(stm.words(), &self.opened, &mut self.locked);
        if let Err(again) = committed {
            self.left = Some(again);
        }
        committed
    }

    // Both.
    pub(crate) fn commit(&mut self, stm: &TlStm<L>) -> Result<u64, TlAgain>
        requires table { self.old.home ≡ stm.now }
        requires live { IsTrue (is_live self.old) }
        requires rest { AtRest (state self.old) }
        requires lawful { IsLawful L.holds self.old }
        ensures stays { OnOk result (Stays L.holds (Committing self.old.writes) self.old self.new) }
        ensures leaves { IfErr result (Leaves L.holds (Committing self.old.writes) self.old self.new) }
        ensures number { IfOk result (Commits self.old self.new) }
        ensures kept { self.new ≡ record self.old { log = self.new.log; left = given_back result } }
        ensures told { IsMade self.new → IsTold self.new }
        ensures seen { Seen L.holds self.new }
    {
        self.lock(stm)?;
        self.finish(stm)
    }

    // Its seat.
    pub(crate) fn into_seat(self) -> Tl2Seat<L>
        ensures view { result.me.0 ≡ seat_view self }
        ensures slots { result.me.1 ≡ [] }
        ensures table { result.table_id ≡ self.home.table }
    {
        self.steps.seat.into_seat()
    }
}
