ghost use base.Fml.{GName};
ghost use Rattle.std.specs.Prelude.{List, Ok, Err, OnOk, MatchResult, cond, ◌≡◌, ◌≢◌, ◌<◌, ◌≤◌, ◌*◌, ℕ, true, false, [], None, Some, IfErr, IfOk, IsSome, IsTrue, is_some, not, nat_lt, ◌||◌, ◌&&◌, ◌+◌};
ghost use Rattle.dstm_core.specs.State.{first};
ghost use Rattle.dstm_core.specs.Words.{IsValid};
ghost use Rattle.dstm_engine.specs.Callers.{begun_log, entry, handed, held, is_live, is_opened, law_of, live_held, live_opened, new_value, seat_view, shape_of, state, written};
ghost use Rattle.dstm_mem.specs.Memory.{HoldsWithout, SetsOnly, with_set};
ghost use Rattle.dstm_model.specs.declared.value.Val.{Val};
ghost use Rattle.dstm_engine.specs.Attempts.{Admits, Commits, Sighted, done, draws, sights};
ghost use Rattle.dstm_engine.specs.Calls.{IsUnderWay, Performs, reading};
ghost use Rattle.dstm_engine.specs.Outcomes.{IsEnded};
ghost use Rattle.dstm_engine.specs.Enrolled.{enrolled_as};
ghost use Rattle.dstm_steps.specs.Counting.{tally_of};
ghost use Rattle.dstm_order.specs.Counts.{counts_of};
ghost use Rattle.dstm_order.specs.declared.again.Again.{Again as Cause};
ghost use Rattle.dstm_engine.specs.Opens.{Continues, IsOver, Opens, Stops};
ghost use Rattle.dstm_engine.specs.Transactions.{BeginsAnew, IsStaleOrKilled, Leaves, SpentFrom, Stays, given_back, is_ok, tx_place};
ghost use Rattle.dstm_order.specs.Tasks.Task.{Doing, Leaving};
ghost use Rattle.dstm_order.specs.Tasks.Work.{Committing, Reading, Rechecking, Releasing, Writing};
ghost use Rattle.dstm_words.specs.Seats.{Home, IsRunOf};

use crate::beginning::{begin_next, renew};
use crate::error::Spent;
use crate::opened::Opened;
use crate::opening::{read_object, write_object};
use crate::stm::Stm;
use dstm_core::{Kind, Shape, Status};
use dstm_managers::Decider;
use dstm_model::{Law, Val};
use dstm_order::Again;
use dstm_steps::{CallerSeat, Places, Steps, Tally};
use dstm_words::{CoreSeat, Terms};
use std::alloc::AllocError;
use std::marker::{Brand, Model};
use std::snapshot::Snapshot;

/// One that makes attempts on a table, one after the other.
#[derive(Drop)]
pub struct Caller<L: Law> {
    terms: Terms<L>,
    steps: Steps<L>,
    number: u32,
    begun: u32,
    fresh: bool,
    live: bool,
    last_number: Option<u64>,
    left: Option<Again>,
    began: Snapshot<Decider>,
    opened: Opened,
}

impl<L: Law> Model for Caller<L> {
    ghost use Rattle.std.specs.Prelude.{◌≡◌};
    ghost use Rattle.dstm_engine.specs.Callers.{Called};

    ghost Value = { Called L };

    ghost use Rattle.dstm_engine.specs.Mirror.{called, Tied};

    ghost view = { called };

    ghost invariant = { Tied L.holds };
}

impl<L: Law> Caller<L> {
    /// Makes the next attempt the first of a new transaction.
    pub fn next_transaction(&mut self)
        ensures { self.new ≡ record self.old { fresh = true } }
    {
        self.fresh = true;
    }

    /// What it counts since the Begin of its last attempt. A count stands at the greatest u64.
    pub fn tally(&self) -> Tally
        ensures { result ≡ tally_of (counts_of (shape_of self.now) self.now.log self.now.number) }
    {
        self.steps.seat.tally()
    }

    /// How many numbers it has drawn.
    pub fn draws(&self) -> u64
        ensures { result ≡ draws self.now }
    {
        self.steps.seat.draws()
    }

    /// The last attempt is live.
    pub fn is_live(&self) -> bool
        ensures { result ≡ is_live self.now }
    {
        self.live
    }

    /// Copies what the last attempt holds, each value with its object: those that it has read, and the old ones of the
    /// objects that it has opened for writing.
    pub fn copy_held(&self, values: &mut Vec<(u32, Val)>) -> Result<(), AllocError>
        requires live { IsTrue (is_live self.now) }
        ensures { OnOk result (values.new.items ≡ (entry self.now).reads) }
    {
        // A read of the caller, so that what its type keeps is known here.
        let _ = &self.live;
        self.opened.copy_held(values)
    }
}

impl<L: Law> Caller<L> {
    // A caller that has just drawn its number.
    pub(crate) fn enrolled(
        terms: Terms<L>,
        seat: CoreSeat<L>,
        number: u32,
        decider: Decider,
        opened: Opened,
    ) -> Caller<L>
        requires view { seat.me.0 ≡ seat_view (enrolled_as terms seat number decider) }
        requires slots { seat.me.1 ≡ [] }
        requires run { IsRunOf L.holds terms seat.me.0.log }
        requires number { number < terms.shape.callers }
        requires attempts { number * terms.shape.attempts < u32.MAX }
        requires state { state (enrolled_as terms seat number decider) ≡ record first { number = Some number } }
        requires undrawn { draws (enrolled_as terms seat number decider) ≡ 0 }
        requires manager { decider.manager ≡ terms.shape.manager }
        requires opened { opened ≡ record { objects = terms.shape.objects; reads = []; writes = [] } }
        ensures { result ≡ enrolled_as terms seat number decider }
    {
        let shape = terms.shape;
        let began = Snapshot::of(&decider);
        let steps = Steps {
            seat: CallerSeat::make(seat),
            shape: Places::of(shape),
            decider,
            own: number * shape.attempts,
            installed: 0,
            rank: 0,
            missed: 0,
            round: 0,
            left: 0,
        };
        Caller {
            terms,
            steps,
            number,
            begun: 0,
            fresh: true,
            live: false,
            last_number: None,
            left: None,
            began,
            opened,
        }
    }

    // Quits the attempt, if it is live.
    pub(crate) fn leave(&mut self, stm: &Stm<L>)
        requires table { self.old.home ≡ stm.now }
        ensures steps { Performs L.holds Leaving self.old self.new None }
        ensures kept { self.new ≡ record self.old { log = self.new.log } }
        ensures rest { is_live self.old ≡ false → self.new ≡ self.old }
        ensures dead { self.old.left ≢ None → self.new ≡ self.old }
    {
        if self.live {
            let active = Status::Active.code();
            let aborted = Status::Aborted.code();
            let status = self.steps.shape.status(self.steps.own);
            let _found = self
                .steps
                .seat
                .exchange(stm.words(), Kind::Quit, status, active, aborted);
            self.live = false;
        }
    }

    // Quits the attempt, if it is live.
    pub(crate) fn abandon(&mut self, stm: &Stm<L>)
        requires table { self.old.home ≡ stm.now }
        ensures steps { Performs L.holds Leaving self.old self.new None }
        ensures kept { self.new ≡ record self.old { log = self.new.log } }
        ensures dead { self.old.left ≢ None → self.new ≡ self.old }
        ensures attempt { begun_log self.new.number self.new.log ≡ begun_log self.old.number self.old.log }
        ensures done { done self.new ≡ done self.old }
        ensures ended { IsUnderWay self.old → IsEnded self.old }
    {
        // A read of the caller, so that what its type keeps is known here.
        let _ = &self.live;
        self.leave(stm);
    }

    // Begins an attempt, if one is left.
    pub(crate) fn begin_one(&mut self, stm: &Stm<L>) -> Result<(), Spent>
        requires table { self.old.home ≡ stm.now }
        ensures begins { IfOk result (λ _. BeginsAnew L.holds self.old self.new) }
        ensures spent { IfErr result (λ _. SpentFrom L.holds self.old self.new) }
    {
        renew(&mut self.steps);
        let shape = self.terms.shape;
        let spent = is_spent(shape, self.begun, self.steps.installed);
        let next = self.number * shape.attempts + self.begun;
        let began = Snapshot::of(&self.steps.decider);
        begin_next::<L, Brand>(
            &mut self.steps,
            stm.words(),
            self.fresh,
            self.live,
            spent,
            next,
        );
        self.live = !spent;
        if spent {
            return Err(Spent);
        }
        self.begun += 1;
        self.fresh = false;
        self.last_number = None;
        self.left = None;
        self.began = began;
        self.opened.clear();
        Ok(())
    }

    // Opens an object for reading: answers the value last set, or else the one that is held.
    #[inline(always)]
    pub(crate) fn open_read(&mut self, stm: &Stm<L>, o: u32) -> Result<Val, Again>
        requires table { self.old.home ≡ stm.now }
        requires exists { o < (shape_of self.old).objects }
        requires live { IsTrue (is_live self.old) }
        ensures again { IsSome (held self.old o) → self.new ≡ self.old }
        ensures answered { IsSome (held self.old o) → IsTrue (is_ok result) }
        ensures stays { held self.old o ≡ None → OnOk result
            (Stays L.holds (reading (shape_of self.old) o) self.old self.new) }
        ensures leaves { IfErr result (Leaves L.holds (reading (shape_of self.old) o) self.old self.new) }
        ensures kept { self.new ≡ record self.old {
          log = self.new.log;
          generator = self.new.generator;
          left = given_back result;
        } }
        ensures continues { OnOk result (Continues L.holds o self.old self.new) }
        ensures over { IfErr result (λ _. IsOver L.holds self.old self.new) }
        ensures value { IfOk result (λ v. Some v ≡ handed self.new o) }
        ensures unmarked { OnOk result ((shape_of self.old).all_write ≡ false →
            (p : ℕ) → is_opened self.new p ≡ is_opened self.old p) }
    {
        if let Some(value) = self.opened.value(o) {
            return Ok(value);
        }
        self.read_out(stm, o)
    }

    // Opens an object for reading and writing, with the same answer.
    #[inline(always)]
    pub(crate) fn open_write(&mut self, stm: &Stm<L>, o: u32) -> Result<Val, Again>
        requires table { self.old.home ≡ stm.now }
        requires exists { o < (shape_of self.old).objects }
        requires live { IsTrue (is_live self.old) }
        ensures again { IsTrue (is_opened self.old o) → self.new ≡ self.old }
        ensures answered { IsTrue (is_opened self.old o) → IsTrue (is_ok result) }
        ensures stays { is_opened self.old o ≡ false → OnOk result (Stays L.holds (Writing o) self.old self.new) }
        ensures leaves { IfErr result (Leaves L.holds (Writing o) self.old self.new) }
        ensures kept { self.new ≡ record self.old {
          log = self.new.log;
          generator = self.new.generator;
          left = given_back result;
        } }
        ensures continues { OnOk result (Continues L.holds o self.old self.new) }
        ensures over { IfErr result (λ _. IsOver L.holds self.old self.new) }
        ensures value { IfOk result (λ v. Some v ≡ handed self.new o) }
        ensures opens { OnOk result (IsTrue (is_opened self.new o)) }
    {
        if let Some(slot) = self.opened.write(o) {
            return Ok(slot.to_put());
        }
        self.write_out(stm, o)
    }

    // The cause for which the last attempt was left.
    fn cause(&self) -> Again
        requires left { IsSome self.now.left }
        ensures { self.now.left ≡ Some result }
    {
        match self.left {
            Some(again) => again,
            None => unreachable!(),
        }
    }

    // Opens an object for reading that is not held. Where that fails, the cause is kept with the caller, and what is
    // answered counts for nothing: a way back that has a value alone costs less than one with a cause in it.
    #[inline(never)]
    fn read_kept(&mut self, stm: &Stm<L>, o: u32) -> Val
        requires table { self.old.home ≡ stm.now }
        requires exists { o < (shape_of self.old).objects }
        requires live { IsTrue (is_live self.old) }
        requires unheld { held self.old o ≡ None }
        requires reads { (shape_of self.old).all_write ≡ false }
        ensures opens { IsTrue (is_live self.new) → Opens L.holds (Reading o) o self.old self.new result }
        ensures unmarked { IsTrue (is_live self.new) → (p : ℕ) → is_opened self.new p ≡ is_opened self.old p }
        ensures stops { is_live self.new ≡ false → (again : Cause) × Stops L.holds (Reading o) self.old self.new again }
    {
        renew(&mut self.steps);
        match read_object::<L, Brand>(
            &mut self.steps,
            stm.words(),
            &mut self.last_number,
            &mut self.opened,
            stm,
            o,
        ) {
            Ok(value) => value,
            Err(again) => {
                self.live = false;
                self.left = Some(again);
                Val { low: 0, high: 0 }
            }
        }
    }

    // Opens an object for writing that is not open for it. Where that fails, the cause is kept.
    #[inline(never)]
    fn write_kept(&mut self, stm: &Stm<L>, o: u32) -> Val
        requires table { self.old.home ≡ stm.now }
        requires exists { o < (shape_of self.old).objects }
        requires live { IsTrue (is_live self.old) }
        requires unopened { is_opened self.old o ≡ false }
        ensures opens { IsTrue (is_live self.new) → Opens L.holds (Writing o) o self.old self.new result }
        ensures marked { IsTrue (is_live self.new) → IsTrue (is_opened self.new o) }
        ensures stops { is_live self.new ≡ false → (again : Cause) × Stops L.holds (Writing o) self.old self.new again }
    {
        renew(&mut self.steps);
        let next = self.number * self.terms.shape.locators + self.steps.installed;
        match write_object::<L, Brand>(
            &mut self.steps,
            stm.words(),
            &mut self.last_number,
            &mut self.opened,
            stm,
            o,
            next,
        ) {
            Ok(old) => old,
            Err(again) => {
                self.live = false;
                self.left = Some(again);
                Val { low: 0, high: 0 }
            }
        }
    }

    // Opens an object that is not held as an open for reading does: for writing where all objects are opened so. Where
    // that fails, the cause is kept.
    #[inline(always)]
    fn first_kept(&mut self, stm: &Stm<L>, o: u32) -> Val
        requires table { self.old.home ≡ stm.now }
        requires exists { o < (shape_of self.old).objects }
        requires live { IsTrue (is_live self.old) }
        requires unheld { held self.old o ≡ None }
        requires unopened { is_opened self.old o ≡ false }
        ensures opens { IsTrue (is_live self.new) →
            Opens L.holds (reading (shape_of self.old) o) o self.old self.new result }
        ensures unmarked { IsTrue (is_live self.new) → (shape_of self.old).all_write ≡ false →
            (p : ℕ) → is_opened self.new p ≡ is_opened self.old p }
        ensures stops { is_live self.new ≡ false →
            (again : Cause) × Stops L.holds (reading (shape_of self.old) o) self.old self.new again }
    {
        if self.terms.shape.all_write {
            self.write_kept(stm, o)
        } else {
            self.read_kept(stm, o)
        }
    }

    // The same, and it answers the cause.
    #[inline(always)]
    fn read_out(&mut self, stm: &Stm<L>, o: u32) -> Result<Val, Again>
        requires table { self.old.home ≡ stm.now }
        requires exists { o < (shape_of self.old).objects }
        requires live { IsTrue (is_live self.old) }
        requires unheld { held self.old o ≡ None }
        requires unopened { is_opened self.old o ≡ false }
        ensures opens { IfOk result (Opens L.holds (reading (shape_of self.old) o) o self.old self.new) }
        ensures unmarked { OnOk result ((shape_of self.old).all_write ≡ false →
            (p : ℕ) → is_opened self.new p ≡ is_opened self.old p) }
        ensures stops { IfErr result (Stops L.holds (reading (shape_of self.old) o) self.old self.new) }
    {
        let value = self.first_kept(stm, o);
        if self.is_live() {
            Ok(value)
        } else {
            Err(self.cause())
        }
    }

    // Opens an object for writing that is not open for it, and answers the cause.
    #[inline(always)]
    fn write_out(&mut self, stm: &Stm<L>, o: u32) -> Result<Val, Again>
        requires table { self.old.home ≡ stm.now }
        requires exists { o < (shape_of self.old).objects }
        requires live { IsTrue (is_live self.old) }
        requires unopened { is_opened self.old o ≡ false }
        ensures opens { IfOk result (Opens L.holds (Writing o) o self.old self.new) }
        ensures marked { OnOk result (IsTrue (is_opened self.new o)) }
        ensures stops { IfErr result (Stops L.holds (Writing o) self.old self.new) }
    {
        let value = self.write_kept(stm, o);
        if self.is_live() {
            Ok(value)
        } else {
            Err(self.cause())
        }
    }

    // The attempt is live, and the object is among the reads and was not opened for writing.
    pub(crate) fn is_read(&self, o: u32) -> bool
        requires exists { o < (shape_of self.now).objects }
        ensures { result ≡ (is_some (live_held self.now o) && not (live_opened self.now o)) }
    {
        if !self.live {
            return false;
        }
        self.opened.read(o).is_some() && self.opened.write(o).is_none()
    }

    // Sets the value of an object that is open for writing.
    pub(crate) fn set(&mut self, o: u32, v: Val)
        requires exists { o < (shape_of self.old).objects }
        requires live { IsTrue (is_live self.old) }
        requires opened { IsTrue (is_opened self.old o) }
        ensures written { SetsOnly o v (written self.old) (written self.new) }
        ensures kept { self.new ≡ record self.old { set = self.new.set } }
    {
        self.opened.set(o, v);
    }

    // Makes one pass over the reads.
    pub(crate) fn recheck(&mut self, stm: &Stm<L>) -> Result<(), Again>
        requires table { self.old.home ≡ stm.now }
        requires live { IsTrue (is_live self.old) }
        ensures stays { OnOk result (Stays L.holds Rechecking self.old self.new) }
        ensures leaves { IfErr result (Leaves L.holds Rechecking self.old self.new) }
        ensures cause { IfErr result IsStaleOrKilled }
        ensures kept { self.new ≡ record self.old { log = self.new.log; left = given_back result } }
        ensures sight { OnOk result (Sighted self.new) }
        ensures sights { OnOk result (sights self.new ≡ sights self.old + 1) }
        ensures held { (p : ℕ) → held self.new p ≡ held self.old p }
        ensures opened { (p : ℕ) → is_opened self.new p ≡ is_opened self.old p }
        ensures live { is_live self.new ≡ is_ok result }
        ensures place { (name : GName) (table : Home L) →
            tx_place name table self.new ≡ tx_place name table self.old }
    {
        renew(&mut self.steps);
        let passed = self
            .steps
            .recheck::<Brand>(stm.words(), &mut self.last_number, self.opened.reads());
        if let Err(again) = passed {
            self.live = false;
            self.left = Some(again);
        }
        passed
    }

    // Lets a read go.
    pub(crate) fn release(&mut self, stm: &Stm<L>, o: u32)
        requires table { self.old.home ≡ stm.now }
        requires exists { o < (shape_of self.old).objects }
        requires live { IsTrue (is_live self.old) }
        requires read { IsTrue (is_some (held self.old o) && not (is_opened self.old o)) }
        ensures steps { Performs L.holds (Doing (Releasing o)) self.old self.new None }
        ensures kept { self.new ≡ record self.old { log = self.new.log } }
        ensures held { HoldsWithout o (held self.old) (held self.new) }
        ensures opened { (p : ℕ) → is_opened self.new p ≡ is_opened self.old p }
        ensures live { IsTrue (is_live self.new) }
        ensures place { (name : GName) (table : Home L) →
            tx_place name table self.new ≡ tx_place name table self.old }
        ensures widens { (map : List Val) → Admits L.holds self.old map → Admits L.holds self.new map }
    {
        renew(&mut self.steps);
        self.steps.release::<Brand>(stm.words(), o);
        self.opened.drop_read(o);
    }

    // Commits the attempt, and answers the number that it drew.
    pub(crate) fn commit(&mut self, stm: &Stm<L>) -> Result<u64, Again>
        requires table { self.old.home ≡ stm.now }
        requires live { IsTrue (is_live self.old) }
        requires lawful { (map : List Val) → Admits L.holds self.old map →
            L.holds (law_of self.old) (with_set map (written self.old)) }
        ensures stays { OnOk result (Stays L.holds (Committing (new_value self.old)) self.old self.new) }
        ensures leaves { IfErr result (Leaves L.holds (Committing (new_value self.old)) self.old self.new) }
        ensures number { IfOk result (λ number. Commits self.old self.new number) }
        ensures kept { self.new ≡ record self.old {
          log = self.new.log;
          left = given_back result;
          fresh = cond (is_ok result) true self.old.fresh;
        } }
        ensures attempt { begun_log self.new.number self.new.log ≡ begun_log self.old.number self.old.log }
        ensures done { IfErr result (λ _. done self.new ≡ done self.old) }
        ensures ended { IsEnded self.new }
    {
        renew(&mut self.steps);
        let writes = self.opened.writes();
        let first = self.number * self.terms.shape.locators
            + (self.steps.installed - writes.len() as u32);
        let committed = self.steps.commit::<Brand>(
            stm.words(),
            self.last_number,
            self.opened.reads(),
            first,
            writes,
        );
        self.live = false;
        match committed {
            Ok(_) => self.fresh = true,
            Err(again) => self.left = Some(again),
        }
        committed
    }

    // Its seat.
    pub(crate) fn into_seat(self) -> CoreSeat<L>
        ensures view { result.me.0 ≡ seat_view self }
        ensures slots { result.me.1 ≡ [] }
        ensures table { result.table_id ≡ self.home.table }
    {
        self.steps.seat.into_seat()
    }
}

// Whether a caller has no attempt left, or too few locators.
fn is_spent(shape: Shape, begun: u32, installed: u32) -> bool
    requires { installed ≤ shape.locators }
    ensures { result ≡ (not (nat_lt begun shape.attempts) || nat_lt shape.locators (installed + shape.objects)) }
{
    begun >= shape.attempts || shape.locators - installed < shape.objects
}
