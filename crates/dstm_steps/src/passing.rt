// A pass: the checks of all reads.
ghost use Rattle.std.specs.Prelude.{◌≡◌, ◌≢◌, ◌⊎◌, ℕ, ◌<◌, ◌+◌, ◌*◌, length, is_some, true, false, None, Some, IfNone, IfSome, OnOk, IfErr};
ghost use Rattle.dstm_words.specs.Seats.{view_of};
ghost use Rattle.dstm_core.specs.Traces.{IsPastOf};
ghost use Rattle.dstm_core.specs.Rules.{after};
ghost use Rattle.dstm_core.specs.declared.event.Kind.TheVariants.{LookNumber, Check, LookSelf, Quit};
ghost use Rattle.dstm_core.specs.declared.state.Phase.TheVariants.{Running, Outside};
ghost use Rattle.dstm_core.specs.State.{next_read, given, record_resolved};
ghost use Rattle.dstm_core.specs.Words.{code_of};
ghost use Rattle.dstm_machines.specs.Traces.Access.{Load};
ghost use Rattle.dstm_core.specs.Words.{place};
ghost use Rattle.dstm_core.specs.Words.Word.{NumbersWord};
ghost use Rattle.dstm_order.specs.Order.{just, in_pass, when_passed, is_same};
ghost use Rattle.dstm_order.specs.Calls.{quit_cause};
ghost use Rattle.dstm_order.specs.Order.Due.{Done};
ghost use Rattle.dstm_order.specs.declared.again.Again.TheVariants.{Killed, Stale};
ghost use Rattle.dstm_steps.specs.Reads.{kept, words_of};
ghost use Rattle.dstm_order.specs.declared.TheConstants.{MAX_MISSED};
ghost use Rattle.dstm_steps.specs.Under.{Passed, work_of, now, effort_by, made_by, Under, IsRunning, passed};

use crate::slots::ReadSlot;
use crate::steps::{InCall, Steps};
use dstm_core::{Kind, Status};
use dstm_model::Law;
use dstm_order::Again;
use dstm_words::Words;

impl<L: Law> Steps<L> {
    /// Begins a pass.
    pub(crate) fn look_number<B: InCall>(&mut self, words: &Words<L>) -> u64
        requires under { Under L.holds words.now B.began self.old (just LookNumber) None }
        requires running { IsRunning (now words.now self.old) }
        requires tries { self.old.missed < MAX_MISSED }
        ensures state { now words.now self.new
            ≡ after LookNumber words.now.terms.shape (now words.now self.old)
            (made_by B.began Load LookNumber (place words.now.terms.shape NumbersWord) result) }
        ensures under { Under L.holds words.now B.began self.new (in_pass (now words.now self.new)) None }
        ensures tries { self.new.missed < MAX_MISSED }
        ensures past { IsPastOf (view_of self.old.seat).log (view_of self.new.seat).log }
    {
        let place = self.shape.numbers_place();
        self.load::<B>(words, Kind::LookNumber, place)
    }

    /// Checks the next read, of this object and word. It tells whether the object still has that word.
    pub(crate) fn check_next<B: InCall>(&mut self, words: &Words<L>, object: u32, word: u64) -> bool
        requires under { Under L.holds words.now B.began self.old (just Check) None }
        requires running { IsRunning (now words.now self.old) }
        requires pass { is_some (now words.now self.old).pass ≡ true }
        requires left { (now words.now self.old).checked < length (now words.now self.old).reads }
        requires read { ((next_read (now words.now self.old)).object ≡ object)
            × ((next_read (now words.now self.old)).word ≡ word) }
        requires tries { self.old.missed < MAX_MISSED }
        ensures state { result ≡ true → now words.now self.new
            ≡ record (now words.now self.old) { checked = (now words.now self.old).checked + 1 } }
        ensures good { result ≡ true → Under L.holds words.now B.began self.new (in_pass (now words.now self.new))
            None }
        ensures stale { result ≡ false → ((now words.now self.new).stale ≡ true)
            × Under L.holds words.now B.began self.new (just Quit) None
            × (quit_cause (now words.now self.new) (effort_by self.new) ≡ Stale object)
            × ((now words.now self.new).phase ≡ Running) × ((now words.now self.new).committed ≡ false) }
        ensures tries { self.new.missed < MAX_MISSED }
        ensures past { IsPastOf (view_of self.old.seat).log (view_of self.new.seat).log }
    {
        let place = self.shape.object(object);
        let found = self.load::<B>(words, Kind::Check, place);
        found == word
    }

    /// Completes a pass. It tells whether the attempt goes on.
    pub(crate) fn look_self<B: InCall>(&mut self, words: &Words<L>) -> bool
        requires under { Under L.holds words.now B.began self.old (just LookSelf) None }
        requires running { IsRunning (now words.now self.old) }
        requires pass { is_some (now words.now self.old).pass ≡ true }
        requires done { ((now words.now self.old).checked ≡ length (now words.now self.old).reads)
            ⊎ ((now words.now self.old).last_pass ≡ (now words.now self.old).pass) }
        requires tries { self.old.missed < MAX_MISSED }
        ensures state { result ≡ true → now words.now self.new
            ≡ record (now words.now self.old) {
              last_pass = (now words.now self.old).pass;
              pass = None;
              checked =
                  0;
            } }
        ensures good { result ≡ true → Passed L.holds words.now B.began self.new }
        ensures killed { result ≡ false → ((now words.now self.new).phase ≡ Outside)
            × Under L.holds words.now B.began self.new Done (Some Killed) }
        ensures tries { self.new.missed < MAX_MISSED }
        ensures past { IsPastOf (view_of self.old.seat).log (view_of self.new.seat).log }
    {
        let place = self.shape.status(self.own);
        let found = self.load::<B>(words, Kind::LookSelf, place);
        found == Status::Active.code()
    }

    /// Quits the attempt, which was given this status last.
    pub(crate) fn quit<B: InCall>(&mut self, words: &Words<L>, status: Status)
        requires under { Under L.holds words.now B.began self.old (just Quit) None }
        requires live { (now words.now self.old).phase ≢ Outside }
        requires status { code_of status ≡ given (now words.now self.old).phase }
        requires uncommitted { (now words.now self.old).committed ≡ false }
        ensures left { (now words.now self.new).phase ≡ Outside }
        ensures under { Under L.holds words.now B.began self.new Done
            (Some (quit_cause (now words.now self.old) (effort_by self.old))) }
    {
        let place = self.shape.status(self.own);
        let _ = self.exchange::<B>(
            words,
            Kind::Quit,
            place,
            status.code(),
            Status::Aborted.code(),
        );
    }

    /// The checks of a pass that has begun, where they are not to be skipped: the first read that is stale.
    #[inline(always)]
    pub(crate) fn check_all<B: InCall>(
        &mut self,
        words: &Words<L>,
        skip: bool,
        reads: &[ReadSlot],
    ) -> Option<u32>
        requires under { Under L.holds words.now B.began self.old (in_pass (now words.now self.old)) None }
        requires running { IsRunning (now words.now self.old) }
        requires pass { is_some (now words.now self.old).pass ≡ true }
        requires skip { is_same (now words.now self.old).last_pass (now words.now self.old).pass ≡ skip }
        requires fresh { (now words.now self.old).checked ≡ 0 }
        requires slots { kept reads.now ≡ words_of (now words.now self.old).reads }
        requires tries { self.old.missed < MAX_MISSED }
        ensures state { IfNone result (now words.now self.new
            ≡ record (now words.now self.old) { checked = (now words.now self.new).checked }) }
        ensures all { IfNone result (Under L.holds words.now B.began self.new (just LookSelf) None) }
        ensures done { IfNone result (((now words.now self.new).checked ≡ length (now words.now self.new).reads)
            ⊎ ((now words.now self.new).last_pass ≡ (now words.now self.new).pass)) }
        ensures stale { IfSome result (λ object. Under L.holds words.now B.began self.new (just Quit) None
            × (quit_cause (now words.now self.new) (effort_by self.new) ≡ Stale object)) }
        ensures live { IfSome result (λ object. ((now words.now self.new).phase ≡ Running)
            × ((now words.now self.new).committed ≡ false)) }
        ensures tries { self.new.missed < MAX_MISSED }
        ensures past { IfNone result (IsPastOf (view_of self.old.seat).log (view_of self.new.seat).log) }
    {
        if skip {
            return None;
        }
        for read in reads {
            if read.kept && !self.check_next::<B>(words, read.object, read.word) {
                return Some(read.object);
            }
        }
        None
    }

    /// A pass over the reads. `last` is the number with which the last complete pass of this attempt began.
    #[inline(always)]
    pub(crate) fn pass<B: InCall>(
        &mut self,
        words: &Words<L>,
        last: &mut Option<u64>,
        reads: &[ReadSlot],
    ) -> Result<(), Again>
        requires under { Under L.holds words.now B.began self.old (just LookNumber) None }
        requires running { IsRunning (now words.now self.old) }
        requires tries { self.old.missed < MAX_MISSED }
        requires last { last.old ≡ (now words.now self.old).last_pass }
        requires slots { kept reads.now ≡ words_of
            (record_resolved (now words.now self.old).resolution (now words.now self.old).reads) }
        ensures state { OnOk result ((number : ℕ) × (now words.now self.new ≡ passed number (now words.now self.old))
            × (last.new ≡ Some number)) }
        ensures goes_on { OnOk result (Passed L.holds words.now B.began self.new) }
        ensures tries { OnOk result (self.new.missed < MAX_MISSED) }
        ensures ends { IfErr result (λ again. Under L.holds words.now B.began self.new Done (Some again)) }
        ensures past { OnOk result (IsPastOf (view_of self.old.seat).log (view_of self.new.seat).log) }
    {
        // The number is looked at first: an object that has its word at a later check had it then, too, since no locator
        // is put twice, so all reads stood together at this look. The own status is looked at last: who is live then
        // has all that it opened for writing, since another one takes an object from it only once it is aborted.
        let number = self.look_number::<B>(words);
        let skip = *last == Some(number);
        if let Some(object) = self.check_all::<B>(words, skip, reads) {
            self.quit::<B>(words, Status::Active);
            return Err(Again::Stale(object));
        }
        if !self.look_self::<B>(words) {
            return Err(Again::Killed);
        }
        *last = Some(number);
        Ok(())
    }
}
