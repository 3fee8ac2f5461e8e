// The end of an attempt that commits.
ghost use Rattle.std.specs.Prelude.{◌≡◌, ◌≢◌, ◌⊎◌, ℕ, ◌<◌, length, true, false, [], ◌+◌, is_some, ◌-◌, ◌*◌, None, Some, IfNone, IfSome, All, OnOk, IfOk, IfErr};
ghost use Rattle.dstm_core.specs.declared.event.Kind.TheVariants.{Validating as ToValidating, Draw, Commit, Check, Quit};
ghost use Rattle.dstm_core.specs.declared.state.Phase.TheVariants.{Running, Putting, Validating, Drawn};
ghost use Rattle.dstm_order.specs.Order.{just, in_checking, in_putting, is_same};
ghost use Rattle.dstm_order.specs.Tasks.Work.{Committing};
ghost use Rattle.dstm_steps.specs.Writes.{IsReady, to_put, value_in, AreWrites, IsLawful};
ghost use Rattle.dstm_order.specs.Calls.{quit_cause};
ghost use Rattle.dstm_core.specs.State.{next_read};
ghost use Rattle.dstm_steps.specs.Reads.{kept, words_of};
ghost use Rattle.dstm_order.specs.Order.Due.{Done};
ghost use Rattle.dstm_order.specs.declared.again.Again.TheVariants.{Killed, Stale};
ghost use Rattle.dstm_order.specs.declared.TheConstants.{MAX_MISSED};
ghost use Rattle.dstm_steps.specs.Under.{work_of, now, effort_by, Under, IsRunning};

use crate::slots::{ReadSlot, WriteSlot};
use crate::steps::{InCall, Steps};
use dstm_core::{Kind, Status};
use dstm_model::Law;
use dstm_order::Again;
use dstm_words::Words;

impl<L: Law> Steps<L> {
    /// Begins the last validation. It tells whether the attempt goes on.
    pub(crate) fn validate<B: InCall>(&mut self, words: &Words<L>) -> bool
        requires under { Under L.holds words.now B.began self.old (just ToValidating) None }
        requires ready { IsReady (now words.now self.old) }
        requires agreed { ((now words.now self.old).stale ≡ false) × ((now words.now self.old).committed ≡ false) }
        requires tries { self.old.missed < MAX_MISSED }
        ensures state { result ≡ true → now words.now self.new
            ≡ record (now words.now self.old) { phase = Validating } }
        ensures good { result ≡ true → Under L.holds words.now B.began self.new (just Draw) None }
        ensures killed { result ≡ false → Under L.holds words.now B.began self.new Done (Some Killed) }
        ensures tries { self.new.missed < MAX_MISSED }
    {
        let status = self.shape.status(self.own);
        match self.exchange::<B>(
            words,
            Kind::Validating,
            status,
            Status::Active.code(),
            Status::Validating.code(),
        ) {
            Ok(_) => true,
            Err(_) => false,
        }
    }

    /// Draws the number that places the attempt in the history.
    pub(crate) fn draw<B: InCall>(&mut self, words: &Words<L>) -> u64
        requires under { Under L.holds words.now B.began self.old (just Draw) None }
        requires phase { (now words.now self.old).phase ≡ Validating }
        requires agreed { ((now words.now self.old).stale ≡ false) × ((now words.now self.old).committed ≡ false) }
        requires tries { self.old.missed < MAX_MISSED }
        ensures state { now words.now self.new
            ≡ record (now words.now self.old) { phase = Drawn; drawn = Some result; checked = 0 } }
        ensures good { Under L.holds words.now B.began self.new (in_checking (now words.now self.new)) None }
        ensures tries { self.new.missed < MAX_MISSED }
    {
        let place = self.shape.numbers_place();
        self.add::<B>(words, Kind::Draw, place)
    }

    /// Commits the attempt. It tells whether it took effect.
    pub(crate) fn finish<B: InCall>(&mut self, words: &Words<L>) -> bool
        requires under { Under L.holds words.now B.began self.old (just Commit) None }
        requires phase { (now words.now self.old).phase ≡ Drawn }
        requires checked { ((now words.now self.old).checked ≡ length (now words.now self.old).reads)
            ⊎ ((now words.now self.old).last_pass ≡ (now words.now self.old).drawn) }
        requires agreed { ((now words.now self.old).stale ≡ false) × ((now words.now self.old).committed ≡ false) }
        requires tries { self.old.missed < MAX_MISSED }
        ensures good { result ≡ true → ((now words.now self.new).committed ≡ true)
            × Under L.holds words.now B.began self.new Done None }
        ensures killed { result ≡ false → Under L.holds words.now B.began self.new Done (Some Killed) }
        ensures drawn { (now words.now self.new).drawn ≡ (now words.now self.old).drawn }
    {
        let status = self.shape.status(self.own);
        self.exchange::<B>(
            words,
            Kind::Commit,
            status,
            Status::Validating.code(),
            Status::Committed.code(),
        )
        .is_ok()
    }

    /// Checks the next read, of this object and word, after the Draw. It tells whether the object still has that word.
    pub(crate) fn check_drawn<B: InCall>(
        &mut self,
        words: &Words<L>,
        object: u32,
        word: u64,
    ) -> bool
        requires under { Under L.holds words.now B.began self.old (just Check) None }
        requires phase { (now words.now self.old).phase ≡ Drawn }
        requires drawn { is_some (now words.now self.old).drawn ≡ true }
        requires agreed { ((now words.now self.old).stale ≡ false) × ((now words.now self.old).committed ≡ false) }
        requires left { (now words.now self.old).checked < length (now words.now self.old).reads }
        requires read { ((next_read (now words.now self.old)).object ≡ object)
            × ((next_read (now words.now self.old)).word ≡ word) }
        requires tries { self.old.missed < MAX_MISSED }
        ensures state { result ≡ true → now words.now self.new
            ≡ record (now words.now self.old) { checked = (now words.now self.old).checked + 1 } }
        ensures good { result ≡ true → Under L.holds words.now B.began self.new
            (in_checking (now words.now self.new)) None }
        ensures stale { result ≡ false → ((now words.now self.new).stale ≡ true)
            × Under L.holds words.now B.began self.new (just Quit) None
            × (quit_cause (now words.now self.new) (effort_by self.new) ≡ Stale object)
            × ((now words.now self.new).phase ≡ Drawn) × ((now words.now self.new).committed ≡ false) }
        ensures tries { self.new.missed < MAX_MISSED }
    {
        let place = self.shape.object(object);
        let found = self.load::<B>(words, Kind::Check, place);
        found == word
    }

    /// The checks after the Draw, where they are not to be skipped: the first read that is stale.
    pub(crate) fn check_rest<B: InCall>(
        &mut self,
        words: &Words<L>,
        skip: bool,
        reads: &[ReadSlot],
    ) -> Option<u32>
        requires under { Under L.holds words.now B.began self.old (in_checking (now words.now self.old)) None }
        requires phase { (now words.now self.old).phase ≡ Drawn }
        requires drawn { is_some (now words.now self.old).drawn ≡ true }
        requires agreed { ((now words.now self.old).stale ≡ false) × ((now words.now self.old).committed ≡ false) }
        requires skip { is_same (now words.now self.old).last_pass (now words.now self.old).drawn ≡ skip }
        requires fresh { (now words.now self.old).checked ≡ 0 }
        requires slots { kept reads.now ≡ words_of (now words.now self.old).reads }
        requires tries { self.old.missed < MAX_MISSED }
        ensures state { IfNone result (now words.now self.new
            ≡ record (now words.now self.old) { checked = (now words.now self.new).checked }) }
        ensures all { IfNone result (Under L.holds words.now B.began self.new (just Commit) None) }
        ensures done { IfNone result (((now words.now self.new).checked ≡ length (now words.now self.new).reads)
            ⊎ ((now words.now self.new).last_pass ≡ (now words.now self.new).drawn)) }
        ensures stale { IfSome result (λ object. Under L.holds words.now B.began self.new (just Quit) None
            × (quit_cause (now words.now self.new) (effort_by self.new) ≡ Stale object)) }
        ensures live { IfSome result (λ object. ((now words.now self.new).phase ≡ Drawn)
            × ((now words.now self.new).committed ≡ false)) }
        ensures tries { self.new.missed < MAX_MISSED }
    {
        if skip {
            return None;
        }
        for read in reads {
            if read.kept && !self.check_drawn::<B>(words, read.object, read.word) {
                return Some(read.object);
            }
        }
        None
    }

    /// Commits the attempt: the number that places it in the history. `last` is the number with which its last
    /// complete pass began, and `first` the locator of its first new value.
    pub fn commit<B: InCall>(
        &mut self,
        words: &Words<L>,
        last: Option<u64>,
        reads: &[ReadSlot],
        first: u32,
        writes: &[WriteSlot],
    ) -> Result<u64, Again>
        requires under { Under L.holds words.now B.began self.old
            (in_putting (value_in (work_of B.began.task)) (now words.now self.old)) None }
        requires work { (work_of B.began.task) ≡ Committing (value_in (work_of B.began.task)) }
        requires running { IsRunning (now words.now self.old) }
        requires none { ((now words.now self.old).written ≡ 0) × ((now words.now self.old).high_put ≡ false) }
        requires first { first ≡ B.began.number * words.now.terms.shape.locators +
            ((now words.now self.old).installed - length (now words.now self.old).writes) }
        requires reads { kept reads.now ≡ words_of (now words.now self.old).reads }
        requires writes { AreWrites writes.now (now words.now self.old).writes }
        requires values { All (λ slot. value_in (work_of B.began.task) slot.object ≡ to_put slot) writes.now }
        requires lawful { IsLawful L.holds words.now self.old B.began.number writes.now }
        requires last { last ≡ (now words.now self.old).last_pass }
        requires tries { self.old.missed < MAX_MISSED }
        ensures commits { OnOk result (((now words.now self.new).committed ≡ true)
            × Under L.holds words.now B.began self.new Done None) }
        ensures number { IfOk result (λ number. (now words.now self.new).drawn ≡ Some number) }
        ensures ends { IfErr result (λ again. Under L.holds words.now B.began self.new Done (Some again)) }
    {
        self.put_values::<B>(words, first, writes);
        if !self.validate::<B>(words) {
            return Err(Again::Killed);
        }
        let number = self.draw::<B>(words);
        // Who drew between the last pass and this Draw comes before it in the history, so what it has read is checked
        // once more; where nobody did, that pass has told it already.
        let skip = last == Some(number);
        if let Some(object) = self.check_rest::<B>(words, skip, reads) {
            self.quit::<B>(words, Status::Validating);
            return Err(Again::Stale(object));
        }
        if !self.finish::<B>(words) {
            return Err(Again::Killed);
        }
        Ok(number)
    }
}
