// The opens of objects, but for the lists of what is open.
ghost use Rattle.std.specs.Prelude.{◌≡◌, ◌≢◌, ℕ, ◌+◌, ◌<◌, ◌≤◌, ◌==◌, ◌||◌, not, length, is_some, true, None, Some, IsNone, IfOk, IfSome, IfErr, OnOk};
ghost use Rattle.dstm_words.specs.Seats.{view_of};
ghost use Rattle.dstm_core.specs.Traces.{IsPastOf};
ghost use Rattle.dstm_core.specs.declared.event.Kind.TheVariants.{LookObj, LookNumber, Release};
ghost use Rattle.dstm_core.specs.State.{drop_read, next_locator, read_of, record_resolved, write_of};
ghost use Rattle.dstm_order.specs.declared.TheConstants.{MAX_MISSED};
ghost use Rattle.dstm_order.specs.Order.{just, rises};
ghost use Rattle.dstm_order.specs.Order.Due.{Step, Done};
ghost use Rattle.dstm_order.specs.Passes.{is_open};
ghost use Rattle.dstm_order.specs.Tasks.Work.{Rechecking, Writing};
ghost use Rattle.dstm_steps.specs.Finding.{word_of};
ghost use Rattle.dstm_steps.specs.FoundValues.{HasValue};
ghost use Rattle.dstm_steps.specs.Opening.{Acquired, HeldApart, risen};
ghost use Rattle.dstm_steps.specs.Reads.{kept, words_of};
ghost use Rattle.dstm_steps.specs.Under.{IsRunning, Under, now, passed, work_of};

use crate::resolving::Found;
use crate::slots::ReadSlot;
use crate::steps::{InCall, Steps};
use dstm_core::{Kind, Manager, Status};
use dstm_model::Law;
use dstm_order::{Again, MAX_MISSED};
use dstm_words::Words;

impl<L: Law> Steps<L> {
    /// Ends an open, once its object is resolved or installed: a pass over the reads, with that of the object, and
    /// where ranks rise a Rank. `last` is the number with which the last complete pass of this attempt began.
    #[inline(always)]
    pub fn conclude<B: InCall>(
        &mut self,
        words: &Words<L>,
        last: &mut Option<u64>,
        reads: &[ReadSlot],
    ) -> Result<(), Again>
        requires under { Under L.holds words.now B.began self.old (just LookNumber) None }
        requires open { is_open (work_of B.began.task) ≡ true }
        requires running { IsRunning (now words.now self.old) }
        requires tries { self.old.missed < MAX_MISSED }
        requires last { last.old ≡ (now words.now self.old).last_pass }
        requires slots { kept reads.now ≡ words_of
            (record_resolved (now words.now self.old).resolution (now words.now self.old).reads) }
        requires owed { (passed 0 (now words.now self.old)).owed ≡ true }
        ensures state { OnOk result ((number : ℕ)
            × (now words.now self.new
            ≡ risen words.now.terms.shape.manager (passed number (now words.now self.old)))
            × (last.new ≡ Some number)) }
        ensures ends_well { OnOk result (Under L.holds words.now B.began self.new Done None) }
        ensures ends { IfErr result (λ again. Under L.holds words.now B.began self.new Done (Some again)) }
        ensures past { OnOk result (IsPastOf (view_of self.old.seat).log (view_of self.new.seat).log) }
    {
        self.pass::<B>(words, last, reads)?;
        if rises(self.shape.manager()) {
            self.rank_up::<B>(words);
        }
        Ok(())
    }

    /// Makes one pass over the reads.
    pub fn recheck<B: InCall>(
        &mut self,
        words: &Words<L>,
        last: &mut Option<u64>,
        reads: &[ReadSlot],
    ) -> Result<(), Again>
        requires under { Under L.holds words.now B.began self.old (just LookNumber) None }
        requires work { work_of B.began.task ≡ Rechecking }
        requires running { IsRunning (now words.now self.old) }
        requires tries { self.old.missed < MAX_MISSED }
        requires last { last.old ≡ (now words.now self.old).last_pass }
        requires slots { kept reads.now ≡ words_of
            (record_resolved (now words.now self.old).resolution (now words.now self.old).reads) }
        ensures state { OnOk result ((number : ℕ) × (now words.now self.new ≡ passed number (now words.now self.old))
            × (last.new ≡ Some number)) }
        ensures ends_well { OnOk result (Under L.holds words.now B.began self.new Done None) }
        ensures ends { IfErr result (λ again. Under L.holds words.now B.began self.new Done (Some again)) }
    {
        self.pass::<B>(words, last, reads)
    }

    /// Lets a read go.
    pub fn release<B: InCall>(&mut self, words: &Words<L>, object: u32)
        requires under { Under L.holds words.now B.began self.old (Step Release object) None }
        requires running { IsRunning (now words.now self.old) }
        requires object { object < words.now.terms.shape.objects }
        requires read { is_some (read_of object (now words.now self.old).reads) ≡ true }
        requires tries { self.old.missed < MAX_MISSED }
        ensures state { now words.now self.new
            ≡ record (now words.now self.old) {
              reads =
                  drop_read object (now words.now self.old).reads;
              resolution = None;
              pass = None;
              checked = 0;
            } }
        ensures under { Under L.holds words.now B.began self.new Done None }
        ensures rest { self.new ≡ record self.old { seat = self.new.seat } }
    {
        let place = self.shape.object(object);
        let _ = self.load::<B>(words, Kind::Release, place);
    }

    /// Tries once to install the next locator in an object. It answers what was found of the object, or nothing where
    /// its word had changed.
    #[inline(always)]
    fn try_acquire<B: InCall>(
        &mut self,
        words: &Words<L>,
        object: u32,
        read: Option<u64>,
        locator: u32,
    ) -> Result<Option<Found>, Again>
        requires under { Under L.holds words.now B.began self.old (Step LookObj object) None }
        requires work { work_of B.began.task ≡ Writing object }
        requires running { IsRunning (now words.now self.old) }
        requires object { object < words.now.terms.shape.objects }
        requires unopened { write_of object (now words.now self.old).writes ≡ None }
        requires read { word_of (read_of object (now words.now self.old).reads) ≡ read }
        requires room { (now words.now self.old).installed < words.now.terms.shape.locators }
        requires locator { next_locator words.now.terms.shape (now words.now self.old) ≡ locator }
        requires tries { self.old.missed < MAX_MISSED }
        ensures got { IfOk result (λ got. IfSome got
            (λ found. Acquired words.now.terms.shape object (now words.now self.old) (now words.now self.new)
            found)) }
        ensures value { IfOk result (λ got. IfSome got (λ found. HasValue words.now self.new object found)) }
        ensures goes_on { IfOk result (λ got. IfSome got
            (λ found. Under L.holds words.now B.began self.new (just LookNumber) None)) }
        ensures retry { IfOk result (λ got. IsNone got →
            Under L.holds words.now B.began self.new (Step LookObj object) None) }
        ensures apart { IfOk result (λ got. IsNone got → HeldApart (now words.now self.old) (now words.now self.new)) }
        ensures missed { IfOk result (λ got. IsNone got → (self.old.missed < self.new.missed)
            × (self.new.missed < MAX_MISSED)) }
        ensures tried { OnOk result (self.new.missed < MAX_MISSED) }
        ensures ends { IfErr result (λ again. Under L.holds words.now B.began self.new Done (Some again)) }
    {
        let found = self.resolve::<B>(words, object, read)?;
        self.put_owner::<B>(words, locator);
        self.put_old::<B>(words, locator, found.version);
        if self.install::<B>(words, object, found.word, locator) {
            return Ok(Some(found));
        }
        if self.missed == MAX_MISSED {
            self.quit::<B>(words, Status::Active);
            return Err(Again::Lost);
        }
        Ok(None)
    }

    /// Installs the next locator in an object, which is resolved again each time that its word has changed. It answers
    /// what was found of the object.
    #[inline(always)]
    pub fn acquire<B: InCall>(
        &mut self,
        words: &Words<L>,
        object: u32,
        read: Option<u64>,
        locator: u32,
    ) -> Result<Found, Again>
        requires under { Under L.holds words.now B.began self.old (Step LookObj object) None }
        requires work { work_of B.began.task ≡ Writing object }
        requires running { IsRunning (now words.now self.old) }
        requires object { object < words.now.terms.shape.objects }
        requires unopened { write_of object (now words.now self.old).writes ≡ None }
        requires read { word_of (read_of object (now words.now self.old).reads) ≡ read }
        requires room { (now words.now self.old).installed < words.now.terms.shape.locators }
        requires locator { next_locator words.now.terms.shape (now words.now self.old) ≡ locator }
        requires tries { self.old.missed < MAX_MISSED }
        ensures got { IfOk result (λ found. Acquired words.now.terms.shape object (now words.now self.old)
            (now words.now self.new) found) }
        ensures value { IfOk result (λ found. HasValue words.now self.new object found) }
        ensures under { OnOk result (Under L.holds words.now B.began self.new (just LookNumber) None) }
        ensures tried { OnOk result (self.new.missed < MAX_MISSED) }
        ensures ends { IfErr result (λ again. Under L.holds words.now B.began self.new Done (Some again)) }
    {
        // A word that has changed names another locator: its owner may be live, and the version another one. So the
        // exchange is not tried again with what was found, and the object is resolved anew.
        'retries: loop {
            if let Some(found) = self.try_acquire::<B>(words, object, read, locator)? {
                return Ok(found);
            }
        }
    }
}

// Whether an attempt's rank rises as it opens objects.
pub(crate) fn rises(manager: Manager) -> bool
    ensures { result ≡ rises manager }
{
    match manager {
        Manager::Karma | Manager::Polka => true,
        Manager::Polite | Manager::Greedy => false,
    }
}
