// To install a locator.
ghost use Rattle.std.specs.Prelude.{◌≡◌, ◌≢◌, ℕ, ◌<◌, ◌≤◌, ◌+◌, min, is_some, true, false, None, Some};
ghost use Rattle.dstm_core.specs.Rules.{install};
ghost use Rattle.dstm_core.specs.declared.event.Kind.TheVariants.{PutOwner, PutOld, Install, LookNumber, Rank, Quit};
ghost use Rattle.dstm_core.specs.declared.shape.TheConstants.{MAX_RANK};
ghost use Rattle.dstm_core.specs.State.{res, version, is_resolved, next_locator, own_attempt};
ghost use Rattle.dstm_order.specs.Order.{just, at_first, rises};
ghost use Rattle.dstm_order.specs.Order.Due.{Step, Done};
ghost use Rattle.dstm_order.specs.declared.TheConstants.{MAX_MISSED};
ghost use Rattle.dstm_core.specs.Traces.{IsPastOf};
ghost use Rattle.dstm_words.specs.Seats.{view_of};
ghost use Rattle.dstm_steps.specs.Under.{work_of, now, Under, IsRunning};

use crate::steps::{InCall, Steps};
use dstm_core::{Kind, MAX_RANK};
use dstm_model::Law;
use dstm_words::Words;

impl<L: Law> Steps<L> {
    /// Puts the own attempt as the owner of the next locator.
    pub(crate) fn put_owner<B: InCall>(&mut self, words: &Words<L>, locator: u32)
        requires under { Under L.holds words.now B.began self.old (just PutOwner) None }
        requires running { IsRunning (now words.now self.old) }
        requires room { (now words.now self.old).installed < words.now.terms.shape.locators }
        requires locator { next_locator words.now.terms.shape (now words.now self.old) ≡ locator }
        requires tries { self.old.missed < MAX_MISSED }
        ensures state { now words.now self.new
            ≡ record (now words.now self.old) {
              held_owner =
                  Some (own_attempt words.now.terms.shape (now words.now self.old));
              pass = None;
              checked = 0;
            } }
        ensures under { Under L.holds words.now B.began self.new (just PutOld) None }
        ensures rest { self.new ≡ record self.old { seat = self.new.seat } }
    {
        let own = u64::from(self.own);
        let place = self.shape.owner(locator);
        self.store::<B>(words, Kind::PutOwner, place, own)
    }

    /// Puts the version found as the old version of that locator.
    pub(crate) fn put_old<B: InCall>(&mut self, words: &Words<L>, locator: u32, old: u64)
        requires under { Under L.holds words.now B.began self.old (just PutOld) None }
        requires running { IsRunning (now words.now self.old) }
        requires locator { next_locator words.now.terms.shape (now words.now self.old) ≡ locator }
        requires held { (now words.now self.old).held_owner
            ≡ Some (own_attempt words.now.terms.shape (now words.now self.old)) }
        requires resolved { (is_some (now words.now self.old).resolution ≡ true)
            × (is_resolved (res (now words.now self.old)) ≡ true) }
        requires version { version (res (now words.now self.old)) ≡ Some old }
        requires tries { self.old.missed < MAX_MISSED }
        ensures state { now words.now self.new
            ≡ record (now words.now self.old) { held_old = Some old; pass = None; checked = 0 } }
        ensures under { Under L.holds words.now B.began self.new (just Install) None }
        ensures rest { self.new ≡ record self.old { seat = self.new.seat } }
    {
        let place = self.shape.old_cell(locator);
        self.store::<B>(words, Kind::PutOld, place, old)
    }

    /// Installs that locator in the object, whose word was found. It tells whether the word was still there.
    pub(crate) fn install<B: InCall>(
        &mut self,
        words: &Words<L>,
        object: u32,
        word: u64,
        locator: u32,
    ) -> bool
        requires under { Under L.holds words.now B.began self.old (just Install) None }
        requires running { IsRunning (now words.now self.old) }
        requires object { ((res (now words.now self.old)).object ≡ object) × (object < words.now.terms.shape.objects) }
        requires word { (res (now words.now self.old)).word ≡ word }
        requires locator { next_locator words.now.terms.shape (now words.now self.old) ≡ locator }
        requires held { ((now words.now self.old).held_owner
            ≡ Some (own_attempt words.now.terms.shape (now words.now self.old)))
            × ((now words.now self.old).held_old ≡ version (res (now words.now self.old))) }
        requires resolved { (is_some (now words.now self.old).resolution ≡ true)
            × (is_resolved (res (now words.now self.old)) ≡ true) }
        requires tries { self.old.missed < MAX_MISSED }
        requires few { self.old.installed < 2097152 }
        ensures state { result ≡ true → now words.now self.new
            ≡ install words.now.terms.shape (now words.now self.old) }
        ensures again { result ≡ false → now words.now self.new
            ≡ record (now words.now self.old) { resolution = None; pass = None; checked = 0 } }
        ensures under { result ≡ true → Under L.holds words.now B.began self.new (just LookNumber) None }
        ensures retry { result ≡ false → self.new.missed < MAX_MISSED →
            Under L.holds words.now B.began self.new (at_first (work_of B.began.task) (now words.now self.new)) None }
        ensures lost { result ≡ false → self.new.missed ≡ MAX_MISSED →
            Under L.holds words.now B.began self.new (just Quit) None }
        ensures missed { (result ≡ false → self.new.missed ≡ self.old.missed + 1)
            × (result ≡ true → self.new.missed ≡ self.old.missed) }
        ensures past { IsPastOf (view_of self.old.seat).log (view_of self.new.seat).log }
    {
        let next = u64::from(locator) + 1;
        let place = self.shape.object(object);
        match self.exchange::<B>(words, Kind::Install, place, word, next) {
            Ok(_) => {
                self.installed += 1;
                true
            }
            Err(_) => {
                self.missed += 1;
                false
            }
        }
    }

    /// Raises the rank, after an open.
    #[inline(always)]
    pub(crate) fn rank_up<B: InCall>(&mut self, words: &Words<L>)
        requires under { Under L.holds words.now B.began self.old
            (Step Rank (min ((now words.now self.old).rank + 1) MAX_RANK)) None }
        requires running { IsRunning (now words.now self.old) }
        requires rises { rises words.now.terms.shape.manager ≡ true }
        requires owed { (now words.now self.old).owed ≡ true }
        requires small { self.old.rank ≤ MAX_RANK }
        requires tries { self.old.missed < MAX_MISSED }
        ensures state { now words.now self.new
            ≡ record (now words.now self.old) {
              rank = min ((now words.now self.old).rank + 1) MAX_RANK;
              ranked =
                  false;
              owed = false;
              pass = None;
              checked = 0;
            } }
        ensures under { Under L.holds words.now B.began self.new Done None }
        ensures past { IsPastOf (view_of self.old.seat).log (view_of self.new.seat).log }
    {
        let rank = (self.rank + 1).min(MAX_RANK);
        let place = self.shape.rank(self.own);
        self.store::<B>(words, Kind::Rank, place, rank);
        self.rank = rank;
    }
}
