// To resolve an object.
ghost use Rattle.std.specs.Prelude.{◌≡◌, ◌≢◌, ◌⊎◌, ℕ, ◌<◌, ◌≤◌, ◌+◌, ◌*◌, ◌-◌, length, is_some, is_none, true, false, None, Some, IfNone, IfSome, OnOk, IfOk, IfErr};
ghost use Rattle.dstm_core.specs.Rules.{after};
ghost use Rattle.dstm_core.specs.declared.event.Kind.TheVariants.{LookObj, LookOwner, LookStatus, LookRank, LookOld, LookHigh, LookNew, Quit};
ghost use Rattle.dstm_core.specs.declared.state.Phase.TheVariants.{Running, Outside};
ghost use Rattle.dstm_core.specs.State.{res, or_zero, version, is_live, read_of, write_of};
ghost use Rattle.dstm_core.specs.declared.shape.Manager.TheVariants.{Polite};
ghost use Rattle.dstm_machines.specs.Traces.Access.{Load};
ghost use Rattle.dstm_core.specs.Words.{place};
ghost use Rattle.dstm_core.specs.Words.Word.{ObjectWord, OwnerWord, StatusWord, RankWord, OldWord, HighWord, LowWord};
ghost use Rattle.dstm_order.specs.Order.{just, has_ranks};
ghost use Rattle.dstm_order.specs.Order.Due.{Step, Done};
ghost use Rattle.dstm_order.specs.declared.TheConstants.{MAX_MISSED};
ghost use Rattle.dstm_steps.specs.Conflicts.{Encounters, Meets, Starts};
ghost use Rattle.dstm_steps.specs.Finding.{KeepsAttempt, StaysAt, IsFound, word_of, is_changed};
ghost use Rattle.dstm_steps.specs.Under.{Looked, Resolving, Resolved, work_of, now, effort_by, made_by, RunsOn, Under, IsRunning};

use crate::conflict::is_live;
use crate::steps::{InCall, Steps};
use dstm_core::{Kind, Manager, Status};
use dstm_model::Law;
use dstm_order::Again;
use dstm_words::Words;

/// What an object was found to hold: its word, the version that this stands for, and the value of that.
#[derive(Clone, Copy, Debug, PartialEq, Eq)]
pub struct Found {
    pub word: u64,
    pub version: u64,
    pub low: u64,
    pub high: u64,
}

impl<L: Law> Steps<L> {
    /// Looks at the owner of the locator that the object's word names.
    pub(crate) fn look_owner<B: InCall>(&mut self, words: &Words<L>, word: u64) -> u32
        requires runs { RunsOn L.holds words.now B.began self.old (just LookOwner) }
        requires word { ((res (now words.now self.old)).word ≡ word) × (0 < word) }
        requires fresh { (res (now words.now self.old)).status ≡ None }
        ensures { Looked L.holds words.now B.began self.old self.new LookOwner result }
    {
        let locator = (word - 1) as u32;
        let place = self.shape.owner(locator);
        self.load::<B>(words, Kind::LookOwner, place) as u32
    }

    /// Looks at the status of that owner, for the first time.
    pub(crate) fn look_status<B: InCall>(&mut self, words: &Words<L>, owner: u32) -> u64
        requires runs { RunsOn L.holds words.now B.began self.old (just LookStatus) }
        requires owner { (res (now words.now self.old)).owner ≡ Some owner }
        requires fresh { (res (now words.now self.old)).status ≡ None }
        ensures { Looked L.holds words.now B.began self.old self.new LookStatus result }
    {
        let place = self.shape.status(owner);
        self.load::<B>(words, Kind::LookStatus, place)
    }

    /// Looks at the rank of that owner.
    pub(crate) fn look_rank<B: InCall>(&mut self, words: &Words<L>, owner: u32) -> u64
        requires runs { RunsOn L.holds words.now B.began self.old (just LookRank) }
        requires owner { (res (now words.now self.old)).owner ≡ Some owner }
        requires live { or_zero (res (now words.now self.old)).status < 4 }
        requires ranks { words.now.terms.shape.manager ≢ Polite }
        ensures { Looked L.holds words.now B.began self.old self.new LookRank result }
    {
        let place = self.shape.rank(owner);
        self.load::<B>(words, Kind::LookRank, place)
    }

    /// Looks at the old version that the locator names.
    pub(crate) fn look_old<B: InCall>(&mut self, words: &Words<L>, word: u64) -> u64
        requires runs { RunsOn L.holds words.now B.began self.old (just LookOld) }
        requires word { ((res (now words.now self.old)).word ≡ word) × (0 < word) }
        requires aborted { (res (now words.now self.old)).status ≡ Some 5 }
        ensures { Looked L.holds words.now B.began self.old self.new LookOld result }
    {
        let place = self.shape.old_cell((word - 1) as u32);
        self.load::<B>(words, Kind::LookOld, place)
    }

    /// Looks at the high part of the version.
    pub(crate) fn look_high<B: InCall>(&mut self, words: &Words<L>, named: u64) -> u64
        requires runs { RunsOn L.holds words.now B.began self.old (just LookHigh) }
        requires version { (version (res (now words.now self.old)) ≡ Some named) × (0 < named) }
        ensures { Looked L.holds words.now B.began self.old self.new LookHigh result }
    {
        let place = self.shape.high_cell((named - 1) as u32);
        self.load::<B>(words, Kind::LookHigh, place)
    }

    /// Looks at the low part of the version.
    pub(crate) fn look_low<B: InCall>(&mut self, words: &Words<L>, named: u64) -> u64
        requires runs { RunsOn L.holds words.now B.began self.old (just LookNew) }
        requires version { (version (res (now words.now self.old)) ≡ Some named) × (0 < named) }
        requires high { is_some (res (now words.now self.old)).high ≡ true }
        ensures { Looked L.holds words.now B.began self.old self.new LookNew result }
    {
        let place = self.shape.new_cell((named - 1) as u32);
        self.load::<B>(words, Kind::LookNew, place)
    }

    /// Looks at the word of an object, and begins to resolve it.
    pub(crate) fn look_object<B: InCall>(&mut self, words: &Words<L>, object: u32) -> u64
        requires under { Under L.holds words.now B.began self.old (Step LookObj object) None }
        requires running { IsRunning (now words.now self.old) }
        requires object { object < words.now.terms.shape.objects }
        requires unopened { write_of object (now words.now self.old).writes ≡ None }
        requires tries { self.old.missed < MAX_MISSED }
        ensures state { now words.now self.new
            ≡ after LookObj words.now.terms.shape (now words.now self.old)
            (made_by B.began Load LookObj object result) }
        ensures agreed { (now words.now self.new).stale ≡ false → Resolving L.holds words.now B.began self.new }
        ensures stale { (now words.now self.new).stale ≡ true →
            Under L.holds words.now B.began self.new (just Quit) None }
        ensures rest { self.new ≡ record self.old { seat = self.new.seat; round = 0; left = 0 } }
    {
        let place = self.shape.object(object);
        let word = self.look::<B>(words, Kind::LookObj, place, false);
        self.round = 0;
        self.left = 0;
        word
    }

    /// Looks at what the object's word stands for, whose owner has committed or was aborted.
    #[inline(always)]
    pub(crate) fn resolve_version<B: InCall>(
        &mut self,
        words: &Words<L>,
        word: u64,
        code: u64,
    ) -> Found
        requires under { Resolving L.holds words.now B.began self.old }
        requires running { IsRunning (now words.now self.old) }
        requires word { ((res (now words.now self.old)).word ≡ word) × (0 < word) }
        requires owner { is_some (res (now words.now self.old)).owner ≡ true }
        requires status { (res (now words.now self.old)).status ≡ Some code }
        requires over { (code ≡ 4) ⊎ (code ≡ 5) }
        requires fresh { ((res (now words.now self.old)).old ≡ None) × ((res (now words.now self.old)).high ≡ None)
            × ((res (now words.now self.old)).value ≡ None) }
        requires tries { self.old.missed < MAX_MISSED }
        ensures under { Resolved L.holds words.now B.began self.new }
        ensures found { IsFound (now words.now self.new) result }
        ensures stays { StaysAt (now words.now self.old) (now words.now self.new) }
        ensures rest { self.new ≡ record self.old { seat = self.new.seat } }
    {
        if code == Status::Committed.code() {
            return self.look_value::<B>(words, word, word);
        }
        let version = self.look_old::<B>(words, word);
        self.look_value::<B>(words, word, version)
    }

    /// Looks at the value of the version that the object's word stands for.
    #[inline(always)]
    fn look_value<B: InCall>(&mut self, words: &Words<L>, word: u64, named: u64) -> Found
        requires under { Resolving L.holds words.now B.began self.old }
        requires running { IsRunning (now words.now self.old) }
        requires word { (res (now words.now self.old)).word ≡ word }
        requires owner { is_some (res (now words.now self.old)).owner ≡ true }
        requires status { ((res (now words.now self.old)).status ≡ Some 4)
            ⊎ ((res (now words.now self.old)).status ≡ Some 5) }
        requires version { version (res (now words.now self.old)) ≡ Some named }
        requires fresh { ((res (now words.now self.old)).high ≡ None) × ((res (now words.now self.old)).value ≡ None) }
        requires tries { self.old.missed < MAX_MISSED }
        ensures under { Resolved L.holds words.now B.began self.new }
        ensures found { IsFound (now words.now self.new) result }
        ensures stays { StaysAt (now words.now self.old) (now words.now self.new) }
        ensures rest { self.new ≡ record self.old { seat = self.new.seat } }
    {
        if named == 0 {
            return Found {
                word,
                version: 0,
                low: 0,
                high: 0,
            };
        }
        let high = self.look_high::<B>(words, named);
        let low = self.look_low::<B>(words, named);
        Found {
            word,
            version: named,
            low,
            high,
        }
    }

    /// Contends with a live owner, until it is found committed or aborted. It answers which.
    fn meet<B: InCall>(
        &mut self,
        words: &Words<L>,
        word: u64,
        owner: u32,
        code: u64,
    ) -> Result<u64, Again>
        requires met { Encounters L.holds words.now B.began self.old word owner code }
        requires live { is_live code ≡ true }
        ensures met { IfOk result (λ found. Meets L.holds words.now B.began Running self.new owner found) }
        ensures over { IfOk result (λ found. is_live found ≡ false) }
        ensures stays { OnOk result (StaysAt (now words.now self.old) (now words.now self.new)) }
        ensures tried { OnOk result (self.old.missed ≤ self.new.missed) }
        ensures ends { IfErr result (λ again. Under L.holds words.now B.began self.new Done (Some again)) }
    {
        // The contract alone speaks of it.
        let _ = word;
        if !has_ranks(self.shape.manager()) {
            return self.settle::<B>(words, owner, 0, code);
        }
        let enemy = self.look_rank::<B>(words, owner);
        self.settle::<B>(words, owner, enemy, code)
    }

    /// Resolves an object whose word is not 0.
    #[inline(always)]
    fn resolve_word<B: InCall>(&mut self, words: &Words<L>, word: u64) -> Result<Found, Again>
        requires starts { Starts L.holds words.now B.began self.old word }
        ensures found { IfOk result (λ found. IsFound (now words.now self.new) found) }
        ensures under { OnOk result (Resolved L.holds words.now B.began self.new) }
        ensures stays { OnOk result (StaysAt (now words.now self.old) (now words.now self.new)) }
        ensures tried { OnOk result ((self.old.missed ≤ self.new.missed) × (self.new.missed < MAX_MISSED)) }
        ensures ends { IfErr result (λ again. Under L.holds words.now B.began self.new Done (Some again)) }
    {
        let owner = self.look_owner::<B>(words, word);
        let code = self.look_status::<B>(words, owner);
        if is_live(code) {
            let ended = self.meet::<B>(words, word, owner, code)?;
            return Ok(self.resolve_version::<B>(words, word, ended));
        }
        Ok(self.resolve_version::<B>(words, word, code))
    }

    /// Resolves an object that this attempt has not opened for writing. `read` is the word of its recorded read, where
    /// there is one.
    #[inline(always)]
    pub fn resolve<B: InCall>(
        &mut self,
        words: &Words<L>,
        object: u32,
        read: Option<u64>,
    ) -> Result<Found, Again>
        requires under { Under L.holds words.now B.began self.old (Step LookObj object) None }
        requires running { IsRunning (now words.now self.old) }
        requires object { object < words.now.terms.shape.objects }
        requires unopened { write_of object (now words.now self.old).writes ≡ None }
        requires read { word_of (read_of object (now words.now self.old).reads) ≡ read }
        requires tries { self.old.missed < MAX_MISSED }
        ensures found { IfOk result (λ found. IsFound (now words.now self.new) found) }
        ensures object { OnOk result ((res (now words.now self.new)).object ≡ object) }
        ensures attempt { OnOk result (KeepsAttempt (now words.now self.old) (now words.now self.new)) }
        ensures under { OnOk result (Resolved L.holds words.now B.began self.new) }
        ensures tried { OnOk result ((self.old.missed ≤ self.new.missed) × (self.new.missed < MAX_MISSED)) }
        ensures ends { IfErr result (λ again. Under L.holds words.now B.began self.new Done (Some again)) }
    {
        let word = self.look_object::<B>(words, object);
        if is_changed(read, word) {
            self.quit::<B>(words, Status::Active);
            return Err(Again::Stale(object));
        }
        if word == 0 {
            return Ok(Found {
                word: 0,
                version: 0,
                low: 0,
                high: 0,
            });
        }
        self.resolve_word::<B>(words, word)
    }
}

// Whether attempts have ranks.
pub(crate) fn has_ranks(manager: Manager) -> bool
    ensures { result ≡ has_ranks manager }
{
    match manager {
        Manager::Polite => false,
        Manager::Karma | Manager::Polka | Manager::Greedy => true,
    }
}

// Whether a read with this word is recorded, and another word was found.
fn is_changed(read: Option<u64>, word: u64) -> bool
    ensures { result ≡ is_changed read word }
{
    match read {
        Some(recorded) => recorded != word,
        None => false,
    }
}
