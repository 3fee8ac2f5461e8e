ghost use Rattle.std.specs.Prelude.{◌≡◌, ◌↔◌, IsTrue};
ghost use Rattle.dstm_core.specs.declared.event.Kind.TheVariants.{Enrol, Stamp, Rank, Begin};
ghost use Rattle.dstm_core.specs.Rules.{MayRank, MayRankFirst, Rises, rank_of};
ghost use Rattle.dstm_core.specs.Local.{Allows, next_caller};

use super::Local;
use crate::event::Event;
use crate::shape::{MAX_RANK, Manager};
use crate::state::Phase;
use crate::status::Status;

// A caller enters the table, and begins its attempts.
impl Local {
    pub(super) fn enrol(&mut self, event: &Event) -> bool
        ensures allowed { IsTrue result ↔ Allows Enrol self.old event.now }
        ensures after { self.new ≡ next_caller result Enrol self.old event.now }
    {
        let may = self.number.is_none();
        if !(may && event.place == self.shape.callers_place() && event.is_add()) {
            return false;
        }
        self.number = Some(event.found);
        true
    }

    pub(super) fn stamp(&mut self, event: &Event) -> bool
        ensures allowed { IsTrue result ↔ Allows Stamp self.old event.now }
        ensures after { self.new ≡ next_caller result Stamp self.old event.now }
    {
        let may = self.phase == Phase::Outside
            && self.number.is_some()
            && self.shape.manager == Manager::Greedy
            && !self.stamped;
        if !(may && event.place == self.shape.stamps_place() && event.is_add()) {
            return false;
        }
        self.rank = event.found;
        self.stamped = true;
        self.stands = true;
        self.ranked = false;
        true
    }

    pub(super) fn take_rank(&mut self, event: &Event) -> bool
        ensures allowed { IsTrue result ↔ Allows Rank self.old event.now }
        ensures after { self.new ≡ next_caller result Rank self.old event.now }
    {
        if !(self.may_rank(event.put)
            && self.shape.is_rank(event.place, self.ranking())
            && event.expected == event.found)
        {
            return false;
        }
        self.rank = event.put;
        self.ranked = self.phase == Phase::Outside;
        self.owed = false;
        self.pass = None;
        self.reads.uncheck();
        true
    }

    pub(super) fn begin(&mut self, event: &Event) -> bool
        ensures allowed { IsTrue result ↔ Allows Begin self.old event.now }
        ensures after { self.new ≡ next_caller result Begin self.old event.now }
    {
        let may = self.phase == Phase::Outside
            && self.number.is_some()
            && self.begun < self.shape.attempts
            && (self.shape.manager == Manager::Polite || self.ranked);
        if !(may
            && self.shape.is_status(event.place, self.next_attempt())
            && event.is_store(Status::Active.code().into()))
        {
            return false;
        }
        self.begun += 1;
        self.stamped = false;
        self.ranked = false;
        self.committed = false;
        self.owed = false;
        self.phase = Phase::Running;
        self.stale = false;
        self.reads.clear();
        self.writes.clear();
        self.high_put = false;
        self.resolution = None;
        self.pass = None;
        self.last_pass = None;
        self.drawn = None;
        true
    }

    // The attempt whose rank may be stored.
    fn ranking(&self) -> u128
        ensures { result ≡ rank_of self.now.state.phase self.now.shape self.now.state }
    {
        if self.phase == Phase::Outside {
            self.next_attempt()
        } else {
            self.own_attempt()
        }
    }

    fn may_rank(&self, rank: u64) -> bool
        ensures { IsTrue result ↔ MayRank self.now.state.phase self.now.shape self.now.state rank }
    {
        match self.phase {
            Phase::Outside => {
                self.number.is_some()
                    && self.begun < self.shape.attempts
                    && self.may_rank_first(rank)
            }
            Phase::Running => {
                !self.stale
                    && self.ranks_rise()
                    && self.owed
                    && rank == self.rank.min(MAX_RANK - 1) + 1
            }
            _ => false,
        }
    }

    // The rank that the next attempt may get.
    fn may_rank_first(&self, rank: u64) -> bool
        ensures { IsTrue result ↔ MayRankFirst self.now.shape self.now.state rank }
    {
        match self.shape.manager {
            Manager::Polite => false,
            Manager::Karma | Manager::Polka => rank == 0 || !self.committed && rank == self.rank,
            Manager::Greedy => rank == self.rank && self.stands,
        }
    }

    // An attempt's rank rises as it opens objects.
    fn ranks_rise(&self) -> bool
        ensures { IsTrue result ↔ Rises self.now.shape.manager }
    {
        matches!(self.shape.manager, Manager::Karma | Manager::Polka)
    }
}
