ghost use Rattle.std.specs.Prelude.{◌≡◌, ◌≢◌, ◌≤◌, ◌↔◌, IsTrue, is_some, true};
ghost use Rattle.dstm_core.specs.declared.event.Kind.TheVariants.{Kill, Quit, Pause, Resume};
ghost use Rattle.dstm_core.specs.Rules.{MayKill};
ghost use Rattle.dstm_core.specs.State.{is_live, or_zero};
ghost use Rattle.dstm_core.specs.Local.{Allows, next_caller};
ghost use Rattle.dstm_core.specs.Words.{code_of};
ghost use Rattle.dstm_core.specs.declared.status.Status.TheVariants.{Waiting};

use super::Local;
use crate::event::Event;
use crate::shape::Manager;
use crate::state::{Phase, Resolution};
use crate::status::Status;

// An attempt meets an enemy: one of the two ends or waits.
impl Local {
    pub(super) fn kill(&mut self, event: &Event) -> bool
        ensures allowed { IsTrue result ↔ Allows Kill self.old event.now }
        ensures after { self.new ≡ next_caller result Kill self.old event.now }
    {
        let seen = self.found_out();
        let Some(owner) = seen.owner else {
            return false;
        };
        let status = seen.status.unwrap_or(0);
        let may = self.runs() && is_live(status) && self.may_kill(&seen);
        if !(may
            && self.shape.is_status(event.place, owner.into())
            && event.is_exchange(status, Status::Aborted.code().into()))
        {
            return false;
        }
        self.find_out(Resolution {
            status: Some(event.put),
            ..seen
        });
        true
    }

    pub(super) fn quit(&mut self, event: &Event) -> bool
        ensures allowed { IsTrue result ↔ Allows Quit self.old event.now }
        ensures after { self.new ≡ next_caller result Quit self.old event.now }
    {
        let may = self.phase != Phase::Outside;
        if !(may
            && self.shape.is_status(event.place, self.own_attempt())
            && event.is_exchange(self.given(), Status::Aborted.code().into()))
        {
            return false;
        }
        self.phase = Phase::Outside;
        true
    }

    pub(super) fn pause(&mut self, event: &Event) -> bool
        ensures allowed { IsTrue result ↔ Allows Pause self.old event.now }
        ensures after { self.new ≡ next_caller result Pause self.old event.now }
    {
        let may = self.runs()
            && self.shape.manager == Manager::Greedy
            && self.may_wait_for(&self.found_out());
        if !(may
            && self.shape.is_status(event.place, self.own_attempt())
            && event.is_exchange(Status::Active.code(), Status::Waiting.code().into()))
        {
            return false;
        }
        if event.found == Status::Active.code() {
            self.phase = Phase::Paused;
            self.pass = None;
            self.reads.uncheck();
        } else {
            self.phase = Phase::Outside;
        }
        true
    }

    pub(super) fn resume(&mut self, event: &Event) -> bool
        ensures allowed { IsTrue result ↔ Allows Resume self.old event.now }
        ensures after { self.new ≡ next_caller result Resume self.old event.now }
    {
        let may = self.phase == Phase::Paused && !self.stale;
        if !(may
            && self.shape.is_status(event.place, self.own_attempt())
            && event.is_exchange(Status::Waiting.code(), Status::Active.code().into()))
        {
            return false;
        }
        if event.found == Status::Waiting.code() {
            self.phase = Phase::Running;
            self.pass = None;
            self.reads.uncheck();
        } else {
            self.phase = Phase::Outside;
        }
        true
    }

    fn may_kill(&self, enemy: &Resolution) -> bool
        ensures { IsTrue result ↔ MayKill self.now.shape.manager self.now.state enemy.now }
    {
        if self.shape.manager != Manager::Greedy {
            return true;
        }
        match enemy.rank {
            None => false,
            Some(rank) => self.rank < rank || enemy.status.unwrap_or(0) == Status::Waiting.code(),
        }
    }

    // The enemy is known to be older, and to run.
    fn may_wait_for(&self, enemy: &Resolution) -> bool
        ensures { IsTrue result
            ↔ (is_some enemy.now.owner ≡ true)
            × (is_some enemy.now.rank ≡ true)
            × (or_zero enemy.now.rank ≤ self.now.state.rank)
            × (is_live (or_zero enemy.now.status) ≡ true)
            × (or_zero enemy.now.status ≢ code_of Waiting) }
    {
        let status = enemy.status.unwrap_or(0);
        enemy.owner.is_some()
            && enemy.rank.is_some_and(|rank| rank <= self.rank)
            && is_live(status)
            && status != Status::Waiting.code()
    }
}

// The status is neither idle nor finished.
fn is_live(status: u64) -> bool
    ensures { result ≡ is_live status }
{
    Status::Idle.code() < status && status < Status::Committed.code()
}
