ghost use Rattle.std.specs.Prelude.{◌≡◌, ◌↔◌, IsTrue};
ghost use Rattle.dstm_core.specs.declared.event.Kind.TheVariants.{PutHigh, PutNew, Validating, Draw, Commit};
ghost use Rattle.dstm_core.specs.Local.{Allows, next_caller};

use super::Local;
use crate::event::Event;
use crate::state::Phase;
use crate::status::Status;

// An attempt puts its new values and commits.
impl Local {
    pub(super) fn put_high(&mut self, event: &Event) -> bool
        ensures allowed { IsTrue result ↔ Allows PutHigh self.old event.now }
        ensures after { self.new ≡ next_caller result PutHigh self.old event.now }
    {
        let Some(write) = self.writes.next() else {
            return false;
        };
        let may = (self.phase == Phase::Running || self.phase == Phase::Putting)
            && !self.stale
            && !self.high_put;
        if !(may
            && self.shape.is_high_cell(event.place, write.locator.into())
            && event.expected == event.found)
        {
            return false;
        }
        self.phase = Phase::Putting;
        self.high_put = true;
        self.pass = None;
        self.reads.uncheck();
        true
    }

    pub(super) fn put_new(&mut self, event: &Event) -> bool
        ensures allowed { IsTrue result ↔ Allows PutNew self.old event.now }
        ensures after { self.new ≡ next_caller result PutNew self.old event.now }
    {
        let Some(write) = self.writes.next() else {
            return false;
        };
        let may = self.phase == Phase::Putting && !self.stale && self.high_put;
        if !(may
            && self.shape.is_new_cell(event.place, write.locator.into())
            && event.expected == event.found)
        {
            return false;
        }
        self.writes.put_next();
        self.high_put = false;
        self.pass = None;
        self.reads.uncheck();
        true
    }

    pub(super) fn validating(&mut self, event: &Event) -> bool
        ensures allowed { IsTrue result ↔ Allows Validating self.old event.now }
        ensures after { self.new ≡ next_caller result Validating self.old event.now }
    {
        let may = (self.phase == Phase::Running && self.writes.is_empty()
            || self.phase == Phase::Putting && self.writes.are_put())
            && !self.stale;
        if !(may
            && self.shape.is_status(event.place, self.own_attempt())
            && event.is_exchange(Status::Active.code(), Status::Validating.code().into()))
        {
            return false;
        }
        self.phase = if event.found == Status::Active.code() {
            Phase::Validating
        } else {
            Phase::Outside
        };
        true
    }

    pub(super) fn draw(&mut self, event: &Event) -> bool
        ensures allowed { IsTrue result ↔ Allows Draw self.old event.now }
        ensures after { self.new ≡ next_caller result Draw self.old event.now }
    {
        let may = self.phase == Phase::Validating && !self.stale;
        if !(may && event.place == self.shape.numbers_place() && event.is_add()) {
            return false;
        }
        self.phase = Phase::Drawn;
        self.drawn = Some(event.found);
        self.reads.uncheck();
        true
    }

    pub(super) fn commit(&mut self, event: &Event) -> bool
        ensures allowed { IsTrue result ↔ Allows Commit self.old event.now }
        ensures after { self.new ≡ next_caller result Commit self.old event.now }
    {
        let may = self.phase == Phase::Drawn && !self.stale && self.has_shown_all(self.drawn);
        if !(may
            && self.shape.is_status(event.place, self.own_attempt())
            && event.is_exchange(Status::Validating.code(), Status::Committed.code().into()))
        {
            return false;
        }
        self.committed = event.found == Status::Validating.code();
        self.stands = self.stands && !self.committed;
        self.phase = Phase::Outside;
        true
    }
}
