ghost use Rattle.std.specs.Prelude.{◌≡◌, ◌↔◌, IsTrue};
ghost use Rattle.dstm_core.specs.declared.event.Kind.TheVariants.{LookObj, LookOwner, LookStatus, LookRank, LookOld, LookHigh, LookNew};
ghost use Rattle.dstm_core.specs.Local.{Allows, next_caller};

use super::Local;
use crate::event::Event;
use crate::shape::Manager;
use crate::state::{Phase, Resolution};
use crate::status::Status;

// An attempt finds out the current version of an object and its value.
impl Local {
    pub(super) fn look_obj(&mut self, event: &Event) -> bool
        ensures allowed { IsTrue result ↔ Allows LookObj self.old event.now }
        ensures after { self.new ≡ next_caller result LookObj self.old event.now }
    {
        let may = self.runs() && self.writes.lack(event.place);
        if !(may && self.shape.is_object(event.place, event.place) && event.is_load()) {
            return false;
        }
        self.stale = match self.reads.find(event.place) {
            None => false,
            Some(read) => read.word != event.found,
        };
        self.resolution = Some(Resolution {
            object: event.place,
            word: event.found,
            ..Resolution::NONE
        });
        self.pass = None;
        self.reads.uncheck();
        true
    }

    pub(super) fn look_owner(&mut self, event: &Event) -> bool
        ensures allowed { IsTrue result ↔ Allows LookOwner self.old event.now }
        ensures after { self.new ≡ next_caller result LookOwner self.old event.now }
    {
        let seen = self.found_out();
        let may = self.runs() && 0 < seen.word;
        if !(may
            && self.shape.is_owner(event.place, u128::from(seen.word - 1))
            && event.is_load())
        {
            return false;
        }
        self.find_out(Resolution {
            owner: Some(event.found),
            ..seen
        });
        true
    }

    pub(super) fn look_status(&mut self, event: &Event) -> bool
        ensures allowed { IsTrue result ↔ Allows LookStatus self.old event.now }
        ensures after { self.new ≡ next_caller result LookStatus self.old event.now }
    {
        let seen = self.found_out();
        let Some(owner) = seen.owner else {
            return false;
        };
        let may = (self.phase == Phase::Running || self.phase == Phase::Paused)
            && !self.stale
            && seen.status.unwrap_or(0) < Status::Committed.code();
        if !(may && self.shape.is_status(event.place, u128::from(owner)) && event.is_load()) {
            return false;
        }
        self.find_out(Resolution {
            status: Some(event.found),
            ..seen
        });
        true
    }

    pub(super) fn look_rank(&mut self, event: &Event) -> bool
        ensures allowed { IsTrue result ↔ Allows LookRank self.old event.now }
        ensures after { self.new ≡ next_caller result LookRank self.old event.now }
    {
        let seen = self.found_out();
        let Some(owner) = seen.owner else {
            return false;
        };
        let may = self.runs() && self.shape.manager != Manager::Polite;
        if !(may && self.shape.is_rank(event.place, u128::from(owner)) && event.is_load()) {
            return false;
        }
        self.find_out(Resolution {
            rank: Some(event.found),
            ..seen
        });
        true
    }

    pub(super) fn look_old(&mut self, event: &Event) -> bool
        ensures allowed { IsTrue result ↔ Allows LookOld self.old event.now }
        ensures after { self.new ≡ next_caller result LookOld self.old event.now }
    {
        let seen = self.found_out();
        let may = self.runs() && seen.status.unwrap_or(0) == Status::Aborted.code();
        if !(may
            && self
                .shape
                .is_old_cell(event.place, u128::from(seen.word.saturating_sub(1)))
            && event.is_load())
        {
            return false;
        }
        self.find_out(Resolution {
            old: Some(event.found),
            ..seen
        });
        true
    }

    pub(super) fn look_high(&mut self, event: &Event) -> bool
        ensures allowed { IsTrue result ↔ Allows LookHigh self.old event.now }
        ensures after { self.new ≡ next_caller result LookHigh self.old event.now }
    {
        let seen = self.found_out();
        let version = seen.version().unwrap_or(0);
        let may = self.runs() && 0 < version;
        if !(may
            && self
                .shape
                .is_high_cell(event.place, u128::from(version - 1))
            && event.is_load())
        {
            return false;
        }
        self.find_out(Resolution {
            high: Some(event.found),
            ..seen
        });
        true
    }

    pub(super) fn look_new(&mut self, event: &Event) -> bool
        ensures allowed { IsTrue result ↔ Allows LookNew self.old event.now }
        ensures after { self.new ≡ next_caller result LookNew self.old event.now }
    {
        let seen = self.found_out();
        let version = seen.version().unwrap_or(0);
        let may = self.runs() && seen.high.is_some();
        if !(may
            && self
                .shape
                .is_new_cell(event.place, u128::from(version.saturating_sub(1)))
            && event.is_load())
        {
            return false;
        }
        self.find_out(Resolution {
            value: Some(event.found),
            ..seen
        });
        true
    }
}
