ghost use Rattle.std.specs.Prelude.{◌⊎◌, length, ◌≡◌, ◌↔◌, IsTrue, IfOk, OnErr};
ghost use Rattle.dstm_core.specs.declared.event.Kind.TheVariants.{LookNumber, Check, LookSelf, Release};
ghost use Rattle.dstm_core.specs.Local.{Allows, next_caller};

use super::Local;
use crate::event::Event;
use crate::state::{Phase, Read};
use std::alloc::AllocError;

// An attempt passes over its reads, to see that all of them are current at one moment.
impl Local {
    pub(super) fn look_number(&mut self, event: &Event) -> Result<bool, AllocError>
        ensures allowed { IfOk result (λ yes. IsTrue yes ↔ Allows LookNumber self.old event.now) }
        ensures after { IfOk result (λ yes. self.new ≡ next_caller yes LookNumber self.old event.now) }
        ensures same { OnErr result (self.new ≡ self.old) }
    {
        if !(self.runs() && event.place == self.shape.numbers_place() && event.is_load()) {
            return Ok(false);
        }
        if let Some(seen) = self.resolution {
            if !seen.is_resolved() {
                self.resolution = None;
            } else if self.reads.find(seen.object).is_none() {
                self.reads.push(Read {
                    object: seen.object,
                    word: seen.word,
                    version: seen.version().unwrap_or(0),
                })?;
                self.owed = true;
            }
        }
        self.pass = Some(event.found);
        self.reads.uncheck();
        Ok(true)
    }

    pub(super) fn check(&mut self, event: &Event) -> bool
        ensures allowed { IsTrue result ↔ Allows Check self.old event.now }
        ensures after { self.new ≡ next_caller result Check self.old event.now }
    {
        let Some(read) = self.reads.next() else {
            return false;
        };
        let may = (self.phase == Phase::Running && self.pass.is_some()
            || self.phase == Phase::Drawn)
            && !self.stale;
        if !(may && self.shape.is_object(event.place, read.object) && event.is_load()) {
            return false;
        }
        self.stale = event.found != read.word;
        self.reads.check_next();
        true
    }

    pub(super) fn look_self(&mut self, event: &Event) -> bool
        ensures allowed { IsTrue result ↔ Allows LookSelf self.old event.now }
        ensures after { self.new ≡ next_caller result LookSelf self.old event.now }
    {
        let may = self.runs() && self.pass.is_some() && self.has_shown_all(self.pass);
        if !(may && self.shape.is_status(event.place, self.own_attempt()) && event.is_load()) {
            return false;
        }
        if event.found == self.given() {
            self.last_pass = self.pass;
            self.pass = None;
            self.reads.uncheck();
        } else {
            self.phase = Phase::Outside;
        }
        true
    }

    pub(super) fn release(&mut self, event: &Event) -> bool
        ensures allowed { IsTrue result ↔ Allows Release self.old event.now }
        ensures after { self.new ≡ next_caller result Release self.old event.now }
    {
        let may = self.runs() && self.reads.find(event.place).is_some();
        if !(may && self.shape.is_object(event.place, event.place) && event.is_load()) {
            return false;
        }
        self.reads.remove(event.place);
        self.resolution = None;
        self.pass = None;
        true
    }

    // Every read was checked, or the number is that of the last complete pass, since which nothing
    // can have changed.
    pub(super) fn has_shown_all(&self, number: Option<u64>) -> bool
        ensures { IsTrue result
            ↔ (self.now.state.checked ≡ length self.now.state.reads) ⊎ (self.now.state.last_pass ≡ number) }
    {
        self.reads.are_checked() || self.last_pass == number
    }
}
