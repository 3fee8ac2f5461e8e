ghost use Rattle.std.specs.Prelude.{◌≡◌, ◌↔◌, ◌+◌, ◌<◌, ◌^◌, IsTrue, IfOk, OnOk, OnErr, true, false, is_some};
ghost use Rattle.dstm_core.specs.declared.state.Phase.TheVariants.{Running};
ghost use Rattle.dstm_core.specs.declared.event.Kind.TheVariants.{PutOwner, PutOld, Install};
ghost use Rattle.dstm_core.specs.State.{res, own_attempt, is_resolved, with_locator};
ghost use Rattle.dstm_core.specs.Local.{Allows, next_caller};

use super::Local;
use crate::event::Event;
use crate::state::{Resolution, Write};
use std::alloc::AllocError;

// An attempt opens an object for writing.
impl Local {
    pub(super) fn put_owner(&mut self, event: &Event) -> bool
        ensures allowed { IsTrue result ↔ Allows PutOwner self.old event.now }
        ensures after { self.new ≡ next_caller result PutOwner self.old event.now }
    {
        let may = self.runs() && self.installed < self.shape.locators.into();
        if !(may
            && self.shape.is_owner(event.place, self.next_locator())
            && event.is_store(self.own_attempt()))
        {
            return false;
        }
        self.held_owner = Some(event.put);
        self.pass = None;
        self.reads.uncheck();
        true
    }

    pub(super) fn put_old(&mut self, event: &Event) -> bool
        ensures allowed { IsTrue result ↔ Allows PutOld self.old event.now }
        ensures after { self.new ≡ next_caller result PutOld self.old event.now }
    {
        let version = self.found_out().version().unwrap_or(0);
        if !(self.may_link()
            && self.shape.is_old_cell(event.place, self.next_locator())
            && event.is_store(version.into()))
        {
            return false;
        }
        self.held_old = Some(event.put);
        self.pass = None;
        self.reads.uncheck();
        true
    }

    pub(super) fn install(&mut self, event: &Event) -> Result<bool, AllocError>
        ensures allowed { IfOk result (λ yes. IsTrue yes ↔ Allows Install self.old event.now) }
        ensures after { IfOk result (λ yes. self.new ≡ next_caller yes Install self.old event.now) }
        ensures same { OnErr result (self.new ≡ self.old) }
    {
        let seen = self.found_out();
        let locator = self.next_locator();
        if !(self.may_link()
            && self.held_old == seen.version()
            && self.shape.is_object(event.place, seen.object)
            && event.is_exchange(seen.word, locator + 1))
        {
            return Ok(false);
        }
        if event.found == event.expected {
            self.use_locator(&seen, event.put - 1)?;
        }
        self.resolution = None;
        self.pass = None;
        self.reads.uncheck();
        Ok(true)
    }

    // The first unused locator stands in the object from now on.
    fn use_locator(&mut self, seen: &Resolution, locator: u64) -> Result<(), AllocError>
        requires { self.old.state.installed + 1 < 2 ^ 64 }
        ensures ok { OnOk result (self.new ≡ record self.old { state = with_locator self.old.state seen.now locator }) }
        ensures err { OnErr result (self.new ≡ self.old) }
    {
        self.writes.push(Write {
            object: seen.object,
            locator,
            old: seen.version().unwrap_or(0),
        })?;
        self.reads.remove(seen.object);
        self.installed += 1;
        self.held_owner = None;
        self.held_old = None;
        self.owed = true;
        Ok(())
    }

    // The object is resolved, and the first unused locator holds this attempt.
    fn may_link(&self) -> bool
        ensures { IsTrue result
            ↔ (self.now.state.phase ≡ Running)
            × (self.now.state.stale ≡ false)
            × (is_some self.now.state.resolution ≡ true)
            × (is_resolved (res self.now.state) ≡ true)
            × (self.now.state.held_owner ≡ Some (own_attempt self.now.shape self.now.state)) }
    {
        let own = self.own_attempt();
        self.runs()
            && self.resolution.is_some()
            && self.found_out().is_resolved()
            && self
                .held_owner
                .is_some_and(|attempt| u128::from(attempt) == own)
    }
}
