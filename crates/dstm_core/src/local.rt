ghost use Rattle.std.specs.Prelude.{◌≡◌, ◌↔◌, IsTrue, IfOk, OnErr, false};
ghost use Rattle.dstm_core.specs.declared.state.Phase.TheVariants.{Running};
ghost use Rattle.dstm_core.specs.Rules.{resolving};
ghost use Rattle.dstm_core.specs.State.{first, given, res, next_attempt, own_attempt, next_locator};
ghost use Rattle.dstm_core.specs.Local.{Allows, next_caller};
ghost use Rattle.dstm_core.specs.Words.{IsValid};

mod contend;
mod enter;
mod finish;
mod look;
mod open;
mod pass;

use crate::event::{Event, Kind};
use crate::reads::Reads;
use crate::shape::Shape;
use crate::state::{Phase, Resolution};
use crate::status::Status;
use crate::writes::Writes;
use std::alloc::{AllocError, Global};
use std::marker::Model;

/// One caller's state, as a function of its own events.
#[derive(Drop)]
pub struct Local {
    shape: Shape,
    number: Option<u64>,
    begun: u32,
    installed: u64,
    rank: u64,
    stamped: bool,
    stands: bool,
    ranked: bool,
    committed: bool,
    owed: bool,
    phase: Phase,
    stale: bool,
    held_owner: Option<u64>,
    held_old: Option<u64>,
    reads: Reads,
    writes: Writes,
    high_put: bool,
    resolution: Option<Resolution>,
    pass: Option<u64>,
    last_pass: Option<u64>,
    drawn: Option<u64>,
}

impl Model for Local {
    ghost use Rattle.dstm_core.specs.Local.{Tracked};
    ghost use Rattle.dstm_core.specs.Words.{IsValid};

    ghost Value = { Tracked };

    ghost view = { λ l. record {
      shape = l.shape;
      state = record {
        number = l.number;
        begun = l.begun;
        installed = l.installed;
        rank = l.rank;
        stamped = l.stamped;
        stands = l.stands;
        ranked = l.ranked;
        committed = l.committed;
        owed = l.owed;
        phase = l.phase;
        stale = l.stale;
        held_owner = l.held_owner;
        held_old = l.held_old;
        reads = l.reads.reads;
        writes = l.writes.writes;
        written = l.writes.written;
        high_put = l.high_put;
        resolution = l.resolution;
        pass = l.pass;
        checked = l.reads.checked;
        last_pass = l.last_pass;
        drawn = l.drawn;
      };
    } };

    ghost invariant = { λ l. IsValid l.shape };
}

impl Local {
    /// The state of a caller that has made no event yet.
    pub fn start(alloc: Global, shape: &Shape) -> Result<Local, AllocError>
        requires { IsValid shape.now }
        ensures { IfOk result (λ caller. caller ≡ record { shape = shape.now; state = first }) }
    {
        Ok(Local {
            shape: *shape,
            number: None,
            begun: 0,
            installed: 0,
            rank: 0,
            stamped: false,
            stands: false,
            ranked: false,
            committed: false,
            owed: false,
            phase: Phase::Outside,
            stale: false,
            held_owner: None,
            held_old: None,
            reads: Reads::new(alloc),
            writes: Writes::new(alloc),
            high_put: false,
            resolution: None,
            pass: None,
            last_pass: None,
            drawn: None,
        })
    }

    /// Moves on by the caller's next event where the rules allow it, and answers whether they do.
    /// Where they do not, and where memory is wanting, nothing changes. Which caller makes the
    /// event and what an event finds are not its to judge, nor is the law on the values put.
    pub fn next(&mut self, event: &Event) -> Result<bool, AllocError>
        ensures allowed { IfOk result (λ yes. IsTrue yes ↔ Allows event.now.kind self.old event.now) }
        ensures after { IfOk result (λ yes. self.new ≡ next_caller yes event.now.kind self.old event.now) }
        ensures same { OnErr result (self.new ≡ self.old) }
    {
        match event.kind {
            Kind::Enrol => Ok(self.enrol(event)),
            Kind::Stamp => Ok(self.stamp(event)),
            Kind::Rank => Ok(self.take_rank(event)),
            Kind::Begin => Ok(self.begin(event)),
            Kind::LookObj => Ok(self.look_obj(event)),
            Kind::LookOwner => Ok(self.look_owner(event)),
            Kind::LookStatus => Ok(self.look_status(event)),
            Kind::LookRank => Ok(self.look_rank(event)),
            Kind::LookOld => Ok(self.look_old(event)),
            Kind::LookHigh => Ok(self.look_high(event)),
            Kind::LookNew => Ok(self.look_new(event)),
            Kind::PutOwner => Ok(self.put_owner(event)),
            Kind::PutOld => Ok(self.put_old(event)),
            Kind::Install => self.install(event),
            Kind::LookNumber => self.look_number(event),
            Kind::Check => Ok(self.check(event)),
            Kind::LookSelf => Ok(self.look_self(event)),
            Kind::Release => Ok(self.release(event)),
            Kind::PutHigh => Ok(self.put_high(event)),
            Kind::PutNew => Ok(self.put_new(event)),
            Kind::Validating => Ok(self.validating(event)),
            Kind::Draw => Ok(self.draw(event)),
            Kind::Commit => Ok(self.commit(event)),
            Kind::Kill => Ok(self.kill(event)),
            Kind::Quit => Ok(self.quit(event)),
            Kind::Pause => Ok(self.pause(event)),
            Kind::Resume => Ok(self.resume(event)),
        }
    }

    // The attempt runs, and may do more than Quit.
    fn runs(&self) -> bool
        ensures { IsTrue result ↔ (self.now.state.phase ≡ Running) × (self.now.state.stale ≡ false) }
    {
        self.phase == Phase::Running && !self.stale
    }

    // The attempt begun last.
    fn own_attempt(&self) -> u128
        ensures { result ≡ own_attempt self.now.shape self.now.state }
    {
        let number = u128::from(self.number.unwrap_or(0));
        number * u128::from(self.shape.attempts) + u128::from(self.begun.saturating_sub(1))
    }

    // The first unused attempt.
    fn next_attempt(&self) -> u128
        ensures { result ≡ next_attempt self.now.shape self.now.state }
    {
        let number = self.number.unwrap_or(0);
        let begun = self.begun;
        u128::from(number) * u128::from(self.shape.attempts) + u128::from(begun)
    }

    // The first unused locator.
    fn next_locator(&self) -> u128
        ensures { result ≡ next_locator self.now.shape self.now.state }
    {
        let number = self.number.unwrap_or(0);
        let installed = self.installed;
        u128::from(number) * u128::from(self.shape.locators) + u128::from(installed)
    }

    // The status that the attempt was given last.
    fn given(&self) -> u64
        ensures { result ≡ given self.now.state.phase }
    {
        let status = match self.phase {
            Phase::Outside => Status::Idle,
            Phase::Running | Phase::Putting => Status::Active,
            Phase::Paused => Status::Waiting,
            Phase::Validating | Phase::Drawn => Status::Validating,
        };
        status.code()
    }

    // What was found out of the object that is being resolved.
    fn found_out(&self) -> Resolution
        ensures { result ≡ res self.now.state }
    {
        self.resolution.unwrap_or(Resolution::NONE)
    }

    // Something more was found out of it.
    fn find_out(&mut self, resolution: Resolution)
        ensures { self.new ≡ record self.old { state = resolving self.old.state resolution } }
    {
        self.resolution = Some(resolution);
        self.pass = None;
        self.reads.uncheck();
    }
}
