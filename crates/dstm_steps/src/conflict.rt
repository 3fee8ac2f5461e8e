// A conflict with the live owner of an object.
ghost use Rattle.std.specs.Prelude.{◌≡◌, ◌≢◌, ◌⊎◌, ℕ, ◌<◌, ◌≤◌, ◌+◌, is_some, true, false, not, None, Some, IfOk, OnOk, OnErr, IfErr, IfSome, IsNone};
ghost use Rattle.dstm_core.specs.Rules.{after, MayKill};
ghost use Rattle.dstm_core.specs.declared.event.Kind.TheVariants.{LookStatus, Kill, Pause, Resume, Quit};
ghost use Rattle.dstm_core.specs.declared.state.Phase.TheVariants.{Running, Paused};
ghost use Rattle.dstm_core.specs.declared.shape.Manager.TheVariants.{Greedy};
ghost use Rattle.dstm_core.specs.State.{res, or_zero, is_live};
ghost use Rattle.dstm_machines.specs.Traces.Access.{Load};
ghost use Rattle.dstm_core.specs.Words.{code_of};
ghost use Rattle.dstm_managers.specs.Meetings.{IsRank};
ghost use Rattle.dstm_managers.specs.declared.decider.Choice.TheVariants as decision;
ghost use Rattle.dstm_order.specs.Order.{just, on_choice};
ghost use Rattle.dstm_order.specs.Efforts.{chosen};
ghost use Rattle.dstm_order.specs.Order.Due.{Done};
ghost use Rattle.dstm_order.specs.declared.again.Again.TheVariants.{Killed};
ghost use Rattle.dstm_order.specs.declared.TheConstants.{MAX_MISSED, MAX_PATIENCE};
ghost use Rattle.dstm_steps.specs.Conflicts.{Keeps, Meets, lets_go, patience_left, rounds_of};
ghost use Rattle.dstm_steps.specs.Under.{Resolving, now, effort_by, made_by, Under, IsRunning};

use crate::steps::{InCall, Steps};
use dstm_core::{Kind, Status};
use dstm_managers::Choice;
use dstm_model::Law;
use dstm_order::{Again, MAX_MISSED, MAX_PATIENCE};
use dstm_words::Words;

/// What the manager chose.
pub(crate) enum Asked {
    /// To abort the owner.
    Kill,
    /// To give way.
    GiveWay,
    /// To wait. The first turn found this status.
    Waits(u64),
}

impl<L: Law> Steps<L> {
    /// Aborts the owner, whose status was found last. On an error its status is another one, and this counts.
    pub(crate) fn kill<B: InCall>(
        &mut self,
        words: &Words<L>,
        owner: u32,
        status: Status,
    ) -> Result<(), u64>
        requires under { Under L.holds words.now B.began self.old (just Kill) None }
        requires running { IsRunning (now words.now self.old) }
        requires owner { (res (now words.now self.old)).owner ≡ Some owner }
        requires status { ((res (now words.now self.old)).status ≡ Some (code_of status))
            × (is_live (code_of status) ≡ true) }
        requires may { MayKill words.now.terms.shape.manager (now words.now self.old) (res (now words.now self.old)) }
        requires tries { self.old.missed < MAX_MISSED }
        ensures state { (found : ℕ) × (put : ℕ)
            × (now words.now self.new ≡ record (now words.now self.old) {
              resolution =
                  Some (record (res (now words.now self.old)) { status = Some put });
              pass = None;
              checked = 0;
            })
            × IfErr result (λ code. put ≡ code) × OnOk result (put ≡ code_of Status.Aborted) }
        ensures goes_on { self.new.missed < MAX_MISSED → Resolving L.holds words.now B.began self.new }
        ensures lost { self.new.missed ≡ MAX_MISSED → Under L.holds words.now B.began self.new (just Quit) None }
        ensures missed { OnOk result (self.new.missed ≡ self.old.missed)
            × OnErr result (self.new.missed ≡ self.old.missed + 1) }
        ensures kept { (self.new.left ≡ self.old.left) × (self.new.round ≡ self.old.round) }
    {
        let place = self.shape.status(owner);
        match self.exchange::<B>(
            words,
            Kind::Kill,
            place,
            status.code(),
            Status::Aborted.code(),
        ) {
            Ok(_) => Ok(()),
            Err(code) => {
                self.missed += 1;
                Err(code)
            }
        }
    }

    /// One of the turns that are left of a wait.
    pub(crate) fn turn<B: InCall>(&mut self, words: &Words<L>, owner: u32) -> u64
        requires under { Under L.holds words.now B.began self.old (just LookStatus) None }
        requires running { IsRunning (now words.now self.old) }
        requires owner { (res (now words.now self.old)).owner ≡ Some owner }
        requires status { (is_some (res (now words.now self.old)).status ≡ true)
            × (is_live (or_zero (res (now words.now self.old)).status) ≡ true) }
        requires left { 0 < self.old.left }
        requires rounds { self.old.round < 1024 }
        requires tries { self.old.missed < MAX_MISSED }
        ensures state { now words.now self.new
            ≡ after LookStatus words.now.terms.shape (now words.now self.old)
            (made_by B.began Load LookStatus 0 result) }
        ensures under { Resolving L.holds words.now B.began self.new }
        ensures left { (self.new.left + 1 ≡ self.old.left) × (self.new.missed ≡ self.old.missed) }
        ensures rounds { rounds_of self.new ≡ rounds_of self.old }
    {
        let place = self.shape.status(owner);
        let status = self.look::<B>(words, Kind::LookStatus, place, true);
        if self.left == 1 {
            self.round += 1;
        }
        self.left -= 1;
        status
    }

    /// Begins to give way. It tells whether the attempt goes on.
    pub(crate) fn pause<B: InCall>(&mut self, words: &Words<L>) -> bool
        requires under { Under L.holds words.now B.began self.old (just Pause) None }
        requires running { IsRunning (now words.now self.old) }
        requires manager { words.now.terms.shape.manager ≡ Greedy }
        requires enemy { (is_some (res (now words.now self.old)).owner ≡ true)
            × (is_some (res (now words.now self.old)).rank ≡ true)
            × (or_zero (res (now words.now self.old)).rank ≤ (now words.now self.old).rank)
            × (is_live (or_zero (res (now words.now self.old)).status) ≡ true)
            × (or_zero (res (now words.now self.old)).status ≢ code_of Status.Waiting) }
        requires tries { self.old.missed < MAX_MISSED }
        ensures state { result ≡ true → now words.now self.new
            ≡ record (now words.now self.old) { phase = Paused; pass = None; checked = 0 } }
        ensures good { result ≡ true → Resolving L.holds words.now B.began self.new }
        ensures killed { result ≡ false → Under L.holds words.now B.began self.new Done (Some Killed) }
        ensures left { (self.new.left ≡ MAX_PATIENCE) × (self.new.missed ≡ self.old.missed)
            × (self.new.round ≡ self.old.round) }
    {
        let status = self.shape.status(self.own);
        let found = self.exchange::<B>(
            words,
            Kind::Pause,
            status,
            Status::Active.code(),
            Status::Waiting.code(),
        );
        self.left = MAX_PATIENCE;
        match found {
            Ok(_) => true,
            Err(_) => false,
        }
    }

    /// Asks the manager about the live owner, of this rank and status. Where it says to wait, this takes the first
    /// turn, which finds a status.
    pub(crate) fn ask<B: InCall>(
        &mut self,
        words: &Words<L>,
        owner: u32,
        enemy: u64,
        status: Status,
    ) -> Asked
        requires under { Under L.holds words.now B.began self.old
            (on_choice (chosen words.now.terms.shape.manager (now words.now self.old) (effort_by self.old))) None }
        requires running { IsRunning (now words.now self.old) }
        requires owner { (res (now words.now self.old)).owner ≡ Some owner }
        requires enemy { or_zero (res (now words.now self.old)).rank ≡ enemy }
        requires status { ((res (now words.now self.old)).status ≡ Some (code_of status))
            × (is_live (code_of status) ≡ true) }
        requires left { self.old.left ≡ 0 }
        requires rounds { self.old.round ≤ 1024 }
        requires tries { self.old.missed < MAX_MISSED }
        ensures kill { result ≡ Asked.Kill → (self.new ≡ self.old)
            × Under L.holds words.now B.began self.new (just Kill) None
            × (chosen words.now.terms.shape.manager (now words.now self.old) (effort_by self.old) ≡ decision.Kill) }
        ensures give_way { result ≡ Asked.GiveWay → (self.new ≡ self.old)
            × Under L.holds words.now B.began self.new (just Pause) None
            × (chosen words.now.terms.shape.manager (now words.now self.old) (effort_by self.old) ≡ decision.GiveWay) }
        ensures waits { (code : ℕ) → result ≡ Asked.Waits code →
            (now words.now self.new ≡ after LookStatus words.now.terms.shape (now words.now self.old)
            (made_by B.began Load LookStatus 0 code))
            × Resolving L.holds words.now B.began self.new }
        ensures rounds { (code : ℕ) → result ≡ Asked.Waits code → (rounds_of self.new ≡ self.old.round + 1)
            × (self.old.round < 1024) × (self.new.missed ≡ self.old.missed) }
    {
        let place = self.shape.status(owner);
        match self.decider.decide(self.rank, enemy, status, self.round) {
            Choice::Kill => Asked::Kill,
            Choice::GiveWay => Asked::GiveWay,
            Choice::Wait(turns) => {
                let code = self.seat.load(words, Kind::LookStatus, place, true);
                self.left = turns - 1;
                if turns == 1 {
                    self.round += 1;
                }
                Asked::Waits(code)
            }
        }
    }

    /// Takes the turns of a wait that are left, until the owner is found finished. It answers the status found last.
    fn wait<B: InCall>(&mut self, words: &Words<L>, owner: u32, code: u64) -> u64
        requires met { Meets L.holds words.now B.began Running self.old owner code }
        ensures met { Meets L.holds words.now B.began Running self.new owner result }
        ensures keeps { Keeps (now words.now self.old) (now words.now self.new) }
        ensures over { is_live result ≡ true → self.new.left ≡ 0 }
        ensures rounds { rounds_of self.new ≡ rounds_of self.old }
        ensures missed { self.new.missed ≡ self.old.missed }
    {
        let mut code = code;
        while self.left > 0 && is_live(code) {
            code = self.turn::<B>(words, owner);
        }
        code
    }

    /// Aborts the owner. It answers the status that the owner has then.
    fn abort<B: InCall>(
        &mut self,
        words: &Words<L>,
        owner: u32,
        status: Status,
    ) -> Result<u64, Again>
        requires under { Under L.holds words.now B.began self.old (just Kill) None }
        requires met { Meets L.holds words.now B.began Running self.old owner (code_of status) }
        requires live { is_live (code_of status) ≡ true }
        requires may { MayKill words.now.terms.shape.manager (now words.now self.old) (res (now words.now self.old)) }
        requires left { self.old.left ≡ 0 }
        ensures met { IfOk result (λ code. Meets L.holds words.now B.began Running self.new owner code) }
        ensures keeps { OnOk result (Keeps (now words.now self.old) (now words.now self.new)) }
        ensures over { OnOk result (self.new.left ≡ 0) }
        ensures less { IfOk result (λ code. patience_left self.new.missed self.new.round code
            < patience_left self.old.missed self.old.round (code_of status)) }
        ensures tried { OnOk result (self.old.missed ≤ self.new.missed) }
        ensures ends { IfErr result (λ again. Under L.holds words.now B.began self.new Done (Some again)) }
    {
        match self.kill::<B>(words, owner, status) {
            Ok(()) => Ok(Status::Aborted.code()),
            Err(code) => {
                if self.missed == MAX_MISSED {
                    self.quit::<B>(words, Status::Active);
                    return Err(Again::Lost);
                }
                Ok(code)
            }
        }
    }

    /// One of the turns that are left to an attempt that gives way.
    fn turn_aside<B: InCall>(&mut self, words: &Words<L>, owner: u32) -> u64
        requires under { Under L.holds words.now B.began self.old (just LookStatus) None }
        requires phase { (now words.now self.old).phase ≡ Paused }
        requires agreed { ((now words.now self.old).stale ≡ false) × ((now words.now self.old).committed ≡ false) }
        requires owner { (res (now words.now self.old)).owner ≡ Some owner }
        requires status { (is_some (res (now words.now self.old)).status ≡ true)
            × (is_live (or_zero (res (now words.now self.old)).status) ≡ true) }
        requires left { 0 < self.old.left }
        requires tries { self.old.missed < MAX_MISSED }
        ensures state { now words.now self.new
            ≡ after LookStatus words.now.terms.shape (now words.now self.old)
            (made_by B.began Load LookStatus 0 result) }
        ensures under { Resolving L.holds words.now B.began self.new }
        ensures left { (self.new.left + 1 ≡ self.old.left) × (self.new.missed ≡ self.old.missed)
            × (self.new.round ≡ self.old.round) }
    {
        let place = self.shape.status(owner);
        let status = self.look::<B>(words, Kind::LookStatus, place, true);
        self.left -= 1;
        status
    }

    /// Takes the turns of an attempt that gives way, until its enemy is found finished or waiting. It answers the
    /// status found last.
    fn stand_aside<B: InCall>(&mut self, words: &Words<L>, owner: u32, code: u64) -> u64
        requires met { Meets L.holds words.now B.began Paused self.old owner code }
        ensures met { Meets L.holds words.now B.began Paused self.new owner result }
        ensures keeps { Keeps (now words.now self.old) (now words.now self.new) }
        ensures over { lets_go result ≡ false → self.new.left ≡ 0 }
        ensures kept { (self.new.missed ≡ self.old.missed) × (self.new.round ≡ self.old.round) }
    {
        let mut code = code;
        while self.left > 0 && !lets_go(code) {
            code = self.turn_aside::<B>(words, owner);
        }
        code
    }

    /// Ends giving way. It tells whether the attempt goes on.
    fn resume<B: InCall>(&mut self, words: &Words<L>) -> bool
        requires under { Under L.holds words.now B.began self.old (just Resume) None }
        requires phase { (now words.now self.old).phase ≡ Paused }
        requires agreed { ((now words.now self.old).stale ≡ false) × ((now words.now self.old).committed ≡ false) }
        requires tries { self.old.missed < MAX_MISSED }
        ensures state { result ≡ true → now words.now self.new
            ≡ record (now words.now self.old) { phase = Running; pass = None; checked = 0 } }
        ensures good { result ≡ true → Resolving L.holds words.now B.began self.new }
        ensures killed { result ≡ false → Under L.holds words.now B.began self.new Done (Some Killed) }
        ensures left { (self.new.left ≡ 0) × (self.new.missed ≡ self.old.missed) × (self.new.round ≡ self.old.round) }
    {
        let status = self.shape.status(self.own);
        let found = self.exchange::<B>(
            words,
            Kind::Resume,
            status,
            Status::Waiting.code(),
            Status::Active.code(),
        );
        self.left = 0;
        match found {
            Ok(_) => true,
            Err(_) => false,
        }
    }

    /// Gives way to the owner, for as many turns as an attempt may. It answers the status that the owner was found to
    /// have then.
    fn give_way<B: InCall>(
        &mut self,
        words: &Words<L>,
        owner: u32,
        status: Status,
    ) -> Result<u64, Again>
        requires under { Under L.holds words.now B.began self.old (just Pause) None }
        requires met { Meets L.holds words.now B.began Running self.old owner (code_of status) }
        requires live { (is_live (code_of status) ≡ true) × (code_of status ≢ code_of Status.Waiting) }
        requires manager { words.now.terms.shape.manager ≡ Greedy }
        requires elder { or_zero (res (now words.now self.old)).rank ≤ (now words.now self.old).rank }
        requires left { self.old.left ≡ 0 }
        ensures met { IfOk result (λ code. Meets L.holds words.now B.began Running self.new owner code) }
        ensures keeps { OnOk result (Keeps (now words.now self.old) (now words.now self.new)) }
        ensures over { OnOk result (self.new.left ≡ 0) }
        ensures less { IfOk result (λ code. patience_left self.new.missed self.new.round code
            < patience_left self.old.missed self.old.round (code_of status)) }
        ensures tried { OnOk result (self.old.missed ≤ self.new.missed) }
        ensures ends { IfErr result (λ again. Under L.holds words.now B.began self.new Done (Some again)) }
    {
        if !self.pause::<B>(words) {
            return Err(Again::Killed);
        }
        let code = self.stand_aside::<B>(words, owner, status.code());
        if !lets_go(code) {
            self.quit::<B>(words, Status::Waiting);
            return Err(Again::Waited);
        }
        if !self.resume::<B>(words) {
            return Err(Again::Killed);
        }
        Ok(code)
    }

    /// What the manager chooses is done once: the owner is aborted, waited for, or given way to. It answers the status
    /// that the owner was found to have then.
    fn contend<B: InCall>(
        &mut self,
        words: &Words<L>,
        owner: u32,
        enemy: u64,
        status: Status,
    ) -> Result<u64, Again>
        requires met { Meets L.holds words.now B.began Running self.old owner (code_of status) }
        requires live { is_live (code_of status) ≡ true }
        requires enemy { or_zero (res (now words.now self.old)).rank ≡ enemy }
        requires left { self.old.left ≡ 0 }
        ensures met { IfOk result (λ code. Meets L.holds words.now B.began Running self.new owner code) }
        ensures keeps { OnOk result (Keeps (now words.now self.old) (now words.now self.new)) }
        ensures over { IfOk result (λ code. is_live code ≡ true → self.new.left ≡ 0) }
        ensures less { IfOk result (λ code. patience_left self.new.missed self.new.round code
            < patience_left self.old.missed self.old.round (code_of status)) }
        ensures tried { OnOk result (self.old.missed ≤ self.new.missed) }
        ensures ends { IfErr result (λ again. Under L.holds words.now B.began self.new Done (Some again)) }
    {
        match self.ask::<B>(words, owner, enemy, status) {
            Asked::Kill => self.abort::<B>(words, owner, status),
            Asked::GiveWay => self.give_way::<B>(words, owner, status),
            Asked::Waits(code) => Ok(self.wait::<B>(words, owner, code)),
        }
    }

    /// Contends with the owner until it is found committed or aborted. It answers which.
    pub(crate) fn settle<B: InCall>(
        &mut self,
        words: &Words<L>,
        owner: u32,
        enemy: u64,
        code: u64,
    ) -> Result<u64, Again>
        requires met { Meets L.holds words.now B.began Running self.old owner code }
        requires enemy { or_zero (res (now words.now self.old)).rank ≡ enemy }
        requires left { self.old.left ≡ 0 }
        ensures met { IfOk result (λ found. Meets L.holds words.now B.began Running self.new owner found) }
        ensures over { IfOk result (λ found. is_live found ≡ false) }
        ensures keeps { OnOk result (Keeps (now words.now self.old) (now words.now self.new)) }
        ensures tried { OnOk result (self.old.missed ≤ self.new.missed) }
        ensures ends { IfErr result (λ again. Under L.holds words.now B.began self.new Done (Some again)) }
    {
        let mut code = code;
        while let Some(status) = live_status(code) {
            code = self.contend::<B>(words, owner, enemy, status)?;
        }
        Ok(code)
    }
}

// The live status that a code names.
fn live_status(code: u64) -> Option<Status>
    ensures live { IfSome result (λ status. (code_of status ≡ code) × (is_live code ≡ true)) }
    ensures over { IsNone result → is_live code ≡ false }
{
    if is_live(code) {
        Status::of(code)
    } else {
        None
    }
}

// Whether an enemy with this code is given way to no more.
fn lets_go(code: u64) -> bool
    ensures { result ≡ lets_go code }
{
    !is_live(code) || code == Status::Waiting.code()
}

// Whether a code is that of a live status.
pub(crate) fn is_live(code: u64) -> bool
    ensures { result ≡ is_live code }
{
    Status::Idle.code() < code && code < Status::Committed.code()
}
