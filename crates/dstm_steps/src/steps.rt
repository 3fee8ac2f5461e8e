ghost use Rattle.std.specs.Prelude.{◌≡◌, ◌≢◌, ℕ, ◌<◌, MatchResult, true, false, None};
ghost use Rattle.dstm_core.specs.Traces.{IsPastOf};
ghost use Rattle.dstm_core.specs.Rules.{after};
ghost use Rattle.dstm_core.specs.Events.{Event};
ghost use Rattle.dstm_core.specs.declared.event.Kind.TheVariants.{LookObj};
ghost use Rattle.dstm_machines.specs.Traces.Access.{Load, Store, Exchange, Add};
ghost use Rattle.dstm_order.specs.Efforts.{effort_after, is_turn};
ghost use Rattle.dstm_order.specs.Order.Due.{Step};
ghost use Rattle.dstm_order.specs.Order.{just};
ghost use Rattle.dstm_words.specs.Seats.{found_in, view_of, StoresLawfully, ActsBy};
ghost use Rattle.dstm_steps.specs.Under.{now, effort_by, made_by, due_by, again_by, operand_of, is_exchange, MayStep, Under, Went};

use crate::counting::CallerSeat;
use crate::places::Places;
use dstm_core::Kind;
use dstm_managers::Decider;
use dstm_model::Law;
use dstm_words::Words;
use std::marker::Brand;

/// How a call began.
pub trait InCall {
    ghost use Rattle.dstm_steps.specs.Under.{Began};

    ghost began: { Began };
}

// What stands for it, before a call picks it.
impl InCall for Brand {
    ghost use Rattle.dstm_steps.specs.Unbegun.{unbegun};

    ghost began = { unbegun };
}

/// The steps of a caller, and what its present call has behind it.
#[derive(Drop)]
pub struct Steps<L: Law> {
    pub seat: CallerSeat<L>,
    pub shape: Places,
    pub decider: Decider,
    /// The attempt that was begun last.
    pub own: u32,
    /// How many locators were installed.
    pub installed: u32,
    pub rank: u64,
    pub missed: u32,
    pub round: u32,
    pub left: u32,
}

impl<L: Law> Steps<L> {
    /// Loads the word at a place, where a load of this kind is due. What the caller remembers, and what the call has
    /// behind it, stays: who calls this sets it. `turn` tells whether it is a turn of a conflict.
    pub fn look<B: InCall>(&mut self, words: &Words<L>, kind: Kind, place: u64, turn: bool) -> u64
        requires under { Under L.holds words.now B.began self.old (Step kind (operand_of kind place 0)) None }
        requires loads { ActsBy kind Load }
        requires object { kind ≡ LookObj → place < words.now.terms.shape.objects }
        requires may { MayStep words.now.terms.shape (now words.now self.old) kind Load
            (made_by B.began Load kind place 0) }
        requires turn { turn ≡ is_turn kind (now words.now self.old) }
        ensures rest { self.new ≡ record self.old { seat = self.new.seat } }
        ensures went { Went L.holds words.now B.began self.old self.new (made_by B.began Load kind place result) }
    {
        self.seat.load(words, kind, place, turn)
    }

    /// Loads the word at a place, where a load of this kind is due that changes nothing else.
    pub fn load<B: InCall>(&mut self, words: &Words<L>, kind: Kind, place: u64) -> u64
        requires under { Under L.holds words.now B.began self.old (Step kind (operand_of kind place 0)) None }
        requires loads { ActsBy kind Load }
        requires object { kind ≡ LookObj → place < words.now.terms.shape.objects }
        requires may { MayStep words.now.terms.shape (now words.now self.old) kind Load
            (made_by B.began Load kind place 0) }
        requires no_turn { is_turn kind (now words.now self.old) ≡ false }
        requires steady { (event : Event) → effort_after kind words.now.terms.shape.manager (now words.now self.old)
            (effort_by self.old) event ≡ effort_by self.old }
        ensures rest { self.new ≡ record self.old { seat = self.new.seat } }
        ensures state { now words.now self.new
            ≡ after kind words.now.terms.shape (now words.now self.old) (made_by B.began Load kind place result) }
        ensures under { Under L.holds words.now B.began self.new
            (due_by words.now B.began self.new (made_by B.began Load kind place result))
            (again_by words.now B.began self.new (made_by B.began Load kind place result)) }
        ensures past { IsPastOf (view_of self.old.seat).log (view_of self.new.seat).log }
    {
        self.look::<B>(words, kind, place, false)
    }

    /// Stores a number in the word at a place, where a store of this kind is due.
    pub fn store<B: InCall>(&mut self, words: &Words<L>, kind: Kind, place: u64, put: u64)
        requires under { Under L.holds words.now B.began self.old (Step kind (operand_of kind place put)) None }
        requires object { kind ≢ LookObj }
        requires may { MayStep words.now.terms.shape (now words.now self.old) kind (Store put)
            (made_by B.began (Store put) kind place 0) }
        requires lawful { StoresLawfully L.holds words.now.terms (view_of self.old.seat) kind place put }
        ensures rest { self.new ≡ record self.old { seat = self.new.seat } }
        ensures went { (found : ℕ) × Went L.holds words.now B.began self.old self.new
            (made_by B.began (Store put) kind place found) }
    {
        self.seat.store(words, kind, place, put)
    }

    /// Adds one to the word at a place, where an add of this kind is due.
    pub fn add<B: InCall>(&mut self, words: &Words<L>, kind: Kind, place: u64) -> u64
        requires under { Under L.holds words.now B.began self.old (just kind) None }
        requires adds { ActsBy kind Add }
        requires may { MayStep words.now.terms.shape (now words.now self.old) kind Add
            (made_by B.began Add kind place 0) }
        ensures rest { self.new ≡ record self.old { seat = self.new.seat } }
        ensures went { Went L.holds words.now B.began self.old self.new (made_by B.began Add kind place result) }
    {
        self.seat.add(words, kind, place)
    }

    /// Exchanges the word at a place, where an exchange of this kind is due.
    pub fn exchange<B: InCall>(
        &mut self,
        words: &Words<L>,
        kind: Kind,
        place: u64,
        expected: u64,
        put: u64,
    ) -> Result<u64, u64>
        requires under { Under L.holds words.now B.began self.old (just kind) None }
        requires may { MayStep words.now.terms.shape (now words.now self.old) kind (Exchange expected put)
            (made_by B.began (Exchange expected put) kind place 0) }
        requires exchanges { is_exchange kind ≡ true }
        ensures rest { self.new ≡ record self.old { seat = self.new.seat } }
        ensures answer { MatchResult result (λ found. found ≡ expected) (λ found. found ≢ expected) }
        ensures went { Went L.holds words.now B.began self.old self.new
            (made_by B.began (Exchange expected put) kind place (found_in result)) }
    {
        self.seat.exchange(words, kind, place, expected, put)
    }
}
