// To begin an attempt, and to end one that did not end.
ghost use Rattle.std.specs.Prelude.{◌≡◌, ◌≢◌, ◌⊎◌, ℕ, Bool, ◌+◌, ◌<◌, ◌&&◌, is_some, true, false, not, None, if◌then◌else◌};
ghost use Rattle.dstm_core.specs.Rules.{after, begin, leave, MayRankFirst};
ghost use Rattle.dstm_core.specs.declared.event.Kind.TheVariants.{Begin, Quit, Rank, Stamp};
ghost use Rattle.dstm_core.specs.declared.shape.Manager.TheVariants.{Greedy, Polite};
ghost use Rattle.dstm_core.specs.declared.state.Phase.TheVariants.{Outside};
ghost use Rattle.dstm_core.specs.State.{given, next_attempt};
ghost use Rattle.dstm_core.specs.Words.{code_of};
ghost use Rattle.dstm_order.specs.Order.{just, has_ranks, has_stamps, in_beginning, is_spent, rises};
ghost use Rattle.dstm_order.specs.Order.Due.{Step, Done};
ghost use Rattle.dstm_order.specs.Tasks.Task.{Beginning, Leaving};
ghost use Rattle.dstm_steps.specs.Beginning.{CanBegin, HasBegun, KeepsRank};
ghost use Rattle.dstm_steps.specs.Under.{InTask, now};

use crate::opening::rises;
use crate::resolving::has_ranks;
use crate::steps::{InCall, Steps};
use dstm_core::{Kind, Manager, Status};
use dstm_model::Law;
use dstm_words::Words;

impl<L: Law> Steps<L> {
    /// Quits an attempt that did not end, and was given this status last: as a call that leaves it, or before the next
    /// one begins.
    pub fn leave<B: InCall>(&mut self, words: &Words<L>, status: Status)
        requires under { InTask L.holds words.now B.began.task B.began self.old (just Quit) None }
        requires live { (now words.now self.old).phase ≢ Outside }
        requires status { code_of status ≡ given (now words.now self.old).phase }
        ensures state { now words.now self.new ≡ leave (now words.now self.old) }
        ensures leaves { B.began.task ≡ Leaving → InTask L.holds words.now Leaving B.began self.new Done None }
        ensures begins { (fresh : Bool) → B.began.task ≡ Beginning fresh →
            InTask L.holds words.now (Beginning fresh) B.began self.new
            (in_beginning words.now.terms.shape fresh None (now words.now self.new)) None }
        ensures rest { self.new ≡ record self.old { seat = self.new.seat } }
    {
        let place = self.shape.status(self.own);
        let _ = self.seat.exchange(
            words,
            Kind::Quit,
            place,
            status.code(),
            Status::Aborted.code(),
        );
    }

    /// Draws a stamp, which is the rank of a new transaction.
    fn stamp<B: InCall>(&mut self, words: &Words<L>, fresh: bool)
        requires under { InTask L.holds words.now (Beginning fresh) B.began self.old (just Stamp) None }
        requires outside { (now words.now self.old).phase ≡ Outside }
        requires number { is_some (now words.now self.old).number ≡ true }
        requires manager { words.now.terms.shape.manager ≡ Greedy }
        requires unstamped { (now words.now self.old).stamped ≡ false }
        ensures state { now words.now self.new
            ≡ record (now words.now self.old) {
              rank = self.new.rank;
              stamped = true;
              stands = true;
              ranked =
                  false;
            } }
        ensures under { InTask L.holds words.now (Beginning fresh) B.began self.new
            (in_beginning words.now.terms.shape fresh None (now words.now self.new)) None }
    {
        // The contract alone speaks of it.
        let _ = fresh;
        let place = self.shape.stamps_place();
        self.rank = self.seat.add(words, Kind::Stamp, place);
    }

    /// Puts the rank of the first unused attempt.
    fn rank_next<B: InCall>(&mut self, words: &Words<L>, fresh: bool, next: u32, rank: u64)
        requires under { InTask L.holds words.now (Beginning fresh) B.began self.old (Step Rank rank) None }
        requires outside { (now words.now self.old).phase ≡ Outside }
        requires number { is_some (now words.now self.old).number ≡ true }
        requires next { next_attempt words.now.terms.shape (now words.now self.old) ≡ next }
        requires unused { (now words.now self.old).begun < words.now.terms.shape.attempts }
        requires may { MayRankFirst words.now.terms.shape (now words.now self.old) rank }
        ensures state { now words.now self.new
            ≡ record (now words.now self.old) { rank = rank; ranked = true; owed = false; pass = None; checked = 0 } }
        ensures under { InTask L.holds words.now (Beginning fresh) B.began self.new
            (in_beginning words.now.terms.shape fresh None (now words.now self.new)) None }
    {
        // The contract alone speaks of it.
        let _ = fresh;
        let place = self.shape.rank(next);
        self.seat.store(words, Kind::Rank, place, rank);
        self.rank = rank;
    }

    /// Makes the first unused attempt the own one.
    fn start<B: InCall>(&mut self, words: &Words<L>, fresh: bool, next: u32)
        requires under { InTask L.holds words.now (Beginning fresh) B.began self.old (just Begin) None }
        requires outside { (now words.now self.old).phase ≡ Outside }
        requires number { is_some (now words.now self.old).number ≡ true }
        requires next { next_attempt words.now.terms.shape (now words.now self.old) ≡ next }
        requires unused { (now words.now self.old).begun < words.now.terms.shape.attempts }
        requires ranked { (words.now.terms.shape.manager ≡ Polite) ⊎ ((now words.now self.old).ranked ≡ true) }
        ensures state { now words.now self.new ≡ begin (now words.now self.old) }
        ensures under { InTask L.holds words.now (Beginning fresh) B.began self.new Done None }
        ensures own { self.new.own ≡ next }
    {
        // The contract alone speaks of it.
        let _ = fresh;
        let place = self.shape.status(next);
        self.seat
            .store(words, Kind::Begin, place, Status::Active.code());
        self.own = next;
    }

    /// Begins an attempt of a caller that is not spent and whose last attempt has ended. `next` is the first unused
    /// attempt; `stamped` and `ranked` say whether a stamp was drawn for it, and its rank put.
    pub fn begin<B: InCall>(
        &mut self,
        words: &Words<L>,
        fresh: bool,
        stamped: bool,
        ranked: bool,
        next: u32,
    )
        requires under { InTask L.holds words.now (Beginning fresh) B.began self.old
            (in_beginning words.now.terms.shape fresh None (now words.now self.old)) None }
        requires can { CanBegin words.now.terms.shape (now words.now self.old) next }
        requires flags { (stamped ≡ (now words.now self.old).stamped) × (ranked ≡ (now words.now self.old).ranked) }
        requires ranks { KeepsRank words.now.terms.shape fresh (now words.now self.old) }
        ensures state { now words.now self.new
            ≡ begin (record (now words.now self.old) {
              rank = self.new.rank;
              stands =
                  (now words.now self.new).stands;
            }) }
        ensures under { InTask L.holds words.now (Beginning fresh) B.began self.new Done None }
        ensures own { self.new.own ≡ next }
    {
        if has_stamps(self.shape.manager()) && fresh && !stamped {
            self.stamp::<B>(words, fresh);
            self.begin_ranked::<B>(words, fresh, false, next);
            return;
        }
        self.begin_ranked::<B>(words, fresh, ranked, next);
    }

    // The same, once no stamp is to be drawn.
    fn begin_ranked<B: InCall>(&mut self, words: &Words<L>, fresh: bool, ranked: bool, next: u32)
        requires under { InTask L.holds words.now (Beginning fresh) B.began self.old
            (in_beginning words.now.terms.shape fresh None (now words.now self.old)) None }
        requires can { CanBegin words.now.terms.shape (now words.now self.old) next }
        requires flag { ranked ≡ (now words.now self.old).ranked }
        requires stamped { (has_stamps words.now.terms.shape.manager && fresh && not
            (now words.now self.old).stamped) ≡ false }
        requires ranks { KeepsRank words.now.terms.shape fresh (now words.now self.old) }
        ensures { HasBegun L.holds words.now B.began fresh self.old self.new next }
    {
        if has_ranks(self.shape.manager()) && !ranked {
            let rank = first_rank(self.shape.manager(), fresh, self.rank);
            self.rank_next::<B>(words, fresh, next, rank);
            self.start::<B>(words, fresh, next);
            return;
        }
        self.start::<B>(words, fresh, next);
    }
}

// The rank of a first unused attempt: 0 in a new transaction where ranks rise, and else the one kept.
fn first_rank(manager: Manager, fresh: bool, kept: u64) -> u64
    ensures { result ≡ (if rises manager && fresh then 0 else kept) }
{
    if rises(manager) && fresh { 0 } else { kept }
}

// Whether a transaction draws a stamp.
fn has_stamps(manager: Manager) -> bool
    ensures { result ≡ has_stamps manager }
{
    match manager {
        Manager::Greedy => true,
        Manager::Polite | Manager::Karma | Manager::Polka => false,
    }
}
