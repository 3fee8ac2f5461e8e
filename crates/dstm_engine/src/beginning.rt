// To begin an attempt, by a caller's steps.
ghost use Rattle.std.specs.Prelude.{◌≡◌, None, is_some, true, false};
ghost use Rattle.dstm_steps.specs.Beginning.{KeepsRank};
ghost use Rattle.dstm_steps.specs.Under.{InTask, now};
ghost use Rattle.dstm_core.specs.Rules.{begin};
ghost use Rattle.dstm_core.specs.State.{next_attempt};
ghost use Rattle.dstm_engine.specs.Beginnings.{ended};
ghost use Rattle.dstm_engine.specs.Mirror.{phase_by};
ghost use Rattle.dstm_order.specs.Order.{in_beginning, is_spent};
ghost use Rattle.dstm_order.specs.Order.Due.{Done};
ghost use Rattle.dstm_order.specs.Tasks.Task.{Beginning};

use dstm_core::Status;
use dstm_model::Law;
use dstm_steps::{InCall, Steps};
use dstm_words::Words;

// Quits the last attempt where it is live, and begins the next one unless the caller is spent.
pub fn begin_next<L: Law, B: InCall>(
    steps: &mut Steps<L>,
    words: &Words<L>,
    fresh: bool,
    live: bool,
    spent: bool,
    next: u32,
)
    requires task { B.began.task ≡ Beginning fresh }
    requires under { InTask L.holds words.now (Beginning fresh) B.began steps.old
        (in_beginning words.now.terms.shape fresh None (now words.now steps.old)) None }
    requires phase { (now words.now steps.old).phase ≡ phase_by live }
    requires number { is_some (now words.now steps.old).number ≡ true }
    requires spent { is_spent words.now.terms.shape (now words.now steps.old) ≡ spent }
    requires next { next_attempt words.now.terms.shape (now words.now steps.old) ≡ next }
    requires unused { ((now words.now steps.old).stamped ≡ false) × ((now words.now steps.old).ranked ≡ false) }
    requires ranks { KeepsRank words.now.terms.shape fresh (now words.now steps.old) }
    ensures spent { spent ≡ true → now words.now steps.new ≡ ended live (now words.now steps.old) }
    ensures begun { spent ≡ false → now words.now steps.new
        ≡ begin (record (ended live (now words.now steps.old)) {
          rank = steps.new.rank;
          stands = (now words.now steps.new).stands;
        }) }
    ensures under { InTask L.holds words.now (Beginning fresh) B.began steps.new Done None }
    ensures own { spent ≡ false → steps.new.own ≡ next }
    ensures idle { live ≡ false → spent ≡ true → steps.new ≡ steps.old }
{
    quit_live::<L, B>(steps, words, fresh, live);
    if spent {
        return;
    }
    steps.begin::<B>(words, fresh, false, false, next);
}

// Quits the last attempt where it is live.
fn quit_live<L: Law, B: InCall>(steps: &mut Steps<L>, words: &Words<L>, fresh: bool, live: bool)
    requires task { B.began.task ≡ Beginning fresh }
    requires under { InTask L.holds words.now (Beginning fresh) B.began steps.old
        (in_beginning words.now.terms.shape fresh None (now words.now steps.old)) None }
    requires phase { (now words.now steps.old).phase ≡ phase_by live }
    ensures state { now words.now steps.new ≡ ended live (now words.now steps.old) }
    ensures under { InTask L.holds words.now (Beginning fresh) B.began steps.new
        (in_beginning words.now.terms.shape fresh None (now words.now steps.new)) None }
    ensures idle { live ≡ false → steps.new ≡ steps.old }
{
    // The contract alone speaks of it.
    let _ = fresh;
    if live {
        steps.leave::<B>(words, Status::Active);
    }
}

// A call has nothing behind it as it begins.
pub fn renew<L: Law>(steps: &mut Steps<L>)
    ensures { steps.new ≡ record steps.old { missed = 0; round = 0; left = 0 } }
{
    steps.missed = 0;
    steps.round = 0;
    steps.left = 0;
}
