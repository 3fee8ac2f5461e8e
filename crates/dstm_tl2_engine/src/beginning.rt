// To give back and to begin, by a caller's steps.
ghost use Rattle.std.specs.Prelude.{◌≡◌, ◌≢◌, ◌≤◌, List, [], ◌∷◌, None, is_some, length, true, false};
ghost use Rattle.dstm_machines.specs.Traces.Access.{Load};
ghost use Rattle.dstm_tl2.specs.Rules.{Event, begin};
ghost use Rattle.dstm_tl2.specs.Sharing.{table_of};
ghost use Rattle.dstm_tl2.specs.Words.{place};
ghost use Rattle.dstm_tl2.specs.Words.Word.{ClockWord};
ghost use Rattle.dstm_tl2.specs.declared.kind.Kind.TheVariants.{Sample};
ghost use Rattle.dstm_tl2_words.specs.Seats.{view_of};
ghost use Rattle.dstm_tl2_order.specs.Order.{is_spent};
ghost use Rattle.dstm_tl2_order.specs.Order.Due.{Done};
ghost use Rattle.dstm_tl2_order.specs.Tasks.{Work};
ghost use Rattle.dstm_tl2_order.specs.Tasks.Task.{Beginning, Doing};
ghost use Rattle.dstm_tl2_steps.specs.Under.{in_freeing, made_by, now, when_free, Lists, Under};

use dstm_model::Law;
use dstm_tl2_steps::{InCall, Opened, Steps};
use dstm_tl2_words::Words;

// Gives back what the last attempt still has locked, if anything is.
pub fn free_first<L: Law, B: InCall>(
    steps: &mut Steps<L>,
    words: &Words<L>,
    opened: &Opened,
    locked: &mut u32,
)
    requires task { (work : Work) → B.began.task ≢ Doing work }
    requires under { Under L.holds words.now B.began steps.old
        (in_freeing B.began.task (table_of words.now.terms) (now words.now steps.old)) None }
    requires lists { Lists words.now steps.old opened.now locked.old }
    requires few { locked.old ≤ length opened.now.writes }
    requires may { locked.old ≢ 0 → (now words.now steps.old).drawn ≡ None }
    ensures none { locked.new ≡ 0 }
    ensures state { now words.now steps.new ≡ record (now words.now steps.old) {
      holds = [];
      gave_back = (now words.now steps.new).gave_back;
    } }
    ensures under { Under L.holds words.now B.began steps.new
        (when_free B.began.task (table_of words.now.terms) (now words.now steps.new)) None }
    ensures idle { locked.old ≡ 0 → steps.new ≡ steps.old }
{
    if *locked != 0 {
        steps.give_back::<B>(words, opened, locked);
    }
}

// Gives back what the last attempt still has locked, and begins the next one unless the caller is spent.
pub fn begin_next<L: Law, B: InCall>(
    steps: &mut Steps<L>,
    words: &Words<L>,
    opened: &Opened,
    locked: &mut u32,
    spent: bool,
)
    requires task { B.began.task ≡ Beginning }
    requires under { Under L.holds words.now B.began steps.old
        (in_freeing B.began.task (table_of words.now.terms) (now words.now steps.old)) None }
    requires lists { Lists words.now steps.old opened.now locked.old }
    requires few { locked.old ≤ length opened.now.writes }
    requires may { locked.old ≢ 0 → (now words.now steps.old).drawn ≡ None }
    requires number { is_some (now words.now steps.old).number ≡ true }
    requires spent { is_spent (table_of words.now.terms) (now words.now steps.old) ≡ spent }
    ensures none { locked.new ≡ 0 }
    ensures spent { spent ≡ true → now words.now steps.new ≡ record (now words.now steps.old) {
      holds = [];
      gave_back = (now words.now steps.new).gave_back;
    } }
    ensures begun { spent ≡ false → now words.now steps.new ≡ begin (now words.now steps.old) steps.new.sample }
    ensures top { spent ≡ false → (before : List Event) × ((view_of steps.new.seat).log
        ≡ made_by B.began Load Sample (place (table_of words.now.terms) ClockWord) steps.new.sample ∷ before) }
    ensures under { Under L.holds words.now B.began steps.new Done None }
    ensures idle { spent ≡ true → locked.old ≡ 0 → steps.new ≡ steps.old }
{
    free_first::<L, B>(steps, words, opened, locked);
    if spent {
        return;
    }
    steps.begin::<B>(words);
}
