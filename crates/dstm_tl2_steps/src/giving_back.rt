// To give back what an attempt has locked, by a caller's steps.
ghost use Rattle.std.specs.Prelude.{◌≡◌, ◌≢◌, ◌⊎◌, ◌≤◌, Option, None, [], length, true};
ghost use Rattle.dstm_tl2.specs.Sharing.{table_of};
ghost use Rattle.dstm_tl2_order.specs.declared.again.TlAgain.{TlAgain};
ghost use Rattle.dstm_tl2_order.specs.Tasks.{Work};
ghost use Rattle.dstm_tl2_order.specs.Tasks.Task.{Doing};
ghost use Rattle.dstm_tl2_steps.specs.Under.{in_freeing, now, when_free, Lists, Under};

use crate::opened::Opened;
use crate::steps::{InCall, Steps};
use dstm_model::Law;
use dstm_tl2_words::Words;

impl<L: Law> Steps<L> {
    /// Gives the objects that are still locked their recorded words, in the order of locking. `locked` counts them.
    pub fn give_back<B: InCall>(&mut self, words: &Words<L>, opened: &Opened, locked: &mut u32)
        requires under { (again : Option TlAgain) × Under L.holds words.now B.began self.old
            (in_freeing B.began.task (table_of words.now.terms) (now words.now self.old)) again }
        requires lists { Lists words.now self.old opened.now locked.old }
        requires few { locked.old ≤ length opened.now.writes }
        requires may { locked.old ≢ 0 →
            ((now words.now self.old).drawn ≡ None) ⊎ ((now words.now self.old).failed ≡ true) }
        requires failed { (work : Work) → B.began.task ≡ Doing work → (now words.now self.old).failed ≡ true }
        ensures none { locked.new ≡ 0 }
        ensures free { (now words.now self.new).holds ≡ [] }
        ensures reads { (now words.now self.new).reads ≡ (now words.now self.old).reads }
        ensures rest { now words.now self.new ≡ record (now words.now self.old) {
          holds = [];
          gave_back = (now words.now self.new).gave_back;
        } }
        ensures under { (again : Option TlAgain) → Under L.holds words.now B.began self.old
            (in_freeing B.began.task (table_of words.now.terms) (now words.now self.old)) again →
            Under L.holds words.now B.began self.new
            (when_free B.began.task (table_of words.now.terms) (now words.now self.new)) again }
    {
        let writes = opened.writes();
        for i in 0..*locked {
            let o = writes[i as usize].0;
            let word = opened.word(o);
            self.unlock::<B>(words, o, word);
        }
        *locked = 0;
    }
}
