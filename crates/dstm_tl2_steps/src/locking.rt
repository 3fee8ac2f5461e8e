// To lock what an attempt writes, by a caller's steps.
ghost use Rattle.std.specs.Prelude.{◌≡◌, ◌≢◌, ◌<◌, ℕ, None, Some, IfErr, OnOk, IsSome, [], length, true};
ghost use Rattle.dstm_mem.specs.Memory.{value_in};
ghost use Rattle.dstm_tl2.specs.State.{read_of};
ghost use Rattle.dstm_tl2_steps.specs.Reads.{AtRest};
ghost use Rattle.dstm_tl2_order.specs.Order.{in_locking, when_locked};
ghost use Rattle.dstm_tl2_order.specs.Order.Due.{Done};
ghost use Rattle.dstm_tl2_order.specs.Tasks.{Work};
ghost use Rattle.dstm_tl2_order.specs.Tasks.Task.{Doing};
ghost use Rattle.dstm_tl2_steps.specs.Under.{now, HasLocked, Lists, Under};

use crate::opened::Opened;
use crate::reading::changed;
use crate::steps::{InCall, Steps};
use dstm_model::Law;
use dstm_tl2_order::TlAgain;
use dstm_tl2_words::Words;

impl<L: Law> Steps<L> {
    /// Locks the objects written, in the order of opening. `locked` counts them. Where one has another word than the
    /// recorded one, those locked before are given back.
    pub fn lock_all<B: InCall>(
        &mut self,
        words: &Words<L>,
        opened: &Opened,
        locked: &mut u32,
    ) -> Result<(), TlAgain>
        requires work { (work : Work) × (B.began.task ≡ Doing work)
            × Under L.holds words.now B.began self.old (in_locking opened.now.writes work (now words.now self.old)) None }
        requires rest { AtRest (now words.now self.old) }
        requires lists { Lists words.now self.old opened.now 0 }
        requires none { locked.old ≡ 0 }
        requires read { (o : ℕ) → IsSome (value_in opened.now.writes o) → read_of o (now words.now self.old).reads ≢ None }
        ensures all { OnOk result (locked.new ≡ length opened.now.writes) }
        ensures lists { Lists words.now self.new opened.now locked.new }
        ensures state { OnOk result (HasLocked (now words.now self.old) opened.now.writes
            (length opened.now.writes) (now words.now self.new)) }
        ensures goes_on { OnOk result ((work : Work) → B.began.task ≡ Doing work →
            Under L.holds words.now B.began self.new (when_locked work) None) }
        ensures ends { IfErr result (λ again. Under L.holds words.now B.began self.new Done (Some again)) }
        ensures free { IfErr result (λ _. (locked.new ≡ 0) × ((now words.now self.new).holds ≡ [])) }
        ensures left { IfErr result (λ _. now words.now self.new ≡ record (now words.now self.old) {
          writes = (now words.now self.new).writes;
          locked = (now words.now self.new).locked;
          holds = [];
          failed = true;
          gave_back = (now words.now self.new).gave_back;
        }) }
    {
        for write in opened.writes() {
            let o = write.0;
            let word = opened.word(o);
            if let Err(found) = self.lock::<B>(words, opened.writes(), o, word) {
                self.give_back::<B>(words, opened, locked);
                return Err(changed(o, found));
            }
            *locked += 1;
        }
        Ok(())
    }
}
