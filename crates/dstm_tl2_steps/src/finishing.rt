// To commit an attempt that has locked what it writes, by a caller's steps.
ghost use Rattle.std.specs.Prelude.{◌≡◌, ◌≢◌, ◌+◌, ◌<◌, List, is_some, None, Some, IfErr, IfOk, IfNone, IfSome, [], length, true, false};
ghost use Rattle.dstm_model.specs.Map.{KeepsLaw};
ghost use Rattle.dstm_tl2.specs.Histories.{entry_of};
ghost use Rattle.dstm_tl2.specs.Rules.{IsTold};
ghost use Rattle.dstm_tl2.specs.Sharing.{table_of};
ghost use Rattle.dstm_tl2.specs.State.{Hold, is_valid, next_check, to_check};
ghost use Rattle.dstm_tl2.specs.declared.kind.Kind.TheVariants.{Check};
ghost use Rattle.dstm_tl2.specs.Words.{objects};
ghost use Rattle.dstm_tl2_order.specs.Order.{draws, in_checking, in_giving_back, in_writing_back};
ghost use Rattle.dstm_tl2_order.specs.Order.Due.{Done, Just};
ghost use Rattle.dstm_tl2_steps.specs.Under.{now, IsFirst, Lists, Under};

use crate::opened::Opened;
use crate::reading::changed;
use crate::steps::{InCall, Steps};
use dstm_model::{Law, Val};
use dstm_tl2_order::TlAgain;
use dstm_tl2_words::Words;

impl<L: Law> Steps<L> {
    /// Draws the number, checks the reads, writes back and unlocks. Where a check is not good it gives back.
    pub fn finish<B: InCall>(
        &mut self,
        words: &Words<L>,
        opened: &Opened,
        locked: &mut u32,
    ) -> Result<u64, TlAgain>
        requires under { Under L.holds words.now B.began self.old (Just (draws opened.now.writes)) None }
        requires lists { Lists words.now self.old opened.now locked.old }
        requires begun { 0 < (now words.now self.old).begun }
        requires told { IsTold (now words.now self.old) opened.now.writes }
        requires undrawn { (now words.now self.old).drawn ≡ None }
        requires sound { ((now words.now self.old).failed ≡ false) × ((now words.now self.old).gave_back ≡ false) }
        requires locked { (locked.old ≡ length opened.now.writes)
            × ((now words.now self.old).locked ≡ length opened.now.writes) }
        requires lawful { KeepsLaw (L.holds words.now.terms.law.value) (objects (table_of words.now.terms))
            (entry_of (now words.now self.old) opened.now.writes) }
        ensures valid { IfOk result (λ number. (is_valid (now words.now self.new) ≡ true)
            × ((now words.now self.new).drawn ≡ Some number)
            × ((now words.now self.new).writes ≡ Some opened.now.writes)) }
        ensures failed { IfErr result (λ _. (now words.now self.new).failed ≡ true) }
        ensures rest { now words.now self.new ≡ record (now words.now self.old) {
          look = None;
          writes = Some opened.now.writes;
          holds = [];
          drawn = (now words.now self.new).drawn;
          checked = (now words.now self.new).checked;
          failed = (now words.now self.new).failed;
          gave_back = (now words.now self.new).gave_back;
        } }
        ensures reads { (now words.now self.new).reads ≡ (now words.now self.old).reads }
        ensures free { (locked.new ≡ 0) × ((now words.now self.new).holds ≡ []) }
        ensures ends_well { IfOk result (λ _. Under L.holds words.now B.began self.new Done None) }
        ensures ends { IfErr result (λ again. Under L.holds words.now B.began self.new Done (Some again)) }
    {
        let number = self.draw::<B>(words, opened.writes());
        if let Some(again) = self.check_all::<B>(words, opened) {
            self.give_back::<B>(words, opened, locked);
            return Err(again);
        }
        self.write_back::<B>(words, opened, number);
        *locked = 0;
        Ok(number)
    }

    // Checks each read of an object that is not written, in the order of reading, up to the first that is not good.
    fn check_all<B: InCall>(&mut self, words: &Words<L>, opened: &Opened) -> Option<TlAgain>
        requires under { Under L.holds words.now B.began self.old (in_checking (now words.now self.old)) None }
        requires fresh { (now words.now self.old).checked ≡ 0 }
        requires drawn { (now words.now self.old).drawn ≢ None }
        requires sound { ((now words.now self.old).failed ≡ false) × ((now words.now self.old).gave_back ≡ false) }
        requires told { (now words.now self.old).writes ≡ Some opened.now.writes }
        requires lists { Lists words.now self.old opened.now (length opened.now.writes) }
        ensures good { IfNone result ((is_valid (now words.now self.new) ≡ true)
            × Under L.holds words.now B.began self.new (in_checking (now words.now self.new)) None) }
        ensures bad { IfSome result (λ again. ((now words.now self.new).failed ≡ true)
            × Under L.holds words.now B.began self.new (in_giving_back (now words.now self.new).holds) (Some again)) }
        ensures rest { now words.now self.new ≡ record (now words.now self.old) {
          checked = (now words.now self.new).checked;
          failed = (now words.now self.new).failed;
        } }
    {
        for slot in opened.reads() {
            if opened.write(slot.object).is_none() {
                let bad = self.check_one::<B>(words, slot.object, slot.word);
                if bad.is_some() {
                    return bad;
                }
            }
        }
        None
    }

    // Checks the next read of an object that is not written, which was read with this word.
    fn check_one<B: InCall>(&mut self, words: &Words<L>, o: u32, word: u64) -> Option<TlAgain>
        requires under { Under L.holds words.now B.began self.old (Just Check) None }
        requires left { (now words.now self.old).checked < length (to_check (now words.now self.old)) }
        requires next { ((next_check (now words.now self.old)).object ≡ o)
            × ((next_check (now words.now self.old)).word ≡ word) }
        requires drawn { (now words.now self.old).drawn ≢ None }
        requires sound { ((now words.now self.old).failed ≡ false) × ((now words.now self.old).gave_back ≡ false) }
        ensures good { IfNone result
            (Under L.holds words.now B.began self.new (in_checking (now words.now self.new)) None) }
        ensures bad { IfSome result (λ again.
            Under L.holds words.now B.began self.new (in_giving_back (now words.now self.new).holds) (Some again)) }
        ensures rest { now words.now self.new ≡ record (now words.now self.old) {
          checked = (now words.now self.old).checked + 1;
          failed = is_some result;
        } }
    {
        let found = self.check::<B>(words, o);
        if found == word {
            return None;
        }
        Some(changed(o, found))
    }

    // Writes each new value and unlocks its object with the new version, in the order of locking.
    // So what is held next is always the first of the holds, and others wait less than behind a commit that unlocks at
    // its end.
    fn write_back<B: InCall>(&mut self, words: &Words<L>, opened: &Opened, number: u64)
        requires under { Under L.holds words.now B.began self.old
            (in_writing_back number (now words.now self.old).holds) None }
        requires valid { is_valid (now words.now self.old) ≡ true }
        requires drawn { (now words.now self.old).drawn ≡ Some number }
        requires lists { Lists words.now self.old opened.now (length opened.now.writes) }
        ensures valid { is_valid (now words.now self.new) ≡ true }
        ensures rest { now words.now self.new ≡ record (now words.now self.old) { holds = [] } }
        ensures ends { Under L.holds words.now B.began self.new Done None }
    {
        for write in opened.writes() {
            self.write_one::<B>(words, write.0, write.1, number);
        }
    }

    // Writes the new value of the object that was locked first of those still locked, and unlocks it.
    fn write_one<B: InCall>(&mut self, words: &Words<L>, o: u32, value: Val, number: u64)
        requires under { Under L.holds words.now B.began self.old
            (in_writing_back number (now words.now self.old).holds) None }
        requires valid { is_valid (now words.now self.old) ≡ true }
        requires drawn { (now words.now self.old).drawn ≡ Some number }
        requires first { (rest : List Hold) × IsFirst (now words.now self.old) (o, value) rest }
        ensures state { (rest : List Hold) → IsFirst (now words.now self.old) (o, value) rest →
            now words.now self.new ≡ record (now words.now self.old) { holds = rest } }
        ensures under { Under L.holds words.now B.began self.new
            (in_writing_back number (now words.now self.new).holds) None }
    {
        self.write_low::<B>(words, o, value.low);
        self.write_high::<B>(words, o, value.high);
        self.unlock::<B>(words, o, 2 * number + 2);
    }
}
