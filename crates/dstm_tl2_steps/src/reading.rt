// To read an object, by a caller's steps.
ghost use Rattle.std.specs.Prelude.{◌≡◌, ◌<◌, ◌++◌, ◌∷◌, [], None, Some, IfErr, IfOk, if◌then◌else◌};
ghost use Rattle.dstm_tl2.specs.Sharing.{table_of};
ghost use Rattle.dstm_tl2.specs.State.{read_of};
ghost use Rattle.dstm_tl2.specs.Words.{objects};
ghost use Rattle.dstm_tl2_steps.specs.Reads.{AtRest, slot_read};
ghost use Rattle.dstm_tl2.specs.Failing.{is_locked, is_readable};
ghost use Rattle.dstm_tl2_order.specs.Order.Due.{Done, LookAt};
ghost use Rattle.dstm_tl2_steps.specs.Under.{now, Under};

use crate::opened::ReadSlot;
use crate::steps::{InCall, Steps};
use dstm_model::{Law, Val};
use dstm_tl2_order::TlAgain;
use dstm_tl2_words::Words;

impl<L: Law> Steps<L> {
    /// Reads an object that was not read. Its lock word has to be readable, and the same before its value and after.
    pub fn read<B: InCall>(&mut self, words: &Words<L>, o: u32) -> Result<ReadSlot, TlAgain>
        requires under { Under L.holds words.now B.began self.old (LookAt o) None }
        requires exists { o < objects (table_of words.now.terms) }
        requires rest { AtRest (now words.now self.old) }
        requires unread { read_of o (now words.now self.old).reads ≡ None }
        ensures reads { IfOk result (λ slot. now words.now self.new ≡ record (now words.now self.old) {
          reads = (now words.now self.old).reads ++ slot_read slot ∷ [];
        }) }
        ensures object { IfOk result (λ slot. slot.object ≡ o) }
        ensures ends_well { IfOk result (λ _. Under L.holds words.now B.began self.new Done None) }
        ensures ends { IfErr result (λ again. Under L.holds words.now B.began self.new Done (Some again)) }
        ensures same { IfErr result (λ _. now words.now self.new ≡ record (now words.now self.old) {
          look = (now words.now self.new).look;
        }) }
    {
        let word = self.look_lock::<B>(words, o);
        if let Some(again) = unreadable(self.sample, o, word) {
            return Err(again);
        }
        let low = self.look_low::<B>(words, o);
        let high = self.look_high::<B>(words, o);
        let again = self.look_again::<B>(words, o);
        if again != word {
            return Err(changed(o, again));
        }
        let value = Val { low, high };
        Ok(ReadSlot {
            object: o,
            word,
            value,
        })
    }
}

// Why an object with this lock word cannot be read by an attempt with this sample.
fn unreadable(sample: u64, o: u32, word: u64) -> Option<TlAgain>
    ensures { result ≡ (
        if is_readable sample word then None
        else Some (if is_locked word then TlAgain.Locked o else TlAgain.Newer o)) }
{
    if is_locked(word) {
        Some(TlAgain::Locked(o))
    } else if word / 2 > sample {
        Some(TlAgain::Newer(o))
    } else {
        None
    }
}

/// Why an attempt is left that found this lock word of an object, in place of the recorded one.
pub fn changed(o: u32, found: u64) -> TlAgain
    ensures { result ≡ (if is_locked found then TlAgain.Locked o else TlAgain.Changed o) }
{
    if is_locked(found) {
        TlAgain::Locked(o)
    } else {
        TlAgain::Changed(o)
    }
}

// The word is of an object that is locked.
fn is_locked(word: u64) -> bool
    ensures { result ≡ is_locked word }
{
    word % 2 == 1
}
