// To put the new values.
ghost use Rattle.std.specs.Prelude.{◌≡◌, ◌≢◌, ◌⊎◌, ℕ, ◌<◌, ◌≤◌, ◌+◌, ◌*◌, ◌-◌, length, slice_index, true, false, None, Some, All};
ghost use Rattle.dstm_core.specs.declared.event.Kind.TheVariants.{PutHigh, PutNew, Validating as ToValidating};
ghost use Rattle.dstm_core.specs.declared.state.Phase.TheVariants.{Running, Putting};
ghost use Rattle.dstm_core.specs.State.{next_write};
ghost use Rattle.dstm_core.specs.Words.{place};
ghost use Rattle.dstm_core.specs.Words.Word.{HighWord, LowWord};
ghost use Rattle.dstm_order.specs.Order.{just, in_putting};
ghost use Rattle.dstm_order.specs.Order.Due.{Step};
ghost use Rattle.dstm_order.specs.Tasks.Work.{Committing};
ghost use Rattle.dstm_order.specs.declared.TheConstants.{MAX_MISSED};
ghost use Rattle.dstm_core.specs.Traces.{IsPastOf};
ghost use Rattle.dstm_words.specs.Seats.{view_of, StoresLawfully};
ghost use Rattle.dstm_steps.specs.Under.{work_of, now, Under};
ghost use Rattle.dstm_steps.specs.Writes.{IsReady, to_put, value_in, AreWrites, ArePut, CanPut, IsLawful, Puts};

use crate::slots::WriteSlot;
use crate::steps::{InCall, Steps};
use dstm_core::Kind;
use dstm_model::Law;
use dstm_words::Words;

impl<L: Law> Steps<L> {
    /// Puts the high part of the next value.
    pub(crate) fn put_high<B: InCall>(&mut self, words: &Words<L>, locator: u32, high: u64)
        requires under { Under L.holds words.now B.began self.old (Step PutHigh high) None }
        requires work { (work_of B.began.task) ≡ Committing (value_in (work_of B.began.task)) }
        requires live { (((now words.now self.old).phase ≡ Running) ⊎ ((now words.now self.old).phase ≡ Putting))
            × ((now words.now self.old).stale ≡ false) }
        requires next { ((now words.now self.old).written < length (now words.now self.old).writes)
            × ((now words.now self.old).high_put ≡ false) }
        requires locator { (next_write (now words.now self.old)).locator ≡ locator }
        requires tries { self.old.missed < MAX_MISSED }
        ensures state { now words.now self.new
            ≡ record (now words.now self.old) { phase = Putting; high_put = true; pass = None; checked = 0 } }
        ensures under { Under L.holds words.now B.began self.new
            (in_putting (value_in (work_of B.began.task)) (now words.now self.new)) None }
        ensures puts { Puts words.now self.old self.new (HighWord locator) high }
    {
        let place = self.shape.high_cell(locator);
        self.store::<B>(words, Kind::PutHigh, place, high)
    }

    /// Puts the low part of the next value.
    pub(crate) fn put_low<B: InCall>(&mut self, words: &Words<L>, locator: u32, low: u64)
        requires under { Under L.holds words.now B.began self.old (Step PutNew low) None }
        requires work { (work_of B.began.task) ≡ Committing (value_in (work_of B.began.task)) }
        requires live { ((now words.now self.old).phase ≡ Putting) × ((now words.now self.old).stale ≡ false) }
        requires next { ((now words.now self.old).written < length (now words.now self.old).writes)
            × ((now words.now self.old).high_put ≡ true) }
        requires locator { (next_write (now words.now self.old)).locator ≡ locator }
        requires lawful { StoresLawfully L.holds words.now.terms (view_of self.old.seat) PutNew
            (place words.now.terms.shape (LowWord locator)) low }
        requires tries { self.old.missed < MAX_MISSED }
        ensures state { now words.now self.new
            ≡ record (now words.now self.old) {
              phase = Putting;
              written =
                  (now words.now self.old).written + 1;
              high_put = false;
              pass = None;
              checked = 0;
            } }
        ensures under { Under L.holds words.now B.began self.new
            (in_putting (value_in (work_of B.began.task)) (now words.now self.new)) None }
        ensures puts { Puts words.now self.old self.new (LowWord locator) low }
    {
        let place = self.shape.new_cell(locator);
        self.store::<B>(words, Kind::PutNew, place, low)
    }

    /// Puts the new values, in the order of opening. `first` is the locator of the first of them.
    pub(crate) fn put_values<B: InCall>(
        &mut self,
        words: &Words<L>,
        first: u32,
        writes: &[WriteSlot],
    )
        requires can { CanPut L.holds words.now B.began self.old first }
        requires slots { AreWrites writes.now (now words.now self.old).writes }
        requires values { All (λ slot. value_in (work_of B.began.task) slot.object ≡ to_put slot) writes.now }
        requires lawful { IsLawful L.holds words.now self.old B.began.number writes.now }
        requires tries { self.old.missed < MAX_MISSED }
        ensures under { Under L.holds words.now B.began self.new (just ToValidating) None }
        ensures past { IsPastOf (view_of self.old.seat).log (view_of self.new.seat).log }
        ensures put { ArePut words.now self.new first writes.now (length writes.now) }
        ensures ready { IsReady (now words.now self.new) }
        ensures kept { ((now words.now self.new).reads ≡ (now words.now self.old).reads)
            × ((now words.now self.new).writes ≡ (now words.now self.old).writes)
            × ((now words.now self.new).last_pass ≡ (now words.now self.old).last_pass)
            × ((now words.now self.new).stale ≡ false) × ((now words.now self.new).committed ≡ false) }
        ensures tries { self.new.missed < MAX_MISSED }
    {
        for i in 0..writes.len() {
            let value = writes[i].to_put();
            let locator = first + i as u32;
            // The high part first: with the low part the value counts as put, and at the last of them the law is asked.
            self.put_high::<B>(words, locator, value.high);
            self.put_low::<B>(words, locator, value.low);
        }
    }
}
