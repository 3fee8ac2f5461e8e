// To open an object, by a caller's steps.
ghost use Rattle.std.specs.Prelude.{◌≡◌, ◌<◌, false, None, Some, IfErr, IfOk, OnOk, length, map, option_map};
ghost use Rattle.dstm_steps.specs.FoundValues.{found_value};
ghost use Rattle.dstm_steps.specs.declared.slots.ReadSlot.{ReadSlot as Slot};
ghost use Rattle.dstm_steps.specs.Under.{IsRunning, Under, now, work_of};
ghost use Rattle.dstm_core.specs.State.{next_locator, read_of, write_of};
ghost use Rattle.dstm_steps.specs.Reads.{words_of};
ghost use Rattle.dstm_engine.specs.Mirror.{set_pairs, slot_word};
ghost use Rattle.dstm_engine.specs.Opened.{read_slot, write_slot};
ghost use Rattle.dstm_engine.specs.Opens.{OpensToRead, OpensToWrite};
ghost use Rattle.dstm_model.specs.Map.{value_at};
ghost use Rattle.dstm_order.specs.declared.TheConstants.{MAX_MISSED};
ghost use Rattle.dstm_order.specs.Order.Due.{Step, Done};
ghost use Rattle.dstm_core.specs.declared.event.Kind.TheVariants.{LookObj};
ghost use Rattle.dstm_order.specs.Tasks.Work.{Reading, Writing};

use crate::opened::Opened;
use crate::stm::Stm;
use dstm_model::{Law, Val};
use dstm_order::Again;
use dstm_steps::{Found, InCall, ReadSlot, Steps, WriteSlot};
use dstm_words::Words;

// Opens an object for reading that is not held.
pub fn read_object<L: Law, B: InCall>(
    steps: &mut Steps<L>,
    words: &Words<L>,
    last: &mut Option<u64>,
    opened: &mut Opened,
    stm: &Stm<L>,
    object: u32,
) -> Result<Val, Again>
    requires under { Under L.holds words.now B.began steps.old (Step LookObj object) None }
    requires work { work_of B.began.task ≡ Reading object }
    requires running { IsRunning (now words.now steps.old) }
    requires put { ((now words.now steps.old).written ≡ 0) × ((now words.now steps.old).high_put ≡ false) }
    requires object { object < words.now.terms.shape.objects }
    requires unopened { write_of object (now words.now steps.old).writes ≡ None }
    requires unread { read_of object (now words.now steps.old).reads ≡ None }
    requires tries { steps.old.missed < MAX_MISSED }
    requires last { last.old ≡ (now words.now steps.old).last_pass }
    requires slots { map slot_word opened.old.reads ≡ words_of (now words.now steps.old).reads }
    requires table { stm.now ≡ words.now }
    requires values { length stm.now.terms.start.value.items ≡ stm.now.terms.shape.objects }
    requires exists { object < opened.old.objects }
    requires fresh { read_slot opened.old.reads object ≡ None }
    requires room { length opened.old.reads < opened.old.objects }
    ensures opens { IfOk result (OpensToRead words.now steps.old steps.new opened.old opened.new object) }
    ensures last { OnOk result (last.new ≡ (now words.now steps.new).last_pass) }
    ensures ends_well { OnOk result (Under L.holds words.now B.began steps.new Done None) }
    ensures ends { IfErr result (λ again. Under L.holds words.now B.began steps.new Done (Some again)) }
    ensures rest { (opened.new.objects ≡ opened.old.objects) × (opened.new.writes ≡ opened.old.writes) }
{
    let found = steps.resolve::<B>(words, object, None)?;
    let value = value_found(found, stm, object);
    opened.push_read(object, found.word, value);
    steps.conclude::<B>(words, last, opened.reads())?;
    Ok(value)
}

// Opens an object for writing that is not open for it. `next` is the first unused locator.
pub fn write_object<L: Law, B: InCall>(
    steps: &mut Steps<L>,
    words: &Words<L>,
    last: &mut Option<u64>,
    opened: &mut Opened,
    stm: &Stm<L>,
    object: u32,
    next: u32,
) -> Result<Val, Again>
    requires under { Under L.holds words.now B.began steps.old (Step LookObj object) None }
    requires work { work_of B.began.task ≡ Writing object }
    requires running { IsRunning (now words.now steps.old) }
    requires put { ((now words.now steps.old).written ≡ 0) × ((now words.now steps.old).high_put ≡ false) }
    requires object { object < words.now.terms.shape.objects }
    requires unopened { write_of object (now words.now steps.old).writes ≡ None }
    requires locator { next_locator words.now.terms.shape (now words.now steps.old) ≡ next }
    requires locators { (now words.now steps.old).installed < words.now.terms.shape.locators }
    requires tries { steps.old.missed < MAX_MISSED }
    requires last { last.old ≡ (now words.now steps.old).last_pass }
    requires slots { map slot_word opened.old.reads ≡ words_of (now words.now steps.old).reads }
    requires table { stm.now ≡ words.now }
    requires values { length stm.now.terms.start.value.items ≡ stm.now.terms.shape.objects }
    requires exists { object < opened.old.objects }
    requires fresh { write_slot opened.old.writes object ≡ None }
    requires room { length opened.old.writes < opened.old.objects }
    ensures opens { IfOk result (OpensToWrite words.now steps.old steps.new opened.old opened.new object) }
    ensures last { OnOk result (last.new ≡ (now words.now steps.new).last_pass) }
    ensures ends_well { OnOk result (Under L.holds words.now B.began steps.new Done None) }
    ensures ends { IfErr result (λ again. Under L.holds words.now B.began steps.new Done (Some again)) }
    ensures rest { (opened.new.objects ≡ opened.old.objects)
        × (set_pairs opened.new.writes ≡ set_pairs opened.old.writes) }
{
    let read = recorded_word(opened.read(object));
    let found = steps.acquire::<B>(words, object, read, next)?;
    let old = value_found(found, stm, object);
    opened.drop_read(object);
    opened.push_write(WriteSlot {
        object,
        old,
        new: None,
    });
    steps.conclude::<B>(words, last, opened.reads())?;
    Ok(old)
}

// The word of a read.
fn recorded_word(read: Option<ReadSlot>) -> Option<u64>
    ensures { result ≡ option_map (λ (slot : Slot). slot.word) read }
{
    match read {
        Some(slot) => Some(slot.word),
        None => None,
    }
}

// The value that was found of an object. The one that it had first is looked up only where that was found.
fn value_found<L: Law>(found: Found, stm: &Stm<L>, object: u32) -> Val
    requires values { length stm.now.terms.start.value.items ≡ stm.now.terms.shape.objects }
    requires exists { object < stm.now.terms.shape.objects }
    ensures { result ≡ found_value found (value_at stm.now.terms.start.value.items object) }
{
    if found.version == 0 {
        return stm.first(object);
    }
    Val {
        low: found.low,
        high: found.high,
    }
}
