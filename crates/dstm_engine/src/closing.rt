// The values that the words of a closed table tell.
ghost use Rattle.std.specs.Prelude.{◌≡◌, ℕ, ◌<◌, List, length, slice_index};
ghost use Rattle.dstm_core.specs.Left.{value_left, version_left, version_value_left};
ghost use Rattle.dstm_engine.specs.Closing.{AreLeft, AreWords, IsOwned, IsVersion};
ghost use Rattle.dstm_model.specs.Map.{value_at};

use dstm_core::{Shape, Status};
use dstm_model::Val;
use dstm_words::Left;

// The current value of each object, in the place of its first value.
pub fn settle(shape: &Shape, words: &Left, start: Vec<Val>) -> Vec<Val>
    requires words { AreWords shape.now words.now }
    requires left { AreLeft shape.now words.now }
    requires objects { length start.items ≡ shape.now.objects }
    ensures objects { length result.items ≡ shape.now.objects }
    ensures values { (o : ℕ) → o < shape.now.objects →
        value_at result.items o ≡ value_left shape.now start.items words.now o }
{
    let mut values = start;
    for o in 0..shape.objects {
        let first = values[o as usize];
        values[o as usize] = current(shape, words, first, o);
    }
    values
}

// The current value of an object that had this value first.
#[tactic(auto, using(crate::proofs::LastValues::object_is, crate::proofs::LastValues::object_owned, crate::proofs::LastValues::current_is))]
fn current(shape: &Shape, words: &Left, first: Val, o: u32) -> Val
    requires words { AreWords shape.now words.now }
    requires left { AreLeft shape.now words.now }
    requires exists { o < shape.now.objects }
    ensures { (start : List Val) → value_at start o ≡ first → result ≡ value_left shape.now start words.now o }
{
    let word = word_at(words, shape.object(o));
    let version = current_version(shape, words, word);
    value_of(shape, words, first, version)
}

// The version that an object's word stands for.
fn current_version(shape: &Shape, words: &Left, word: u64) -> u64
    requires words { AreWords shape.now words.now }
    requires version { IsVersion shape.now word }
    requires owned { IsOwned shape.now words.now word }
    ensures { result ≡ version_left shape.now words.now word }
{
    if word == 0 {
        return 0;
    }
    let locator = (word - 1) as u32;
    let owner = word_at(words, shape.owner(locator)) as u32;
    if word_at(words, shape.status(owner)) == Status::Committed.code() {
        word
    } else {
        word_at(words, shape.old_cell(locator))
    }
}

// The value of a version.
fn value_of(shape: &Shape, words: &Left, first: Val, version: u64) -> Val
    requires words { AreWords shape.now words.now }
    requires version { IsVersion shape.now version }
    ensures { (start : List Val) (o : ℕ) → value_at start o ≡ first →
        result ≡ version_value_left shape.now start words.now o version }
{
    if version == 0 {
        return first;
    }
    let locator = (version - 1) as u32;
    Val {
        low: word_at(words, shape.new_cell(locator)),
        high: word_at(words, shape.high_cell(locator)),
    }
}

// The word at a place.
fn word_at(words: &Left, place: u64) -> u64
    requires { place < length words.now }
    ensures { result ≡ slice_index words.now place }
{
    words.word(place)
}
