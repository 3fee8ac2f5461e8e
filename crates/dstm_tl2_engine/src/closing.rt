// The values that the words of a closed table tell.
ghost use Rattle.std.specs.Prelude.{◌≡◌, ℕ, ◌+◌, ◌*◌, ◌<◌, ◌≤◌, length, slice_index};
ghost use Rattle.dstm_model.specs.Map.{value_at};
ghost use Rattle.dstm_tl2_engine.specs.Closing.{value_left};

use dstm_model::Val;
use dstm_tl2_words::Left;

/// The current value of each object, in the place of its first value.
pub fn settle(words: &Left, start: Vec<Val>) -> Vec<Val>
    requires few { length start.items ≤ 1048576 }
    requires words { length words.now ≡ 3 * length start.items + 2 }
    ensures objects { length result.items ≡ length start.items }
    ensures values { (o : ℕ) → o < length start.items →
        value_at result.items o ≡ value_left (length start.items) words.now o }
{
    let mut values = start;
    let objects = values.len();
    for o in 0..objects {
        values[o] = Val {
            low: word_at(words, (objects + o) as u64),
            high: word_at(words, (2 * objects + o) as u64),
        };
    }
    values
}

// The word at a place.
fn word_at(words: &Left, place: u64) -> u64
    requires { place < length words.now }
    ensures { result ≡ slice_index words.now place }
{
    words.word(place)
}
