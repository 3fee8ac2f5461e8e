//! What the calls of a caller add up to: its life is calls that follow the order of steps, one after the other. The
//! functions do nothing.

ghost use Rattle.std.specs.Prelude.{Bool};
ghost use Rattle.dstm_tl2.specs.State.{LocalState};
ghost use Rattle.dstm_tl2_engine.specs.Lives.{ALifeIsCalls, AnswersAreOfCalls, AttemptsAreCalls, CallsAddUp};
ghost use Rattle.dstm_tl2_order.specs.Tasks.{Task};

use dstm_model::Law;

/// Each call of the engine adds one to the calls of its caller.
pub fn calls_add_up<L: Law>()
    ensures { (may : (state : LocalState) (task : Task) → Bool) → CallsAddUp L L.holds may }
{}

/// An attempt is some calls.
pub fn attempts_are_calls<L: Law>()
    ensures { AttemptsAreCalls L L.holds }
{}

/// Why an attempt was left is what the last call on it answered.
pub fn answers_are_of_calls<L: Law>()
    ensures { AnswersAreOfCalls L L.holds }
{}

/// A caller that enrolled, made calls and was retired is told by calls in the log.
pub fn a_life_is_calls<L: Law>()
    ensures { ALifeIsCalls L L.holds }
{}
