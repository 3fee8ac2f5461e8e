//! What the calls of a caller add up to: its life is calls that follow the order of steps, one after the other. The
//! functions do nothing.

ghost use Rattle.std.specs.Prelude.{Bool};
ghost use Rattle.dstm_core.specs.State.{LocalState};
ghost use Rattle.dstm_engine.specs.Lives.{ALifeIsCalls, AttemptsAreCalls, CallsAddUp};
ghost use Rattle.dstm_order.specs.Tasks.{Task};

use dstm_model::Law;

/// Each call of the engine adds one to the calls of its caller.
pub fn calls_add_up<L: Law>()
    ensures { (may : (state : LocalState) (task : Task) → Bool) → CallsAddUp L L.holds may }
{}

/// An attempt is some calls, of which none opens for reading where all opens are for writing, and the next one of its caller
/// is of a new transaction exactly where it has committed.
pub fn attempts_are_calls<L: Law>()
    ensures { AttemptsAreCalls L L.holds }
{}

/// So is the whole life of a caller, from the generator of its seed on.
pub fn a_life_is_calls<L: Law>()
    ensures { ALifeIsCalls L L.holds }
{}
