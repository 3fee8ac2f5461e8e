//! Laws on definitions of progress, each shown by computing one run. The functions do nothing.

ghost use Rattle.dstm_engine_tests.specs.Progress.{OnlyLiveOnesCount, StandsAtItsObject};

/// The oldest is older than each other live one, and only live ones count: caller 1 begins as the oldest beside caller 0,
/// whose rank is less and whose transaction has committed.
pub fn only_live_ones_count()
    ensures { OnlyLiveOnesCount }
{}

/// The cause of a `Stale` is an event at the object that it names: a call that found object 0 changed has the cause of a
/// `Stale` of object 0, and of no other.
pub fn a_cause_stands_at_its_object()
    ensures { StandsAtItsObject }
{}
