//! A law of what the callers of a table have committed, whatever machine they run on.

ghost use Rattle.dstm_model.specs.Answers.{CallersTellAll};

/// Attempts in the order of their numbers are told by what each caller's are.
pub fn callers_tell_all()
    ensures { CallersTellAll }
{}
