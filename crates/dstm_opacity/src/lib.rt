//! Opacity: every attempt of a core run, also one that aborts, sees the values that the committed
//! transactions before it leave, as if each had run alone, one after the other.
//!
//! The laws stand over every core run as `dstm_core` defines them, and so over every way in which the
//! callers' events can interleave. Validation is covered in both of its forms: each object read has
//! the word that was found, or no number was drawn since the last complete pass began.
#![tactic(auto)]

pub mod laws;

ghost use Rattle.dstm_opacity.specs.Contest.{SomeContest};
ghost use Rattle.dstm_opacity.specs.Example.{SomeRun};

/// There is a core run with two committed writers of one object and a reader that commits by the
/// number alone, so the laws speak of something.
pub fn some_run()
    ensures { SomeRun }
{}

/// There is a core run of a law that not every map obeys, under Karma: one attempt aborts another, a rank
/// rises, a read is let go, and the attempt that is left commits.
pub fn some_contest()
    ensures { SomeContest }
{}
