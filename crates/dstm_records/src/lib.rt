//! The rounds of a run: how large their tables are, what is kept of them, and what it says that the records of rounds stand
//! for a report.
#![tactic(auto)]

pub mod laws;
mod round;
mod shape;

pub use round::Rounds;
pub use shape::shape_for;
