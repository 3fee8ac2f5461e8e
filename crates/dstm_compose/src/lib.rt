//! The body of a job with branches: it looks at their conditions in order and runs the first branch that is
//! open, or is blocked.
#![tactic(auto)]

mod body;
mod branch;

pub use body::{CompBody, Outcome};
