//! Traces of events on shared words, runs of a machine: traces of several callers that each follow its local rules; and
//! their histories: what the attempts that commit have read and written, in the order of their draws, with the caller and
//! the number of each.
#![tactic(auto)]

mod access;
mod event;
pub mod laws;
mod machine;

pub use event::Event;
pub use machine::Machine;
