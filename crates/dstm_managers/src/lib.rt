//! Contention managers: what an attempt does about an enemy, another attempt that has an object open
//! for writing.
#![tactic(auto)]

mod decider;
pub mod laws;

pub use decider::{Choice, Decider};
