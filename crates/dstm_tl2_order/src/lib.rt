//! The order of steps of the calls of TL2: which event of its machine is due after each event of a call, and what a call
//! answers.
#![tactic(auto)]

mod again;
pub mod laws;

pub use again::TlAgain;
