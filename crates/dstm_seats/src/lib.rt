//! The words that threads share, for any machine. Each load, store, exchange and add on them is one event, the
//! last one of the log that its seat has seen, and that log is a run of the machine.
#![tactic(auto)]

mod view;
mod words;

pub use view::{MachineSeat, Old, View};
pub use words::{Left, Words};
