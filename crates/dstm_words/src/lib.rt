//! The words that threads share. Each load, store, exchange and add on them is one event, the last one of
//! the log that its seat has seen, and that log is a core run.
#![tactic(auto)]

mod machine;
mod terms;
mod words;
mod zeros;

pub use dstm_seats::Left;
pub use machine::{Core, CoreSeat};
pub use terms::Terms;
pub use words::Words;
pub use zeros::Zeros;
