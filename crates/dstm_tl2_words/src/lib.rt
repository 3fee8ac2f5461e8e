//! The words that threads share under TL2. Each load, store, exchange and add on them is one event, the last one
//! of the log that its seat has seen, and that log is a lawful run.
#![tactic(auto)]

mod machine;
mod words;

pub use dstm_seats::Left;
pub use machine::{Tl2, Tl2Seat};
pub use words::Words;
