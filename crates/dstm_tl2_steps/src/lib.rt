//! The calls of a caller of TL2, step by step: to read, to lock what is written, to give back, and to commit.
#![tactic(auto)]

mod counting;
mod finishing;
mod giving_back;
mod locking;
mod opened;
mod places;
mod reading;
mod steps;

pub use counting::CallerSeat;
pub use opened::{Opened, ReadSlot};
pub use places::Places;
pub use steps::{InCall, Steps};
