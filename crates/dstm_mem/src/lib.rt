//! The memory that a transaction's body runs on: what a call on it means, the body as a trait, and a
//! memory of one thread.
#![tactic(auto)]

mod body;
mod flat;
mod memory;
mod places;
mod release;
mod size;

pub use body::Body;
pub use flat::{FlatMem, Never};
pub use memory::Mem;
pub use places::{Place, Slot, forget, look, push};
pub use release::{LooseBody, Release, admits_what_it_holds};
pub use size::OfSize;
