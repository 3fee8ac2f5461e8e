//! The operations of the linked list on a memory whose reads can be let go. They walk hand over hand: a walk
//! keeps the last two nodes that it opened, and lets go what it read before them. Beside what dstm_list promises
//! they keep every read that stood before the call; all that they promise holds of each map that has the values of
//! the reads that are kept.
#![tactic(auto)]

mod layout;
mod region;
mod stop;
mod walk;

pub use layout::{insert, member, remove};
pub use region::{insert_in, member_in, remove_in};
