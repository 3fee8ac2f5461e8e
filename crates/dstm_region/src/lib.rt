//! A region of a memory: the run of objects that a list or a tree stands on.
#![tactic(auto)]

mod region;

pub use region::{Region, list_region, tree_region};
