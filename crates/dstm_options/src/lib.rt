//! How a workload is run, and which engine runs it.
#![tactic(auto)]

mod options;

pub use options::{Engine, Options};
