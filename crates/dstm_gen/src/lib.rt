//! Generated workloads: what a seed stands for, as large as it is asked for.
#![tactic(auto)]

mod random_words;
mod workload;

pub use workload::{generate, lines_of_the_text, short_text};
