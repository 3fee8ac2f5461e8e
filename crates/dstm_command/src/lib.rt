//! The words of the command line: which command they name, with its options and numbers.
#![tactic(auto)]

mod command;
mod numbers;
mod options;
mod parser;
mod values;
mod words;

pub use command::{Command, GenSpec, WordsError};
pub use words::read_words;
