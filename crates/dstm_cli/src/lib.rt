//! The commands of `dstm`, over any source and sinks of bytes.
#![tactic(auto)]

mod command;
mod failure;
mod heap;
mod input;
mod laws;
mod output;

pub use command::dstm;
pub use failure::Failure;
pub use input::{CHECK_LIMIT, RUN_LIMIT};
pub use laws::{check_takes_reports, run_takes_generated};
