//! The crew: workers that run the jobs of a workload on tables, round by round, and the report of it.
//!
//! In a parallel round the workers that have jobs left run them beside one another, on a table of their own, and what they
//! did is told in the order of the numbers that their transactions drew. In an alone round one caller runs the first job
//! left of each worker, and gives one up where all are blocked.
#![tactic(auto)]

mod alone;
mod beside;
mod closing;
mod collecting;
mod crew;
mod done;
mod gate;
mod play;
mod playing;
mod progress;
mod retiring;
mod rounds;
mod running;
mod seats;
mod share;
mod sharing;
mod sizing;
mod style;
mod sweeping;
mod trying;
mod worker;

pub use crew::{run_crew, run_crew_packed};
pub use done::Done;
pub use dstm_jobs::Round;
pub use dstm_options::{Engine, Options};
pub use dstm_records::Rounds;
pub use gate::{Gate, OpenGate};
pub use worker::Worker;
