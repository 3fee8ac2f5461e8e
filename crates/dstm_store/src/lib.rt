//! A whole store on a memory: the bank, the list and the tree side by side. What a map of it stands for,
//! its operations, its opening values, what its values hold, and the body of a job.
#![tactic(auto)]

mod job;
mod law;
mod lists;
mod loose;
mod opened;
mod read;
mod run;

pub use job::{JobBody, JobTask, run_all};
pub use law::{StoreLaw, stands_for_one};
pub use lists::{HandOverHand, KeepsReads, ListWalk};
pub use loose::LooseJobBody;
pub use opened::opening;
pub use read::read_state;
pub use run::{run_op, run_with};
