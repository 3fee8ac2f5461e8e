//! Workloads and their texts.
#![tactic(auto)]

mod declarations;
mod entry;
mod fields;
mod known;
mod operations;
mod reading;
mod refused;
mod word;
mod workload;
mod writing;

pub use operations::operations_by_fields;
pub use reading::{first_refusal, read_workload};
pub use refused::{Refused, Why, WorkloadError};
pub use workload::{Job, Jobs, MAX_JOBS, MAX_OPS, MAX_WORKERS, VERSIONS, Workload};
pub use writing::{before_a_mark, read_back, write_workload};
