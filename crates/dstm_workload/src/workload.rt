use dstm_model::{Layout, Listed, Ops};

/// The newest version of workloads; the oldest is 1.
pub const VERSIONS: u32 = 3;

/// The greatest number of workers.
pub const MAX_WORKERS: u32 = 32;

/// The greatest number of jobs.
pub const MAX_JOBS: usize = 20_000;

/// The greatest number of a job's operations.
pub const MAX_OPS: usize = 8;

/// A transaction of a workload.
#[derive(Debug, Drop)]
pub struct Job {
    /// The line on which it stands, from 1.
    pub line: u64,
    /// The worker that runs it, from 0.
    pub worker: u32,
    pub ops: Ops,
}

/// A list of jobs.
pub type Jobs = Listed<Job>;

/// What a run has to do.
#[derive(Debug, Drop)]
pub struct Workload {
    /// The version of its text, which says which operations there are.
    pub version: u32,
    /// How many workers there are.
    pub workers: u32,
    pub layout: Layout,
    /// The jobs in the order of their lines.
    pub jobs: Jobs,
}
