use dstm_model::{Op, Which};
use dstm_workload::Job;
use std::process::Abort;

// The place of a job among these, its line and worker, and its operations.
pub fn expect_job<R: Abort>(rt: &R, jobs: &[Job], place: usize, head: (u64, u32), ops: &[Op]) {
    match jobs.get(place) {
        Some(job) => {
            assert!(rt; (job.line, job.worker) == head, "{job:?}");
            assert!(rt; job.ops.as_slice() == ops, "{job:?}");
        }
        None => panic!(rt; "no job {place}"),
    }
}

pub fn transfer(source: u32, target: u32, amount: u64) -> Op {
    Op::Transfer {
        source,
        target,
        amount,
    }
}

pub fn insert(which: Which, key: u32) -> Op {
    Op::Insert { which, key }
}
