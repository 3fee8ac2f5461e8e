ghost use Rattle.std.specs.Prelude.{◌≡◌, ◌≤◌, ◌<◌, ℕ, length, IfOk};
ghost use Rattle.dstm_workload.specs.Writing.{text_of_workload, as_written};
ghost use Rattle.dstm_workload.specs.Workload.{IsValidWorkload};
ghost use Rattle.dstm_gen.specs.Words.{words_of, words_of_seed};
ghost use Rattle.dstm_gen.specs.Generated.{jobs_of, generated};

use crate::random_words::{ACCOUNTS, RandomWords};
use dstm_model::Layout;
use dstm_workload::{Job, Jobs, Workload};
use std::alloc::{AllocError, Global};

// The version of generated workloads.
const VERSION: u32 = 1;

const LAYOUT: Layout = Layout {
    accounts: ACCOUNTS,
    opening: 1_000,
    list: 64,
    tree: 1_023,
};

// The line of the first job in the workload's text.
const FIRST_LINE: u64 = 6;

/// Makes a workload of `count` jobs for `workers` workers, the same for the same seed. Its jobs have 1
/// to 4 operations on a bank of 8 accounts, a list and a tree.
pub fn generate(alloc: Global, seed: u64, count: u32, workers: u32) -> Result<Workload, AllocError>
    requires few_jobs { count ≤ 20000 }
    requires some_worker { 1 ≤ workers }
    requires few_workers { workers ≤ 32 }
    ensures exact { IfOk result (λ workload. workload ≡ generated (words_of_seed seed) count workers) }
    ensures valid { IfOk result IsValidWorkload }
{
    let jobs = jobs(alloc, RandomWords::of_seed(seed), count, workers)?;
    Ok(Workload {
        version: VERSION,
        workers,
        layout: LAYOUT,
        jobs: Jobs::from_vec(jobs),
    })
}

/// The law of lines: the jobs have the lines of the workload's text, so what is read from it is the
/// workload itself.
pub fn lines_of_the_text()
    ensures { (words : ℕ → ℕ) (count workers : ℕ) →
        as_written (generated words count workers) ≡ generated words count workers }
{}

/// The law of length: the text has at most the 4,194,304 bytes that `run` reads.
pub fn short_text()
    ensures { (words : ℕ → ℕ) (count workers : ℕ) → count ≤ 20000 → 1 ≤ workers → workers ≤ 32 →
        length (text_of_workload (generated words count workers)) ≤ 4194304 }
{}

// The jobs, which the workers have in turn.
fn jobs(
    alloc: Global,
    mut words: RandomWords,
    count: u32,
    workers: u32,
) -> Result<Vec<Job>, AllocError>
    requires { 0 < workers }
    ensures { IfOk result (λ jobs. jobs.items ≡ jobs_of (words_of words) count workers) }
{
    let mut jobs = Vec::with_capacity(alloc, count as usize)?;
    for number in 0..count {
        jobs.push(Job {
            line: FIRST_LINE + u64::from(number),
            worker: number % workers,
            ops: words.ops(),
        })?;
    }
    Ok(jobs)
}
