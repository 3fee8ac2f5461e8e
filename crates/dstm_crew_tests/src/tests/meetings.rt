use crate::tests::calls::{call, expect_so, is_lawful, run_lines};
use dstm_crew::Gate;
use std::alloc::{AllocError, Global};
use std::sync::atomic::{AtomicU64, Ordering};
use std::test::Fail;
use std::thread::{Threads, yield_now};

// How many of each worker's passes wait for the other one, and how often the gate looks in all.
const HELD: u64 = 100;

const MOST_LOOKS: u64 = 1_000_000_000;

// A gate for two workers: at its first passes each waits until the other one has come as often.
#[derive(Drop)]
struct Meeting {
    first: AtomicU64,
    second: AtomicU64,
    looks: AtomicU64,
    met: AtomicU64,
}

impl Meeting {
    fn make() -> Meeting {
        Meeting {
            first: AtomicU64::new(0),
            second: AtomicU64::new(0),
            looks: AtomicU64::new(0),
            met: AtomicU64::new(0),
        }
    }

    // Waits until the other worker has come so often, and tells whether it has.
    fn waits(&self, other: &AtomicU64, passes: u64) -> bool {
        for _look in 0..MOST_LOOKS {
            if passes <= other.load(Ordering::SeqCst) {
                return true;
            }
            if MOST_LOOKS <= self.looks.fetch_add(1, Ordering::SeqCst) {
                return false;
            }
            yield_now();
        }
        false
    }
}

impl Gate for Meeting {
    fn pass(&self, worker: u32, _line: u64) {
        let (own, other) = if worker == 0 {
            (&self.first, &self.second)
        } else {
            (&self.second, &self.first)
        };
        let before = own.fetch_add(1, Ordering::SeqCst);
        if before < HELD && self.waits(other, before + 1) {
            self.met.fetch_add(1, Ordering::SeqCst);
        }
    }
}

// Two workers that insert the same 50 keys each, and then make 200 transfers each between eight accounts. The transfers
// between two meetings share no account.
fn jobs_of_two(alloc: Global) -> Result<Vec<u8>, AllocError> {
    let mut text = Vec::from_slice(alloc, b"dstm 1\nworkers 2\nbank 8 1000\nlist 64\n")?;
    for i in 0..100_u32 {
        let line = format!(in alloc; "tx {} insert list {}\n", i % 2, i / 2)?;
        text.extend_from_slice(line.as_bytes())?;
    }
    for i in 0..400_u32 {
        let line = format!(in alloc; "tx {} transfer {} {} 1\n", i % 2, i % 8, (i + 3) % 8)?;
        text.extend_from_slice(line.as_bytes())?;
    }
    Ok(text)
}

// The sum of the balances that a report tells.
fn sum_of_balances(report: &[u8]) -> Option<u64> {
    let text = str::from_utf8(report).ok()?;
    let line = text.lines().find(|line| line.starts_with("bank "))?;
    let mut sum: u64 = 0;
    for field in line.split(' ').skip(1) {
        sum = sum.checked_add(field.parse().ok()?)?;
    }
    Some(sum)
}

// Tells whether a report has balances of this sum, and this line.
fn tells(report: &[u8], sum: u64, line: &str) -> bool {
    sum_of_balances(report) == Some(sum)
        && str::from_utf8(report).is_ok_and(|text| text.contains(line))
}

// The line of a list that has all keys below this number.
fn line_of_keys(alloc: Global, keys: u32) -> Result<String, AllocError> {
    let mut line = String::from_str(alloc, "\nlist")?;
    for key in 0..keys {
        line.push_str(&format!(in alloc; " {key}")?)?;
    }
    line.push_str("\n")?;
    Ok(line)
}

// Tells whether both workers meet at each wait, and the report on their jobs is lawful and tells these keys.
fn all_meet<R: Threads + Sync>(
    rt: &R,
    alloc: Global,
    line: &str,
    workload: &[u8],
    keys: &str,
) -> Result<bool, AllocError> {
    let gate = Meeting::make();
    let ran = call(rt, alloc, line, workload, &gate)?;
    let is_so = ran.status == 0
        && gate.met.load(Ordering::SeqCst) == 200
        && tells(&ran.out, 8_000, keys);
    Ok(is_lawful(rt, alloc, workload, &ran.out)? && is_so)
}

// Both workers are under way at once: each of the 200 waits at the gate ends since the other worker has come.
#[test]
fn two_workers_meet(rt: HostRuntime) -> Result<(), Fail> {
    let alloc = rt.alloc();
    let workload = jobs_of_two(alloc)?;
    let keys = line_of_keys(alloc, 50)?;
    for line in &run_lines(alloc, &["", " --all-write", " --release"])? {
        let is_so = all_meet(&rt, alloc, line, &workload, &keys)?;
        expect_so(&rt, is_so, line, "not all meet");
    }
    Ok(())
}
