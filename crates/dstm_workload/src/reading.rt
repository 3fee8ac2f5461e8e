ghost use Rattle.std.specs.Prelude.{◌≡◌, ◌<◌, ◌+◌, ◌^◌, Some, length, List, [], ℕ, Err, ◌⊎◌, IfOk, true};
ghost use Rattle.dstm_text.specs.Lines.{lines_of};
ghost use Rattle.dstm_workload.specs.Answers.{Gives, GivesBy};
ghost use Rattle.dstm_workload.specs.Known.{layout_of};
ghost use Rattle.std.specs.List.{list_all};
ghost use Rattle.dstm_workload.specs.Entries.{are_printable, is_clean, worker_count};
ghost use Rattle.dstm_workload.specs.Workload.{IsValidWorkload};
ghost use Rattle.dstm_workload.specs.Reading.{known_of, jobs_after, workload_of, IsFirstRefused, HasNoHeader};
ghost use Rattle.dstm_workload.specs.declared.refused.Refused.{Refused};

use crate::entry::entry;
use crate::known::Known;
use crate::refused::{Refused, Why, WorkloadError};
use crate::workload::{Job, Jobs, Workload};
use dstm_text::Lines;
use std::alloc::Global;

/// Reads the text of a workload.
pub fn read_workload(alloc: Global, bytes: &[u8]) -> Result<Workload, WorkloadError>
    ensures exact { Gives result (workload_of (lines_of bytes.now)) }
    ensures valid { IfOk result IsValidWorkload }
{
    let clean = is_clean(bytes);
    let (known, jobs, after) = entries(alloc, Lines::new(bytes), clean)?;
    let version = known.version.ok_or(Refused {
        line: after,
        why: Why::Header,
    })?;
    Ok(Workload {
        version,
        workers: known.workers.unwrap_or(1),
        layout: known.layout(),
        jobs: Jobs::from_vec(jobs),
    })
}

// Whether all bytes are printable or end lines. Every byte is looked at, so that many can be at once.
fn is_clean(bytes: &[u8]) -> bool
    ensures { result ≡ list_all is_clean bytes.now }
{
    let mut clean = true;
    for byte in bytes {
        clean &= is_clean_byte(*byte);
    }
    clean
}

#[inline(always)]
fn is_clean_byte(byte: u8) -> bool
    ensures { result ≡ is_clean byte }
{
    (b' '..=b'~').contains(&byte) || byte == b'\n'
}

// What all lines tell, their jobs, and the number of the line after them.
fn entries(
    alloc: Global,
    mut lines: Lines<'_>,
    clean: bool,
) -> Result<(Known, Vec<Job>, u64), WorkloadError>
    requires few { length lines < 2 ^ 63 }
    requires clean { clean ≡ true → are_printable lines ≡ true }
    ensures jobs { GivesBy (λ t. t.1.items) result (jobs_after [] lines.entry) }
    ensures told { IfOk result (λ t. t.0 ≡ known_of lines.entry) }
    ensures valid { IfOk result (λ t. (v : ℕ) → t.0.version ≡ Some v → IsValidWorkload (record
        { version = v; workers = worker_count t.0; layout = layout_of t.0; jobs = t.1.items })) }
    ensures after { IfOk result (λ t. t.2 ≡ length lines.entry + 1) }
{
    let mut known = Known::nothing();
    let mut jobs = Vec::new(alloc);
    let mut line = 1;
    while let Some(text) = lines.next() {
        jobs.reserve(1)?;
        match entry(&mut known, &mut jobs, line, text, clean) {
            Ok(()) => line += 1,
            Err(why) => return Err(WorkloadError::Refused(Refused { line, why })),
        }
    }
    Ok((known, jobs, line))
}

/// The law of refusals: a text is refused at its first line that has a reason, and behind its last
/// line where none has one and there is no header.
pub fn first_refusal()
    ensures first { (lines : List (List ℕ)) (r : Refused) →
        workload_of lines ≡ Err r → IsFirstRefused [] lines r ⊎ HasNoHeader lines r }
    ensures refuses { (lines : List (List ℕ)) (r : Refused) →
        IsFirstRefused [] lines r → workload_of lines ≡ Err r }
    ensures headless { (lines : List (List ℕ)) (r : Refused) →
        HasNoHeader lines r → workload_of lines ≡ Err r }
{}
