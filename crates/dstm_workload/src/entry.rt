ghost use Rattle.std.specs.Prelude.{◌≡◌, ◌<◌, ◌∷◌, [], Some, true, vec_len, vec_capacity};
ghost use Rattle.std.specs.List.{list_all};
ghost use Rattle.dstm_text.specs.Results.{IsRead};
ghost use Rattle.dstm_workload.specs.Known.{kept_where, kept_if_told};
ghost use Rattle.dstm_workload.specs.Operations.{ops_at};
ghost use Rattle.dstm_workload.specs.Entries.{entry_of, header_of, body_at, transaction_at, is_comment, is_printable};

use crate::declarations::{bank, list, tree, workers};
use crate::fields::number;
use crate::known::Known;
use crate::operations::operations;
use crate::refused::Why;
use crate::word::{Word, first_field};
use crate::workload::{Job, MAX_JOBS, VERSIONS};
use dstm_model::Ops;
use dstm_text::{Fields, decimal};

/// Keeps what a line tells, a job in the room behind the others. It is read where it stands.
#[tactic(auto, unfolding(crate::specs::Entries::entry_of))]
pub fn entry(
    known: &mut Known,
    jobs: &mut Vec<Job>,
    line: u64,
    text: &[u8],
    clean: bool,
) -> Result<(), Why>
    requires room { vec_len jobs.old < vec_capacity jobs.old }
    requires clean { clean ≡ true → list_all is_printable text.now ≡ true }
    ensures { IsRead result (λ _. (known.new, jobs.new.items))
        (kept_if_told known.old jobs.old.items (entry_of known.old line text.now)) }
{
    if is_comment(text) {
        return Ok(());
    }
    let mut fields = Fields::new(text);
    let Some(first) = first_field(&mut fields) else {
        return Ok(());
    };
    if !is_line_printable(text, clean) {
        return Err(Why::Bytes);
    }
    match known.version {
        None => {
            known.version = Some(header(first, &mut fields).ok_or(Why::Header)?);
            Ok(())
        }
        Some(version) => body(first, &mut fields, known, jobs, version, line),
    }
}

fn is_comment(text: &[u8]) -> bool
    ensures { result ≡ is_comment text.now }
{
    match text {
        [b'#', ..] => true,
        _ => false,
    }
}

// Every byte is looked at, so that many can be at once.
fn is_printable(text: &[u8]) -> bool
    ensures { result ≡ list_all is_printable text.now }
{
    let mut printable = true;
    for byte in text {
        printable &= (b' '..=b'~').contains(byte);
    }
    printable
}

// The same of a line that may be known to be printable.
#[inline(always)]
fn is_line_printable(text: &[u8], known: bool) -> bool
    requires { known ≡ true → list_all is_printable text.now ≡ true }
    ensures { result ≡ list_all is_printable text.now }
{
    known || is_printable(text)
}

// The version of a header, of which the first field was taken.
fn header(name: &[u8], fields: &mut Fields<'_>) -> Option<u32>
    ensures { result ≡ header_of (name.now ∷ fields.old) }
{
    let version = fields.next()?;
    if fields.next().is_some() || name != b"dstm".as_slice() {
        return None;
    }
    let version = decimal(version).ok()?;
    if 1 <= version && version <= u64::from(VERSIONS) {
        Some(version as u32)
    } else {
        None
    }
}

// A line behind the header, of which the first field was taken.
#[tactic(auto, unfolding(crate::specs::Entries::body_at))]
fn body(
    name: &[u8],
    fields: &mut Fields<'_>,
    known: &mut Known,
    jobs: &mut Vec<Job>,
    version: u32,
    line: u64,
) -> Result<(), Why>
    requires { vec_len jobs.old < vec_capacity jobs.old }
    ensures { IsRead result (λ _. (known.new, jobs.new.items))
        (kept_where known.old jobs.old.items (body_at version known.old line (name.now ∷ fields.old))) }
{
    match Word::of(name, version) {
        Some(Word::Workers) => workers(fields, known),
        Some(Word::Bank) => bank(fields, known),
        Some(Word::List) => list(fields, known),
        Some(Word::Tree) => tree(fields, known),
        Some(Word::Tx) => transaction(fields, known, jobs, version, line),
        _ => Err(Why::Unknown),
    }
}

#[tactic(auto, unfolding(crate::specs::Entries::transaction_at))]
fn transaction(
    fields: &mut Fields<'_>,
    known: &mut Known,
    jobs: &mut Vec<Job>,
    version: u32,
    line: u64,
) -> Result<(), Why>
    requires { vec_len jobs.old < vec_capacity jobs.old }
    ensures { IsRead result (λ _. (known.new, jobs.new.items))
        (kept_where known.old jobs.old.items (transaction_at version known.old line fields.old)) }
{
    if known.transactions >= MAX_JOBS {
        return Err(Why::TooMany);
    }
    let workers = known.workers.unwrap_or(1);
    let worker = number(fields, 0, u64::from(workers.saturating_sub(1)))?;
    let last = jobs.len();
    jobs.push_reserved(Job::blank());
    fill(&mut jobs[last], line, worker as u32, fields, known, version)?;
    known.transactions += 1;
    Ok(())
}

impl Job {
    // A job that nothing was read of.
    fn blank() -> Job
        ensures { result.ops ≡ [] }
    {
        Job {
            line: 0,
            worker: 0,
            ops: Ops::new(),
        }
    }
}

// Reads the operations of a blank job, and gives it its line and its worker.
fn fill(
    job: &mut Job,
    line: u64,
    worker: u32,
    fields: &mut Fields<'_>,
    known: &Known,
    version: u32,
) -> Result<(), Why>
    requires { job.old.ops ≡ [] }
    ensures read { IsRead result (λ _. job.new.ops) (ops_at version known.now fields.old) }
    ensures place { job.new ≡ record { line = line; worker = worker; ops = job.new.ops } }
{
    job.line = line;
    job.worker = worker;
    operations(&mut job.ops, fields, known, version)
}
