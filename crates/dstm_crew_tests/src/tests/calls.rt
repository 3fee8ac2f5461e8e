use dstm_cli::dstm;
use dstm_crew::{Gate, OpenGate, Rounds};
use dstm_io::{MemorySink, MemorySource};
use std::alloc::{AllocError, Global};
use std::process::Abort;
use std::thread::Threads;

// The calls of a source and of `out` that fail, and how many bytes `out` has room for.
#[derive(Clone, Copy)]
pub struct Devices<'a> {
    pub read_fails: &'a [u64],
    pub write_fails: &'a [u64],
    pub room: usize,
}

pub const SOUND: Devices<'static> = Devices {
    read_fails: &[],
    write_fails: &[],
    room: 1_000_000,
};

// What a call answered and wrote.
#[derive(Drop)]
pub struct Ran {
    pub status: u8,
    pub out: Vec<u8>,
    pub err: Vec<u8>,
}

// Calls the program with the words of a line.
pub fn call<R: Threads + Sync, G: Gate + Sync>(
    rt: &R,
    alloc: Global,
    line: &str,
    input: &[u8],
    gate: &G,
) -> Result<Ran, AllocError> {
    call_on(rt, alloc, line, input, gate, SOUND)
}

// The same with these devices.
pub fn call_on<R: Threads + Sync, G: Gate + Sync>(
    rt: &R,
    alloc: Global,
    line: &str,
    input: &[u8],
    gate: &G,
    devices: Devices<'_>,
) -> Result<Ran, AllocError> {
    let words = words_of(alloc, line)?;
    let mut source = MemorySource::make(alloc, input, devices.read_fails)?;
    let mut out = sink_of(alloc, devices.write_fails, devices.room)?;
    let mut err = sink_of(alloc, &[], 100)?;
    let status = status_of(rt, alloc, &words, &mut source, &mut out, &mut err, gate);
    ran_of(alloc, status, out.taken(), err.taken())
}

// The words of a line, cut at its spaces.
pub fn words_of(alloc: Global, line: &str) -> Result<Vec<String>, AllocError> {
    let mut words = Vec::new(alloc);
    for word in line.split(' ') {
        words.push(String::from_str(alloc, word)?)?;
    }
    Ok(words)
}

// A sink with room for so many bytes.
fn sink_of(alloc: Global, write_fails: &[u64], room: usize) -> Result<MemorySink, AllocError> {
    let mut sink = MemorySink::make(alloc, write_fails)?;
    sink.reserve(room)?;
    Ok(sink)
}

fn ran_of(alloc: Global, status: u8, out: &[u8], err: &[u8]) -> Result<Ran, AllocError> {
    Ok(Ran {
        status,
        out: Vec::from_slice(alloc, out)?,
        err: Vec::from_slice(alloc, err)?,
    })
}

// Calls the program, by a contract that says nothing of what it writes: the tests look at that.
fn status_of<R: Threads + Sync, G: Gate + Sync>(
    rt: &R,
    alloc: Global,
    words: &[String],
    source: &mut MemorySource,
    out: &mut MemorySink,
    err: &mut MemorySink,
    gate: &G,
) -> u8 {
    let mut rounds = Rounds::make(alloc);
    dstm(rt, alloc, words, source, out, err, gate, &mut rounds)
}

// Asserts that something is so, of a line on an input or with an end.
pub fn expect_so<R: Abort>(rt: &R, is_so: bool, line: &str, text: &str) {
    assert!(rt; is_so, "{line}: {text}");
}

// Lines that run a workload: by DSTM under each manager, with each of these options, and by TL2.
pub fn run_lines(alloc: Global, options: &[&str]) -> Result<Vec<String>, AllocError> {
    let mut lines = vec![in alloc; String::from_str(alloc, "dstm run --engine tl2")?]?;
    for manager in ["polite", "karma", "polka", "greedy"] {
        for option in options {
            lines.push(format!(in alloc; "dstm run --manager {manager}{option}")?)?;
        }
    }
    Ok(lines)
}

// Tells whether `check` finds the report on a workload lawful.
pub fn is_lawful<R: Threads + Sync>(
    rt: &R,
    alloc: Global,
    workload: &[u8],
    report: &[u8],
) -> Result<bool, AllocError> {
    let case = case_of(alloc, workload, report)?;
    let checked = call(rt, alloc, "dstm check", &case, &OpenGate)?;
    Ok(checked.status == 0 && checked.out.as_slice() == b"lawful\n".as_slice())
}

// A workload, the line `---` and a report on it.
fn case_of(alloc: Global, workload: &[u8], report: &[u8]) -> Result<Vec<u8>, AllocError> {
    let mut case = Vec::from_slice(alloc, workload)?;
    case.extend_from_slice(b"---\n")?;
    case.extend_from_slice(report)?;
    Ok(case)
}
