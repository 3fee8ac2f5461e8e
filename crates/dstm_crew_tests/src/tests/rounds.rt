use crate::tests::calls::{call, expect_so, is_lawful, run_lines};
use dstm_crew::{Gate, OpenGate};
use std::alloc::{AllocError, Global};
use std::sync::atomic::{AtomicU64, Ordering};
use std::test::Fail;
use std::thread::Threads;

// A gate that counts its passes, and adds up the lines that it is told.
#[derive(Drop)]
struct Count {
    passes: AtomicU64,
    lines: AtomicU64,
}

impl Gate for Count {
    fn pass(&self, _worker: u32, line: u64) {
        self.passes.fetch_add(1, Ordering::SeqCst);
        self.lines.fetch_add(line, Ordering::SeqCst);
    }
}

// One worker that looks at its balance so often.
fn looks_of_one(alloc: Global, count: u32) -> Result<Vec<u8>, AllocError> {
    let mut text = Vec::from_slice(alloc, b"dstm 1\nbank 1 0\n")?;
    for _job in 0..count {
        text.extend_from_slice(b"tx 0 balance 0\n")?;
    }
    Ok(text)
}

// A caller has 16,384 attempts. The worker's last 3,615 jobs go on in round 2, behind the one of the alone round. The gate is
// passed in round 0 alone: once for each job that was done there, and once for the one that found no attempt left. It is told
// their lines, 3 to 16,387. Both engines give the same report.
#[test]
fn one_worker_takes_three_rounds(rt: HostRuntime) -> Result<(), Fail> {
    let alloc = rt.alloc();
    let workload = looks_of_one(alloc, 20_000)?;
    let gate = Count {
        passes: AtomicU64::new(0),
        lines: AtomicU64::new(0),
    };
    let ran = call(&rt, alloc, "dstm run", &workload, &gate)?;
    assert!(rt; gate.passes.load(Ordering::SeqCst) == 16_385);
    assert!(rt; gate.lines.load(Ordering::SeqCst) == 134_275_075);
    let by_tl2 = call(&rt, alloc, "dstm run --engine tl2", &workload, &OpenGate)?;
    assert!(rt; ran.status == 0);
    assert!(rt; by_tl2.out == ran.out);
    assert!(rt; tells_three_rounds(&ran.out));
    Ok(())
}

fn tells_three_rounds(report: &[u8]) -> bool {
    let Ok(report) = str::from_utf8(report) else {
        return false;
    };
    report.contains("\n16386 0 0.16383 0\n")
        && report.contains("\n16387 0 1.0 0\n16388 0 2.0 0\n")
        && report.contains("\n20002 0 2.3614 0\nbank 0\nend 20000\n")
}

// Tells whether a workload is run by a line, and its report ends so and is lawful.
fn runs_lawfully<R: Threads + Sync>(
    rt: &R,
    alloc: Global,
    line: &str,
    workload: &[u8],
    end: &str,
) -> Result<bool, AllocError> {
    let ran = call(rt, alloc, line, workload, &OpenGate)?;
    let is_so = ran.status == 0 && ran.out.ends_with(end.as_bytes());
    Ok(is_lawful(rt, alloc, workload, &ran.out)? && is_so)
}

// Whatever the engine, the manager, the seed and the other options, the report is lawful.
#[test]
fn reports_are_lawful(rt: HostRuntime) -> Result<(), Fail> {
    let alloc = rt.alloc();
    let all = [
        "",
        " --seed 9 --all-write",
        " --release --seed 18446744073709551615",
    ];
    for (generated, options) in [
        ("dstm gen 7 200 8", all.as_slice()),
        ("dstm gen 7 128 32", &[""]),
    ] {
        let workload = call(&rt, alloc, generated, b"", &OpenGate)?;
        for line in &run_lines(alloc, options)? {
            let is_so = runs_lawfully(&rt, alloc, line, &workload.out, "")?;
            expect_so(&rt, is_so, line, generated);
        }
    }
    Ok(())
}

// A job that waits is woken by what another worker does; of jobs that all wait, one is given up in the alone round.
#[test]
fn blocked_jobs(rt: HostRuntime) -> Result<(), Fail> {
    let alloc = rt.alloc();
    let woken = b"dstm 3\nworkers 2\nbank 2 100\n\
        tx 0 await balance 1 150 ; transfer 1 0 150\ntx 1 transfer 0 1 60\n";
    let branches = b"dstm 3\nworkers 2\nbank 2 100\nlist 8\n\
        tx 0 transfer 0 1 30 ; total\ntx 1 await list 7 ; remove list 7 orelse insert list 7\n";
    let never = b"dstm 3\nworkers 2\nbank 1 5\nlist 4\n\
        tx 0 await balance 0 6\ntx 1 await list 3\ntx 0 insert list 3\n";
    let ends = [
        (woken.as_slice(), "\nbank 190 10\nend 2\n"),
        (branches.as_slice(), "\nbank 70 130\nlist 7\nend 2\n"),
        (
            never.as_slice(),
            "\n5 0 1.0 never\n7 0 1.1 true\n6 1 1.2 true\nbank 5\nlist 3\nend 3\n",
        ),
    ];
    for (workload, end) in ends {
        for line in &run_lines(alloc, &["", " --all-write --seed 9"])? {
            let is_so = runs_lawfully(&rt, alloc, line, workload, end)?;
            expect_so(&rt, is_so, line, end);
        }
    }
    Ok(())
}
