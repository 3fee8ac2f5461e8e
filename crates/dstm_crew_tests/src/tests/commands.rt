use crate::tests::calls::{Devices, Ran, SOUND, call_on, expect_so, is_lawful};
use dstm_cli::{check_takes_reports, run_takes_generated};
use dstm_crew::OpenGate;
use std::alloc::{AllocError, Global};
use std::process::Abort;
use std::test::Fail;
use std::thread::Threads;

fn run_on<R: Threads + Sync>(
    rt: &R,
    alloc: Global,
    line: &str,
    input: &[u8],
    devices: Devices<'_>,
) -> Result<Ran, AllocError> {
    call_on(rt, alloc, line, input, &OpenGate, devices)
}

// What a call is to answer: its status, and what it writes to `out` and to `err`.
type Answer<'a> = (u8, &'a str, &'a str);

fn answers(ran: &Ran, want: Answer<'_>) -> bool {
    let (status, out, err) = want;
    ran.status == status
        && ran.out.as_slice() == out.as_bytes()
        && ran.err.as_slice() == err.as_bytes()
}

fn expect<R: Abort + Threads + Sync>(
    rt: &R,
    alloc: Global,
    line: &str,
    input: &[u8],
    want: Answer<'_>,
) -> Result<(), AllocError> {
    let ran = run_on(rt, alloc, line, input, SOUND)?;
    let short = input.get(..200).unwrap_or(input);
    expect_so(rt, answers(&ran, want), line, text_of(short));
    Ok(())
}

fn text_of(bytes: &[u8]) -> &str {
    match str::from_utf8(bytes) {
        Ok(text) => text,
        Err(_) => "bytes",
    }
}

const FIRST: &str = "dstm 1\nbank 2 100\ntx 0 transfer 0 1 30\n";

const FIRST_REPORT: &str = "dstm report 1\n3 0 0.0 ok\nbank 70 130\nend 1\n";

const TWO_TRANSFERS: &str = "dstm 1\nbank 2 100\ntx 0 transfer 0 1 80 ; transfer 0 1 80\n";

const ONE_KEY: &str = "dstm 1\nlist 1\ntx 0 insert list 5\ntx 0 insert list 5\n\
    tx 0 insert list 6\ntx 0 remove list 5\ntx 0 insert list 6\n";

#[test]
fn workloads_are_run(rt: HostRuntime) -> Result<(), Fail> {
    let rows = [
        (FIRST, FIRST_REPORT),
        ("dstm 1\nbank 2 100\ntx 0 transfer 0 1 30", FIRST_REPORT),
        ("dstm 1\n", "dstm report 1\nend 0\n"),
        (
            TWO_TRANSFERS,
            "dstm report 1\n3 0 0.0 ok ; poor\nbank 20 180\nend 1\n",
        ),
        (
            ONE_KEY,
            "dstm report 1\n3 0 0.0 true\n4 0 0.1 false\n5 0 0.2 full\n6 0 0.3 true\n7 0 0.4 true\n\
             list 6\nend 5\n",
        ),
        (
            "dstm 2\ntree 2\ntx 0 put 5 9\ntx 0 put 5 8\ntx 0 get 5 ; get 6\n\
             tx 0 insert tree 5 ; insert tree 6 ; put 7 1\ntx 0 get 6\n",
            "dstm report 2\n3 0 0.0 true\n4 0 0.1 false\n5 0 0.2 8 ; none\n\
             6 0 0.3 false ; true ; full\n7 0 0.4 0\ntree 5:8 6:0\nend 5\n",
        ),
        (
            "dstm 3\nbank 1 5\ntx 0 await balance 0 6\ntx 0 balance 0\n",
            "dstm report 3\n3 0 1.0 never\n4 0 1.1 5\nbank 5\nend 2\n",
        ),
        (
            "dstm 3\nbank 2 100\n\
             tx 0 await balance 0 150 ; transfer 0 1 1 orelse transfer 1 0 60\n\
             tx 0 await balance 0 150 ; total\n",
            "dstm report 3\n3 0 0.0 ok\n4 0 0.1 true ; 200\nbank 160 40\nend 2\n",
        ),
    ];
    // With one worker the reports of both engines are the same.
    for (input, report) in rows {
        for line in ["dstm run", "dstm run --engine tl2"] {
            expect(&rt, rt.alloc(), line, input.as_bytes(), (0, report, ""))?;
        }
    }
    Ok(())
}

#[test]
fn a_large_bank_is_run(rt: HostRuntime) -> Result<(), Fail> {
    let input = b"dstm 1\nbank 4096 1000000000\ntx 0 total\n";
    let begin = b"dstm report 1\n3 0 0.0 4096000000000\nbank 1000000000 ";
    let large = run_on(&rt, rt.alloc(), "dstm run", input, SOUND)?;
    assert!(rt; large.status == 0);
    assert!(rt; large.out.starts_with(begin));
    Ok(())
}

#[test]
fn workloads_are_refused(rt: HostRuntime) -> Result<(), Fail> {
    let rows = [
        ("", "1: header"),
        ("dstm 1\nworkers 1\ntx 1 total\n", "3: out of range"),
        ("dstm 2\ntx 0 get 5\n", "2: undeclared"),
        ("dstm 1\nbank 2 100\ntx 0 total ;\n", "3: missing"),
        ("dstm 1\nbank 2 100\ntx 0 total 5\n", "3: extra"),
        ("dstm 1\nbank 2 100\ntx 0 balance 01\n", "3: number"),
        ("dstm 1\nbank 2 100\nbank 2 100\n", "3: twice"),
        ("dstm 1\nbank 2 100\nqueue 3\n", "3: unknown"),
        ("dstm 1\nbank 1 1\ntx 0 total\nlist 1\n", "4: late"),
        (
            "dstm 1\nbank 1 5\ntx 0 total ; total ; total ; total ; total ; total ; total ; total ; total\n",
            "3: too many",
        ),
        ("dstm 1\r\n", "1: bytes"),
    ];
    for (input, refusal) in rows {
        let told = format!(in rt.alloc(); "dstm: line {refusal}\n")?;
        expect(
            &rt,
            rt.alloc(),
            "dstm run",
            input.as_bytes(),
            (2, "", &told),
        )?;
    }
    Ok(())
}

// A text, and then so many bytes of one kind.
fn padded(alloc: Global, text: &[u8], byte: u8, count: usize) -> Result<Vec<u8>, AllocError> {
    let mut input = Vec::from_slice(alloc, text)?;
    input.resize(input.len().saturating_add(count), byte)?;
    Ok(input)
}

#[test]
fn inputs_of_any_bytes_and_size(rt: HostRuntime) -> Result<(), Fail> {
    let header = (2, "", "dstm: line 2: header\n");
    let too_long = (2, "", "dstm: input too long\n");
    // A line, how the input begins, the byte that comes then, how often, and the answer.
    let rows: [(&str, &[u8], u8, usize, Answer<'_>); 5] = [
        (
            "dstm run",
            b"#\xC8\ndstm  1",
            b'1',
            0,
            (0, "dstm report 1\nend 0\n", ""),
        ),
        (
            "dstm run",
            b"dstm 1\nbank 1 5\ntx 0",
            b' ',
            4_000_000,
            (2, "", "dstm: line 3: missing\n"),
        ),
        ("dstm run", b"", b'#', 4_194_304, header),
        ("dstm run", b"", b'#', 4_194_305, too_long),
        ("dstm check", b"", b'#', 4_194_305, header),
    ];
    for (line, text, byte, count, want) in rows {
        let input = padded(rt.alloc(), text, byte, count)?;
        expect(&rt, rt.alloc(), line, &input, want)?;
    }
    Ok(())
}

#[test]
fn a_number_of_any_length(rt: HostRuntime) -> Result<(), Fail> {
    let mut input = padded(rt.alloc(), b"dstm 1\nbank ", b'9', 1_000)?;
    input.extend_from_slice(b" 5\n")?;
    let large = (2, "", "dstm: line 2: out of range\n");
    expect(&rt, rt.alloc(), "dstm run", &input, large)?;
    Ok(())
}

#[test]
fn reports_are_checked(rt: HostRuntime) -> Result<(), Fail> {
    let rows = [
        (
            TWO_TRANSFERS,
            "---\ndstm report 1\n3 0 0.0 ok ; ok\nbank 20 180\nend 1\n",
            (6, "not lawful: line 2\n", ""),
        ),
        (
            TWO_TRANSFERS,
            "---\ndstm report 1\n3 0 0.0 ok ; poor\nbank 20 180\nend 1\n",
            (0, "lawful\n", ""),
        ),
        (
            TWO_TRANSFERS,
            "---\ndstm report 1\n3 0 0.0 ok ; poor\nbank 20 180\n",
            (2, "", "dstm: report line 4: form\n"),
        ),
        (TWO_TRANSFERS, "", (2, "", "dstm: line 4: no report\n")),
        (
            "dstm 2\n",
            "---\ndstm report 1\nend 0\n",
            (2, "", "dstm: report line 1: form\n"),
        ),
        (
            "dstm 1\n",
            "---\ndstm report 1\n---\nend 0\n",
            (2, "", "dstm: report line 2: form\n"),
        ),
        ("dstm 1\n", "---", (2, "", "dstm: report line 1: form\n")),
        ("dstm 7\n", "---\n", (2, "", "dstm: line 1: header\n")),
    ];
    for (workload, report, want) in rows {
        let input = format!(in rt.alloc(); "{workload}{report}")?;
        expect(&rt, rt.alloc(), "dstm check", input.as_bytes(), want)?;
    }
    Ok(())
}

#[test]
fn words_of_the_line(rt: HostRuntime) -> Result<(), Fail> {
    let usage = (1, "", "usage: dstm run, check, gen or demo\n");
    let rows = [
        ("dstm", usage),
        ("dstm run --engine tl2 --release", usage),
        (
            "dstm run --manager=karma --all-write",
            (0, FIRST_REPORT, ""),
        ),
    ];
    for (line, want) in rows {
        expect(&rt, rt.alloc(), line, FIRST.as_bytes(), want)?;
    }
    Ok(())
}

#[test]
fn generated_workloads(rt: HostRuntime) -> Result<(), Fail> {
    let rows = [
        (
            "dstm gen 7 0 1",
            "dstm 1\nworkers 1\nbank 8 1000\nlist 64\ntree 1023\n",
        ),
        // The lines come from a program of its own, in Python, that has PCG's generator XSH RR 64/32.
        (
            "dstm gen 7 3 2",
            "dstm 1\nworkers 2\nbank 8 1000\nlist 64\ntree 1023\n\
             tx 0 remove list 29 ; total\ntx 1 balance 4\ntx 0 transfer 0 4 186\n",
        ),
        ("dstm demo 7 0 1", "transactions 0\ntotal 8000\nlawful\n"),
        (
            "dstm demo 7 20000 8",
            "transactions 20000\ntotal 8000\nlawful\n",
        ),
    ];
    for (line, out) in rows {
        expect(&rt, rt.alloc(), line, b"", (0, out, ""))?;
    }
    Ok(())
}

#[test]
fn what_is_generated_and_reported_is_taken(_rt: HostRuntime) {
    run_takes_generated();
    check_takes_reports();
}

// Tells whether a run of the first workload on these devices answers so.
fn runs_first<R: Threads + Sync>(
    rt: &R,
    alloc: Global,
    devices: Devices<'_>,
    want: Answer<'_>,
) -> Result<bool, AllocError> {
    let ran = run_on(rt, alloc, "dstm run", FIRST.as_bytes(), devices)?;
    Ok(answers(&ran, want))
}

// A run reads twice, the second time to see the end, and writes once.
#[test]
fn failing_devices(rt: HostRuntime) -> Result<(), Fail> {
    let read_fault = (3, "", "dstm: read fault\n");
    let rows: [(&[u64], &[u64], usize, Answer<'_>); 4] = [
        (&[0], &[], 1_000_000, read_fault),
        (&[1], &[], 1_000_000, read_fault),
        (&[], &[0], 1_000_000, (4, "", "dstm: write fault\n")),
        (&[2], &[1], FIRST_REPORT.len(), (0, FIRST_REPORT, "")),
    ];
    for (read_fails, write_fails, room, want) in rows {
        let devices = Devices {
            read_fails,
            write_fails,
            room,
        };
        assert!(rt; runs_first(&rt, rt.alloc(), devices, want)?);
    }
    Ok(())
}

#[test]
fn a_sink_without_room(rt: HostRuntime) -> Result<(), Fail> {
    let report = FIRST_REPORT.as_bytes();
    for room in 0..report.len() {
        let devices = Devices { room, ..SOUND };
        let want = (4, str::from_utf8(&report[..room])?, "dstm: write fault\n");
        assert!(rt; runs_first(&rt, rt.alloc(), devices, want)?);
    }
    Ok(())
}

// Tells whether an input is refused without a report, or else run to a lawful one.
fn is_refused_or_lawful<R: Threads + Sync>(
    rt: &R,
    alloc: Global,
    input: &[u8],
) -> Result<bool, AllocError> {
    let ran = run_on(rt, alloc, "dstm run", input, SOUND)?;
    if ran.status != 0 {
        return Ok(ran.status == 2 && ran.out.is_empty());
    }
    let workload = padded(alloc, input, b'\n', 1)?;
    is_lawful(rt, alloc, &workload, &ran.out)
}

#[test]
fn cut_inputs(rt: HostRuntime) -> Result<(), Fail> {
    let input = ONE_KEY.as_bytes();
    for length in 0..input.len() {
        assert!(rt; is_refused_or_lawful(&rt, rt.alloc(), &input[..length])?);
    }
    Ok(())
}
