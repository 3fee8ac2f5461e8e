use dstm_model::Reply;
use dstm_report::*;
use dstm_workload::read_workload;
use std::alloc::{AllocError, Global};
use std::test::Fail;

const EVERY_LINE: &str =
    "dstm report 3\n3 1 2.7 ok ; poor ; 42 ; true ; false ; full ; none ; never\n\
        bank 70 130\nlist\ntree 5:8\nend 1\n";

// Tells whether this is the text of a report.
fn is_text_of(alloc: Global, text: &str, report: &Report) -> Result<bool, AllocError> {
    let rendered = render(alloc, report)?;
    Ok(rendered.as_slice() == text.as_bytes())
}

fn is_every_line(row: &Row) -> bool {
    let replies = [
        Reply::Moved,
        Reply::Poor,
        Reply::Number(42),
        Reply::Yes,
        Reply::No,
        Reply::Full,
        Reply::Absent,
        Reply::Never,
    ];
    (row.line, row.worker, row.round, row.number) == (3, 1, 2, 7)
        && row.replies.as_slice() == replies.as_slice()
}

#[test]
fn every_line(rt: HostRuntime) -> Result<(), Fail> {
    let report = read_report(rt.alloc(), 3, EVERY_LINE.as_bytes())?;
    assert!(rt; (report.version, report.count) == (3, 1));
    assert!(rt; report.rows.as_slice().len() == 1);
    assert!(rt; report.rows.as_slice().iter().all(is_every_line));
    assert!(rt; is_text_of(rt.alloc(), EVERY_LINE, &report)?);
    Ok(())
}

#[test]
fn a_report_of_nothing(rt: HostRuntime) -> Result<(), Fail> {
    let report = Report {
        version: 1,
        rows: Rows::from_vec(Vec::new(rt.alloc())),
        bank: None,
        list: None,
        tree: None,
        count: 0,
    };
    assert!(rt; is_text_of(rt.alloc(), "dstm report 1\nend 0\n", &report)?);
    Ok(())
}

#[test]
fn the_laws_of_reports_can_be_cited(_rt: HostRuntime) {
    read_back();
    read_where_printed();
    refused_where_none_begins();
    one_reading();
    line_by_line();
    balances_stay();
    lawful_is_held();
}

// Passes the first turn of a worker: the line of its job.
fn next_line(turns: &mut Turns<'_>, worker: u32) -> Option<u64> {
    let line = turns.first(worker)?.line;
    turns.pass(worker);
    Some(line)
}

#[test]
fn turns_end_in_the_order_of_each_worker(rt: HostRuntime) -> Result<(), Fail> {
    let text = b"dstm 1\nworkers 3\nbank 1 5\ntx 1 total\ntx 0 total\ntx 1 total\n".as_slice();
    let workload = read_workload(rt.alloc(), text)?;
    let mut turns = Turns::new(rt.alloc(), workload.jobs.as_slice(), workload.workers)?;
    for (worker, line) in [
        (1, Some(4)),
        (1, Some(6)),
        (1, None),
        (0, Some(5)),
        (0, None),
        (2, None),
        (3, None),
    ] {
        assert!(rt; next_line(&mut turns, worker) == line);
    }
    Ok(())
}

#[test]
fn lines_in_their_places(rt: HostRuntime) {
    // The first line that cannot stand in its place; 0 where the text is read.
    let table = [
        (1, "dstm report 1\nend 0\n", 0),
        (1, "dstm report 1\nend 0", 0),
        (1, "", 1),
        (2, "dstm report 1\nend 0\n", 1),
        (1, "dstm  report 1\nend 0\n", 1),
        (1, "dstm report 1\n", 2),
        (1, "dstm report 1\nend 0\n\n", 3),
        (1, "dstm report 1\nend 00\n", 2),
        (1, "dstm report 1\nbank\nlist 3 1\ntree\nend 0\n", 0),
        (1, "dstm report 1\nlist\nbank\nend 0\n", 3),
        (1, "dstm report 1\nbank\n3 0 0.0 ok\nend 1\n", 3),
        (1, "dstm report 1\n3 0 0.0\nend 1\n", 2),
        (1, "dstm report 1\n3 0 0.0 ok ok\nend 1\n", 2),
        (1, "dstm report 1\n3 0 0.0 ok ;\nend 1\n", 2),
        (
            1,
            "dstm report 1\n3 0 0.0 1 ; 2 ; 3 ; 4 ; 5 ; 6 ; 7 ; 8\nend 1\n",
            0,
        ),
        (
            1,
            "dstm report 1\n3 0 0.0 1 ; 2 ; 3 ; 4 ; 5 ; 6 ; 7 ; 8 ; 9\nend 1\n",
            2,
        ),
        (1, "dstm report 1\n3 4294967296 0.0 ok\nend 1\n", 2),
        (
            1,
            "dstm report 1\n3 4294967295 0.18446744073709551615 ok\nend 1\n",
            0,
        ),
        (
            1,
            "dstm report 1\n3 0 0.18446744073709551616 ok\nend 1\n",
            2,
        ),
        (1, "dstm report 1\n3 0 0.0 none\nend 1\n", 2),
        (2, "dstm report 2\n3 0 0.0 none\nend 1\n", 0),
        (2, "dstm report 2\n3 0 0.0 never\nend 1\n", 2),
        (3, "dstm report 3\n3 0 0.0 never\nend 1\n", 0),
        (1, "dstm report 1\ntree 5:0\nend 0\n", 2),
        (2, "dstm report 2\ntree 5:0\nend 0\n", 0),
    ];
    for (version, text, want) in table {
        let line = first_line_refused(rt.alloc(), version, text);
        assert!(rt; line == Some(want), "in {text:?}");
    }
}

fn first_line_refused(alloc: Global, version: u32, text: &str) -> Option<u64> {
    match read_report(alloc, version, text.as_bytes()) {
        Ok(_) => Some(0),
        Err(ReportError::Form(line)) => Some(line),
        Err(ReportError::Memory(_)) => None,
    }
}

// The first bad line of a report for a workload; 0 where it is lawful.
fn first_bad_line(alloc: Global, workload: &str, version: u32, lines: &str) -> Result<u64, Fail> {
    let workload = read_workload(alloc, workload.as_bytes())?;
    let text = format!(in alloc; "dstm report {version}\n{lines}")?;
    let report = read_report(alloc, version, text.as_bytes())?;
    match check(alloc, &workload, &report)? {
        Verdict::Lawful => Ok(0),
        Verdict::NotLawful(line) => Ok(line),
    }
}

#[test]
fn verdicts(rt: HostRuntime) -> Result<(), Fail> {
    // One worker waits for money that the other one sends.
    let waiting =
        "dstm 3\nworkers 2\nbank 2 100\ntx 0 await balance 1 150 ; transfer 1 0 150\ntx 1 transfer 0 1 60";
    let table = [
        ("5 1 0.0 ok\n4 0 0.1 true ; ok\nbank 190 10\nend 2", 0),
        // a job is given up while another worker can go
        ("4 0 0.0 never\n5 1 0.1 ok\nbank 40 160\nend 2", 2),
        // the number, then the round, does not rise
        ("5 1 0.1 ok\n4 0 0.1 true ; ok\nbank 190 10\nend 2", 3),
        ("5 1 1.0 ok\n4 0 0.5 true ; ok\nbank 190 10\nend 2", 3),
        // another's job, no job, and a job twice
        ("5 0 0.0 ok\nbank 40 160\nend 1", 2),
        ("6 1 0.0 ok\nbank 40 160\nend 1", 2),
        ("5 1 0.0 ok\n5 1 0.1 ok\nbank 40 160\nend 2", 3),
        // other replies
        ("5 1 0.0 poor\nbank 100 100\nend 1", 2),
        ("5 1 0.0 ok\n4 0 0.1 never\nbank 40 160\nend 2", 3),
        // the state is another, is not told, and is told of what is not there
        ("5 1 0.0 ok\n4 0 0.1 true ; ok\nbank 190 11\nend 2", 4),
        ("5 1 0.0 ok\n4 0 0.1 true ; ok\nend 2", 4),
        ("5 1 0.0 ok\n4 0 0.1 true ; ok\nbank 190 10\ntree\nend 2", 5),
        // a job is left, and the count is another
        ("5 1 0.0 ok\nbank 40 160\nend 1", 4),
        ("5 1 0.0 ok\n4 0 0.1 true ; ok\nbank 190 10\nend 3", 5),
    ];
    for (lines, want) in table {
        let line = first_bad_line(rt.alloc(), waiting, 3, lines)?;
        assert!(rt; line == want, "in {lines}");
    }
    Ok(())
}

#[test]
fn verdicts_of_all_versions(rt: HostRuntime) -> Result<(), Fail> {
    let poor = "dstm 1\nbank 2 100\ntx 0 transfer 0 1 80 ; transfer 0 1 80";
    let turns = "dstm 1\nlist 2\ntx 0 insert list 9\ntx 0 insert list 5";
    let values =
        "dstm 2\ntree 2\ntx 0 put 5 9 ; put 5 8 ; get 5 ; get 6\ntx 0 insert tree 6 ; put 7 1";
    let stuck = "dstm 3\nbank 1 5\ntx 0 await balance 0 6\ntx 0 balance 0";
    let branches =
        "dstm 3\nbank 2 100\ntx 0 await balance 0 150 ; transfer 0 1 1 orelse transfer 1 0 60\n\
            tx 0 await balance 0 150 ; total";
    let table = [
        (poor, 1, "3 0 0.0 ok ; ok\nbank 20 180\nend 1", 2),
        (poor, 2, "3 0 0.0 ok ; poor\nbank 20 180\nend 1", 1),
        (turns, 1, "3 0 0.0 true\n4 0 0.1 true\nlist 5 9\nend 2", 0),
        (turns, 1, "3 0 0.0 true\n4 0 0.1 true\nlist 9 5\nend 2", 4),
        (turns, 1, "4 0 0.0 true\n3 0 0.1 true\nlist 5 9\nend 2", 2),
        (
            values,
            2,
            "3 0 0.0 true ; false ; 8 ; none\n4 0 0.1 true ; full\ntree 5:8 6:0\nend 2",
            0,
        ),
        (
            values,
            2,
            "3 0 0.0 true ; false ; 8 ; none\n4 0 0.1 true ; full\ntree 5:8 6:1\nend 2",
            4,
        ),
        (stuck, 3, "3 0 1.0 never\n4 0 1.1 5\nbank 5\nend 2", 0),
        (
            stuck,
            3,
            "3 0 1.0 never ; never\n4 0 1.1 5\nbank 5\nend 2",
            2,
        ),
        (
            branches,
            3,
            "3 0 0.0 ok\n4 0 0.1 true ; 200\nbank 160 40\nend 2",
            0,
        ),
        (
            branches,
            3,
            "3 0 0.0 true ; ok\n4 0 0.1 true ; 200\nbank 160 40\nend 2",
            2,
        ),
    ];
    for (workload, version, lines, want) in table {
        let line = first_bad_line(rt.alloc(), workload, version, lines)?;
        assert!(rt; line == want, "in {lines}");
    }
    Ok(())
}
