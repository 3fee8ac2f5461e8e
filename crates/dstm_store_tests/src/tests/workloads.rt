use crate::tests::jobs::{expect_job, insert, transfer};
use dstm_model::{Cond, Layout, Op, Which};
use dstm_workload::*;
use std::alloc::Global;
use std::process::Abort;
use std::test::Fail;

#[test]
fn workloads_are_read(rt: HostRuntime) -> Result<(), Fail> {
    let text = b"# a comment\n\n  dstm   3\ntree 7\nworkers 2\nbank 2 100\nlist 1\n\
        tx 1 transfer 0 1 9999999999999 ; total ; balance 1\n#\xff\n\
        tx 0 await tree 5 ; insert list 1048574 orelse put 5 18446744073709551615 ; get 5";
    let workload = read_workload(rt.alloc(), text)?;
    let layout = Layout {
        accounts: 2,
        opening: 100,
        list: 1,
        tree: 7,
    };
    expect_head(&rt, &workload, 3, 2, layout);
    let jobs = workload.jobs.as_slice();
    let account = Op::Balance { account: 1 };
    let money = [transfer(0, 1, 9_999_999_999_999), Op::Total, account];
    expect_job(&rt, jobs, 0, (8, 1), &money);
    expect_job(&rt, jobs, 1, (10, 0), &awaiting());
    assert!(rt; jobs.len() == 2);
    Ok(())
}

fn awaiting() -> [Op; 5] {
    let awaited = Cond::Key {
        which: Which::Tree,
        key: 5,
    };
    let put = Op::Put {
        key: 5,
        value: u64::MAX,
    };
    [
        Op::Await(awaited),
        insert(Which::List, 1_048_574),
        Op::OrElse,
        put,
        Op::Get { key: 5 },
    ]
}

fn expect_head<R: Abort>(rt: &R, workload: &Workload, version: u32, workers: u32, layout: Layout) {
    assert!(rt; (workload.version, workload.workers) == (version, workers));
    assert!(rt; workload.layout == layout);
}

#[test]
fn an_empty_workload_has_one_worker(rt: HostRuntime) -> Result<(), Fail> {
    let empty = read_workload(rt.alloc(), b"dstm 1")?;
    expect_head(&rt, &empty, 1, 1, Layout::default());
    assert!(rt; empty.jobs.as_slice().is_empty());
    Ok(())
}

#[test]
fn other_texts_are_refused(rt: HostRuntime) {
    // The texts, and the lines and reasons for which they are refused.
    let table = [
        ("", 1, Why::Header),
        ("dstm 1 1", 1, Why::Header),
        ("dstm 4", 1, Why::Header),
        ("list 1\ndstm 1", 1, Why::Header),
        ("dstm 1\r\n", 1, Why::Bytes),
        ("dstm 1\n\nqueue\x7f 3", 3, Why::Bytes),
        ("dstm 1\ndstm 1", 2, Why::Unknown),
        ("dstm 1\nbank", 2, Why::Missing),
        ("dstm 1\nbank ;", 2, Why::Number),
        ("dstm 1\nbank 4097 x", 2, Why::OutOfRange),
        ("dstm 1\nbank 4096 1000000001", 2, Why::OutOfRange),
        ("dstm 1\nlist 1025", 2, Why::OutOfRange),
        ("dstm 1\ntree 65536", 2, Why::OutOfRange),
        ("dstm 1\nlist 0 0", 2, Why::OutOfRange),
        ("dstm 1\nworkers 2 2", 2, Why::Extra),
        ("dstm 1\nbank 1 1\ntx 0 total\nbank 1 1", 4, Why::Late),
        ("dstm 1\ntx ;", 2, Why::Number),
        ("dstm 1\ntx 1", 2, Why::OutOfRange),
        ("dstm 1\ntx 99999999999999999999 x", 2, Why::OutOfRange),
        ("dstm 1\ntx 0 ;", 2, Why::Missing),
        ("dstm 1\ntx 0 total x", 2, Why::Undeclared),
        ("dstm 2\ntx 0 get 5", 2, Why::Undeclared),
        ("dstm 1\ntree 1\ntx 0 put 5 9", 3, Why::Unknown),
        (
            "dstm 2\ntree 1\ntx 0 put 5 18446744073709551616",
            3,
            Why::OutOfRange,
        ),
        ("dstm 2\ntree 1\ntx 0 await tree 1", 3, Why::Unknown),
        ("dstm 2\ntree 1\ntx 0 get 1 orelse get 1", 3, Why::Extra),
        (
            "dstm 1\nbank 2 1\ntx 0 transfer 0 1 10000000000000",
            3,
            Why::OutOfRange,
        ),
        (
            "dstm 1\nlist 2\ntx 0 member list 1048575",
            3,
            Why::OutOfRange,
        ),
    ];
    for (text, line, why) in table {
        expect_refused(&rt, text.as_bytes(), line, why);
    }
}

#[test]
fn lines_of_operations_are_refused(rt: HostRuntime) -> Result<(), Fail> {
    let bank = "dstm 1\nbank 2 100\n";
    let all = "dstm 3\nbank 2 100\nlist 1\n";
    let table = [
        (bank, "tx 0", Why::Missing),
        (bank, "tx 0 total ;", Why::Missing),
        (bank, "tx 0 total 5", Why::Extra),
        (bank, "tx 0 balance 2", Why::OutOfRange),
        (bank, "tx 0 balance 01", Why::Number),
        (bank, "tx 0 balance ;", Why::Missing),
        (bank, "tx 0 insert list 3", Why::Undeclared),
        (bank, "tx 0 insert heap 3", Why::Unknown),
        (bank, "tx 0 insert ;", Why::Missing),
        (bank, "tx 0 transfer 0 1 5;", Why::Number),
        (bank, "bank 2 100", Why::Twice),
        (bank, "queue 3", Why::Unknown),
        (bank, "workers 33", Why::OutOfRange),
        (
            bank,
            "tx 0 total ; total ; total ; total ; total ; total ; total ; total ; x",
            Why::TooMany,
        ),
        (
            bank,
            "tx 0 total ; total ; total ; total ; total ; total ; total ; total x",
            Why::Extra,
        ),
        (
            all,
            "tx 0 total ; total ; total ; total ; total ; total ; total orelse x",
            Why::TooMany,
        ),
        (
            all,
            "tx 0 total ; total ; total ; total ; total ; total ; total ; total orelse x",
            Why::TooMany,
        ),
        (
            all,
            "tx 0 total ; total ; total ; total ; total ; total orelse x",
            Why::Unknown,
        ),
        (all, "tx 0 orelse", Why::Missing),
        (all, "tx 0 total orelse ; total", Why::Missing),
        (all, "tx 0 total ; await list 1", Why::Unknown),
        (all, "tx 0 total await", Why::Extra),
        (all, "tx 0 await", Why::Missing),
        (all, "tx 0 await orelse", Why::Missing),
        (all, "tx 0 await ;", Why::Missing),
        (all, "tx 0 await total", Why::Unknown),
        (all, "tx 0 await tree 1", Why::Undeclared),
        (all, "tx 0 await balance 0 orelse", Why::Number),
        (all, "tx 0 await balance 0 10000000000000", Why::OutOfRange),
        (all, "tx 0 insert orelse 1", Why::Unknown),
        (all, "tx 0 balance orelse", Why::Number),
    ];
    for (declarations, line, why) in table {
        let number = if declarations == bank { 3 } else { 4 };
        let mut text = Vec::from_slice(rt.alloc(), declarations.as_bytes())?;
        text.extend_from_slice(line.as_bytes())?;
        expect_refused(&rt, text.as_slice(), number, why);
    }
    Ok(())
}

#[test]
fn transactions_are_counted(rt: HostRuntime) -> Result<(), Fail> {
    let mut text = Vec::from_slice(rt.alloc(), b"dstm 1\nbank 1 1\n")?;
    for _ in 0..MAX_JOBS {
        text.extend_from_slice(b"tx 0 total\n")?;
    }
    let workload = read_workload(rt.alloc(), text.as_slice())?;
    assert!(rt; workload.jobs.as_slice().len() == MAX_JOBS);
    text.extend_from_slice(b"tx")?;
    expect_refused(&rt, text.as_slice(), 20_003, Why::TooMany);
    Ok(())
}

// Tells whether this is written of the workload that a text stands for.
fn is_written(alloc: Global, text: &str, want: &str) -> Result<bool, Fail> {
    let workload = read_workload(alloc, text.as_bytes())?;
    let written = write_workload(alloc, &workload)?;
    Ok(written.as_slice() == want.as_bytes())
}

#[test]
fn workloads_are_written(rt: HostRuntime) -> Result<(), Fail> {
    let table = [
        (
            "dstm 1\nbank 2 100\ntx 0 transfer 0 1 80 ; transfer 0 1 80",
            "dstm 1\nworkers 1\nbank 2 100\ntx 0 transfer 0 1 80 ; transfer 0 1 80\n",
        ),
        ("dstm 2", "dstm 2\nworkers 1\n"),
        (
            "dstm 3\ntree 7\nlist 1\nbank 1 0\nworkers 2\n\n\
                tx 1  await  tree 5 ; insert list 0 orelse put 5 18446744073709551615 ; get 5\n\
                tx 0 await balance 0 9 orelse total ; member tree 1 ; remove list 2",
            "dstm 3\nworkers 2\nbank 1 0\nlist 1\ntree 7\n\
                tx 1 await tree 5 ; insert list 0 orelse put 5 18446744073709551615 ; get 5\n\
                tx 0 await balance 0 9 orelse total ; member tree 1 ; remove list 2\n",
        ),
    ];
    for (text, want) in table {
        assert!(rt; is_written(rt.alloc(), text, want)?, "{text:?}");
    }
    Ok(())
}

#[test]
fn the_laws_of_workloads_can_be_cited(_rt: HostRuntime) {
    first_refusal();
    read_back();
    before_a_mark();
    operations_by_fields();
}

#[test]
fn reasons_are_printed(rt: HostRuntime) {
    assert!(rt; Why::OutOfRange.text() == b"out of range".as_slice());
    assert!(rt; Why::TooMany.text() == b"too many".as_slice());
}

fn expect_refused<R: Abort + AllocGlobal>(rt: &R, text: &[u8], line: u64, why: Why) {
    match read_workload(rt.alloc(), text) {
        Err(WorkloadError::Refused(refused)) => {
            assert!(rt; refused == Refused { line, why }, "{text:?}: {refused:?}");
        }
        _ => panic!(rt; "not refused: {text:?}"),
    }
}
