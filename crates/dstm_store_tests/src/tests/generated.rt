use crate::tests::jobs::{expect_job, insert, transfer};
use dstm_gen::{generate, lines_of_the_text, short_text};
use dstm_model::{Op, Which};
use std::test::Fail;

fn remove(which: Which, key: u32) -> Op {
    Op::Remove { which, key }
}

fn member(which: Which, key: u32) -> Op {
    Op::Member { which, key }
}

// The expected jobs come from a program of its own, in Python, that has PCG's generator XSH RR 64/32 and
// the way in which rand's `seed_from_u64` expands a number by PCG32; its words of seed 0 begin
// 298703107, 4236525527, 336081875, 1056616254.
#[test]
fn jobs_of_every_form(rt: HostRuntime) -> Result<(), Fail> {
    let (list, tree) = (Which::List, Which::Tree);
    let workload = generate(rt.alloc(), 14, 4, 3)?;
    assert!(rt; (workload.version, workload.workers) == (1, 3));
    let jobs = workload.jobs.as_slice();
    assert!(rt; jobs.len() == 4);
    let first = [insert(list, 49), member(tree, 810), transfer(5, 1, 79)];
    expect_job(&rt, jobs, 0, (6, 0), &first);
    let account = Op::Balance { account: 3 };
    let second = [insert(tree, 29), account, remove(tree, 1952), Op::Total];
    expect_job(&rt, jobs, 1, (7, 1), &second);
    let third = [
        remove(list, 125),
        transfer(2, 3, 96),
        member(tree, 1376),
        insert(tree, 1498),
    ];
    expect_job(&rt, jobs, 2, (8, 2), &third);
    expect_job(&rt, jobs, 3, (9, 0), &[member(tree, 977)]);
    Ok(())
}

#[test]
fn the_laws_of_generated_texts_can_be_cited(_rt: HostRuntime) {
    lines_of_the_text();
    short_text();
}

#[test]
fn the_most_jobs(rt: HostRuntime) -> Result<(), Fail> {
    let workload = generate(rt.alloc(), u64::MAX, 20_000, 32)?;
    let jobs = workload.jobs.as_slice();
    assert!(rt; jobs.len() == 20_000);
    let last = [
        remove(Which::Tree, 94),
        member(Which::Tree, 1840),
        transfer(4, 2, 188),
    ];
    expect_job(&rt, jobs, 19_999, (20_005, 31), &last);
    Ok(())
}
