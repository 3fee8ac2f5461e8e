ghost use Rattle.std.specs.Prelude.{◌≡◌, ◌≢◌, ◌<◌};
ghost use Rattle.dstm_jobs.specs.Tables.{AtRest};
ghost use Rattle.dstm_tables.specs.Callers.{home_of, law_of, let_go};
ghost use Rattle.dstm_jobs.specs.Jobs.{HasTried};
ghost use Rattle.dstm_jobs.specs.Styles.{CanTry};
ghost use Rattle.dstm_jobs.specs.declared.style.Style.TheVariants.{Branches, Loose, Plain};

use crate::style::Style;
use crate::tables::{Caller, Table};
use crate::{dstm, tl2};
use dstm_model::{Layout, Replies};
use dstm_store::JobBody;
use dstm_tables::{Ended, attempt};
use dstm_workload::Job;

/// How often a blocked attempt makes sure that what it has read stands, before it is given up.
pub const RECHECKS: u32 = 1_024;

/// A job that was done: the number that its transaction drew, and its replies.
#[derive(Debug, Drop)]
pub struct Finished {
    pub number: u64,
    pub replies: Replies,
}

/// How an attempt at a job ended.
#[derive(Debug, Drop)]
pub enum Tried {
    /// It did the job.
    Done(Finished),
    /// It was left, and must be made again.
    Again,
    /// None was made: the caller has no attempt left, or too few locators.
    Spent,
    /// It was given up at the job, which stayed blocked.
    Blocked,
}

/// Why a job was not done.
#[derive(Clone, Copy, Debug, PartialEq, Eq)]
pub enum Left {
    /// The caller has no attempt left, or too few locators.
    Spent,
    /// The job stayed blocked.
    Blocked,
}

/// Makes one attempt at a job. One that stands at a blocked job is given up: under DSTM after it has made sure so many times
/// that what it has read stands. Only by the loose style reads are let go.
#[inline(always)]
pub fn attempt_job(
    style: Style,
    rechecks: u32,
    caller: &mut Caller,
    table: &Table,
    layout: &Layout,
    job: &Job,
) -> Tried
    requires table { home_of caller.old ≡ table.now }
    requires law { (law_of caller.old).layout ≡ layout.now }
    requires rest { AtRest caller.old }
    requires can { CanTry style layout.now job.now }
    requires some { 0 < rechecks }
    ensures tried { HasTried style rechecks layout.now job.now caller.old caller.new result }
    ensures keeps { style ≢ Loose → let_go caller.new ≡ let_go caller.old }
{
    match style {
        Style::Plain => attempt_plain(caller, table, layout, job),
        Style::Loose => attempt_releasing(caller, table, layout, job),
        Style::Branches => attempt_branches(rechecks, caller, table, layout, job),
    }
}

// The same, by its operations in order.
#[inline(never)]
fn attempt_plain(caller: &mut Caller, table: &Table, layout: &Layout, job: &Job) -> Tried
    requires table { home_of caller.old ≡ table.now }
    requires law { (law_of caller.old).layout ≡ layout.now }
    requires rest { AtRest caller.old }
    requires can { CanTry Plain layout.now job.now }
    ensures tried { HasTried Plain 0 layout.now job.now caller.old caller.new result }
    ensures keeps { let_go caller.new ≡ let_go caller.old }
{
    let mut body = JobBody::make(layout, &job.ops);
    match attempt(caller, table, &mut body) {
        Ok(number) => Tried::Done(Finished {
            number,
            replies: body.into_replies(),
        }),
        Err(Ended::Again) => Tried::Again,
        Err(Ended::Spent) => Tried::Spent,
    }
}

// The same, and under DSTM it lets reads go.
#[inline(never)]
fn attempt_releasing(caller: &mut Caller, table: &Table, layout: &Layout, job: &Job) -> Tried
    requires table { home_of caller.old ≡ table.now }
    requires law { (law_of caller.old).layout ≡ layout.now }
    requires rest { AtRest caller.old }
    requires can { CanTry Loose layout.now job.now }
    ensures { HasTried Loose 0 layout.now job.now caller.old caller.new result }
{
    match caller {
        Caller::Dstm(caller) => match table {
            Table::Dstm(stm) => dstm::attempt_releasing(caller, stm, layout, job),
            Table::Tl2(_) => unreachable!(),
        },
        Caller::Tl2(_) => attempt_plain(caller, table, layout, job),
    }
}

// The same, by the first open branch.
#[inline(never)]
fn attempt_branches(
    rechecks: u32,
    caller: &mut Caller,
    table: &Table,
    layout: &Layout,
    job: &Job,
) -> Tried
    requires table { home_of caller.old ≡ table.now }
    requires law { (law_of caller.old).layout ≡ layout.now }
    requires rest { AtRest caller.old }
    requires can { CanTry Branches layout.now job.now }
    requires some { 0 < rechecks }
    ensures tried { HasTried Branches rechecks layout.now job.now caller.old caller.new result }
    ensures keeps { let_go caller.new ≡ let_go caller.old }
{
    match caller {
        Caller::Dstm(caller) => match table {
            Table::Dstm(stm) => dstm::attempt_branches(rechecks, caller, stm, layout, job),
            Table::Tl2(_) => unreachable!(),
        },
        Caller::Tl2(caller) => match table {
            Table::Tl2(stm) => tl2::attempt_branches(caller, stm, layout, job),
            Table::Dstm(_) => unreachable!(),
        },
    }
}
