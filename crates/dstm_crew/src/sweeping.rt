ghost use Rattle.std.specs.Prelude.{◌≡◌, ◌<◌, ◌≤◌, ◌+◌, ◌++◌, ◌∷◌, [], true, false, length, ℕ, List, Some, None, IfSome, IfNone};
ghost use Rattle.dstm_report.specs.declared.report.Row.{Row};
ghost use Rattle.dstm_report.specs.Lawful.{first_job};
ghost use Rattle.dstm_report.specs.Turns.{without_first, Turning};
ghost use Rattle.dstm_records.specs.Records.{KeepsReads};
ghost use Rattle.dstm_tables.specs.Callers.{let_go};
ghost use Rattle.dstm_jobs.specs.Tables.{Caller as Called};
ghost use Rattle.dstm_crew.specs.Alone.{CanRunAlone, HasRunAlone, HasStepped, Leads, MayStep, Sweeps};

use crate::play::Play;
use crate::style::style_for;
use dstm_jobs::{Caller, OnlyTried, Table, give_up, try_alone};
use dstm_model::{Replies, Reply};
use dstm_report::{PackedRows, Turns};
use dstm_workload::Job;

// How a pass over the workers ended.
#[derive(Clone, Copy, Debug, PartialEq, Eq)]
enum Swept {
    // Some job was done.
    Done,
    // None was: the first job left of each worker is blocked.
    Blocked,
    // The caller has no attempt left, or too few locators.
    Spent,
}

/// Runs the first job left of each worker, the workers in rising order, and adds the rows of what was done. In version 3,
/// where all of them are blocked, it gives up that of the least worker, and begins anew.
pub fn run_alone<G>(
    table: &Table,
    caller: &mut Caller,
    play: &Play<'_, G>,
    number: u64,
    turns: &mut Turns<'_>,
    rows: &mut PackedRows,
)
    requires can { CanRunAlone play.now.workload.now play.now.options.now number table.now caller.old rows.old.items
        turns.old }
    requires room { length rows.old.items + length turns.old.left ≤ rows.old.room }
    ensures ran { HasRunAlone play.now.workload.now play.now.options.now number caller.old caller.new rows.old.items
        rows.new.items turns.new }
    ensures keeps { KeepsReads play.now.options.now play.now.workload.now.version →
        let_go caller.new ≡ let_go caller.old }
{
    loop {
        match sweep(table, caller, play, number, turns, rows) {
            Swept::Done => return,
            Swept::Spent => return,
            Swept::Blocked => (),
        }
        let Some(job) = least_left(turns, play.workload.workers) else {
            return;
        };
        let Some(drawn) = give_up(caller, table) else {
            return;
        };
        let mut replies = Replies::new();
        replies.push(Reply::Never);
        push_row(turns, rows, number, job, drawn, replies);
    }
}

// The first job left of the least worker that has one.
fn least_left<'a>(turns: &Turns<'a>, workers: u32) -> Option<&'a Job>
    ensures some { IfSome result (λ job. first_job job.now.worker turns.now.left ≡ Some job.now) }
    ensures least { IfSome result (λ job. (w : ℕ) → w < job.now.worker → first_job w turns.now.left ≡ None) }
    ensures none { IfNone result ((w : ℕ) → w < workers → first_job w turns.now.left ≡ None) }
{
    for worker in 0..workers {
        if let Some(job) = turns.first(worker) {
            return Some(job);
        }
    }
    None
}

// Tries the first job left of each worker, the workers in rising order.
fn sweep<G>(
    table: &Table,
    caller: &mut Caller,
    play: &Play<'_, G>,
    number: u64,
    turns: &mut Turns<'_>,
    rows: &mut PackedRows,
) -> Swept
    requires may { MayStep play.now.workload.now table.now caller.old rows.old.items turns.old }
    requires room { length rows.old.items + length turns.old.left ≤ rows.old.room }
    ensures may { MayStep play.now.workload.now table.now caller.new rows.new.items turns.new }
    ensures room { length rows.new.items + length turns.new.left ≤ rows.new.room }
    ensures fewer { length turns.new.left ≤ length turns.old.left }
    ensures swept { (first : Called) (before : List Row) (begun : Turning) →
        CanRunAlone play.now.workload.now play.now.options.now number table.now first before begun →
        Sweeps play.now.workload.now play.now.options.now number first caller.old before rows.old.items turns.old 0
        false →
        Leads play.now.workload.now play.now.options.now number first caller.new before rows.new.items turns.new
        play.now.workload.now.workers false result }
    ensures keeps { KeepsReads play.now.options.now play.now.workload.now.version →
        let_go caller.new ≡ let_go caller.old }
{
    let mut swept = Swept::Blocked;
    for worker in 0..play.workload.workers {
        match try_first(table, caller, play, number, worker, turns, rows) {
            Swept::Done => swept = Swept::Done,
            Swept::Blocked => (),
            Swept::Spent => return Swept::Spent,
        }
    }
    swept
}

// Tries the first job left of a worker, if it has one.
fn try_first<G>(
    table: &Table,
    caller: &mut Caller,
    play: &Play<'_, G>,
    number: u64,
    worker: u32,
    turns: &mut Turns<'_>,
    rows: &mut PackedRows,
) -> Swept
    requires worker { worker < play.now.workload.now.workers }
    requires may { MayStep play.now.workload.now table.now caller.old rows.old.items turns.old }
    requires room { length rows.old.items + length turns.old.left ≤ rows.old.room }
    ensures may { MayStep play.now.workload.now table.now caller.new rows.new.items turns.new }
    ensures room { length rows.new.items + length turns.new.left ≤ rows.new.room }
    ensures fewer { length turns.new.left ≤ length turns.old.left }
    ensures stepped { HasStepped play.now.workload.now play.now.options.now number table.now caller.old caller.new
        rows.old.items rows.new.items turns.old turns.new worker (worker + 1) result }
    ensures keeps { KeepsReads play.now.options.now play.now.workload.now.version →
        let_go caller.new ≡ let_go caller.old }
{
    let Some(job) = turns.first(worker) else {
        return Swept::Blocked;
    };
    let style = style_for(play.options, play.workload.version);
    match try_alone(style, caller, table, &play.workload.layout, job) {
        OnlyTried::Done(finished) => {
            push_row(turns, rows, number, job, finished.number, finished.replies);
            Swept::Done
        }
        OnlyTried::Blocked => Swept::Blocked,
        OnlyTried::Spent => Swept::Spent,
    }
}

// The row of a worker's first job left, whose turn ends.
fn push_row(
    turns: &mut Turns<'_>,
    rows: &mut PackedRows,
    round: u64,
    job: &Job,
    number: u64,
    replies: Replies,
)
    requires turn { first_job job.now.worker turns.old.left ≡ Some job.now }
    requires room { length rows.old.items < rows.old.room }
    ensures rows { rows.new.items ≡ rows.old.items ++ record {
      line = job.now.line;
      worker = job.now.worker;
      round = round;
      number = number;
      replies = replies;
    } ∷ [] }
    ensures room { rows.new.room ≡ rows.old.room }
    ensures turns { turns.new ≡ record turns.old { left = without_first job.now.worker turns.old.left } }
{
    rows.push(job.line, job.worker, round, number, replies.as_slice());
    turns.pass(job.worker);
}
