ghost use Rattle.std.specs.Prelude.{◌≡◌, ◌++◌, [], length, All, IfOk, IfErr};
ghost use Rattle.dstm_workload.specs.Workload.{IsValidWorkload};
ghost use Rattle.dstm_report.specs.Lawful.{IsLawful, RowsAreGood, declared_as, store_after};
ghost use Rattle.dstm_store.specs.Opening.{opening_values};
ghost use Rattle.dstm_store.specs.Whole.{StandsFor};
ghost use Rattle.dstm_records.specs.Records.{AreFirstRounds, StandFor};
ghost use Rattle.dstm_records.specs.Running.{added, turns_behind, Begins, IsClosed};

use crate::gate::Gate;
use crate::play::Play;
use crate::progress::Progress;
use crate::rounds::play_rounds;
use dstm_jobs::Zeros;
use dstm_model::Val;
use dstm_options::Options;
use dstm_records::Rounds;
use dstm_report::{PackedReport, PackedRows, Report, Turns};
use dstm_store::{opening, read_state};
use dstm_workload::Workload;
use std::alloc::{AllocError, Global};
use std::mem::replace;
use std::thread::Threads;

/// Runs a workload round by round, and adds the records of its rounds, also where memory runs out: then they are those of
/// the first rounds, one behind the other. The report is lawful, the records that were added stand for it, and in each of
/// their logs whatever an attempt has seen are values of one moment.
pub fn run_crew<R: Threads + Sync, G: Gate + Sync>(
    rt: &R,
    alloc: Global,
    workload: &Workload,
    options: &Options,
    gate: &G,
    rounds: &mut Rounds,
) -> Result<Report, AllocError>
    requires { IsValidWorkload workload.now }
    ensures lawful { IfOk result (IsLawful workload.now) }
    ensures behind { rounds.new ≡ rounds.old ++ added rounds.old rounds.new }
    ensures stand { IfOk result (StandFor workload.now options.now (added rounds.old rounds.new)) }
    ensures closed { All (IsClosed workload.now.layout) (added rounds.old rounds.new) }
    ensures first { AreFirstRounds workload.now options.now (added rounds.old rounds.new) }
{
    let report = run_crew_packed(rt, alloc, workload, options, gate, rounds)?;
    report.unpack(alloc)
}

/// The same, with the rows of the report packed.
pub fn run_crew_packed<R: Threads + Sync, G: Gate + Sync>(
    rt: &R,
    alloc: Global,
    workload: &Workload,
    options: &Options,
    gate: &G,
    rounds: &mut Rounds,
) -> Result<PackedReport, AllocError>
    requires { IsValidWorkload workload.now }
    ensures lawful { IfOk result (IsLawful workload.now) }
    ensures behind { rounds.new ≡ rounds.old ++ added rounds.old rounds.new }
    ensures stand { IfOk result (StandFor workload.now options.now (added rounds.old rounds.new)) }
    ensures closed { All (IsClosed workload.now.layout) (added rounds.old rounds.new) }
    ensures first { AreFirstRounds workload.now options.now (added rounds.old rounds.new) }
{
    let play = Play {
        workload,
        options,
        gate,
    };
    let mut progress = begin(alloc, workload, rounds)?;
    let played = play_rounds(rt, alloc, &play, &mut progress);
    let Progress {
        values,
        turns: _,
        rows,
        rounds: records,
        zeros: _,
    } = progress;
    *rounds = Rounds::from_vec(records);
    played?;
    report_of(alloc, workload, rows, &values)
}

// Before the first round: the opening values, and all jobs are left. The records that were there go along; where memory runs
// out they stay.
fn begin<'a>(
    alloc: Global,
    workload: &'a Workload,
    rounds: &mut Rounds,
) -> Result<Progress<'a>, AllocError>
    requires { IsValidWorkload workload.now }
    ensures begins { IfOk result (λ progress. Begins workload.now 0 [] progress.values.items) }
    ensures rows { IfOk result (λ progress. progress.rows.items ≡ []) }
    ensures turns { IfOk result (λ progress. progress.turns ≡ turns_behind workload.now []) }
    ensures values { IfOk result (λ progress. progress.values.items ≡ opening_values workload.now.layout) }
    ensures rounds { IfOk result (λ progress. progress.rounds.items ≡ rounds.old) }
    ensures kept { IfErr result (λ _. rounds.new ≡ rounds.old) }
{
    let layout = workload.layout;
    let values = opening(alloc, &layout)?;
    let jobs = workload.jobs.as_slice();
    let turns = Turns::new(alloc, jobs, workload.workers)?;
    let rounds = replace(rounds, Rounds::make(alloc)).into_vec();
    Ok(Progress {
        values,
        turns,
        rows: PackedRows::new(alloc),
        rounds,
        zeros: Zeros::new(alloc),
    })
}

// The report of these rows, which have left these values.
fn report_of(
    alloc: Global,
    workload: &Workload,
    rows: PackedRows,
    values: &[Val],
) -> Result<PackedReport, AllocError>
    requires valid { IsValidWorkload workload.now }
    requires good { RowsAreGood workload.now [] rows.items }
    requires whole { length rows.items ≡ length workload.now.jobs }
    requires stands { StandsFor workload.now.layout values.now (store_after workload.now rows.items) }
    ensures lawful { IfOk result (IsLawful workload.now) }
    ensures rows { IfOk result (λ report. report.rows ≡ rows.items) }
{
    let layout = workload.layout;
    let state = read_state(alloc, &layout, values)?;
    let count = rows.len() as u64;
    Ok(PackedReport {
        version: workload.version,
        rows,
        bank: declared(layout.accounts, state.bank),
        list: declared(layout.list, state.list),
        tree: declared(layout.tree, state.tree),
        count,
    })
}

// What stands for a structure of this size.
fn declared<T: Drop>(size: u32, content: T) -> Option<T>
    ensures { result ≡ declared_as size content }
{
    if size == 0 { None } else { Some(content) }
}
