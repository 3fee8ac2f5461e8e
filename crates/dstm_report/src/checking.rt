ghost use Rattle.std.specs.Prelude.{◌≡◌, ℕ, ◌*◌, sum, IsTrue, ◌↔◌, List, [], All, IfOk};
ghost use Rattle.dstm_model.specs.Store.{state_of};
ghost use Rattle.dstm_workload.specs.Workload.{IsValidWorkload};
ghost use Rattle.dstm_workload.specs.declared.workload.Workload.{Workload};
ghost use Rattle.dstm_report.specs.declared.report.Row.{Row};
ghost use Rattle.dstm_report.specs.declared.report.Report.{Report};
ghost use Rattle.dstm_report.specs.Reading.{IsHeld, FitsRow};
ghost use Rattle.dstm_report.specs.Lawful.{
  IsLawful,
  IsGoodLine,
  IsFirstBadLine,
  RowsAreGood,
  Tells,
  declared_as,
  store_after,
  shown,
};

use crate::replay::Replay;
use crate::report::Report;
use crate::verdict::Verdict;
use dstm_model::{Items, Numbers, State};
use dstm_workload::Workload;
use std::alloc::{AllocError, Global};

// The line of the header.
const HEADER: u64 = 1;

// The line of the first row.
const FIRST_ROW: u64 = 2;

/// Tells whether a report is one that one thread could have given, and where it first is not.
pub fn check(alloc: Global, workload: &Workload, report: &Report) -> Result<Verdict, AllocError>
    requires valid { IsValidWorkload workload.now }
    ensures lawful { IfOk result (λ verdict. (verdict ≡ Verdict.Lawful) ↔ IsLawful workload.now report.now) }
    ensures bad { IfOk result (λ verdict.
        (line : ℕ) → (verdict ≡ Verdict.NotLawful line) ↔ IsFirstBadLine workload.now report.now line) }
{
    if report.version != workload.version {
        return Ok(Verdict::NotLawful(HEADER));
    }
    let mut replay = Replay::new(alloc, workload)?;
    let rows = report.rows.as_slice();
    for (at, row) in rows.iter().enumerate() {
        if !replay.follow(workload, &rows[..at], row)? {
            return Ok(Verdict::NotLawful(FIRST_ROW + at as u64));
        }
    }
    let state = replay.store.state(alloc)?;
    Ok(ending(workload, report, &state))
}

/// The law of lawful reports: they are those of which each line is good.
pub fn line_by_line()
    ensures { (workload : Workload) (report : Report) →
        IsLawful workload report ↔ ((line : ℕ) → IsGoodLine workload report line) }
{}

/// The law of balances: whatever rows name jobs of a workload, the sum of the balances after them is the sum
/// that the accounts were opened with.
pub fn balances_stay()
    ensures { (workload : Workload) (rows : List Row) → IsValidWorkload workload →
        sum (store_after workload rows).balances ≡ workload.layout.accounts * workload.layout.opening }
{}

/// The law of what a version can hold: it holds every report that is lawful for a valid workload, where the line,
/// the round and the number of each row fit 64 bits.
pub fn lawful_is_held()
    ensures { (workload : Workload) (report : Report) → IsValidWorkload workload → IsLawful workload report →
        All FitsRow report.rows → IsHeld report }
{}

// The verdict on the lines behind the rows, which are good.
fn ending(workload: &Workload, report: &Report, state: &State) -> Verdict
    requires version { report.now.version ≡ workload.now.version }
    requires rows { RowsAreGood workload.now [] report.now.rows }
    requires state { state.now ≡ state_of (store_after workload.now report.now.rows) }
    ensures { Tells workload.now report.now result }
{
    let layout = &workload.layout;
    let rows = report.rows.as_slice().len() as u64;
    let mut line = FIRST_ROW + rows;
    if !are_numbers(layout.accounts, &report.bank, &state.bank) {
        return Verdict::NotLawful(line);
    }
    line += shown(&report.bank);
    if !are_numbers(layout.list, &report.list, &state.list) {
        return Verdict::NotLawful(line);
    }
    line += shown(&report.list);
    if !are_items(layout.tree, &report.tree, &state.tree) {
        return Verdict::NotLawful(line);
    }
    line += shown(&report.tree);
    let jobs = workload.jobs.as_slice().len() as u64;
    if report.count != rows || rows != jobs {
        return Verdict::NotLawful(line);
    }
    Verdict::Lawful
}

fn shown<T>(content: &Option<T>) -> u64
    ensures { result ≡ shown content.now }
{
    match content {
        None => 0,
        Some(_) => 1,
    }
}

// Whether a report tells what a structure of this size holds, and nothing where there is none.
fn are_numbers(size: u32, told: &Option<Numbers>, held: &Numbers) -> bool
    ensures { IsTrue result ↔ (told.now ≡ declared_as size held.now) }
{
    match told {
        None => size == 0,
        Some(told) => size != 0 && told.as_slice() == held.as_slice(),
    }
}

fn are_items(size: u32, items: &Option<Items>, held: &Items) -> bool
    ensures { IsTrue result ↔ (items.now ≡ declared_as size held.now) }
{
    match items {
        None => size == 0,
        Some(items) => size != 0 && items.as_slice() == held.as_slice(),
    }
}
