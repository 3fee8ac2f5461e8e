ghost use Rattle.std.specs.Prelude.{◌≡◌, ◌≢◌, IfNone, IfSome};
ghost use Rattle.dstm_jobs.specs.Tables.{AtRest, IsSpentFrom};
ghost use Rattle.dstm_tables.specs.Callers.{home_of, law_of, let_go, round_of};
ghost use Rattle.dstm_jobs.specs.OnlyCallers.{HasGivenUp, HasTriedAlone};
ghost use Rattle.dstm_jobs.specs.Styles.{CanTry};
ghost use Rattle.dstm_tables.specs.Tells.{callers_of};
ghost use Rattle.dstm_jobs.specs.declared.style.Style.TheVariants.{Loose};

use crate::style::Style;
use crate::tables::{Caller, Table};
use crate::trying::{Finished, Tried, attempt_job};
use crate::{dstm, tl2};
use dstm_model::Layout;
use dstm_workload::Job;

/// How a try of a table's only caller ended.
#[derive(Debug, Drop)]
pub enum OnlyTried {
    /// It did the job.
    Done(Finished),
    /// The job is blocked.
    Blocked,
    /// None was made: the caller has no attempt left, or too few locators.
    Spent,
}

/// Tries a job once, by a table's only caller. Only by the loose style reads are let go.
pub fn try_alone(
    style: Style,
    caller: &mut Caller,
    table: &Table,
    layout: &Layout,
    job: &Job,
) -> OnlyTried
    requires table { home_of caller.old ≡ table.now }
    requires only { callers_of (round_of caller.old) ≡ 1 }
    requires law { (law_of caller.old).layout ≡ layout.now }
    requires rest { AtRest caller.old }
    requires can { CanTry style layout.now job.now }
    ensures tried { HasTriedAlone style layout.now job.now caller.old caller.new result }
    ensures keeps { style ≢ Loose → let_go caller.new ≡ let_go caller.old }
{
    match attempt_job(style, 1, caller, table, layout, job) {
        Tried::Done(finished) => OnlyTried::Done(finished),
        Tried::Blocked => OnlyTried::Blocked,
        Tried::Spent => OnlyTried::Spent,
        Tried::Again => unreachable!(),
    }
}

/// Commits an attempt of a table's only caller that opens nothing, and answers the number that it drew; or the caller is
/// spent.
pub fn give_up(caller: &mut Caller, table: &Table) -> Option<u64>
    requires table { home_of caller.old ≡ table.now }
    requires only { callers_of (round_of caller.old) ≡ 1 }
    requires rest { AtRest caller.old }
    ensures given_up { IfSome result (HasGivenUp caller.old caller.new) }
    ensures spent { IfNone result (IsSpentFrom caller.old caller.new) }
    ensures keeps { let_go caller.new ≡ let_go caller.old }
{
    match caller {
        Caller::Dstm(caller) => match table {
            Table::Dstm(stm) => dstm::give_up(caller, stm),
            Table::Tl2(_) => unreachable!(),
        },
        Caller::Tl2(caller) => match table {
            Table::Tl2(stm) => tl2::give_up(caller, stm),
            Table::Dstm(_) => unreachable!(),
        },
    }
}
