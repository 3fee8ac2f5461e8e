ghost use Rattle.std.specs.Prelude.{◌≡◌, ◌≢◌, ◌<◌, ◌++◌, ◌∷◌, [], length, IfErr, OnErr, OnOk};
ghost use Rattle.dstm_jobs.specs.Tables.{AtRest};
ghost use Rattle.dstm_tables.specs.Callers.{home_of, law_of, let_go};
ghost use Rattle.dstm_jobs.specs.Styles.{CanTry};
ghost use Rattle.dstm_jobs.specs.declared.style.Style.TheVariants.{Loose};
ghost use Rattle.dstm_jobs.specs.declared.trying.Finished.{Finished};
ghost use Rattle.dstm_crew.specs.Tries.{HasDone, HasLeft};

use crate::done::Done;
use dstm_jobs::{Caller, Left, RECHECKS, Style, Table, Tried, attempt_job};
use dstm_model::Layout;
use dstm_workload::Job;
use std::thread::yield_now;

/// Tries a job until it is done, its caller is spent, or it stays blocked. Where it was done, it is put behind what was
/// done before, from where the attempt has left it. Only by the loose style reads are let go.
pub fn try_job(
    style: Style,
    caller: &mut Caller,
    table: &Table,
    layout: &Layout,
    job: &Job,
    all: &mut Done,
) -> Result<(), Left>
    requires table { home_of caller.old ≡ table.now }
    requires law { (law_of caller.old).layout ≡ layout.now }
    requires rest { AtRest caller.old }
    requires can { CanTry style layout.now job.now }
    requires room { length all.old.items < all.old.room }
    ensures done { OnOk result ((finished : Finished) × (HasDone style layout.now job.now caller.old caller.new finished
        × (all.new ≡ record all.old {
          items = all.old.items ++ finished ∷ [];
          lines = all.old.lines ++ job.now.line ∷ [];
        }))) }
    ensures same { OnErr result (all.new ≡ all.old) }
    ensures left { IfErr result (HasLeft style layout.now job.now caller.old caller.new) }
    ensures keeps { style ≢ Loose → let_go caller.new ≡ let_go caller.old }
{
    let mut turns: u32 = 1;
    loop {
        let tried = attempt_job(style, RECHECKS, caller, table, layout, job);
        match &tried {
            Tried::Done(finished) => {
                all.push(finished, job.line);
                return Ok(());
            }
            Tried::Spent => return Err(Left::Spent),
            Tried::Blocked => return Err(Left::Blocked),
            Tried::Again => {
                // This waits for nobody. Without it two attempts of equal rank can go on killing each other.
                turns = (turns * 2).min(64);
                back_off(turns);
            }
        }
    }
}

// Lets other threads run, so many times.
fn back_off(turns: u32) {
    for _turn in 0..turns {
        yield_now();
    }
}
