ghost use Rattle.std.specs.Prelude.{◌≡◌, ◌<◌, length, map, All};
ghost use Rattle.dstm_crew.specs.Seats.{HasCome, HasEnded, share_of};
ghost use Rattle.dstm_crew.specs.Shares.{asked_of};
ghost use Rattle.dstm_crew.specs.Workers.{IsReady};
ghost use Rattle.dstm_workload.specs.Workload.{IsValidWorkload};

use crate::gate::Gate;
use crate::play::Play;
use crate::worker::Worker;
use dstm_jobs::Table;
use std::thread::{Threads, for_each_mut};

/// Runs all workers beside one another, each in a thread of its own where one can be made. They pass the gate only if they
/// are told to.
pub(crate) fn run_all<R: Threads + Sync, G: Gate + Sync>(
    rt: &R,
    table: &Table,
    play: &Play<'_, G>,
    passes: bool,
    workers: &mut [Worker],
)
    requires valid { IsValidWorkload play.now.workload.now }
    requires some { 0 < length workers.old }
    requires ready { All (IsReady play.now.workload.now table.now) workers.old }
    requires come { All (HasCome play.now.options.now) workers.old }
    ensures same { map (λ worker. asked_of (share_of worker)) workers.new
        ≡ map (λ worker. asked_of (share_of worker)) workers.old }
    ensures ended { All (HasEnded play.now.workload.now play.now.options.now table.now) workers.new }
{
    let threads = workers.len();
    for_each_mut(
        rt,
        workers,
        threads,
        &|_, worker: &mut Worker|
            requires { IsValidWorkload play.now.workload.now × IsReady play.now.workload.now table.now worker.now
                × HasCome play.now.options.now worker.now }
            ensures { (asked_of (share_of worker.exit.now) ≡ asked_of (share_of worker.entry.now))
                × HasEnded play.entry.now.workload.now play.entry.now.options.now table.entry.now worker.exit.now }
        { run_one(table, play, passes, worker) },
    );
}

// Runs one worker.
fn run_one<G: Gate>(table: &Table, play: &Play<'_, G>, passes: bool, worker: &mut Worker)
    requires valid { IsValidWorkload play.now.workload.now }
    requires ready { IsReady play.now.workload.now table.now worker.old }
    requires come { HasCome play.now.options.now worker.old }
    ensures same { asked_of (share_of worker.new) ≡ asked_of (share_of worker.old) }
    ensures ended { HasEnded play.now.workload.now play.now.options.now table.now worker.new }
{
    let gate = if passes { Some(play.gate) } else { None };
    worker.run(table, play.workload, play.options, gate);
}
