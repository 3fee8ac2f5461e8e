ghost use Rattle.std.specs.Prelude.{◌≡◌, [], OnOk, OnErr};
ghost use Rattle.dstm_records.specs.Running.{added, turns_behind, Begins, HasEnded};
ghost use Rattle.dstm_crew.specs.Playing.{CanPlay, HasCome, HasPlayed, WasBrokenOff};

use crate::alone::play_alone;
use crate::gate::Gate;
use crate::play::Play;
use crate::playing::play_parallel;
use crate::progress::Progress;
use std::alloc::{AllocError, Global};
use std::thread::Threads;

// Plays rounds until no job is left, and at least one. There is room for the rows of all jobs left and for the record
// before a round is played. Wherever memory runs out, the records are those of the rounds so far.
pub(crate) fn play_rounds<R: Threads + Sync, G: Gate + Sync>(
    rt: &R,
    alloc: Global,
    play: &Play<'_, G>,
    progress: &mut Progress<'_>,
) -> Result<(), AllocError>
    requires begins { Begins play.now.workload.now 0 [] progress.old.values.items }
    requires rows { progress.old.rows.items ≡ [] }
    requires turns { progress.old.turns ≡ turns_behind play.now.workload.now [] }
    ensures ended { OnOk result (HasEnded play.now.workload.now play.now.options.now progress.old.values.items
        (added progress.old.rounds.items progress.new.rounds.items) progress.new.rows.items progress.new.values.items) }
    ensures come { HasCome play.now.workload.now play.now.options.now progress.old progress.new }
{
    let jobs = play.workload.jobs.as_slice();
    let mut number = 0;
    let mut more = true;
    while more {
        progress.rows.reserve(jobs.len() - progress.rows.len())?;
        progress.rounds.reserve(1)?;
        play_round(rt, alloc, play, number, progress)?;
        more = progress.rows.len() < jobs.len();
        number += 1;
    }
    Ok(())
}

// Plays a round: every other one is parallel. Where memory runs out it is broken off.
fn play_round<R: Threads + Sync, G: Gate + Sync>(
    rt: &R,
    alloc: Global,
    play: &Play<'_, G>,
    number: u64,
    progress: &mut Progress<'_>,
) -> Result<(), AllocError>
    requires { CanPlay play.now.workload.now number progress.old }
    ensures played { OnOk result (HasPlayed play.now.workload.now play.now.options.now number progress.old progress.new) }
    ensures broken_off { OnErr result (WasBrokenOff number progress.old progress.new) }
{
    if number % 2 == 0 {
        play_parallel(rt, alloc, play, number, progress)
    } else {
        play_alone(alloc, play, number, progress)
    }
}
