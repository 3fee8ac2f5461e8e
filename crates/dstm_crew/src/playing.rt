ghost use Rattle.std.specs.Prelude.{◌≡◌, ◌≤◌, ◌+◌, true, length, OnOk, OnErr};
ghost use Rattle.dstm_records.specs.Rounds.{is_parallel};
ghost use Rattle.dstm_crew.specs.Playing.{CanPlay, HasPlayed, WasBrokenOff};

use crate::collecting::collect;
use crate::gate::Gate;
use crate::play::Play;
use crate::progress::Progress;
use crate::running::run_shares;
use crate::sharing::shares_of;
use std::alloc::{AllocError, Global};
use std::mem::replace;
use std::thread::Threads;

/// Plays a parallel round. In round 0 each worker passes the gate. Nothing fails behind the table's close: a table that was
/// closed has its record.
pub fn play_parallel<R: Threads + Sync, G: Gate + Sync>(
    rt: &R,
    alloc: Global,
    play: &Play<'_, G>,
    number: u64,
    progress: &mut Progress<'_>,
) -> Result<(), AllocError>
    requires can { CanPlay play.now.workload.now number progress.old }
    requires parallel { is_parallel number ≡ true }
    ensures played { OnOk result (HasPlayed play.now.workload.now play.now.options.now number progress.old progress.new) }
    ensures room { OnOk result (length progress.new.rows.items + length progress.new.turns.left ≤ progress.new.rows.room) }
    ensures broken_off { OnErr result (WasBrokenOff number progress.old progress.new) }
{
    let shares = shares_of(alloc, play.workload, number, &progress.turns)?;
    let next = vec![in alloc; 0; shares.len()]?;
    let numbers = vec![in alloc; None; shares.len()]?;
    let values = replace(&mut progress.values, Vec::new(alloc));
    let (shares, left) = run_shares(
        rt,
        alloc,
        play,
        number,
        &mut progress.zeros,
        values,
        shares,
        &mut progress.rounds,
    )?;
    progress.values = left;
    collect(
        play.workload,
        number,
        &shares,
        next,
        numbers,
        &mut progress.turns,
        &mut progress.rows,
    );
    Ok(())
}
