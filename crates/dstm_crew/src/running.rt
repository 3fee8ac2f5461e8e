ghost use Rattle.std.specs.Prelude.{◌≡◌, ◌<◌, ◌≤◌, ◌++◌, ◌∷◌, [], true, length, vec_len, vec_capacity, All, IfOk, IfErr};
ghost use Rattle.dstm_jobs.specs.Tables.{Round as Record};
ghost use Rattle.dstm_store.specs.Whole.{IsLawful};
ghost use Rattle.dstm_workload.specs.Workload.{IsValidWorkload};
ghost use Rattle.dstm_records.specs.Rounds.{is_parallel};
ghost use Rattle.dstm_crew.specs.Shares.{IsOpen, WereRun};

use crate::beside::run_all;
use crate::closing::close_behind;
use crate::gate::Gate;
use crate::play::Play;
use crate::retiring::retire_all;
use crate::seats::seat_all;
use crate::share::Share;
use crate::sizing::shape_for;
use dstm_jobs::{Round, Zeros, make};
use dstm_model::Val;
use dstm_store::StoreLaw;
use std::alloc::{AllocError, Global};
use std::thread::Threads;

/// Makes a table from these values, runs each share by a caller of its own, the workers beside one another, retires the
/// callers and closes the table. Its record is put behind the others, for which there has to be room.
pub(crate) fn run_shares<R: Threads + Sync, G: Gate + Sync>(
    rt: &R,
    alloc: Global,
    play: &Play<'_, G>,
    number: u64,
    zeros: &mut Zeros,
    values: Vec<Val>,
    shares: Vec<Share>,
    rounds: &mut Vec<Round>,
) -> Result<(Vec<Share>, Vec<Val>), AllocError>
    requires valid { IsValidWorkload play.now.workload.now }
    requires parallel { is_parallel number ≡ true }
    requires lawful { IsLawful play.now.workload.now.layout values.items }
    requires some { 0 < length shares.items }
    requires few { length shares.items ≤ 32 }
    requires shares { All (IsOpen play.now.workload.now) shares.items }
    requires room { vec_len rounds.old < vec_capacity rounds.old }
    ensures run { IfOk result (λ r. (closed : Record) ×
        ((rounds.new.items ≡ rounds.old.items ++ closed ∷ [])
        × WereRun play.now.workload.now play.now.options.now number values.items r.1.items shares.items r.0.items closed)) }
    ensures none { IfErr result (λ _. rounds.new.items ≡ rounds.old.items) }
{
    let shape = shape_for(play.workload, play.options, values.len(), &shares);
    let law = StoreLaw {
        layout: play.workload.layout,
    };
    let (table, mut founder) = make(alloc, play.options.engine, zeros, values, shape, law)?;
    let mut workers = seat_all(alloc, play.options, &table, &mut founder, shares)?;
    run_all(rt, &table, play, number == 0, &mut workers);
    let shares = retire_all(alloc, &table, &mut founder, workers)?;
    let left = close_behind(alloc, table, founder, rounds);
    Ok((shares, left))
}
