ghost use Rattle.std.specs.Prelude.{◌≡◌, ◌≤◌, ◌+◌, ◌==◌, ◌&&◌, not, false, length, IfOk, IfSome, OnOk, OnErr};
ghost use Rattle.std.specs.List.{slice_get};
ghost use Rattle.dstm_workload.specs.Workload.{IsValidWorkload};
ghost use Rattle.dstm_store.specs.Whole.{IsLawful};
ghost use Rattle.dstm_records.specs.Records.{seed_for};
ghost use Rattle.dstm_records.specs.Rounds.{is_parallel};
ghost use Rattle.dstm_tables.specs.Callers.{CameByCalls, HasSeed};
ghost use Rattle.dstm_crew.specs.Opened.{IsOpened, with_jobs};
ghost use Rattle.dstm_crew.specs.Playing.{CanPlay, HasPlayed, WasBrokenOff};

use crate::closing::close_behind;
use crate::play::Play;
use crate::progress::Progress;
use crate::sweeping::run_alone;
use dstm_jobs::{Caller, Founder, Table, Zeros, make};
use dstm_model::Val;
use dstm_options::Options;
use dstm_records::shape_for;
use dstm_report::Turns;
use dstm_store::StoreLaw;
use dstm_workload::Workload;
use std::alloc::{AllocError, Global};
use std::mem::replace;

// The workers that have jobs left: how many they are, and the least of them.
#[derive(Clone, Copy)]
struct Waiting {
    count: u32,
    first: u32,
}

// Plays an alone round: one caller runs the first job left of each worker. Nothing fails behind the
// table's close.
pub(crate) fn play_alone<G>(
    alloc: Global,
    play: &Play<'_, G>,
    number: u64,
    progress: &mut Progress<'_>,
) -> Result<(), AllocError>
    requires can { CanPlay play.now.workload.now number progress.old }
    requires alone { is_parallel number ≡ false }
    ensures played { OnOk result (HasPlayed play.now.workload.now play.now.options.now number progress.old progress.new) }
    ensures broken_off { OnErr result (WasBrokenOff number progress.old progress.new) }
{
    let waiting = count_waiting(&progress.turns, play.workload.workers);
    let values = replace(&mut progress.values, Vec::new(alloc));
    let (table, founder, caller) = open_table(
        alloc,
        play.workload,
        play.options,
        waiting,
        &mut progress.zeros,
        values,
    )?;
    let mut founder = founder;
    let mut caller = caller;
    run_alone(
        &table,
        &mut caller,
        play,
        number,
        &mut progress.turns,
        &mut progress.rows,
    );
    founder.retire(&table, caller);
    let left = close_behind(alloc, table, founder, &mut progress.rounds);
    progress.values = left;
    Ok(())
}

// The workers below this number that have jobs left.
fn count_waiting(turns: &Turns<'_>, workers: u32) -> Waiting
    ensures count { result.count ≡ length (with_jobs workers turns.now.left) }
    ensures few { result.count ≤ workers }
    ensures first { IfSome (slice_get (with_jobs workers turns.now.left) 0) (λ worker. result.first ≡ worker) }
{
    let mut count = 0;
    let mut first = 0;
    for worker in (0..workers).rev() {
        if turns.first(worker).is_some() {
            count += 1;
            first = worker;
        }
    }
    Waiting { count, first }
}

// A table on these values for one caller, which has the seed of the least worker that waits, and the caller.
fn open_table(
    alloc: Global,
    workload: &Workload,
    options: &Options,
    waiting: Waiting,
    zeros: &mut Zeros,
    values: Vec<Val>,
) -> Result<(Table, Founder, Caller), AllocError>
    requires valid { IsValidWorkload workload.now }
    requires lawful { IsLawful workload.now.layout values.items }
    requires few { waiting.count ≤ 32 }
    ensures opened { IfOk result (λ t. IsOpened workload.now options.now waiting.count values.items t.0 t.1 t.2) }
    ensures seed { IfOk result (λ t. HasSeed (seed_for options.now waiting.first) t.2) }
    ensures come { IfOk result (λ t. CameByCalls (seed_for options.now waiting.first) t.2) }
{
    let shape = shape_for(
        &workload.layout,
        values.len(),
        1,
        waiting.count as usize,
        options.manager,
        writes_all(options, workload.version),
    );
    let law = StoreLaw {
        layout: workload.layout,
    };
    let (table, mut founder) = make(alloc, options.engine, zeros, values, shape, law)?;
    let seed = options.seed.wrapping_add(u64::from(waiting.first));
    let caller = founder.next_caller(alloc, &table, seed)?;
    Ok((table, founder, caller))
}

// Whether objects that are only read are opened for writing too: in version 3 reads stay reads.
fn writes_all(options: &Options, version: u32) -> bool
    ensures { result ≡ (options.now.all_write && not (version == 3)) }
{
    options.all_write && version != 3
}
