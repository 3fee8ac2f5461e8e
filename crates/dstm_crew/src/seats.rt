ghost use Rattle.std.specs.Prelude.{◌≡◌, ◌<◌, [], length, map, All, IfOk};
ghost use Rattle.dstm_jobs.specs.Tables.{GivesOut};
ghost use Rattle.dstm_tables.specs.Founders.{HasGivenNone, first_of, home_there, made_of};
ghost use Rattle.dstm_tables.specs.Tells.{callers_of};
ghost use Rattle.dstm_records.specs.Records.{seed_for};
ghost use Rattle.dstm_crew.specs.Seats.{HasBack, HasCome, IsNew, share_of};

use crate::share::Share;
use crate::worker::Worker;
use dstm_jobs::{Founder, Table};
use dstm_options::Options;
use std::alloc::{AllocError, Global};

/// Gives each share a worker with a caller of its own, in order. The founder is that of a new table, which has a caller
/// for each share.
pub(crate) fn seat_all(
    alloc: Global,
    options: &Options,
    table: &Table,
    founder: &mut Founder,
    shares: Vec<Share>,
) -> Result<Vec<Worker>, AllocError>
    requires founder { HasGivenNone table.now founder.old }
    requires callers { callers_of (first_of table.now) ≡ length shares.items }
    ensures shares { IfOk result (λ workers. map share_of workers.items ≡ shares.items) }
    ensures new { IfOk result (λ workers. All (λ worker. IsNew table.now worker.caller) workers.items) }
    ensures come { IfOk result (λ workers. All (HasCome options.now) workers.items) }
    ensures founder { IfOk result (λ _. HasBack table.now (length shares.items) [] founder.new) }
{
    let mut workers = Vec::with_capacity(alloc, shares.len())?;
    for share in shares {
        workers.push_reserved(seat(alloc, options, table, founder, share)?);
    }
    Ok(workers)
}

// Gives a share a worker with a caller of its own. The table has one left.
fn seat(
    alloc: Global,
    options: &Options,
    table: &Table,
    founder: &mut Founder,
    share: Share,
) -> Result<Worker, AllocError>
    requires table { home_there founder.old ≡ table.now }
    requires room { made_of founder.old < callers_of (first_of table.now) }
    ensures share { IfOk result (λ worker. share_of worker ≡ share) }
    ensures given { IfOk result (λ worker.
        GivesOut table.now founder.old founder.new (seed_for options.now share.worker) worker.caller) }
{
    let seed = options.seed.wrapping_add(u64::from(share.worker));
    let caller = founder.next_caller(alloc, table, seed)?;
    let Share {
        worker,
        places,
        done,
    } = share;
    Ok(Worker {
        number: worker,
        caller,
        places,
        done,
        apart: [0; 16],
    })
}
