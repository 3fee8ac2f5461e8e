ghost use Rattle.std.specs.Prelude.{◌≡◌, [], length, map, All, IfOk};
ghost use Rattle.dstm_tables.specs.Callers.{IsOver, home_of};
ghost use Rattle.dstm_tables.specs.Founders.{TakesBack, home_there};
ghost use Rattle.dstm_crew.specs.Seats.{HasBack, RestsAt, share_of};

use crate::share::Share;
use crate::worker::Worker;
use dstm_jobs::{Founder, Table};
use std::alloc::{AllocError, Global};

/// Retires the callers of all workers, in order, and gives back their shares.
pub(crate) fn retire_all(
    alloc: Global,
    table: &Table,
    founder: &mut Founder,
    workers: Vec<Worker>,
) -> Result<Vec<Share>, AllocError>
    requires founder { HasBack table.now (length workers.items) [] founder.old }
    requires rest { All (λ worker. RestsAt table.now worker.caller) workers.items }
    ensures shares { IfOk result (λ shares. shares.items ≡ map share_of workers.items) }
    ensures founder { IfOk result (λ _. HasBack table.now 0 workers.items founder.new) }
{
    let mut shares = Vec::with_capacity(alloc, workers.len())?;
    for worker in workers {
        shares.push_reserved(retire(table, founder, worker));
    }
    Ok(shares)
}

// Retires the caller of a worker, and gives back its share.
fn retire(table: &Table, founder: &mut Founder, worker: Worker) -> Share
    requires table { home_there founder.old ≡ table.now }
    requires caller { home_of worker.caller ≡ table.now }
    requires over { IsOver worker.caller }
    ensures share { result ≡ share_of worker }
    ensures taken { TakesBack founder.old founder.new worker.caller }
{
    let Worker {
        number,
        caller,
        places,
        done,
        ..
    } = worker;
    founder.retire(table, caller);
    Share {
        worker: number,
        places,
        done,
    }
}
