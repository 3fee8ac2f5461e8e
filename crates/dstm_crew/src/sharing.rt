ghost use Rattle.std.specs.Prelude.{◌≡◌, IfOk};
ghost use Rattle.dstm_crew.specs.Shares.{AreShares, workers_of};

use crate::done::Done;
use crate::share::Share;
use dstm_report::Turns;
use dstm_workload::Workload;
use std::alloc::{AllocError, Global};

/// What the workers of a parallel round have to do: in round 0 each worker has a share, later those that have jobs left.
pub(crate) fn shares_of(
    alloc: Global,
    workload: &Workload,
    number: u64,
    turns: &Turns<'_>,
) -> Result<Vec<Share>, AllocError>
    requires { turns.now.jobs ≡ workload.now.jobs }
    ensures { IfOk result (λ shares. AreShares workload.now turns.now.left
        (workers_of workload.now number turns.now.left) shares.items) }
{
    let mut shares = Vec::new(alloc);
    for worker in 0..workload.workers {
        let places = turns.places(alloc, worker)?;
        if number == 0 || !places.is_empty() {
            let done = Done::with_room(alloc, places.len())?;
            shares.push(Share {
                worker,
                places,
                done,
            })?;
        }
    }
    Ok(shares)
}
