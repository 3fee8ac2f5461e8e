ghost use Rattle.std.specs.Prelude.{◌≡◌, ◌<◌, ◌≤◌, length};
ghost use Rattle.dstm_core.specs.Words.{IsValid};
ghost use Rattle.dstm_model.specs.Objects.{objects_of};
ghost use Rattle.dstm_crew.specs.Shares.{most_places};
ghost use Rattle.dstm_records.specs.Rounds.{attempts_for, locators_for};
ghost use Rattle.dstm_workload.specs.Workload.{IsValidWorkload};

use crate::share::Share;
use dstm_core::Shape;
use dstm_options::Options;
use dstm_workload::Workload;
use std::cmp::max;

/// How large the table of a parallel round is, and how its callers behave.
pub(crate) fn shape_for(
    workload: &Workload,
    options: &Options,
    objects: usize,
    shares: &[Share],
) -> Shape
    requires valid { IsValidWorkload workload.now }
    requires objects { objects ≡ objects_of workload.now.layout }
    requires some { 0 < length shares.now }
    requires few { length shares.now ≤ 32 }
    ensures valid { IsValid result }
    ensures objects { result.objects ≡ objects }
    ensures callers { result.callers ≡ length shares.now }
    ensures attempts { result.attempts ≡ attempts_for (most_places shares.now) }
    ensures locators { result.locators ≡ locators_for objects }
    ensures manager { result.manager ≡ options.now.manager }
    ensures all_write { result.all_write ≡ options.now.all_write }
{
    dstm_records::shape_for(
        &workload.layout,
        objects,
        shares.len(),
        most_places(shares),
        options.manager,
        options.all_write,
    )
}

// The greatest number of jobs in a share.
fn most_places(shares: &[Share]) -> usize
    ensures { result ≡ most_places shares.now }
{
    let mut most = 0;
    for share in shares {
        most = max(most, share.places.len());
    }
    most
}
