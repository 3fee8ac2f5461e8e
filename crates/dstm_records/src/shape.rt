ghost use Rattle.std.specs.Prelude.{◌≡◌, ◌<◌, ◌≤◌};
ghost use Rattle.dstm_core.specs.Words.{IsValid as IsValidShape};
ghost use Rattle.dstm_model.specs.Layout.{IsValid};
ghost use Rattle.dstm_model.specs.Objects.{objects_of};
ghost use Rattle.dstm_records.specs.Rounds.{attempts_for, locators_for};

use dstm_core::{Manager, Shape};
use dstm_model::Layout;

/// The greatest number of jobs for which a caller has more attempts than for fewer.
const MOST_JOBS: usize = 4_092;

/// How many locators a caller has beside one for each object.
const SPARE_LOCATORS: u32 = 16_384;

/// How large the table of a round is, for so many callers, none of which has to run more than so many jobs.
pub fn shape_for(
    layout: &Layout,
    objects: usize,
    callers: usize,
    jobs: usize,
    manager: Manager,
    all_write: bool,
) -> Shape
    requires layout { IsValid layout.now }
    requires objects { objects ≡ objects_of layout.now }
    requires some { 0 < callers }
    requires few { callers ≤ 32 }
    ensures valid { IsValidShape result }
    ensures objects { result.objects ≡ objects }
    ensures callers { result.callers ≡ callers }
    ensures attempts { result.attempts ≡ attempts_for jobs }
    ensures locators { result.locators ≡ locators_for objects }
    ensures manager { result.manager ≡ manager }
    ensures all_write { result.all_write ≡ all_write }
{
    let objects = objects as u32;
    let jobs = jobs.min(MOST_JOBS) as u32;
    Shape {
        objects,
        callers: callers as u32,
        attempts: 4 * jobs + 16,
        locators: objects + SPARE_LOCATORS,
        manager,
        all_write,
    }
}
