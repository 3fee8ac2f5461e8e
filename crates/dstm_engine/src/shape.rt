ghost use Rattle.std.specs.Prelude.{◌≡◌, ◌+◌, ◌≤◌, false};
ghost use Rattle.dstm_core.specs.declared.shape.Manager.TheVariants.{Polka};
ghost use Rattle.dstm_core.specs.Words.{IsValid};

use dstm_core::{MAX_ATTEMPTS, Manager, Shape};

/// The greatest number of objects of a table for which `shape_for` finds room, whatever its callers.
pub const MOST_OBJECTS: u32 = 524_288;

// Two locators for each attempt, beside one for each object.
const LOCATORS: u32 = 131_072;

/// A shape for so many objects, from 0 to 524,288, and so many callers, from 1 to 64: with as many attempts as there
/// can be, of which each may open two objects for writing, and under Polka. It takes 5.3 MB for each caller, and 32
/// bytes more for each caller and object.
pub fn shape_for(objects: u32, callers: u32) -> Shape
    requires objects { objects ≤ 524288 }
    requires callers { (1 ≤ callers) × (callers ≤ 64) }
    ensures valid { IsValid result }
    ensures objects { result.objects ≡ objects }
    ensures callers { result.callers ≡ callers }
    ensures attempts { result.attempts ≡ 65536 }
    ensures locators { result.locators ≡ objects + 131072 }
    ensures manager { result.manager ≡ Polka }
    ensures all_write { result.all_write ≡ false }
{
    Shape {
        objects,
        callers,
        attempts: MAX_ATTEMPTS,
        locators: objects + LOCATORS,
        manager: Manager::Polka,
        all_write: false,
    }
}
