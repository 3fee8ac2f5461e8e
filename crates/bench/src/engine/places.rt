// The objects that attempts open.
ghost use Rattle.std.specs.Prelude.{◌≡◌, ◌<◌, ◌≤◌, All, IfOk};
ghost use Rattle.dstm_core.specs.Words.{IsValid};
ghost use Rattle.bench.specs.Places.{Exist};

use dstm_core::{Manager, Shape};
use std::alloc::{AllocError, Global};

/// The most objects of a table.
pub const MAX_OBJECTS: u32 = 10_000;

/// The most objects that an attempt opens.
pub const MAX_OPENED: u32 = 32;

/// The attempts that are timed together.
pub const ATTEMPTS: u32 = 400;

/// A table of so many objects for one caller.
pub fn shape_of(objects: u32, manager: Manager) -> Shape
    requires few { objects ≤ MAX_OBJECTS }
    ensures valid { IsValid result }
    ensures objects { result.objects ≡ objects }
{
    Shape {
        objects,
        callers: 1,
        attempts: 16_384,
        locators: objects + 65_536,
        manager,
        all_write: false,
    }
}

// So many objects, each 37 places after the one before.
fn choose(alloc: Global, shape: &Shape, first: u32, count: u32) -> Result<Vec<u32>, AllocError>
    requires some { 0 < shape.now.objects }
    requires few { (first ≤ MAX_OBJECTS) × (count ≤ MAX_OPENED) }
    ensures { IfOk result (λ places. Exist shape.now places.items) }
{
    let mut places = Vec::new(alloc);
    for i in 0..count {
        places.push((first + 37 * i) % shape.objects)?;
    }
    Ok(places)
}

/// The objects that each attempt opens.
pub fn choose_all(alloc: Global, shape: &Shape) -> Result<Vec<Vec<u32>>, AllocError>
    requires some { 0 < shape.now.objects }
    requires few { shape.now.objects ≤ MAX_OBJECTS }
    ensures { IfOk result (λ lists. All (λ places. Exist shape.now places.items) lists.items) }
{
    let count = MAX_OPENED.min(shape.objects);
    let mut lists = Vec::new(alloc);
    for i in 0..ATTEMPTS {
        lists.push(choose(alloc, shape, i * 611 % shape.objects, count)?)?;
    }
    Ok(lists)
}
