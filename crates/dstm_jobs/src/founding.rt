ghost use Rattle.std.specs.Prelude.{◌≡◌, IfOk, length};
ghost use Rattle.dstm_core.specs.Words.{IsValid};
ghost use Rattle.dstm_store.specs.Whole.{IsLawful};
ghost use Rattle.dstm_jobs.specs.Founders.{IsFounded};

use crate::tables::{Founder, Table};
use dstm_core::Shape;
use dstm_model::Val;
use dstm_options::Engine;
use dstm_store::StoreLaw;
use dstm_tables::{Zeros, make_dstm, make_tl2};
use std::alloc::{AllocError, Global};

/// A new table of an engine, whose objects have these values, and its founder. Of the shape TL2 takes the numbers of
/// callers and of attempts, and it takes no zeros: each of its words has a value at once.
pub fn make(
    alloc: Global,
    engine: Engine,
    zeros: &mut Zeros,
    values: Vec<Val>,
    shape: Shape,
    law: StoreLaw,
) -> Result<(Table, Founder), AllocError>
    requires valid { IsValid shape }
    requires values { length values.items ≡ shape.objects }
    requires lawful { IsLawful law.layout values.items }
    ensures { IfOk result (λ t. IsFounded engine values.items shape law t.0 t.1) }
{
    match engine {
        Engine::Dstm => make_dstm(alloc, zeros, values, shape, law),
        Engine::Tl2 => make_tl2(alloc, values, shape.callers, u64::from(shape.attempts), law),
    }
}
