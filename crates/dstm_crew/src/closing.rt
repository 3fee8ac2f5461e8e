ghost use Rattle.std.specs.Prelude.{◌≡◌, ◌<◌, ◌++◌, ◌∷◌, [], vec_len, vec_capacity};
ghost use Rattle.dstm_tables.specs.Founders.{guests_of, home_there, out_of, seen_by};
ghost use Rattle.dstm_jobs.specs.Tables.{IsRun};
ghost use Rattle.dstm_tables.specs.Tells.{values_of};

use dstm_jobs::{Founder, Round, Table};
use dstm_model::Val;
use std::alloc::Global;

/// Closes a table, and puts its record behind the others, for which there has to be room. It gives the values that the table
/// has left. It takes no memory, so no record of a closed table is lost.
pub(crate) fn close_behind(
    alloc: Global,
    table: Table,
    founder: Founder,
    rounds: &mut Vec<Round>,
) -> Vec<Val>
    requires founder { home_there founder ≡ table }
    requires out { out_of founder ≡ 0 }
    requires guests { guests_of founder ≡ 0 }
    requires room { vec_len rounds.old < vec_capacity rounds.old }
    ensures kept { rounds.new.items ≡ rounds.old.items ++ seen_by founder ∷ [] }
    ensures run { IsRun (seen_by founder) }
    ensures values { result.items ≡ values_of (seen_by founder) }
{
    match table.close(alloc, founder) {
        Ok((left, closed)) => {
            rounds.push_reserved(closed);
            left
        }
        Err(_) => unreachable!(),
    }
}
