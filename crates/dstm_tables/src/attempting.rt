ghost use Rattle.std.specs.Prelude.{◌≡◌, IfErr, IfOk};
ghost use Rattle.dstm_tables.specs.Callers.{AtRest, home_of, law_of, let_go};
ghost use Rattle.dstm_tables.specs.Tries.{Did, EndsBy};

use crate::tables::{Caller, Table};
use dstm_mem::Body;
use dstm_model::Law;
use dstm_tl2_engine::{TlEnded, tl_attempt};

/// Why an attempt did not commit.
#[derive(Clone, Copy, Debug, PartialEq, Eq)]
pub enum Ended {
    /// It was left, and must be made again.
    Again,
    /// None was made: the caller has no attempt left, or too few locators.
    Spent,
}

/// Makes one attempt: begins it, runs the body once, and commits. It answers the number that it drew, lets no read go, and makes
/// sure that its reads stand no more often than its opens and its commit do.
pub fn attempt<L: Law, B: Body<L>>(
    caller: &mut Caller<L>,
    table: &Table<L>,
    body: &mut B,
) -> Result<u64, Ended>
    requires table { home_of caller.old ≡ table.now }
    requires law { B.law body.old ≡ law_of caller.old }
    requires rest { AtRest L.holds caller.old }
    ensures done { IfOk result (Did L.holds (B.right body.new) (B.leaves body.new) caller.old caller.new) }
    ensures ended { IfErr result (EndsBy L.holds caller.old caller.new) }
    ensures keeps { let_go caller.new ≡ let_go caller.old }
    ensures task { B.task body.new ≡ B.task body.old }
{
    match caller {
        Caller::Dstm(caller) => match table {
            Table::Dstm(stm) => match dstm_engine::attempt(caller, stm, body) {
                Ok(done) => Ok(done.number),
                Err(dstm_engine::Ended::Again(_)) => Err(Ended::Again),
                Err(dstm_engine::Ended::Spent) => Err(Ended::Spent),
            },
            Table::Tl2(_) => unreachable!(),
        },
        Caller::Tl2(caller) => match table {
            Table::Tl2(stm) => match tl_attempt(caller, stm, body) {
                Ok(done) => Ok(done.number),
                Err(TlEnded::Again(_)) => Err(Ended::Again),
                Err(TlEnded::Spent) => Err(Ended::Spent),
            },
            Table::Dstm(_) => unreachable!(),
        },
    }
}
