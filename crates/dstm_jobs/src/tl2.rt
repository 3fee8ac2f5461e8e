//! Trying jobs by TL2.

ghost use Rattle.std.specs.Prelude.{◌≡◌, ℕ, IfNone, IfSome};
ghost use Rattle.dstm_jobs.specs.Tables.{AtRest, IsSpentFrom};
ghost use Rattle.dstm_tables.specs.Callers.{law_of, let_go};
ghost use Rattle.dstm_jobs.specs.Jobs.{HasTried};
ghost use Rattle.dstm_jobs.specs.OnlyCallers.{HasGivenUp};
ghost use Rattle.dstm_jobs.specs.Styles.{CanTry};
ghost use Rattle.dstm_jobs.specs.declared.style.Style.TheVariants.{Branches};
ghost use Rattle.dstm_tables.specs.declared.tables.Caller.TheVariants.{Tl2};

use crate::trying::{Finished, Tried};
use dstm_compose::{CompBody, Outcome};
use dstm_mem::Body;
use dstm_model::Layout;
use dstm_store::StoreLaw;
use dstm_tl2_engine::{TlCaller, TlSpent, TlStm};
use dstm_workload::Job;

/// Makes one attempt at a job, by its first open branch. One that stands at a blocked job is given up at once.
pub(crate) fn attempt_branches(
    caller: &mut TlCaller<StoreLaw>,
    stm: &TlStm<StoreLaw>,
    layout: &Layout,
    job: &Job,
) -> Tried
    requires table { caller.old.home ≡ stm.now }
    requires law { (law_of (Tl2 caller.old)).layout ≡ layout.now }
    requires rest { AtRest (Tl2 caller.old) }
    requires can { CanTry Branches layout.now job.now }
    ensures { (rechecks : ℕ) →
        HasTried Branches rechecks layout.now job.now (Tl2 caller.old) (Tl2 caller.new) result }
{
    let mut tx = match caller.begin(stm) {
        Ok(tx) => tx,
        Err(TlSpent) => return Tried::Spent,
    };
    let mut body = CompBody::make(layout, &job.ops);
    match body.run(&mut tx) {
        Ok(()) => match body.outcome() {
            Outcome::Ran(replies) => match tx.commit() {
                Ok(number) => Tried::Done(Finished { number, replies }),
                Err(_) => Tried::Again,
            },
            Outcome::Blocked => {
                tx.abandon();
                Tried::Blocked
            }
        },
        Err(_) => {
            tx.abandon();
            Tried::Again
        }
    }
}

/// Commits an attempt of a table's only caller that opens nothing, and answers the number that it drew; or the caller is
/// spent.
pub(crate) fn give_up(caller: &mut TlCaller<StoreLaw>, stm: &TlStm<StoreLaw>) -> Option<u64>
    requires table { caller.old.home ≡ stm.now }
    requires only { caller.old.home.terms.callers ≡ 1 }
    requires rest { AtRest (Tl2 caller.old) }
    ensures given_up { IfSome result (HasGivenUp (Tl2 caller.old) (Tl2 caller.new)) }
    ensures spent { IfNone result (IsSpentFrom (Tl2 caller.old) (Tl2 caller.new)) }
    ensures keeps { let_go (Tl2 caller.new) ≡ let_go (Tl2 caller.old) }
{
    let tx = match caller.begin(stm) {
        Ok(tx) => tx,
        Err(TlSpent) => return None,
    };
    match tx.commit() {
        Ok(number) => Some(number),
        Err(_) => unreachable!(),
    }
}
