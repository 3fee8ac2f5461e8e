ghost use Rattle.std.specs.Prelude.{◌≡◌, ◌↔◌, None, IfOk, IfErr, true};
ghost use Rattle.dstm_tl2_engine.specs.Attempts.{CommitsRun, Settles};
ghost use Rattle.dstm_tl2_engine.specs.Callers.{law_of, state, table_of_caller};
ghost use Rattle.dstm_tl2_engine.specs.Endings.{Attempts, EndsBy, IsSpent};
ghost use Rattle.dstm_tl2_order.specs.Order.{is_spent};

use crate::caller::TlCaller;
use crate::error::{TlDone, TlEnded, TlSpent};
use crate::stm::TlStm;
use dstm_mem::Body;
use dstm_model::Law;

/// Makes one attempt: begins it, runs the body once, and commits.
pub fn tl_attempt<L: Law, B: Body<L>>(
    caller: &mut TlCaller<L>,
    stm: &TlStm<L>,
    body: &mut B,
) -> Result<TlDone, TlEnded>
    requires table { caller.old.home ≡ stm.now }
    requires law { B.law body.old ≡ law_of caller.old }
    ensures attempts { IfOk result (λ _. Attempts L.holds caller.old caller.new None) }
    ensures settles { IfOk result (λ done.
        Settles L.holds (B.right body.new) caller.old caller.new done.number) }
    ensures runs { IfOk result (λ done.
        CommitsRun L.holds (B.right body.new) (B.leaves body.new) caller.old caller.new done.number) }
    ensures ended { IfErr result (EndsBy L.holds caller.old caller.new) }
    ensures spent { IfErr result (λ e. IsSpent e ↔ (is_spent (table_of_caller caller.old) (state caller.old) ≡ true)) }
    ensures enough { IfOk result (λ _. is_spent (table_of_caller caller.old) (state caller.old) ≡ true → ⊥) }
    ensures table { caller.new.home ≡ caller.old.home }
    ensures law { B.law body.new ≡ B.law body.old }
    ensures task { B.task body.new ≡ B.task body.old }
{
    let mut tx = match caller.begin(stm) {
        Ok(tx) => tx,
        Err(TlSpent) => return Err(TlEnded::Spent),
    };
    match body.run(&mut tx) {
        Ok(()) => match tx.commit() {
            Ok(number) => Ok(TlDone { number }),
            Err(again) => Err(TlEnded::Again(again)),
        },
        Err(again) => {
            tx.abandon();
            Err(TlEnded::Again(again))
        }
    }
}
