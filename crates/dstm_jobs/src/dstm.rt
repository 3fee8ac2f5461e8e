//! Trying jobs by DSTM.

ghost use Rattle.std.specs.Prelude.{◌≡◌, ◌<◌, ◌≤◌, ℕ, IfErr, IfNone, IfSome, IsTrue, List, OnOk, Some};
ghost use Rattle.dstm_compose.specs.Compose.{IsRight, KeepsOut};
ghost use Rattle.dstm_compose.specs.declared.body.Outcome.{Outcome};
ghost use Rattle.dstm_engine.specs.Attempts.{Admits, looks, sights};
ghost use Rattle.dstm_engine.specs.Callers.{is_live, is_opened, live_held, live_opened, shape_of, written};
ghost use Rattle.dstm_engine.specs.Makes as engine;
ghost use Rattle.dstm_engine.specs.Outcomes.{IsLeft};
ghost use Rattle.dstm_engine.specs.Transactions.{tx_place};
ghost use Rattle.dstm_mem.specs.Memory.{with_set};
ghost use Rattle.dstm_mem.specs.Operations.{IsFresh, Leads, OnlyReads};
ghost use Rattle.dstm_model.specs.declared.value.Val.{Val};
ghost use Rattle.dstm_store.specs.Whole.{IsLawful};
ghost use Rattle.dstm_jobs.specs.Tables.{AtRest, IsSpentFrom};
ghost use Rattle.dstm_tables.specs.Callers.{law_of, let_go};
ghost use Rattle.dstm_jobs.specs.Jobs.{HasTried};
ghost use Rattle.dstm_jobs.specs.Law.{keeps};
ghost use Rattle.dstm_jobs.specs.OnlyCallers.{HasGivenUp};
ghost use Rattle.dstm_jobs.specs.Rechecks.{HasRechecked, RechecksAtMost};
ghost use Rattle.dstm_jobs.specs.Styles.{CanTry};
ghost use Rattle.dstm_jobs.specs.declared.style.Style.TheVariants.{Branches, Loose};
ghost use Rattle.dstm_tables.specs.declared.tables.Caller.TheVariants.{Dstm};

use crate::trying::{Finished, Tried};
use dstm_compose::{CompBody, Outcome};
use dstm_engine::{Caller, Ended, Kept, Opener, Spent, Stm, Tx, attempt_loose};
use dstm_mem::{Body, Mem};
use dstm_model::Layout;
use dstm_order::Again;
use dstm_store::{LooseJobBody, StoreLaw};
use dstm_workload::Job;
use std::marker::{Brand, PhantomData};

/// Makes one attempt at a job, by its operations in order, and lets reads go.
pub(crate) fn attempt_releasing(
    caller: &mut Caller<StoreLaw>,
    stm: &Stm<StoreLaw>,
    layout: &Layout,
    job: &Job,
) -> Tried
    requires table { caller.old.home ≡ stm.now }
    requires law { (law_of (Dstm caller.old)).layout ≡ layout.now }
    requires rest { AtRest (Dstm caller.old) }
    requires can { CanTry Loose layout.now job.now }
    ensures { HasTried Loose 0 layout.now job.now (Dstm caller.old) (Dstm caller.new) result }
{
    let mut body = LooseJobBody::make(layout, &job.ops);
    match attempt_loose(caller, stm, &mut body) {
        Ok(done) => Tried::Done(Finished {
            number: done.number,
            replies: body.replies(),
        }),
        Err(Ended::Again(_)) => Tried::Again,
        Err(Ended::Spent) => Tried::Spent,
    }
}

/// Makes one attempt at a job, by its first open branch. One that stands at a blocked job makes sure so many times that what
/// it has read stands, and is given up. It lets no read go.
pub(crate) fn attempt_branches(
    rechecks: u32,
    caller: &mut Caller<StoreLaw>,
    stm: &Stm<StoreLaw>,
    layout: &Layout,
    job: &Job,
) -> Tried
    requires table { caller.old.home ≡ stm.now }
    requires law { (law_of (Dstm caller.old)).layout ≡ layout.now }
    requires rest { AtRest (Dstm caller.old) }
    requires can { CanTry Branches layout.now job.now }
    requires some { 0 < rechecks }
    ensures tried { HasTried Branches rechecks layout.now job.now (Dstm caller.old) (Dstm caller.new) result }
    ensures keeps { let_go (Dstm caller.new) ≡ let_go (Dstm caller.old) }
{
    let mut tx = match caller.begin(stm) {
        Ok(tx) => tx,
        Err(Spent) => return Tried::Spent,
    };
    let mut body = CompBody::make(layout, &job.ops);
    match run(&mut tx, &mut body) {
        Ok(()) => match body.outcome() {
            Outcome::Ran(replies) => match tx.commit() {
                Ok(number) => Tried::Done(Finished { number, replies }),
                Err(_) => Tried::Again,
            },
            Outcome::Blocked => {
                let rechecked = recheck_often(&mut tx, rechecks);
                tx.abandon();
                match rechecked {
                    Ok(()) => Tried::Blocked,
                    Err(_) => Tried::Again,
                }
            }
        },
        Err(_) => {
            tx.abandon();
            Tried::Again
        }
    }
}

// Runs a body on an attempt that had at most one sight for each look at an object, and lets no read go.
fn run<'a>(tx: &mut Tx<'a, StoreLaw>, body: &mut CompBody) -> Result<(), Again>
    requires fresh { IsFresh ⟦<Tx<'a, StoreLaw> as Mem>⟧ tx.old }
    requires lawful { (map : List Val) → Admits keeps tx.old.caller.now map → IsLawful body.old.task.layout map }
    requires few { sights tx.old.caller.now ≤ looks tx.old.caller.now }

    ensures lawful { OnOk result ((map : List Val) → Admits keeps tx.new.caller.now map →
        IsLawful body.new.task.layout (with_set map (written tx.new.caller.now))) }
    ensures right { OnOk result ((map : List Val) → Admits keeps tx.new.caller.now map →
        IsRight body.new.task map (with_set map (written tx.new.caller.now)) body.new.outcome) }
    ensures task { body.new.task ≡ body.old.task }
    ensures leads { Leads ⟦<Tx<'a, StoreLaw> as Mem>⟧ tx.old tx.new result }
    ensures looks { OnOk result (body.new.outcome ≡ Outcome.Blocked →
        OnlyReads ⟦<Tx<'a, StoreLaw> as Mem>⟧ tx.old tx.new) }
    ensures outside { OnOk result (KeepsOut body.new.task (live_held tx.new.caller.now) (live_opened tx.new.caller.now)) }
    ensures kept { engine.let_go tx.new.caller.now ≡ engine.let_go tx.old.caller.now }
    ensures few { sights tx.new.caller.now ≤ looks tx.new.caller.now }
{
    let mut opener = Opener {
        tx: &mut *tx,
        of: PhantomData::<(Brand, Kept)>,
    };
    body.run(&mut opener)
}

// Makes sure so many times that what was read stands.
fn recheck_often(tx: &mut Tx<StoreLaw>, times: u32) -> Result<(), Again>
    requires live { IsTrue (is_live tx.old.caller.now) }
    ensures stands { OnOk result (HasRechecked times tx.old.caller.now tx.new.caller.now) }
    ensures few { RechecksAtMost times tx.old.caller.now tx.new.caller.now }
    ensures opened { (o : ℕ) → is_opened tx.new.caller.now o ≡ is_opened tx.old.caller.now o }
    ensures left { IfErr result (IsLeft tx.new.caller.now) }
    ensures dead { IfErr result (λ again. tx.new.caller.now.left ≡ Some again) }
    ensures kept { engine.let_go tx.new.caller.now ≡ engine.let_go tx.old.caller.now }
    ensures reference { tx.new.caller.ghost_name ≡ tx.old.caller.ghost_name }
    ensures table { tx.new.stm.now ≡ tx.old.stm.now }
    ensures place { tx_place tx.new.caller.ghost_name tx.new.stm.now tx.new.caller.now
        ≡ tx_place tx.old.caller.ghost_name tx.old.stm.now tx.old.caller.now }
{
    for _pass in 0..times {
        tx.recheck()?;
    }
    Ok(())
}

/// Commits an attempt of a table's only caller that opens nothing, and answers the number that it drew; or the caller is
/// spent.
pub(crate) fn give_up(caller: &mut Caller<StoreLaw>, stm: &Stm<StoreLaw>) -> Option<u64>
    requires table { caller.old.home ≡ stm.now }
    requires only { (shape_of caller.old).callers ≡ 1 }
    requires rest { AtRest (Dstm caller.old) }
    ensures given_up { IfSome result (HasGivenUp (Dstm caller.old) (Dstm caller.new)) }
    ensures spent { IfNone result (IsSpentFrom (Dstm caller.old) (Dstm caller.new)) }
    ensures keeps { let_go (Dstm caller.new) ≡ let_go (Dstm caller.old) }
{
    let tx = match caller.begin(stm) {
        Ok(tx) => tx,
        Err(Spent) => return None,
    };
    match tx.commit() {
        Ok(number) => Some(number),
        Err(_) => unreachable!(),
    }
}
