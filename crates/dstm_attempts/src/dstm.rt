//! Attempts by DSTM.

ghost use Rattle.std.specs.Prelude.{◌≡◌, ◌≤◌, List, length, true, false, IfErr, Ok, OnOk};
ghost use Rattle.dstm_model.specs.declared.value.Val.{Val};
ghost use Rattle.dstm_words.specs.Seats.{Home};
ghost use Rattle.dstm_tables.specs.Callers.{begun};
ghost use Rattle.dstm_tables.specs.declared.tables.Caller.TheVariants.{Dstm};
ghost use Rattle.dstm_attempts.specs.Attempts.{AddsNothing, BeginsNone, Flags, IsAbandoned, IsQuit, IsUntouched, Keeps, MayBegin};
ghost use Rattle.dstm_attempts.specs.Waiting.{FindsAll, FindsChange, FindsOther, HasNoRoom, IsSpentLettingGo, LetsGo, OpensFirst, OpensNoMore, RenewsNothing};
ghost use Rattle.dstm_attempts.specs.declared.error.Look.TheVariants as look;

use crate::calls::Calls;
use crate::error::{Look, NotOpened, Spent};
use dstm_engine::{Caller, Stm};
use dstm_model::{Law, Val};
use std::alloc::AllocError;

impl<L: Law> Calls<L, Stm<L>> for Caller<L> {
    ghost Place = { Home L };

    ghost home = { λ caller. caller.home };

    ghost place = { λ stm. stm };

    ghost caller = { λ caller. Dstm caller };

    #[inline(always)]
    fn begin(&mut self, going: &mut bool, stm: &Stm<L>) -> Result<(), Spent> {
        let Ok(_tx) = Caller::begin(self, stm) else {
            *going = false;
            return Err(Spent);
        };
        *going = true;
        Ok(())
    }

    fn read(&mut self, going: &mut bool, stm: &Stm<L>, object: u32) -> Result<Val, NotOpened> {
        self.may_open(*going, stm, object)?;
        let mut tx = self.resume(stm);
        match tx.open_read(object) {
            Ok(value) => Ok(value),
            Err(_) => {
                *going = false;
                Err(NotOpened::Over)
            }
        }
    }

    #[inline(always)]
    fn write(&mut self, going: &mut bool, stm: &Stm<L>, object: u32) -> Result<Val, NotOpened> {
        self.may_open(*going, stm, object)?;
        let mut tx = self.resume(stm);
        match tx.open_write(object) {
            Ok(value) => Ok(value),
            Err(_) => {
                *going = false;
                Err(NotOpened::Over)
            }
        }
    }

    fn set(&mut self, stm: &Stm<L>, object: u32, value: Val) {
        self.resume(stm).set(object, value);
    }

    #[inline(always)]
    fn commit(&mut self, going: &mut bool, stm: &Stm<L>) -> Option<u64> {
        if !*going {
            return None;
        }
        *going = false;
        self.resume(stm).commit().ok()
    }

    // It looks whether all that the attempt has read is still current. It is left where that is not so.
    fn look(&mut self, going: &mut bool, stm: &Stm<L>, _since: u64) -> Look {
        if !*going {
            return Look::Changed;
        }
        *going = self.resume(stm).recheck().is_ok();
        if *going { Look::Same } else { Look::Changed }
    }

    #[inline]
    fn may_open(&self, going: bool, stm: &Stm<L>, object: u32) -> Result<(), NotOpened> {
        if !going {
            return Err(NotOpened::Over);
        }
        if object >= stm.shape().objects {
            return Err(NotOpened::Foreign);
        }
        Ok(())
    }
}

/// Leaves the attempt.
pub(crate) fn abandon<L: Law>(caller: &mut Caller<L>, going: &mut bool, stm: &Stm<L>)
    requires table { caller.old.home ≡ stm.now }
    ensures leaves { IsAbandoned L.holds (Dstm caller.old) (Dstm caller.new) }
    ensures keeps { Keeps (Dstm caller.old) (Dstm caller.new) }
    ensures quit { IsQuit (Dstm caller.new) }
    ensures going { going.new ≡ false }
    ensures flags { Flags going.new (Dstm caller.new) }
{
    caller.resume(stm).abandon();
    *going = false;
}

/// Lets go of what the attempt has set: another one of its transaction is begun, which reads what this one holds. Where it
/// does not find the same it is left.
pub(crate) fn let_go<L: Law>(
    caller: &mut Caller<L>,
    going: &mut bool,
    stm: &Stm<L>,
    values: &mut Vec<(u32, Val)>,
) -> Result<Look, AllocError>
    requires table { caller.old.home ≡ stm.now }
    requires flags { Flags going.old (Dstm caller.old) }
    ensures same { result ≡ Ok look.Same → LetsGo L.holds (Dstm caller.old) (Dstm caller.new) }
    ensures changed { result ≡ Ok look.Changed → FindsChange L.holds (Dstm caller.old) (Dstm caller.new) }
    ensures spent { result ≡ Ok look.Spent → IsSpentLettingGo (Dstm caller.old) (Dstm caller.new) }
    ensures unbegun { result ≡ Ok look.Spent → BeginsNone L.holds (Dstm caller.old) (Dstm caller.new) }
    ensures memory { IfErr result (λ _. HasNoRoom (Dstm caller.old) (Dstm caller.new)) }
    ensures begun { begun (Dstm caller.old) ≤ begun (Dstm caller.new) }
    ensures nothing { AddsNothing (Dstm caller.old) (Dstm caller.new) }
    ensures renews { RenewsNothing (Dstm caller.old) (Dstm caller.new) }
    ensures flags { Flags going.new (Dstm caller.new) }
{
    if !*going {
        return Ok(Look::Changed);
    }
    caller.copy_held(values)?;
    let Ok(()) = Calls::begin(caller, going, stm) else {
        return Ok(Look::Spent);
    };
    if read_all(caller, going, stm, values) {
        return Ok(Look::Same);
    }
    abandon(caller, going, stm);
    Ok(Look::Changed)
}

// Opens objects for reading, one after the other, until one is not opened, or has another value than this.
fn read_all<L: Law>(
    caller: &mut Caller<L>,
    going: &mut bool,
    stm: &Stm<L>,
    values: &[(u32, Val)],
) -> bool
    requires table { caller.old.home ≡ stm.now }
    requires flags { Flags going.old (Dstm caller.old) }
    requires going { going.old ≡ true }
    requires untouched { IsUntouched (Dstm caller.old) }
    requires may { (map : List Val) × MayBegin L.holds (Dstm caller.old) map }
    ensures keeps { Keeps (Dstm caller.old) (Dstm caller.new) }
    ensures same { result ≡ true → FindsAll L.holds caller.new values.now }
    ensures other { result ≡ false → FindsOther L.holds caller.old caller.new values.now }
    ensures reads { result ≡ true → OpensFirst L.holds (length values.now) values.now caller.old caller.new }
    ensures unmarked { result ≡ true → OpensNoMore caller.old caller.new }
    ensures flags { Flags going.new (Dstm caller.new) }
{
    for pair in values {
        let Ok(found) = Calls::read(caller, going, stm, pair.0) else {
            return false;
        };
        if found != pair.1 {
            return false;
        }
    }
    true
}
