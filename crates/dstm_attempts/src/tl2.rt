//! Attempts by TL2. A flag tells whether one is under way, since a commit leaves the caller live.

ghost use Rattle.dstm_tl2_words.specs.Seats.{Home};
ghost use Rattle.dstm_tables.specs.declared.tables.Caller.TheVariants.{Tl2};

use crate::calls::Calls;
use crate::error::{Look, NotOpened, Spent};
use dstm_model::{Law, Val};
use dstm_tl2_engine::{TlCaller, TlStm};

impl<L: Law> Calls<L, TlStm<L>> for TlCaller<L> {
    ghost Place = { Home L };

    ghost home = { λ caller. caller.home };

    ghost place = { λ stm. stm };

    ghost caller = { λ caller. Tl2 caller };

    fn begin(&mut self, going: &mut bool, stm: &TlStm<L>) -> Result<(), Spent> {
        let Ok(_tx) = TlCaller::begin(self, stm) else {
            *going = false;
            return Err(Spent);
        };
        *going = true;
        Ok(())
    }

    fn read(&mut self, going: &mut bool, stm: &TlStm<L>, object: u32) -> Result<Val, NotOpened> {
        self.may_open(*going, stm, object)?;
        let mut tx = self.resume(stm);
        match tx.open_read(object) {
            Ok(value) => Ok(value),
            Err(_) => {
                *going = false;
                Err(NotOpened::Over)
            }
        }
    }

    fn write(&mut self, going: &mut bool, stm: &TlStm<L>, object: u32) -> Result<Val, NotOpened> {
        self.may_open(*going, stm, object)?;
        let mut tx = self.resume(stm);
        match tx.open_write(object) {
            Ok(value) => Ok(value),
            Err(_) => {
                *going = false;
                Err(NotOpened::Over)
            }
        }
    }

    fn set(&mut self, stm: &TlStm<L>, object: u32, value: Val) {
        self.resume(stm).set(object, value);
    }

    fn commit(&mut self, going: &mut bool, stm: &TlStm<L>) -> Option<u64> {
        if !*going {
            return None;
        }
        *going = false;
        self.resume(stm).commit().ok()
    }

    // It looks whether a transaction has drawn a number since: an attempt is begun anew.
    fn look(&mut self, going: &mut bool, stm: &TlStm<L>, since: u64) -> Look {
        let Ok(()) = Calls::begin(self, going, stm) else {
            return Look::Spent;
        };
        if self.sample() == since {
            Look::Same
        } else {
            Look::Changed
        }
    }

    #[inline]
    fn may_open(&self, going: bool, stm: &TlStm<L>, object: u32) -> Result<(), NotOpened> {
        if !going {
            return Err(NotOpened::Over);
        }
        if object >= stm.objects() {
            return Err(NotOpened::Foreign);
        }
        Ok(())
    }
}
