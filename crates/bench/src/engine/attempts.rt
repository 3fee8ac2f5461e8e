// Attempts by the one caller of a table.
ghost use Rattle.std.specs.Prelude.{◌≡◌, ◌<◌, All, IsTrue};
ghost use Rattle.dstm_engine.specs.Callers.{is_live, shape_of};
ghost use Rattle.bench.specs.Attempts.{GoesOn};
ghost use Rattle.bench.specs.Places.{Exist};

use dstm_engine::{Caller, Stm, Tx};
use dstm_model::AnyLaw;
use dstm_order::Again;

/// What an attempt does.
#[derive(Clone, Copy, PartialEq, Eq)]
pub enum Use {
    /// It quits.
    Quit,
    /// It commits.
    Commit,
    /// It opens objects for reading and commits.
    Read,
    /// It opens objects for writing, sets them and commits.
    Write,
}

// How an attempt opens an object.
trait Opening {
    fn open(tx: &mut Tx<'_, AnyLaw>, o: u32) -> Result<(), Again>
        requires live { IsTrue (is_live tx.old.caller.now) }
        requires exists { o < (shape_of tx.old.caller.now).objects }
        ensures { GoesOn tx.old tx.new result };
}

// It opens it for reading.
struct Reading;

impl Opening for Reading {
    fn open(tx: &mut Tx<'_, AnyLaw>, o: u32) -> Result<(), Again> {
        let _value = tx.open_read(o)?;
        Ok(())
    }
}

// It opens it for writing, and sets the value that it has.
struct Writing;

impl Opening for Writing {
    fn open(tx: &mut Tx<'_, AnyLaw>, o: u32) -> Result<(), Again> {
        let value = tx.open_write(o)?;
        tx.set(o, value);
        Ok(())
    }
}

// Opens objects one after the other.
fn open_each<O: Opening>(tx: &mut Tx<'_, AnyLaw>, places: &[u32]) -> Result<(), Again>
    requires live { IsTrue (is_live tx.old.caller.now) }
    requires exist { Exist (shape_of tx.old.caller.now) places.now }
    ensures { GoesOn tx.old tx.new result }
{
    for o in places {
        O::open(tx, *o)?;
    }
    Ok(())
}

// Opens what the use of an attempt wants.
fn open_all(tx: &mut Tx<'_, AnyLaw>, places: &[u32], usage: Use) -> Result<(), Again>
    requires live { IsTrue (is_live tx.old.caller.now) }
    requires exist { Exist (shape_of tx.old.caller.now) places.now }
    ensures { GoesOn tx.old tx.new result }
{
    match usage {
        Use::Read => open_each::<Reading>(tx, places),
        Use::Write => open_each::<Writing>(tx, places),
        Use::Quit | Use::Commit => Ok(()),
    }
}

// Makes one attempt, and tells whether it came to the end that its use wants.
fn try_once(stm: &Stm<AnyLaw>, caller: &mut Caller<AnyLaw>, places: &[u32], usage: Use) -> bool
    requires table { caller.old.home ≡ stm.now }
    requires exist { Exist stm.now.terms.shape places.now }
    ensures table { caller.new.home ≡ stm.now }
{
    let Ok(tx) = caller.begin(stm) else {
        return false;
    };
    let mut tx = tx;
    if usage == Use::Quit {
        tx.abandon();
        return true;
    }
    match open_all(&mut tx, places, usage) {
        Ok(()) => tx.commit().is_ok(),
        Err(_) => false,
    }
}

/// Makes an attempt with each list of objects, and tells whether all came to the end that their use wants.
pub fn try_all(
    stm: &Stm<AnyLaw>,
    caller: &mut Caller<AnyLaw>,
    lists: &[Vec<u32>],
    usage: Use,
) -> bool
    requires table { caller.old.home ≡ stm.now }
    requires exist { All (λ places. Exist stm.now.terms.shape places.items) lists.now }
    ensures table { caller.new.home ≡ stm.now }
{
    let mut all = true;
    for places in lists {
        all &= try_once(stm, caller, places, usage);
    }
    all
}
