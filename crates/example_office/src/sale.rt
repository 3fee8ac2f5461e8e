// What a desk does: it sells tickets, one after the other.
ghost use Rattle.std.specs.Prelude.{◌≡◌, List, IfOk, OnOk};
ghost use Rattle.dstm_cells.specs.UnderWay.{IsUntouched, Keeps, LeavesLawful, MayBegin, seen};
ghost use Rattle.example_office.specs.Tickets.{AreCells, Sells};

use dstm_cells::{Cell, GaveUp, Me, Stop, Tx, Work};
use dstm_model::{Law, Val};

/// The law of the office: the tickets that are left, and those that each desk has sold, are all there were.
#[derive(Clone, Copy, Debug)]
pub struct NoneLost {
    pub all: u64,
}

impl Law for NoneLost {
    ghost use Rattle.example_office.specs.Tickets.{AddUp};

    ghost holds = { λ law map. AddUp law.all map };
}

// Sells one ticket at a desk, and tells whether one was left.
fn sell(tx: &mut Tx<'_, NoneLost>, left: Cell<u64>, desk: Cell<u64>) -> Result<bool, Stop>
    requires cells { AreCells left.object desk.object }
    ensures keeps { Keeps tx.old.attempts.caller tx.new.attempts.caller }
    ensures lawful { OnOk result (IsUntouched tx.old.attempts.caller → LeavesLawful ⟦<NoneLost as Law>⟧.holds tx.new.attempts.caller) }
    ensures right { IfOk result (λ sold. IsUntouched tx.old.attempts.caller → (map : List Val)
        → MayBegin ⟦<NoneLost as Law>⟧.holds tx.new.attempts.caller map
        → Sells desk.object sold map (seen tx.new.attempts.caller map)) }
{
    let tickets = tx.get(left)?;
    if tickets == 0 {
        return Ok(false);
    }
    let sold = tx.get(desk)?;
    tx.set(left, tickets - 1)?;
    tx.set(desk, sold.wrapping_add(1))?;
    Ok(true)
}

/// The cells of the tickets that are left, and of those that each desk has sold.
#[derive(Clone, Copy)]
pub struct Desks {
    pub left: Cell<u64>,
    pub east: Cell<u64>,
    pub west: Cell<u64>,
    pub most: u64,
    ghost cells: { AreCells left.object east.object × AreCells left.object west.object },
}

impl Work<NoneLost> for Desks {
    ghost ends = { λ desks number ended. Unit };

    ghost does = { λ desks number began left. Unit };

    /// Sells tickets at a desk until none is left.
    fn work(&self, me: &mut Me<'_, NoneLost>, number: usize) -> Result<(), GaveUp> {
        let desk = if number == 0 { self.east } else { self.west };
        for _ in 0..self.most {
            if !me.atomically(|tx| sell(tx, self.left, desk))? {
                break;
            }
        }
        Ok(())
    }
}
