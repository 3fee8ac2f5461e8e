// A ticket office: what is sold, and by which desk.
ghost use Rattle.std.specs.Prelude.{◌≡◌, ◌≤◌, ℕ, ◌+◌, ◌-◌, IsSome};
ghost use Rattle.example_tickets.specs.Tickets.{place_of};

use dstm_mem::{Body, Mem};
use dstm_model::{Law, Val};

/// The object that has the tickets that are left.
pub const LEFT: u32 = 0;

/// The law of the office: the tickets that are left, and those that each desk has sold, are all there were.
#[derive(Clone, Copy, Debug)]
pub struct NoneLost {
    pub all: u64,
}

impl Law for NoneLost {
    ghost use Rattle.example_tickets.specs.Tickets.{AddUp};

    ghost holds = { λ law map. AddUp law.all map };
}

/// A desk, which counts what it sells in an object of its own.
#[derive(Clone, Copy, Debug, PartialEq, Eq)]
pub enum Desk {
    East,
    West,
}

impl Desk {
    /// Its object.
    pub fn place(self) -> u32
        ensures { result ≡ place_of self }
    {
        match self {
            Desk::East => 1,
            Desk::West => 2,
        }
    }
}

/// The sale of one ticket at a desk, if one is left.
#[derive(Debug, Drop)]
pub struct Sell {
    pub law: NoneLost,
    pub desk: Desk,
    /// The last run that ended without an error has sold a ticket.
    pub sold: bool,
}

impl Body<NoneLost> for Sell {
    ghost use Rattle.example_tickets.specs.Tickets.{Sells};

    type Task = Desk;

    type Outcome = bool;

    ghost law = { λ sale. sale.law };

    ghost task = { λ sale. sale.desk };

    ghost outcome = { λ sale. sale.sold };

    ghost right = { λ sale before after. Sells sale.desk sale.sold before after };

    ghost leaves = { λ sale held opened. IsSome (held 0) };

    fn run<M: Mem>(&mut self, mem: &mut M) -> Result<(), M::Err> {
        let left = mem.open_write(LEFT)?;
        if left.low == 0 {
            self.sold = false;
            return Ok(());
        }
        let desk = self.desk.place();
        let sold = mem.open_write(desk)?;
        mem.set(LEFT, fewer(left));
        mem.set(desk, more(sold));
        self.sold = true;
        Ok(())
    }
}

fn fewer(count: Val) -> Val
    requires some { 1 ≤ count.low }
    ensures { result ≡ record count { low = count.low - 1 } }
{
    Val {
        low: count.low - 1,
        ..count
    }
}

fn more(count: Val) -> Val
    requires room { count.low + 1 ≤ u64.MAX }
    ensures { result ≡ record count { low = count.low + 1 } }
{
    Val {
        low: count.low + 1,
        ..count
    }
}
