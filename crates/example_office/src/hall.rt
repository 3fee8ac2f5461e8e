// A hall whose seats have numbers. One thread offers them, and two desks sell them and take some back.
ghost use Rattle.std.specs.Prelude.{◌≡◌, ◌+◌, ℕ, if◌then◌else◌, nat_lt, IfOk, OnOk};
ghost use Rattle.dstm_cells.specs.UnderWay.{IsUntouched, Keeps, LeavesLawful};
ghost use Rattle.dstm_model.specs.Map.{value_at};
ghost use Rattle.dstm_structures.specs.Laws.{times};
ghost use Rattle.dstm_structures.specs.Maps.{item_of};
ghost use Rattle.example_office.specs.Hall.{AreBoth, AreMaps, number};

use dstm_cells::{Cell, Engine, Failed, GaveUp, Me, Memory, Stop, Tx, Work};
use dstm_model::Law;
use dstm_structures::{HashMap, Placed};
use std::alloc::Global;
use std::thread::Threads;

/// How many seats there are.
const SEATS: u64 = 100;

/// What each of them costs.
const PRICE: u64 = 20;

/// For how many seats each map has room, as the law has it.
const ROOM: u32 = 128;

/// The law of the hall: each seat that was offered is free or sold, and not both.
#[derive(Clone, Copy, Debug)]
pub struct NoneTwice;

impl Law for NoneTwice {
    ghost use Rattle.example_office.specs.Hall.{EachOnce};

    ghost holds = { λ _ values. EachOnce values };
}

/// How many seats were offered; those that are free, with their prices; and those that are sold, with the desks that sold them.
#[derive(Clone, Copy)]
pub struct Hall {
    pub offered: Cell<u64>,
    pub free: HashMap<u64>,
    pub sold: HashMap<u64>,
    ghost cells: { (offered.object ≡ 0) × AreMaps free sold },
}

// Offers one seat more at this price, if there is one. It waits where the map has no room for it.
fn offer(tx: &mut Tx<'_, NoneTwice>, hall: Hall, price: u64) -> Result<bool, Stop>
    ensures keeps { Keeps tx.old.attempts.caller tx.new.attempts.caller }
    ensures lawful { OnOk result (IsUntouched tx.old.attempts.caller → LeavesLawful ⟦<NoneTwice as Law>⟧.holds tx.new.attempts.caller) }
{
    let seat = tx.get(hall.offered)?;
    if seat >= SEATS {
        return Ok(false);
    }
    let Placed::New = hall.free.put(tx, seat, price)? else {
        return tx.retry();
    };
    tx.set(hall.offered, seat + 1)?;
    Ok(true)
}

// Takes a seat out of one map and puts it into the other, if the one has it. It waits where the other has no room for it.
fn pass(
    tx: &mut Tx<'_, NoneTwice>,
    one: HashMap<u64>,
    other: HashMap<u64>,
    seat: u64,
    told: u64,
) -> Result<bool, Stop>
    requires maps { AreBoth one other }
    ensures keeps { Keeps tx.old.attempts.caller tx.new.attempts.caller }
    ensures lawful { OnOk result (IsUntouched tx.old.attempts.caller → LeavesLawful ⟦<NoneTwice as Law>⟧.holds tx.new.attempts.caller) }
{
    let Some(_) = one.remove(tx, seat)? else {
        return Ok(false);
    };
    let Placed::New = other.put(tx, seat, told)? else {
        return tx.retry();
    };
    Ok(true)
}

impl Work<NoneTwice> for Hall {
    ghost ends = { λ hall number ended. Unit };

    ghost does = { λ hall number began left. Unit };

    /// The first thread offers the seats. Each other one is a desk, which sells those that it finds free, and takes some back.
    fn work(&self, me: &mut Me<'_, NoneTwice>, number: usize) -> Result<(), GaveUp> {
        for seat in 0..SEATS {
            if number == 0 {
                me.atomically(|tx| offer(tx, *self, PRICE))?;
            } else if me.atomically(|tx| pass(tx, self.free, self.sold, seat, number as u64))?
                && seat % 3 == 0
            {
                me.atomically(|tx| pass(tx, self.sold, self.free, seat, PRICE))?;
            }
        }
        Ok(())
    }
}

/// A hall behind an evening's sale, and the memory in which it stands.
#[derive(Drop)]
pub struct Evening {
    pub memory: Memory<NoneTwice>,
    pub hall: Hall,
}

/// Offers the seats, and sells them at two desks, on three threads.
pub fn sell_seats<R: Threads + Sync>(rt: &R, alloc: Global) -> Result<Evening, Failed>
    ensures { IfOk result (λ evening. (seat : ℕ) → let values = evening.memory.values.items in
        times (item_of number evening.hall.free values seat) + times (item_of number evening.hall.sold values seat)
        ≡ (if nat_lt seat (value_at values evening.hall.offered.object).low then 1 else 0)) }
{
    let mut memory = Memory::with_law(alloc, Engine::Tl2, NoneTwice);
    let offered = memory.cell(0u64)?;
    let free = HashMap::new(&mut memory, ROOM)?;
    let sold = HashMap::new(&mut memory, ROOM)?;
    let hall = Hall {
        offered,
        free,
        sold,
    };
    memory.run_work(rt, 3, &hall)?;
    Ok(Evening { memory, hall })
}
