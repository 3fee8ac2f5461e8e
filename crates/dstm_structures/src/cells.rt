// Cells by their numbers.
ghost use Rattle.std.specs.Prelude.{◌≡◌, ◌+◌, ◌*◌, ◌<◌, ◌≤◌};
ghost use Rattle.dstm_structures.specs.Circles.{behind, next};

use dstm_cells::{Cell, Word};
use dstm_model::Val;

// The cells of a queue: the number of the one that holds the place of the first value and how many there are, behind which
// stand the places, and how many places there are.
#[derive(Clone, Copy)]
pub struct Ring {
    pub(crate) first: u32,
    pub(crate) capacity: u32,
    ghost few: { first + 1 + capacity ≤ 524288 },
}

// The cells of a map: the number of the first one, and how many places there are. Each place has two cells side by side: one
// that tells its key, and at how many places from it on keys are looked for whose home it is, and one that holds the value.
#[derive(Clone, Copy)]
pub struct Rows {
    pub(crate) first: u32,
    pub(crate) capacity: u32,
    ghost some: { 0 < capacity },
    ghost few: { first + 2 * capacity ≤ 524288 },
}

// The cells of a pool: the number of the first one, and how many there are. Behind them stands a mark for each.
#[derive(Clone, Copy)]
pub struct Stock {
    pub(crate) first: u32,
    pub(crate) capacity: u32,
    ghost some: { 0 < capacity },
    ghost few: { first + 2 * capacity ≤ 524288 },
}

impl Rows {
    // The cell that tells the key of a place, and how far others are looked for from it on.
    pub(crate) fn slot_at(self, at: u32) -> Cell<Slot>
        requires { at < self.capacity }
        ensures { result.object ≡ self.first + 2 * at }
    {
        cell(self.first + 2 * at)
    }
}

// What the first cell of a place tells: at how many places from it on keys are looked for whose home it is, and its key.
#[derive(Clone, Copy)]
pub struct Slot {
    pub(crate) reach: u32,
    pub(crate) key: Option<u64>,
}

impl Word for Slot {
    ghost use Rattle.dstm_structures.specs.Maps.{slot_of};

    ghost found = { slot_of };

    fn to_val(self) -> Val {
        let high = 4_294_967_296 * u64::from(self.reach);
        match self.key {
            Some(low) => Val {
                low,
                high: high + 1,
            },
            None => Val { low: 0, high },
        }
    }

    fn of_val(val: Val) -> Slot {
        Slot {
            reach: (val.high / 4_294_967_296) as u32,
            key: if val.high % 4_294_967_296 == 1 {
                Some(val.low)
            } else {
                None
            },
        }
    }
}

// The cell of this number.
pub(crate) fn cell<T: Word>(number: u32) -> Cell<T>
    ensures { result.object ≡ number }
{
    Cell::of_val(Val {
        low: u64::from(number),
        high: 0,
    })
}

// The number of a cell.
pub(crate) fn number<T: Word>(cell: Cell<T>) -> u32
    ensures { result ≡ cell.object }
{
    let val = cell.to_val();
    (val.low % 4_294_967_296) as u32
}

// The place behind this one of so many, in a circle.
pub(crate) fn next(places: u32, at: u32) -> u32
    requires { at < places }
    ensures { result ≡ next places at }
{
    if at + 1 < places { at + 1 } else { 0 }
}

// The place so many behind this one of so many, in a circle.
pub(crate) fn behind(places: u32, at: u32, count: u32) -> u32
    requires at { at < places }
    requires count { count < places }
    ensures behind { result ≡ behind places at count }
    ensures within { result < places }
{
    let left = places - count;
    if at < left { at + count } else { at - left }
}
