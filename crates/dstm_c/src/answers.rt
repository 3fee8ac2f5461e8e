// Puts where pointers lead what calls on structures have answered, and answers the number of the code.
ghost use Rattle.std.specs.Prelude.{◌≡◌};
ghost use Rattle.dstm_c.specs.Structures.{Puts, put_cell, put_count, put_found, put_if, put_inserted, put_placed};

use crate::exports::number;
use dstm_cells::{Cell, Word};
use dstm_handles::Code;
use dstm_model::Val;
use dstm_structures::{Inserted, Placed};

// Two words, as a value of a structure.
pub(crate) type Pair = (u64, u64);

// Whether it is so.
#[inline]
pub(crate) fn tell_if(answer: Result<bool, Code>, is: &mut u32) -> u32
    ensures { Puts put_if answer is.old is.new result }
{
    match answer {
        Ok(true) => *is = 1,
        Ok(false) => *is = 0,
        Err(code) => return number(code),
    }
    number(Code::Done)
}

// How many there are.
#[inline]
pub(crate) fn tell_count(answer: Result<u32, Code>, count: &mut u32) -> u32
    ensures { Puts put_count answer count.old count.new result }
{
    match answer {
        Ok(told) => *count = told,
        Err(code) => return number(code),
    }
    number(Code::Done)
}

// A value, and whether it is there.
#[inline]
pub(crate) fn tell_value(
    answer: Result<Option<Pair>, Code>,
    there: &mut u32,
    low: &mut u64,
    high: &mut u64,
) -> u32
    ensures { Puts put_found answer (there.old, (low.old, high.old)) (there.new, (low.new, high.new)) result }
{
    match answer {
        Ok(Some(value)) => {
            *there = 1;
            *low = value.0;
            *high = value.1;
        }
        Ok(None) => *there = 0,
        Err(code) => return number(code),
    }
    number(Code::Done)
}

// How a key was put, and the value that it had.
#[inline]
pub(crate) fn tell_placed(
    answer: Result<Placed<Pair>, Code>,
    placed: &mut u32,
    low: &mut u64,
    high: &mut u64,
) -> u32
    ensures { Puts put_placed answer (placed.old, (low.old, high.old)) (placed.new, (low.new, high.new)) result }
{
    match answer {
        Ok(Placed::New) => *placed = 0,
        Ok(Placed::Instead(had)) => {
            *placed = 1;
            *low = had.0;
            *high = had.1;
        }
        Ok(Placed::Full) => *placed = 2,
        Err(code) => return number(code),
    }
    number(Code::Done)
}

// A key with its value, and whether it is there.
#[inline]
pub(crate) fn tell_entry(
    answer: Result<Option<(u64, Pair)>, Code>,
    there: &mut u32,
    key: &mut u64,
    low: &mut u64,
    high: &mut u64,
) -> u32
    ensures { Puts put_found answer (there.old, (key.old, (low.old, high.old))) (there.new, (key.new, (low.new, high.new))) result }
{
    match answer {
        Ok(Some((told, value))) => {
            *there = 1;
            *key = told;
            *low = value.0;
            *high = value.1;
        }
        Ok(None) => *there = 0,
        Err(code) => return number(code),
    }
    number(Code::Done)
}

// A key, and whether it is there.
#[inline]
pub(crate) fn tell_key(answer: Result<Option<u64>, Code>, there: &mut u32, key: &mut u64) -> u32
    ensures { Puts put_found answer (there.old, key.old) (there.new, key.new) result }
{
    match answer {
        Ok(Some(told)) => {
            *there = 1;
            *key = told;
        }
        Ok(None) => *there = 0,
        Err(code) => return number(code),
    }
    number(Code::Done)
}

// How a key was inserted.
#[inline]
pub(crate) fn tell_inserted(answer: Result<Inserted, Code>, inserted: &mut u32) -> u32
    ensures { Puts put_inserted answer inserted.old inserted.new result }
{
    match answer {
        Ok(Inserted::New) => *inserted = 0,
        Ok(Inserted::There) => *inserted = 1,
        Ok(Inserted::Full) => *inserted = 2,
        Err(code) => return number(code),
    }
    number(Code::Done)
}

// A cell, and whether there is one.
#[inline]
pub(crate) fn tell_cell(
    answer: Result<Option<Cell<Pair>>, Code>,
    there: &mut u32,
    cell: &mut u32,
) -> u32
    ensures { Puts put_cell answer (there.old, cell.old) (there.new, cell.new) result }
{
    match answer {
        Ok(Some(told)) => {
            *there = 1;
            *cell = number_of(told);
        }
        Ok(None) => *there = 0,
        Err(code) => return number(code),
    }
    number(Code::Done)
}

// The number of a cell.
#[inline]
fn number_of(cell: Cell<Pair>) -> u32
    ensures { result ≡ cell.object }
{
    let val = cell.to_val();
    (val.low % 4_294_967_296) as u32
}

// The cell of this number.
#[inline]
pub(crate) fn cell(number: u32) -> Cell<Pair>
    ensures { result.object ≡ number }
{
    Cell::of_val(Val {
        low: u64::from(number),
        high: 0,
    })
}
