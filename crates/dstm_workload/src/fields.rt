ghost use Rattle.std.specs.Prelude.{◌≡◌, ◌≤◌, Some, IfOk};
ghost use Rattle.dstm_text.specs.Results.{IsRead};
ghost use Rattle.dstm_workload.specs.Fields.{number_at, operand_at, end_at, in_range};
ghost use Rattle.dstm_text.specs.Number.{number_of};

use crate::refused::Why;
use dstm_text::{DecimalError, Fields, decimal};

/// Takes a number of this range.
#[inline(always)]
pub fn number(fields: &mut Fields<'_>, least: u64, most: u64) -> Result<u64, Why>
    ensures read { IsRead result (λ n. (n, fields.new)) (number_at least most fields.old) }
    ensures high { IfOk result (λ n. n ≤ most) }
{
    if let Some(number) = fields.number() {
        return within(number, least, most);
    }
    let field = fields.next().ok_or(Why::Missing)?;
    ranged(field, least, most)
}

/// Takes a number of an operation.
#[inline(always)]
pub fn operand(fields: &mut Fields<'_>, most: u64) -> Result<u64, Why>
    ensures read { IsRead result (λ n. (n, fields.new)) (operand_at 0 most fields.old) }
    ensures high { IfOk result (λ n. n ≤ most) }
{
    if let Some(number) = fields.number() {
        return within(number, 0, most);
    }
    let field = fields.next().ok_or(Why::Missing)?;
    match field {
        [b';'] => Err(Why::Missing),
        _ => ranged(field, 0, most),
    }
}

/// Sees that no field is left.
pub fn end(fields: &mut Fields<'_>) -> Result<(), Why>
    ensures { IsRead result (λ _. fields.new) (end_at fields.old) }
{
    match fields.next() {
        None => Ok(()),
        Some(_) => Err(Why::Extra),
    }
}

// The number that a field spells, in this range. Most fields are read without this, as they stand.
#[cold]
#[inline(never)]
fn ranged(field: &[u8], least: u64, most: u64) -> Result<u64, Why>
    ensures read { result ≡ in_range least most (number_of field.now) }
    ensures high { IfOk result (λ n. n ≤ most) }
{
    match decimal(field) {
        Ok(number) => within(number, least, most),
        Err(DecimalError::TooLarge) => Err(Why::OutOfRange),
        Err(DecimalError::NotPlain) => Err(Why::Number),
    }
}

// A number, if it is in this range.
#[inline(always)]
fn within(number: u64, least: u64, most: u64) -> Result<u64, Why>
    ensures read { result ≡ in_range least most (Some number) }
    ensures high { IfOk result (λ n. n ≤ most) }
{
    if least <= number && number <= most {
        Ok(number)
    } else {
        Err(Why::OutOfRange)
    }
}
