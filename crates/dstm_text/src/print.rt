ghost use Rattle.std.specs.Prelude.{◌≡◌, ◌<◌, ◌≤◌, ◌+◌, ◌/◌, ◌%◌, ◌^◌, ◌++◌, ℕ, List, Some, OnOk, OnErr, decimal, length, vec_capacity, vec_len};
ghost use Rattle.dstm_text.specs.Number.{number_of};

use itoa::Buffer;
use std::alloc::AllocError;

/// Appends a number as a plain decimal.
#[inline(always)]
pub fn push_decimal(out: &mut Vec<u8>, number: u64) -> Result<(), AllocError>
    ensures ok { OnOk result (out.new.items ≡ out.old.items ++ decimal number) }
    ensures err { OnErr result (out.new.items ≡ out.old.items) }
{
    if number < 10 {
        return Ok(out.push(b'0' + number as u8)?);
    }
    push_digits(out, number)
}

// The same of two digits or more. Up to five are written at once, where there is room.
#[inline(never)]
fn push_digits(out: &mut Vec<u8>, number: u64) -> Result<(), AllocError>
    requires { 10 ≤ number }
    ensures ok { OnOk result (out.new.items ≡ out.old.items ++ decimal number) }
    ensures err { OnErr result (out.new.items ≡ out.old.items) }
{
    if number >= 100_000 || out.capacity() - out.len() < 5 {
        return push_any(out, number);
    }
    let number = number as u32;
    let ones = digit(number % 10);
    let tens = digit(number / 10 % 10);
    if number < 100 {
        return out.extend_from_slice(&[tens, ones]);
    }
    let hundreds = digit(number / 100 % 10);
    if number < 1_000 {
        return out.extend_from_slice(&[hundreds, tens, ones]);
    }
    let thousands = digit(number / 1_000 % 10);
    if number < 10_000 {
        return out.extend_from_slice(&[thousands, hundreds, tens, ones]);
    }
    out.extend_from_slice(&[digit(number / 10_000), thousands, hundreds, tens, ones])
}

/// Appends a number as a plain decimal, where there is room for any.
#[inline(always)]
pub fn put_decimal(out: &mut Vec<u8>, number: u64)
    requires room { vec_len out.old + 20 ≤ vec_capacity out.old }
    ensures items { out.new.items ≡ out.old.items ++ decimal number }
    ensures len { vec_len out.new ≤ vec_len out.old + 20 }
    ensures capacity { vec_capacity out.new ≡ vec_capacity out.old }
{
    if number < 10 {
        out.push_reserved(b'0' + number as u8);
    } else if number < 100_000 {
        put_digits(out, number as u32);
    } else {
        put_any(out, number);
    }
}

// The same of two digits to five.
#[inline(always)]
fn put_digits(out: &mut Vec<u8>, number: u32)
    requires least { 10 ≤ number }
    requires most { number < 100000 }
    requires room { vec_len out.old + 5 ≤ vec_capacity out.old }
    ensures items { out.new.items ≡ out.old.items ++ decimal number }
    ensures len { vec_len out.new ≤ vec_len out.old + 5 }
    ensures capacity { vec_capacity out.new ≡ vec_capacity out.old }
{
    let (tenth, ones) = last_digit(number);
    let (hundredth, tens) = last_digit(tenth);
    if number < 100 {
        out.push_reserved(tens);
        out.push_reserved(ones);
        return;
    }
    let (thousandth, hundreds) = last_digit(hundredth);
    if number < 1_000 {
        out.push_reserved(hundreds);
        out.push_reserved(tens);
        out.push_reserved(ones);
        return;
    }
    let (first, thousands) = last_digit(thousandth);
    if number < 10_000 {
        out.push_reserved(thousands);
        out.push_reserved(hundreds);
        out.push_reserved(tens);
        out.push_reserved(ones);
        return;
    }
    out.push_reserved(digit(first));
    out.push_reserved(thousands);
    out.push_reserved(hundreds);
    out.push_reserved(tens);
    out.push_reserved(ones);
}

// The number without its last digit, and the code of that one.
#[inline(always)]
fn last_digit(number: u32) -> (u32, u8)
    ensures rest { result.0 ≡ number / 10 }
    ensures digit { result.1 ≡ 48 + number % 10 }
{
    let rest = number / 10;
    (rest, digit(number - rest * 10))
}

// The same of any number.
#[inline(always)]
fn put_any(out: &mut Vec<u8>, number: u64)
    requires room { vec_len out.old + 20 ≤ vec_capacity out.old }
    ensures items { out.new.items ≡ out.old.items ++ decimal number }
    ensures len { vec_len out.new ≤ vec_len out.old + 20 }
    ensures capacity { vec_capacity out.new ≡ vec_capacity out.old }
{
    let mut buffer = Buffer::new();
    for byte in digits_of(&mut buffer, number) {
        out.push_reserved(*byte);
    }
}

// The digits of a number.
#[cold]
#[inline(never)]
fn digits_of(buffer: &mut Buffer, number: u64) -> &[u8]
    ensures digits { result.now ≡ decimal number }
    ensures short { length result.now ≤ 20 }
{
    buffer.format(number).as_bytes()
}

// The code of a digit.
#[inline(always)]
fn digit(number: u32) -> u8
    requires { number < 10 }
    ensures { result ≡ 48 + number }
{
    b'0' + number as u8
}

// The same of any number.
#[inline(never)]
fn push_any(out: &mut Vec<u8>, number: u64) -> Result<(), AllocError>
    ensures ok { OnOk result (out.new.items ≡ out.old.items ++ decimal number) }
    ensures err { OnErr result (out.new.items ≡ out.old.items) }
{
    let mut buffer = Buffer::new();
    out.extend_from_slice(buffer.format(number).as_bytes())
}

/// The law of printing and reading: what is printed is read as that number, and no other text is.
pub fn one_spelling()
    ensures printed { (n : ℕ) → n < 2 ^ 64 → number_of (decimal n) ≡ Some n }
    ensures only { (field : List ℕ) (n : ℕ) → n < 2 ^ 64 → number_of field ≡ Some n → field ≡ decimal n }
{}
