ghost use Rattle.std.specs.Prelude.{slice_index, ◌≡◌, ◌≤◌, ◌<◌, ◌+◌, ◌-◌, ◌*◌, ◌^◌, length, Some, None, IsTrue, IfSome, SomeIff, if◌then◌else◌};
ghost use Rattle.std.specs.Bool.{OnTrue};
ghost use Rattle.std.specs.Char.{is_ascii_digit};
ghost use Rattle.std.specs.List.{list_all};
ghost use Rattle.std.specs.Str.{all_ascii_digits};
ghost use Rattle.std.specs.Str.Parse.{digits_value};
ghost use Rattle.dstm_text.specs.Number.{AreAtFront, IsNumberBefore, StandsBehind, number_of, in_64_bits};

// So many digits fit into 64 bits, whichever they are.
const SHORT: usize = 19;

/// Why a field is no number of 64 bits.
#[derive(Clone, Copy, Debug, PartialEq, Eq)]
pub enum DecimalError {
    /// It is not `0`, nor a digit from 1 to 9 with further digits.
    NotPlain,
    /// Its number is 2^64 or more.
    TooLarge,
}

/// The number that a field spells as a plain decimal.
pub fn decimal(field: &[u8]) -> Result<u64, DecimalError>
    ensures { result ≡ in_64_bits (number_of field.now) }
{
    match field {
        [] | [b'0', _, ..] => Err(DecimalError::NotPlain),
        _ if field.len() <= SHORT => short_value(field).ok_or(DecimalError::NotPlain),
        _ if !is_digits(field) => Err(DecimalError::NotPlain),
        _ => long_value(field).ok_or(DecimalError::TooLarge),
    }
}

fn is_digits(field: &[u8]) -> bool
    ensures { result ≡ list_all is_ascii_digit field.now }
{
    field.iter().all(|byte| byte.is_ascii_digit())
}

// The number of a short run of digits, if it is one.
fn short_value(field: &[u8]) -> Option<u64>
    requires { length field.now ≤ SHORT }
    ensures { result ≡ (if all_ascii_digits field.now then Some (digits_value 10 field.now) else None) }
{
    let mut number = 0;
    for byte in field {
        if !byte.is_ascii_digit() {
            return None;
        }
        number = number * 10 + u64::from(*byte - b'0');
    }
    Some(number)
}

// The number of a run of digits, if 64 bits hold it.
fn long_value(digits: &[u8]) -> Option<u64>
    requires { IsTrue (all_ascii_digits digits.now) }
    ensures { SomeIff result (digits_value 10 digits.now < 2 ^ 64) (digits_value 10 digits.now) }
{
    let mut number = 0u64;
    for digit in digits {
        number = with_digit(number, *digit)?;
    }
    Some(number)
}

// The number with a digit put behind it, if 64 bits hold it.
fn with_digit(number: u64, digit: u8) -> Option<u64>
    ensures { SomeIff result (number * 10 + (digit - 48) < 2 ^ 64) (number * 10 + (digit - 48)) }
{
    number
        .checked_mul(10)?
        .checked_add(u64::from(digit.saturating_sub(b'0')))
}

// The number at the front of a line, before a space or at the line's end, and what stands behind that.
#[inline(always)]
pub(crate) fn number_before_space(line: &[u8]) -> Option<(u64, &[u8])>
    ensures { IfSome result (λ r. IsNumberBefore line.now r.0 r.1.now) }
{
    let (number, end) = digits_at_front(line);
    if !is_plain(line, end) {
        return None;
    }
    let behind = behind_place(line, end)?;
    Some((number, behind))
}

// The same of one digit before a space.
#[inline(always)]
pub(crate) fn digit_before_space(line: &[u8]) -> Option<(u64, &[u8])>
    ensures { IfSome result (λ r. IsNumberBefore line.now r.0 r.1.now) }
{
    match line {
        [digit @ b'0'..=b'9', b' ', behind @ ..] => Some((u64::from(*digit - b'0'), behind)),
        _ => None,
    }
}

// The number of the digits at the front of a line, of which few are looked at, and where they end.
#[inline(always)]
fn digits_at_front(line: &[u8]) -> (u64, usize)
    ensures { AreAtFront line.now result.1 result.0 }
{
    let most = line.len().min(SHORT);
    let mut number = 0;
    let mut end = 0;
    while end < most && line[end].is_ascii_digit() {
        number = number * 10 + u64::from(line[end] - b'0');
        end += 1;
    }
    (number, end)
}

// Whether there are digits, and no needless zero before them.
#[inline(always)]
fn is_plain(line: &[u8], digits: usize) -> bool
    requires { digits ≤ length line.now }
    ensures { OnTrue result ((0 < digits) × (slice_index line.now 0 ≡ 48 → digits ≡ 1)) }
{
    match digits {
        0 => false,
        1 => true,
        _ => line[0] != b'0',
    }
}

// What stands behind a place, if the line ends there or has a space.
#[inline(always)]
fn behind_place(line: &[u8], place: usize) -> Option<&[u8]>
    requires { place ≤ length line.now }
    ensures { IfSome result (λ rest. StandsBehind line.now place rest.now) }
{
    if place == line.len() {
        return Some(&[]);
    }
    if line[place] != b' ' {
        return None;
    }
    Some(&line[place + 1..])
}
