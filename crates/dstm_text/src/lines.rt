ghost use Rattle.std.specs.Prelude.{◌≡◌, ◌≢◌, ◌≤◌, ◌<◌, ◌^◌, ℕ, List, [], ◌∷◌, length, Some, IfSome, IfNone, option_copied};
ghost use Rattle.memchr.specs.Find.{IsFirstByte, is_byte};
ghost use Rattle.dstm_text.specs.Lines.{pieces, pieces_left, lines_of, fields_of, space};
ghost use Rattle.dstm_text.specs.Number.{number_of};

use crate::number::{digit_before_space, number_before_space};
use memchr::memchr;
use std::marker::Model;

/// The pieces of a text around each place of a separator: at least one, and some may be empty.
/// Contracts see the pieces that are still to come.
#[derive(Drop)]
pub struct Pieces<'a> {
    separator: u8,
    // What follows the last separator found, until the last piece is given.
    rest: Option<&'a [u8]>,
}

impl<'a> Model for Pieces<'a> {
    ghost use Rattle.std.specs.Prelude.{List, ℕ, option_copied};
    ghost use Rattle.dstm_text.specs.Lines.{pieces_left};

    ghost Value = { List (List ℕ) };

    ghost view = { λ p. pieces_left p.separator (option_copied p.rest) };
}

impl<'a> Pieces<'a> {
    pub fn new(bytes: &'a [u8], separator: u8) -> Pieces<'a>
        ensures { result ≡ pieces separator bytes.now }
    {
        Pieces {
            separator,
            rest: Some(bytes),
        }
    }

    /// Takes the next piece.
    pub fn next(&mut self) -> Option<&'a [u8]>
        ensures some { IfSome result (λ piece. self.old ≡ piece.now ∷ self.new) }
        ensures none { IfNone result (self.old ≡ []) }
        ensures ended { IfNone result (self.new ≡ []) }
    {
        let rest = self.rest?;
        let (piece, rest) = first_piece(rest, self.separator, place_of(self.separator, rest));
        self.rest = rest;
        Some(piece)
    }
}

/// The lines of a text, without their line feeds. Contracts see the lines that are still to come.
#[derive(Drop)]
pub struct Lines<'a> {
    rest: &'a [u8],
}

impl<'a> Model for Lines<'a> {
    ghost use Rattle.std.specs.Prelude.{List, ℕ};
    ghost use Rattle.dstm_text.specs.Lines.{lines_of};

    ghost Value = { List (List ℕ) };

    ghost view = { λ l. lines_of l.rest.now };
}

impl<'a> Lines<'a> {
    pub fn new(bytes: &'a [u8]) -> Lines<'a>
        ensures value { result ≡ lines_of bytes.now }
        ensures few { length result ≤ length bytes.now }
    {
        Lines { rest: bytes }
    }

    /// Takes the next line.
    pub fn next(&mut self) -> Option<&'a [u8]>
        ensures some { IfSome result (λ line. self.old ≡ line.now ∷ self.new) }
        ensures none { IfNone result (self.old ≡ []) }
        ensures ended { IfNone result (self.new ≡ []) }
    {
        if self.rest.is_empty() {
            return None;
        }
        let (line, rest) = first_piece(self.rest, b'\n', memchr(b'\n', self.rest));
        self.rest = rest.unwrap_or(&[]);
        Some(line)
    }

    /// How many lines are still to come.
    pub fn count(mut self) -> u64
        requires { length self < 2 ^ 64 }
        ensures { result ≡ length self.entry }
    {
        let mut count = 0;
        while self.next().is_some() {
            count += 1;
        }
        count
    }
}

/// The fields of a line: its runs of bytes other than space. Contracts see the fields that are
/// still to come.
#[derive(Drop)]
pub struct Fields<'a> {
    rest: &'a [u8],
}

impl<'a> Model for Fields<'a> {
    ghost use Rattle.std.specs.Prelude.{List, ℕ};
    ghost use Rattle.dstm_text.specs.Lines.{fields_of};

    ghost Value = { List (List ℕ) };

    ghost view = { λ f. fields_of f.rest.now };
}

impl<'a> Fields<'a> {
    pub fn new(line: &'a [u8]) -> Fields<'a>
        ensures { result ≡ fields_of line.now }
    {
        Fields { rest: line }
    }

    /// The bytes that they are the fields of: what is left of the line.
    #[inline(always)]
    pub fn rest(&self) -> &'a [u8]
        ensures { fields_of result.now ≡ self.now }
    {
        self.rest
    }

    /// Takes the next field.
    pub fn next(&mut self) -> Option<&'a [u8]>
        ensures some { IfSome result (λ field. self.old ≡ field.now ∷ self.new) }
        ensures none { IfNone result (self.old ≡ []) }
        ensures ended { IfNone result (self.new ≡ []) }
    {
        let line = behind_spaces(self.rest);
        if line.is_empty() {
            self.rest = line;
            return None;
        }
        let (field, rest) = first_piece(line, b' ', place_of(b' ', line));
        let behind = rest.unwrap_or(&[]);
        self.rest = behind;
        Some(field)
    }

    /// Takes the next field as the number that it spells, where it stands at the front and has few digits. Otherwise
    /// nothing is taken.
    #[inline(always)]
    pub fn number(&mut self) -> Option<u64>
        ensures some { IfSome result (λ n. (field : List ℕ)
            × ((self.old ≡ field ∷ self.new) × (number_of field ≡ Some n))) }
        ensures none { IfNone result (self.new ≡ self.old) }
    {
        // Most numbers have one digit.
        if let Some((number, behind)) = digit_before_space(self.rest) {
            self.rest = behind;
            return Some(number);
        }
        let (number, behind) = number_before_space(self.rest)?;
        self.rest = behind;
        Some(number)
    }
}

// The line without the spaces at its front.
fn behind_spaces(line: &[u8]) -> &[u8]
    ensures same { fields_of result.now ≡ fields_of line.now }
    ensures solid { (b : ℕ) (bytes : List ℕ) → result.now ≡ b ∷ bytes → b ≢ space }
{
    let mut start = 0;
    while start < line.len() && line[start] == b' ' {
        start += 1;
    }
    &line[start..]
}

// The first place of a byte. What is searched here is short, so each byte is looked at in turn.
fn place_of(byte: u8, bytes: &[u8]) -> Option<usize>
    ensures { IsFirstByte (is_byte byte) bytes.now result }
{
    for (at, found) in bytes.iter().enumerate() {
        if *found == byte {
            return Some(at);
        }
    }
    None
}

// The first piece, which ends at this place of the separator, and what follows the separator, if there is one.
fn first_piece(bytes: &[u8], separator: u8, place: Option<usize>) -> (&[u8], Option<&[u8]>)
    requires { IsFirstByte (is_byte separator) bytes.now place }
    ensures pieces { pieces separator bytes.now ≡ result.0.now ∷ pieces_left separator (option_copied result.1) }
    ensures whole { IfNone result.1 (result.0.now ≡ bytes.now) }
{
    match place {
        Some(at) => (&bytes[..at], Some(&bytes[at + 1..])),
        None => (bytes, None),
    }
}
