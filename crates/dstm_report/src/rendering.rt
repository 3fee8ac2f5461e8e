ghost use Rattle.std.specs.Prelude.{◌≡◌, ◌++◌, ◌+◌, ◌≤◌, All, IfOk, OnOk, codes, decimal, length, vec_capacity, vec_len};
ghost use Rattle.dstm_report.specs.Reading.{FitsRow};
ghost use Rattle.std.specs.List.{flat_map};
ghost use Rattle.dstm_report.specs.Text.{further_text, number_field, item_field, reply_text, replies_text, row_text};
ghost use Rattle.dstm_report.specs.Text.{numbers_text, item_text, items_text, report_text};

use crate::packed::PackedReport;
use crate::report::{Report, Row};
use dstm_model::{Item, Items, Numbers, Reply};
use dstm_text::{push_decimal, put_decimal};
use std::alloc::{AllocError, Global};

// No row has so many bytes.
const ROW: usize = 300;

/// The text of a report, as docs/FORMATS.md shows it.
pub fn render(alloc: Global, report: &Report) -> Result<Vec<u8>, AllocError>
    ensures text { IfOk result (λ text. text.items ≡ report_text report.now) }

    // What is written are numbers of 64 bits, as their types say.
    ensures fits { IfOk result (λ _. All FitsRow report.now.rows) }
{
    let out = opened(alloc, report.version, report.rows.as_slice().len())?;
    let mut out = with_rows(out, report.rows.as_slice())?;
    push_numbers(&mut out, b"bank", &report.bank)?;
    push_numbers(&mut out, b"list", &report.list)?;
    push_items(&mut out, report.version, &report.tree)?;
    push_count(&mut out, report.count)?;
    Ok(out)
}

/// The text of a report whose rows are packed.
pub fn render_packed(alloc: Global, packed: &PackedReport) -> Result<Vec<u8>, AllocError>
    ensures text { IfOk result (λ text. text.items ≡ report_text packed.now) }
    ensures fits { IfOk result (λ _. All FitsRow packed.now.rows) }
{
    let out = opened(alloc, packed.version, packed.rows.len())?;
    let mut out = packed.rows.with_text(out)?;
    push_numbers(&mut out, b"bank", &packed.bank)?;
    push_numbers(&mut out, b"list", &packed.list)?;
    push_items(&mut out, packed.version, &packed.tree)?;
    push_count(&mut out, packed.count)?;
    Ok(out)
}

// The first line of a text in which so many rows are to stand.
fn opened(alloc: Global, version: u32, rows: usize) -> Result<Vec<u8>, AllocError>
    ensures { IfOk result (λ text. text.items ≡ codes "dstm report " ++ decimal version ++ codes "\n") }
{
    // A row of few replies has some 30 bytes.
    let mut out = Vec::with_capacity(alloc, rows.saturating_mul(32))?;
    out.extend_from_slice(b"dstm report ")?;
    push_decimal(&mut out, u64::from(version))?;
    out.push(b'\n')?;
    Ok(out)
}

// The last line.
fn push_count(out: &mut Vec<u8>, count: u64) -> Result<(), AllocError>
    ensures { OnOk result (out.new.items ≡ out.old.items ++ codes "end " ++ decimal count ++ codes "\n") }
{
    out.extend_from_slice(b"end ")?;
    push_decimal(out, count)?;
    out.push(b'\n')?;
    Ok(())
}

fn push_field(out: &mut Vec<u8>, number: u64) -> Result<(), AllocError>
    ensures { OnOk result (out.new.items ≡ out.old.items ++ number_field number) }
{
    out.push(b' ')?;
    push_decimal(out, number)
}

// The rows behind a text. Each is written where there is room for any row.
fn with_rows(out: Vec<u8>, rows: &[Row]) -> Result<Vec<u8>, AllocError>
    ensures text { IfOk result (λ text. text.items ≡ out.items ++ flat_map row_text rows.now) }
    ensures fits { OnOk result (All FitsRow rows.now) }
{
    let mut out = out;
    for row in rows {
        out = with_room(out)?;
        put_row(
            &mut out,
            row.line,
            row.worker,
            row.round,
            row.number,
            row.replies.as_slice(),
        );
    }
    Ok(out)
}

// The same text with room for a row behind it.
#[inline(always)]
pub(crate) fn with_room(out: Vec<u8>) -> Result<Vec<u8>, AllocError>
    ensures items { IfOk result (λ text. text.items ≡ out.items) }
    ensures room { IfOk result (λ text. vec_len text + 300 ≤ vec_capacity text) }
{
    if out.capacity() - out.len() >= ROW {
        return Ok(out);
    }
    enlarged(out)
}

#[cold]
#[inline(never)]
fn enlarged(out: Vec<u8>) -> Result<Vec<u8>, AllocError>
    ensures items { IfOk result (λ text. text.items ≡ out.items) }
    ensures room { IfOk result (λ text. vec_len text + 300 ≤ vec_capacity text) }
{
    let mut out = out;
    out.reserve(ROW)?;
    Ok(out)
}

// A row behind a text.
#[inline(always)]
pub(crate) fn put_row(
    out: &mut Vec<u8>,
    line: u64,
    worker: u32,
    round: u64,
    number: u64,
    replies: &[Reply],
)
    requires room { vec_len out.old + 300 ≤ vec_capacity out.old }
    requires short { length replies.now ≤ 8 }
    ensures text { out.new.items ≡ out.old.items ++ row_text (record {
      line = line;
      worker = worker;
      round = round;
      number = number;
      replies = replies.now;
    }) }
    ensures fits { FitsRow (record {
      line = line;
      worker = worker;
      round = round;
      number = number;
      replies = replies.now;
    }) }
{
    put_decimal(out, line);
    out.push_reserved(b' ');
    put_decimal(out, u64::from(worker));
    out.push_reserved(b' ');
    put_decimal(out, round);
    out.push_reserved(b'.');
    put_decimal(out, number);
    out.push_reserved(b' ');
    put_replies(out, replies);
    out.push_reserved(b'\n');
}

#[inline(always)]
fn put_replies(out: &mut Vec<u8>, replies: &[Reply])
    requires short { length replies.now ≤ 8 }
    requires room { vec_len out.old + 200 ≤ vec_capacity out.old }
    ensures text { out.new.items ≡ out.old.items ++ replies_text replies.now }
    ensures len { vec_len out.new ≤ vec_len out.old + 200 }
    ensures capacity { vec_capacity out.new ≡ vec_capacity out.old }
{
    let [first, further @ ..] = replies else {
        return;
    };
    put_reply(out, *first);
    for reply in further {
        put_word(out, b" ; ");
        put_reply(out, *reply);
    }
}

#[inline(always)]
fn put_reply(out: &mut Vec<u8>, reply: Reply)
    requires room { vec_len out.old + 20 ≤ vec_capacity out.old }
    ensures text { out.new.items ≡ out.old.items ++ reply_text reply }
    ensures len { vec_len out.new ≤ vec_len out.old + 20 }
    ensures capacity { vec_capacity out.new ≡ vec_capacity out.old }
{
    match reply {
        Reply::Moved => put_word(out, b"ok"),
        Reply::Poor => put_word(out, b"poor"),
        Reply::Number(number) => put_decimal(out, number),
        Reply::Yes => put_word(out, b"true"),
        Reply::No => put_word(out, b"false"),
        Reply::Full => put_word(out, b"full"),
        Reply::Absent => put_word(out, b"none"),
        Reply::Never => put_word(out, b"never"),
    }
}

// Puts a word of at most five bytes behind a text.
#[inline(always)]
fn put_word(out: &mut Vec<u8>, word: &[u8])
    requires short { length word.now ≤ 5 }
    requires room { vec_len out.old + 5 ≤ vec_capacity out.old }
    ensures text { out.new.items ≡ out.old.items ++ word.now }
    ensures len { vec_len out.new ≤ vec_len out.old + 5 }
    ensures capacity { vec_capacity out.new ≡ vec_capacity out.old }
{
    for byte in word {
        out.push_reserved(*byte);
    }
}

fn push_numbers(out: &mut Vec<u8>, name: &[u8], numbers: &Option<Numbers>) -> Result<(), AllocError>
    ensures { OnOk result (out.new.items ≡ out.old.items ++ numbers_text name.now numbers.now) }
{
    let Some(numbers) = numbers else {
        return Ok(());
    };
    out.extend_from_slice(name)?;
    for number in numbers.as_slice() {
        push_field(out, *number)?;
    }
    out.push(b'\n')?;
    Ok(())
}

fn push_item(out: &mut Vec<u8>, version: u32, item: &Item) -> Result<(), AllocError>
    ensures { OnOk result (out.new.items ≡ out.old.items ++ item_text version item.now) }
{
    push_decimal(out, item.key)?;
    if version != 1 {
        out.push(b':')?;
        push_decimal(out, item.value)?;
    }
    Ok(())
}

fn push_items(out: &mut Vec<u8>, version: u32, items: &Option<Items>) -> Result<(), AllocError>
    ensures { OnOk result (out.new.items ≡ out.old.items ++ items_text version (codes "tree") items.now) }
{
    let Some(items) = items else {
        return Ok(());
    };
    out.extend_from_slice(b"tree")?;
    for item in items.as_slice() {
        out.push(b' ')?;
        push_item(out, version, item)?;
    }
    out.push(b'\n')?;
    Ok(())
}
