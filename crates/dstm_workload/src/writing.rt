ghost use Rattle.std.specs.Prelude.{◌≡◌, ◌++◌, [], ◌∷◌, List, ℕ, IfOk, OnOk, Ok, Some, map, codes, decimal, false};
ghost use Rattle.dstm_text.specs.Lines.{space, line_feed, lines_of, split_lines};
ghost use Rattle.dstm_workload.specs.declared.workload.Workload.{Workload as TheWorkload};
ghost use Rattle.dstm_workload.specs.Workload.{IsValidWorkload};
ghost use Rattle.dstm_workload.specs.Reading.{workload_of};
ghost use Rattle.dstm_workload.specs.Writing.{spaced, joined, lined, structure_name};
ghost use Rattle.dstm_workload.specs.Writing.{fields_of_op, is_orelse, fields_of_ops, fields_of_job};
ghost use Rattle.dstm_workload.specs.Writing.{where_some, declarations, head_of, text_of_workload, as_written};

use crate::workload::{Job, Workload};
use dstm_model::{Cond, Layout, Op, Which};
use dstm_text::push_decimal;
use std::alloc::{AllocError, Global};

/// The text of a workload, with its transactions on the lines after its declarations.
pub fn write_workload(alloc: Global, workload: &Workload) -> Result<Vec<u8>, AllocError>
    requires { IsValidWorkload workload.now }
    ensures text { IfOk result (λ text. text.items ≡ text_of_workload workload.now) }

    // What is read from the text is the workload, with the lines of the text.
    ensures read { IfOk result (λ text. workload_of (lines_of text.items) ≡ Ok (as_written workload.now)) }
{
    let mut out = Vec::new(alloc);
    line(&mut out, b"dstm", &[u64::from(workload.version)])?;
    line(&mut out, b"workers", &[u64::from(workload.workers)])?;
    declare(&mut out, &workload.layout)?;
    for job in workload.jobs.as_slice() {
        transaction(&mut out, job)?;
    }
    Ok(out)
}

/// The law of writing and reading: what is read from the text of a valid workload is the workload, with the
/// lines of the text.
pub fn read_back()
    ensures { (workload : TheWorkload) → IsValidWorkload workload →
        workload_of (lines_of (text_of_workload workload)) ≡ Ok (as_written workload) }
{}

/// The law of what follows a workload: where a line `---` is put behind its text, that line is the first one,
/// and the text is what stands before it.
pub fn before_a_mark()
    ensures { (workload : TheWorkload) (rest : List ℕ) → IsValidWorkload workload →
        split_lines (codes "---") (lines_of (text_of_workload workload ++ codes "---\n" ++ rest))
        ≡ (lines_of (text_of_workload workload), Some (lines_of rest)) }
{}

fn declare(out: &mut Vec<u8>, layout: &Layout) -> Result<(), AllocError>
    ensures { OnOk result (out.new.items ≡ out.old.items ++ lined (declarations layout.now)) }
{
    if layout.accounts != 0 {
        line(out, b"bank", &[u64::from(layout.accounts), layout.opening])?;
    }
    if layout.list != 0 {
        line(out, b"list", &[u64::from(layout.list)])?;
    }
    if layout.tree != 0 {
        line(out, b"tree", &[u64::from(layout.tree)])?;
    }
    Ok(())
}

// A line of a word and numbers.
fn line(out: &mut Vec<u8>, word: &[u8], numbers: &[u64]) -> Result<(), AllocError>
    ensures { OnOk result (out.new.items ≡ out.old.items ++ lined ((word.now ∷ map decimal numbers.now) ∷ [])) }
{
    out.extend_from_slice(word)?;
    for number in numbers {
        put_number(out, *number)?;
    }
    out.push(b'\n')?;
    Ok(())
}

fn transaction(out: &mut Vec<u8>, job: &Job) -> Result<(), AllocError>
    ensures { OnOk result (out.new.items ≡ out.old.items ++ lined (fields_of_job job.now ∷ [])) }
{
    out.extend_from_slice(b"tx")?;
    put_number(out, u64::from(job.worker))?;
    put_ops(out, job.ops.as_slice())?;
    out.push(b'\n')?;
    Ok(())
}

fn put_ops(out: &mut Vec<u8>, ops: &[Op]) -> Result<(), AllocError>
    ensures { OnOk result (out.new.items ≡ out.old.items ++ spaced (fields_of_ops false ops.now)) }
{
    let mut behind = false;
    for op in ops {
        let separates = is_orelse(op);
        if behind && !separates {
            put_word(out, b";")?;
        }
        put_op(out, op)?;
        behind = !separates;
    }
    Ok(())
}

fn is_orelse(op: &Op) -> bool
    ensures { result ≡ is_orelse op.now }
{
    match op {
        Op::OrElse => true,
        _ => false,
    }
}

fn put_op(out: &mut Vec<u8>, op: &Op) -> Result<(), AllocError>
    ensures { OnOk result (out.new.items ≡ out.old.items ++ spaced (fields_of_op op.now)) }
{
    match *op {
        Op::Transfer {
            source,
            target,
            amount,
        } => {
            put_word(out, b"transfer")?;
            put_number(out, u64::from(source))?;
            put_number(out, u64::from(target))?;
            put_number(out, amount)
        }
        Op::Balance { account } => {
            put_word(out, b"balance")?;
            put_number(out, u64::from(account))
        }
        Op::Total => put_word(out, b"total"),
        Op::Insert { which, key } => put_place(out, b"insert", which, key),
        Op::Remove { which, key } => put_place(out, b"remove", which, key),
        Op::Member { which, key } => put_place(out, b"member", which, key),
        Op::Put { key, value } => {
            put_word(out, b"put")?;
            put_number(out, u64::from(key))?;
            put_number(out, value)
        }
        Op::Get { key } => {
            put_word(out, b"get")?;
            put_number(out, u64::from(key))
        }
        Op::Await(Cond::Balance { account, least }) => {
            put_word(out, b"await")?;
            put_word(out, b"balance")?;
            put_number(out, u64::from(account))?;
            put_number(out, least)
        }
        Op::Await(Cond::Key { which, key }) => put_place(out, b"await", which, key),
        Op::OrElse => put_word(out, b"orelse"),
    }
}

// A word, a structure and a key.
fn put_place(out: &mut Vec<u8>, word: &[u8], which: Which, key: u32) -> Result<(), AllocError>
    ensures { OnOk result
        (out.new.items ≡ out.old.items ++ spaced (word.now ∷ structure_name which ∷ decimal key ∷ [])) }
{
    put_word(out, word)?;
    put_word(out, name(which))?;
    put_number(out, u64::from(key))
}

fn name(which: Which) -> &'static [u8]
    ensures { result.now ≡ structure_name which }
{
    match which {
        Which::List => b"list",
        Which::Tree => b"tree",
    }
}

fn put_word(out: &mut Vec<u8>, word: &[u8]) -> Result<(), AllocError>
    ensures { OnOk result (out.new.items ≡ out.old.items ++ spaced (word.now ∷ [])) }
{
    out.push(b' ')?;
    out.extend_from_slice(word)
}

fn put_number(out: &mut Vec<u8>, number: u64) -> Result<(), AllocError>
    ensures { OnOk result (out.new.items ≡ out.old.items ++ spaced (decimal number ∷ [])) }
{
    out.push(b' ')?;
    push_decimal(out, number)
}
