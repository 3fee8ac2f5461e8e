ghost use Rattle.std.specs.Prelude.{◌≡◌, ◌≤◌, ◌<◌, ◌+◌, ◌-◌, ◌∷◌, [], length, IfOk, Ok, List, ℕ, true, false};
ghost use Rattle.dstm_model.specs.declared.op.Op.{Op as TheOp};
ghost use Rattle.dstm_workload.specs.declared.known.Known.{Known as TheKnown};
ghost use Rattle.dstm_workload.specs.Workload.{AreOperations};
ghost use Rattle.dstm_workload.specs.Known.{IsKnown, layout_of};
ghost use Rattle.dstm_workload.specs.Writing.{fields_of_ops};
ghost use Rattle.dstm_text.specs.Results.{IsRead};
ghost use Rattle.dstm_workload.specs.Fields.{operand_at, met_by};
ghost use Rattle.dstm_workload.specs.Table.{Key, Structure, Account, most};
ghost use Rattle.dstm_workload.specs.Table as table;
ghost use Rattle.dstm_workload.specs.Operations.{structure_at, operands_at, form_at, await_at, op_at};
ghost use Rattle.dstm_workload.specs.Operations.{next_at, ops_at, HasRoom};

use crate::fields::operand;
use crate::known::Known;
use crate::refused::Why;
use crate::word::{Word, next_word, operation_word, semicolon_word, structure_word};
use crate::workload::MAX_OPS;
use dstm_model::{AMOUNT_LIMIT, Cond, KEY_LIMIT, Op, Ops, Which};
use dstm_text::Fields;

/// What stands behind an operation.
#[derive(Clone, Copy, Debug, PartialEq, Eq)]
pub enum Separator {
    /// The end of the line.
    End,
    /// Another operation.
    Then,
    /// Another branch.
    OrElse,
}

/// The law of operations: fields are read as operations exactly where they are the operations' fields, and
/// the operations are of that version and fit what is declared.
pub fn operations_by_fields()
    ensures only { (version : ℕ) (known : TheKnown) (fields : List (List ℕ)) (ops : List TheOp) →
        1 ≤ version → version ≤ 3 → IsKnown known → ops_at version known fields ≡ Ok ops →
        (fields ≡ fields_of_ops false ops) × AreOperations version (layout_of known) ops }
    ensures all { (version : ℕ) (known : TheKnown) (ops : List TheOp) →
        1 ≤ version → version ≤ 3 → IsKnown known → AreOperations version (layout_of known) ops →
        ops_at version known (fields_of_ops false ops) ≡ Ok ops }
{}

/// Takes the operations of a transaction, all that is left of its line.
#[tactic(auto, unfolding(crate::specs::Operations::ops_from))]
pub fn operations(
    ops: &mut Ops,
    fields: &mut Fields<'_>,
    known: &Known,
    version: u32,
) -> Result<(), Why>
    requires { ops.old ≡ [] }
    ensures { IsRead result (λ _. ops.new) (ops_at version known.now fields.old) }
{
    let mut first = true;
    for _ in 0..MAX_OPS {
        ops.push(operation(fields, known, version, first)?);
        match next_separator(fields, version, ops.as_slice().len())? {
            Separator::End => return Ok(()),
            Separator::Then => first = false,
            Separator::OrElse => {
                ops.push(Op::OrElse);
                first = true;
            }
        }
    }
    Err(Why::TooMany)
}

#[tactic(auto, unfolding(crate::specs::Operations::next_at))]
fn next_separator(fields: &mut Fields<'_>, version: u32, done: usize) -> Result<Separator, Why>
    requires { done ≤ 8 }
    ensures read { IsRead result (λ n. (n, fields.new)) (next_at version done fields.old) }
    ensures room { IfOk result (HasRoom done) }
{
    let found = semicolon_word(fields.rest());
    let Some((_, word)) = next_word(found, fields, version) else {
        return Ok(Separator::End);
    };
    match word {
        Some(Word::Semicolon) if done < MAX_OPS => Ok(Separator::Then),
        Some(Word::OrElse) if done + 1 < MAX_OPS => Ok(Separator::OrElse),
        Some(Word::Semicolon | Word::OrElse) => Err(Why::TooMany),
        _ => Err(Why::Extra),
    }
}

#[tactic(auto, unfolding(crate::specs::Operations::op_at))]
fn operation(fields: &mut Fields<'_>, known: &Known, version: u32, first: bool) -> Result<Op, Why>
    ensures { IsRead result (λ o. (o, fields.new)) (op_at version known.now first fields.old) }
{
    let found = operation_word(fields.rest());
    let (_, word) = next_word(found, fields, version).ok_or(Why::Missing)?;
    match word {
        Some(Word::Transfer) => transfer(fields, known, version),
        Some(Word::Balance) => balance(fields, known, version),
        Some(Word::Total) => total(fields, known, version),
        Some(Word::Insert) => insert(fields, known, version),
        Some(Word::Remove) => remove(fields, known, version),
        Some(Word::Member) => member(fields, known, version),
        Some(Word::Put) => put(fields, known, version),
        Some(Word::Get) => get(fields, known, version),
        Some(Word::Await) if first => condition(fields, known, version),
        Some(Word::Semicolon | Word::OrElse) => Err(Why::Missing),
        _ => Err(Why::Unknown),
    }
}

// What a branch awaits.
#[tactic(auto, unfolding(crate::specs::Operations::await_at))]
fn condition(fields: &mut Fields<'_>, known: &Known, version: u32) -> Result<Op, Why>
    ensures { IsRead result (λ o. (o, fields.new)) (await_at version known.now fields.old) }
{
    let field = fields.next().ok_or(Why::Missing)?;
    match Word::of(field, version) {
        Some(Word::Balance) => await_balance(fields, known, version),
        Some(Word::List) => await_list(fields, known, version),
        Some(Word::Tree) => await_tree(fields, known, version),
        Some(Word::Semicolon | Word::OrElse) => Err(Why::Missing),
        _ => Err(Why::Unknown),
    }
}

#[tactic(auto, unfolding(crate::specs::Operations::form_at))]
fn transfer(fields: &mut Fields<'_>, known: &Known, version: u32) -> Result<Op, Why>
    ensures { IsRead result (λ o. (o, fields.new)) (form_at version known.now table.transfer fields.old) }
{
    declared(known.bank.is_some())?;
    let source = account(fields, known)?;
    let target = account(fields, known)?;
    let amount = amount(fields)?;
    Ok(Op::Transfer {
        source,
        target,
        amount,
    })
}

#[tactic(auto, unfolding(crate::specs::Operations::form_at))]
fn balance(fields: &mut Fields<'_>, known: &Known, version: u32) -> Result<Op, Why>
    ensures { IsRead result (λ o. (o, fields.new)) (form_at version known.now table.balance fields.old) }
{
    declared(known.bank.is_some())?;
    let account = account(fields, known)?;
    Ok(Op::Balance { account })
}

#[tactic(auto, unfolding(crate::specs::Operations::form_at))]
fn total(fields: &mut Fields<'_>, known: &Known, version: u32) -> Result<Op, Why>
    ensures { IsRead result (λ o. (o, fields.new)) (form_at version known.now table.total fields.old) }
{
    declared(known.bank.is_some())?;
    Ok(Op::Total)
}

#[tactic(auto, unfolding(crate::specs::Operations::form_at))]
fn insert(fields: &mut Fields<'_>, known: &Known, version: u32) -> Result<Op, Why>
    ensures { IsRead result (λ o. (o, fields.new)) (form_at version known.now table.insert fields.old) }
{
    let (which, key) = place(fields, known, version)?;
    Ok(Op::Insert { which, key })
}

#[tactic(auto, unfolding(crate::specs::Operations::form_at))]
fn remove(fields: &mut Fields<'_>, known: &Known, version: u32) -> Result<Op, Why>
    ensures { IsRead result (λ o. (o, fields.new)) (form_at version known.now table.remove fields.old) }
{
    let (which, key) = place(fields, known, version)?;
    Ok(Op::Remove { which, key })
}

#[tactic(auto, unfolding(crate::specs::Operations::form_at))]
fn member(fields: &mut Fields<'_>, known: &Known, version: u32) -> Result<Op, Why>
    ensures { IsRead result (λ o. (o, fields.new)) (form_at version known.now table.member fields.old) }
{
    let (which, key) = place(fields, known, version)?;
    Ok(Op::Member { which, key })
}

#[tactic(auto, unfolding(crate::specs::Operations::form_at))]
fn put(fields: &mut Fields<'_>, known: &Known, version: u32) -> Result<Op, Why>
    ensures { IsRead result (λ o. (o, fields.new)) (form_at version known.now table.put fields.old) }
{
    declared(known.tree.is_some())?;
    let key = key(fields)?;
    let value = operand(fields, u64::MAX)?;
    Ok(Op::Put { key, value })
}

#[tactic(auto, unfolding(crate::specs::Operations::form_at))]
fn get(fields: &mut Fields<'_>, known: &Known, version: u32) -> Result<Op, Why>
    ensures { IsRead result (λ o. (o, fields.new)) (form_at version known.now table.get fields.old) }
{
    declared(known.tree.is_some())?;
    let key = key(fields)?;
    Ok(Op::Get { key })
}

#[tactic(auto, unfolding(crate::specs::Operations::form_at))]
fn await_balance(fields: &mut Fields<'_>, known: &Known, version: u32) -> Result<Op, Why>
    ensures { IsRead result (λ o. (o, fields.new)) (form_at version known.now table.await_balance fields.old) }
{
    declared(known.bank.is_some())?;
    let account = account(fields, known)?;
    let least = amount(fields)?;
    Ok(Op::Await(Cond::Balance { account, least }))
}

#[tactic(auto, unfolding(crate::specs::Operations::form_at))]
fn await_list(fields: &mut Fields<'_>, known: &Known, version: u32) -> Result<Op, Why>
    ensures { IsRead result (λ o. (o, fields.new)) (form_at version known.now table.await_list fields.old) }
{
    declared(known.list.is_some())?;
    let key = key(fields)?;
    Ok(Op::Await(Cond::Key {
        which: Which::List,
        key,
    }))
}

#[tactic(auto, unfolding(crate::specs::Operations::form_at))]
fn await_tree(fields: &mut Fields<'_>, known: &Known, version: u32) -> Result<Op, Why>
    ensures { IsRead result (λ o. (o, fields.new)) (form_at version known.now table.await_tree fields.old) }
{
    declared(known.tree.is_some())?;
    let key = key(fields)?;
    Ok(Op::Await(Cond::Key {
        which: Which::Tree,
        key,
    }))
}

// A key of a structure that is declared.
#[inline(always)]
fn place(fields: &mut Fields<'_>, known: &Known, version: u32) -> Result<(Which, u32), Why>
    ensures { IsRead result (λ p. ((p.0, (p.1, tt)), fields.new))
        (operands_at version known.now (Structure ∷ Key ∷ []) fields.old) }
{
    let which = structure(fields, known, version)?;
    let key = key(fields)?;
    Ok((which, key))
}

#[inline(always)]
#[tactic(auto, unfolding(crate::specs::Operations::structure_at))]
fn structure(fields: &mut Fields<'_>, known: &Known, version: u32) -> Result<Which, Why>
    ensures { IsRead result (λ w. (w, fields.new)) (structure_at version known.now fields.old) }
{
    let found = structure_word(fields.rest());
    let (_, word) = next_word(found, fields, version).ok_or(Why::Missing)?;
    let (which, size) = match word {
        Some(Word::List) => (Which::List, known.list),
        Some(Word::Tree) => (Which::Tree, known.tree),
        Some(Word::Semicolon) => return Err(Why::Missing),
        _ => return Err(Why::Unknown),
    };
    size.ok_or(Why::Undeclared)?;
    Ok(which)
}

// Sees that what an operation needs is declared.
fn declared(there: bool) -> Result<(), Why>
    ensures { IsRead result (λ _. true) (met_by there) }
{
    if there { Ok(()) } else { Err(Why::Undeclared) }
}

#[inline(always)]
fn account(fields: &mut Fields<'_>, known: &Known) -> Result<u32, Why>
    ensures { IsRead result (λ n. (n, fields.new)) (operand_at 0 (most known.now Account) fields.old) }
{
    let accounts = known.layout().accounts;
    let account = operand(fields, u64::from(accounts.saturating_sub(1)))?;
    Ok(account as u32)
}

#[inline(always)]
fn amount(fields: &mut Fields<'_>) -> Result<u64, Why>
    ensures { IsRead result (λ n. (n, fields.new)) (operand_at 0 9999999999999 fields.old) }
{
    operand(fields, AMOUNT_LIMIT - 1)
}

#[inline(always)]
fn key(fields: &mut Fields<'_>) -> Result<u32, Why>
    ensures { IsRead result (λ n. (n, fields.new)) (operand_at 0 1048574 fields.old) }
{
    let key = operand(fields, u64::from(KEY_LIMIT - 1))?;
    Ok(key as u32)
}
