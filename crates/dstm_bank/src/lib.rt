//! The bank's operations on a memory. The first objects are the accounts, and each holds its balance in
//! the low part of its value.
#![tactic(auto)]

ghost use Rattle.std.specs.Prelude.{◌≡◌, ◌≢◌, ◌⊎◌, ℕ, ◌<◌, IsSome, IfOk, OnOk};
ghost use Rattle.dstm_model.specs.Layout.{IsValid, FitsLayout};
ghost use Rattle.dstm_model.specs.Objects.{objects_of, IsBank};
ghost use Rattle.dstm_mem.specs.Operates.{Applies, IsReady};

use dstm_mem::Mem;
use dstm_model::{Layout, Op, Reply, Val};

/// Moves an amount from one account to another. The source is opened for writing at once, the target only
/// where the source can pay; an account that pays itself is only read.
pub fn transfer<M: Mem>(
    mem: &mut M,
    layout: &Layout,
    source: u32,
    target: u32,
    amount: u64,
) -> Result<Reply, M::Err>
    requires valid { IsValid layout.now }
    requires fits { FitsLayout layout.now (Op.Transfer source target amount) }
    requires ready { IsReady M.Mem (objects_of layout.now) (IsBank layout.now) mem.old }

    ensures applies { Applies M.Mem (λ p. (p ≡ source) ⊎ (p ≡ target)) (IsBank layout.now)
        (Op.Transfer source target amount) mem.old mem.new result }
    ensures poor { IfOk result (λ reply. reply ≡ Reply.Poor → (p : ℕ) → p ≢ source →
        (M.held mem.new p ≡ M.held mem.old p) × (M.is_opened mem.new p ≡ M.is_opened mem.old p)) }
    ensures unchanged { IfOk result (λ reply. reply ≡ Reply.Poor →
        (p : ℕ) → M.written mem.new p ≡ M.written mem.old p) }
{
    if source == target {
        let balance = mem.open_read(source)?.low;
        return Ok(if balance < amount {
            Reply::Poor
        } else {
            Reply::Moved
        });
    }
    let from = mem.open_write(source)?.low;
    if from < amount {
        return Ok(Reply::Poor);
    }
    let to = mem.open_write(target)?.low;
    let less = Val {
        low: from - amount,
        high: 0,
    };
    let more = Val {
        low: to + amount,
        high: 0,
    };
    mem.set(source, less);
    mem.set(target, more);
    Ok(Reply::Moved)
}

/// Tells an account's balance.
pub fn balance<M: Mem>(mem: &mut M, layout: &Layout, account: u32) -> Result<Reply, M::Err>
    requires valid { IsValid layout.now }
    requires fits { FitsLayout layout.now (Op.Balance account) }
    requires ready { IsReady M.Mem (objects_of layout.now) (IsBank layout.now) mem.old }

    ensures { Applies M.Mem (λ p. p ≡ account) (IsBank layout.now) (Op.Balance account) mem.old mem.new result }
{
    let value = mem.open_read(account)?;
    Ok(Reply::Number(value.low))
}

/// Tells the sum of all balances. It reads every account, though the law alone would tell the sum: it is
/// the audit that users expect it to be.
pub fn total<M: Mem>(mem: &mut M, layout: &Layout) -> Result<Reply, M::Err>
    requires valid { IsValid layout.now }
    requires fits { FitsLayout layout.now Op.Total }
    requires ready { IsReady M.Mem (objects_of layout.now) (IsBank layout.now) mem.old }

    ensures applies { Applies M.Mem (λ p. p < layout.now.accounts) (IsBank layout.now) Op.Total
        mem.old mem.new result }
    ensures audits { OnOk result ((a : ℕ) → a < layout.now.accounts → IsSome (M.held mem.new a)) }
{
    let mut sum: u64 = 0;
    for account in 0..layout.accounts {
        sum += mem.open_read(account)?.low;
    }
    Ok(Reply::Number(sum))
}
