ghost use Rattle.std.specs.Prelude.{◌≡◌, is_some, true, ℕ, List};
ghost use Rattle.dstm_text.specs.Results.{IsRead};
ghost use Rattle.dstm_workload.specs.declared.workload.Job.{Job};
ghost use Rattle.dstm_workload.specs.Known.{kept_where};
ghost use Rattle.dstm_workload.specs.Entries.{free_for, declaration_at};
ghost use Rattle.dstm_workload.specs.Entries as entries;

use crate::fields::{end, number};
use crate::known::{Bank, Known};
use crate::refused::Why;
use crate::workload::MAX_WORKERS;
use dstm_model::{MAX_ACCOUNTS, MAX_LIST_NODES, MAX_OPENING, MAX_TREE_NODES};
use dstm_text::Fields;

#[tactic(auto, unfolding(crate::specs::Entries::declaration_at))]
pub fn workers(fields: &mut Fields<'_>, known: &mut Known) -> Result<(), Why>
    ensures { (version : ℕ) (jobs : List Job) → IsRead result (λ _. (known.new, jobs))
        (kept_where known.old jobs (declaration_at entries.workers version known.old fields.old)) }
{
    free(known, known.workers.is_some())?;
    let workers = number(fields, 1, u64::from(MAX_WORKERS))?;
    end(fields)?;
    known.workers = Some(workers as u32);
    Ok(())
}

#[tactic(auto, unfolding(crate::specs::Entries::declaration_at))]
pub fn bank(fields: &mut Fields<'_>, known: &mut Known) -> Result<(), Why>
    ensures { (version : ℕ) (jobs : List Job) → IsRead result (λ _. (known.new, jobs))
        (kept_where known.old jobs (declaration_at entries.bank version known.old fields.old)) }
{
    free(known, known.bank.is_some())?;
    let accounts = number(fields, 1, u64::from(MAX_ACCOUNTS))?;
    let opening = number(fields, 0, MAX_OPENING)?;
    end(fields)?;
    known.bank = Some(Bank {
        accounts: accounts as u32,
        opening,
    });
    Ok(())
}

#[tactic(auto, unfolding(crate::specs::Entries::declaration_at))]
pub fn list(fields: &mut Fields<'_>, known: &mut Known) -> Result<(), Why>
    ensures { (version : ℕ) (jobs : List Job) → IsRead result (λ _. (known.new, jobs))
        (kept_where known.old jobs (declaration_at entries.list version known.old fields.old)) }
{
    free(known, known.list.is_some())?;
    let nodes = number(fields, 1, u64::from(MAX_LIST_NODES))?;
    end(fields)?;
    known.list = Some(nodes as u32);
    Ok(())
}

#[tactic(auto, unfolding(crate::specs::Entries::declaration_at))]
pub fn tree(fields: &mut Fields<'_>, known: &mut Known) -> Result<(), Why>
    ensures { (version : ℕ) (jobs : List Job) → IsRead result (λ _. (known.new, jobs))
        (kept_where known.old jobs (declaration_at entries.tree version known.old fields.old)) }
{
    free(known, known.tree.is_some())?;
    let nodes = number(fields, 1, u64::from(MAX_TREE_NODES))?;
    end(fields)?;
    known.tree = Some(nodes as u32);
    Ok(())
}

// Sees that a declaration may come.
fn free(known: &Known, declared: bool) -> Result<(), Why>
    ensures { IsRead result (λ _. true) (free_for known.now declared) }
{
    if known.transactions > 0 {
        return Err(Why::Late);
    }
    if declared { Err(Why::Twice) } else { Ok(()) }
}
