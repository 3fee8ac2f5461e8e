// Alternatives of a transaction.
ghost use Rattle.std.specs.Prelude.{◌≡◌, ◌≢◌, true, false, Err};
ghost use Rattle.dstm_cells.specs.Alternatives.{Notes, NotesOnce, OrElse};
ghost use Rattle.dstm_cells.specs.Closures.{KeepsOnce};
ghost use Rattle.dstm_cells.specs.UnderWay.{Keeps, stop_by};
ghost use Rattle.dstm_cells.specs.declared.error.Why.TheVariants.{Retry};

use crate::error::{Stop, Why};
use crate::transaction::Transaction;

/// Goes on by the first alternative, or by the second one where the first retries. What the first has set is then undone;
/// what it has read stays read, so that a change of it ends the waiting if the second retries too. It is `Tx::or_else` for
/// a memory under any law.
pub fn or_else<X: Transaction, R: Drop, F, G>(tx: &mut X, first: F, second: G) -> Result<R, Stop>
where
    F: FnOnce(&mut X) -> Result<R, Stop>,
    G: FnOnce(&mut X) -> Result<R, Stop>,
    requires first { F.IsAlwaysCallable first }
    requires second { G.IsAlwaysCallable second }
    ensures keeps { KeepsOnce (λ x. (X.noting x).caller) F.FnOnce first → KeepsOnce (λ x. (X.noting x).caller) G.FnOnce second
        → Keeps (X.noting tx.old).caller (X.noting tx.new).caller }
    ensures notes { NotesOnce X.noting F.FnOnce first X.Rule.holds → NotesOnce X.noting G.FnOnce second X.Rule.holds
        → Notes X.Rule.holds (X.noting tx.old) (X.noting tx.new) }
    ensures does { NotesOnce X.noting F.FnOnce first X.Rule.holds
        → OrElse X.noting X.Rule.holds F.FnOnce first G.FnOnce second (X.noting tx.old) (X.noting tx.new) result }
{
    let kept = tx.noted();
    let notes = tx.note(true);
    let answer = first(tx);
    let _noted = tx.note(notes);
    if !has_retried(&answer) {
        return answer;
    }
    let_go(answer);
    tx.undo_to(kept)?;
    second(tx)
}

// Whether an alternative has retried.
fn has_retried<R>(answer: &Result<R, Stop>) -> bool
    ensures retries { result ≡ true → answer.now ≡ Err (stop_by Retry) }
    ensures goes_on { result ≡ false → answer.now ≢ Err (stop_by Retry) }
{
    matches!(answer, Err(Stop { why: Why::Retry }))
}

// Lets the answer of an alternative go that the other one takes the place of.
fn let_go<R: Drop>(answer: Result<R, Stop>) {
    match answer {
        Ok(_answer) => {}
        Err(Stop { why: _ }) => {}
    }
}
