// A thread's part in a run.
ghost use Rattle.std.specs.Prelude.{◌≡◌, true, false, IfErr, IfOk, is_ok};
ghost use Rattle.dstm_attempts.specs.Attempts.{IsLost, IsQuit};
ghost use Rattle.dstm_cells.specs.Attempts.{IsLeft};
ghost use Rattle.dstm_cells.specs.Closures.{GaveUpFor, GaveUpResting, IsLawful, IsLawfulWhere, KeepsEach, KeepsPatience, TookEffect, Viewed};
ghost use Rattle.dstm_cells.specs.UnderWay.{AddsNothing, Keeps, LeavesLawful, TakesEffect};
ghost use Rattle.dstm_tables.specs.Callers.{home_of};

use crate::back_off::BackOff;
use crate::ending::{Commits, CommitsOk, Ending, Leaves};
use crate::error::{GaveUp, Stop};
use crate::rest::{Rest, Yields};
use crate::transaction::Transaction;
use crate::turn::Turn;
use crate::under_way::Tx;
use dstm_model::AnyLaw;

/// A thread's part in a run: it makes transactions, one after the other.
#[derive(Drop)]
pub struct Part<'a, X> {
    pub(crate) tx: X,
    pub(crate) back_off: BackOff<'a>,
}

/// A thread's part in a run on a memory, under a law where one is named.
pub type Me<'a, L = AnyLaw> = Part<'a, Tx<'a, L>>;

impl<'a, X: Drop> Part<'a, X> {
    // The part that makes these transactions. It knows of no turn.
    pub(crate) fn of(tx: X) -> Part<'a, X>
        ensures { result.tx ≡ tx }
    {
        Part {
            tx,
            back_off: BackOff::new(None),
        }
    }

    /// The part, which shares this turn with other threads of its table: a transaction that was lost often goes before
    /// theirs.
    pub fn with_turn(self, turn: &'a Turn) -> Part<'a, X>
        ensures { result.tx ≡ self.entry.tx }
    {
        let Part { tx, .. } = self;
        Part {
            tx,
            back_off: BackOff::new(Some(turn)),
        }
    }
}

impl<X: Transaction> Part<'_, X> {
    /// Makes a transaction: calls the closure, and again, until what it did has taken effect as a whole. What an
    /// attempt has set that does not take effect nobody sees. The answer is that of the last call.
    pub fn atomically<R: Drop, F>(&mut self, f: F) -> Result<R, GaveUp>
    where
        F: FnMut(&mut X) -> Result<R, Stop>,
        requires callable { F.IsAlwaysCallable f }
        requires lawful { IsLawful X.caller F.FnMut X.Rule.holds }
        ensures took { KeepsEach X.caller F.FnMut →
            IfOk result (TookEffect X.caller F.FnMut X.Rule.holds X.patience (X.caller self.old.tx) f (X.caller self.new.tx)) }
        ensures nothing { KeepsEach X.caller F.FnMut →
            IfErr result (λ _. AddsNothing (X.caller self.old.tx) (X.caller self.new.tx)) }
        ensures why { KeepsEach X.caller F.FnMut →
            IfErr result (GaveUpFor X.caller F.FnMut X.Rule.holds X.patience (X.caller self.old.tx) f (X.caller self.new.tx)) }
        ensures home { KeepsEach X.caller F.FnMut → home_of (X.caller self.new.tx) ≡ home_of (X.caller self.old.tx) }
        ensures quit { IsQuit (X.caller self.old.tx) → IsQuit (X.caller self.new.tx) }
        ensures patience { KeepsPatience X.patience F.FnMut → X.patience self.new.tx ≡ X.patience self.old.tx }
    {
        self.make(f, Commits, &mut Yields)
    }

    /// As `atomically`, and between two looks, and wherever else it lets others run, the thread rests as it is told here:
    /// by `Naps` it sleeps, and waits for as long as these have patience.
    pub fn atomically_by<R: Drop, S: Rest, F>(&mut self, rest: &mut S, f: F) -> Result<R, GaveUp>
    where
        F: FnMut(&mut X) -> Result<R, Stop>,
        requires callable { F.IsAlwaysCallable f }
        requires lawful { IsLawful X.caller F.FnMut X.Rule.holds }
        ensures took { KeepsEach X.caller F.FnMut →
            IfOk result (TookEffect X.caller F.FnMut X.Rule.holds X.patience (X.caller self.old.tx) f (X.caller self.new.tx)) }
        ensures nothing { KeepsEach X.caller F.FnMut →
            IfErr result (λ _. AddsNothing (X.caller self.old.tx) (X.caller self.new.tx)) }
        ensures why { KeepsEach X.caller F.FnMut →
            IfErr result (GaveUpResting X.caller F.FnMut X.Rule.holds X.patience S.tires (X.caller self.old.tx) f (X.caller self.new.tx)) }
        ensures home { KeepsEach X.caller F.FnMut → home_of (X.caller self.new.tx) ≡ home_of (X.caller self.old.tx) }
        ensures quit { IsQuit (X.caller self.old.tx) → IsQuit (X.caller self.new.tx) }
        ensures patience { KeepsPatience X.patience F.FnMut → X.patience self.new.tx ≡ X.patience self.old.tx }
    {
        self.make(f, Commits, rest)
    }

    /// Looks at the memory: calls the closure, and again, until an attempt was under way to its end. What it was told stood
    /// together at one moment. Nothing that it has set takes effect, and no number is drawn, so that views of several threads do
    /// not meet. The answer is that of the last call.
    pub fn view<R: Drop, F>(&mut self, f: F) -> Result<R, GaveUp>
    where
        F: FnMut(&mut X) -> Result<R, Stop>,
        requires callable { F.IsAlwaysCallable f }
        ensures viewed { KeepsEach X.caller F.FnMut →
            IfOk result (Viewed X.caller F.FnMut X.Rule.holds X.patience (X.caller self.old.tx) f (X.caller self.new.tx)) }
        ensures nothing { KeepsEach X.caller F.FnMut → AddsNothing (X.caller self.old.tx) (X.caller self.new.tx) }
        ensures why { KeepsEach X.caller F.FnMut →
            IfErr result (GaveUpFor X.caller F.FnMut X.Rule.holds X.patience (X.caller self.old.tx) f (X.caller self.new.tx)) }
        ensures quit { IsQuit (X.caller self.old.tx) → IsQuit (X.caller self.new.tx) }
        ensures patience { KeepsPatience X.patience F.FnMut → X.patience self.new.tx ≡ X.patience self.old.tx }
    {
        self.make(f, Leaves, &mut Yields)
    }

    /// As `view`, and the thread rests as it is told here.
    pub fn view_by<R: Drop, S: Rest, F>(&mut self, rest: &mut S, f: F) -> Result<R, GaveUp>
    where
        F: FnMut(&mut X) -> Result<R, Stop>,
        requires callable { F.IsAlwaysCallable f }
        ensures viewed { KeepsEach X.caller F.FnMut →
            IfOk result (Viewed X.caller F.FnMut X.Rule.holds X.patience (X.caller self.old.tx) f (X.caller self.new.tx)) }
        ensures nothing { KeepsEach X.caller F.FnMut → AddsNothing (X.caller self.old.tx) (X.caller self.new.tx) }
        ensures why { KeepsEach X.caller F.FnMut →
            IfErr result (GaveUpResting X.caller F.FnMut X.Rule.holds X.patience S.tires (X.caller self.old.tx) f (X.caller self.new.tx)) }
        ensures quit { IsQuit (X.caller self.old.tx) → IsQuit (X.caller self.new.tx) }
        ensures patience { KeepsPatience X.patience F.FnMut → X.patience self.new.tx ≡ X.patience self.old.tx }
    {
        self.make(f, Leaves, rest)
    }

    /// Makes a transaction that its closure may leave with a value of its own. Where the last call answers `Ok(Ok(..))`, what it did
    /// has taken effect, as by `atomically`; where it answers `Ok(Err(..))`, nothing that it has set has, and what it was told
    /// stood together, as by `view`. The answer is that of the last call.
    pub fn attempt<R: Drop, E: Drop, F>(&mut self, f: F) -> Result<Result<R, E>, GaveUp>
    where
        F: FnMut(&mut X) -> Result<Result<R, E>, Stop>,
        requires callable { F.IsAlwaysCallable f }
        requires lawful { IsLawfulWhere X.caller F.FnMut X.Rule.holds is_ok }
        ensures took { KeepsEach X.caller F.FnMut → IfOk result (λ answer. is_ok answer ≡ true →
            TookEffect X.caller F.FnMut X.Rule.holds X.patience (X.caller self.old.tx) f (X.caller self.new.tx) answer) }
        ensures left { KeepsEach X.caller F.FnMut → IfOk result (λ answer. is_ok answer ≡ false →
            Viewed X.caller F.FnMut X.Rule.holds X.patience (X.caller self.old.tx) f (X.caller self.new.tx) answer) }
        ensures nothing { KeepsEach X.caller F.FnMut →
            IfErr result (λ _. AddsNothing (X.caller self.old.tx) (X.caller self.new.tx)) }
        ensures why { KeepsEach X.caller F.FnMut →
            IfErr result (GaveUpFor X.caller F.FnMut X.Rule.holds X.patience (X.caller self.old.tx) f (X.caller self.new.tx)) }
        ensures home { KeepsEach X.caller F.FnMut → home_of (X.caller self.new.tx) ≡ home_of (X.caller self.old.tx) }
        ensures quit { IsQuit (X.caller self.old.tx) → IsQuit (X.caller self.new.tx) }
        ensures patience { KeepsPatience X.patience F.FnMut → X.patience self.new.tx ≡ X.patience self.old.tx }
    {
        self.make(f, CommitsOk, &mut Yields)
    }

    // Calls the closure on attempts, one after the other, until one has ended well, by its commit or by being left.
    #[inline(always)]
    fn make<R: Drop, E: Ending<R> + Drop, S: Rest, F>(
        &mut self,
        f: F,
        ending: E,
        rest: &mut S,
    ) -> Result<R, GaveUp>
    where
        F: FnMut(&mut X) -> Result<R, Stop>,
        requires callable { F.IsAlwaysCallable f }
        requires lawful { IsLawfulWhere X.caller F.FnMut X.Rule.holds E.commits }
        ensures took { KeepsEach X.caller F.FnMut → IfOk result (λ answer. E.commits answer ≡ true →
            TookEffect X.caller F.FnMut X.Rule.holds X.patience (X.caller self.old.tx) f (X.caller self.new.tx) answer) }
        ensures left { KeepsEach X.caller F.FnMut → IfOk result (λ answer. E.commits answer ≡ false →
            Viewed X.caller F.FnMut X.Rule.holds X.patience (X.caller self.old.tx) f (X.caller self.new.tx) answer) }
        ensures nothing { KeepsEach X.caller F.FnMut →
            IfErr result (λ _. AddsNothing (X.caller self.old.tx) (X.caller self.new.tx)) }
        ensures why { KeepsEach X.caller F.FnMut →
            IfErr result (GaveUpResting X.caller F.FnMut X.Rule.holds X.patience S.tires (X.caller self.old.tx) f (X.caller self.new.tx)) }
        ensures home { KeepsEach X.caller F.FnMut → home_of (X.caller self.new.tx) ≡ home_of (X.caller self.old.tx) }
        ensures quit { IsQuit (X.caller self.old.tx) → IsQuit (X.caller self.new.tx) }
        ensures patience { KeepsPatience X.patience F.FnMut → X.patience self.new.tx ≡ X.patience self.old.tx }
    {
        let mut f = f;
        self.back_off.settle();
        rest.reset();
        self.tx.renew();
        for _number in 0..self.tx.attempts() {
            self.back_off.enter(rest);
            self.tx.begin()?;
            match f(&mut self.tx) {
                Ok(answer) => {
                    if end(&mut self.tx, ending.commits(&answer)) {
                        self.back_off.settle();
                        return Ok(answer);
                    }
                }
                Err(stop) => {
                    self.back_off.stop(&stop);
                    self.tx.leave(stop, rest)?;
                }
            }
            self.back_off.give_way(rest);
        }
        Err(GaveUp::Spent)
    }

    /// From now on a transaction that retries looks so many times at most whether something that it has read has
    /// changed, and gives way at each look: 1,048,576 times, where it is not told.
    pub fn set_looks(&mut self, looks: u32)
        ensures same { X.caller self.new.tx ≡ X.caller self.old.tx }
        ensures looks { X.patience self.new.tx ≡ looks }
    {
        self.tx.set_looks(looks);
    }
}

// Ends the attempt, by its commit or by leaving it, and tells whether it ended well.
#[inline(always)]
fn end<X: Transaction>(tx: &mut X, commits: bool) -> bool
    requires lawful { commits ≡ true → LeavesLawful X.Rule.holds (X.caller tx.old) }
    ensures takes { commits ≡ true → result ≡ true → TakesEffect X.Rule.holds (X.caller tx.old) (X.caller tx.new) }
    ensures leaves { commits ≡ false → IsLeft X.Rule.holds result (X.caller tx.old) (X.caller tx.new) }
    ensures keeps { result ≡ false → Keeps (X.caller tx.old) (X.caller tx.new) }
    ensures lost { result ≡ false → IsLost X.Rule.holds (X.caller tx.old) (X.caller tx.new) }
    ensures home { home_of (X.caller tx.new) ≡ home_of (X.caller tx.old) }
    ensures quit { IsQuit (X.caller tx.new) }
    ensures patience { X.patience tx.new ≡ X.patience tx.old }
{
    if commits { tx.commit() } else { tx.finish() }
}
