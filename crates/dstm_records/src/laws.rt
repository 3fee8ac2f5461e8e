//! Laws of the records of a run, however it ended: what the calls of the callers come to. Each holds of every caller of every
//! round that has a record. The functions do nothing.

ghost use Rattle.dstm_records.specs.Laws.{EachIsBoundedWhenAlone, EachIsByCalls, EachIsNeverStale, EachIsSafeWhenOldest, EachKeepsItsRank, EachKillsAsChosen, EachWasHandedRightly};

/// Each caller has made its events by calls that obey the order of steps, one after the other from nothing; under DSTM from
/// the generator of a worker's seed on.
pub fn callers_are_by_calls()
    ensures { EachIsByCalls }
{}

/// Every value that an attempt was handed was validated before the attempt did anything else, and all that it was handed are
/// values of one moment: those of the state after the first some of the transactions that committed in the round.
pub fn handed_values_stood()
    ensures { EachWasHandedRightly }
{}

/// An attempt aborts another one only where its manager chose that, asked about that enemy after the rounds that were waited.
pub fn kills_were_chosen()
    ensures { EachKillsAsChosen }
{}

/// An attempt in which no other caller made a step, under Polite, Karma or Polka or of a table's only caller, was left
/// by its commit only, and took few steps.
pub fn alone_attempts_were_bounded()
    ensures { EachIsBoundedWhenAlone }
{}

/// Under Greedy an attempt that began while its transaction was the oldest live one has not waited, and no other caller has
/// changed its status.
pub fn oldest_attempts_were_safe()
    ensures { EachIsSafeWhenOldest }
{}

/// A retry stayed the same transaction: it drew no stamp and kept its rank.
pub fn retries_kept_their_rank()
    ensures { EachKeepsItsRank }
{}

/// Where objects that are only read are opened for writing too, no attempt was stale: at no time it had recorded a read.
pub fn writers_were_never_stale()
    ensures { EachIsNeverStale }
{}
