//! Laws of the order of steps, and runs that follow it. Each is a statement on the definitions; the functions do
//! nothing.

ghost use Rattle.std.specs.Prelude.{◌≡◌, true, [], ◌∷◌};
ghost use Rattle.dstm_core.specs.declared.event.Kind.TheVariants.{Check, Install, Kill, LookHigh, LookNew, LookNumber, LookObj, LookOld, LookOwner, LookRank, LookSelf, LookStatus, Pause, PutOld, PutOwner, Quit, Resume};
ghost use Rattle.dstm_core.specs.declared.shape.Manager.TheVariants.{Greedy, Polite, Karma, Polka};
ghost use Rattle.dstm_core.specs.declared.state.Phase.TheVariants.{Outside};
ghost use Rattle.dstm_core.specs.Runs.{local};
ghost use Rattle.dstm_order.specs.Beginnings.{EveryNewTransactionBeginsAnew, EveryRetryKeepsItsRank, ranks_of, stamps_of};
ghost use Rattle.dstm_order.specs.Calls.{stale_object};
ghost use Rattle.dstm_order.specs.Counts.{counts_of};
ghost use Rattle.dstm_order.specs.Efforts.{most_missed, most_patience};
ghost use Rattle.dstm_order.specs.declared.TheConstants.{MAX_MISSED, MAX_PATIENCE};
ghost use Rattle.dstm_order.specs.Greedy.{a_younger, an_older, gives_way, greedy, kinds_since, meets_a_younger, meets_one_that_waits, one_begins_to_wait, two_older, two_transactions};
ghost use Rattle.dstm_order.specs.Passes.{EveryPassIsComplete, EveryCommitIsValidated, EveryOpenEndsInPass, EveryMissCounts};
ghost use Rattle.dstm_order.specs.Drive.{small, opens_ranked, opens_unranked, meets_guest, row, rows_of, three, reads_three, two, overtaken, first_kinds, kinds_of};

/// The limits that the code counts to are those of the order of steps: 64 failed exchanges of a call, and 4096 turns of
/// giving way.
pub fn limits_are_those_of_the_order()
    ensures missed { MAX_MISSED ≡ most_missed }
    ensures patience { MAX_PATIENCE ≡ most_patience }
{}

/// A call that has come to a LookSelf has just made a complete pass: LookNumber, then, unless the number is the one
/// with which the last complete pass began, one Check of each recorded read, in order, each of which found the
/// recorded word.
pub fn passes_are_complete()
    ensures { EveryPassIsComplete }
{}

/// A commit that has come to its Commit has just drawn a number, and made the same checks after it.
pub fn commits_are_validated()
    ensures { EveryCommitIsValidated }
{}

/// An open that has not left its attempt ends with a complete pass, and where ranks rise with a Rank after it, which
/// raises the rank by one, to 1,023 at most.
pub fn opens_end_in_a_pass()
    ensures { EveryOpenEndsInPass }
{}

/// A call counts each of its exchanges of an object or of an enemy's status that failed.
pub fn misses_are_counted()
    ensures { EveryMissCounts }
{}

/// A call that is to begin the same transaction again draws no stamp, and its caller keeps its rank; the attempt that it
/// begins has this rank, under each manager but Polite.
pub fn retries_begin_with_their_rank()
    ensures { EveryRetryKeepsItsRank }
{}

/// A call that begins a new transaction draws exactly one stamp under Greedy, which is the rank of its attempt, and else
/// none. Under Karma and Polka the rank is 0.
pub fn new_transactions_begin_anew()
    ensures { EveryNewTransactionBeginsAnew }
{}

/// A caller opens an object for writing and commits, beside a guest that was to do the same and stopped: after
/// each of the guest's events, the last one first. Before its Install nobody meets it; from then on its attempt
/// is aborted, after the waits that the manager wants; once it has committed its value is found. The random words
/// are all 0.
pub fn meeting_a_guest_that_stopped()
    ensures karma { rows_of Karma opens_ranked 15 ≡
        row 17 0 0 1 ∷ row 26 8 1 1 ∷ row 26 8 1 0 ∷ row 26 8 1 0 ∷ row 26 8 1 0 ∷ row 26 8 1 0
        ∷ row 22 4 1 0 ∷ row 22 4 1 0 ∷ row 22 4 1 0
        ∷ row 13 0 0 0 ∷ row 13 0 0 0 ∷ row 13 0 0 0 ∷ row 13 0 0 0 ∷ row 13 0 0 0 ∷ row 13 0 0 0 ∷ [] }
    ensures polite { rows_of Polite opens_unranked 13 ≡
        row 16 0 0 1 ∷ row 24 8 1 1 ∷ row 24 8 1 0 ∷ row 24 8 1 0 ∷ row 24 8 1 0
        ∷ row 24 8 1 0 ∷ row 24 8 1 0 ∷ row 24 8 1 0
        ∷ row 12 0 0 0 ∷ row 12 0 0 0 ∷ row 12 0 0 0 ∷ row 12 0 0 0 ∷ row 12 0 0 0 ∷ [] }
    ensures polka { rows_of Polka opens_ranked 9 ≡
        row 19 1 1 0 ∷ row 19 1 1 0 ∷ row 19 1 1 0
        ∷ row 13 0 0 0 ∷ row 13 0 0 0 ∷ row 13 0 0 0 ∷ row 13 0 0 0 ∷ row 13 0 0 0 ∷ row 13 0 0 0 ∷ [] }
    ensures commits { (local (small Karma) (meets_guest Karma opens_ranked 7) 1).committed ≡ true }
{}

/// A caller opens an object under Greedy that another has opened. To an older one it gives way, and looks at its status
/// until it has committed. A younger one it aborts at once, and so one that waits; if the enemy begins to wait while it
/// gives way itself, it goes on and aborts it. Kinds of events stand with the newest first.
pub fn meetings_under_greedy()
    ensures older { kinds_since an_older gives_way ≡
        LookSelf ∷ LookNumber ∷ Install ∷ PutOld ∷ PutOwner ∷ LookNew ∷ LookHigh ∷ Resume
        ∷ LookStatus ∷ LookStatus ∷ LookStatus ∷ LookStatus ∷ Pause
        ∷ LookRank ∷ LookStatus ∷ LookOwner ∷ LookObj ∷ [] }
    ensures younger { kinds_since a_younger meets_a_younger ≡
        LookSelf ∷ LookNumber ∷ Install ∷ PutOld ∷ PutOwner ∷ LookOld ∷ Kill
        ∷ LookRank ∷ LookStatus ∷ LookOwner ∷ LookObj ∷ [] }
    ensures waiting { kinds_since two_older meets_one_that_waits ≡
        LookSelf ∷ LookNumber ∷ Install ∷ PutOld ∷ PutOwner ∷ LookOld ∷ Kill
        ∷ LookRank ∷ LookStatus ∷ LookOwner ∷ LookObj ∷ [] }
    ensures begins_to_wait { kinds_since two_older one_begins_to_wait ≡
        LookSelf ∷ LookNumber ∷ Install ∷ PutOld ∷ PutOwner ∷ LookOld ∷ Kill ∷ Resume
        ∷ LookStatus ∷ LookStatus ∷ Pause
        ∷ LookRank ∷ LookStatus ∷ LookOwner ∷ LookObj ∷ [] }
    ensures counts { counts_of greedy gives_way 1 ≡ record { steps = 18; turns = 4; kills = 0 } }
    ensures kills { counts_of greedy one_begins_to_wait 1 ≡ record { steps = 16; turns = 2; kills = 1 } }
{}

/// A caller commits a transaction, leaves the next one after an open, and makes this again. Under Greedy each of the two
/// draws one stamp, and each attempt has the stamp of its transaction. Under Karma and Polka each transaction begins
/// with the rank 0, each open raises it by one, and the attempt that is made again begins with the rank that the one
/// before it had. Stamps drawn and ranks stored stand with the newest first.
pub fn stamps_and_ranks()
    ensures stamps { stamps_of (two_transactions Greedy) ≡ 1 ∷ 0 ∷ [] }
    ensures greedy { ranks_of (two_transactions Greedy) ≡ 1 ∷ 1 ∷ 0 ∷ [] }
    ensures karma { ranks_of (two_transactions Karma) ≡ 2 ∷ 1 ∷ 1 ∷ 0 ∷ 1 ∷ 0 ∷ [] }
    ensures polka { ranks_of (two_transactions Polka) ≡ 2 ∷ 1 ∷ 1 ∷ 0 ∷ 1 ∷ 0 ∷ [] }
    ensures polite { ranks_of (two_transactions Polite) ≡ [] }
{}

/// A caller that reads three objects and commits, alone.
pub fn reading_three_objects()
    ensures counts { counts_of three reads_three 0 ≡ record { steps = 14; turns = 0; kills = 0 } }
    ensures commits { (local three reads_three 0).committed ≡ true }
{}

/// A caller that opens an object after another has written one of its reads leaves its attempt.
pub fn being_overtaken()
    ensures kinds { first_kinds 3 (kinds_of overtaken) ≡ Quit ∷ Check ∷ LookNumber ∷ [] }
    ensures stale { (local two overtaken 0).stale ≡ true }
    ensures object { stale_object (local two overtaken 0) ≡ 0 }
    ensures outside { (local two overtaken 0).phase ≡ Outside }
    ensures commits { (local two overtaken 1).committed ≡ true }
{}
