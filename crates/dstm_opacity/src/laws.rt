//! Laws of core runs. Each is a statement on every core run of every shape, first values and law; those on what
//! stays need no law, and so can be cited where a law is still to be shown. The functions do nothing.

ghost use Rattle.dstm_opacity.specs.Laws.{
  CommitsStand,
  CommittedLegal,
  CurrentValues,
  EntryStays,
  FoundStays,
  LawAtEveryPrefix,
  NoLocatorTwice,
  NumbersCount,
  NumbersRise,
  PassAgrees,
  PlacesHavePrefixes,
  PutStays,
  SeenStays,
  WritersInDrawOrder,
};
ghost use Rattle.dstm_opacity.specs.Telling.{CommittedInOrder, DoneStands, EachIsTold, EntriesAreHistory, ToldStays};

use dstm_model::Law;

/// No locator is installed twice.
pub fn no_locator_twice<L: Law>()
    ensures { NoLocatorTwice L.holds }
{}

/// Of two committed writers of one object the earlier to install commits before the other installs.
pub fn writers_in_draw_order<L: Law>()
    ensures { WritersInDrawOrder L.holds }
{}

/// What a sight covers are the values of the state after the prefix of the history at its place,
/// which is lawful, where the first values are, and has the effect of each transaction that committed before the
/// attempt began.
pub fn pass_agrees<L: Law>()
    ensures { PassAgrees L.holds }
{}

/// The history is legal from the first values.
pub fn committed_legal<L: Law>()
    ensures { CommittedLegal L.holds }
{}

/// The state after every prefix of the history is lawful, where the first values are.
pub fn law_at_every_prefix<L: Law>()
    ensures { LawAtEveryPrefix L.holds }
{}

/// The numbers drawn rise.
pub fn numbers_rise<L: Law>()
    ensures { NumbersRise L.holds }
{}

/// A number drawn is how many were drawn before it.
pub fn numbers_count<L: Law>()
    ensures { NumbersCount L.holds }
{}

/// An attempt that commits has its entry in the history, right after the prefix at its `Draw`.
pub fn commits_stand<L: Law>()
    ensures { CommitsStand L.holds }
{}

/// The prefix of the history at a place is a prefix of the whole history.
pub fn places_have_prefixes<L: Law>()
    ensures { PlacesHavePrefixes L.holds }
{}

/// The state after the whole history has the current value of each object.
pub fn current_values<L: Law>()
    ensures { CurrentValues L.holds }
{}

/// The entry of an attempt that has drawn its number stays the same.
pub fn entry_stays()
    ensures { EntryStays }
{}

/// A part of a new value, once put, stays.
pub fn put_stays()
    ensures { PutStays }
{}

/// The values that an attempt under way has seen stay the same.
pub fn seen_stays()
    ensures { SeenStays }
{}

/// The value found of a version stays the value of that version.
pub fn found_stays()
    ensures { FoundStays }
{}

/// The entries of the committed attempts are the history.
pub fn entries_are_history()
    ensures { EntriesAreHistory }
{}

/// Of each caller the history has exactly the attempts that its own `Commit`s tell, in their order.
pub fn each_is_told<L: Law>()
    ensures { EachIsTold L.holds }
{}

/// What a caller has committed is told by its own events alone, and is the same in every later run.
pub fn told_stays<L: Law>()
    ensures { ToldStays L.holds }
{}

/// The attempts that commit in a run stand in the order of their numbers.
pub fn committed_in_order<L: Law>()
    ensures { CommittedInOrder L.holds }
{}

/// What a caller has committed stands in the history of every later run.
pub fn done_stands<L: Law>()
    ensures { DoneStands L.holds }
{}
