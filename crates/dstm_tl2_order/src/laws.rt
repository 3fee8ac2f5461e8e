//! Laws of calls of TL2, whatever the other callers do: how many steps each takes at most, of which looks a read consists,
//! what is checked before anything is written; and how attempts ended, as a log tells. The functions do nothing.

ghost use Rattle.dstm_tl2_order.specs.Laws.{EveryCallIsBounded, EveryReadIsFourLooks, EveryWriteIsValidated};
ghost use Rattle.dstm_tl2_order.specs.Lives.{LivesAreBounded};
ghost use Rattle.dstm_tl2_order.specs.Ends.{AnswersDisturb, EndsStay, OwnEventsTell, ReadsSoFar, UndrawnHasNone, ValidCommits};

/// A call takes at most the steps of its price, whatever they find.
pub fn calls_are_bounded()
    ensures { EveryCallIsBounded }
{}

/// A caller whose own events are those of calls has made at most as many as the prices of these come to.
pub fn lives_are_bounded()
    ensures { LivesAreBounded }
{}

/// A call that opens an object, and goes on, has made four looks: the lock word, both parts of the value, and the lock
/// word again, which is the same.
pub fn reads_are_four_looks()
    ensures { EveryReadIsFourLooks }
{}

/// Where a call has come to write a part of a value it has drawn a number, and checked each read of an object that is
/// not written after it.
pub fn writes_are_validated()
    ensures { EveryWriteIsValidated }
{}

/// What became of an attempt stays so.
pub fn ends_stay()
    ensures { EndsStay }
{}

/// Whether an attempt drew, and what it has read, is told by its caller's own events.
pub fn own_events_tell()
    ensures { OwnEventsTell }
{}

/// A call that answers why its attempt was left has disturbed it.
pub fn answers_disturb()
    ensures { AnswersDisturb }
{}

/// An attempt that is valid has committed.
pub fn valid_commits()
    ensures { ValidCommits }
{}

/// An attempt that has drawn nothing has no draw.
pub fn undrawn_has_none()
    ensures { UndrawnHasNone }
{}

/// What an attempt has read so far is what the log tells.
pub fn reads_so_far()
    ensures { ReadsSoFar }
{}
