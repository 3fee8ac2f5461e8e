//! Laws of the choices of a [`Decider`](crate::Decider). Each is a statement on every meeting with an
//! enemy; the functions do nothing.

ghost use Rattle.dstm_managers.specs.Meetings.{EveryMeetingIsBounded, PatienceEnds, EveryWaitIsBounded};

/// An attempt waits for one enemy in few rounds, of few turns in all: under Polite in 8 rounds of 1,020
/// turns, under Karma in 1,024 of 4,096 and under Polka in 1,024 of 260,351.
pub fn every_meeting_is_bounded()
    ensures { EveryMeetingIsBounded }
{}

/// After that many rounds the enemy is aborted.
pub fn patience_ends()
    ensures { PatienceEnds }
{}

/// Each wait has at least one turn, and at most `4 * 2^round` under Polite, 4 under Karma and
/// `2^min(round, 8)` under Polka.
pub fn every_wait_is_bounded()
    ensures { EveryWaitIsBounded }
{}
