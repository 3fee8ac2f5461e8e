// How a transaction that was lost comes again.
use crate::error::{Stop, Why};
use crate::rest::Rest;
use crate::turn::{Courtesy, MOST_LOST, Ticket, Turn};

/// How the transactions of a thread come again behind attempts that were lost: they rest, and one that was lost often
/// takes the turn. Nothing is promised of it but that each call returns.
pub(crate) struct BackOff<'a> {
    turn: Option<&'a Turn>,
    ticket: Option<Ticket>,
    // How many attempts of the transaction were lost in a row.
    lost: u32,
    // Its last attempt has waited, and the wait has ended.
    waited: bool,
    courtesy: Courtesy,
}

impl<'a> BackOff<'a> {
    /// Nothing was lost so far.
    pub(crate) fn new(turn: Option<&'a Turn>) -> BackOff<'a> {
        BackOff {
            turn,
            ticket: None,
            lost: 0,
            waited: false,
            courtesy: Courtesy::new(),
        }
    }

    /// Before an attempt: takes the turn where the transaction was lost often, and lets another one that has it go first.
    #[inline(always)]
    pub(crate) fn enter<S: Rest>(&mut self, rest: &mut S) {
        let Some(turn) = self.turn else {
            return;
        };
        if self.lost >= MOST_LOST || turn.is_taken() {
            self.take_or_wait(turn, rest);
        }
    }

    #[cold]
    fn take_or_wait<S: Rest>(&mut self, turn: &Turn, rest: &mut S) {
        if self.lost >= MOST_LOST {
            self.ticket = turn.go_first(self.ticket);
        }
        if self.ticket.is_none() {
            turn.let_first(&mut self.courtesy, rest);
        }
    }

    /// The closure has stopped the attempt. Unless it is made again at once, the turn is given back. Where a wait ends,
    /// something has changed, and nobody is in the way.
    #[inline(always)]
    pub(crate) fn stop(&mut self, stop: &Stop) {
        if !matches!(stop, Stop { why: Why::Again }) {
            self.waited = true;
            self.settle();
        }
    }

    /// Behind an attempt that came to nothing: lets other threads run.
    pub(crate) fn give_way<S: Rest>(&mut self, rest: &mut S) {
        if self.waited {
            self.waited = false;
            return;
        }
        self.lost = self.lost.saturating_add(1);
        if self.ticket.is_none() {
            rest.back_off(self.lost);
        }
    }

    /// The transaction has ended, or begins anew.
    #[inline(always)]
    pub(crate) fn settle(&mut self) {
        if self.lost > 0 {
            self.renew();
        }
    }

    #[cold]
    fn renew(&mut self) {
        self.lost = 0;
        give_back(self.turn, self.ticket);
        self.ticket = None;
    }
}

impl<'a> Drop for BackOff<'a> {
    fn drop(self) {
        let Self {
            turn,
            ticket,
            lost: _,
            waited: _,
            courtesy: _,
        } = self;
        give_back(turn, ticket);
    }
}

// Gives the turn back, where it was taken.
fn give_back(turn: Option<&Turn>, ticket: Option<Ticket>) {
    if let (Some(turn), Some(ticket)) = (turn, ticket) {
        turn.give_back(ticket);
    }
}
