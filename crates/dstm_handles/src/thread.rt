// A thread's part in a memory.
use dstm_cells::{Courtesy, Owned, Ticket, Turn};
use std::alloc::Global;
use std::sync::Arc;

/// A thread's part in a memory: it makes transactions, one after the other.
pub struct Thread {
    pub(crate) tx: Owned,
    // A transaction was begun, and has neither committed nor was it given up.
    pub(crate) begun: bool,
    // It looks whether something that it has read has changed, and does nothing else any more.
    pub(crate) waits: bool,
    // The clock as its attempt began.
    pub(crate) since: u64,
    // The turn of the memory's threads, and what this one has of it.
    pub(crate) turn: Arc<Turn, Global>,
    pub(crate) ticket: Option<Ticket>,
    pub(crate) courtesy: Courtesy,
}

// Where it has the turn, it gives it back.
impl Drop for Thread {
    fn drop(self) {
        let Thread {
            tx: _,
            begun: _,
            waits: _,
            since: _,
            turn,
            ticket,
            courtesy: _,
        } = self;
        if let Some(ticket) = ticket {
            turn.give_back(ticket);
        }
    }
}
