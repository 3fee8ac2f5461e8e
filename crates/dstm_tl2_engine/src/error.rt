// What calls answer.
use dstm_tl2_order::TlAgain;
use std::alloc::AllocError;

/// Why an attempt did not commit.
#[derive(Clone, Copy, Debug, PartialEq, Eq)]
pub enum TlEnded {
    /// It was left, and must be made again.
    Again(TlAgain),
    /// The caller has no attempt left.
    Spent,
}

/// Why there is no new caller.
#[derive(Debug, Drop)]
pub enum TlEnrol {
    /// All callers were made.
    Full,
    /// There was not enough memory.
    Memory(AllocError),
}

/// The caller has no attempt left.
#[derive(Clone, Copy, Debug, PartialEq, Eq)]
pub struct TlSpent;

/// An attempt that committed.
#[derive(Clone, Copy, Debug, PartialEq, Eq)]
pub struct TlDone {
    /// The number that it drew.
    pub number: u64,
}
