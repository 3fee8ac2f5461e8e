use dstm_order::Again;
use std::alloc::AllocError;

/// Why an attempt did not commit.
#[derive(Clone, Copy, Debug, PartialEq, Eq)]
pub enum Ended {
    /// It was left, and must be made again.
    Again(Again),
    /// The caller has no attempt left, or too few locators.
    Spent,
}

/// Why there is no new caller.
#[derive(Debug, Drop)]
pub enum EnrolError {
    /// All callers and guests were made.
    Full,
    /// There was not enough memory.
    Memory(AllocError),
}

/// The caller has no attempt left, or too few locators.
#[derive(Clone, Copy, Debug, PartialEq, Eq)]
pub struct Spent;

/// An attempt that committed.
#[derive(Clone, Copy, Debug, PartialEq, Eq)]
pub struct Done {
    /// The number that it drew.
    pub number: u64,
}
