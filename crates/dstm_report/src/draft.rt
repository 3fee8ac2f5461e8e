use crate::report::Report;

/// The greatest number of a row's replies.
pub const MAX_REPLIES: usize = 8;

/// The greatest worker that a row may name.
pub const MAX_WORKER: u64 = u32::MAX as u64;

/// The greatest of all other numbers.
pub const MAX_NUMBER: u64 = u64::MAX;

/// Stands between a key and its value.
pub const COLON: u8 = b':';

/// Stands between a round and a number.
pub const DOT: u8 = b'.';

/// The parts of a report, in their order.
#[derive(Clone, Copy, Debug, PartialEq, Eq)]
pub enum Part {
    Rows,
    Bank,
    List,
    Tree,
    End,
}

/// A report as far as it has been read.
#[derive(Debug, Drop)]
pub struct Draft {
    /// The part to which the last line belongs.
    pub part: Part,
    pub report: Report,
}
