// How a call ended.

/// How a call ended.
#[derive(Clone, Copy, Debug, PartialEq, Eq)]
pub enum Code {
    /// It did what it is for.
    Done,
    /// The transaction is lost, since another one came between: begin again.
    Again,
    /// The part has no attempts left, or no locators: give it back and take another.
    Spent,
    /// The memory has no such cell.
    Foreign,
    /// No transaction is under way.
    Idle,
    /// A transaction is under way.
    Open,
    /// The handle is closed, or it is one of another kind.
    Closed,
    /// The handle is not closed, and would be lost.
    Taken,
    /// Threads have parts in the memory.
    Busy,
    /// The memory has as many cells, or as many parts with threads, as it can have.
    Full,
    /// There was not enough memory.
    Memory,
    /// A number is out of its range.
    Range,
}
