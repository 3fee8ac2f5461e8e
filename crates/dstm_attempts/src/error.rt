// What calls answer.

/// Why an object was not opened.
#[derive(Clone, Copy, Debug, PartialEq, Eq)]
pub enum NotOpened {
    /// No attempt is under way: there was none, or another transaction came between.
    Over,
    /// There is no such object.
    Foreign,
}

/// The caller has no attempt left.
#[derive(Clone, Copy, Debug, PartialEq, Eq)]
pub struct Spent;

/// What one look answers, whether something changed since.
#[derive(Clone, Copy, Debug, PartialEq, Eq)]
pub enum Look {
    /// Nothing has.
    Same,
    /// Something has, or the attempt is over.
    Changed,
    /// The caller has no attempt left to look.
    Spent,
}
