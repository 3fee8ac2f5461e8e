/// What the check of a report says.
#[derive(Clone, Copy, Debug, PartialEq, Eq)]
pub enum Verdict {
    Lawful,
    /// The first line of the report's text that is bad, from 1.
    NotLawful(u64),
}
