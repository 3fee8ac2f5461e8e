/// What a trace is found to be.
#[derive(Clone, Copy, Debug, PartialEq, Eq)]
pub enum Replay {
    /// A core run.
    Run,
    /// No core run: the first event that breaks it.
    Broken(u64),
}
