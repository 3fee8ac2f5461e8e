use crate::done::Done;

/// What one worker has to do in a round, and what it has done of it.
#[derive(Drop)]
pub struct Share {
    pub worker: u32,
    /// Where its jobs stand that are left, in file order.
    pub places: Vec<usize>,
    /// What was done of them, from the first on. There is room for all.
    pub done: Done,
}
