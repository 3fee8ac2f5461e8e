use dstm_jobs::{Round, Zeros};
use dstm_model::Val;
use dstm_report::{PackedRows, Turns};

/// How far a run has come between two rounds.
#[derive(Drop)]
pub struct Progress<'a> {
    /// What the last round has left in the objects. While a round is played its table has them.
    pub values: Vec<Val>,
    /// Whose turn it is.
    pub turns: Turns<'a>,
    /// What was done, in order.
    pub rows: PackedRows,
    /// The records of the rounds, behind those that were there before.
    pub rounds: Vec<Round>,
    /// Of these each round's table is made.
    pub zeros: Zeros,
}
