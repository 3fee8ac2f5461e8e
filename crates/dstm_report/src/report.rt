use dstm_model::{Items, Listed, Numbers, Replies};

/// What one committed transaction answered.
#[derive(Debug, Drop)]
pub struct Row {
    /// The line of its job in the workload, from 1.
    pub line: u64,
    /// The worker that ran it.
    pub worker: u32,
    /// The round in which it committed, from 0.
    pub round: u64,
    /// Its number in that round. Round and number together rise from row to row.
    pub number: u64,
    /// The replies of its operations, 1 to 8.
    pub replies: Replies,
}

/// The rows of a report, in order.
pub type Rows = Listed<Row>;

/// What a run did, and what it left.
#[derive(Debug, Drop)]
pub struct Report {
    /// The version of its text: 1, 2 or 3, that of the workload.
    pub version: u32,
    pub rows: Rows,
    /// The balances in account order, where there is a bank.
    pub bank: Option<Numbers>,
    /// The keys of the list, where there is one.
    pub list: Option<Numbers>,
    /// The keys of the tree with their values, where there is one.
    pub tree: Option<Items>,
    /// How many transactions were to be run.
    pub count: u64,
}
