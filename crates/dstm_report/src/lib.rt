//! Reports: what a run did, in the order in which its transactions committed.
#![tactic(auto)]

mod checking;
mod draft;
mod error;
mod packed;
mod reading;
mod rendering;
mod replay;
mod report;
mod turns;
mod verdict;

pub use checking::{balances_stay, check, lawful_is_held, line_by_line};
pub use error::ReportError;
pub use packed::{PackedReport, PackedRows};
pub use reading::{
    one_reading, read_back, read_report, read_where_printed, refused_where_none_begins,
};
pub use rendering::{render, render_packed};
pub use report::{Report, Row, Rows};
pub use turns::Turns;
pub use verdict::Verdict;
