//! Trying jobs by callers of either engine, whose tables keep the law of the store. What is said of a try is said in words over
//! what is known of a table.
#![tactic(auto)]

mod dstm;
mod founding;
pub mod laws;
mod only;
mod style;
mod tables;
mod tl2;
mod trying;

pub use dstm_tables::Zeros;
pub use founding::make;
pub use only::{OnlyTried, give_up, try_alone};
pub use style::Style;
pub use tables::{Caller, Founder, Round, Table};
pub use trying::{Finished, Left, RECHECKS, Tried, attempt_job};
