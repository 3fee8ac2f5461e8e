//! Lines, fields and plain decimals in texts of bytes.
#![tactic(auto)]

mod lines;
mod number;
mod print;
mod sections;

pub use lines::{Fields, Lines, Pieces};
pub use number::{DecimalError, decimal};
pub use print::{one_spelling, push_decimal, put_decimal};
pub use sections::split_at_line;
