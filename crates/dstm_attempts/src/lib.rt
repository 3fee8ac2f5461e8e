//! Attempts of a caller of either engine, made call by call. What is said of them is said in words over what is known of a
//! caller; these words alone, and the laws on them, look at which engine it is.
#![tactic(auto)]

mod attempts;
mod calls;
mod dstm;
mod error;
mod tl2;

pub use attempts::Attempts;
pub use error::{Look, NotOpened, Spent};
