//! Tables and callers of either engine, under any law. What is said of them is said in words over what is known of a table;
//! these words alone, and the laws on them, look at which engine it is.
#![tactic(auto)]

mod attempting;
mod engine;
mod founding;
pub mod laws;
mod tables;

pub use attempting::{Ended, attempt};
pub use dstm_core::Manager;
pub use dstm_engine::{EnrolError, MOST_OBJECTS, Zeros};
pub use engine::{Engine, MOST_ATTEMPTS, make};
pub use founding::{Founder, make_dstm, make_tl2};
pub use tables::{Caller, Round, Table};
