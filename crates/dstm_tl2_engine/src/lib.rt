//! TL2: a table of values that threads share, what gives out its callers, and what is kept of it when it is closed. An
//! attempt keeps its writes to itself, reads by a version clock, and locks what it has written at the end.
#![tactic(auto)]

mod beginning;
mod caller;
mod closing;
mod error;
pub mod laws;
mod locked;
mod making;
mod stm;
mod table;
mod tx;

pub use caller::TlCaller;
pub use dstm_tl2_order::TlAgain;
pub use error::{TlDone, TlEnded, TlEnrol, TlSpent};
pub use locked::{TlHeld, TlLocked};
pub use making::tl_attempt;
pub use stm::{TlFounder, TlRecord, TlStm};
pub use table::TlTable;
pub use tx::{TlAttempt, TlTx};
