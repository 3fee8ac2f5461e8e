//! A table of values that threads share, what gives out its callers, and what is kept of it when it is closed.
#![tactic(auto)]

mod beginning;
mod caller;
mod closing;
mod error;
mod founding;
pub mod laws;
mod making;
mod opened;
mod opener;
mod opening;
mod shape;
mod stm;
mod tx;

pub use caller::Caller;
pub use dstm_order::Again;
pub use dstm_steps::Tally;
pub use dstm_words::Zeros;
pub use error::{Done, Ended, EnrolError, Spent};
pub use making::{attempt, attempt_loose};
pub use opener::{Counted, Kept, LetGo, Opener, TellsLetGo};
pub use shape::{MOST_OBJECTS, shape_for};
pub use stm::{Founder, Record, Stm};
pub use tx::Tx;
