//! Cells that threads read and change together in transactions: closures that are made again until they took effect.
//! Whoever uses it states no law and proves nothing.
#![tactic(auto)]

mod alternatives;
mod back_off;
mod cell;
mod ending;
mod error;
mod holds;
mod memory;
mod owned;
mod rest;
mod thread;
mod transaction;
mod turn;
mod tx;
mod under_way;
mod work;

pub use alternatives::or_else;
pub use cell::{Cell, Word};
pub use dstm_tables::{Engine, Manager};
pub use error::{Failed, GaveUp, Stop, Why};
pub use holds::Holds;
pub use memory::{MOST_CELLS, MOST_THREADS, Memory};
pub use owned::Owned;
pub use rest::{Naps, Rest, Yields};
pub use thread::{Me, Part};
pub use turn::{Courtesy, MOST_LOST, Ticket, Turn};
pub use tx::{ensure, retry};
pub use under_way::{Attempt, Tx, Undo};
pub use work::Work;
