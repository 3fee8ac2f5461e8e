//! The core of the memory as an abstract machine: the words of a table, the events on them, and
//! the rules by which a caller may make its next event.
//!
//! [`Local`] and [`replay`] are a checker of traces: they judge events that were made elsewhere, as tests do. The
//! memory itself runs neither.
#![tactic(auto)]

mod event;
pub mod laws;
mod local;
mod located;
mod reads;
mod resolution;
mod shape;
mod state;
mod status;
mod table;
mod verdict;
mod writes;

pub use event::{Event, Kind};
pub use local::Local;
pub use shape::{
    MAX_ATTEMPTS, MAX_CALLERS, MAX_LOCATORS, MAX_OBJECTS, MAX_RANK, MAX_WORDS, Manager, Shape,
};
pub use state::{Phase, Read, Resolution, Write};
pub use status::Status;
pub use table::replay;
pub use verdict::Replay;
