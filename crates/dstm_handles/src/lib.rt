//! A memory and the parts that threads have in it, as values that no lifetime ties together, with a code for each
//! misuse: what a program in another language holds.
#![tactic(auto)]

mod calls;
mod cells;
mod code;
mod handle;
mod held;
mod memory;
mod parts;
mod thread;

pub use cells::{MOST_CELLS, MOST_THREADS};
pub use code::Code;
pub use dstm_tables::{Engine, Manager};
pub use handle::Handle;
pub use held::{Held, free};
pub use memory::Memory;
pub use thread::Thread;
