//! What C calls: `c/include/dstm.h` declares it. None of it has a `requires`.
#![tactic(auto)]

mod answers;
mod calls;
pub mod exports;
pub mod maps;
pub mod ordered;
pub mod pools;
pub mod queues;
pub mod sets;
