//! Rows of the engines that were worked out by hand, and worked traces of the abstract machine of DSTM, which its rules take or refuse,
//! as tests. They stand apart from the crates that they try, since a crate with tests is proved twice.
#![tactic(auto)]

pub mod laws;
#[cfg(test)]
mod tests;
