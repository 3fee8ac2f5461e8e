//! Cells and structures in them by both engines, as tests. They stand apart from the crates that they try, since a crate with
//! tests is proved twice.
#![tactic(auto)]

#[cfg(test)]
mod tests;
