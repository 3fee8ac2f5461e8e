//! Worked texts of workloads and of reports, bodies on a memory of one thread, the plain store and the tree, as tests.
//! They stand apart from the crates that they try, since a crate with tests is proved twice.
#![tactic(auto)]

#[cfg(test)]
mod tests;
