//! The program's own call, as tests: its commands, and what they refuse; two workers that meet at each of their jobs, under
//! each manager; a workload that takes several rounds; reports under many options. They stand apart from the crates that they
//! try, since a crate with tests is proved twice.
#![tactic(auto)]

#[cfg(test)]
mod tests;
