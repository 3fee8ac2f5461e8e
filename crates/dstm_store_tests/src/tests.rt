//! The tests; only a build with tests has them.
mod bank;
mod compose;
mod counting;
mod generated;
mod jobs;
mod list;
mod maps;
mod mem;
mod model;
mod operations;
mod reports;
mod store;
mod text;
mod tree;
mod workloads;
