//! The tests; only a build with tests has them.
mod cells;
mod maps;
mod names;
mod naps;
mod plain;
mod pools;
mod queues;
mod replay;
mod runs;
mod views;
