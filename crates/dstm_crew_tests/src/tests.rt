//! The tests; only a build with tests has them.
mod calls;
mod commands;
mod devices;
mod lines;
mod meetings;
mod rounds;
mod trying;
