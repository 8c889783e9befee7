//! The serving loop of a worker: it takes the messages of its link and what its programs print side by side, steps the
//! worker with each, writes what the worker says, reads the suite that it asks for, and orders the programs of its tests.
#![tactic(auto)]

mod ending;
mod finishing;
mod hearing;
mod server;
mod serving;
mod speaker;
mod stop;
mod suite;
mod taking;

pub use serving::{ServeEnd, serve};
