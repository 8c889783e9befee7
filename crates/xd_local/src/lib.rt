//! A run without workers: the tests of a suite, one after another in the program itself.
#![tactic(auto)]

mod local;
mod running;

pub use local::{LocalRun, LocalSuite, run_suite};
