//! The job that runs programs: it takes one order after another, puts what each program prints into a mailbox, piece by
//! piece, and then how its test went.
#![tactic(auto)]

mod program;
mod runner;

pub use runner::{Runner, RunnerEnd};
