//! A run with workers: they are at the end of links, told and heard by a hub, and run in the mode of
//! the settings.
#![tactic(auto)]

mod linked;

pub use linked::{Linked, LinkedSuite, run_linked};
