//! The function `run_tests` of a worker, by itself: what it says, and which tests it starts. The rules are those of
//! pytest-xdist's worker loop in its `remote.py`.
//!
//! It takes no part in channels, files or programs. Who calls it hands in the commands that came, the suite, and what
//! the running test's program gave, and does what the answers ask for.
#![tactic(auto)]

mod ask;
mod input;
mod laws;
mod line_entry;
mod phase;
mod run_tests;

pub use ask::{Acts, Ask};
pub use input::Input;
pub use laws::{a_test_is_of_the_suite, a_test_starts_once, idle_law, one_log_is_open, two_steals};
pub use line_entry::{LineEntry, Standing};
pub use phase::{Ending, Phase};
pub use run_tests::{RunTests, Running};
