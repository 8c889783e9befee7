//! A test's program: it is run to its end, and its outcome and the first bytes of its output are told.
#![tactic(auto)]

mod ending;
mod running;

pub use ending::wait_for;
pub use running::{ChildResult, run_child};
