//! Whether a journal is one that a run can have left, and which tests failed in it.
#![tactic(auto)]

mod alone;
mod checking;
mod compare;
mod failed;
mod laws;
mod replay;
mod walk;

pub use checking::{Verdict, check};
pub use failed::failed_ids;
pub use laws::{checked_law, failed_law, verdict_law};
