//! The part of the controller that decides: it takes news of workers and grows the journal of a run. It starts no thread
//! and no program. pytest-xdist's DSession.
#![tactic(auto)]

mod laws;
mod session;
mod step;
mod take;

pub use laws::{kept_law, part_law, session_law};
pub use session::Session;
pub use step::Step;
