//! Jobs, and the crews that run each of them in a thread of its own.
#![tactic(auto)]

mod crew;
mod job;
mod job_thread;
mod listed_crew;
mod slot;
mod thread_crew;

pub use crew::Crew;
pub use job::Job;
pub use job_thread::RunningJob;
pub use listed_crew::ListedCrew;
pub use slot::{Slot, start_into};
pub use thread_crew::ThreadCrew;
