//! What the news of a worker do to a run: whether they may come, and the rule of each input, over the books of the run
//! and its mode; and how a run begins and ends.
#![tactic(auto)]

mod collecting;
mod ending;
mod held;
mod judge;
mod losses;
mod outputs;
mod rules;
mod starting;
mod state;

pub use ending::end;
pub use judge::Verdict;
pub use starting::start_all;
pub use state::RunState;
