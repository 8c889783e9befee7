//! The journal of a run: what workers said, in order, and what was told to them.
#![tactic(auto)]

mod entry;
mod journal;
mod kept;
mod news;
mod settings;

pub use entry::{Cause, Entry, Ids, Outcome, RunStop};
pub use journal::Journal;
pub use kept::{MOST_OF_ALL, MOST_OF_ONE};
pub use news::{News, What};
pub use settings::Settings;
