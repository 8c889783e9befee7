//! The phrases of a report: the names of workers, tests, outcomes and causes, and the line of a stop.
#![tactic(auto)]

mod names;
mod stop_line;
mod writing;

pub use names::{add_name, add_plain, add_tag, cause_text, lost_text, mode_text, outcome_text};
pub use stop_line::add_line_of_stop;
pub use writing::{add, add_number, add_text};
