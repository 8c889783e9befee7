//! Files of messages as text: a line for each message, and a line for the first fault.
#![tactic(auto)]

mod law;
mod line;
mod names;
mod print;
mod step;

pub use law::a_file_has_one_text;
pub use print::{WireEnd, print_messages};
