//! What a run with workers is: its state and its rules in all modes, and which journals are legal, proper and orderly.
#![tactic(auto)]

mod member;
mod seat;

pub use member::{Listed, Mark, Member};
pub use seat::Seat;
