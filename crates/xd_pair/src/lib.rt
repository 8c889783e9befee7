//! Two sides of a link, and what their channels hand out: a law over every list of steps of the two, and the two
//! sides themselves, whose calls are those steps.
#![tactic(auto)]

mod laws;
mod linked;

pub use laws::{hand_law, pair_law, refuse_law, start_law, step_law, take_law};
pub use linked::{GiveUpFault, LinkedSide};
