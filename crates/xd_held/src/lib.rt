//! What each worker of the rota holds, kept so that the first item and the last ones are taken without a walk.
#![tactic(auto)]

mod held;
mod holder;
mod numbers;

pub use held::Held;
pub use holder::{Holder, add_held, head_in, join, leave, take_held};
pub use numbers::{are_all_zero, each_more, numbers_from, plus, sum_of};
