//! Mode worksteal: the pool is dealt evenly, then idle workers get tests that others hold and have not begun, as
//! pytest-xdist's WorkStealingScheduling hands them out.
#![tactic(auto)]

mod rule;
mod steal;
mod workers;

pub use steal::Steal;
