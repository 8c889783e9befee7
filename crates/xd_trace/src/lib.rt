//! Lists that clauses alone read.
#![tactic(auto)]

mod moments;
mod trace;

pub use moments::Moments;
pub use trace::Trace;
