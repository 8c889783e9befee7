//! The modes that keep the tests of one scope together: loadscope, loadfile and loadgroup, as pytest-xdist's
//! LoadScopeScheduling and its two kinds hand them out.
#![tactic(auto)]

mod fallen;
mod given;
mod groups;
mod names;
mod order;
mod refill;
mod scope;
mod share;
mod units;

pub use names::scope_of;
pub use scope::Scope;
