//! Mode load: batches from the front of the pool that get smaller as it runs out, as pytest-xdist's LoadScheduling hands
//! them out. Mode each: every worker runs every test of its slot, as pytest-xdist's EachScheduling has it.
#![tactic(auto)]

mod batches;
mod each;
mod load;
mod sizes;
mod slots;

pub use each::Each;
pub use load::Load;
