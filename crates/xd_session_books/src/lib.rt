//! What a session keeps of a run: where its tests stand, the books beside them, what it knows of the plan, and the
//! logs of its workers.
#![tactic(auto)]

mod known;
mod lists;
mod logs;
mod marks;
mod plan;
mod run_books;
mod seats;

pub use known::{ask, named, total_of};
pub use lists::{Comparison, TakenList, are_in_order, place_of};
pub use logs::{Logs, WorkerLog};
pub use plan::{KnownPlan, OpenSteal};
pub use run_books::RunBooks;
