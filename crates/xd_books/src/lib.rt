//! What is kept of a run beside where its tests stand: its workers and their marks, its collections, its failures and
//! deaths, and why it stops.
#![tactic(auto)]

mod books;
mod listing;
mod marks;
mod stopping;

pub use books::Books;
pub use listing::{differ_at, is_each};
