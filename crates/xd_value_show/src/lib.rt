//! Values as text, in the notation of Python.
#![tactic(auto)]

mod append;
mod leaf;
mod printing;

pub use printing::show;
