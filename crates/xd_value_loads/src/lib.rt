//! How a payload of execnet's serialization is read.
//!
//! [`loads`] gives the value that the bytes spell, or says which opcode is the first that cannot be done and why.
#![tactic(auto)]

mod input;
mod machine;
mod number;
mod plain;
mod putting;
mod reading;
mod stack;
mod taken;
mod taking;

pub use reading::loads;
