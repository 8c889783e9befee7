//! Tests of both ends of a run at once: a session, and the cores of its workers.
#![tactic(auto)]

#[cfg(test)]
mod both_ends;
#[cfg(test)]
mod worker;
