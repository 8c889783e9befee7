//! Tests of runs: whole runs over a hub that gives listed news, with their journals, reports and statuses.
#![tactic(auto)]

#[cfg(test)]
mod drive;
#[cfg(test)]
mod words;
