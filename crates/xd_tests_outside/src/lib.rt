//! Tests of what is outside: of its forms in memory, of links, of mailboxes, and of the crews that run jobs.
#![tactic(auto)]

#[cfg(test)]
mod crew;
#[cfg(test)]
mod edge;
#[cfg(test)]
mod link;
#[cfg(test)]
mod lists;
#[cfg(test)]
mod mailboxes;
#[cfg(test)]
mod post;
