//! Mailboxes: a ring from one thread to one other, whose sender sleeps while it is full, and desks of several inboxes,
//! whose thread sleeps on a bell while all of them are empty. What is taken is what was put, in order, once.
#![tactic(auto)]

mod bell;
mod desk;
mod ends;

pub use bell::Bell;
pub use desk::Desk;
pub use ends::{Emptied, Inbox, Sender, mailbox};
