//! One end of a channel: the items that wait, the end marker, and whether the end may still send. The rules are
//! those of the class `Channel` in execnet's `gateway_base.py`.
//!
//! A channel end does no work of its own. Who owns it tells it what came from the peer and what the user asked for,
//! and does what the answers say: hands an item or an end to a callback, or sends a message.
#![tactic(auto)]

mod answers;
mod channel_end;
mod end;

pub use answers::{Arrived, Closing, GivenUp, Got, HasCallback, SendClosed, Waiting};
pub use channel_end::ChannelEnd;
pub use end::End;
