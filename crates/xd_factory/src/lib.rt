//! The channels of one side of a link, by their numbers. The rules are those of the class `ChannelFactory` in
//! execnet's `gateway_base.py`, and of the messages about channels.
//!
//! A side takes no part in reading or writing. Who owns it gives it each message that came, and sends each message
//! that it answers.
#![tactic(auto)]

mod faults;
mod parity;
mod runs;
mod seen;
mod side;
mod taken;
mod word;

pub use faults::{CloseFault, HookFault, OpenFault, SendFault, SideFault, Unknown};
pub use parity::Parity;
pub use side::{MAX_ENTRIES, Side};
pub use taken::Taken;
