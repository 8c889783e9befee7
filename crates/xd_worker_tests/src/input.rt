use xd_commands::Order;
use xd_edge::{Blob, Text, Texts};
use xd_journal::Outcome;

/// What comes to the function.
#[derive(Drop)]
pub enum Input {
    /// An item of its channel: a command, or `None` where it is none.
    Command(Option<Order>),
    /// The receiving direction of its channel ended.
    ReceivingEnded,
    /// The suite, by the ids of its tests.
    Suite(Texts),
    /// There is no suite, with the reason.
    SuiteRefused(Text),
    /// A piece of the running test's output.
    Output(Blob),
    /// The running test ended, after that many milliseconds.
    Done { outcome: Outcome, ms: u64 },
    /// GATEWAY_TERMINATE, or the end of the link.
    Stop,
}
