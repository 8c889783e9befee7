// What comes to a worker, and what it asks for.
ghost use Rattle.xd_worker.specs.declared.input.WorkerFault.TheVariants.{OutOfMemory as NoMemory};
ghost use Rattle.std.specs.Prelude.{◌≡◌};

use xd_edge::{Blob, OutOfMemory, Text};
use xd_factory::SideFault;
use xd_frame::{Message, Messages};
use xd_journal::Outcome;

/// What comes to a worker.
#[derive(Drop)]
pub enum WorkerInput {
    /// The next message of its link.
    Message(Message),
    /// The bytes of the suite file that was asked for.
    SuiteBytes(Blob),
    /// The suite file has over 4,194,304 bytes.
    SuiteTooLarge,
    /// The suite file cannot be read.
    SuiteUnread,
    /// A piece of the running test's output.
    Output(Blob),
    /// The running test ended, after that many milliseconds.
    ChildDone { outcome: Outcome, ms: u64 },
    /// No more messages come.
    LinkEnd,
}

/// What a worker asks for.
#[derive(Drop)]
pub struct WorkerActions {
    /// The messages to be sent, in order.
    pub say: Messages,
    /// The path of a suite file to be read.
    pub suite: Option<Text>,
    /// A test to be started, counted from 0.
    pub run: Option<u32>,
    /// The worker is to end: GATEWAY_TERMINATE or the link's end came, and no test runs.
    pub over: bool,
}

/// Why a worker does no more. It answers the same from then on.
#[derive(Clone, Copy, Debug, PartialEq, Eq)]
pub enum WorkerFault {
    /// The side refused a message.
    Link(SideFault),
    OutOfMemory,
}

impl From<OutOfMemory> for WorkerFault {
    ghost from_gives = { λ _ e. e ≡ NoMemory };

    fn from(_: OutOfMemory) -> Self {
        WorkerFault::OutOfMemory
    }
}
