// Why a link is served no more.
ghost use Rattle.std.specs.Prelude.{◌≡◌};
ghost use Rattle.xd_worker_serve.specs.inner.Halts.{worker_status_of};

use xd_factory::SideFault;
use xd_frame::FrameFault;

/// Why a link is served no more.
#[derive(Clone, Copy, Debug, PartialEq, Eq)]
pub enum Stop {
    /// A crew refused to run the link's reader or the programs' runner.
    NotRun,
    /// GATEWAY_TERMINATE came.
    Terminated,
    /// The link ended at a message's edge.
    Ended,
    /// The link ended inside a message.
    Cut,
    /// A header is refused.
    Header(FrameFault),
    /// The worker's side refused a message.
    Message(SideFault),
    /// The link could not be read.
    ReadFault,
    /// The link could not be written to.
    WriteFault,
}

impl Stop {
    /// The exit status.
    pub fn status(self) -> u8
        ensures { result ≡ worker_status_of self }
    {
        match self {
            Stop::Terminated | Stop::Ended => 0,
            Stop::NotRun
            | Stop::Cut
            | Stop::Header(_)
            | Stop::Message(_)
            | Stop::ReadFault
            | Stop::WriteFault => 3,
        }
    }
}
