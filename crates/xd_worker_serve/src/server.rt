// A worker that listens to its link and to its programs.
ghost use Rattle.std.specs.Prelude.{◌≡◌};
ghost use Rattle.xd_worker_serve.specs.inner.Seen.{is_door_shut};

use crate::speaker::Speaker;
use crate::stop::Stop;
use std::alloc::Global;
use xd_edge::{Sink, Texts};
use xd_post::{Desk, Sender};
use xd_reader::{LinkNews, LinkStop};

/// Whether messages are still taken.
#[derive(Clone, Copy, Debug, PartialEq, Eq)]
pub enum Door {
    /// They are.
    Open,
    /// GATEWAY_TERMINATE was taken.
    Terminated,
    /// The link's end was taken.
    Ended,
}

impl Door {
    /// Whether messages are taken no more.
    pub fn is_shut(self) -> bool
        ensures { result ≡ is_door_shut self }
    {
        match self {
            Door::Open => false,
            Door::Terminated | Door::Ended => true,
        }
    }
}

/// Why a server listens no more.
#[derive(Clone, Copy, Debug, PartialEq, Eq)]
pub enum Halt {
    /// It is served no more.
    At(Stop),
    /// An item came that no job puts.
    Astray,
}

/// A worker that listens to its link and to its programs.
#[derive(Drop)]
pub struct Server<N: Sink> {
    pub alloc: Global,
    pub speaker: Speaker<N>,
    /// Inbox 0 is of the link's reader, inbox 1 of the programs' runner.
    pub desk: Desk<LinkNews>,
    /// The commands that the runner is to run.
    pub orders: Sender<Texts>,
    /// The moment at which the running test was ordered, in milliseconds.
    pub started: Option<u64>,
    pub door: Door,
    /// The end that the reader put.
    pub link_stop: Option<LinkStop>,
    /// A job ran out of memory.
    pub is_short: bool,
}
