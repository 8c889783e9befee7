// What comes from a link, and from the programs beside it.
use xd_edge::Blob;
use xd_frame::{FrameFault, Message};
use xd_journal::Outcome;

/// Why a link is read no more.
#[derive(Clone, Copy, Debug, PartialEq, Eq)]
pub enum LinkStop {
    /// It ended at a message's edge.
    Ended,
    /// It ended inside a message.
    Cut,
    /// A header is refused.
    Garbled(FrameFault),
    /// Its first byte is not the greeting.
    BadGreeting(u8),
    /// It could not be read: the source's count of faults rose.
    ReadFault,
    OutOfMemory,
}

/// What one thread tells another of a link, and of the programs that run beside it.
#[derive(Drop)]
pub enum LinkNews {
    /// A message of the link. A reader puts each of them, in order.
    Message(Message),
    /// The last that is put. A reader says why it reads no more.
    End(LinkStop),
    /// A piece of what the running program printed. A reader puts none.
    Output(Blob),
    /// How the running program's test went. A reader puts none.
    ChildDone(Outcome),
}
