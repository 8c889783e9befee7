// Why a side refuses a call or a message.
use xd_value::{DumpFault, LoadWhat};

/// Why a side refused a message. It has failed then, and refuses each later message for the same reason.
#[derive(Clone, Copy, Debug, PartialEq, Eq)]
pub enum SideFault {
    /// The link had ended before.
    Finished,
    /// A message about a channel has the number 0.
    BadNumber,
    /// The message is a RECONFIGURE.
    Unsupported,
    /// The payload is that of no value, first for this reason.
    BadPayload(LoadWhat),
    /// The payload of a CHANNEL_CLOSE_ERROR is no text.
    NotText,
    /// With the numbers that the message opens, the table would have more than `MAX_ENTRIES` entries.
    TooManyOpen,
    OutOfMemory,
}

/// Why no channel was opened.
#[derive(Clone, Copy, Debug, PartialEq, Eq)]
pub enum OpenFault {
    /// The link has ended.
    Finished,
    /// The table has `MAX_ENTRIES` entries.
    TooManyOpen,
    /// The next number is over 2,147,483,647.
    NumbersSpent,
    OutOfMemory,
}

/// Why nothing was sent.
#[derive(Clone, Copy, Debug, PartialEq, Eq)]
pub enum SendFault {
    /// The number was never opened here.
    Unknown,
    /// Nothing can be sent on this channel any more.
    SendClosed,
    /// The value has no payload.
    Dump(DumpFault),
    OutOfMemory,
}

/// Why a channel was not closed.
#[derive(Clone, Copy, Debug, PartialEq, Eq)]
pub enum CloseFault {
    /// The number was never opened here.
    Unknown,
    /// The text of the error has a payload of more than 16,777,216 bytes.
    TooLong,
    OutOfMemory,
}

/// Why a channel gave nothing.
#[derive(Clone, Copy, Debug, PartialEq, Eq)]
pub enum HookFault {
    /// The number was never opened here.
    Unknown,
    /// A callback takes what comes on this channel.
    HasCallback,
}

/// The number was never opened here.
#[derive(Clone, Copy, Debug, PartialEq, Eq)]
pub struct Unknown;
