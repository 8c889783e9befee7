// How far the function is.

/// Why the function ends before it reached a shutdown mark.
#[derive(Clone, Copy)]
pub enum Ending {
    /// A command that is none, or that names a test which it may not name.
    BadCommand,
    /// The controller says nothing more on the channel.
    ReceivingEnded,
}

/// How far the function is.
#[derive(Clone, Copy)]
pub enum Phase {
    /// It asked for its suite. Commands wait.
    Awaiting,
    /// The collection was sent.
    Serving,
    /// It ends once the running test has ended.
    Ending(Ending),
    /// The worker is to end: nothing more is said.
    Stopped,
    /// It has ended.
    Over,
}
