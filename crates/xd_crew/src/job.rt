// Work that is run to its end.
use std::sync::Wait;

/// Work that is run to its end. To be run in a thread, it and what it gives are `Send`, which only `start_into` asks.
pub trait Job: Drop {
    /// What it gives at its end.
    type Out: Drop;

    /// `gives job out`: what the run of this job promises of what it gives.
    ghost gives: { Self → Self.Out → Type 0 };

    /// Runs it. It may wait.
    fn run<R: Wait>(self, rt: &R) -> Self::Out
        ensures { gives self result };
}
