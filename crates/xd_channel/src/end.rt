// How the receiving direction of a channel ends.
ghost use Rattle.std.specs.Prelude.{◌≡◌};
ghost use Rattle.xd_channel.specs.State.{end_of, once_given};

use xd_edge::Text;

/// How the receiving direction of a channel ended.
#[derive(Drop)]
pub enum End {
    /// One of the two sides closed the channel.
    Closed,
    /// The peer sends no more, and still receives.
    LastMessage,
    /// The peer closed the channel with this text.
    Error(Text),
    /// The link ended first.
    Lost,
}

impl End {
    /// The end that a peer's close means: an error where it came with a text.
    pub(crate) fn of(error: Option<Text>) -> End
        ensures { result ≡ end_of error }
    {
        match error {
            Some(text) => End::Error(text),
            None => End::Closed,
        }
    }

    /// What stands in the place of an end that was given: an error is told once.
    pub(crate) fn once_given(&self) -> End
        ensures { result ≡ once_given self.now }
    {
        match self {
            End::Closed | End::Error(_) => End::Closed,
            End::LastMessage => End::LastMessage,
            End::Lost => End::Lost,
        }
    }
}
