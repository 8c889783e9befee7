// What the function asks for.
ghost use Rattle.std.specs.Prelude.{◌≡◌, ◌++◌, ◌∷◌, [], OnOk};

use xd_edge::{Blob, OutOfMemory, Text};
use xd_journal::What;

/// What the function asks its worker to say.
#[derive(Drop)]
pub enum Ask {
    /// An event on the function's channel. A `LogStart` opens the channel of its log first.
    Tell(What),
    /// Output of the running test, on the channel of its log.
    Piece { log: u32, bytes: Blob },
    /// The close of a log.
    CloseLog { log: u32 },
    /// The end of the function, with the text of its error or without one.
    End(Option<Text>),
}

/// What one input makes the function do: what it asks for, in order, and a test to start.
#[derive(Drop)]
pub struct Acts {
    pub asks: Vec<Ask>,
    pub run: Option<u32>,
}

pub fn request(acts: &mut Acts, ask: Ask) -> Result<(), OutOfMemory>
    ensures asks { OnOk result (acts.new.asks.items ≡ acts.old.asks.items ++ ask ∷ []) }
    ensures run { acts.new.run ≡ acts.old.run }
{
    acts.asks.push(ask)?;
    Ok(())
}
