// A side and the way from it to its peer.
ghost use Rattle.std.specs.Prelude.{◌≡◌, ◌<◌, ◌≤◌, ◌+◌, ◌++◌, ◌∷◌, [], Bool};
ghost use Rattle.std.specs.Option.{option_to_list};
ghost use Rattle.std.specs.VecDeque.{deque_len, deque_capacity};

mod calls;
mod says;
mod take;

use std::alloc::Global;
use std::collections::VecDeque;
use xd_factory::{Parity, Side};
use xd_frame::Message;

/// A side of a link, and the messages that it said and its peer has not taken yet. Its calls are those of the side, and
/// what they say is put on the way.
#[derive(Drop)]
pub struct LinkedSide {
    alloc: Global,
    pub side: Side,
    /// The messages on the way to the peer, oldest first.
    pub said: VecDeque<Message>,
}

/// Why a channel was not let go.
#[derive(Clone, Copy, Debug, PartialEq, Eq)]
pub enum GiveUpFault {
    /// The number was never opened here.
    Unknown,
    OutOfMemory,
}

impl LinkedSide {
    ghost use Rattle.xd_factory.specs.Numbers.{first_number};
    ghost use Rattle.xd_pair.specs.Notes.{side_parity};
    ghost use Rattle.xd_pair.specs.Pair.{beginning};
    ghost use Rattle.xd_pair.specs.Stands.{StandsForActor};

    /// A side that has opened and said nothing, and on which nothing came.
    pub fn new(alloc: Global, parity: Parity) -> LinkedSide
        ensures stands { (odd : Bool) → parity ≡ side_parity odd
            → StandsForActor odd result.side (beginning (first_number parity)) }
        ensures silent { result.said.items ≡ [] }
    {
        LinkedSide {
            alloc,
            side: Side::new(alloc, parity),
            said: VecDeque::new(alloc),
        }
    }
}

// The message is on the way, after those that were said before.
fn say(said: &mut VecDeque<Message>, message: Message)
    requires { deque_len said.old < deque_capacity said.old }
    ensures items { said.new.items ≡ said.old.items ++ message ∷ [] }
    ensures count { deque_len said.new ≡ deque_len said.old + 1 }
    ensures room { deque_capacity said.old ≤ deque_capacity said.new }
{
    match said.push_back(message) {
        Ok(()) => (),
        Err(_) => unreachable!(),
    }
}

// So is the message that there is, if any.
fn say_any(said: &mut VecDeque<Message>, message: Option<Message>)
    requires { deque_len said.old < deque_capacity said.old }
    ensures { said.new.items ≡ said.old.items ++ option_to_list message }
{
    match message {
        Some(message) => say(said, message),
        None => (),
    }
}
