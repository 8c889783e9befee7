// How a link is read to its stop.
ghost use Rattle.std.specs.Prelude.{◌≡◌, ℕ, List, [], false};
ghost use Rattle.xd_frame.specs.Message.{MessageView};
ghost use Rattle.xd_link.specs.Spring.{spring};
ghost use Rattle.xd_post.specs.Post.{put, ring_of_sender};
ghost use Rattle.xd_reader.specs.Reads.{Puts};
ghost use Rattle.xd_reader.specs.inner.Reading.{Greets, Listens, Steps, stop_of_fault};

use crate::{LinkNews, LinkStop};
use std::alloc::Global;
use std::sync::Wait;
use xd_frame::{FrameFault, Framer, PullFault, Pulled};
use xd_link::Source;
use xd_post::Sender;

/// The byte with which a worker greets.
const GREETING: u8 = 0x31;

/// Reads a source to its stop, and puts its messages.
pub fn read_link<R: Wait, S: Source>(
    rt: &R,
    alloc: Global,
    source: &mut S,
    sender: &mut Sender<LinkNews>,
    greeted: bool,
) -> LinkStop
    ensures puts { Puts greeted
        (spring (S.supply source.old) (S.is_ended source.old) (S.faults source.old))
        (spring (S.supply source.new) (S.is_ended source.new) (S.faults source.new))
        (put sender.old) (put sender.new) result }
    ensures ring { ring_of_sender sender.new ≡ ring_of_sender sender.old }
{
    if !greeted {
        return read_messages(rt, alloc, source, sender);
    }
    match greet(rt, source) {
        Some(stop) => stop,
        None => read_messages(rt, alloc, source, sender),
    }
}

// Reads the greeting. Gives a stop where the link is read no further.
fn greet<R: Wait, S: Source>(rt: &R, source: &mut S) -> Option<LinkStop>
    ensures greets { Greets result
        (spring (S.supply source.old) (S.is_ended source.old) (S.faults source.old))
        (spring (S.supply source.new) (S.is_ended source.new) (S.faults source.new)) }
{
    let mut first = [0u8; 1];
    match source.read(rt, &mut first) {
        Ok(0) => Some(LinkStop::Ended),
        Ok(_) => {
            let byte = first[0];
            if byte == GREETING {
                return None;
            }
            Some(LinkStop::BadGreeting(byte))
        }
        Err(_) => Some(LinkStop::ReadFault),
    }
}

// Reads messages to the stop, and puts them.
fn read_messages<R: Wait, S: Source>(
    rt: &R,
    alloc: Global,
    source: &mut S,
    sender: &mut Sender<LinkNews>,
) -> LinkStop
    ensures puts { Puts false
        (spring (S.supply source.old) (S.is_ended source.old) (S.faults source.old))
        (spring (S.supply source.new) (S.is_ended source.new) (S.faults source.new))
        (put sender.old) (put sender.new) result }
    ensures ring { ring_of_sender sender.new ≡ ring_of_sender sender.old }
{
    let mut framer = Framer::new(alloc);
    for _ in rt.forever() {
        if let Some(stop) = read_next(rt, &mut framer, source, sender) {
            return stop;
        }
    }
    unreachable!()
}

// Reads once, and puts the message if it is whole. Gives a stop where the link is read no further.
fn read_next<R: Wait, S: Source>(
    rt: &R,
    framer: &mut Framer,
    source: &mut S,
    sender: &mut Sender<LinkNews>,
) -> Option<LinkStop>
    requires { framer.old.waiting ≡ [] }
    ensures steps { (bytes : List ℕ) (taken : List MessageView) → Listens bytes taken framer.old →
        Steps result bytes taken framer.new
        (spring (S.supply source.old) (S.is_ended source.old) (S.faults source.old))
        (spring (S.supply source.new) (S.is_ended source.new) (S.faults source.new))
        (put sender.old) (put sender.new) }
    ensures ring { ring_of_sender sender.new ≡ ring_of_sender sender.old }
    ensures none_waits { framer.new.waiting ≡ [] }
{
    match framer.pull(rt, source) {
        Ok(Pulled::More) => None,
        Ok(Pulled::Whole(message)) => {
            sender.put(rt, LinkNews::Message(message));
            None
        }
        Ok(Pulled::Ended) => Some(LinkStop::Ended),
        Err(fault) => Some(stop_of(fault)),
    }
}

// Why a link is read no more that met this fault.
fn stop_of(fault: PullFault) -> LinkStop
    ensures { result ≡ stop_of_fault fault }
{
    match fault {
        PullFault::Bad(FrameFault::Cut) => LinkStop::Cut,
        PullFault::Bad(fault) => LinkStop::Garbled(fault),
        PullFault::ReadFault => LinkStop::ReadFault,
        PullFault::OutOfMemory => LinkStop::OutOfMemory,
    }
}
