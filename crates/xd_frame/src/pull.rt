// Bytes that are pulled from a source, at most one message's.
ghost use Rattle.std.specs.Prelude.{◌≡◌, ◌≤◌, ◌<◌, [], IfOk, IfErr, length, vec_len};
ghost use Rattle.xd_frame.specs.Header.{InBounds};
ghost use Rattle.xd_frame.specs.Pull.{missing};
ghost use Rattle.xd_frame.specs.inner.Pulling.{Draws, ReadsOn, TakesOut, Unread, ended_by, is_cut, is_out_of_memory};
ghost use Rattle.xd_frame.specs.Stream.{message_of};
ghost use Rattle.xd_link.specs.Spring.{spring};

use crate::piece::remove_front;
use crate::{FrameFault, HEADER_LENGTH, Header, Message, first_header, read_header};
use std::alloc::Global;
use std::mem;
use std::sync::Wait;
use xd_edge::Blob;
use xd_link::Source;

/// How many bytes one read asks for at most.
const BLOCK: usize = 65_536;

/// What a pull gives.
#[derive(Drop)]
pub enum Pulled {
    /// At least one byte was read, and the message is not whole yet.
    More,
    /// The message that is whole now.
    Whole(Message),
    /// The source ended, at the edge of a message.
    Ended,
}

/// Why a pull gives nothing.
#[derive(Clone, Copy, Debug, PartialEq, Eq)]
pub enum PullFault {
    /// A header is refused, or the source ended inside a message.
    Bad(FrameFault),
    /// The source could not be read.
    ReadFault,
    OutOfMemory,
}

/// Reads once, what is missing of the message that the bytes begin, and takes that message out where it is whole.
pub fn pull_bytes<R: Wait, S: Source>(
    rt: &R,
    alloc: Global,
    held: &mut Vec<u8>,
    source: &mut S,
) -> Result<Pulled, PullFault>
    ensures { Draws result held.old.items held.new.items
        (spring (S.supply source.old) (S.is_ended source.old) (S.faults source.old))
        (spring (S.supply source.new) (S.is_ended source.new) (S.faults source.new)) }
{
    let size = missing(held.as_slice()).min(BLOCK);
    let read = read_on(rt, held, size, source)?;
    if read == 0 {
        return meet_end(held.as_slice());
    }
    take_whole(alloc, held)
}

/// A pull met the end of the source inside a message.
pub fn is_cut(pulled: &Result<Pulled, PullFault>) -> bool
    ensures { result ≡ is_cut pulled.now }
{
    matches!(pulled, Err(PullFault::Bad(FrameFault::Cut)))
}

/// A pull ran out of memory.
pub fn is_out_of_memory(pulled: &Result<Pulled, PullFault>) -> bool
    ensures { result ≡ is_out_of_memory pulled.now }
{
    matches!(pulled, Err(PullFault::OutOfMemory))
}

/// How many bytes are missing of the header that has begun, or else of its payload.
#[tactic(auto, unfolding(crate::specs::Pull::missing))]
fn missing(held: &[u8]) -> usize
    ensures { result ≡ missing held.now }
{
    let Some((head, payload)) = held.split_first_chunk::<HEADER_LENGTH>() else {
        return HEADER_LENGTH - held.len();
    };
    match read_header(head) {
        Ok(header) => (header.length as usize).saturating_sub(payload.len()),
        Err(_) => 0,
    }
}

/// Reads at most that many bytes, after those that are held.
fn read_on<R: Wait, S: Source>(
    rt: &R,
    held: &mut Vec<u8>,
    size: usize,
    source: &mut S,
) -> Result<usize, PullFault>
    requires { size ≤ 65536 }
    ensures read { IfOk result (λ n.
        ReadsOn n size held.old.items held.new.items
        (spring (S.supply source.old) (S.is_ended source.old) (S.faults source.old))
        (spring (S.supply source.new) (S.is_ended source.new) (S.faults source.new))) }
    ensures unread { IfErr result (λ fault.
        Unread fault held.old.items held.new.items
        (spring (S.supply source.old) (S.is_ended source.old) (S.faults source.old))
        (spring (S.supply source.new) (S.is_ended source.new) (S.faults source.new))) }
{
    let begun = held.len();
    if held.resize(begun + size, 0).is_err() {
        return Err(PullFault::OutOfMemory);
    }
    match source.read(rt, &mut held[begun..]) {
        Ok(n) => {
            held.truncate(begun + n);
            Ok(n)
        }
        Err(_) => {
            held.truncate(begun);
            Err(PullFault::ReadFault)
        }
    }
}

/// What it means that the source ends after these bytes.
fn meet_end(held: &[u8]) -> Result<Pulled, PullFault>
    ensures { result ≡ ended_by held.now }
{
    if held.is_empty() {
        Ok(Pulled::Ended)
    } else {
        Err(PullFault::Bad(FrameFault::Cut))
    }
}

/// Takes the message out that the bytes begin with, where it stands there whole.
fn take_whole(alloc: Global, held: &mut Vec<u8>) -> Result<Pulled, PullFault>
    ensures { TakesOut result held.old.items held.new.items }
{
    match first_header(held.as_slice()) {
        Ok(None) => Ok(Pulled::More),
        Ok(Some(header)) => Ok(Pulled::Whole(take_message(alloc, held, header))),
        Err(fault) => Err(PullFault::Bad(fault)),
    }
}

/// Takes the message of a header out, and leaves nothing.
fn take_message(alloc: Global, held: &mut Vec<u8>, header: Header) -> Message
    requires bounds { InBounds header }
    requires begun { 9 ≤ vec_len held.old }
    ensures message { result ≡ message_of header held.old.items }
    ensures nothing_left { held.new.items ≡ [] }
{
    let mut payload = mem::replace(held, Vec::new(alloc));
    remove_front(&mut payload, HEADER_LENGTH);
    payload.truncate(header.length as usize);
    Message::of(header.kind, header.channel, Blob::from_vec(payload))
}
