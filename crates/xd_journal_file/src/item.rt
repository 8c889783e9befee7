// Items on channel 1: the messages of a journal file.
ghost use Rattle.std.specs.Prelude.{◌≡◌, ◌≤◌, ◌++◌, length, OnOk, MatchOption};
ghost use Rattle.xd_frame.specs.Message.{frame, max_payload};
ghost use Rattle.xd_journal_file.specs.FileOf.{item_with};
ghost use Rattle.xd_journal_file.specs.inner.Steps.{BeginsItem, BeginsNoItem};

use xd_edge::{Blob, OutOfMemory};
use xd_frame::{HEADER_LENGTH, Kind, Message, first_header, header_of};

/// The channel of a journal file.
const CHANNEL: u32 = 1;

/// Appends an item with this payload.
pub fn push_item(bytes: &mut Vec<u8>, payload: Blob) -> Result<(), OutOfMemory>
    requires { length payload ≤ max_payload }
    ensures { OnOk result (bytes.new.items ≡ bytes.old.items ++ frame (item_with payload)) }
{
    let message = Message::of(Kind::Item, CHANNEL, payload);
    bytes.extend_from_slice(&header_of(&message))?;
    bytes.extend_from_slice(message.payload.as_slice())?;
    Ok(())
}

/// The payload of the item that the bytes begin with, and the bytes after it.
pub fn first_item(bytes: &[u8]) -> Option<(&[u8], &[u8])>
    ensures { MatchOption result (BeginsNoItem bytes.now)
        (λ p. BeginsItem bytes.now p.0.now p.1.now) }
{
    let header = match first_header(bytes) {
        Ok(Some(header)) => header,
        Ok(None) => return None,
        Err(_) => return None,
    };
    let Kind::Item = header.kind else {
        return None;
    };
    if header.channel != CHANNEL {
        return None;
    }
    let end = HEADER_LENGTH + header.length as usize;
    Some((&bytes[HEADER_LENGTH..end], &bytes[end..]))
}
