// What a message says, its payload read.
ghost use Rattle.std.specs.Prelude.{◌≡◌, ◌≤◌, ◌==◌, ◌&&◌, false, MatchOption};
ghost use Rattle.xd_value.specs.Tree.{is_text, text};
ghost use Rattle.xd_value.specs.View.{view};
ghost use Rattle.xd_factory.specs.Said.{is_numbered};
ghost use Rattle.xd_factory.specs.Reads.{MessageReads, TextReads, ValueReads};

use crate::SideFault;
use std::alloc::Global;
use xd_edge::Text;
use xd_frame::{Kind, Message};
use xd_value::{LoadFault, Value};
use xd_value_loads::loads;

/// What a message says, its payload read.
#[derive(Drop)]
pub(crate) enum Word {
    Status(u32),
    Exec(u32, Value),
    Data(u32, Value),
    /// The peer closes the channel, with the text of an error where it has one.
    Close(u32, Option<Text>),
    Last(u32),
    Terminate,
}

/// What the message says. The faults are tried in the order in which `SideFault` lists them.
pub(crate) fn read_message(alloc: Global, message: &Message) -> Result<Word, SideFault>
    ensures { MessageReads message.now result }
{
    read_parts(
        alloc,
        message.kind,
        message.channel,
        message.payload.as_slice(),
    )
}

// What a message of these parts says.
fn read_parts(alloc: Global, kind: Kind, channel: u32, payload: &[u8]) -> Result<Word, SideFault>
    requires { channel ≤ 2147483647 }
    ensures { MessageReads (record { kind = kind; channel = channel; payload = payload.now })
        result }
{
    if lacks_number(kind, channel) {
        return Err(SideFault::BadNumber);
    }
    match kind {
        Kind::Status => Ok(Word::Status(channel)),
        Kind::Reconfigure => Err(SideFault::Unsupported),
        Kind::Terminate => Ok(Word::Terminate),
        Kind::Exec => match read_value(alloc, payload) {
            Ok(value) => Ok(Word::Exec(channel, value)),
            Err(fault) => Err(fault),
        },
        Kind::Item => match read_value(alloc, payload) {
            Ok(value) => Ok(Word::Data(channel, value)),
            Err(fault) => Err(fault),
        },
        Kind::Close => Ok(Word::Close(channel, None)),
        Kind::CloseError => match read_text(alloc, payload) {
            Ok(text) => Ok(Word::Close(channel, Some(text))),
            Err(fault) => Err(fault),
        },
        Kind::LastMessage => Ok(Word::Last(channel)),
    }
}

// Whether a message that is about a channel has no channel's number.
fn lacks_number(kind: Kind, channel: u32) -> bool
    ensures { result ≡ (channel == 0) && is_numbered kind }
{
    channel == 0 && !matches!(kind, Kind::Terminate | Kind::Reconfigure)
}

// The text of a payload.
fn read_text(alloc: Global, bytes: &[u8]) -> Result<Text, SideFault>
    ensures { TextReads bytes.now result }
{
    match read_value(alloc, bytes) {
        Ok(value) => match text_in(value) {
            Some(text) => Ok(text),
            None => Err(SideFault::NotText),
        },
        Err(fault) => Err(fault),
    }
}

// The text that the value is.
fn text_in(value: Value) -> Option<Text>
    ensures { MatchOption result (is_text (view value) ≡ false) (λ cs. view value ≡ text cs) }
{
    match value {
        Value::Text(text) => Some(text),
        _ => None,
    }
}

// The value of a payload.
fn read_value(alloc: Global, bytes: &[u8]) -> Result<Value, SideFault>
    ensures { ValueReads bytes.now result }
{
    match loads(alloc, bytes) {
        Ok(value) => Ok(value),
        Err(LoadFault::Bad { at: _, what }) => Err(SideFault::BadPayload(what)),
        Err(LoadFault::OutOfMemory) => Err(SideFault::OutOfMemory),
    }
}
