// What is said on the channels of a worker.
ghost use Rattle.std.specs.Prelude.{ℕ, ◌≡◌, ◌≤◌, ◌++◌, ◌∷◌, [], List, IfOk, OnOk, option_to_list, false, if◌then◌else◌};
ghost use Rattle.xd_value.specs.Tree.{bytes};
ghost use Rattle.xd_value.specs.View.{view};
ghost use Rattle.xd_frame.specs.Message.{MessageView};
ghost use Rattle.xd_factory.specs.declared.side.Side.{Side};
ghost use Rattle.xd_factory.specs.Slot.{closed_slot, function_ended_slot, hooked_slot, is_seen};
ghost use Rattle.xd_factory.specs.Table.{close_says, closing_message, is_long};
ghost use Rattle.xd_factory.specs.SideTable.{channel_table, changed_at, opened};
ghost use Rattle.xd_worker.specs.Worker.{logs_opened_by};
ghost use Rattle.xd_worker.specs.Logs.{CanOpen, AllOpen};
ghost use Rattle.xd_worker.specs.Talk.{talk_of, sent, sent_how, payload_on, event_told, opening, log_closed, function_ended, status_told};

use std::alloc::Global;
use xd_commands::{event_value, status_value};
use xd_edge::{Blob, OutOfMemory, Text};
use xd_factory::{CloseFault, OpenFault, SendFault, Side};
use xd_frame::{Kind, Message, Messages};
use xd_journal::What;
use xd_value::{DumpFault, Value, dumps};

/// What became of a value that was to be sent.
#[derive(Clone, Copy)]
pub enum Sent {
    Said,
    /// Nothing can be sent on the channel any more.
    LeftOut,
    /// The value has no payload.
    Unwritten,
}

fn put(say: &mut Messages, message: Message) -> Result<(), OutOfMemory>
    ensures { OnOk result (say.new ≡ say.old ++ message ∷ []) }
{
    say.items.push(message)?;
    Ok(())
}

/// Sends a value on a channel.
pub fn send(
    side: &mut Side,
    say: &mut Messages,
    number: u32,
    value: &Value,
) -> Result<Sent, OutOfMemory>
    ensures talk { OnOk result
        (talk_of side.new say.new ≡ sent number (view value.now) (talk_of side.old say.old)) }
    ensures how { IfOk result (λ how.
        how ≡ sent_how (payload_on number (view value.now) (channel_table side.old))) }
{
    match side.send(number, value) {
        Ok(message) => {
            put(say, message)?;
            Ok(Sent::Said)
        }
        Err(SendFault::Unknown | SendFault::SendClosed) => Ok(Sent::LeftOut),
        Err(SendFault::Dump(_)) => Ok(Sent::Unwritten),
        Err(SendFault::OutOfMemory) => Err(OutOfMemory),
    }
}

/// Sends an event on a channel. News that are no event are not sent.
pub fn tell(
    alloc: Global,
    side: &mut Side,
    say: &mut Messages,
    number: u32,
    event: &What,
) -> Result<(), OutOfMemory>
    ensures { OnOk result (talk_of side.new say.new ≡ event_told number event.now
        (talk_of side.old say.old)) }
{
    match event {
        What::Ready
        | What::Collected(_)
        | What::LogStart { .. }
        | What::Done { .. }
        | What::Back(_)
        | What::Finished => {
            let value = event_value(alloc, event)?;
            let _ = send(side, say, number, &value)?;
            Ok(())
        }
        _ => Ok(()),
    }
}

// The log of a test that starts opens.
fn open_if_start(side: &mut Side, event: &What) -> Result<(), OutOfMemory>
    ensures { (says : List MessageView) →
        AllOpen (logs_opened_by event.now (channel_table side.old)) →
        OnOk result (talk_of side.new says ≡ opening event.now (talk_of side.old says)) }
{
    match event {
        What::LogStart { .. } => open_log(side),
        _ => Ok(()),
    }
}

/// Sends an event on a channel. The log of a test that starts opens first.
pub fn announce(
    alloc: Global,
    side: &mut Side,
    say: &mut Messages,
    number: u32,
    event: &What,
) -> Result<(), OutOfMemory>
    ensures { AllOpen (logs_opened_by event.now (channel_table side.old)) →
        OnOk result (talk_of side.new say.new ≡ event_told number event.now
        (opening event.now (talk_of side.old say.old))) }
{
    open_if_start(side, event)?;
    tell(alloc, side, say, number, event)
}

/// Sends bytes on a channel.
pub fn send_piece(
    side: &mut Side,
    say: &mut Messages,
    number: u32,
    piece: Blob,
) -> Result<(), OutOfMemory>
    ensures { OnOk result (talk_of side.new say.new ≡ sent number (bytes piece)
        (talk_of side.old say.old)) }
{
    let value = Value::Bytes(piece);
    let _ = send(side, say, number, &value)?;
    Ok(())
}

/// Opens the channel of a log, where it can open.
fn open_log(side: &mut Side) -> Result<(), OutOfMemory>
    ensures { (number : ℕ) → CanOpen number (channel_table side.old) →
        OnOk result (channel_table side.new ≡ opened (channel_table side.old)) }
{
    // Whether it can is told by how many channels there are.
    prove!(side.status() <= xd_factory::MAX_ENTRIES);
    match side.open_channel() {
        Ok(_) => Ok(()),
        Err(OpenFault::OutOfMemory) => Err(OutOfMemory),
        // Where it can, nothing else is refused.
        Err(OpenFault::Finished) => Ok(()),
        Err(OpenFault::TooManyOpen) => Ok(()),
        Err(OpenFault::NumbersSpent) => Ok(()),
    }
}

// Closes a channel.
fn close(side: &mut Side, say: &mut Messages, number: u32) -> Result<(), OutOfMemory>
    ensures table { OnOk result
        (channel_table side.new ≡ changed_at number closed_slot (channel_table side.old)) }
    ensures says { OnOk result
        (say.new ≡ say.old ++ option_to_list
        (close_says number None ((channel_table side.old).slot number))) }
{
    match side.close(number, None) {
        Ok(Some(message)) => {
            put(say, message)?;
            Ok(())
        }
        Ok(None) => Ok(()),
        Err(CloseFault::Unknown) => Ok(()),
        // Without a text nothing is too long.
        Err(CloseFault::TooLong) => unreachable!(),
        Err(CloseFault::OutOfMemory) => Err(OutOfMemory),
    }
}

// Drops what waits on a channel. The number leaves the table.
fn drop_channel(side: &mut Side, number: u32) -> Result<(), OutOfMemory>
    ensures { OnOk result (channel_table side.new ≡ changed_at number function_ended_slot
        (channel_table side.old)) }
{
    let Err(fault) = side.end_function(number, None) else {
        return Ok(());
    };
    match fault {
        CloseFault::Unknown => Ok(()),
        // Without a text nothing is too long.
        CloseFault::TooLong => unreachable!(),
        CloseFault::OutOfMemory => Err(OutOfMemory),
    }
}

/// Closes the channel of a log, and drops what the controller sent there.
pub fn close_log(side: &mut Side, say: &mut Messages, log: u32) -> Result<(), OutOfMemory>
    ensures { OnOk result (talk_of side.new say.new ≡ log_closed log (talk_of side.old say.old)) }
{
    close(side, say, log)?;
    drop_channel(side, log)?;
    Ok(())
}

/// Ends the function of a channel, with the text of an error or without one. `other` stands in the place of a text
/// that is too long for a message.
pub fn end_function(
    side: &mut Side,
    say: &mut Messages,
    number: u32,
    text: Option<Text>,
    other: Option<Text>,
) -> Result<(), OutOfMemory>
    requires { is_long other ≡ false }
    ensures { OnOk result (talk_of side.new say.new ≡ function_ended number text other
        (talk_of side.old say.old)) }
{
    match side.end_function(number, text) {
        Ok(message) => {
            put(say, message)?;
            Ok(())
        }
        Err(CloseFault::Unknown) => Ok(()),
        Err(CloseFault::TooLong) => {
            end_shortly(side, say, number, other)?;
            Ok(())
        }
        Err(CloseFault::OutOfMemory) => Err(OutOfMemory),
    }
}

// Ends the function of a channel with a text that fits a message, or without one.
fn end_shortly(
    side: &mut Side,
    say: &mut Messages,
    number: u32,
    text: Option<Text>,
) -> Result<(), OutOfMemory>
    requires { is_long text ≡ false }
    ensures table { OnOk result
        (channel_table side.new ≡ changed_at number function_ended_slot (channel_table side.old)) }
    ensures says { OnOk result
        (say.new ≡ say.old ++ (if is_seen
        ((channel_table side.old).slot number) then closing_message number text ∷ [] else [])) }
{
    match side.end_function(number, text) {
        Ok(message) => {
            put(say, message)?;
            Ok(())
        }
        Err(CloseFault::Unknown) => Ok(()),
        Err(CloseFault::TooLong) => unreachable!(),
        Err(CloseFault::OutOfMemory) => Err(OutOfMemory),
    }
}

/// The function of a channel takes what comes there from now on.
pub fn begin_function(side: &mut Side, number: u32)
    ensures { channel_table side.new ≡ changed_at number hooked_slot (channel_table side.old) }
{
    let _ = side.set_callback(number);
}

/// Answers a STATUS.
pub fn tell_status(
    alloc: Global,
    say: &mut Messages,
    number: u32,
    channels: u32,
    functions: usize,
) -> Result<(), OutOfMemory>
    requires { number ≤ 2147483647 }
    ensures { OnOk result ((side : Side) →
        talk_of side say.new ≡ status_told number channels functions (talk_of side say.old)) }
{
    let value = status_value(alloc, channels, functions)?;
    match dumps(alloc, &value) {
        Ok(payload) => put(say, Message::of(Kind::Item, number, payload))?,
        Err(DumpFault::OutOfMemory) => return Err(OutOfMemory),
        Err(_) => (),
    }
    put(say, Message::of(Kind::Close, number, Blob::empty(alloc)))
}
