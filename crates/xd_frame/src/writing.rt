// Messages that are written to a sink.
ghost use Rattle.std.specs.Prelude.{OnOk, OnErr, is_ok};
ghost use Rattle.xd_edge.specs.Faults.{Counted};
ghost use Rattle.xd_edge.specs.Sink.{Took, TookPart, Printed};
ghost use Rattle.xd_frame.specs.Message.{frame, frames};

use crate::{Message, header_of};
use xd_edge::{Failed, Sink, write_all};

/// Writes a message and hands it on; or takes a first part of it, and hands on nothing, where the sink failed.
pub fn print_frame<N: Sink>(sink: &mut N, message: &Message) -> Result<(), Failed>
    ensures ok { OnOk result (Printed (frame message.now) (N.sunk sink.old) (N.sunk sink.new)) }
    ensures part { OnErr result (TookPart (frame message.now) (N.sunk sink.old) (N.sunk sink.new)) }
    ensures counted { Counted (is_ok result) (N.faults sink.old) (N.faults sink.new) }
{
    write_frame(sink, message)?;
    sink.flush()?;
    Ok(())
}

/// Writes the messages and hands them on; or takes a first part of them, and hands on nothing, where the sink failed.
pub fn print_frames<N: Sink>(sink: &mut N, messages: &[Message]) -> Result<(), Failed>
    ensures ok { OnOk result (Printed (frames messages.now) (N.sunk sink.old) (N.sunk sink.new)) }
    ensures part { OnErr result
        (TookPart (frames messages.now) (N.sunk sink.old) (N.sunk sink.new)) }
    ensures counted { Counted (is_ok result) (N.faults sink.old) (N.faults sink.new) }
{
    write_frames(sink, messages)?;
    sink.flush()?;
    Ok(())
}

/// Writes the messages; or takes a first part of them where the sink failed.
pub fn write_frames<N: Sink>(sink: &mut N, messages: &[Message]) -> Result<(), Failed>
    ensures ok { OnOk result (Took (frames messages.now) (N.sunk sink.old) (N.sunk sink.new)) }
    ensures part { OnErr result
        (TookPart (frames messages.now) (N.sunk sink.old) (N.sunk sink.new)) }
    ensures counted { Counted (is_ok result) (N.faults sink.old) (N.faults sink.new) }
{
    for message in messages {
        write_frame(sink, message)?;
    }
    Ok(())
}

fn write_frame<N: Sink>(sink: &mut N, message: &Message) -> Result<(), Failed>
    ensures ok { OnOk result (Took (frame message.now) (N.sunk sink.old) (N.sunk sink.new)) }
    ensures part { OnErr result (TookPart (frame message.now) (N.sunk sink.old) (N.sunk sink.new)) }
    ensures counted { Counted (is_ok result) (N.faults sink.old) (N.faults sink.new) }
{
    write_all(sink, &header_of(message))?;
    write_all(sink, message.payload.as_slice())?;
    Ok(())
}
