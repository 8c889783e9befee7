// One message as a line.
ghost use Rattle.std.specs.Prelude.{◌≡◌, ◌++◌, ◌∷◌, [], IfOk, OnOk, length, string_bytes, encode_utf8_all};
ghost use Rattle.std.specs.Fmt.{decimal};
ghost use Rattle.xd_value_show.specs.Show.{shown};
ghost use Rattle.xd_value.specs.View.{view};
ghost use Rattle.xd_wire.specs.WireText.{has_value, line_start, message_with};
ghost use Rattle.xd_wire.specs.inner.Lines.{IsLineOf};

use crate::names::name_of_kind;
use itoa::Buffer;
use std::alloc::Global;
use xd_edge::OutOfMemory;
use xd_frame::{Header, Kind};
use xd_value::{LoadFault, LoadWhat, Value};
use xd_value_loads::loads;
use xd_value_show::show;

/// What a message is printed as: a line, or the first fault of its payload and the place of that there.
#[derive(Clone, Copy)]
pub enum Line {
    Made,
    Fault(usize, LoadWhat),
}

/// Makes the string the line of a message with this payload, or finds the first fault of the
/// payload.
pub fn line_of(
    alloc: Global,
    header: Header,
    payload: &[u8],
    line: &mut String,
) -> Result<Line, OutOfMemory>
    requires { length payload.now ≡ header.length }
    ensures { IfOk result (IsLineOf (message_with header payload.now) (string_bytes line.new)) }
{
    write_start(line, header)?;
    if !reads_value(header.kind) {
        line.push('\n')?;
        return Ok(Line::Made);
    }
    match loads(alloc, payload) {
        Ok(value) => {
            push_value(alloc, line, &value)?;
            Ok(Line::Made)
        }
        Err(LoadFault::Bad { at, what }) => Ok(Line::Fault(at, what)),
        Err(LoadFault::OutOfMemory) => Err(OutOfMemory),
    }
}

/// Whether the payload of a message of this kind is one value.
fn reads_value(kind: Kind) -> bool
    ensures { result ≡ has_value kind }
{
    match kind {
        Kind::Exec | Kind::Item | Kind::CloseError => true,
        Kind::Status | Kind::Reconfigure | Kind::Terminate | Kind::Close | Kind::LastMessage =>
            false,
    }
}

/// Makes the string the name of a message, its channel and the length of its payload.
fn write_start(line: &mut String, header: Header) -> Result<(), OutOfMemory>
    ensures { OnOk result (string_bytes line.new ≡ line_start header.kind header.channel
        header.length) }
{
    line.clear();
    line.push_str(name_of_kind(header.kind))?;
    push_number(line, header.channel)?;
    push_number(line, header.length)?;
    Ok(())
}

/// Appends a space and a number.
fn push_number(line: &mut String, number: u32) -> Result<(), OutOfMemory>
    ensures { OnOk result (string_bytes line.new ≡ string_bytes line.old ++ (32 ∷ decimal number)) }
{
    let mut buffer = Buffer::new();
    line.push(' ')?;
    line.push_str(buffer.format(number))?;
    Ok(())
}

/// Appends a space, the value and the end of the line.
fn push_value(alloc: Global, line: &mut String, value: &Value) -> Result<(), OutOfMemory>
    ensures { OnOk result (string_bytes line.new ≡ string_bytes line.old
        ++ (32 ∷ (encode_utf8_all (shown (view value.now)) ++ (10 ∷ [])))) }
{
    let text = show(alloc, value)?;
    line.push(' ')?;
    line.push_str(text.as_str())?;
    line.push('\n')?;
    Ok(())
}
