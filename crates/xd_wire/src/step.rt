// What stands at a place of a file of messages.
ghost use Rattle.std.specs.Prelude.{◌≡◌, ◌≤◌, [], true, false, IfOk, OnOk, length, string_bytes};
ghost use Rattle.xd_wire.specs.WireText.{fault_line};
ghost use Rattle.xd_wire.specs.inner.Lines.{LeadsTo, BeginsAfter};

use crate::law::a_payload_reads_one;
use crate::line::{Line, line_of};
use crate::names::{name_of_frame_fault, name_of_what};
use std::alloc::Global;
use xd_edge::OutOfMemory;
use xd_frame::{HEADER_LENGTH, first_header};

/// What follows a line: the line of the message at a place of the file, or nothing, after a fault
/// or none.
#[derive(Clone, Copy)]
pub enum Then {
    At(usize),
    End { faulty: bool },
}

/// Makes the string the line of what stands at this place of the file, and says what follows it.
/// After the last message the string is empty.
pub fn step_at(
    alloc: Global,
    bytes: &[u8],
    at: usize,
    line: &mut String,
) -> Result<Then, OutOfMemory>
    requires { at ≤ length bytes.now }
    ensures step { IfOk result (LeadsTo bytes.now at (string_bytes line.new)) }
    ensures preceding { IfOk result (BeginsAfter at (length bytes.now)) }
{
    a_payload_reads_one();
    let header = match first_header(&bytes[at..]) {
        Ok(Some(header)) => header,
        Ok(None) if at == bytes.len() => return Ok(end_step(line)),
        Ok(None) => return fault_step(alloc, "Cut", at as u128, line),
        Err(fault) => return fault_step(alloc, name_of_frame_fault(fault), at as u128, line),
    };
    let start = at + HEADER_LENGTH;
    let next = start + header.length as usize;
    match line_of(alloc, header, &bytes[start..next], line)? {
        Line::Made => Ok(Then::At(next)),
        Line::Fault(place, what) => {
            // No contract bounds the place in the payload, so the sum has 128 bits.
            let place = start as u128 + place as u128;
            fault_step(alloc, name_of_what(what), place, line)
        }
    }
}

/// Makes the string empty: nothing follows the last message.
fn end_step(line: &mut String) -> Then
    ensures line { string_bytes line.new ≡ [] }
    ensures then { result ≡ Then.End false }
{
    line.clear();
    Then::End { faulty: false }
}

/// Makes the string the line of a fault, which is the last.
fn fault_step(
    alloc: Global,
    name: &str,
    place: u128,
    line: &mut String,
) -> Result<Then, OutOfMemory>
    ensures line { OnOk result (string_bytes line.new ≡ fault_line name.now place) }
    ensures then { IfOk result (λ then. then ≡ Then.End true) }
{
    *line = format!(in alloc; "fault {name} at {place}\n")?;
    Ok(Then::End { faulty: true })
}
