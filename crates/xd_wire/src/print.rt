// A file of messages, printed line by line.
ghost use Rattle.std.specs.Prelude.{◌≡◌, ◌≢◌, ◌≤◌, ℕ, List, Bool, Ok, IfOk, OnOk, OnErr};
ghost use Rattle.xd_edge.specs.Faults.{Rose};
ghost use Rattle.xd_wire.specs.WireText.{IsWireText};
ghost use Rattle.xd_wire.specs.inner.Lines.{texts_at};
ghost use Rattle.xd_wire.specs.Printing.{HasText, Prints, Leaves, end_with};

use crate::step::{Then, step_at};
use std::alloc::Global;
use xd_edge::{Failed, OutOfMemory, Sink, write_all};

/// How the printing of a file of messages came to its end.
#[derive(Clone, Copy, Debug, PartialEq, Eq)]
pub enum WireEnd {
    /// All of the file was printed, and it has no fault.
    Whole,
    /// The file was printed to its first fault, which is the last line.
    Faulty,
    /// The output failed.
    OutFailed,
}

/// Prints a file of messages: a line for each message, to the first fault, which has a line of its own.
///
/// It holds one line at a time. Where the output fails or memory is refused, the output took a first part of the text.
pub fn print_messages<O: Sink>(
    alloc: Global,
    bytes: &[u8],
    out: &mut O,
) -> Result<WireEnd, OutOfMemory>
    // The file has a text, and the answer says whether a fault ends it.
    ensures text { IfOk result (HasText bytes.now) }
    // What the output took is that text, or a first part of it.
    ensures prints { (text : List ℕ) (faulty : Bool) → IsWireText bytes.now text faulty →
        Prints result text faulty (O.sunk out.old) (O.sunk out.new) }
    ensures failed { result ≡ Ok WireEnd.OutFailed → Rose (O.faults out.old) (O.faults out.new) }
    ensures still { IfOk result (λ how. how ≢ WireEnd.OutFailed →
        O.faults out.new ≡ O.faults out.old) }
    ensures later { O.faults out.old ≤ O.faults out.new }
{
    let written = write_lines(alloc, bytes, out)?;
    let Ok(faulty) = written else {
        return Ok(WireEnd::OutFailed);
    };
    if out.flush().is_err() {
        return Ok(WireEnd::OutFailed);
    }
    Ok(end_with(faulty))
}

fn end_with(faulty: bool) -> WireEnd
    ensures { result ≡ end_with faulty }
{
    if faulty {
        WireEnd::Faulty
    } else {
        WireEnd::Whole
    }
}

/// Writes the lines of the file, and says whether the last one tells a fault.
fn write_lines<O: Sink>(
    alloc: Global,
    bytes: &[u8],
    out: &mut O,
) -> Result<Result<bool, Failed>, OutOfMemory>
    ensures leaves { Leaves result (texts_at bytes.now 0) (O.sunk out.old) (O.sunk out.new) }
    ensures failed { IfOk result (λ written.
        OnErr written (Rose (O.faults out.old) (O.faults out.new))) }
    ensures still { IfOk result (λ written. OnOk written (O.faults out.new ≡ O.faults out.old)) }
    ensures later { O.faults out.old ≤ O.faults out.new }
{
    let mut at = 0;
    let mut line = String::new(alloc);
    'lines: loop {
        let then = step_at(alloc, bytes, at, &mut line)?;
        if write_all(out, line.as_bytes()).is_err() {
            return Ok(Err(Failed));
        }
        match then {
            Then::At(next) => at = next,
            Then::End { faulty } => return Ok(Ok(faulty)),
        }
    }
}
