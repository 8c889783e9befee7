// `wire FILE`: a file of messages as text.
ghost use Rattle.std.specs.Prelude.{◌≡◌, ◌≢◌, IfOk, OnOk, MatchResult};
ghost use Rattle.xd_edge.specs.Faults.{Rose};
ghost use Rattle.xd_wire.specs.declared.print.WireEnd.TheVariants.{OutFailed};
ghost use Rattle.xd_top.specs.Refusal.{FilesCount};
ghost use Rattle.xd_top.specs.Wire.{DidWire, PrintsFile, WhyFileRefused, wire_status};

use crate::refusal::{Refusal, refuse};
use std::alloc::Global;
use xd_edge::{FileFault, Files, OutOfMemory, Sink, Text};
use xd_wire::{WireEnd, print_messages};

const MAX_FILE_BYTES: u64 = 67_108_864;

/// Prints the messages of a file, or says why it is refused. Gives the exit status: 0 where the file has no fault, 1 where
/// it has one, 3 where the output failed, 4 where it is refused.
pub fn print_named<F: Files, O: Sink, E: Sink>(
    alloc: Global,
    file: &Text,
    files: &mut F,
    out: &mut O,
    err: &mut E,
) -> Result<u8, OutOfMemory>
    ensures did { IfOk result (λ status. DidWire file.now status
        (record {
          files = record { held = F.held files.old; faults = F.faults files.old };
          out = record { sunk = O.sunk out.old; faults = O.faults out.old };
          err = record { sunk = E.sunk err.old; faults = E.faults err.old };
        })
        (record {
          files = record { held = F.held files.new; faults = F.faults files.new };
          out = record { sunk = O.sunk out.new; faults = O.faults out.new };
          err = record { sunk = E.sunk err.new; faults = E.faults err.new };
        })) }
{
    match print_file(alloc, file, files, out)? {
        Ok(how) => Ok(wire_status(how)),
        Err(why) => {
            let status = refuse(alloc, err, why)?;
            Ok(status)
        }
    }
}

// Prints the messages of a file, or says why it is refused.
fn print_file<F: Files, O: Sink>(
    alloc: Global,
    path: &Text,
    files: &mut F,
    out: &mut O,
) -> Result<Result<WireEnd, Refusal>, OutOfMemory>
    ensures printed { IfOk result (λ r. MatchResult r
        (λ how. PrintsFile path.now (F.held files.old) (Rose (O.faults out.old) (O.faults out.new))
        how (O.sunk out.old) (O.sunk out.new))
        (WhyFileRefused path.now (F.held files.old)
        (Rose (F.faults files.old) (F.faults files.new)))) }
    ensures still { IfOk result (λ r. MatchResult r
        (λ how. how ≢ OutFailed → O.faults out.new ≡ O.faults out.old)
        (λ _. (O.sunk out.new ≡ O.sunk out.old) × (O.faults out.new ≡ O.faults out.old))) }
    ensures files_count { IfOk result (λ r. MatchResult r
        (λ _. F.faults files.new ≡ F.faults files.old)
        (λ why. FilesCount why (F.faults files.old) (F.faults files.new))) }
    ensures files_kept { OnOk result (F.held files.new ≡ F.held files.old) }
{
    let bytes = match files.read_file(alloc, path, MAX_FILE_BYTES) {
        Ok(bytes) => bytes,
        Err(FileFault::Failed) => return Ok(Err(Refusal::FileUnread)),
        Err(FileFault::TooLarge) => return Ok(Err(Refusal::FileTooLarge)),
        Err(FileFault::OutOfMemory) => return Err(OutOfMemory),
    };
    let how = print_messages(alloc, bytes.as_slice(), out)?;
    Ok(Ok(how))
}

fn wire_status(how: WireEnd) -> u8
    ensures { result ≡ wire_status how }
{
    match how {
        WireEnd::Whole => 0,
        WireEnd::Faulty => 1,
        WireEnd::OutFailed => 3,
    }
}
