// The report as it is printed.
ghost use Rattle.std.specs.Prelude.{◌≡◌, ◌≤◌, [], true, IfOk, OnOk, OnErr, is_ok};
ghost use Rattle.xd_edge.specs.Faults.{Counted};
ghost use Rattle.xd_edge.specs.Printing.{ShowsSome};
ghost use Rattle.xd_edge.specs.Sink.{TookPart};
ghost use Rattle.xd_run.specs.Sharing.{State};
ghost use Rattle.xd_run.specs.State.{after_entries};
ghost use Rattle.xd_report.specs.declared.printing.PrintFault.TheVariants.{Failed as NotPrinted, OutOfMemory as NoMemory};
ghost use Rattle.xd_report.specs.Follows.{Follows};
ghost use Rattle.xd_report.specs.Lines.{lines_from};
ghost use Rattle.xd_report.specs.Printing.{OnPrinted, ShowsEnd, ShowsLines, printed_as};
ghost use Rattle.xd_report.specs.Text.{tail_text};

use crate::{Reporter, tail};
use std::alloc::Global;
use xd_edge::{Failed, OutOfMemory, Sink, print};
use xd_journal::{Entry, Journal};

/// Why a part of a report was not printed whole.
#[derive(Clone, Copy, Debug, PartialEq, Eq)]
pub enum PrintFault {
    /// The output failed: its count of faults rose.
    Failed,
    /// Memory was refused.
    OutOfMemory,
}

impl From<Failed> for PrintFault {
    ghost from_gives = { λ _ e. e ≡ NotPrinted };

    fn from(_: Failed) -> Self {
        PrintFault::Failed
    }
}

impl From<OutOfMemory> for PrintFault {
    ghost from_gives = { λ _ e. e ≡ NoMemory };

    fn from(_: OutOfMemory) -> Self {
        PrintFault::OutOfMemory
    }
}

/// Prints the lines of these entries, with a reporter that went over those before. Where they have none, the output is left
/// alone.
pub fn print_lines<O: Sink>(
    alloc: Global,
    reporter: &mut Reporter,
    entries: &[Entry],
    out: &mut O,
) -> Result<(), PrintFault>
    ensures shows { (s : State) → Follows reporter.old s
        → OnPrinted result (λ shown.
        ShowsLines shown (lines_from s entries.now) (O.sunk out.old) (O.sunk out.new)) }
    ensures follows { (s : State) → Follows reporter.old s
        → OnPrinted result (λ shown. Follows reporter.new (after_entries s entries.now)) }
    ensures none { (s : State) → Follows reporter.old s → lines_from s entries.now ≡ []
        → OnPrinted result (λ shown. (shown ≡ true) × (O.sunk out.new ≡ O.sunk out.old)) }
    ensures later { O.faults out.old ≤ O.faults out.new }
    ensures counted { OnPrinted result (λ shown.
        Counted shown (O.faults out.old) (O.faults out.new)) }
{
    let lines = reporter.lines(alloc, entries)?;
    print_some(out, lines.as_slice())?;
    Ok(())
}

// Prints the bytes. Where there are none, the output is left alone.
fn print_some<O: Sink>(out: &mut O, bytes: &[u8]) -> Result<(), Failed>
    ensures ok { OnOk result (ShowsSome bytes.now (O.sunk out.old) (O.sunk out.new)) }
    ensures part { OnErr result (TookPart bytes.now (O.sunk out.old) (O.sunk out.new)) }
    ensures none { bytes.now ≡ [] → (is_ok result ≡ true) × (O.sunk out.new ≡ O.sunk out.old) }
    ensures counted { Counted (is_ok result) (O.faults out.old) (O.faults out.new) }
{
    if bytes.is_empty() {
        return Ok(());
    }
    print(out, bytes)
}

/// Prints the tail of the report, and closes the output.
pub fn print_tail<O: Sink>(alloc: Global, journal: &Journal, out: &mut O) -> Result<(), PrintFault>
    ensures shows { OnPrinted result (λ shown.
        ShowsEnd shown (tail_text journal.now) (O.sunk out.old) (O.sunk out.new)) }
    ensures later { O.faults out.old ≤ O.faults out.new }
    ensures counted { OnPrinted result (λ shown.
        Counted shown (O.faults out.old) (O.faults out.new)) }
{
    let tail = tail(alloc, journal)?;
    print(out, tail.as_slice())?;
    out.close()?;
    Ok(())
}

/// Whether all was printed, where memory was not refused.
pub fn was_printed(printed: Result<(), PrintFault>) -> Result<bool, OutOfMemory>
    ensures { IfOk result (λ shown. printed ≡ printed_as shown) }
{
    match printed {
        Ok(()) => Ok(true),
        Err(PrintFault::Failed) => Ok(false),
        Err(PrintFault::OutOfMemory) => Err(OutOfMemory),
    }
}
