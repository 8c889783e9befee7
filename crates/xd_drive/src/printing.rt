// What is printed of a run.
ghost use Rattle.std.specs.Prelude.{◌≤◌, length, take, Ok, IfOk, OnOk};
ghost use Rattle.xd_edge.specs.Faults.{Counted};
ghost use Rattle.xd_run.specs.State.{after_entries, no_one};
ghost use Rattle.xd_report.specs.Follows.{Follows};
ghost use Rattle.xd_report.specs.Lines.{lines_between};
ghost use Rattle.xd_report.specs.Text.{tail_text};
ghost use Rattle.xd_report.specs.Printing.{ShowsEnd, ShowsLines};

use std::alloc::Global;
use xd_edge::{OutOfMemory, Sink};
use xd_journal::Journal;
use xd_report::{Reporter, print_lines, print_tail, was_printed};

/// A reporter that went over the journal so far.
pub(crate) fn reporter_of(alloc: Global, journal: &Journal) -> Result<Reporter, OutOfMemory>
    ensures { IfOk result (λ r.
        Follows r (after_entries (no_one journal.now.settings) journal.now.entries.items)) }
{
    let mut reporter = Reporter::new(alloc, journal.settings);
    reporter.follow(alloc, &journal.entries)?;
    Ok(reporter)
}

/// Prints the lines of the entries from one place up to another, with a reporter that went over those before; false where
/// the output failed, and then nothing was handed on.
pub(crate) fn print_between<O: Sink>(
    alloc: Global,
    reporter: &mut Reporter,
    journal: &Journal,
    from: usize,
    to: usize,
    out: &mut O,
) -> Result<bool, OutOfMemory>
    requires order { from ≤ to }
    requires within { to ≤ length journal.now.entries.items }
    requires follows { Follows reporter.old
        (after_entries (no_one journal.now.settings) (take from journal.now.entries.items)) }
    ensures shows { IfOk result (λ shown.
        ShowsLines shown (lines_between journal.now from to) (O.sunk out.old) (O.sunk out.new)) }
    ensures follows { OnOk result
        (Follows reporter.new (after_entries (no_one journal.now.settings)
        (take to journal.now.entries.items))) }
    ensures later { O.faults out.old ≤ O.faults out.new }
    ensures counted { IfOk result (λ shown. Counted shown (O.faults out.old) (O.faults out.new)) }
{
    let printed = print_lines(alloc, reporter, &journal.entries[from..to], out);
    let shown = was_printed(printed)?;
    Ok(shown)
}

/// Prints the tail, and closes the output; false where the output failed.
pub(crate) fn print_end<O: Sink>(
    alloc: Global,
    journal: &Journal,
    out: &mut O,
) -> Result<bool, OutOfMemory>
    ensures shows { IfOk result (λ shown.
        ShowsEnd shown (tail_text journal.now) (O.sunk out.old) (O.sunk out.new)) }
    ensures later { O.faults out.old ≤ O.faults out.new }
    ensures counted { IfOk result (λ shown. Counted shown (O.faults out.old) (O.faults out.new)) }
{
    let printed = print_tail(alloc, journal, out);
    let shown = was_printed(printed)?;
    Ok(shown)
}
