// What is printed after the lines of the entries.
ghost use Rattle.std.specs.Prelude.{◌≡◌, ◌++◌, IfOk, OnOk};
ghost use Rattle.xd_run.specs.Sharing.{State};
ghost use Rattle.xd_run.specs.State.{after_entries};
ghost use Rattle.xd_report.specs.Blocks.{blocks_from};
ghost use Rattle.xd_report.specs.Follows.{Follows};
ghost use Rattle.xd_report.specs.Text.{tail_text};

use crate::reporter::Reporter;
use crate::summary::{counts_of, summary};
use std::alloc::Global;
use xd_edge::{Blob, OutOfMemory};
use xd_journal::{Entry, Journal};
use xd_report_phrases::{add, add_line_of_stop};

/// The blocks of the failed reports, the line of the stop where the run stopped, and the summary.
pub fn tail(alloc: Global, journal: &Journal) -> Result<Blob, OutOfMemory>
    ensures { IfOk result (λ tail. tail ≡ tail_text journal.now) }
{
    let mut bytes = Vec::new(alloc);
    let mut reporter = Reporter::new(alloc, journal.settings);
    reporter.add_blocks(alloc, &mut bytes, &journal.entries)?;
    let mode = journal.settings.mode;
    let stop = reporter.first_stop();
    add_line_of_stop(alloc, &mut bytes, mode, &journal.entries, stop)?;
    let summary = summary(alloc, counts_of(alloc, journal)?)?;
    add(&mut bytes, summary.as_bytes())?;
    add(&mut bytes, &[b'\n'])?;
    Ok(Blob { bytes })
}

impl Reporter {
    // The blocks of the entries that come next.
    fn add_blocks(
        &mut self,
        alloc: Global,
        out: &mut Vec<u8>,
        entries: &[Entry],
    ) -> Result<(), OutOfMemory>
        ensures blocks { (s : State) → Follows self.old s →
            OnOk result (out.new.items ≡ out.old.items ++ blocks_from s entries.now) }
        ensures follows { (s : State) → Follows self.old s →
            OnOk result (Follows self.new (after_entries s entries.now)) }
    {
        for entry in entries {
            self.add_block(alloc, out, entry)?;
            self.note(alloc, entry)?;
        }
        Ok(())
    }
}
