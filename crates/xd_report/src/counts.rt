// How many reports there are of each kind.
ghost use Rattle.std.specs.Prelude.{◌≡◌, OnOk};
ghost use Rattle.xd_run.specs.Sharing.{State};
ghost use Rattle.xd_run.specs.State.{after_entries};
ghost use Rattle.xd_report.specs.Follows.{Follows};
ghost use Rattle.xd_report.specs.Summary.{counted, counted_from};

use crate::reporter::Reporter;
use std::alloc::Global;
use xd_edge::OutOfMemory;
use xd_held::plus;
use xd_journal::{Entry, Outcome};

/// How many reports there are of each kind. A crash is a failure.
#[derive(Clone, Copy, Debug, PartialEq, Eq)]
pub struct Counts {
    pub failed: u64,
    pub passed: u64,
    pub skipped: u64,
}

impl Counts {
    /// No report.
    pub fn none() -> Counts
        ensures { result ≡ record { failed = 0; passed = 0; skipped = 0 } }
    {
        Counts {
            failed: 0,
            passed: 0,
            skipped: 0,
        }
    }
}

impl Reporter {
    /// Counts the report of an entry, where it has one.
    fn count(&self, counts: &mut Counts, entry: &Entry) -> Result<(), OutOfMemory>
        ensures { (s : State) → Follows self.now s →
            OnOk result (counts.new ≡ counted s entry.now counts.old) }
    {
        match entry {
            Entry::Done {
                outcome: Outcome::Passed,
                ..
            } => {
                counts.passed = plus(counts.passed, 1)?;
            }
            Entry::Done {
                outcome: Outcome::Skipped,
                ..
            } => {
                counts.skipped = plus(counts.skipped, 1)?;
            }
            _ => {
                if self.is_failed_report(entry) {
                    counts.failed = plus(counts.failed, 1)?;
                }
            }
        }
        Ok(())
    }

    /// Counts the reports of the entries that come next.
    pub(crate) fn count_all(
        &mut self,
        alloc: Global,
        counts: &mut Counts,
        entries: &[Entry],
    ) -> Result<(), OutOfMemory>
        ensures counts { (s : State) → Follows self.old s →
            OnOk result (counts.new ≡ counted_from s entries.now counts.old) }
        ensures follows { (s : State) → Follows self.old s →
            OnOk result (Follows self.new (after_entries s entries.now)) }
    {
        for entry in entries {
            self.count(counts, entry)?;
            self.note(alloc, entry)?;
        }
        Ok(())
    }
}
