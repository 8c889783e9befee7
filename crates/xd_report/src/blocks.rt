// The blocks of what failed.
ghost use Rattle.std.specs.Prelude.{◌≡◌, ◌<◌, ◌++◌, length, IfOk, OnOk, true, ◌∷◌, [], option_map};
ghost use Rattle.xd_run.specs.Sharing.{State};
ghost use Rattle.std.specs.List.{HoldsAt};
ghost use Rattle.std.specs.Str.{chars};
ghost use Rattle.xd_report.specs.Blocks.{block, block_of, count_line, crash_block, crash_reason, failed_id, heading_line, state_before, is_failed_report, line_end, output_text, reason_of, IsBlockAt, IsFailedAt};
ghost use Rattle.xd_report.specs.Follows.{Follows};
ghost use Rattle.xd_report.specs.Tests.{crash_of, item_id};

use crate::reporter::Reporter;
use std::alloc::Global;
use xd_edge::{Blob, ModeKind, OutOfMemory, Text};
use xd_journal::{Entry, Journal, Outcome};
use xd_report_phrases::{add, add_name, add_number, add_plain, add_tag, add_text};

/// The block of the entry at a place, which is a failed report: its heading, the reason, and the kept output.
pub fn failure_block(alloc: Global, journal: &Journal, at: usize) -> Result<Blob, OutOfMemory>
    requires within { at < length journal.now.entries.items }
    requires failed { IsFailedAt journal.now at }
    ensures { IfOk result (λ block. IsBlockAt journal.now at block) }
{
    let mut reporter = Reporter::new(alloc, journal.settings);
    reporter.follow(alloc, &journal.entries[..at])?;
    let mut bytes = Vec::new(alloc);
    reporter.add_block(alloc, &mut bytes, &journal.entries[at])?;
    Ok(Blob { bytes })
}

/// The entry at a place is a failed report: a failed test, or the end of a worker that held one, where that is not tried
/// again.
pub fn is_failed_at(alloc: Global, journal: &Journal, at: usize) -> Result<bool, OutOfMemory>
    requires { at < length journal.now.entries.items }
    ensures failed { IfOk result (λ failed. failed ≡ true → IsFailedAt journal.now at) }
    ensures exact { IfOk result (λ failed.
        HoldsAt (λ e. is_failed_report (state_before journal.now at) e ≡ failed)
        journal.now.entries.items at) }
{
    let mut reporter = Reporter::new(alloc, journal.settings);
    reporter.follow(alloc, &journal.entries[..at])?;
    Ok(reporter.is_failed_report(&journal.entries[at]))
}

impl Reporter {
    /// The block of an entry, where it is a failed report.
    pub(crate) fn add_block(
        &self,
        alloc: Global,
        out: &mut Vec<u8>,
        entry: &Entry,
    ) -> Result<(), OutOfMemory>
        ensures { (s : State) → Follows self.now s →
            OnOk result (out.new.items ≡ out.old.items ++ block_of s entry.now) }
    {
        match entry {
            Entry::Done {
                worker,
                index,
                outcome: Outcome::Failed(status),
                output,
                ..
            } => {
                let id = self.id_of(*worker, *index as u64);
                add_heading(alloc, out, self.mode(), *worker, id)?;
                add_reason(alloc, out, *status)?;
                add_end(alloc, out, output.as_slice())
            }
            Entry::Down { worker, output, .. } => {
                self.add_crash(alloc, out, *worker, output.as_slice())
            }
            _ => Ok(()),
        }
    }

    // The block of the test at the head of a worker that went down, where it is not tried again.
    fn add_crash(
        &self,
        alloc: Global,
        out: &mut Vec<u8>,
        worker: u32,
        output: &[u8],
    ) -> Result<(), OutOfMemory>
        ensures { (s : State) → Follows self.now s →
            OnOk result (out.new.items ≡ out.old.items ++ crash_block worker output.now s) }
    {
        let Some(item) = self.crash_of(worker) else {
            return Ok(());
        };
        let mode = self.mode();
        let id = self.item_id(worker, item)?;
        add_heading(alloc, out, mode, worker, id)?;
        add_crash_reason(alloc, out, mode, worker, id)?;
        add_end(alloc, out, output)
    }

    /// The entry is a failed report.
    pub(crate) fn is_failed_report(&self, entry: &Entry) -> bool
        ensures { (s : State) → Follows self.now s → result ≡ is_failed_report s entry.now }
    {
        match entry {
            Entry::Done {
                outcome: Outcome::Failed(_),
                ..
            } => true,
            Entry::Down { worker, .. } => self.crash_of(*worker).is_some(),
            _ => false,
        }
    }

    /// The id of the test of an entry that comes next, where it is a failed report: a failed test, or the end of a worker
    /// that held one, where that is not tried again.
    pub fn failed_id(&self, alloc: Global, entry: &Entry) -> Result<Option<Text>, OutOfMemory>
        ensures { (s : State) → Follows self.now s →
            IfOk result (λ id. id ≡ failed_id s entry.now) }
    {
        match entry {
            Entry::Done {
                worker,
                index,
                outcome: Outcome::Failed(_),
                ..
            } => {
                let id = Text::of(alloc, self.id_of(*worker, *index as u64))?;
                Ok(Some(id))
            }
            Entry::Down { worker, .. } => self.crashed_id(alloc, *worker),
            _ => Ok(None),
        }
    }

    // The id of the test at the head of a worker that went down, where it is not tried again.
    fn crashed_id(&self, alloc: Global, worker: u32) -> Result<Option<Text>, OutOfMemory>
        ensures { (s : State) → Follows self.now s → IfOk result (λ id.
            id ≡ option_map (λ item. item_id worker item s) (crash_of worker s)) }
    {
        match self.crash_of(worker) {
            Some(item) => {
                let id = Text::of(alloc, self.item_id(worker, item)?)?;
                Ok(Some(id))
            }
            None => Ok(None),
        }
    }
}

#[tactic(auto, unfolding(crate::specs::Blocks::heading_line))]
fn add_heading(
    alloc: Global,
    out: &mut Vec<u8>,
    mode: ModeKind,
    worker: u32,
    id: &str,
) -> Result<(), OutOfMemory>
    ensures { OnOk result (out.new.items ≡ out.old.items
        ++ heading_line mode worker (chars id.now)) }
{
    add_text(out, "==== ")?;
    add_tag(alloc, out, mode, worker)?;
    add_plain(alloc, out, id)?;
    add_text(out, " ====\n")
}

#[tactic(auto, unfolding(crate::specs::Blocks::reason_of))]
fn add_reason(alloc: Global, out: &mut Vec<u8>, status: i32) -> Result<(), OutOfMemory>
    ensures { OnOk result (out.new.items ≡ out.old.items ++ reason_of status) }
{
    match status {
        -1 => add_text(out, "killed by a signal"),
        -2 => add_text(out, "could not be started"),
        -3 => add_text(out, "could not be read"),
        _ => {
            let number = status.to_string(alloc)?;
            add_text(out, "status ")?;
            add_text(out, number.as_str())
        }
    }
}

#[tactic(auto, unfolding(crate::specs::Blocks::crash_reason))]
fn add_crash_reason(
    alloc: Global,
    out: &mut Vec<u8>,
    mode: ModeKind,
    worker: u32,
    id: &str,
) -> Result<(), OutOfMemory>
    ensures { OnOk result (out.new.items ≡ out.old.items
        ++ crash_reason mode worker (chars id.now)) }
{
    add_text(out, "worker '")?;
    add_name(alloc, out, mode, worker)?;
    add_text(out, "' crashed while running '")?;
    add_plain(alloc, out, id)?;
    add_text(out, "'")
}

// The end of the reason's line, and the kept output.
fn add_end(alloc: Global, out: &mut Vec<u8>, output: &[u8]) -> Result<(), OutOfMemory>
    ensures { OnOk result (out.new.items ≡ out.old.items ++ (10 ∷ [] ++ output_text output.now)) }
{
    add(out, &[b'\n'])?;
    add_output(alloc, out, output)
}

#[tactic(auto, unfolding(crate::specs::Blocks::output_text))]
fn add_output(alloc: Global, out: &mut Vec<u8>, output: &[u8]) -> Result<(), OutOfMemory>
    ensures { OnOk result (out.new.items ≡ out.old.items ++ output_text output.now) }
{
    if output.is_empty() {
        return Ok(());
    }
    add_count_line(alloc, out, output.len() as u64)?;
    add(out, output)?;
    add(out, line_end(output))
}

fn add_count_line(alloc: Global, out: &mut Vec<u8>, n: u64) -> Result<(), OutOfMemory>
    ensures { OnOk result (out.new.items ≡ out.old.items ++ count_line n) }
{
    add_text(out, "---- output: ")?;
    add_number(alloc, out, n)?;
    add_text(out, " bytes ----")?;
    add(out, &[b'\n'])
}

fn line_end(bytes: &[u8]) -> &'static [u8]
    ensures { result.now ≡ line_end bytes.now }
{
    match bytes {
        [.., 10] => &[],
        _ => &[10],
    }
}
