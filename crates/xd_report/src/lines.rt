// The lines of a journal's entries.
ghost use Rattle.std.specs.Prelude.{◌≡◌, ◌≤◌, ◌++◌, length, None, IfOk, OnOk};
ghost use Rattle.std.specs.Str.{chars};
ghost use Rattle.xd_journal.specs.Local.{is_local_mode};
ghost use Rattle.xd_run.specs.Sharing.{State};
ghost use Rattle.xd_run.specs.State.{after_entries, reached, after_entry};
ghost use Rattle.xd_report.specs.Follows.{Follows};
ghost use Rattle.xd_report.specs.Lines.{collected_line, down_line, last_of_slot, lines_between, lines_from, lines_of, lost_head_line, lost_line, replacing, result_line, tests_line, lines_told};
ghost use Rattle.xd_report_phrases.specs.Names.{cause_text};
ghost use Rattle.xd_report.specs.Tests.{id_of, mode_of};

use crate::reporter::Reporter;
use std::alloc::Global;
use xd_edge::{Blob, ModeKind, OutOfMemory};
use xd_journal::{Cause, Entry, Journal, Outcome};
use xd_report_phrases::{
    add, add_name, add_number, add_plain, add_tag, add_text, cause_text, lost_text, mode_text,
    outcome_text,
};
use xd_run::Member;

/// The lines of the entries from one place up to another, each ended by a newline. It goes over the entries before them
/// too; whoever prints a journal while it grows keeps a `Reporter`.
pub fn report_lines(
    alloc: Global,
    journal: &Journal,
    from: usize,
    to: usize,
) -> Result<Blob, OutOfMemory>
    requires order { from ≤ to }
    requires within { to ≤ length journal.now.entries.items }
    ensures { IfOk result (λ lines. lines ≡ lines_between journal.now from to) }
{
    let mut reporter = Reporter::new(alloc, journal.settings);
    reporter.follow(alloc, &journal.entries[..from])?;
    let lines = reporter.lines(alloc, &journal.entries[from..to])?;
    Ok(lines)
}

impl Reporter {
    /// The lines of the entries that come next, each ended by a newline. The cost of a result does not grow with what
    /// came before. After it ran out of memory the reporter is given up.
    pub fn lines(&mut self, alloc: Global, entries: &[Entry]) -> Result<Blob, OutOfMemory>
        ensures lines { (s : State) → Follows self.old s →
            IfOk result (λ lines. lines ≡ lines_from s entries.now) }
        ensures follows { (s : State) → Follows self.old s →
            OnOk result (Follows self.new (after_entries s entries.now)) }
    {
        let mut bytes = Vec::new(alloc);
        for entry in entries {
            self.add_lines(alloc, &mut bytes, entry)?;
        }
        Ok(Blob { bytes })
    }

    /// Goes over the entries that come next. After it ran out of memory the reporter is given up.
    pub fn follow(&mut self, alloc: Global, entries: &[Entry]) -> Result<(), OutOfMemory>
        ensures { (s : State) → Follows self.old s →
            OnOk result (Follows self.new (after_entries s entries.now)) }
    {
        for entry in entries {
            self.note(alloc, entry)?;
        }
        Ok(())
    }

    // The lines of one entry, and the entry.
    fn add_lines(
        &mut self,
        alloc: Global,
        out: &mut Vec<u8>,
        entry: &Entry,
    ) -> Result<(), OutOfMemory>
        ensures lines { (s : State) → Follows self.old s →
            OnOk result (out.new.items ≡ out.old.items
            ++ lines_of (reached s entry.now) entry.now) }
        ensures follows { (s : State) → Follows self.old s →
            OnOk result (Follows self.new (after_entry s entry.now)) }
    {
        let was_shared = self.books.is_shared();
        self.add_told(alloc, out, entry)?;
        self.note(alloc, entry)?;
        if let Entry::Collected { .. } = entry {
            self.add_collected(alloc, out, was_shared)?;
        }
        Ok(())
    }

    // The lines that the state before an entry tells; those of a collection are told by the state after it.
    fn add_told(&self, alloc: Global, out: &mut Vec<u8>, entry: &Entry) -> Result<(), OutOfMemory>
        ensures { (s : State) → Follows self.now s →
            OnOk result (out.new.items ≡ out.old.items ++ lines_told s entry.now) }
    {
        match entry {
            Entry::Done {
                worker,
                index,
                outcome,
                ..
            } => self.add_result(alloc, out, *worker, *index, *outcome),
            Entry::Down { worker, cause, .. } => self.add_end(alloc, out, *worker, *cause),
            Entry::NotStarted { worker } => self.add_down(alloc, out, *worker, "not started"),
            Entry::Start { slot, .. } => {
                add_replacing(alloc, out, self.mode(), self.last_of_slot(*slot))
            }
            _ => Ok(()),
        }
    }

    // How many tests there are, where a collection told it.
    fn add_collected(
        &self,
        alloc: Global,
        out: &mut Vec<u8>,
        was_shared: bool,
    ) -> Result<(), OutOfMemory>
        ensures { (s : State) → Follows self.now s →
            OnOk result (out.new.items ≡ out.old.items ++ collected_line was_shared s) }
    {
        let mode = self.mode();
        if is_local(mode) || (self.books.is_shared() && !was_shared) {
            let tests = self.tests()?;
            add_tests(alloc, out, mode, tests, self.books.settings().workers)?;
        }
        Ok(())
    }

    fn add_result(
        &self,
        alloc: Global,
        out: &mut Vec<u8>,
        worker: u32,
        index: u32,
        outcome: Outcome,
    ) -> Result<(), OutOfMemory>
        ensures { (s : State) → Follows self.now s →
            OnOk result (out.new.items ≡ out.old.items
            ++ result_line (mode_of s) worker outcome (id_of worker index s)) }
    {
        add_tag(alloc, out, self.mode(), worker)?;
        add_text(out, outcome_text(outcome))?;
        add_plain(alloc, out, self.id_of(worker, index as u64))?;
        add(out, &[b'\n'])
    }

    fn add_down(
        &self,
        alloc: Global,
        out: &mut Vec<u8>,
        worker: u32,
        why: &str,
    ) -> Result<(), OutOfMemory>
        ensures { (s : State) → Follows self.now s →
            OnOk result (out.new.items ≡ out.old.items ++ down_line (mode_of s) worker why.now) }
    {
        add_tag(alloc, out, self.mode(), worker)?;
        add_text(out, "node down: ")?;
        add_text(out, why)?;
        add(out, &[b'\n'])
    }

    // The line of the test at a worker's head.
    fn add_lost(&self, alloc: Global, out: &mut Vec<u8>, worker: u32) -> Result<(), OutOfMemory>
        ensures { (s : State) → Follows self.now s →
            OnOk result (out.new.items ≡ out.old.items ++ lost_head_line worker s) }
    {
        let Some(item) = self.head(worker) else {
            return Ok(());
        };
        let id = self.item_id(worker, item)?;
        let retry = self.is_retry(worker);
        add_lost_line(alloc, out, retry, self.mode(), worker, id)
    }

    // A worker went down, with a test at its head or without.
    fn add_end(
        &self,
        alloc: Global,
        out: &mut Vec<u8>,
        worker: u32,
        cause: Cause,
    ) -> Result<(), OutOfMemory>
        ensures { (s : State) → Follows self.now s →
            OnOk result (out.new.items ≡ out.old.items
            ++ (down_line (mode_of s) worker (cause_text cause) ++ lost_head_line worker s)) }
    {
        self.add_down(alloc, out, worker, cause_text(cause))?;
        self.add_lost(alloc, out, worker)?;
        Ok(())
    }

    // The last worker of a slot so far.
    fn last_of_slot(&self, slot: u32) -> Option<u32>
        ensures { (s : State) → Follows self.now s →
            result ≡ last_of_slot slot s.books.members None }
    {
        last_of_slot(self.books.members(), slot)
    }
}

// The last worker of a slot.
fn last_of_slot(members: &[Member], slot: u32) -> Option<u32>
    ensures { result ≡ last_of_slot slot members.now None }
{
    let mut found = None;
    for member in members {
        if member.slot == slot {
            found = Some(member.worker);
        }
    }
    found
}

fn add_lost_line(
    alloc: Global,
    out: &mut Vec<u8>,
    retry: bool,
    mode: ModeKind,
    worker: u32,
    id: &str,
) -> Result<(), OutOfMemory>
    ensures { OnOk result (out.new.items ≡ out.old.items
        ++ lost_line retry mode worker (chars id.now)) }
{
    add_tag(alloc, out, mode, worker)?;
    add_text(out, lost_text(retry))?;
    add_plain(alloc, out, id)?;
    add(out, &[b'\n'])
}

fn add_replacing(
    alloc: Global,
    out: &mut Vec<u8>,
    mode: ModeKind,
    old: Option<u32>,
) -> Result<(), OutOfMemory>
    ensures { OnOk result (out.new.items ≡ out.old.items ++ replacing mode old) }
{
    match old {
        Some(old) => {
            add_text(out, "replacing crashed worker ")?;
            add_name(alloc, out, mode, old)?;
            add(out, &[b'\n'])?;
            Ok(())
        }
        None => Ok(()),
    }
}

fn is_local(mode: ModeKind) -> bool
    ensures { result ≡ is_local_mode mode }
{
    match mode {
        ModeKind::Local => true,
        _ => false,
    }
}

#[tactic(auto, unfolding(crate::specs::Lines::tests_line))]
fn add_tests(
    alloc: Global,
    out: &mut Vec<u8>,
    mode: ModeKind,
    tests: u64,
    workers: u32,
) -> Result<(), OutOfMemory>
    ensures { OnOk result (out.new.items ≡ out.old.items ++ tests_line mode tests workers) }
{
    match mode {
        ModeKind::Local => {
            let line = format!(in alloc; "{tests} tests\n")?;
            add(out, line.as_bytes())
        }
        _ => {
            let name = mode_text(mode);
            let line = format!(in alloc; "{tests} tests on {workers} workers, {name}\n")?;
            add(out, line.as_bytes())
        }
    }
}
