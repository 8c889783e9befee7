// A run without workers, from its first entry to its last.
ghost use Rattle.std.specs.Prelude.{◌≡◌, ◌<◌, ◌≤◌, ◌++◌, ◌∷◌, [], drop, length, IfOk, OnOk};
ghost use Rattle.xd_edge.specs.Faults.{Counted};
ghost use Rattle.xd_suite.specs.Tests.{run_at};
ghost use Rattle.xd_journal.specs.Kept.{most_of_all, output_room};
ghost use Rattle.xd_run.specs.Sharing.{State};
ghost use Rattle.xd_run.specs.State.{after_entries};
ghost use Rattle.xd_run.specs.Stops.{is_stopped};
ghost use Rattle.xd_report.specs.Follows.{Follows};
ghost use Rattle.xd_report.specs.Lines.{lines_from};
ghost use Rattle.xd_report.specs.Printing.{OnPrinted, ShowsEnd, ShowsLines};
ghost use Rattle.xd_report.specs.Text.{tail_text};
ghost use Rattle.xd_local.specs.Local.{local_settings, rounds_seen, stop_after};
ghost use Rattle.xd_local.specs.inner.Running.{AddsRound, ClosedJournal, HasCollected, HasStatus, WasCollected, NothingCollected, NotesTest};
ghost use Rattle.xd_local.specs.inner.Running.{RanAll, RanPrinted, RanTest, FollowsJournal, after_journal, local_scene};

use crate::local::LocalRun;
use std::alloc::Global;
use std::marker::Model;
use std::sync::Wait;
use xd_child::{ChildResult, run_child};
use xd_edge::{Children, Clock, Indices, ModeKind, OutOfMemory, Sink};
use xd_journal::{Entry, Ids, Journal, MOST_OF_ALL, MOST_OF_ONE, RunStop, Settings};
use xd_report::{PrintFault, Reporter, print_lines, print_tail};
use xd_suite::Suite;
use xd_trace::Moments;

// A run without workers, as far as it came.
#[derive(Drop)]
pub struct Run<K: Children> {
    alloc: Global,
    journal: Journal,
    // It went over all entries whose lines were printed.
    reporter: Reporter,
    // How many bytes of output are kept.
    spent: usize,
    children: K,
}

impl<K: Children> Model for Run<K> {
    ghost use Rattle.xd_local.specs.inner.Running.{Running};

    ghost Value = { Running };

    ghost view = { λ r. record {
      journal = r.journal;
      reporter = r.reporter;
      spent = r.spent;
      programs = record { runs = K.runs r.children; faults = K.faults r.children };
    } };
}

impl<K: Children> Run<K> {
    // Nothing was collected yet.
    pub fn new(alloc: Global, maxfail: u32, children: K) -> Run<K>
        ensures new { NothingCollected maxfail result }
        ensures programs { result.programs ≡
            record { runs = K.runs children; faults = K.faults children } }
    {
        let settings = local_settings(maxfail);
        Run {
            alloc,
            journal: Journal::new(alloc, settings),
            reporter: Reporter::new(alloc, settings),
            spent: 0,
            children,
        }
    }

    // Notes which tests there are.
    pub fn collect(&mut self, suite: &Suite) -> Result<(), OutOfMemory>
        ensures collected { OnOk result (HasCollected suite.now self.old self.new) }
    {
        let ids = suite.ids(self.alloc, ModeKind::Local)?;
        self.journal.push(Entry::Collected {
            worker: 0,
            ids: Ids::List(ids),
        })?;
        Ok(())
    }

    // Runs the tests and prints their lines and the tail.
    pub fn run_and_print<R: Wait, T: Clock, O: Sink>(
        &mut self,
        rt: &R,
        suite: &Suite,
        clock: &mut T,
        out: &mut O,
        moments: &mut Moments<K, O>,
    ) -> Result<(), PrintFault>
        requires begun { WasCollected suite.now self.old }
        ensures ran { OnPrinted result (λ shown. RanPrinted shown suite.now
            (local_scene self.old (O.sunk out.old) (T.moment clock.old) (T.coming clock.old))
            (local_scene self.new (O.sunk out.new) (T.moment clock.new) (T.coming clock.new))
            (rounds_seen K.runs O.sunk moments.new)) }
        ensures counted { OnPrinted result (λ shown.
            Counted shown (O.faults out.old) (O.faults out.new)) }
    {
        self.run_tests(rt, suite, clock, out, moments)?;
        self.print_end(out)?;
        Ok(())
    }

    // Prints the line of the collection, and runs the tests in order, up to the one that reaches the
    // limit on failures. Notes after each line how the programs and the output stand.
    fn run_tests<R: Wait, T: Clock, O: Sink>(
        &mut self,
        rt: &R,
        suite: &Suite,
        clock: &mut T,
        out: &mut O,
        moments: &mut Moments<K, O>,
    ) -> Result<(), PrintFault>
        requires begun { WasCollected suite.now self.old }
        ensures ran { OnPrinted result (λ shown. RanAll shown suite.now
            (local_scene self.old (O.sunk out.old) (T.moment clock.old) (T.coming clock.old))
            (local_scene self.new (O.sunk out.new) (T.moment clock.new) (T.coming clock.new))
            (rounds_seen K.runs O.sunk moments.new)) }
        ensures counted { OnPrinted result (λ shown.
            Counted shown (O.faults out.old) (O.faults out.new)) }
    {
        self.print_from(0, out)?;
        for test in 0..suite.len() {
            if self.is_stopped() {
                return Ok(());
            }
            self.run_test(rt, suite, test, clock, out)?;
            self.look(out, moments);
        }
        Ok(())
    }

    // Notes how the programs and the output stand.
    fn look<O: Sink>(&self, out: &O, moments: &mut Moments<K, O>)
        ensures { rounds_seen K.runs O.sunk moments.new ≡ rounds_seen K.runs O.sunk moments.old
            ++ record { runs = self.now.programs.runs; sunk = O.sunk out.now } ∷ [] }
    {
        moments.look(&self.children, out);
    }

    // Whether the failures reached their limit.
    fn is_stopped(&self) -> bool
        requires told { FollowsJournal self.now }
        ensures { result ≡ is_stopped (after_journal self.now.journal).books }
    {
        self.reporter.first_stop().is_some()
    }

    // Runs one test and prints its line.
    fn run_test<R: Wait, T: Clock, O: Sink>(
        &mut self,
        rt: &R,
        suite: &Suite,
        test: u32,
        clock: &mut T,
        out: &mut O,
    ) -> Result<(), PrintFault>
        requires test { test < length suite.now }
        requires told { FollowsJournal self.old }
        requires room { self.old.spent ≤ most_of_all }
        ensures ran { OnPrinted result (λ shown. RanTest shown test (run_at suite.now test)
            (local_scene self.old (O.sunk out.old) (T.moment clock.old) (T.coming clock.old))
            (local_scene self.new (O.sunk out.new) (T.moment clock.new) (T.coming clock.new))) }
        ensures counted { OnPrinted result (λ shown.
            Counted shown (O.faults out.old) (O.faults out.new)) }
    {
        let from = self.entry_count();
        self.note_test(rt, suite, test, clock)?;
        self.print_from(from, out)?;
        Ok(())
    }

    // Runs one test, and notes that and its result.
    fn note_test<R: Wait, T: Clock>(
        &mut self,
        rt: &R,
        suite: &Suite,
        test: u32,
        clock: &mut T,
    ) -> Result<(), OutOfMemory>
        requires test { test < length suite.now }
        requires room { self.old.spent ≤ most_of_all }
        ensures notes { OnOk result (NotesTest test (run_at suite.now test)
            (record { moment = T.moment clock.old; coming = T.coming clock.old })
            (record { moment = T.moment clock.new; coming = T.coming clock.new })
            self.old self.new) }
    {
        let start = clock.now();
        let room = output_room(self.spent);
        let came = run_child(
            rt,
            self.alloc,
            &mut self.children,
            suite.command(test),
            room,
        )?;
        let ms = clock.now() - start;
        self.spent += came.output.as_slice().len();
        add_round(self.alloc, &mut self.journal, test, came, ms)?;
        Ok(())
    }

    // How many entries there are.
    fn entry_count(&self) -> usize
        ensures { result ≡ length self.now.journal.entries.items }
    {
        self.journal.entries.len()
    }

    // Prints the lines of the entries from a place on.
    fn print_from<O: Sink>(&mut self, from: usize, out: &mut O) -> Result<(), PrintFault>
        requires within { from ≤ length self.old.journal.entries.items }
        ensures shows { (s : State) → Follows self.old.reporter s → OnPrinted result (λ shown.
            ShowsLines shown (lines_from s (drop from self.old.journal.entries.items))
            (O.sunk out.old) (O.sunk out.new)) }
        ensures follows { (s : State) → Follows self.old.reporter s → OnPrinted result (λ shown.
            Follows self.new.reporter
            (after_entries s (drop from self.old.journal.entries.items))) }
        ensures keeps { self.new ≡ record (self.old) { reporter = self.new.reporter } }
        ensures counted { OnPrinted result (λ shown.
            Counted shown (O.faults out.old) (O.faults out.new)) }
    {
        print_lines(
            self.alloc,
            &mut self.reporter,
            &self.journal.entries[from..],
            out,
        )
    }

    // Prints the tail of the report, and closes the output.
    fn print_end<O: Sink>(&self, out: &mut O) -> Result<(), PrintFault>
        ensures shows { OnPrinted result (λ shown.
            ShowsEnd shown (tail_text self.now.journal) (O.sunk out.old) (O.sunk out.new)) }
        ensures counted { OnPrinted result (λ shown.
            Counted shown (O.faults out.old) (O.faults out.new)) }
    {
        print_tail(self.alloc, &self.journal, out)
    }

    // The journal with its end, its exit status, the programs, and the moments.
    pub fn close<O>(
        mut self,
        shown: bool,
        moments: Moments<K, O>,
    ) -> Result<LocalRun<K, O>, OutOfMemory>
        ensures closed { IfOk result (λ r. ClosedJournal shown self r.journal) }
        ensures status { IfOk result (λ r. HasStatus shown self r.status) }
        ensures children { IfOk result (λ r. self.programs ≡
            record { runs = K.runs r.children; faults = K.faults r.children }) }
        ensures moments { IfOk result (λ r. r.moments ≡ moments) }
    {
        let how = stop_after(shown, self.reporter.first_stop());
        self.journal.push(Entry::Over { how })?;
        Ok(LocalRun {
            journal: self.journal,
            status: self.reporter.status(how),
            children: self.children,
            moments,
        })
    }
}

fn local_settings(maxfail: u32) -> Settings
    ensures { result ≡ local_settings maxfail }
{
    Settings {
        mode: ModeKind::Local,
        workers: 0,
        maxfail,
        restarts: 0,
        chunk: None,
        reorder: true,
        retries: 0,
    }
}

fn stop_after(shown: bool, first: Option<RunStop>) -> RunStop
    ensures { result ≡ stop_after shown first }
{
    if shown {
        first.unwrap_or(RunStop::Completed)
    } else {
        RunStop::OutFault
    }
}

// How many bytes may be kept of the next test's output, where `spent` are kept.
fn output_room(spent: usize) -> usize
    requires { spent ≤ most_of_all }
    ensures { result ≡ output_room spent }
{
    (MOST_OF_ONE as usize).min(MOST_OF_ALL as usize - spent)
}

// Notes that a test was run, and its result.
fn add_round(
    alloc: Global,
    journal: &mut Journal,
    test: u32,
    came: ChildResult,
    ms: u64,
) -> Result<(), OutOfMemory>
    ensures entries { OnOk result (AddsRound test
        (record { outcome = came.outcome; ms = ms; output = came.output })
        journal.old.entries.items journal.new.entries.items) }
    ensures settings { journal.new.settings ≡ journal.old.settings }
{
    let mut indices = Vec::new(alloc);
    indices.push(test)?;
    journal.push(Entry::Run {
        worker: 0,
        indices: Indices { items: indices },
    })?;
    journal.push(Entry::Done {
        worker: 0,
        index: test,
        outcome: came.outcome,
        ms,
        output: came.output,
    })?;
    Ok(())
}
