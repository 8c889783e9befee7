// The loop that runs a session over a hub.
ghost use Rattle.std.specs.Prelude.{◌≡◌, ◌≤◌, [], not, IfOk, OnOk};
ghost use Rattle.xd_edge.specs.Faults.{Counted};
ghost use Rattle.xd_run.specs.Ending.{stop_of};
ghost use Rattle.xd_run.specs.Histories.{run_end_of};
ghost use Rattle.xd_run.specs.Proper.{IsProper};
ghost use Rattle.xd_run.specs.Sharing.{State};
ghost use Rattle.xd_run.specs.State.{after_entries, no_one};
ghost use Rattle.xd_report.specs.Follows.{Follows};
ghost use Rattle.xd_report.specs.Status.{status_in, status_of};
ghost use Rattle.xd_session.specs.Ends.{is_out_fault};
ghost use Rattle.xd_session.specs.Stands.{StandsForNews};
ghost use Rattle.xd_drive.specs.Driven.{Drove};
ghost use Rattle.xd_drive.specs.Going.{EndsRun, EndsTail, HasNoMarks};
ghost use Rattle.xd_drive.specs.Moments.{turns_of};
ghost use Rattle.xd_drive.specs.Seen.{scene_of};
ghost use Rattle.xd_drive.specs.inner.Written.{is_whole};

use crate::news::{entry_count, take_news};
use crate::perform::{kill_started, perform};
use crate::printing::{print_end, reporter_of};
use crate::{Hub, Written};
use std::alloc::Global;
use std::sync::Wait;
use xd_edge::{OutOfMemory, Sink};
use xd_journal::{Journal, RunStop};
use xd_ledger::Mode;
use xd_report::Reporter;
use xd_session::Session;
use xd_trace::Moments;

/// What a session that was driven to its end came to.
#[derive(Drop)]
pub struct DrivenRun<K, O> {
    /// The journal, with its end.
    pub journal: Journal,
    /// The exit status of the journal.
    pub status: u8,
    /// How what the hub keeps and the output stood after the lines of each piece of news. Clauses alone read it.
    pub moments: Moments<K, O>,
}

// Prints the tail of a journal that was performed, and closes the output.
fn finish<O: Sink>(alloc: Global, journal: &Journal, out: &mut O) -> Result<Written, OutOfMemory>
    ensures ends { IfOk result (λ written.
        EndsTail written journal.now (O.sunk out.old) (O.sunk out.new)) }
    ensures later { O.faults out.old ≤ O.faults out.new }
    ensures counted { IfOk result (λ written.
        Counted (is_whole written) (O.faults out.old) (O.faults out.new)) }
{
    let shown = print_end(alloc, journal, out)?;
    if shown {
        Ok(Written::Whole)
    } else {
        let performed = entry_count(journal);
        Ok(Written::Broken { performed })
    }
}

// Performs the first starts, takes news until the run is over or the output fails, and prints the tail.
fn run<R: Wait, M: Mode, H: Hub, O: Sink>(
    rt: &R,
    alloc: Global,
    session: &mut Session<M>,
    reporter: &mut Reporter,
    hub: &mut H,
    out: &mut O,
    moments: &mut Moments<H::Kept, O>,
) -> Result<Written, OutOfMemory>
    requires proper { IsProper session.old.settings [] }
    requires begins { StandsForNews [] session.old }
    requires follows { Follows reporter.old
        (after_entries (no_one session.old.settings) session.old.entries) }
    requires slots { session.old.settings.workers ≤ H.slots (H.made hub.old) }
    requires fresh { HasNoMarks (H.marks hub.old) }
    ensures ends { IfOk result (λ written. EndsRun written session.new
        (scene_of H.marks H.seen O.sunk hub.old out.old)
        (scene_of H.marks H.seen O.sunk hub.new out.new)
        (turns_of H.tells O.sunk moments.new)) }
    ensures settings { OnOk result (session.new.settings ≡ session.old.settings) }
    ensures follows { OnOk result
        (Follows reporter.new (after_entries (no_one session.new.settings) session.new.entries)) }
    ensures made { H.made hub.new ≡ H.made hub.old }
    ensures later { O.faults out.old ≤ O.faults out.new }
    ensures counted { IfOk result (λ written.
        Counted (is_whole written) (O.faults out.old) (O.faults out.new)) }
{
    perform(alloc, hub, &session.journal().entries)?;
    for _ in rt.forever() {
        if session.over() {
            let written = finish(alloc, session.journal(), out)?;
            return Ok(written);
        }
        let written = take_news(rt, alloc, session, reporter, hub, out, moments)?;
        if let Written::Broken { performed } = written {
            return Ok(Written::Broken { performed });
        }
    }
    unreachable!()
}

// The exit status of a run that is over.
fn status_over(reporter: &Reporter) -> u8
    ensures { (s : State) → Follows reporter.now s → result ≡ status_in s (run_end_of s.books) }
{
    reporter.status(reporter.first_stop().unwrap_or(RunStop::Completed))
}

/// Runs a session to its end: starts its workers, steps it with the news of active workers, performs what its journal asks
/// for, and prints the lines of each entry before the entry is performed, then the tail. Gives the journal and its
/// exit status, which is read off the reporter that printed the lines.
///
/// The journal ends with `OutFault` exactly where not all of the report could be printed, handed on and closed. The count
/// of faults of the output rose in this call then, and is as before else. The lines of all that was performed were handed
/// on by then, and nothing more was performed but the kills of the workers that were started. Else the journal ends with
/// the first stop of the run, or with `Completed` where there was none.
///
/// The journal is a legal one of the session's settings, with its end. It keeps at most 8,192 bytes of the output of a
/// test, and at most 67,108,864 bytes of all output. Its reports name each collected test at most once and nothing else,
/// and each once where the run was completed; the line of each report and the block of each failed one give the id of
/// its test.
///
/// The hub is made of what it was made of before.
///
/// After the lines of each piece of news, and before what it makes is performed and the next one is waited for, it looks at
/// the hub and the output, since the two as they stand at the end could not show which came first.
///
/// Where memory is refused it returns as it stands: the workers that the hub started are left to the hub's owner to end.
pub fn drive<R: Wait, M: Mode, H: Hub, O: Sink>(
    rt: &R,
    alloc: Global,
    mut session: Session<M>,
    hub: &mut H,
    out: &mut O,
) -> Result<DrivenRun<H::Kept, O>, OutOfMemory>
    requires begins { StandsForNews [] session }
    requires slots { session.settings.workers ≤ H.slots (H.made hub.old) }
    requires fresh { HasNoMarks (H.marks hub.old) }
    ensures drove { IfOk result (λ r. Drove session.settings r.journal
        (scene_of H.marks H.seen O.sunk hub.old out.old)
        (scene_of H.marks H.seen O.sunk hub.new out.new)
        (turns_of H.tells O.sunk r.moments)) }
    ensures status { IfOk result (λ r. r.status ≡ status_of r.journal) }
    ensures counted { IfOk result (λ r.
        Counted (not (is_out_fault (stop_of r.journal))) (O.faults out.old) (O.faults out.new)) }
    ensures later { O.faults out.old ≤ O.faults out.new }
    ensures made { H.made hub.new ≡ H.made hub.old }
{
    let mut reporter = reporter_of(alloc, session.journal())?;
    let mut moments = Moments::new(alloc)?;
    let written = run(
        rt,
        alloc,
        &mut session,
        &mut reporter,
        hub,
        out,
        &mut moments,
    )?;
    let Written::Broken { performed } = written else {
        let journal = session.close(false)?;
        return Ok(DrivenRun {
            journal,
            status: status_over(&reporter),
            moments,
        });
    };
    let journal = session.close(true)?;
    kill_started(
        alloc,
        hub,
        &journal.entries[..performed],
        &journal.entries[performed..],
    )?;
    Ok(DrivenRun {
        journal,
        status: reporter.status(RunStop::OutFault),
        moments,
    })
}
