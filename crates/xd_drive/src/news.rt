// One piece of news.
ghost use Rattle.std.specs.Prelude.{◌≡◌, ◌≤◌, ℕ, List, [], ◌∷◌, ◌++◌, length, take, true, false, Ok, IfOk, OnOk};
ghost use Rattle.xd_edge.specs.Faults.{Counted};
ghost use Rattle.xd_journal.specs.declared.news.News.{News};
ghost use Rattle.xd_run.specs.Proper.{IsProper};
ghost use Rattle.xd_run.specs.State.{after_entries, no_one};
ghost use Rattle.xd_run.specs.Workers.{is_active};
ghost use Rattle.xd_report.specs.Follows.{Follows};
ghost use Rattle.xd_report.specs.Lines.{lines_between, lines_from};
ghost use Rattle.xd_session.specs.Stands.{StandsForNews, state_of};
ghost use Rattle.xd_drive.specs.Agrees.{Agrees};
ghost use Rattle.xd_drive.specs.Going.{TakesNews, TellsEntries, added_by};
ghost use Rattle.xd_drive.specs.Moments.{turns_of};
ghost use Rattle.xd_drive.specs.Performing.{all_possible, entries_between};
ghost use Rattle.xd_drive.specs.Seen.{scene_of};
ghost use Rattle.xd_drive.specs.inner.Written.{is_whole};

use crate::perform::perform;
use crate::printing::print_between;
use crate::{Hub, Written};
use std::alloc::Global;
use std::sync::Wait;
use xd_edge::{OutOfMemory, Sink};
use xd_journal::{Journal, News};
use xd_ledger::Mode;
use xd_report::Reporter;
use xd_session::Session;
use xd_trace::Moments;

// Prints the lines of the entries from one place up to another, looks at the hub and the output, and performs the entries;
// false where the output failed, and then nothing is performed.
fn tell_entries<H: Hub, O: Sink>(
    alloc: Global,
    reporter: &mut Reporter,
    journal: &Journal,
    from: usize,
    to: usize,
    hub: &mut H,
    out: &mut O,
    moments: &mut Moments<H::Kept, O>,
) -> Result<bool, OutOfMemory>
    requires order { from ≤ to }
    requires within { to ≤ length journal.now.entries.items }
    requires follows { Follows reporter.old
        (after_entries (no_one journal.now.settings) (take from journal.now.entries.items)) }
    requires possible { all_possible (H.slots (H.made hub.old)) (H.marks hub.old)
        (entries_between from to journal.now.entries.items) ≡ true }
    ensures tells { IfOk result (λ shown.
        TellsEntries shown (entries_between from to journal.now.entries.items)
        (lines_between journal.now from to)
        (scene_of H.marks H.seen O.sunk hub.old out.old)
        (scene_of H.marks H.seen O.sunk hub.new out.new)
        (turns_of H.tells O.sunk moments.old)
        (turns_of H.tells O.sunk moments.new)) }
    ensures follows { OnOk result
        (Follows reporter.new (after_entries (no_one journal.now.settings)
        (take to journal.now.entries.items))) }
    ensures made { H.made hub.new ≡ H.made hub.old }
    ensures later { O.faults out.old ≤ O.faults out.new }
    ensures counted { IfOk result (λ shown. Counted shown (O.faults out.old) (O.faults out.new)) }
{
    let shown = print_between(alloc, reporter, journal, from, to, out)?;
    if !shown {
        return Ok(false);
    }
    moments.look(hub.kept(), out);
    perform(alloc, hub, &journal.entries[from..to])?;
    Ok(true)
}

/// How many entries the journal has.
pub(crate) fn entry_count(journal: &Journal) -> usize
    ensures { result ≡ length journal.now.entries.items }
{
    journal.entries.len()
}

// Takes a piece of news of an active worker, prints the lines of what it adds to the journal, and performs that; false
// where the output failed, and then nothing is performed.
fn tell_news<M: Mode, H: Hub, O: Sink>(
    alloc: Global,
    session: &mut Session<M>,
    reporter: &mut Reporter,
    news: News,
    hub: &mut H,
    out: &mut O,
    moments: &mut Moments<H::Kept, O>,
) -> Result<bool, OutOfMemory>
    requires stands { (taken : List News) × StandsForNews taken session.old }
    requires follows { Follows reporter.old
        (after_entries (no_one session.old.settings) session.old.entries) }
    requires active { is_active news.worker (state_of session.old).books ≡ true }
    requires possible { (taken : List News) → StandsForNews taken session.old →
        all_possible (H.slots (H.made hub.old)) (H.marks hub.old)
        (added_by session.old.settings taken news) ≡ true }
    ensures stands { OnOk result ((taken : List News) → StandsForNews taken session.old →
        StandsForNews (taken ++ news ∷ []) session.new) }
    ensures settings { session.new.settings ≡ session.old.settings }
    ensures tells { IfOk result (λ shown. (taken : List News) → StandsForNews taken session.old →
        TellsEntries shown (added_by session.old.settings taken news)
        (lines_from (after_entries (no_one session.old.settings) session.old.entries)
        (added_by session.old.settings taken news))
        (scene_of H.marks H.seen O.sunk hub.old out.old)
        (scene_of H.marks H.seen O.sunk hub.new out.new)
        (turns_of H.tells O.sunk moments.old)
        (turns_of H.tells O.sunk moments.new)) }
    ensures follows { OnOk result
        (Follows reporter.new (after_entries (no_one session.new.settings) session.new.entries)) }
    ensures made { H.made hub.new ≡ H.made hub.old }
    ensures later { O.faults out.old ≤ O.faults out.new }
    ensures counted { IfOk result (λ shown. Counted shown (O.faults out.old) (O.faults out.new)) }
{
    let step = session.step(alloc, news)?;
    let shown = tell_entries(
        alloc,
        reporter,
        session.journal(),
        step.from,
        step.to,
        hub,
        out,
        moments,
    )?;
    Ok(shown)
}

/// Takes the next piece of news, where its worker is active: prints the lines of what it adds to the journal, and
/// performs the outputs. Where the output failed nothing of it is performed.
pub(crate) fn take_news<R: Wait, M: Mode, H: Hub, O: Sink>(
    rt: &R,
    alloc: Global,
    session: &mut Session<M>,
    reporter: &mut Reporter,
    hub: &mut H,
    out: &mut O,
    moments: &mut Moments<H::Kept, O>,
) -> Result<Written, OutOfMemory>
    requires proper { IsProper session.old.settings [] }
    requires stands { (taken : List News) × StandsForNews taken session.old }
    requires follows { Follows reporter.old
        (after_entries (no_one session.old.settings) session.old.entries) }
    requires slots { session.old.settings.workers ≤ H.slots (H.made hub.old) }
    requires agrees { Agrees (state_of session.old).books (H.marks hub.old) }
    requires someone { (w : ℕ) × ((H.marks hub.old w).started ≡ true) }
    ensures takes { IfOk result (λ written. (n : News) × TakesNews n written session.old session.new
        (scene_of H.marks H.seen O.sunk hub.old out.old)
        (scene_of H.marks H.seen O.sunk hub.new out.new)
        (turns_of H.tells O.sunk moments.old)
        (turns_of H.tells O.sunk moments.new)) }
    ensures follows { OnOk result
        (Follows reporter.new (after_entries (no_one session.new.settings) session.new.entries)) }
    ensures made { H.made hub.new ≡ H.made hub.old }
    ensures later { O.faults out.old ≤ O.faults out.new }
    ensures counted { IfOk result (λ written.
        Counted (is_whole written) (O.faults out.old) (O.faults out.new)) }
{
    let news = hub.next(rt, alloc)?;
    if !session.is_active(news.worker) {
        moments.look(hub.kept(), out);
        return Ok(Written::Whole);
    }
    let performed = entry_count(session.journal());
    let shown = tell_news(alloc, session, reporter, news, hub, out, moments)?;
    if shown {
        Ok(Written::Whole)
    } else {
        Ok(Written::Broken { performed })
    }
}
