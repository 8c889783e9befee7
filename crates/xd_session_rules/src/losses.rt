// A worker is lost: it went down, or could not be started.
ghost use Rattle.std.specs.Prelude.{◌≡◌, true, false, [], OnOk, if◌then◌else◌};
ghost use Rattle.xd_journal.specs.declared.entry.Entry.TheVariants as entry;
ghost use Rattle.xd_ledger.specs.Calls.{death_plan};
ghost use Rattle.xd_run.specs.Modes.ModeCall.{Died};
ghost use Rattle.xd_run.specs.Outputs.{acts_of, outputs_of_death, shut_all};
ghost use Rattle.xd_run.specs.Sharing.{State};
ghost use Rattle.xd_run.specs.Stops.{is_stopped};
ghost use Rattle.xd_session_books.specs.Books.{books_of};
ghost use Rattle.xd_session_books.specs.Known.{known_by};
ghost use Rattle.xd_session_rules.specs.Rules.{Acted, At, Before, Calls, Comes, MayDie, Ruled};

use crate::outputs::note;
use crate::state::RunState;
use std::alloc::Global;
use xd_edge::{Blob, OutOfMemory};
use xd_journal::{Cause, Entry};
use xd_ledger::Mode;

impl<M: Mode> RunState<M> {
    // The mode's part of a death, where the tests are shared.
    fn hear_of_death(
        &mut self,
        alloc: Global,
        worker: u32,
        slot: u32,
        rest: u32,
        retried: bool,
        entries: &mut Vec<Entry>,
    ) -> Result<(), OutOfMemory>
        requires { (books_of self.old.books).shared ≡ true →
            (s : State) × Calls Died s (books_of self.old.books) (known_by self.old.known)
            (Before (death_plan worker retried rest self.old.books.ledger.pool)
            (M.stands self.old.mode)) }
        ensures { OnOk result ((s : State) →
            At s (books_of self.old.books) (known_by self.old.known)
            (Before (death_plan worker retried rest self.old.books.ledger.pool)
            (M.stands self.old.mode)) → MayDie s (M.stands self.old.mode) →
            Acted (if s.books.shared then acts_of Died s else []) s (books_of self.new.books)
            (known_by self.new.known) entries.old.items entries.new.items
            (M.stands self.new.mode)) }
    {
        if !self.books.kept.is_shared() {
            return Ok(());
        }
        self.call_died(alloc, worker, slot, rest, retried, entries)?;
        Ok(())
    }

    // What a death brings where the run goes on: the mode's part, and a new worker at the same slot.
    fn restart(
        &mut self,
        alloc: Global,
        worker: u32,
        rest: u32,
        retried: bool,
        entries: &mut Vec<Entry>,
    ) -> Result<(), OutOfMemory>
        requires { (books_of self.old.books).shared ≡ true →
            (s : State) × Calls Died s (books_of self.old.books) (known_by self.old.known)
            (Before (death_plan worker retried rest self.old.books.ledger.pool)
            (M.stands self.old.mode)) }
        ensures { OnOk result ((s : State) →
            At s (books_of self.old.books) (known_by self.old.known)
            (Before (death_plan worker retried rest self.old.books.ledger.pool)
            (M.stands self.old.mode)) → MayDie s (M.stands self.old.mode) →
            Acted (outputs_of_death worker s) s (books_of self.new.books)
            (known_by self.new.known) entries.old.items entries.new.items
            (M.stands self.new.mode)) }
    {
        let slot = self.books.kept.slot_of(worker);
        let number = self.books.next_worker()?;
        self.hear_of_death(alloc, worker, slot, rest, retried, entries)?;
        self.books.start(number, slot)?;
        note(
            Entry::Start {
                worker: number,
                slot,
            },
            entries,
        )?;
        Ok(())
    }

    // What a death brings.
    fn death_outputs(
        &mut self,
        alloc: Global,
        before: bool,
        worker: u32,
        rest: u32,
        retried: bool,
        entries: &mut Vec<Entry>,
    ) -> Result<(), OutOfMemory>
        requires late { before ≡ true → is_stopped (books_of self.old.books) ≡ true }
        requires at { is_stopped (books_of self.old.books) ≡ false →
            (books_of self.old.books).shared ≡ true →
            (s : State) × Calls Died s (books_of self.old.books) (known_by self.old.known)
            (Before (death_plan worker retried rest self.old.books.ledger.pool)
            (M.stands self.old.mode)) }
        ensures { OnOk result ((s : State) →
            At s (books_of self.old.books) (known_by self.old.known)
            (Before (death_plan worker retried rest self.old.books.ledger.pool)
            (M.stands self.old.mode)) →
            (is_stopped s.books ≡ false → MayDie s (M.stands self.old.mode)) →
            Acted (if before then [] else if is_stopped s.books then shut_all s.books.members
            else outputs_of_death worker s) s (books_of self.new.books)
            (known_by self.new.known) entries.old.items entries.new.items
            (M.stands self.new.mode)) }
    {
        if self.books.kept.is_stopped() {
            self.stop_outputs(alloc, before, entries)?;
            return Ok(());
        }
        self.restart(alloc, worker, rest, retried, entries)?;
        Ok(())
    }

    /// A worker went down: it is killed, its head is reported, or goes to the pool's front where it is tried again, and
    /// what it held after it goes to the pool's end.
    pub fn down(
        &mut self,
        alloc: Global,
        worker: u32,
        cause: Cause,
        output: Blob,
        entries: &mut Vec<Entry>,
    ) -> Result<(), OutOfMemory>
        requires { (s : State) × Comes (entry.Down worker cause output) s (books_of self.old.books)
            (known_by self.old.known) (M.stands self.old.mode) }
        ensures { OnOk result ((s : State) →
            Comes (entry.Down worker cause output) s (books_of self.old.books)
            (known_by self.old.known) (M.stands self.old.mode) →
            Ruled s (entry.Down worker cause output) (books_of self.new.books)
            (known_by self.new.known) entries.old.items entries.new.items
            (M.stands self.new.mode)) }
    {
        let before = self.books.kept.is_stopped();
        let retried = self.books.is_retry(worker);
        note(
            Entry::Down {
                worker,
                cause,
                output,
            },
            entries,
        )?;
        let rest = self.books.bury(worker, retried)?;
        self.known.forget_steal_of(worker);
        note(Entry::Kill { worker }, entries)?;
        self.death_outputs(alloc, before, worker, rest, retried, entries)?;
        self.finish(alloc, entries)?;
        Ok(())
    }

    /// A worker could not be started.
    pub fn not_started(
        &mut self,
        alloc: Global,
        worker: u32,
        entries: &mut Vec<Entry>,
    ) -> Result<(), OutOfMemory>
        requires { (s : State) × Comes (entry.NotStarted worker) s (books_of self.old.books)
            (known_by self.old.known) (M.stands self.old.mode) }
        ensures { OnOk result ((s : State) →
            Comes (entry.NotStarted worker) s (books_of self.old.books) (known_by self.old.known)
            (M.stands self.old.mode) →
            Ruled s (entry.NotStarted worker) (books_of self.new.books)
            (known_by self.new.known) entries.old.items entries.new.items
            (M.stands self.new.mode)) }
    {
        let before = self.books.kept.is_stopped();
        let retried = self.books.is_retry(worker);
        note(Entry::NotStarted { worker }, entries)?;
        let rest = self.books.bury(worker, retried)?;
        self.known.forget_steal_of(worker);
        self.death_outputs(alloc, before, worker, rest, retried, entries)?;
        self.finish(alloc, entries)?;
        Ok(())
    }
}
