// The rules of the session: what each input changes, and what is said after it. That of a collection stands in
// `collecting`, those of the tests that a worker holds in `held`, those of a worker that is lost in `losses`.
ghost use Rattle.std.specs.Prelude.{◌≡◌, true, [], OnOk, if◌then◌else◌};
ghost use Rattle.xd_journal.specs.declared.entry.Entry.TheVariants as entry;
ghost use Rattle.xd_run.specs.Outputs.{shut_all};
ghost use Rattle.xd_run.specs.Sharing.{State};
ghost use Rattle.xd_run.specs.State.{settles};
ghost use Rattle.xd_run.specs.Stops.{is_stopped};
ghost use Rattle.xd_run.specs.Table.{held};
ghost use Rattle.xd_session_books.specs.Books.{books_of};
ghost use Rattle.xd_session_books.specs.Known.{known_by, known_plan};
ghost use Rattle.xd_session_rules.specs.Rules.{Acted, At, DidClosing, Ruled};

use crate::outputs::{note, shut_everyone, tell_where_shutting};
use crate::state::RunState;
use std::alloc::Global;
use xd_edge::{OutOfMemory, Text};
use xd_journal::{Entry, RunStop};
use xd_ledger::Mode;
use xd_run::Mark;

impl<M: Mode> RunState<M> {
    // Nothing is left to hand out.
    fn settles(&self) -> bool
        ensures { (s : State) → At s (books_of self.now.books) (known_by self.now.known)
            (M.stands self.now.mode) → result ≡ settles s }
    {
        if self.books.kept.is_stopped() {
            return false;
        }
        self.books.kept.is_shared() && self.mode.finished(&self.books.ledger)
    }

    /// After each rule: where nothing is left to hand out, all are shut.
    pub fn finish(&mut self, alloc: Global, entries: &mut Vec<Entry>) -> Result<(), OutOfMemory>
        ensures { OnOk result ((s : State) →
            At s (books_of self.old.books) (known_by self.old.known) (M.stands self.old.mode) →
            DidClosing s (books_of self.new.books)
            (known_by self.new.known) entries.old.items entries.new.items
            (M.stands self.new.mode)) }
    {
        if !self.settles() {
            return Ok(());
        }
        if self.books.kept.is_shutting() {
            return Ok(());
        }
        shut_everyone(alloc, &mut self.books, entries)?;
        self.books.shut();
        Ok(())
    }

    /// What a stop brings: nothing after an earlier one, else all are shut.
    pub fn stop_outputs(
        &mut self,
        alloc: Global,
        before: bool,
        entries: &mut Vec<Entry>,
    ) -> Result<(), OutOfMemory>
        requires { is_stopped (books_of self.old.books) ≡ true }
        ensures { OnOk result ((s : State) → books_of self.old.books ≡ s.books →
            known_by self.old.known ≡ known_plan s.plan →
            Acted (if before then [] else shut_all s.books.members) s (books_of self.new.books)
            (known_by self.new.known) entries.old.items entries.new.items
            (M.stands self.new.mode)) }
    {
        if before {
            return Ok(());
        }
        shut_everyone(alloc, &mut self.books, entries)?;
        Ok(())
    }

    /// A worker is there; where the run is shutting it is shut.
    pub fn ready(
        &mut self,
        alloc: Global,
        worker: u32,
        entries: &mut Vec<Entry>,
    ) -> Result<(), OutOfMemory>
        ensures { OnOk result ((s : State) →
            At s (books_of self.old.books) (known_by self.old.known) (M.stands self.old.mode) →
            Ruled s (entry.Ready worker) (books_of self.new.books)
            (known_by self.new.known) entries.old.items entries.new.items
            (M.stands self.new.mode)) }
    {
        note(Entry::Ready { worker }, entries)?;
        self.books.mark(worker, Mark::Ready);
        tell_where_shutting(worker, &mut self.books, entries)?;
        self.finish(alloc, entries)?;
        Ok(())
    }

    /// A worker ran all that it was told to run. It holds nothing.
    pub fn finished(
        &mut self,
        alloc: Global,
        worker: u32,
        entries: &mut Vec<Entry>,
    ) -> Result<(), OutOfMemory>
        requires { held worker self.old.books.ledger ≡ [] }
        ensures { OnOk result ((s : State) →
            At s (books_of self.old.books) (known_by self.old.known) (M.stands self.old.mode) →
            Ruled s (entry.Finished worker) (books_of self.new.books)
            (known_by self.new.known) entries.old.items entries.new.items
            (M.stands self.new.mode)) }
    {
        note(Entry::Finished { worker }, entries)?;
        self.books.leave(worker);
        self.books.mark(worker, Mark::Gone);
        self.finish(alloc, entries)?;
        Ok(())
    }

    /// A worker could not collect.
    pub fn refused(
        &mut self,
        alloc: Global,
        worker: u32,
        text: Text,
        entries: &mut Vec<Entry>,
    ) -> Result<(), OutOfMemory>
        ensures { OnOk result ((s : State) →
            At s (books_of self.old.books) (known_by self.old.known) (M.stands self.old.mode) →
            Ruled s (entry.Refused worker text) (books_of self.new.books)
            (known_by self.new.known) entries.old.items entries.new.items
            (M.stands self.new.mode)) }
    {
        let before = self.books.kept.is_stopped();
        note(Entry::Refused { worker, text }, entries)?;
        self.books.mark(worker, Mark::Gone);
        self.books.stop_by(RunStop::CollectError { worker });
        self.stop_outputs(alloc, before, entries)?;
        self.finish(alloc, entries)?;
        Ok(())
    }
}
