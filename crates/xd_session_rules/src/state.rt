// The state of a run as the session keeps it, and its calls of the mode.
ghost use Rattle.std.specs.Prelude.{◌≡◌, ◌++◌, None, OnOk, true};
ghost use Rattle.xd_ledger.specs.Calls.{death_plan};
ghost use Rattle.xd_run.specs.Modes.ModeCall.{Died, Joined, TestDone, TestsBack};
ghost use Rattle.xd_run.specs.Outputs.{acts_of};
ghost use Rattle.xd_run.specs.Sharing.{State};
ghost use Rattle.xd_run.specs.Table.{in_rota};
ghost use Rattle.xd_run.specs.Workers.{slot_of};
ghost use Rattle.xd_session_books.specs.Books.{books_of};
ghost use Rattle.xd_session_books.specs.Known.{known_by, steal_told};
ghost use Rattle.xd_session_rules.specs.Rules.{Acted, Before, Calls, members_told};

use crate::outputs::{follow, note_all};
use std::alloc::Global;
use xd_edge::OutOfMemory;
use xd_journal::Entry;
use xd_ledger::Mode;
use xd_session_books::{KnownPlan, RunBooks, ask};

/// The mode, the books, and what is known of the plan.
#[derive(Drop)]
pub struct RunState<M: Mode> {
    pub mode: M,
    pub books: RunBooks,
    pub known: KnownPlan,
}

/// What the mode said comes into the journal, and into what is kept of the run.
pub fn take_acts(
    alloc: Global,
    acts: &mut Vec<Entry>,
    books: &mut RunBooks,
    known: &mut KnownPlan,
    entries: &mut Vec<Entry>,
) -> Result<(), OutOfMemory>
    ensures books { OnOk result
        (books_of books.new ≡ record (books_of books.old)
        { members = members_told acts.old.items (books_of books.old).members }) }
    ensures known { OnOk result
        (known_by known.new ≡ record (known_by known.old)
        { steal = steal_told acts.old.items (known_by known.old).steal }) }
    ensures entries { OnOk result (entries.new.items ≡ entries.old.items ++ acts.old.items) }
{
    follow(acts, books);
    ask(alloc, acts, &mut known.steal)?;
    note_all(acts, entries)?;
    Ok(())
}

impl<M: Mode> RunState<M> {
    /// The mode hears of a worker that joined after the share.
    pub fn call_joined(
        &mut self,
        alloc: Global,
        worker: u32,
        entries: &mut Vec<Entry>,
    ) -> Result<(), OutOfMemory>
        requires seated { in_rota worker self.old.books.ledger ≡ true }
        requires at { (s : State)
            × Calls (Joined worker (slot_of worker s.books)) s (books_of self.old.books)
            (known_by self.old.known) (M.stands self.old.mode) }
        ensures { OnOk result ((s : State) →
            Calls (Joined worker (slot_of worker s.books)) s (books_of self.old.books)
            (known_by self.old.known) (M.stands self.old.mode) →
            Acted (acts_of (Joined worker (slot_of worker s.books)) s) s (books_of self.new.books)
            (known_by self.new.known) entries.old.items entries.new.items
            (M.stands self.new.mode)) }
    {
        let slot = self.books.kept.slot_of(worker);
        let mut acts = Vec::new(alloc);
        self.mode
            .joined(alloc, worker, slot, &mut self.books.ledger, &mut acts)?;
        take_acts(alloc, &mut acts, &mut self.books, &mut self.known, entries)?;
        Ok(())
    }

    /// The mode hears that a test ended.
    pub fn call_done(
        &mut self,
        alloc: Global,
        worker: u32,
        item: u32,
        ms: u64,
        entries: &mut Vec<Entry>,
    ) -> Result<(), OutOfMemory>
        requires seated { in_rota worker self.old.books.ledger ≡ true }
        requires at { (s : State)
            × Calls (TestDone worker ms) s (books_of self.old.books) (known_by self.old.known)
            (M.stands self.old.mode) }
        ensures { OnOk result ((s : State) →
            Calls (TestDone worker ms) s (books_of self.old.books) (known_by self.old.known)
            (M.stands self.old.mode) →
            Acted (acts_of (TestDone worker ms) s) s (books_of self.new.books)
            (known_by self.new.known) entries.old.items entries.new.items
            (M.stands self.new.mode)) }
    {
        let mut acts = Vec::new(alloc);
        self.mode
            .done(alloc, worker, item, ms, &mut self.books.ledger, &mut acts)?;
        take_acts(alloc, &mut acts, &mut self.books, &mut self.known, entries)?;
        Ok(())
    }

    /// The mode hears that the worker answered its steal.
    pub fn call_back(
        &mut self,
        alloc: Global,
        worker: u32,
        entries: &mut Vec<Entry>,
    ) -> Result<(), OutOfMemory>
        requires { (s : State) × Calls TestsBack s (books_of self.old.books)
            (known_by self.old.known)
            (Before (λ p. record p { steal = None }) (M.stands self.old.mode)) }
        ensures { OnOk result ((s : State) →
            Calls TestsBack s (books_of self.old.books) (known_by self.old.known)
            (Before (λ p. record p { steal = None }) (M.stands self.old.mode)) →
            Acted (acts_of TestsBack s) s (books_of self.new.books)
            (known_by self.new.known) entries.old.items entries.new.items
            (M.stands self.new.mode)) }
    {
        let mut acts = Vec::new(alloc);
        self.mode
            .back(alloc, worker, &mut self.books.ledger, &mut acts)?;
        take_acts(alloc, &mut acts, &mut self.books, &mut self.known, entries)?;
        Ok(())
    }

    /// The mode hears of a death after the share. The last items of the pool are those that the worker held after its head,
    /// which is the first one where it was retried.
    pub fn call_died(
        &mut self,
        alloc: Global,
        worker: u32,
        slot: u32,
        rest: u32,
        retried: bool,
        entries: &mut Vec<Entry>,
    ) -> Result<(), OutOfMemory>
        requires { (s : State) × Calls Died s (books_of self.old.books) (known_by self.old.known)
            (Before (death_plan worker retried rest self.old.books.ledger.pool)
            (M.stands self.old.mode)) }
        ensures { OnOk result ((s : State) →
            Calls Died s (books_of self.old.books) (known_by self.old.known)
            (Before (death_plan worker retried rest self.old.books.ledger.pool)
            (M.stands self.old.mode)) →
            Acted (acts_of Died s) s (books_of self.new.books)
            (known_by self.new.known) entries.old.items entries.new.items
            (M.stands self.new.mode)) }
    {
        let mut acts = Vec::new(alloc);
        self.mode.died(
            alloc,
            worker,
            slot,
            rest,
            retried,
            &mut self.books.ledger,
            &mut acts,
        )?;
        take_acts(alloc, &mut acts, &mut self.books, &mut self.known, entries)?;
        Ok(())
    }
}
