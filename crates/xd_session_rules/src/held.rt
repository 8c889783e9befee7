// What a worker tells of the tests that it holds: the first one ended, or the last ones come back.
ghost use Rattle.std.specs.Prelude.{◌≡◌, ◌+◌, ◌^◌, nat_lt, map, ℕ, true, false, [], IfOk, OnOk, if◌then◌else◌, is_some, Some, None};
ghost use Rattle.std.specs.List.{list_all};
ghost use Rattle.xd_journal.specs.declared.entry.Entry.TheVariants as entry;
ghost use Rattle.xd_run.specs.Modes.ModeCall.{TestDone, TestsBack};
ghost use Rattle.xd_run.specs.Numbers.{first_of};
ghost use Rattle.xd_run.specs.Outputs.{acts_of, shut_all};
ghost use Rattle.xd_run.specs.Proper.{names_head};
ghost use Rattle.xd_run.specs.Sharing.{State};
ghost use Rattle.xd_run.specs.Stops.{is_stopped};
ghost use Rattle.xd_run.specs.Table.{held, in_rota};
ghost use Rattle.xd_run.specs.Workers.{slot_of};
ghost use Rattle.xd_run_laws.specs.Called.{Called};
ghost use Rattle.xd_session_books.specs.Books.{books_of};
ghost use Rattle.xd_session_books.specs.Known.{first_item, known_by, known_plan, where_is};
ghost use Rattle.xd_session_rules.specs.Rules.{Acted, At, Before, Calls, Comes, Ruled};

use crate::outputs::note;
use crate::state::RunState;
use std::alloc::Global;
use xd_edge::{Blob, Indices, OutOfMemory};
use xd_journal::{Entry, Outcome};
use xd_ledger::Mode;
use xd_session_books::named;

impl<M: Mode> RunState<M> {
    /// The item at the worker's head, where the worker's number for a test names it.
    pub fn head_named(&self, worker: u32, index: u32) -> Option<u32>
        ensures seated { (item : ℕ) → result ≡ Some item →
            in_rota worker self.now.books.ledger ≡ true }
        ensures only { (s : State) → books_of self.now.books ≡ s.books →
            known_by self.now.known ≡ known_plan s.plan →
            is_some result ≡ names_head worker index s }
        ensures named { result ≡ where_is
            (first_item (slot_of worker (books_of self.now.books))
            (known_by self.now.known) + index) (first_of (held worker self.now.books.ledger)) }
    {
        if !self.books.ledger.in_rota(worker) {
            return None;
        }
        let first = self.known.first_item(self.books.kept.slot_of(worker));
        named(first, index, self.books.ledger.head(worker))
    }

    // What a Done brings: nothing after a stop, at a stop all are shut, else what the mode says.
    fn done_outputs(
        &mut self,
        alloc: Global,
        before: bool,
        worker: u32,
        item: u32,
        ms: u64,
        entries: &mut Vec<Entry>,
    ) -> Result<(), OutOfMemory>
        requires late { before ≡ true → is_stopped (books_of self.old.books) ≡ true }
        requires seated { in_rota worker self.old.books.ledger ≡ true }
        requires at { is_stopped (books_of self.old.books) ≡ false →
            (s : State) × Calls (TestDone worker ms) s (books_of self.old.books)
            (known_by self.old.known) (M.stands self.old.mode) }
        ensures { OnOk result ((s : State) →
            At s (books_of self.old.books) (known_by self.old.known) (M.stands self.old.mode) →
            (is_stopped s.books ≡ false → Called (TestDone worker ms) s) →
            Acted (if before then [] else if is_stopped s.books then shut_all s.books.members
            else acts_of (TestDone worker ms) s) s (books_of self.new.books)
            (known_by self.new.known) entries.old.items entries.new.items
            (M.stands self.new.mode)) }
    {
        if self.books.kept.is_stopped() {
            self.stop_outputs(alloc, before, entries)?;
            return Ok(());
        }
        self.call_done(alloc, worker, item, ms, entries)?;
        Ok(())
    }

    /// The test at a worker's head ended.
    pub fn done(
        &mut self,
        alloc: Global,
        worker: u32,
        index: u32,
        outcome: Outcome,
        ms: u64,
        output: Blob,
        entries: &mut Vec<Entry>,
    ) -> Result<(), OutOfMemory>
        requires { (s : State) × Comes (entry.Done worker index outcome ms output) s
            (books_of self.old.books) (known_by self.old.known) (M.stands self.old.mode) }
        ensures { OnOk result ((s : State) →
            Comes (entry.Done worker index outcome ms output) s (books_of self.old.books)
            (known_by self.old.known) (M.stands self.old.mode) →
            Ruled s (entry.Done worker index outcome ms output) (books_of self.new.books)
            (known_by self.new.known) entries.old.items entries.new.items
            (M.stands self.new.mode)) }
    {
        let before = self.books.kept.is_stopped();
        let Some(item) = self.head_named(worker, index) else {
            return Ok(());
        };
        note(
            Entry::Done {
                worker,
                index,
                outcome,
                ms,
                output,
            },
            entries,
        )?;
        self.books.score(worker, item, outcome)?;
        self.done_outputs(alloc, before, worker, item, ms, entries)?;
        self.finish(alloc, entries)?;
        Ok(())
    }

    // The items that the worker's numbers name.
    fn items_of(&self, alloc: Global, worker: u32, indices: &[u32]) -> Result<Indices, OutOfMemory>
        requires { list_all (λ i. nat_lt
            (first_item (slot_of worker (books_of self.now.books)) (known_by self.now.known) + i)
            (2 ^ 32)) indices.now ≡ true }
        ensures { IfOk result (λ items.
            items ≡ map (λ i. first_item (slot_of worker (books_of self.now.books))
            (known_by self.now.known) + i) indices.now) }
    {
        let first = self.known.first_item(self.books.kept.slot_of(worker));
        let mut items = Vec::new(alloc);
        for i in 0..indices.len() {
            items.push(first + indices[i])?;
        }
        Ok(Indices { items })
    }

    // What an answer to a steal brings: nothing after a stop, else what the mode says.
    fn back_outputs(
        &mut self,
        alloc: Global,
        worker: u32,
        entries: &mut Vec<Entry>,
    ) -> Result<(), OutOfMemory>
        requires { is_stopped (books_of self.old.books) ≡ false →
            (s : State) × Calls TestsBack s (books_of self.old.books) (known_by self.old.known)
            (Before (λ p. record p { steal = None }) (M.stands self.old.mode)) }
        ensures { OnOk result ((s : State) →
            At s (books_of self.old.books) (known_by self.old.known)
            (Before (λ p. record p { steal = None }) (M.stands self.old.mode)) →
            (is_stopped s.books ≡ false → Called TestsBack s) →
            Acted (if is_stopped s.books then [] else acts_of TestsBack s) s
            (books_of self.new.books)
            (known_by self.new.known) entries.old.items entries.new.items
            (M.stands self.new.mode)) }
    {
        if self.books.kept.is_stopped() {
            return Ok(());
        }
        self.call_back(alloc, worker, entries)?;
        Ok(())
    }

    /// The worker answered its steal: what it gives goes to the pool's end.
    pub fn back(
        &mut self,
        alloc: Global,
        worker: u32,
        indices: Indices,
        entries: &mut Vec<Entry>,
    ) -> Result<(), OutOfMemory>
        requires { (s : State) × Comes (entry.Back worker indices) s (books_of self.old.books)
            (known_by self.old.known) (M.stands self.old.mode) }
        ensures { OnOk result ((s : State) →
            Comes (entry.Back worker indices) s (books_of self.old.books) (known_by self.old.known)
            (M.stands self.old.mode) →
            Ruled s (entry.Back worker indices) (books_of self.new.books)
            (known_by self.new.known) entries.old.items entries.new.items
            (M.stands self.new.mode)) }
    {
        let items = self.items_of(alloc, worker, &indices.items)?;
        note(Entry::Back { worker, indices }, entries)?;
        self.books.give_back(worker, &items.items)?;
        self.known.steal = None;
        self.back_outputs(alloc, worker, entries)?;
        self.finish(alloc, entries)?;
        Ok(())
    }
}
