// One piece of news: what follows it, and what is kept of its logs.
ghost use Rattle.std.specs.Prelude.{◌≡◌, ◌≤◌, ◌+◌, ℕ, length, take, true, false, IfOk, OnOk, Some};
ghost use Rattle.xd_journal.specs.declared.entry.Entry.TheVariants as entry;
ghost use Rattle.xd_journal.specs.declared.news.What.TheVariants as what;
ghost use Rattle.xd_journal.specs.Kept.{most_of_all, output_room};
ghost use Rattle.xd_run.specs.Meaning.{head_bytes, kept_at_death, meaning_of, output_of};
ghost use Rattle.xd_run.specs.Sharing.{State};
ghost use Rattle.xd_run.specs.Workers.{has_collected, is_active, was_ready};
ghost use Rattle.xd_session_books.specs.Books.{books_of};
ghost use Rattle.xd_session_rules.specs.Joining.{IsToJoin};
ghost use Rattle.xd_session_rules.specs.Judged.{judged};
ghost use Rattle.xd_session_books.specs.Kept.{log_in, shortened};
ghost use Rattle.xd_session_books.specs.Known.{known_by};
ghost use Rattle.xd_session_rules.specs.Rules.{At};
ghost use Rattle.xd_session.specs.inner.Told.{Steady, Told, TookNews};
ghost use Rattle.xd_session_rules.specs.declared.judge.Verdict.TheVariants.{Follows};

use std::alloc::Global;
use xd_edge::{Blob, OutOfMemory};
use xd_journal::{Cause, Entry, MOST_OF_ALL, MOST_OF_ONE, Outcome, What};
use xd_ledger::Mode;
use xd_session_books::Logs;
use xd_session_rules::{RunState, Verdict};

// What decides: the state of the run, the logs, and how many bytes the entries so far keep.
#[derive(Drop)]
pub struct Core<M: Mode> {
    pub state: RunState<M>,
    pub logs: Logs,
    pub spent: u32,
}

// The first bytes.
fn first_bytes(alloc: Global, bytes: &[u8], count: u32) -> Result<Blob, OutOfMemory>
    ensures { IfOk result (λ b. b ≡ take count bytes.now) }
{
    let count = (count as usize).min(bytes.len());
    let first = Blob::of(alloc, &bytes[..count])?;
    Ok(first)
}

impl<M: Mode> Core<M> {
    // The first bytes of the output so far of the test at the worker's head, as many as there is room for.
    fn head_output(&self, alloc: Global, worker: u32) -> Result<Blob, OutOfMemory>
        requires { self.now.spent ≤ most_of_all }
        ensures first { IfOk result (λ b. (s : State) →
            At s (books_of self.now.state.books) (known_by self.now.state.known)
            (M.stands self.now.state.mode) →
            b ≡ take (output_room self.now.spent)
            (head_bytes worker (log_in worker self.now.logs) s)) }
        ensures low { IfOk result (λ b. self.now.spent + length b ≤ most_of_all) }
    {
        let count = MOST_OF_ONE.min(MOST_OF_ALL - self.spent);
        match self.logs.index_of(worker) {
            Some(index) => {
                if self.state.head_named(worker, index).is_some() {
                    let bytes = first_bytes(alloc, self.logs.bytes_of(worker), count)?;
                    return Ok(bytes);
                }
                Ok(Blob::empty(alloc))
            }
            None => Ok(Blob::empty(alloc)),
        }
    }

    // What is kept where the worker goes down: none of a test that is tried again.
    fn kept_output(&self, alloc: Global, worker: u32) -> Result<Blob, OutOfMemory>
        requires { self.now.spent ≤ most_of_all }
        ensures kept { IfOk result (λ b. (s : State) →
            At s (books_of self.now.state.books) (known_by self.now.state.known)
            (M.stands self.now.state.mode) →
            b ≡ kept_at_death worker (log_in worker self.now.logs) self.now.spent s) }
        ensures low { IfOk result (λ b. self.now.spent + length b ≤ most_of_all) }
    {
        if self.state.books.is_retry(worker) {
            return Ok(Blob::empty(alloc));
        }
        let output = self.head_output(alloc, worker)?;
        Ok(output)
    }

    // What is kept of a test that ended: output of a failed one alone.
    fn output_of(&self, alloc: Global, worker: u32, outcome: Outcome) -> Result<Blob, OutOfMemory>
        requires { self.now.spent ≤ most_of_all }
        ensures kept { IfOk result (λ b. (s : State) →
            At s (books_of self.now.state.books) (known_by self.now.state.known)
            (M.stands self.now.state.mode) →
            b ≡ output_of worker outcome (log_in worker self.now.logs) self.now.spent s) }
        ensures low { IfOk result (λ b. self.now.spent + length b ≤ most_of_all) }
    {
        match outcome {
            Outcome::Failed(_) => {
                let output = self.head_output(alloc, worker)?;
                Ok(output)
            }
            Outcome::Passed | Outcome::Skipped => Ok(Blob::empty(alloc)),
        }
    }

    // A worker went down, with what is kept of the output so far of its head.
    fn go_down(
        &mut self,
        alloc: Global,
        worker: u32,
        cause: Cause,
        entries: &mut Vec<Entry>,
    ) -> Result<(), OutOfMemory>
        requires low { self.old.spent ≤ most_of_all }
        requires active { is_active worker (books_of self.old.state.books) ≡ true }
        requires at { (s : State)
            × Steady s (books_of self.old.state.books) (known_by self.old.state.known)
            (M.stands self.old.state.mode) }
        ensures told { OnOk result ((s : State) →
            Steady s (books_of self.old.state.books) (known_by self.old.state.known)
            (M.stands self.old.state.mode) →
            Told (Some (entry.Down worker cause
            (kept_at_death worker (log_in worker self.old.logs) self.old.spent s))) s
            entries.old.items entries.new.items self.old.spent self.new.spent
            (books_of self.new.state.books) (known_by self.new.state.known)
            (M.stands self.new.state.mode)) }
        ensures logs { self.new.logs ≡ self.old.logs }
    {
        let output = self.kept_output(alloc, worker)?;
        self.spent += output.bytes.len() as u32;
        self.state.down(alloc, worker, cause, output, entries)?;
        Ok(())
    }

    // The test at the worker's head ends.
    fn end_test(
        &mut self,
        alloc: Global,
        worker: u32,
        index: u32,
        outcome: Outcome,
        ms: u64,
        entries: &mut Vec<Entry>,
    ) -> Result<(), OutOfMemory>
        requires low { self.old.spent ≤ most_of_all }
        requires at { (s : State)
            × (Steady s (books_of self.old.state.books) (known_by self.old.state.known)
            (M.stands self.old.state.mode)
            × (judged worker (log_in worker self.old.logs) s
            (what.Done index outcome ms) ≡ Follows)) }
        requires active { is_active worker (books_of self.old.state.books) ≡ true }
        ensures told { OnOk result ((s : State) →
            Steady s (books_of self.old.state.books) (known_by self.old.state.known)
            (M.stands self.old.state.mode) →
            judged worker (log_in worker self.old.logs) s (what.Done index outcome ms) ≡ Follows →
            Told (meaning_of worker (log_in worker self.old.logs) self.old.spent s
            (what.Done index outcome ms)) s entries.old.items entries.new.items self.old.spent
            self.new.spent (books_of self.new.state.books) (known_by self.new.state.known)
            (M.stands self.new.state.mode)) }
        ensures logs { self.new.logs ≡ self.old.logs }
    {
        let output = self.output_of(alloc, worker, outcome)?;
        self.spent += output.bytes.len() as u32;
        self.state
            .done(alloc, worker, index, outcome, ms, output, entries)?;
        Ok(())
    }

    // The input of the news follows.
    fn follow(
        &mut self,
        alloc: Global,
        worker: u32,
        what: What,
        entries: &mut Vec<Entry>,
    ) -> Result<(), OutOfMemory>
        requires low { self.old.spent ≤ most_of_all }
        requires active { is_active worker (books_of self.old.state.books) ≡ true }
        requires joins { has_collected worker (books_of self.old.state.books) ≡ false →
            was_ready worker (books_of self.old.state.books) ≡ true →
            IsToJoin worker (books_of self.old.state.books) }
        requires at { (s : State)
            × (Steady s (books_of self.old.state.books) (known_by self.old.state.known)
            (M.stands self.old.state.mode)
            × (judged worker (log_in worker self.old.logs) s what ≡ Follows)) }
        ensures told { OnOk result ((s : State) →
            Steady s (books_of self.old.state.books) (known_by self.old.state.known)
            (M.stands self.old.state.mode) →
            judged worker (log_in worker self.old.logs) s what ≡ Follows →
            Told (meaning_of worker (log_in worker self.old.logs) self.old.spent s what) s
            entries.old.items entries.new.items self.old.spent self.new.spent
            (books_of self.new.state.books) (known_by self.new.state.known)
            (M.stands self.new.state.mode)) }
        ensures logs { self.new.logs ≡ self.old.logs }
    {
        match what {
            What::Ready => self.state.ready(alloc, worker, entries)?,
            What::Collected(own) => self.state.collected(alloc, worker, own, entries)?,
            What::Done { index, outcome, ms } => {
                self.end_test(alloc, worker, index, outcome, ms, entries)?
            }
            What::Back(indices) => self.state.back(alloc, worker, indices, entries)?,
            What::Finished => self.state.finished(alloc, worker, entries)?,
            What::Closed(text) => {
                if let Some(text) = text {
                    self.state.refused(alloc, worker, text, entries)?;
                }
            }
            What::Gone(cause) => self.go_down(alloc, worker, cause, entries)?,
            What::NotStarted => self.state.not_started(alloc, worker, entries)?,
            What::Piece {
                log: _,
                bytes: _bytes,
            } => {}
            What::LogStart { index: _, log: _ } => {}
            What::LogClosed { log: _ } => {}
            What::Stray => {}
        }
        Ok(())
    }

    // One piece of news of an active worker.
    pub(crate) fn take(
        &mut self,
        alloc: Global,
        worker: u32,
        what: What,
        entries: &mut Vec<Entry>,
    ) -> Result<(), OutOfMemory>
        requires low { self.old.spent ≤ most_of_all }
        requires active { is_active worker (books_of self.old.state.books) ≡ true }
        requires joins { has_collected worker (books_of self.old.state.books) ≡ false →
            was_ready worker (books_of self.old.state.books) ≡ true →
            IsToJoin worker (books_of self.old.state.books) }
        requires at { (s : State)
            × Steady s (books_of self.old.state.books) (known_by self.old.state.known)
            (M.stands self.old.state.mode) }
        ensures { OnOk result ((s : State) →
            Steady s (books_of self.old.state.books) (known_by self.old.state.known)
            (M.stands self.old.state.mode) →
            ((v : ℕ) → log_in v self.old.logs ≡ shortened (log_in v self.old.logs)) →
            TookNews worker what s self.old.logs self.new.logs entries.old.items entries.new.items
            self.old.spent self.new.spent (books_of self.new.state.books)
            (known_by self.new.state.known) (M.stands self.new.state.mode)) }
    {
        match self.state.judge(alloc, worker, &what, &self.logs)? {
            Verdict::Follows => self.follow(alloc, worker, what, entries)?,
            Verdict::Silent => self.logs.hear(alloc, worker, &what)?,
            Verdict::Breach => {
                self.go_down(alloc, worker, Cause::Breach, entries)?;
                self.logs.hear(alloc, worker, &what)?
            }
        }
        Ok(())
    }
}
