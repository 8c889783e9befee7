// What the session makes of a piece of news: its input follows, nothing does, or it is a breach.
ghost use Rattle.std.specs.Prelude.{◌≡◌, ◌+◌, ◌==◌, ◌&&◌, not, true, false, IfOk, Some, is_some};
ghost use Rattle.std.specs.List.{list_all};
ghost use Rattle.std.specs.Str.{bytes_eq};
ghost use Rattle.xd_journal.specs.declared.entry.Entry.TheVariants as entry;
ghost use Rattle.xd_run.specs.Meaning.{any_open, given_ids, is_of, may_start_log};
ghost use Rattle.xd_run.specs.Proper.{may_follow, may_give_back, names_head};
ghost use Rattle.xd_run.specs.Sharing.{State};
ghost use Rattle.xd_run.specs.Table.{held, in_rota};
ghost use Rattle.xd_run.specs.Workers.{is_active, slot_of};
ghost use Rattle.xd_run_laws.specs.Called.{Reached};
ghost use Rattle.xd_session_books.specs.Books.{books_of};
ghost use Rattle.xd_session_rules.specs.Judged.{follows_where, judged, silent_where};
ghost use Rattle.xd_session_books.specs.Kept.{log_in};
ghost use Rattle.xd_session_books.specs.Known.{first_item, is_after, known_by};
ghost use Rattle.xd_session_rules.specs.Rules.{At};

use crate::state::RunState;
use std::alloc::Global;
use xd_edge::{OutOfMemory, Texts};
use xd_journal::What;
use xd_ledger::Mode;
use xd_session_books::{Logs, are_in_order, named};

/// What is to be done with a piece of news.
#[derive(Clone, Copy)]
pub enum Verdict {
    Silent,
    Follows,
    Breach,
}

fn follows_where(fine: bool) -> Verdict
    ensures { result ≡ follows_where fine }
{
    if fine {
        return Verdict::Follows;
    }
    Verdict::Breach
}

fn silent_where(fine: bool) -> Verdict
    ensures { result ≡ silent_where fine }
{
    if fine {
        return Verdict::Silent;
    }
    Verdict::Breach
}

// The numbers are the same.
fn are_same(these: &[u32], those: &[u32]) -> bool
    ensures { result ≡ bytes_eq these.now those.now }
{
    these == those
}

impl<M: Mode> RunState<M> {
    // The worker holds the item of its slot after its head.
    #[tactic(auto, using(crate::proofs::Judging::unseated, crate::proofs::Judging::none_past))]
    fn is_after_head(&self, worker: u32, first: u32, index: u32) -> bool
        ensures { result ≡ is_after (first + index) (held worker self.now.books.ledger) }
    {
        if !self.books.ledger.in_rota(worker) {
            return false;
        }
        let Some(item) = first.checked_add(index) else {
            return false;
        };
        self.books.ledger.holds(worker, item)
            && named(first, index, self.books.ledger.head(worker)).is_none()
    }

    // The worker holds each of these tests after its head.
    fn are_after_head(&self, worker: u32, indices: &[u32]) -> bool
        ensures { result ≡ list_all
            (λ i. is_after (first_item (slot_of worker (books_of self.now.books))
            (known_by self.now.known) + i) (held worker self.now.books.ledger)) indices.now }
    {
        let first = self.known.first_item(self.books.kept.slot_of(worker));
        indices
            .iter()
            .all(|index| self.is_after_head(worker, first, *index))
    }

    // These tests answer the open steal: none, or all that were asked for, where the worker may give them.
    #[tactic(auto, using(crate::proofs::Judging::named_after))]
    fn may_give_back(&self, worker: u32, indices: &[u32]) -> bool
        ensures { (s : State) → At s (books_of self.now.books) (known_by self.now.known)
            (M.stands self.now.mode) → Reached s → result ≡ may_give_back worker indices.now s }
    {
        let Some(steal) = &self.known.steal else {
            return false;
        };
        if steal.worker != worker {
            return false;
        }
        if indices.is_empty() {
            return true;
        }
        are_same(indices, &steal.tests.items) && self.are_after_head(worker, indices)
    }

    // The log of the head may start: it is its first, and its number is even and above the earlier ones.
    fn may_start(&self, worker: u32, index: u32, number: u32, logs: &Logs) -> bool
        ensures { (s : State) → At s (books_of self.now.books) (known_by self.now.known)
            (M.stands self.now.mode) →
            result ≡ may_start_log worker index number (log_in worker logs.now) s }
    {
        self.head_named(worker, index).is_some()
            && !logs.is_of(worker, index)
            && number % 2 == 0
            && logs.number_of(worker) < number
    }

    // The test is the head, and its log is closed.
    fn may_end(&self, worker: u32, index: u32, logs: &Logs) -> bool
        ensures { (s : State) → At s (books_of self.now.books) (known_by self.now.known)
            (M.stands self.now.mode) →
            result ≡ (names_head worker index s && is_of index (log_in worker logs.now) && not
            (any_open (log_in worker logs.now))) }
    {
        self.head_named(worker, index).is_some()
            && logs.is_of(worker, index)
            && !logs.any_open(worker)
    }

    // A worker that was told to shut down, has collected and holds nothing may end.
    fn may_finish(&self, worker: u32) -> bool
        requires { is_active worker (books_of self.now.books) ≡ true }
        ensures { (s : State) → At s (books_of self.now.books) (known_by self.now.known)
            (M.stands self.now.mode) → result ≡ may_follow s (entry.Finished worker) }
    {
        self.books.kept.is_shut(worker)
            && self.books.kept.has_collected(worker)
            && self.books.is_idle(worker)
    }

    // The worker was ready, has not collected, and the collection is in order.
    #[tactic(auto, using(crate::proofs::Judging::may_collect, crate::proofs::Judging::not_ready, crate::proofs::Judging::did_collect))]
    fn may_collect(&self, alloc: Global, worker: u32, own: &Texts) -> Result<bool, OutOfMemory>
        requires { is_active worker (books_of self.now.books) ≡ true }
        ensures { IfOk result (λ b. (s : State) →
            At s (books_of self.now.books) (known_by self.now.known) (M.stands self.now.mode) →
            b ≡ may_follow s (given_ids worker own.now s)) }
    {
        if !self.books.kept.was_ready(worker) || self.books.kept.has_collected(worker) {
            return Ok(false);
        }
        let fine = are_in_order(alloc, own)?;
        Ok(fine)
    }

    /// What is to be done with the news of an active worker.
    pub fn judge(
        &self,
        alloc: Global,
        worker: u32,
        what: &What,
        logs: &Logs,
    ) -> Result<Verdict, OutOfMemory>
        requires { is_active worker (books_of self.now.books) ≡ true }
        ensures { IfOk result (λ v. (s : State) →
            At s (books_of self.now.books) (known_by self.now.known) (M.stands self.now.mode) →
            Reached s → v ≡ judged worker (log_in worker logs.now) s what.now) }
    {
        let verdict = match what {
            What::Ready | What::NotStarted => follows_where(!self.books.kept.was_ready(worker)),
            What::Collected(own) => follows_where(self.may_collect(alloc, worker, own)?),
            What::LogStart { index, log } => {
                silent_where(self.may_start(worker, *index, *log, logs))
            }
            What::Piece { log, .. } | What::LogClosed { log } => {
                silent_where(logs.is_open(worker, *log))
            }
            What::Done { index, .. } => follows_where(self.may_end(worker, *index, logs)),
            What::Back(indices) => follows_where(self.may_give_back(worker, &indices.items)),
            What::Finished => follows_where(self.may_finish(worker)),
            What::Closed(Some(_)) => follows_where(!self.books.kept.has_collected(worker)),
            What::Closed(None) | What::Stray => Verdict::Breach,
            What::Gone(_) => Verdict::Follows,
        };
        Ok(verdict)
    }
}
