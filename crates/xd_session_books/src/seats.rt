// The rota of a run: who holds which tests.
ghost use Rattle.std.specs.Prelude.{◌≡◌, ◌==◌, Some, None, true, [], ◌∷◌, length, drop, OnOk, IfOk};
ghost use Rattle.xd_run.specs.Books.{on_table};
ghost use Rattle.xd_run.specs.Numbers.{all_among, all_distinct, first_of};
ghost use Rattle.xd_run.specs.Retry.{is_retry};
ghost use Rattle.xd_run.specs.Deaths.{down_books};
ghost use Rattle.xd_run.specs.Results.{done_books};
ghost use Rattle.xd_run.specs.Table.{held, in_rota, left_rota, died, given_back};
ghost use Rattle.xd_session_books.specs.Books.{books_of};

use crate::run_books::RunBooks;
use xd_edge::OutOfMemory;
use xd_journal::Outcome;
use xd_ledger::{Death, Ledger};

// The worker leaves the rota, where it is there. It holds nothing.
fn leave_seat(ledger: &mut Ledger, worker: u32)
    requires { held worker ledger.old ≡ [] }
    ensures { ledger.new ≡ left_rota worker ledger.old }
{
    if ledger.in_rota(worker) {
        ledger.leave(worker);
    }
}

// What a worker held goes, as at the death of one of the rota.
fn die_where(ledger: &mut Ledger, worker: u32, retry: bool) -> Death
    ensures moved { ledger.new ≡ died worker retry ledger.old }
    ensures head { result.head ≡ first_of (held worker ledger.old) }
    ensures rest { result.rest ≡ length (drop 1 (held worker ledger.old)) }
{
    if !ledger.in_rota(worker) {
        return Death {
            head: None,
            rest: 0,
        };
    }
    ledger.die(worker, retry)
}

// These items go from the worker to the end of the pool, where there are any.
fn give_where(ledger: &mut Ledger, worker: u32, items: &[u32]) -> Result<(), OutOfMemory>
    requires distinct { all_distinct items.now ≡ true }
    requires holds { all_among items.now (held worker ledger.old) ≡ true }
    ensures { OnOk result (ledger.new ≡ given_back worker items.now ledger.old) }
{
    if items.is_empty() {
        return Ok(());
    }
    ledger.give_back(worker, items)?;
    Ok(())
}

// What the worker runs first, where it holds any.
fn head_of(ledger: &Ledger, worker: u32) -> Option<u32>
    ensures { result ≡ first_of (held worker ledger.now) }
{
    if !ledger.in_rota(worker) {
        return None;
    }
    ledger.head(worker)
}

// The same item, as the books count it.
fn widened(item: Option<u32>) -> Option<u64>
    ensures { result ≡ item }
{
    match item {
        Some(item) => Some(item as u64),
        None => None,
    }
}

impl RunBooks {
    /// The worker leaves the rota, where it is there. It holds nothing.
    pub fn leave(&mut self, worker: u32)
        requires { held worker self.old.ledger ≡ [] }
        ensures { books_of self.new ≡ on_table (left_rota worker) (books_of self.old) }
    {
        leave_seat(&mut self.ledger, worker);
    }

    /// The worker gives these tests back.
    pub fn give_back(&mut self, worker: u32, items: &[u32]) -> Result<(), OutOfMemory>
        requires distinct { all_distinct items.now ≡ true }
        requires holds { all_among items.now (held worker self.old.ledger) ≡ true }
        ensures { OnOk result (books_of self.new ≡ on_table (given_back worker items.now)
            (books_of self.old)) }
    {
        give_where(&mut self.ledger, worker, items)?;
        Ok(())
    }

    /// The worker holds no test.
    pub fn is_idle(&self, worker: u32) -> bool
        ensures { result ≡ (length (held worker self.now.ledger) == 0) }
    {
        if !self.ledger.in_rota(worker) {
            return true;
        }
        self.ledger.held_len(worker) == 0
    }

    /// The test at the worker's head ended.
    pub fn score(&mut self, worker: u32, item: u32, outcome: Outcome) -> Result<(), OutOfMemory>
        requires seated { in_rota worker self.old.ledger ≡ true }
        requires head { first_of (held worker self.old.ledger) ≡ Some item }
        ensures done { OnOk result
            (books_of self.new ≡ done_books worker (item ∷ []) outcome (books_of self.old)) }
        ensures seated { OnOk result (in_rota worker self.new.ledger ≡ true) }
    {
        self.ledger.complete(worker, item);
        self.kept.score(outcome)?;
        Ok(())
    }

    /// Where the worker goes down now, the test at its head is tried again.
    pub fn is_retry(&self, worker: u32) -> bool
        ensures { result ≡ is_retry worker (books_of self.now) }
    {
        let head = head_of(&self.ledger, worker);
        self.kept.retries_head(widened(head))
    }

    /// The worker died; a head that is not tried again counts as a failure. Gives how many tests came back after the head.
    pub fn bury(&mut self, worker: u32, retry: bool) -> Result<u32, OutOfMemory>
        ensures buried { OnOk result
            (books_of self.new ≡ down_books worker retry (books_of self.old)) }
        ensures rest { IfOk result (λ n. n ≡ length (drop 1 (held worker self.old.ledger))) }
    {
        let death = die_where(&mut self.ledger, worker, retry);
        self.kept.bury(worker, widened(death.head), retry)?;
        Ok(death.rest)
    }
}
