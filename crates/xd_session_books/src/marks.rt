// The workers of a run, and their marks.
ghost use Rattle.std.specs.Prelude.{◌≡◌, nat_le, length, true, if◌then◌else◌, ◌++◌, ◌∷◌, [], OnOk, IfOk, Some};
ghost use Rattle.xd_run.specs.Books.{marked};
ghost use Rattle.xd_run.specs.Proper.{most_workers};
ghost use Rattle.xd_run.specs.State.{no_one};
ghost use Rattle.xd_run.specs.Stops.{stopped_by};
ghost use Rattle.xd_run.specs.Table.{shut_down};
ghost use Rattle.xd_run.specs.Workers.{begun_at, is_waiting, made, waiting};
ghost use Rattle.xd_session_books.specs.Books.{books_of, told_to_shut};

use crate::run_books::RunBooks;
use std::alloc::Global;
use xd_books::Books;
use xd_edge::{Indices, OutOfMemory};
use xd_journal::{RunStop, Settings};
use xd_ledger::Ledger;
use xd_run::{Mark, Member};

// The member is active, was ready, and was not told to shut down.
fn waits(m: Member) -> bool
    ensures { result ≡ is_waiting m }
{
    m.active && m.ready && !m.shut
}

// One more number, where it is to come in.
fn add_where(test: bool, worker: u32, workers: &mut Indices) -> Result<(), OutOfMemory>
    ensures { OnOk result
        (workers.new ≡ (if test then workers.old ++ worker ∷ [] else workers.old)) }
{
    if test {
        workers.items.push(worker)?;
    }
    Ok(())
}

// The workers that wait.
fn waiting_of(alloc: Global, members: &[Member]) -> Result<Indices, OutOfMemory>
    ensures { IfOk result (λ ws. ws ≡ waiting members.now) }
{
    let mut workers = Indices {
        items: Vec::new(alloc),
    };
    for i in 0..members.len() {
        let m = members[i];
        add_where(waits(m), m.worker, &mut workers)?;
    }
    Ok(workers)
}

// The seat of the worker is shut, where it has one.
fn shut_seat(ledger: &mut Ledger, worker: u32)
    ensures { ledger.new ≡ shut_down worker ledger.old }
{
    if ledger.in_rota(worker) {
        ledger.shut(worker);
    }
}

impl RunBooks {
    /// Nobody was started yet.
    pub fn new(alloc: Global, settings: Settings) -> Result<RunBooks, OutOfMemory>
        requires { nat_le settings.workers most_workers ≡ true }
        ensures { IfOk result (λ b. books_of b ≡ (no_one settings).books) }
    {
        let ledger = Ledger::new(alloc, 0)?;
        Ok(RunBooks {
            kept: Books::new(alloc, settings),
            ledger,
        })
    }

    /// The worker has the mark.
    pub fn mark(&mut self, worker: u32, mark: Mark)
        ensures { books_of self.new ≡ marked (made mark worker) (books_of self.old) }
    {
        self.kept.mark(worker, mark);
    }

    /// The worker was told to shut down.
    pub fn tell(&mut self, worker: u32)
        ensures { books_of self.new ≡ told_to_shut worker (books_of self.old) }
    {
        shut_seat(&mut self.ledger, worker);
        self.kept.mark(worker, Mark::Shut);
    }

    /// The worker was started at the slot.
    pub fn start(&mut self, worker: u32, slot: u32) -> Result<(), OutOfMemory>
        ensures { OnOk result (books_of self.new ≡ begun_at worker slot (books_of self.old)) }
    {
        self.kept.start(worker, slot)?;
        Ok(())
    }

    /// The number of the next worker.
    pub fn next_worker(&self) -> Result<u32, OutOfMemory>
        ensures { IfOk result (λ n. n ≡ length (books_of self.now).members) }
    {
        let count = self.kept.members().len();
        if count > u32::MAX as usize {
            return Err(OutOfMemory);
        }
        Ok(count as u32)
    }

    /// The workers that wait, in order of worker numbers.
    pub fn waiting(&self, alloc: Global) -> Result<Indices, OutOfMemory>
        ensures { IfOk result (λ ws. ws ≡ waiting (books_of self.now).members) }
    {
        let workers = waiting_of(alloc, self.kept.members())?;
        Ok(workers)
    }

    /// The tests are shared now.
    pub fn share(&mut self)
        ensures { books_of self.new ≡ record (books_of self.old) { shared = true } }
    {
        self.kept.share();
    }

    /// Nothing is left to hand out.
    pub fn shut(&mut self)
        ensures { books_of self.new ≡ record (books_of self.old) { shutting = true } }
    {
        self.kept.shut();
    }

    /// The first stop counts.
    pub fn stop_by(&mut self, how: RunStop)
        ensures { books_of self.new ≡ stopped_by (Some how) (books_of self.old) }
    {
        self.kept.stop_by(how);
    }
}
