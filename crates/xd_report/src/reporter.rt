// What reports need of the state of a run.
ghost use Rattle.std.specs.Prelude.{◌≡◌, OnOk};
ghost use Rattle.xd_run.specs.Sharing.{State};
ghost use Rattle.xd_run.specs.State.{after_entry, no_one};
ghost use Rattle.xd_report.specs.Follows.{Follows};

use std::alloc::Global;
use xd_books::Books;
use xd_edge::OutOfMemory;
use xd_held::Holder;
use xd_journal::{Entry, RunStop, Settings};

/// Follows a journal entry by entry, and keeps of it what the report of the next entry needs: the books of the run, what
/// each worker holds, and how many tests each slot has.
#[derive(Drop)]
pub struct Reporter {
    pub(crate) books: Books,
    pub(crate) rota: Vec<Holder>,
    pub(crate) sizes: Vec<u64>,
}

impl Reporter {
    /// No entry was seen yet.
    pub fn new(alloc: Global, settings: Settings) -> Reporter
        ensures { Follows result (no_one settings) }
    {
        Reporter {
            books: Books::new(alloc, settings),
            rota: Vec::new(alloc),
            sizes: Vec::new(alloc),
        }
    }

    /// The first stop of the run so far.
    pub fn first_stop(&self) -> Option<RunStop>
        ensures { (s : State) → Follows self.now s → result ≡ s.books.stop }
    {
        self.books.first_stop()
    }

    // One entry more.
    pub fn note(&mut self, alloc: Global, entry: &Entry) -> Result<(), OutOfMemory>
        ensures { (s : State) → Follows self.old s →
            OnOk result (Follows self.new (after_entry s entry.now)) }
    {
        match entry {
            Entry::Start { worker, slot } => self.start(*worker, *slot),
            Entry::Ready { worker } => {
                self.ready(*worker);
                Ok(())
            }
            Entry::Collected { worker, ids } => self.collect(alloc, *worker, ids),
            Entry::Done {
                worker,
                index,
                outcome,
                ..
            } => self.complete(alloc, *worker, *index, *outcome),
            Entry::Back { worker, indices } => self.take_back(alloc, *worker, &indices.items),
            Entry::Finished { worker } => {
                self.leave(*worker);
                Ok(())
            }
            Entry::Refused { worker, .. } => {
                self.refuse(*worker);
                Ok(())
            }
            Entry::Down { worker, .. } | Entry::NotStarted { worker } => self.bury(*worker),
            Entry::Run { worker, indices } => self.assign(alloc, *worker, &indices.items),
            Entry::RunAll { worker } => self.assign_all(alloc, *worker),
            Entry::Shutdown { worker } => {
                self.tell(*worker);
                Ok(())
            }
            Entry::Steal { .. } | Entry::Kill { .. } | Entry::Over { .. } => Ok(()),
        }
    }
}
