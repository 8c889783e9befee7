// Results, deaths and stops.
ghost use Rattle.std.specs.Prelude.{ℕ, List, [], ◌∷◌, OnOk, Some};
ghost use Rattle.xd_journal.specs.declared.entry.Entry.TheVariants.{Done, Finished, Refused};
ghost use Rattle.xd_run.specs.Books.{on_table};
ghost use Rattle.xd_run.specs.Plan.{base, items_named};
ghost use Rattle.xd_run.specs.Sharing.{State, in_books};
ghost use Rattle.xd_run.specs.Deaths.{after_down};
ghost use Rattle.xd_run.specs.Results.{completed_first};
ghost use Rattle.xd_run.specs.State.{after_effect};
ghost use Rattle.xd_run.specs.Stops.{stopped_by};
ghost use Rattle.xd_run.specs.Workers.{slot_of};
ghost use Rattle.xd_report.specs.Follows.{Follows};
ghost use Rattle.xd_report.specs.Tests.{head};

use crate::reporter::Reporter;
use std::alloc::Global;
use xd_edge::OutOfMemory;
use xd_held::plus;
use xd_journal::{Outcome, RunStop};
use xd_run::Mark;

impl Reporter {
    // The first stop counts.
    pub(crate) fn stop_by(&mut self, how: RunStop)
        ensures { (s : State) → Follows self.old s →
            Follows self.new (in_books (stopped_by (Some how)) s) }
    {
        self.books.stop_by(how);
    }

    // A test of a worker ended.
    pub(crate) fn complete(
        &mut self,
        alloc: Global,
        worker: u32,
        index: u32,
        outcome: Outcome,
    ) -> Result<(), OutOfMemory>
        ensures { (s : State) (ms : ℕ) (output : List ℕ) → Follows self.old s →
            OnOk result (Follows self.new (after_effect s (Done worker index outcome ms output))) }
    {
        self.report(alloc, worker, index)?;
        self.books.score(outcome)?;
        Ok(())
    }

    // The worker holds a test no more.
    fn report(&mut self, alloc: Global, worker: u32, index: u32) -> Result<(), OutOfMemory>
        ensures { (s : State) → Follows self.old s →
            OnOk result (Follows self.new
            (in_books (on_table (completed_first worker
            (items_named (slot_of worker s.books) (index ∷ []) s.plan))) s)) }
    {
        let item = plus(self.base(worker)?, index as u64)?;
        xd_held::take_held(&mut self.rota, worker, &[item]);
        Ok(())
    }

    // A worker finished.
    pub(crate) fn leave(&mut self, worker: u32)
        ensures { (s : State) → Follows self.old s →
            Follows self.new (after_effect s (Finished worker)) }
    {
        xd_held::leave(&mut self.rota, worker);
        self.books.mark(worker, Mark::Gone);
    }

    // A worker could not collect.
    pub(crate) fn refuse(&mut self, worker: u32)
        ensures { (s : State) (text : List ℕ) → Follows self.old s →
            Follows self.new (after_effect s (Refused worker text)) }
    {
        self.books.mark(worker, Mark::Gone);
        self.books.stop_by(RunStop::CollectError { worker });
    }

    // A worker went down.
    pub(crate) fn bury(&mut self, worker: u32) -> Result<(), OutOfMemory>
        ensures { (s : State) → Follows self.old s →
            OnOk result (Follows self.new (after_down worker s)) }
    {
        let head = self.head(worker);
        let retry = self.is_retry(worker);
        self.books.bury(worker, head, retry)?;
        xd_held::leave(&mut self.rota, worker);
        Ok(())
    }
}
