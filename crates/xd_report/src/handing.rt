// What is told to workers.
ghost use Rattle.std.specs.Prelude.{OnOk};
ghost use Rattle.xd_journal.specs.declared.entry.Entry.TheVariants.{Ready, Start, Shutdown};
ghost use Rattle.xd_run.specs.Plan.{base};
ghost use Rattle.xd_run.specs.Sharing.{State};
ghost use Rattle.xd_run.specs.Handing.{after_back, after_run, after_run_all};
ghost use Rattle.xd_run.specs.State.{after_effect};
ghost use Rattle.xd_report.specs.Follows.{Follows};

use crate::reporter::Reporter;
use std::alloc::Global;
use xd_edge::OutOfMemory;
use xd_held::numbers_from;
use xd_run::Mark;

impl Reporter {
    // A worker was started.
    pub(crate) fn start(&mut self, worker: u32, slot: u32) -> Result<(), OutOfMemory>
        ensures { (s : State) → Follows self.old s →
            OnOk result (Follows self.new (after_effect s (Start worker slot))) }
    {
        self.books.start(worker, slot)?;
        Ok(())
    }

    // A worker is there.
    pub(crate) fn ready(&mut self, worker: u32)
        ensures { (s : State) → Follows self.old s →
            Follows self.new (after_effect s (Ready worker)) }
    {
        self.books.mark(worker, Mark::Ready);
    }

    // A worker is given tests.
    pub(crate) fn assign(
        &mut self,
        alloc: Global,
        worker: u32,
        indices: &[u32],
    ) -> Result<(), OutOfMemory>
        ensures { (s : State) → Follows self.old s →
            OnOk result (Follows self.new (after_run worker indices.now s)) }
    {
        let items = self.items(alloc, worker, indices)?;
        xd_held::add_held(&mut self.rota, worker, &items)?;
        Ok(())
    }

    // A worker is given all tests of its slot.
    pub(crate) fn assign_all(&mut self, alloc: Global, worker: u32) -> Result<(), OutOfMemory>
        ensures { (s : State) → Follows self.old s →
            OnOk result (Follows self.new (after_run_all worker s)) }
    {
        let base = self.base(worker)?;
        let items = numbers_from(alloc, base, self.size(worker))?;
        xd_held::add_held(&mut self.rota, worker, &items)?;
        Ok(())
    }

    // Tests that a worker had come back.
    pub(crate) fn take_back(
        &mut self,
        alloc: Global,
        worker: u32,
        indices: &[u32],
    ) -> Result<(), OutOfMemory>
        ensures { (s : State) → Follows self.old s →
            OnOk result (Follows self.new (after_back worker indices.now s)) }
    {
        let items = self.items(alloc, worker, indices)?;
        xd_held::take_held(&mut self.rota, worker, &items);
        Ok(())
    }

    // A worker is told to shut down.
    pub(crate) fn tell(&mut self, worker: u32)
        ensures { (s : State) → Follows self.old s →
            Follows self.new (after_effect s (Shutdown worker)) }
    {
        self.books.mark(worker, Mark::Shut);
    }
}
