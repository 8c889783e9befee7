// A mode of the tests' own. It has no rule: it hands its calls on to another mode, and after so many of them it runs out of
// memory. It stands for what that mode stands for, so what a session does with it rests on the words of a mode alone.
ghost use Rattle.xd_run.specs.Plan.{Plan};

use std::alloc::Global;
use xd_edge::{OutOfMemory, Text};
use xd_journal::Entry;
use xd_ledger::{Ledger, Mode};

/// Another mode, and how many calls it still takes.
#[derive(Drop)]
pub(crate) struct Limited<M: Mode> {
    mode: M,
    calls: u32,
}

impl<M: Mode> Limited<M> {
    /// The other mode at the start of a run.
    pub(crate) fn new(mode: M, calls: u32) -> Limited<M>
        ensures { (p : Plan) → M.stands mode p → ⟦<Limited<M> as Mode>⟧.stands result p }
    {
        Limited { mode, calls }
    }
}

// One of the calls is made.
fn spend(calls: &mut u32) -> Result<(), OutOfMemory> {
    *calls = calls.checked_sub(1).ok_or(OutOfMemory)?;
    Ok(())
}

impl<M: Mode> Mode for Limited<M> {
    ghost stands = { λ m p. M.stands m.mode p };

    fn share(
        &mut self,
        alloc: Global,
        slots: &[u32],
        sizes: &[u32],
        ids: &[Text],
        ledger: &mut Ledger,
        acts: &mut Vec<Entry>,
    ) -> Result<(), OutOfMemory> {
        spend(&mut self.calls)?;
        self.mode.share(alloc, slots, sizes, ids, ledger, acts)
    }

    fn joined(
        &mut self,
        alloc: Global,
        worker: u32,
        slot: u32,
        ledger: &mut Ledger,
        acts: &mut Vec<Entry>,
    ) -> Result<(), OutOfMemory> {
        spend(&mut self.calls)?;
        self.mode.joined(alloc, worker, slot, ledger, acts)
    }

    fn done(
        &mut self,
        alloc: Global,
        worker: u32,
        item: u32,
        ms: u64,
        ledger: &mut Ledger,
        acts: &mut Vec<Entry>,
    ) -> Result<(), OutOfMemory> {
        spend(&mut self.calls)?;
        self.mode.done(alloc, worker, item, ms, ledger, acts)
    }

    fn back(
        &mut self,
        alloc: Global,
        worker: u32,
        ledger: &mut Ledger,
        acts: &mut Vec<Entry>,
    ) -> Result<(), OutOfMemory> {
        spend(&mut self.calls)?;
        self.mode.back(alloc, worker, ledger, acts)
    }

    fn died(
        &mut self,
        alloc: Global,
        worker: u32,
        slot: u32,
        rest: u32,
        retried: bool,
        ledger: &mut Ledger,
        acts: &mut Vec<Entry>,
    ) -> Result<(), OutOfMemory> {
        spend(&mut self.calls)?;
        self.mode
            .died(alloc, worker, slot, rest, retried, ledger, acts)
    }

    fn finished(&self, ledger: &Ledger) -> bool {
        self.mode.finished(ledger)
    }
}
