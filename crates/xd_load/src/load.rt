// The mode.
ghost use Rattle.std.specs.Prelude.{◌≡◌, [], None, unwrap_or};
ghost use Rattle.xd_edge.specs.declared.mode.ModeKind.TheVariants.{Load as InModeLoad};
ghost use Rattle.xd_run.specs.Plan.{Plan};
ghost use Rattle.xd_load.specs.Stands.{StandsForLoad};

use crate::batches::{refill_each, refill_one, share_all};
use std::alloc::Global;
use xd_edge::{OutOfMemory, Text};
use xd_journal::Entry;
use xd_ledger::{Ledger, Mode};

/// Mode load. It keeps the setting of the chunk and the number of tests.
#[derive(Drop)]
pub struct Load {
    chunk: Option<u32>,
    tests: u32,
}

impl Load {
    /// The mode at the start of a run: at most `chunk` tests beyond what a worker needs are given at once, or all of
    /// them where there is no such number.
    pub fn new(chunk: Option<u32>) -> Load
        ensures { (p : Plan) → p.mode ≡ InModeLoad → p.chunk ≡ chunk → p.sizes ≡ [] →
            p.steal ≡ None → ⟦<Load as Mode>⟧.stands result p }
    {
        Load { chunk, tests: 0 }
    }

    // The largest batch beyond what a worker needs.
    fn chunk(&self) -> u32
        ensures { result ≡ unwrap_or self.now.chunk self.now.tests }
    {
        self.chunk.unwrap_or(self.tests)
    }
}

impl Mode for Load {
    ghost stands = { λ m p. StandsForLoad m.chunk m.tests p };

    fn share(
        &mut self,
        alloc: Global,
        _slots: &[u32],
        _sizes: &[u32],
        _ids: &[Text],
        ledger: &mut Ledger,
        acts: &mut Vec<Entry>,
    ) -> Result<(), OutOfMemory> {
        self.tests = ledger.pool_len();
        share_all(alloc, self.chunk(), ledger, acts)?;
        Ok(())
    }

    fn joined(
        &mut self,
        alloc: Global,
        _worker: u32,
        _slot: u32,
        ledger: &mut Ledger,
        acts: &mut Vec<Entry>,
    ) -> Result<(), OutOfMemory> {
        refill_each(alloc, self.chunk(), ledger, acts)?;
        Ok(())
    }

    fn done(
        &mut self,
        alloc: Global,
        worker: u32,
        _item: u32,
        ms: u64,
        ledger: &mut Ledger,
        acts: &mut Vec<Entry>,
    ) -> Result<(), OutOfMemory> {
        refill_one(alloc, self.chunk(), ms, worker, ledger, acts)?;
        Ok(())
    }

    fn back(
        &mut self,
        _alloc: Global,
        _worker: u32,
        _ledger: &mut Ledger,
        _acts: &mut Vec<Entry>,
    ) -> Result<(), OutOfMemory> {
        Ok(())
    }

    fn died(
        &mut self,
        alloc: Global,
        _worker: u32,
        _slot: u32,
        _rest: u32,
        _retried: bool,
        ledger: &mut Ledger,
        acts: &mut Vec<Entry>,
    ) -> Result<(), OutOfMemory> {
        refill_each(alloc, self.chunk(), ledger, acts)?;
        Ok(())
    }

    fn finished(&self, ledger: &Ledger) -> bool {
        ledger.pool_len() == 0 && ledger.all_below(2)
    }
}
