// The mode.
ghost use Rattle.std.specs.Prelude.{◌≡◌, [], None};
ghost use Rattle.xd_edge.specs.declared.mode.ModeKind.TheVariants.{Each as InModeEach};
ghost use Rattle.xd_run.specs.Plan.{Plan};
ghost use Rattle.xd_load.specs.Slots.{InSlots};

use crate::sizes::Sizes;
use crate::slots::{join, share};
use std::alloc::Global;
use xd_edge::{OutOfMemory, Text};
use xd_journal::Entry;
use xd_ledger::{Ledger, Mode};

/// Mode each: every worker runs every test of its slot. It keeps how many tests each slot has.
#[derive(Drop)]
pub struct Each {
    sizes: Sizes,
}

impl Each {
    /// The mode at the start of a run.
    pub fn new(alloc: Global) -> Each
        ensures { (p : Plan) → p.mode ≡ InModeEach → p.sizes ≡ [] → p.steal ≡ None →
            ⟦<Each as Mode>⟧.stands result p }
    {
        Each {
            sizes: Sizes::none(alloc),
        }
    }
}

impl Mode for Each {
    ghost stands = { λ m p. InSlots m.sizes p };

    fn share(
        &mut self,
        alloc: Global,
        slots: &[u32],
        sizes: &[u32],
        _ids: &[Text],
        ledger: &mut Ledger,
        acts: &mut Vec<Entry>,
    ) -> Result<(), OutOfMemory> {
        self.sizes = Sizes::of(alloc, sizes, ledger.pool_len())?;
        share(alloc, &self.sizes, slots, ledger, acts)?;
        Ok(())
    }

    fn joined(
        &mut self,
        alloc: Global,
        worker: u32,
        slot: u32,
        ledger: &mut Ledger,
        acts: &mut Vec<Entry>,
    ) -> Result<(), OutOfMemory> {
        join(alloc, &self.sizes, worker, slot, ledger, acts)?;
        Ok(())
    }

    fn done(
        &mut self,
        _alloc: Global,
        _worker: u32,
        _item: u32,
        _ms: u64,
        _ledger: &mut Ledger,
        _acts: &mut Vec<Entry>,
    ) -> Result<(), OutOfMemory> {
        Ok(())
    }

    fn back(
        &mut self,
        _alloc: Global,
        _worker: u32,
        _ledger: &mut Ledger,
        _acts: &mut Vec<Entry>,
    ) -> Result<(), OutOfMemory> {
        Ok(())
    }

    fn died(
        &mut self,
        _alloc: Global,
        _worker: u32,
        _slot: u32,
        _rest: u32,
        _retried: bool,
        _ledger: &mut Ledger,
        _acts: &mut Vec<Entry>,
    ) -> Result<(), OutOfMemory> {
        Ok(())
    }

    fn finished(&self, ledger: &Ledger) -> bool {
        ledger.pool_len() == 0 && ledger.all_below(2)
    }
}
