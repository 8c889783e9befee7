// The mode.
ghost use Rattle.std.specs.Prelude.{◌≡◌, None, Option, option_map};
ghost use Rattle.xd_edge.specs.declared.mode.ModeKind.TheVariants.{WorkSteal};
ghost use Rattle.xd_run.specs.Plan.{UnansweredSteal, Plan};
ghost use Rattle.xd_run.specs.Deaths.{steal_without};
ghost use Rattle.xd_steal.specs.Stands.{StandsForSteal};

use crate::rule::rule;
use std::alloc::Global;
use xd_edge::{OutOfMemory, Text};
use xd_journal::Entry;
use xd_ledger::{Ledger, Mode};

/// Mode worksteal. It keeps which worker has not answered its steal.
#[derive(Drop)]
pub struct Steal {
    asked: Option<u32>,
}

// A worker's open steal is closed.
fn asked_without(worker: u32, asked: Option<u32>) -> Option<u32>
    ensures { (steal : Option UnansweredSteal) → option_map (λ a. a.worker) steal ≡ asked →
        option_map (λ a. a.worker) (steal_without worker steal) ≡ result }
{
    asked.filter(|&victim| victim != worker)
}

impl Steal {
    /// The mode at the start of a run: no steal is open.
    pub fn new() -> Steal
        ensures { (p : Plan) → p.mode ≡ WorkSteal → p.steal ≡ None →
            ⟦<Steal as Mode>⟧.stands result p }
    {
        Steal { asked: None }
    }
}

impl Mode for Steal {
    ghost stands = { λ m p. StandsForSteal m.asked p };

    fn share(
        &mut self,
        alloc: Global,
        _slots: &[u32],
        _sizes: &[u32],
        _ids: &[Text],
        ledger: &mut Ledger,
        acts: &mut Vec<Entry>,
    ) -> Result<(), OutOfMemory> {
        if ledger.pool_len() == 0 {
            return Ok(());
        }
        rule(alloc, &mut self.asked, ledger, acts)?;
        Ok(())
    }

    fn joined(
        &mut self,
        alloc: Global,
        _worker: u32,
        _slot: u32,
        ledger: &mut Ledger,
        acts: &mut Vec<Entry>,
    ) -> Result<(), OutOfMemory> {
        rule(alloc, &mut self.asked, ledger, acts)?;
        Ok(())
    }

    fn done(
        &mut self,
        alloc: Global,
        _worker: u32,
        _item: u32,
        _ms: u64,
        ledger: &mut Ledger,
        acts: &mut Vec<Entry>,
    ) -> Result<(), OutOfMemory> {
        rule(alloc, &mut self.asked, ledger, acts)?;
        Ok(())
    }

    fn back(
        &mut self,
        alloc: Global,
        _worker: u32,
        ledger: &mut Ledger,
        acts: &mut Vec<Entry>,
    ) -> Result<(), OutOfMemory> {
        self.asked = None;
        rule(alloc, &mut self.asked, ledger, acts)?;
        Ok(())
    }

    fn died(
        &mut self,
        alloc: Global,
        worker: u32,
        _slot: u32,
        _rest: u32,
        _retried: bool,
        ledger: &mut Ledger,
        acts: &mut Vec<Entry>,
    ) -> Result<(), OutOfMemory> {
        self.asked = asked_without(worker, self.asked);
        rule(alloc, &mut self.asked, ledger, acts)?;
        Ok(())
    }

    fn finished(&self, ledger: &Ledger) -> bool {
        ledger.pool_len() == 0 && self.asked.is_none() && ledger.all_below(2)
    }
}
