// The mode.
ghost use Rattle.std.specs.Prelude.{◌≡◌, [], None, true};
ghost use Rattle.xd_run.specs.Plan.{Plan, is_scope};
ghost use Rattle.xd_scope.specs.Stands.{Keeps};

use crate::fallen::{keep_rest, keep_retried};
use crate::groups::units_of;
use crate::refill::{refill_all, refill_one};
use crate::share::share_all;
use crate::units::Units;
use std::alloc::Global;
use std::collections::{BTreeMap, VecDeque};
use xd_edge::{ModeKind, OutOfMemory, Text};
use xd_journal::Entry;
use xd_ledger::{Ledger, Mode};

/// A mode that hands out the tests of one scope together. It keeps the units that wait and those that were handed out.
#[derive(Drop)]
pub struct Scope {
    units: Units,
}

impl Scope {
    /// The mode at the start of a run: loadscope, loadfile or loadgroup. Without `reorder` units are handed out in the
    /// order in which they first appear, else the largest first.
    pub fn new(alloc: Global, kind: ModeKind, reorder: bool) -> Scope
        requires { is_scope kind ≡ true }
        ensures { (p : Plan) → p.mode ≡ kind → p.reorder ≡ reorder → p.queue ≡ [] → p.given ≡ [] →
            p.steal ≡ None → ⟦<Scope as Mode>⟧.stands result p }
    {
        Scope {
            units: Units {
                kind,
                reorder,
                queue: VecDeque::new(alloc),
                given: BTreeMap::new(alloc),
            },
        }
    }
}

impl Mode for Scope {
    ghost stands = { λ m p. Keeps m.units p };

    fn share(
        &mut self,
        alloc: Global,
        _slots: &[u32],
        _sizes: &[u32],
        ids: &[Text],
        ledger: &mut Ledger,
        acts: &mut Vec<Entry>,
    ) -> Result<(), OutOfMemory> {
        let tests = ledger.pool_len();
        let queue = units_of(alloc, self.units.kind, self.units.reorder, ids, tests)?;
        self.units.queue = queue;
        share_all(alloc, &mut self.units, ledger, acts)?;
        Ok(())
    }

    fn joined(
        &mut self,
        alloc: Global,
        _worker: u32,
        _slot: u32,
        ledger: &mut Ledger,
        acts: &mut Vec<Entry>,
    ) -> Result<(), OutOfMemory> {
        refill_all(alloc, &mut self.units, ledger, acts)?;
        Ok(())
    }

    fn done(
        &mut self,
        alloc: Global,
        worker: u32,
        _item: u32,
        _ms: u64,
        ledger: &mut Ledger,
        acts: &mut Vec<Entry>,
    ) -> Result<(), OutOfMemory> {
        refill_one(alloc, worker, &mut self.units, ledger, acts)?;
        Ok(())
    }

    fn back(
        &mut self,
        _alloc: Global,
        _worker: u32,
        _ledger: &mut Ledger,
        _acts: &mut Vec<Entry>,
    ) -> Result<(), OutOfMemory> {
        Ok(())
    }

    fn died(
        &mut self,
        alloc: Global,
        worker: u32,
        _slot: u32,
        rest: u32,
        retried: bool,
        ledger: &mut Ledger,
        acts: &mut Vec<Entry>,
    ) -> Result<(), OutOfMemory> {
        let Units { queue, given, .. } = &mut self.units;
        keep_rest(alloc, worker, rest, ledger, given, queue)?;
        keep_retried(alloc, retried, ledger, queue)?;
        refill_all(alloc, &mut self.units, ledger, acts)?;
        Ok(())
    }

    fn finished(&self, ledger: &Ledger) -> bool {
        ledger.pool_len() == 0 && ledger.all_below(2)
    }
}
