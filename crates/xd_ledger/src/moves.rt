// The moves that the rules of modes are made of.
ghost use Rattle.std.specs.Prelude.{◌≡◌, ◌++◌, ◌∷◌, [], OnOk, true};
ghost use Rattle.xd_ledger.specs.Calls.{turn};
ghost use Rattle.xd_run.specs.Plan.{Plan};
ghost use Rattle.xd_run.specs.Table.{in_rota, workers_of};
ghost use Rattle.xd_run.specs.Turn.{give_front, shut, shut_each};

use crate::Ledger;
use std::alloc::Global;
use xd_edge::OutOfMemory;
use xd_journal::Entry;

/// A worker starts a test when another stands after it, so it needs two, and one that holds fewer is idle.
pub const ENOUGH: u32 = 2;

// One more act.
fn act(entry: Entry, acts: &mut Vec<Entry>) -> Result<(), OutOfMemory>
    ensures { OnOk result (acts.new.items ≡ acts.old.items ++ entry ∷ []) }
{
    acts.push(entry)?;
    Ok(())
}

/// The worker gets that many items from the pool's front in one batch, or all that it has. No batch is empty.
pub fn give_front(
    alloc: Global,
    worker: u32,
    count: u32,
    ledger: &mut Ledger,
    acts: &mut Vec<Entry>,
) -> Result<(), OutOfMemory>
    requires { in_rota worker ledger.old ≡ true }
    ensures { OnOk result ((p : Plan) →
        turn ledger.new p acts.new.items ≡ give_front worker count
        (turn ledger.old p acts.old.items)) }
{
    if count == 0 || ledger.pool_len() == 0 {
        return Ok(());
    }
    let indices = ledger.assign_front(alloc, worker, count)?;
    act(Entry::Run { worker, indices }, acts)
}

/// The worker is told to shut down, where it was not yet.
pub fn shut(worker: u32, ledger: &mut Ledger, acts: &mut Vec<Entry>) -> Result<(), OutOfMemory>
    requires { in_rota worker ledger.old ≡ true }
    ensures { OnOk result ((p : Plan) →
        turn ledger.new p acts.new.items ≡ shut worker (turn ledger.old p acts.old.items)) }
{
    if ledger.is_shut(worker) {
        return Ok(());
    }
    ledger.shut(worker);
    act(Entry::Shutdown { worker }, acts)
}

/// Each worker of the rota is told to shut down, in order, where it was not yet.
pub fn shut_rota(ledger: &mut Ledger, acts: &mut Vec<Entry>) -> Result<(), OutOfMemory>
    ensures { OnOk result ((p : Plan) →
        turn ledger.new p acts.new.items ≡ shut_each (workers_of ledger.old)
        (turn ledger.old p acts.old.items)) }
{
    for place in 0..ledger.rota_len() {
        let worker = ledger.rota_at(place);
        shut(worker, ledger, acts)?;
    }
    Ok(())
}
