// The share of the units.
ghost use Rattle.std.specs.Prelude.{◌≡◌, ◌≤◌, OnOk, drop, length, reverse};
ghost use Rattle.xd_ledger.specs.Calls.{turn};
ghost use Rattle.xd_run.specs.Plan.{Plan};
ghost use Rattle.xd_run.specs.ScopeModes.{scope_share, shut_where_spent};
ghost use Rattle.xd_run.specs.Suits.{AreInPool};
ghost use Rattle.xd_run.specs.Table.{workers_of};
ghost use Rattle.xd_run.specs.Turn.{shut_each};
ghost use Rattle.xd_scope.specs.Stands.{IsAt, Keeps, served_share};

use crate::refill::{Deal, deal_each};
use crate::units::Units;
use std::alloc::Global;
use xd_edge::OutOfMemory;
use xd_journal::Entry;
use xd_ledger::{Ledger, shut, shut_rota};

// The workers after the first `count` are told to shut down, the last one first.
fn shut_surplus(count: u32, ledger: &mut Ledger, acts: &mut Vec<Entry>) -> Result<(), OutOfMemory>
    requires { count ≤ length (workers_of ledger.old) }
    ensures { OnOk result ((p : Plan) →
        turn ledger.new p acts.new.items ≡ shut_each (reverse (drop count (workers_of ledger.old)))
        (turn ledger.old p acts.old.items)) }
{
    let surplus = ledger.rota_len() - count;
    for done in 0..surplus {
        let worker = ledger.rota_at(count + (surplus - 1 - done));
        shut(worker, ledger, acts)?;
    }
    Ok(())
}

// The first `count` workers get a unit each, and then each of these is refilled.
fn serve(
    alloc: Global,
    count: u32,
    units: &mut Units,
    ledger: &mut Ledger,
    acts: &mut Vec<Entry>,
) -> Result<(), OutOfMemory>
    requires within { count ≤ length (workers_of ledger.old) }
    requires fits { AreInPool units.old.queue.items ledger.old.pool }
    ensures turned { OnOk result ((p : Plan) → Keeps units.old p →
        IsAt (served_share count (workers_of ledger.old) (turn ledger.old p acts.old.items))
        ledger.new acts.new.items units.new) }
    ensures rota { OnOk result (workers_of ledger.new ≡ workers_of ledger.old) }
{
    shut_surplus(count, ledger, acts)?;
    deal_each(alloc, Deal::FirstUnit, count, units, ledger, acts)?;
    deal_each(alloc, Deal::Refill, count, units, ledger, acts)?;
    Ok(())
}

// Everyone is told to shut down where no unit is left.
fn shut_where_spent(
    units: &Units,
    ledger: &mut Ledger,
    acts: &mut Vec<Entry>,
) -> Result<(), OutOfMemory>
    ensures { OnOk result ((p : Plan) → Keeps units.now p →
        IsAt (shut_where_spent (turn ledger.old p acts.old.items)) ledger.new acts.new.items
        units.now) }
{
    if units.queue.len() == 0 {
        shut_rota(ledger, acts)?;
        return Ok(());
    }
    Ok(())
}

// The share of the units.
pub(crate) fn share_all(
    alloc: Global,
    units: &mut Units,
    ledger: &mut Ledger,
    acts: &mut Vec<Entry>,
) -> Result<(), OutOfMemory>
    requires fits { AreInPool units.old.queue.items ledger.old.pool }
    ensures { OnOk result ((p : Plan) → Keeps units.old p →
        IsAt (scope_share (turn ledger.old p acts.old.items)) ledger.new acts.new.items units.new) }
{
    if ledger.pool_len() == 0 {
        return Ok(());
    }
    let workers = ledger.rota_len();
    let count = units.queue.len().min(workers as usize) as u32;
    serve(alloc, count, units, ledger, acts)?;
    shut_where_spent(units, ledger, acts)?;
    Ok(())
}
