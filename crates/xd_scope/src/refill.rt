// Units for workers that hold few tests.
ghost use Rattle.std.specs.Prelude.{◌≡◌, ◌≤◌, OnOk, length, take, true};
ghost use Rattle.xd_ledger.specs.Calls.{turn};
ghost use Rattle.xd_run.specs.Plan.{Plan};
ghost use Rattle.xd_run.specs.ScopeModes.{give_more, give_unit, scope_refill, scope_refill_all};
ghost use Rattle.xd_run.specs.Suits.{AreInPool};
ghost use Rattle.xd_run.specs.Table.{in_rota, workers_of};
ghost use Rattle.xd_run.specs.Turn.{enough, in_turn};
ghost use Rattle.xd_scope.specs.Stands.{IsAt, Keeps, dealt_to, give_where_few};

use crate::given::add_given;
use crate::units::{Units, next_unit};
use std::alloc::Global;
use xd_edge::{OutOfMemory, copy_indices};
use xd_journal::Entry;
use xd_ledger::{ENOUGH, Ledger, shut};

// The unit at the queue's front goes to the worker.
fn give_unit(
    alloc: Global,
    worker: u32,
    units: &mut Units,
    ledger: &mut Ledger,
    acts: &mut Vec<Entry>,
) -> Result<(), OutOfMemory>
    requires seated { in_rota worker ledger.old ≡ true }
    requires fits { AreInPool units.old.queue.items ledger.old.pool }
    ensures turned { OnOk result ((p : Plan) → Keeps units.old p →
        IsAt (give_unit worker (turn ledger.old p acts.old.items)) ledger.new acts.new.items
        units.new) }
    ensures fits { OnOk result (AreInPool units.new.queue.items ledger.new.pool) }
    ensures rota { OnOk result (workers_of ledger.new ≡ workers_of ledger.old) }
{
    let Some(unit) = next_unit(&mut units.queue) else {
        return Ok(());
    };
    ledger.assign(worker, &unit.items)?;
    let tests = copy_indices(alloc, &unit.items)?;
    add_given(alloc, worker, tests, &mut units.given)?;
    acts.push(Entry::Run {
        worker,
        indices: unit,
    })?;
    Ok(())
}

// A unit, where the worker holds fewer tests than it needs.
fn give_where_few(
    alloc: Global,
    worker: u32,
    units: &mut Units,
    ledger: &mut Ledger,
    acts: &mut Vec<Entry>,
) -> Result<(), OutOfMemory>
    requires seated { in_rota worker ledger.old ≡ true }
    requires fits { AreInPool units.old.queue.items ledger.old.pool }
    ensures turned { OnOk result ((p : Plan) → Keeps units.old p →
        IsAt (give_where_few worker (turn ledger.old p acts.old.items)) ledger.new acts.new.items
        units.new) }
    ensures fits { OnOk result (AreInPool units.new.queue.items ledger.new.pool) }
    ensures rota { OnOk result (workers_of ledger.new ≡ workers_of ledger.old) }
{
    if ledger.held_len(worker) >= ENOUGH {
        return Ok(());
    }
    give_unit(alloc, worker, units, ledger, acts)?;
    Ok(())
}

// A unit, and further ones while the worker holds fewer tests than it needs: each has a test, so two more are enough.
fn give_enough(
    alloc: Global,
    worker: u32,
    units: &mut Units,
    ledger: &mut Ledger,
    acts: &mut Vec<Entry>,
) -> Result<(), OutOfMemory>
    requires seated { in_rota worker ledger.old ≡ true }
    requires fits { AreInPool units.old.queue.items ledger.old.pool }
    ensures turned { OnOk result ((p : Plan) → Keeps units.old p →
        IsAt (give_more enough worker (give_unit worker (turn ledger.old p acts.old.items)))
        ledger.new acts.new.items units.new) }
    ensures fits { OnOk result (AreInPool units.new.queue.items ledger.new.pool) }
    ensures rota { OnOk result (workers_of ledger.new ≡ workers_of ledger.old) }
{
    give_unit(alloc, worker, units, ledger, acts)?;
    give_where_few(alloc, worker, units, ledger, acts)?;
    give_where_few(alloc, worker, units, ledger, acts)?;
    Ok(())
}

// Refills the worker.
pub(crate) fn refill_one(
    alloc: Global,
    worker: u32,
    units: &mut Units,
    ledger: &mut Ledger,
    acts: &mut Vec<Entry>,
) -> Result<(), OutOfMemory>
    requires seated { in_rota worker ledger.old ≡ true }
    requires fits { AreInPool units.old.queue.items ledger.old.pool }
    ensures turned { OnOk result ((p : Plan) → Keeps units.old p →
        IsAt (scope_refill worker (turn ledger.old p acts.old.items)) ledger.new acts.new.items
        units.new) }
    ensures fits { OnOk result (AreInPool units.new.queue.items ledger.new.pool) }
    ensures rota { OnOk result (workers_of ledger.new ≡ workers_of ledger.old) }
{
    if ledger.is_shut(worker) {
        return Ok(());
    }
    if units.queue.len() == 0 {
        shut(worker, ledger, acts)?;
        return Ok(());
    }
    if ledger.held_len(worker) > ENOUGH {
        return Ok(());
    }
    give_enough(alloc, worker, units, ledger, acts)?;
    Ok(())
}

// What each worker of a part of the rota gets.
#[derive(Clone, Copy)]
pub(crate) enum Deal {
    FirstUnit,
    Refill,
}

// The worker gets its part of the deal.
fn deal_one(
    alloc: Global,
    deal: Deal,
    worker: u32,
    units: &mut Units,
    ledger: &mut Ledger,
    acts: &mut Vec<Entry>,
) -> Result<(), OutOfMemory>
    requires seated { in_rota worker ledger.old ≡ true }
    requires fits { AreInPool units.old.queue.items ledger.old.pool }
    ensures turned { OnOk result ((p : Plan) → Keeps units.old p →
        IsAt (dealt_to deal worker (turn ledger.old p acts.old.items)) ledger.new acts.new.items
        units.new) }
    ensures fits { OnOk result (AreInPool units.new.queue.items ledger.new.pool) }
    ensures rota { OnOk result (workers_of ledger.new ≡ workers_of ledger.old) }
{
    match deal {
        Deal::FirstUnit => give_unit(alloc, worker, units, ledger, acts)?,
        Deal::Refill => refill_one(alloc, worker, units, ledger, acts)?,
    }
    Ok(())
}

// The first `count` workers of the rota get their parts of the deal.
pub(crate) fn deal_each(
    alloc: Global,
    deal: Deal,
    count: u32,
    units: &mut Units,
    ledger: &mut Ledger,
    acts: &mut Vec<Entry>,
) -> Result<(), OutOfMemory>
    requires within { count ≤ length (workers_of ledger.old) }
    requires fits { AreInPool units.old.queue.items ledger.old.pool }
    ensures turned { OnOk result ((p : Plan) → Keeps units.old p →
        IsAt (in_turn (dealt_to deal) (take count (workers_of ledger.old))
        (turn ledger.old p acts.old.items)) ledger.new acts.new.items units.new) }
    ensures fits { OnOk result (AreInPool units.new.queue.items ledger.new.pool) }
    ensures rota { OnOk result (workers_of ledger.new ≡ workers_of ledger.old) }
{
    for place in 0..count {
        let worker = ledger.rota_at(place);
        deal_one(alloc, deal, worker, units, ledger, acts)?;
    }
    Ok(())
}

// Every worker of the rota is refilled.
pub(crate) fn refill_all(
    alloc: Global,
    units: &mut Units,
    ledger: &mut Ledger,
    acts: &mut Vec<Entry>,
) -> Result<(), OutOfMemory>
    requires { AreInPool units.old.queue.items ledger.old.pool }
    ensures { OnOk result ((p : Plan) → Keeps units.old p →
        IsAt (scope_refill_all (turn ledger.old p acts.old.items)) ledger.new acts.new.items
        units.new) }
{
    let count = ledger.rota_len();
    deal_each(alloc, Deal::Refill, count, units, ledger, acts)?;
    Ok(())
}
