// The batches of mode load.
ghost use Rattle.std.specs.Prelude.{◌≡◌, ◌<◌, OnOk, true};
ghost use Rattle.xd_ledger.specs.Calls.{turn};
ghost use Rattle.xd_run.specs.Load.{more, is_due, load_refill, load_refill_all, give_unless_shut, dealt_singly, load_share};
ghost use Rattle.xd_run.specs.Plan.{Plan};
ghost use Rattle.xd_run.specs.Table.{in_rota, workers_of};
ghost use Rattle.xd_run.specs.Turn.{in_turn};
ghost use Rattle.xd_load.specs.Stands.{InChunks};

use std::alloc::Global;
use xd_edge::OutOfMemory;
use xd_journal::Entry;
use xd_ledger::{ENOUGH, Ledger, give_front, shut, shut_rota};

// A test that took that many milliseconds, or more, is slow.
const SLOW_MS: u64 = 100;

// A worker is refilled below this part of its even share of the pool.
const LOW_PART: u32 = 4;

// And up to this part.
const HIGH_PART: u32 = 2;

// How many more tests a worker gets.
fn more_of(pool: u32, workers: u32, chunk: u32, holds: u32) -> u32
    requires { 0 < workers }
    ensures { result ≡ more pool workers chunk holds }
{
    let high = (pool / workers / HIGH_PART).max(ENOUGH);
    let least = ENOUGH.saturating_sub(holds).max(chunk);
    high.saturating_sub(holds).min(least)
}

// Whether a worker gets more tests.
fn due(pool: u32, workers: u32, holds: u32, ms: u64) -> bool
    requires { 0 < workers }
    ensures { result ≡ is_due pool workers holds ms }
{
    let low = (pool / workers / LOW_PART).max(ENOUGH);
    holds < low && !(ms >= SLOW_MS && holds >= ENOUGH)
}

// A worker that isn't shut gets that many from the pool's front.
fn give(
    alloc: Global,
    count: u32,
    worker: u32,
    ledger: &mut Ledger,
    acts: &mut Vec<Entry>,
) -> Result<(), OutOfMemory>
    requires { in_rota worker ledger.old ≡ true }
    ensures { OnOk result ((p : Plan) →
        turn ledger.new p acts.new.items ≡ give_unless_shut count worker
        (turn ledger.old p acts.old.items)) }
{
    if !ledger.is_shut(worker) {
        give_front(alloc, worker, count, ledger, acts)?;
    }
    Ok(())
}

// Refills the worker.
pub(crate) fn refill_one(
    alloc: Global,
    chunk: u32,
    ms: u64,
    worker: u32,
    ledger: &mut Ledger,
    acts: &mut Vec<Entry>,
) -> Result<(), OutOfMemory>
    requires { in_rota worker ledger.old ≡ true }
    ensures { OnOk result ((p : Plan) → InChunks chunk p →
        turn ledger.new p acts.new.items ≡
        load_refill ms worker (turn ledger.old p acts.old.items)) }
{
    if ledger.is_shut(worker) {
        return Ok(());
    }
    let pool = ledger.pool_len();
    if pool == 0 {
        return shut(worker, ledger, acts);
    }
    let workers = ledger.rota_len();
    let holds = ledger.held_len(worker);
    if !due(pool, workers, holds, ms) {
        return Ok(());
    }
    let count = more_of(pool, workers, chunk, holds);
    give_front(alloc, worker, count, ledger, acts)
}

// Refills every worker.
pub(crate) fn refill_each(
    alloc: Global,
    chunk: u32,
    ledger: &mut Ledger,
    acts: &mut Vec<Entry>,
) -> Result<(), OutOfMemory>
    ensures { OnOk result ((p : Plan) → InChunks chunk p →
        turn ledger.new p acts.new.items ≡ load_refill_all (turn ledger.old p acts.old.items)) }
{
    for place in 0..ledger.rota_len() {
        let worker = ledger.rota_at(place);
        refill_one(alloc, chunk, 0, worker, ledger, acts)?;
    }
    Ok(())
}

// Every worker that isn't shut gets that many.
fn give_each(
    alloc: Global,
    count: u32,
    ledger: &mut Ledger,
    acts: &mut Vec<Entry>,
) -> Result<(), OutOfMemory>
    ensures given { OnOk result ((p : Plan) →
        turn ledger.new p acts.new.items ≡ in_turn (give_unless_shut count) (workers_of ledger.old)
        (turn ledger.old p acts.old.items)) }
    ensures same { OnOk result (workers_of ledger.new ≡ workers_of ledger.old) }
{
    for place in 0..ledger.rota_len() {
        let worker = ledger.rota_at(place);
        give(alloc, count, worker, ledger, acts)?;
    }
    Ok(())
}

// Shares the tests out.
fn share_out(
    alloc: Global,
    chunk: u32,
    ledger: &mut Ledger,
    acts: &mut Vec<Entry>,
) -> Result<(), OutOfMemory>
    ensures { OnOk result ((p : Plan) → InChunks chunk p →
        turn ledger.new p acts.new.items ≡ dealt_singly (turn ledger.old p acts.old.items)) }
{
    let tests = ledger.pool_len() as u64;
    let workers = ledger.rota_len() as u64;
    if tests < ENOUGH as u64 * workers {
        give_each(alloc, 1, ledger, acts)?;
        give_each(alloc, 1, ledger, acts)?;
        return Ok(());
    }
    if workers == 0 {
        return Ok(());
    }
    let count = (tests / workers / LOW_PART as u64)
        .min(chunk as u64)
        .max(ENOUGH as u64);
    give_each(alloc, count as u32, ledger, acts)?;
    Ok(())
}

// The share of the tests.
pub(crate) fn share_all(
    alloc: Global,
    chunk: u32,
    ledger: &mut Ledger,
    acts: &mut Vec<Entry>,
) -> Result<(), OutOfMemory>
    ensures { OnOk result ((p : Plan) → InChunks chunk p →
        turn ledger.new p acts.new.items ≡ load_share (turn ledger.old p acts.old.items)) }
{
    share_out(alloc, chunk, ledger, acts)?;
    if ledger.pool_len() == 0 {
        shut_rota(ledger, acts)?;
        return Ok(());
    }
    Ok(())
}
