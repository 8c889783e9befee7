// The one rule of mode worksteal, which runs at each of its calls.
ghost use Rattle.std.specs.Prelude.{◌≡◌, ◌≤◌, ◌-◌, ◌/◌, ◌++◌, ◌∷◌, [], true, length, min, OnOk, Some};
ghost use Rattle.xd_journal.specs.declared.entry.Entry.TheVariants.{Steal};
ghost use Rattle.xd_ledger.specs.Calls.{last_of, turn};
ghost use Rattle.xd_run.specs.Numbers.{all_among, all_distinct};
ghost use Rattle.xd_run.specs.Plan.{Plan};
ghost use Rattle.xd_run.specs.Table.{held, in_rota, workers_of};
ghost use Rattle.xd_run.specs.Worksteal.{kept_part, dealt, victim, asks_or_shuts, after_dealing, rule};
ghost use Rattle.xd_run.specs.Turn.{enough, shut_each};
ghost use Rattle.xd_steal.specs.Stands.{MatchesTurn, StandsForSteal};

use crate::workers::{idle, victim};
use std::alloc::Global;
use xd_edge::OutOfMemory;
use xd_journal::Entry;
use xd_ledger::{ENOUGH, Ledger, give_front, shut};

// A victim keeps at least this part of what it holds.
const KEPT_PART: u32 = 2;

// How many tests a worker is asked for, by how many it holds.
fn number_of(held: u32) -> u32
    ensures { result ≡ min (held / kept_part) (held - enough) }
{
    (held / KEPT_PART).min(held.saturating_sub(ENOUGH))
}

// The i-th of k workers gets the (k - i)-th part of what is then left, i from 0.
fn deal(
    alloc: Global,
    workers: &[u32],
    ledger: &mut Ledger,
    acts: &mut Vec<Entry>,
) -> Result<(), OutOfMemory>
    requires { all_among workers.now (workers_of ledger.old) ≡ true }
    ensures dealt { OnOk result ((p : Plan) →
        turn ledger.new p acts.new.items ≡ dealt workers.now (turn ledger.old p acts.old.items)) }
    ensures same { OnOk result (workers_of ledger.new ≡ workers_of ledger.old) }
{
    for i in 0..workers.len() {
        let count = ledger.pool_len() as usize / (workers.len() - i);
        give_front(alloc, workers[i], count as u32, ledger, acts)?;
    }
    Ok(())
}

// Each of these workers is told to shut down, in order, where it was not yet.
fn shut_all(workers: &[u32], ledger: &mut Ledger, acts: &mut Vec<Entry>) -> Result<(), OutOfMemory>
    requires { all_among workers.now (workers_of ledger.old) ≡ true }
    ensures { OnOk result ((p : Plan) →
        turn ledger.new p acts.new.items ≡
        shut_each workers.now (turn ledger.old p acts.old.items)) }
{
    for i in 0..workers.len() {
        shut(workers[i], ledger, acts)?;
    }
    Ok(())
}

// The worker is asked for its last `count` tests.
fn ask(
    alloc: Global,
    worker: u32,
    count: u32,
    asked: &mut Option<u32>,
    ledger: &Ledger,
    acts: &mut Vec<Entry>,
) -> Result<(), OutOfMemory>
    requires seated { in_rota worker ledger.now ≡ true }
    requires enough { count ≤ length (held worker ledger.now) }
    ensures open { OnOk result (asked.new ≡ Some worker) }
    ensures asks { OnOk result
        (acts.new.items ≡ acts.old.items
        ++ Steal worker (last_of count (held worker ledger.now)) ∷ []) }
{
    let indices = ledger.last_items(alloc, worker, count)?;
    acts.push(Entry::Steal { worker, indices })?;
    *asked = Some(worker);
    Ok(())
}

// Someone is asked, or these idle workers are shut down where nothing can be taken. No steal is open.
fn ask_or_shut(
    alloc: Global,
    workers: &[u32],
    asked: &mut Option<u32>,
    ledger: &mut Ledger,
    acts: &mut Vec<Entry>,
) -> Result<(), OutOfMemory>
    requires seats { all_distinct (workers_of ledger.old) ≡ true }
    requires seated { all_among workers.now (workers_of ledger.old) ≡ true }
    ensures { OnOk result ((p : Plan) → StandsForSteal asked.old p →
        MatchesTurn (asks_or_shuts workers.now (victim ledger.old)
        (turn ledger.old p acts.old.items)) ledger.new acts.new.items asked.new) }
{
    let Some(worker) = victim(ledger) else {
        return shut_all(workers, ledger, acts);
    };
    let count = number_of(ledger.held_len(worker));
    if count == 0 {
        return shut_all(workers, ledger, acts);
    }
    ask(alloc, worker, count, asked, ledger, acts)?;
    Ok(())
}

// Where someone is idle still and no steal is open, someone is asked.
fn after_dealing(
    alloc: Global,
    asked: &mut Option<u32>,
    ledger: &mut Ledger,
    acts: &mut Vec<Entry>,
) -> Result<(), OutOfMemory>
    requires { all_distinct (workers_of ledger.old) ≡ true }
    ensures { OnOk result ((p : Plan) → StandsForSteal asked.old p →
        MatchesTurn (after_dealing (turn ledger.old p acts.old.items)) ledger.new acts.new.items
        asked.new) }
{
    let workers = idle(alloc, ledger)?;
    if workers.items.is_empty() || asked.is_some() {
        return Ok(());
    }
    ask_or_shut(alloc, &workers.items, asked, ledger, acts)
}

// The rule: the pool is dealt evenly among the idle workers, then someone is asked for those that are idle still.
pub(crate) fn rule(
    alloc: Global,
    asked: &mut Option<u32>,
    ledger: &mut Ledger,
    acts: &mut Vec<Entry>,
) -> Result<(), OutOfMemory>
    requires { all_distinct (workers_of ledger.old) ≡ true }
    ensures { OnOk result ((p : Plan) → StandsForSteal asked.old p →
        MatchesTurn (rule (turn ledger.old p acts.old.items)) ledger.new acts.new.items asked.new) }
{
    let workers = idle(alloc, ledger)?;
    if workers.items.is_empty() {
        return Ok(());
    }
    deal(alloc, &workers.items, ledger, acts)?;
    after_dealing(alloc, asked, ledger, acts)
}
