// What comes back from a worker that died.
ghost use Rattle.std.specs.Prelude.{◌≡◌, ◌≤◌, ◌++◌, ◌∷◌, ℕ, List, OnOk, IfOk, [], filter, length, true};
ghost use Rattle.std.specs.BTreeSet.{contains};
ghost use Rattle.std.specs.Ordering.{nat_cmp};
ghost use Rattle.xd_ledger.specs.Calls.{last_of};
ghost use Rattle.xd_run.specs.Numbers.{all_distinct};
ghost use Rattle.xd_run.specs.Table.{retried_item};
ghost use Rattle.xd_run.specs.Units.{unless_empty};
ghost use Rattle.xd_scope.specs.Stands.{IsSetOf, given_to, left_of, left_of_each};

use crate::given::{WorkerUnits, units_of};
use std::alloc::Global;
use std::collections::{BTreeMap, BTreeSet, VecDeque};
use xd_edge::{Indices, OutOfMemory};
use xd_ledger::Ledger;

// The last `rest` items of the pool.
fn last_items(alloc: Global, rest: u32, ledger: &Ledger) -> Result<BTreeSet<u32>, OutOfMemory>
    requires distinct { all_distinct ledger.now.pool ≡ true }
    requires within { rest ≤ length ledger.now.pool }
    ensures { IfOk result (λ r. IsSetOf (last_of rest ledger.now.pool) r) }
{
    let mut items = BTreeSet::new(alloc);
    let mut next = ledger.last_pool();
    for done in 0..rest {
        let item = next.unwrap();
        items.insert(item)?;
        next = ledger.previous_item(item);
    }
    Ok(items)
}

// The test too, where it is among the items.
fn add_if_left(test: u32, items: &BTreeSet<u32>, tests: &mut Vec<u32>) -> Result<(), OutOfMemory>
    ensures { OnOk result (tests.new.items ≡ tests.old.items
        ++ filter (λ t. contains nat_cmp items.now t) (test ∷ [])) }
{
    if items.contains(&test) {
        tests.push(test)?;
    }
    Ok(())
}

// The tests that are among the items.
fn tests_left(alloc: Global, tests: &[u32], items: &BTreeSet<u32>) -> Result<Indices, OutOfMemory>
    ensures { IfOk result (λ r. r ≡ filter (λ t. contains nat_cmp items.now t) tests.now) }
{
    let mut left = Vec::new(alloc);
    for test in tests {
        add_if_left(*test, items, &mut left)?;
    }
    Ok(Indices { items: left })
}

// What is left of the unit goes to the queue's end.
fn keep_one(
    alloc: Global,
    items: &BTreeSet<u32>,
    unit: &Indices,
    queue: &mut VecDeque<Indices>,
) -> Result<(), OutOfMemory>
    ensures { OnOk result ((rest : List ℕ) → IsSetOf rest items.now →
        queue.new.items ≡ queue.old.items ++ left_of rest unit.now) }
{
    let tests = tests_left(alloc, &unit.items, items)?;
    if tests.items.len() == 0 {
        return Ok(());
    }
    queue.push_back(tests)?;
    Ok(())
}

// What is left of each of these units goes to the queue's end, in order.
fn keep_each(
    alloc: Global,
    items: &BTreeSet<u32>,
    units: &[Indices],
    queue: &mut VecDeque<Indices>,
) -> Result<(), OutOfMemory>
    ensures { OnOk result ((rest : List ℕ) → IsSetOf rest items.now →
        queue.new.items ≡ queue.old.items ++ left_of_each rest units.now) }
{
    for unit in units {
        keep_one(alloc, items, unit, queue)?;
    }
    Ok(())
}

// The tests of the worker's units that are among the last `rest` items of the pool wait again, those of a unit
// together, in order of assignment.
pub(crate) fn keep_rest(
    alloc: Global,
    worker: u32,
    rest: u32,
    ledger: &Ledger,
    given: &BTreeMap<u32, WorkerUnits>,
    queue: &mut VecDeque<Indices>,
) -> Result<(), OutOfMemory>
    requires { all_distinct ledger.now.pool ≡ true }
    ensures { OnOk result (
        queue.new.items ≡ queue.old.items
        ++ left_of_each (last_of rest ledger.now.pool) (given_to worker given.now)) }
{
    let Some(units) = units_of(worker, given) else {
        return Ok(());
    };
    let items = last_items(alloc, rest.min(ledger.pool_len()), ledger)?;
    keep_each(alloc, &items, &units.items, queue)?;
    Ok(())
}

// A test that is tried again is the first of the pool. It goes to the queue's front, as a unit of its own.
pub(crate) fn keep_retried(
    alloc: Global,
    retried: bool,
    ledger: &Ledger,
    queue: &mut VecDeque<Indices>,
) -> Result<(), OutOfMemory>
    ensures { OnOk result (queue.new.items ≡ unless_empty (retried_item retried ledger.now.pool)
        ++ queue.old.items) }
{
    if !retried {
        return Ok(());
    }
    let Some(test) = ledger.first_pool() else {
        return Ok(());
    };
    let items = Vec::from_slice(alloc, &[test])?;
    queue.push_front(Indices { items })?;
    Ok(())
}
