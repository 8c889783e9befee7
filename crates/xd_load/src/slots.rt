// The tests of a slot.
ghost use Rattle.std.specs.Prelude.{◌≡◌, ◌+◌, ◌-◌, ◌<◌, ◌^◌, ◌++◌, ◌∷◌, [], OnOk, IfOk, true, filter, length, map};
ghost use Rattle.std.specs.List.{range_with_len};
ghost use Rattle.xd_journal.specs.declared.entry.Entry.TheVariants.{RunAll};
ghost use Rattle.xd_ledger.specs.Calls.{turn};
ghost use Rattle.xd_run.specs.Each.{give_all, give_of_slot, joins, remainder, each_share};
ghost use Rattle.xd_run.specs.Numbers.{all_among, all_distinct, among};
ghost use Rattle.xd_run.specs.Plan.{Plan};
ghost use Rattle.xd_run.specs.Table.{assigned, in_rota, workers_of};
ghost use Rattle.xd_load.specs.Slots.{AreWaiting, InSlots, items_in};

use crate::sizes::Sizes;
use std::alloc::Global;
use xd_edge::{Indices, OutOfMemory};
use xd_journal::Entry;
use xd_ledger::{Ledger, shut};

// The worker gets all tests of its slot.
fn tell_all(
    alloc: Global,
    sizes: &Sizes,
    worker: u32,
    slot: u32,
    ledger: &mut Ledger,
    acts: &mut Vec<Entry>,
) -> Result<(), OutOfMemory>
    requires seated { in_rota worker ledger.old ≡ true }
    requires waiting { all_among (items_in slot sizes.now) ledger.old.pool ≡ true }
    ensures table { OnOk result
        (ledger.new ≡ assigned worker (items_in slot sizes.now) ledger.old) }
    ensures acts { OnOk result (acts.new.items ≡ acts.old.items ++ RunAll worker ∷ []) }
{
    let items = sizes.items(alloc, slot)?;
    ledger.assign(worker, &items.items)?;
    acts.push(Entry::RunAll { worker })?;
    Ok(())
}

// The worker gets all tests of its slot, and runs them to the last one.
fn give_all(
    alloc: Global,
    sizes: &Sizes,
    worker: u32,
    slot: u32,
    ledger: &mut Ledger,
    acts: &mut Vec<Entry>,
) -> Result<(), OutOfMemory>
    requires seated { in_rota worker ledger.old ≡ true }
    requires waiting { all_among (items_in slot sizes.now) ledger.old.pool ≡ true }
    ensures { OnOk result ((p : Plan) → InSlots sizes.now p →
        turn ledger.new p acts.new.items ≡
        give_all worker slot (turn ledger.old p acts.old.items)) }
{
    tell_all(alloc, sizes, worker, slot, ledger, acts)?;
    shut(worker, ledger, acts)?;
    Ok(())
}

// Each worker of the rota gets all tests of its slot.
pub(crate) fn share(
    alloc: Global,
    sizes: &Sizes,
    slots: &[u32],
    ledger: &mut Ledger,
    acts: &mut Vec<Entry>,
) -> Result<(), OutOfMemory>
    requires each_has_one { length slots.now ≡ length (workers_of ledger.old) }
    requires distinct { all_distinct slots.now ≡ true }
    requires waiting { AreWaiting slots.now sizes.now ledger.old.pool }
    ensures { OnOk result ((p : Plan) → InSlots sizes.now p →
        turn ledger.new p acts.new.items ≡
        each_share slots.now (turn ledger.old p acts.old.items)) }
{
    for place in 0..ledger.rota_len() {
        let worker = ledger.rota_at(place);
        let slot = slots[place as usize];
        give_all(alloc, sizes, worker, slot, ledger, acts)?;
    }
    Ok(())
}

// The item too, where it is one of the `size` items from the first on.
fn add_within(item: u32, first: u32, size: u32, items: &mut Vec<u32>) -> Result<(), OutOfMemory>
    requires { first + size < 2 ^ 32 }
    ensures { OnOk result (items.new.items ≡ items.old.items
        ++ filter (λ i. among i (range_with_len first size)) (item ∷ [])) }
{
    if first <= item && item < first + size {
        items.push(item)?;
    }
    Ok(())
}

// What waits for a new worker of the slot, in the pool's order.
fn remainder(
    alloc: Global,
    sizes: &Sizes,
    slot: u32,
    ledger: &Ledger,
) -> Result<Indices, OutOfMemory>
    requires { all_distinct ledger.now.pool ≡ true }
    ensures { IfOk result (λ r.
        r ≡ filter (λ i. among i (items_in slot sizes.now)) ledger.now.pool) }
{
    let first = sizes.first(slot);
    let size = sizes.at(slot);
    let mut items = Vec::new(alloc);
    let mut next = ledger.first_pool();
    for place in 0..ledger.pool_len() {
        let item = next.unwrap();
        add_within(item, first, size, &mut items)?;
        next = ledger.next_item(item);
    }
    Ok(Indices { items })
}

// The places of these items, counted from the first one.
fn places_of(alloc: Global, first: u32, items: &[u32]) -> Result<Indices, OutOfMemory>
    ensures { IfOk result (λ r. r ≡ map (λ item. item - first) items.now) }
{
    let places = items
        .iter()
        .map(|item| item.saturating_sub(first))
        .collect(alloc)?;
    Ok(Indices { items: places })
}

// These items of the slot, named by their places in it.
fn give_of_slot(
    alloc: Global,
    sizes: &Sizes,
    worker: u32,
    slot: u32,
    items: &[u32],
    ledger: &mut Ledger,
    acts: &mut Vec<Entry>,
) -> Result<(), OutOfMemory>
    requires seated { in_rota worker ledger.old ≡ true }
    requires distinct { all_distinct items.now ≡ true }
    requires within { all_among items.now ledger.old.pool ≡ true }
    ensures { OnOk result ((p : Plan) → InSlots sizes.now p →
        turn ledger.new p acts.new.items ≡ give_of_slot worker slot items.now
        (turn ledger.old p acts.old.items)) }
{
    if items.len() == 0 {
        return Ok(());
    }
    let indices = places_of(alloc, sizes.first(slot), items)?;
    ledger.assign(worker, items)?;
    acts.push(Entry::Run { worker, indices })?;
    Ok(())
}

// A worker that joins after the share gets what is left of its slot.
pub(crate) fn join(
    alloc: Global,
    sizes: &Sizes,
    worker: u32,
    slot: u32,
    ledger: &mut Ledger,
    acts: &mut Vec<Entry>,
) -> Result<(), OutOfMemory>
    requires seated { in_rota worker ledger.old ≡ true }
    requires distinct { all_distinct ledger.old.pool ≡ true }
    ensures { OnOk result ((p : Plan) → InSlots sizes.now p →
        turn ledger.new p acts.new.items ≡ joins worker slot (turn ledger.old p acts.old.items)) }
{
    let items = remainder(alloc, sizes, slot, ledger)?;
    give_of_slot(alloc, sizes, worker, slot, &items.items, ledger, acts)?;
    shut(worker, ledger, acts)?;
    Ok(())
}
