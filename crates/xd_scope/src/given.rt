// The units that each worker was given.
ghost use Rattle.std.specs.Prelude.{◌≡◌, ◌++◌, ◌∷◌, [], ◌==◌, ℕ, IfSome, IfNone, OnOk, if◌then◌else◌};
ghost use Rattle.xd_scope.specs.Stands.{given_to};

use std::alloc::Global;
use std::collections::BTreeMap;
use std::marker::Model;
use xd_edge::{Indices, OutOfMemory};

/// The units of one worker, in order of assignment.
#[derive(Drop)]
pub(crate) struct WorkerUnits {
    pub(crate) items: Vec<Indices>,
}

impl Model for WorkerUnits {
    ghost use Rattle.std.specs.Prelude.{ℕ, List};

    ghost Value = { List (List ℕ) };

    ghost view = { λ u. u.items.items };
}

// The worker's units, which leave the map.
fn taken(alloc: Global, worker: u32, given: &mut BTreeMap<u32, WorkerUnits>) -> WorkerUnits
    ensures units { result ≡ given_to worker given.old }
    ensures others { (w : ℕ) →
        given_to w given.new ≡ (if worker == w then [] else given_to w given.old) }
{
    match given.remove(&worker) {
        Some(units) => units,
        None => WorkerUnits {
            items: Vec::new(alloc),
        },
    }
}

// One more unit of the worker.
pub(crate) fn add_given(
    alloc: Global,
    worker: u32,
    tests: Indices,
    given: &mut BTreeMap<u32, WorkerUnits>,
) -> Result<(), OutOfMemory>
    ensures { OnOk result ((w : ℕ) →
        given_to w given.new ≡ (if worker == w then given_to w given.old
        ++ tests ∷ [] else given_to w given.old)) }
{
    let mut units = taken(alloc, worker, given);
    units.items.push(tests)?;
    let _ = given.insert(worker, units)?;
    Ok(())
}

// The worker's units, where it was given some.
pub(crate) fn units_of(worker: u32, given: &BTreeMap<u32, WorkerUnits>) -> Option<&WorkerUnits>
    ensures some { IfSome result (λ u. u.now ≡ given_to worker given.now) }
    ensures none { IfNone result (given_to worker given.now ≡ []) }
{
    given.get(&worker)
}
