// The units of a collection.
ghost use Rattle.std.specs.Prelude.{◌≡◌, ◌∷◌, ◌++◌, [], ◌<◌, ◌≤◌, List, OnOk, IfOk, true, map, length, slice_index_or, slice_set};
ghost use Rattle.std.specs.BTreeMap.{get_by};
ghost use Rattle.std.specs.Cmp.Lexicographic.{slice_cmp};
ghost use Rattle.std.specs.Ordering.{nat_cmp};
ghost use Rattle.std.specs.Str.{chars};
ghost use Rattle.xd_run.specs.Plan.{is_scope};
ghost use Rattle.xd_run.specs.Units.{Group, added, grouped, units};
ghost use Rattle.xd_scope.specs.Stands.{AreGrouped};

use crate::names::scope_of;
use crate::order::sort_largest_first;
use std::alloc::Global;
use std::collections::{BTreeMap, VecDeque};
use xd_edge::{Indices, ModeKind, OutOfMemory, Text};

// The unit's place, where the scope has one.
fn place_of(places: &BTreeMap<&str, usize>, scope: &str) -> Option<usize>
    ensures { result ≡ get_by (λ k. slice_cmp nat_cmp scope.now k.now) places.now }
{
    places.get(scope).copied()
}

// One more test of the unit at this place.
fn add_test(units: &mut Vec<Indices>, place: usize, test: u32) -> Result<(), OutOfMemory>
    requires { place < length units.old.items }
    ensures { OnOk result (units.new.items ≡ slice_set units.old.items place
        (slice_index_or units.old.items place [] ++ test ∷ [])) }
{
    units[place].items.push(test)?;
    Ok(())
}

// One more unit, which has this test.
fn add_unit(alloc: Global, units: &mut Vec<Indices>, test: u32) -> Result<(), OutOfMemory>
    ensures { OnOk result (units.new.items ≡ units.old.items ++ (test ∷ []) ∷ []) }
{
    let items = Vec::from_slice(alloc, &[test])?;
    units.push(Indices { items })?;
    Ok(())
}

// The test goes to the unit of its scope, a new one where the scope has none.
fn add<'a>(
    alloc: Global,
    scope: &'a str,
    test: u32,
    places: &mut BTreeMap<&'a str, usize>,
    units: &mut Vec<Indices>,
) -> Result<(), OutOfMemory>
    requires { (gs : List Group) × AreGrouped gs places.old units.old.items }
    ensures { OnOk result ((gs : List Group) → AreGrouped gs places.old units.old.items →
        AreGrouped (added (chars scope.now) test gs) places.new units.new.items) }
{
    match place_of(places, scope) {
        Some(place) => {
            add_test(units, place, test)?;
            Ok(())
        }
        None => {
            let _ = places.insert(scope, units.len())?;
            add_unit(alloc, units, test)?;
            Ok(())
        }
    }
}

// The tests of each scope, in order of first appearance; there are at most `_most` ids.
fn grouped(
    alloc: Global,
    kind: ModeKind,
    ids: &[Text],
    _most: u32,
) -> Result<Vec<Indices>, OutOfMemory>
    requires kind { is_scope kind ≡ true }
    requires few { length ids.now ≤ _most }
    ensures { IfOk result (λ r. r.items ≡ map (λ g. g.tests) (grouped kind 0 ids.now [])) }
{
    let mut places = BTreeMap::new(alloc);
    let mut units = Vec::new(alloc);
    for test in 0..ids.len() {
        let scope = scope_of(kind, ids[test].as_str());
        add(alloc, scope, test as u32, &mut places, &mut units)?;
    }
    Ok(units)
}

/// The units of a collection, in the order in which they are handed out; it has at most `most` ids.
pub(crate) fn units_of(
    alloc: Global,
    kind: ModeKind,
    reorder: bool,
    ids: &[Text],
    most: u32,
) -> Result<VecDeque<Indices>, OutOfMemory>
    requires kind { is_scope kind ≡ true }
    requires few { length ids.now ≤ most }
    ensures { IfOk result (λ r. r.items ≡ units kind reorder ids.now) }
{
    let mut units = grouped(alloc, kind, ids, most)?;
    if reorder {
        sort_largest_first(&mut units)?;
    }
    Ok(VecDeque::from(units))
}
