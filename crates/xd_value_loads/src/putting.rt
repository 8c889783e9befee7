// SETITEM: a value and its key go into the list or dict below them.
ghost use Rattle.std.specs.Prelude.{◌≡◌, ◌<◌, ◌||◌, suc, max, Some, None, IfOk, OnOk};
ghost use Rattle.xd_value.specs.Keys.{Knows};
ghost use Rattle.xd_value.specs.Reading.{Gives, set_item, put_one, is_index, item_fault as item_fault_of, pair_fault as pair_fault_of};
ghost use Rattle.xd_value_loads.specs.inner.Seats.{MarkFits, IsStack, seat, cell_of, cells_of, dict_cell, list_cell};
ghost use Rattle.xd_value.specs.Tree.{Tree, list, dict, same, has_key, depth as depth_of};
ghost use Rattle.xd_value.specs.View.{view, views, pair_views};

use crate::stack::{Mark, Stack};
use std::alloc::{AllocError, Global};
use xd_value::{Keys, LoadWhat, StepFault, Value, is_hashable};

#[inline(never)]
pub fn put(alloc: Global, stack: &mut Stack) -> Result<(), StepFault>
    requires stack { IsStack stack.old }
    ensures gives { Gives (λ _. cells_of stack.new) result (set_item (cells_of stack.old)) }
    ensures stack { OnOk result (IsStack stack.new) }
{
    let Some((value, value_mark)) = stack.pop() else {
        return Err(StepFault::Bad(LoadWhat::Misplaced));
    };
    let Some((key, key_mark)) = stack.pop() else {
        return Err(StepFault::Bad(LoadWhat::Misplaced));
    };
    let Stack { values, marks } = stack;
    let below = values.len();
    if below == 0 {
        return Err(StepFault::Bad(LoadWhat::Misplaced));
    }
    let last = below - 1;
    put_into(
        alloc,
        value,
        &value_mark,
        key,
        &key_mark,
        &mut values[last],
        &mut marks[last],
    )?;
    Ok(())
}

/// Puts a value and its key into a list or a dict.
fn put_into(
    alloc: Global,
    value: Value,
    value_mark: &Mark,
    key: Value,
    key_mark: &Mark,
    target: &mut Value,
    mark: &mut Mark,
) -> Result<(), StepFault>
    requires value { MarkFits (seat value value_mark.now) }
    requires key { MarkFits (seat key key_mark.now) }
    requires target { MarkFits (seat target.old mark.old) }
    ensures gives { Gives (λ _. cell_of (seat target.new mark.new)) result
        (put_one (cell_of (seat value value_mark.now)) (cell_of (seat key key_mark.now))
        (view target.old) mark.old.missing) }
    ensures target { OnOk result (MarkFits (seat target.new mark.new)) }
{
    match target {
        Value::List(items) => put_item(value, value_mark, key, key_mark, items, mark)?,
        Value::Dict(pairs) => put_pair(alloc, value, value_mark, key, key_mark, pairs, mark)?,
        _ => return Err(StepFault::Bad(LoadWhat::Misplaced)),
    }
    Ok(())
}

fn put_item(
    value: Value,
    value_mark: &Mark,
    key: Value,
    key_mark: &Mark,
    items: &mut Vec<Value>,
    mark: &mut Mark,
) -> Result<(), StepFault>
    requires value { value_mark.now.depth ≡ depth_of (view value) }
    requires measured { mark.old.depth ≡ depth_of (list (views items.old.items)) }
    ensures put { Gives (λ _. list_cell items.new mark.new.missing) result
        (put_one (cell_of (seat value value_mark.now)) (cell_of (seat key key_mark.now))
        (list (views items.old.items)) mark.old.missing) }
    ensures measured { OnOk result (mark.new.depth ≡ depth_of (list (views items.new.items))) }
{
    if let Some(what) = item_fault(value_mark, &key, key_mark, items.len(), mark.missing) {
        return Err(StepFault::Bad(what));
    }
    items.push(value)?;
    mark.missing -= 1;
    mark.depth = deepened(mark.depth, value_mark.depth);
    Ok(())
}

fn put_pair(
    alloc: Global,
    value: Value,
    value_mark: &Mark,
    key: Value,
    key_mark: &Mark,
    pairs: &mut Vec<(Value, Value)>,
    mark: &mut Mark,
) -> Result<(), StepFault>
    requires value { value_mark.now.depth ≡ depth_of (view value) }
    requires key { key_mark.now.depth ≡ depth_of (view key) }
    requires measured { mark.old.depth ≡ depth_of (dict (pair_views pairs.old.items)) }
    requires known { Knows mark.old.keys (λ t. has_key t (pair_views pairs.old.items)) }
    ensures put { Gives (λ _. dict_cell pairs.new mark.new.missing) result
        (put_one (cell_of (seat value value_mark.now)) (cell_of (seat key key_mark.now))
        (dict (pair_views pairs.old.items)) mark.old.missing) }
    ensures measured { OnOk result (mark.new.depth ≡ depth_of (dict (pair_views pairs.new.items))) }
    ensures known { OnOk result
        (Knows mark.new.keys (λ t. has_key t (pair_views pairs.new.items))) }
{
    if let Some(what) = pair_fault(alloc, value_mark, &key, key_mark, pairs, &mut mark.keys)? {
        return Err(StepFault::Bad(what));
    }
    mark.depth = deepened(deepened(mark.depth, key_mark.depth), value_mark.depth);
    pairs.push((key, value))?;
    Ok(())
}

/// Why the value and the key cannot go into a dict of these pairs. Where they can, the key stands
/// among the keys from now on.
#[tactic(auto, using(xd_value::proofs::Walks::ltb_max), unfolding(xd_value::specs::Reading::pair_fault))]
fn pair_fault(
    alloc: Global,
    value_mark: &Mark,
    key: &Value,
    key_mark: &Mark,
    pairs: &[(Value, Value)],
    keys: &mut Keys,
) -> Result<Option<LoadWhat>, AllocError>
    requires key { key_mark.now.depth ≡ depth_of (view key.now) }
    requires known { Knows keys.old (λ t. has_key t (pair_views pairs.now)) }
    ensures fault { IfOk result (λ f. (t : Tree) → value_mark.now.depth ≡ depth_of t
        → f ≡ pair_fault_of (record { value = t; missing = value_mark.now.missing })
        (cell_of (seat key.now key_mark.now)) (pair_views pairs.now)) }
    ensures known { IfOk result (λ f. f ≡ None
        → Knows keys.new (λ t. same t (view key.now) || has_key t (pair_views pairs.now))) }
    ensures shallow { IfOk result (λ f. f ≡ None →
        (key_mark.now.depth < 64) × (value_mark.now.depth < 64)) }
{
    if value_mark.missing != 0 || key_mark.missing != 0 {
        return Ok(Some(LoadWhat::ListOrder));
    }
    if !is_hashable(key) {
        return Ok(Some(LoadWhat::Unhashable));
    }
    if keys.repeats_key(alloc, key, pairs)? {
        return Ok(Some(LoadWhat::Repeated));
    }
    if key_mark.depth > 63 || value_mark.depth > 63 {
        return Ok(Some(LoadWhat::TooDeep));
    }
    Ok(None)
}

/// The depth of a value with a further part of this depth.
fn deepened(depth: u32, part: u32) -> u32
    requires { part < 64 }
    ensures { result ≡ max depth (suc part) }
{
    if part < depth { depth } else { part + 1 }
}

/// Why the value and the key cannot go into a list that has `len` items and lacks `missing`.
#[tactic(auto, unfolding(xd_value::specs::Reading::item_fault))]
fn item_fault(
    value_mark: &Mark,
    key: &Value,
    key_mark: &Mark,
    len: usize,
    missing: u32,
) -> Option<LoadWhat>
    ensures fault { (t : Tree) → value_mark.now.depth ≡ depth_of t
        → result ≡ item_fault_of (record { value = t; missing = value_mark.now.missing })
        (cell_of (seat key.now key_mark.now)) len missing }
    ensures room { result ≡ None → 0 < missing }
    ensures shallow { result ≡ None → value_mark.now.depth < 64 }
{
    if value_mark.missing != 0 || key_mark.missing != 0 || missing == 0 || !is_next(key, len) {
        return Some(LoadWhat::ListOrder);
    }
    if value_mark.depth > 63 {
        return Some(LoadWhat::TooDeep);
    }
    None
}

fn is_next(key: &Value, index: usize) -> bool
    ensures { result ≡ is_index (view key.now) index }
{
    if let Value::Int(n) = key {
        *n == index as i128
    } else {
        false
    }
}
