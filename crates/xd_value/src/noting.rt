// The faults of a value that has no payload, noted in one walk.
ghost use Rattle.std.specs.Prelude.{◌≡◌, ◌&&◌, not, nat_lt, true, IfOk};
ghost use Rattle.xd_value.specs.Canonical.{all_pass, trees_pass, pairs_pass, keys_hashable};
ghost use Rattle.xd_value.specs.inner.Noted.{Noted};
ghost use Rattle.xd_value.specs.Tree.{depth, list, set, dict};
ghost use Rattle.xd_value.specs.View.{view, views, pair_views};

use crate::checks::{are_hashable, is_hashable};
use crate::distinct::{are_distinct, are_keys_distinct};
use crate::value::Value;
use std::alloc::{AllocError, Global};

/// Which faults a walk has seen.
#[derive(Drop)]
pub(crate) struct Faults {
    /// A key or an item of a set holds a list, a dict or a set.
    pub unhashable: bool,
    /// A key of a dict or an item of a set stands twice.
    pub repeated: bool,
    /// A channel number is 0 or over 2147483647.
    pub bad_channel: bool,
}

fn is_channel(n: u32) -> bool
    ensures { result ≡ (nat_lt 0 n && nat_lt n 2147483648) }
{
    0 < n && n < 0x8000_0000
}

fn are_keys_hashable(pairs: &[(Value, Value)]) -> bool
    ensures { result ≡ keys_hashable (pair_views pairs.now) }
{
    for pair in pairs {
        if !is_hashable(&pair.0) {
            return false;
        }
    }
    true
}

/// Whether the value nests at most `room` deep. Where it does, each fault of it is noted. A part
/// that lies too deep ends the walk, since no other fault comes before that one.
#[cycle(note)]
pub(crate) fn note(
    alloc: Global,
    faults: &mut Faults,
    value: &Value,
    room: u32,
) -> Result<bool, AllocError>
    ensures shallow { IfOk result (λ b. b ≡ not (nat_lt room (depth (view value.now)))) }
    ensures noted { IfOk result (λ b. b ≡ true
        → Noted faults.old faults.new (λ x. all_pass x (view value.now))) }
{
    match value {
        Value::None | Value::Bool(_) | Value::Int(_) | Value::Bytes(_) | Value::Text(_) => Ok(true),
        Value::Channel(n) => {
            faults.bad_channel |= !is_channel(*n);
            Ok(true)
        }
        Value::List(items) | Value::Tuple(items) => note_items(alloc, faults, items, room),
        Value::Set(items) | Value::FrozenSet(items) => note_set(alloc, faults, items, room),
        Value::Dict(pairs) => {
            let shallow = note_dict(alloc, faults, pairs, room)?;
            Ok(shallow)
        }
    }
}

/// As `note`, of the items of a list or a tuple.
#[cycle(note)]
fn note_items(
    alloc: Global,
    faults: &mut Faults,
    items: &[Value],
    room: u32,
) -> Result<bool, AllocError>
    ensures shallow { IfOk result (λ b. b ≡ not (nat_lt room (depth (list (views items.now))))) }
    ensures noted { IfOk result (λ b. b ≡ true
        → Noted faults.old faults.new (λ x. trees_pass x (views items.now))) }
{
    if room == 0 {
        return Ok(false);
    }
    for item in items {
        if !note(alloc, faults, item, room - 1)? {
            return Ok(false);
        }
    }
    Ok(true)
}

/// As `note`, of a set or a frozenset of these items.
#[cycle(note)]
fn note_set(
    alloc: Global,
    faults: &mut Faults,
    items: &[Value],
    room: u32,
) -> Result<bool, AllocError>
    ensures shallow { IfOk result (λ b. b ≡ not (nat_lt room (depth (set (views items.now))))) }
    ensures noted { IfOk result (λ b. b ≡ true
        → Noted faults.old faults.new (λ x. all_pass x (set (views items.now)))) }
{
    if !note_items(alloc, faults, items, room)? {
        return Ok(false);
    }
    faults.unhashable |= !are_hashable(items);
    faults.repeated |= !are_distinct(alloc, items)?;
    Ok(true)
}

/// As `note`, of a dict of these pairs.
#[cycle(note)]
fn note_dict(
    alloc: Global,
    faults: &mut Faults,
    pairs: &[(Value, Value)],
    room: u32,
) -> Result<bool, AllocError>
    ensures shallow { IfOk result (λ b.
        b ≡ not (nat_lt room (depth (dict (pair_views pairs.now))))) }
    ensures noted { IfOk result (λ b. b ≡ true
        → Noted faults.old faults.new (λ x. all_pass x (dict (pair_views pairs.now)))) }
{
    if !note_pairs(alloc, faults, pairs, room)? {
        return Ok(false);
    }
    faults.unhashable |= !are_keys_hashable(pairs);
    faults.repeated |= !are_keys_distinct(alloc, pairs)?;
    Ok(true)
}

/// As `note`, of keys and values.
#[cycle(note)]
fn note_pairs(
    alloc: Global,
    faults: &mut Faults,
    pairs: &[(Value, Value)],
    room: u32,
) -> Result<bool, AllocError>
    ensures shallow { IfOk result (λ b.
        b ≡ not (nat_lt room (depth (dict (pair_views pairs.now))))) }
    ensures noted { IfOk result (λ b. b ≡ true
        → Noted faults.old faults.new (λ x. pairs_pass x (pair_views pairs.now))) }
{
    if room == 0 {
        return Ok(false);
    }
    for pair in pairs {
        if !note(alloc, faults, &pair.0, room - 1)? || !note(alloc, faults, &pair.1, room - 1)? {
            return Ok(false);
        }
    }
    Ok(true)
}
