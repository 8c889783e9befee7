// How many tests each slot has.
ghost use Rattle.std.specs.Prelude.{◌≡◌, ◌+◌, ◌<◌, ◌^◌, [], sum, slice_index, IfOk};
ghost use Rattle.std.specs.List.{range_with_len};
ghost use Rattle.xd_load.specs.Slots.{first_in, items_in};

use std::alloc::Global;
use std::marker::Model;
use xd_edge::{Indices, OutOfMemory};

/// How many tests each slot has, in order of slots.
#[derive(Drop)]
pub(crate) struct Sizes {
    items: Vec<u32>,
}

impl Model for Sizes {
    ghost use Rattle.std.specs.Prelude.{ℕ, List, ◌<◌, ◌^◌, sum};

    ghost Value = { List ℕ };

    ghost view = { λ s. s.items.items };

    ghost invariant = { λ s. sum s.items.items < 2 ^ 32 };
}

// That many numbers, from this one on.
#[tactic(auto, using(xd_run::proofs::Counts::range_more))]
fn range(alloc: Global, start: u32, len: u32) -> Result<Indices, OutOfMemory>
    requires { start + len < 2 ^ 32 }
    ensures { IfOk result (λ r. r ≡ range_with_len start len) }
{
    let mut items = Vec::with_capacity(alloc, len as usize)?;
    for i in 0..len {
        items.push(start + i)?;
    }
    Ok(Indices { items })
}

// The first item of the slot, where the slots have these sizes.
fn first_of(sizes: &[u32], slot: u32) -> u32
    requires { sum sizes.now < 2 ^ 32 }
    ensures first { result ≡ first_in slot sizes.now }
    ensures fits { result + slice_index sizes.now slot < 2 ^ 32 }
{
    let end = sizes.len().min(slot as usize);
    let mut first = 0;
    for i in 0..end {
        first += sizes[i];
    }
    first
}

// The slot's number, 0 where there is no such slot.
fn size_at(sizes: &[u32], slot: u32) -> u32
    ensures { result ≡ slice_index sizes.now slot }
{
    let slot = slot as usize;
    if slot < sizes.len() { sizes[slot] } else { 0 }
}

impl Sizes {
    /// No slot.
    pub(crate) fn none(alloc: Global) -> Sizes
        ensures { result ≡ [] }
    {
        Sizes {
            items: Vec::new(alloc),
        }
    }

    /// These numbers, which have this sum.
    pub(crate) fn of(alloc: Global, sizes: &[u32], _total: u32) -> Result<Sizes, OutOfMemory>
        requires { sum sizes.now ≡ _total }
        ensures { IfOk result (λ r. r ≡ sizes.now) }
    {
        let items = Vec::from_slice(alloc, sizes)?;
        Ok(Sizes { items })
    }

    /// How many tests the slot has.
    pub(crate) fn at(&self, slot: u32) -> u32
        ensures { result ≡ slice_index self.now slot }
    {
        size_at(&self.items, slot)
    }

    /// The first item of the slot.
    pub(crate) fn first(&self, slot: u32) -> u32
        ensures first { result ≡ first_in slot self.now }
        ensures fits { result + slice_index self.now slot < 2 ^ 32 }
    {
        first_of(&self.items, slot)
    }

    /// The items of the slot.
    pub(crate) fn items(&self, alloc: Global, slot: u32) -> Result<Indices, OutOfMemory>
        ensures { IfOk result (λ r. r ≡ items_in slot self.now) }
    {
        let items = range(alloc, self.first(slot), self.at(slot))?;
        Ok(items)
    }
}
