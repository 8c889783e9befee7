// The items that one worker holds.
ghost use Rattle.std.specs.Prelude.{◌≡◌, [], ◌∷◌, ◌++◌, ◌-◌, drop, length, OnOk, true, ◌↔◌};
ghost use Rattle.std.specs.List.Sorted.{IsStrictlyIncreasing};
ghost use Rattle.xd_run.specs.Numbers.{first_of, without};

use crate::numbers::is_among;
use std::alloc::Global;
use std::collections::VecDeque;
use std::marker::Model;
use xd_edge::OutOfMemory;

/// The items that a worker holds, the one that runs first in front. Contracts see the list.
///
/// A worker mostly gets items in rising order, completes the first and gives back the last. Where the list rises, each item
/// stands in it once, so the first one and the last ones are taken without a walk over the others.
#[derive(Drop)]
pub struct Held {
    items: VecDeque<u64>,
    rising: bool,
}

impl Model for Held {
    ghost use Rattle.std.specs.Prelude.{◌≡◌, ℕ, List, true, ◌↔◌};
    ghost use Rattle.std.specs.List.Sorted.{IsStrictlyIncreasing};

    ghost Value = { List ℕ };

    ghost view = { λ h. h.items.items };

    ghost invariant = { λ h. (h.rising ≡ true) ↔ IsStrictlyIncreasing h.items.items };
}

impl Held {
    /// Nothing is held.
    pub fn new(alloc: Global) -> Held
        ensures { result ≡ [] }
    {
        Held {
            items: VecDeque::new(alloc),
            rising: true,
        }
    }

    /// The item that runs first.
    pub fn first(&self) -> Option<u64>
        ensures { result ≡ first_of self.now }
    {
        self.items.front().copied()
    }

    /// These come after the others.
    pub fn add(&mut self, items: &[u64]) -> Result<(), OutOfMemory>
        ensures { OnOk result (self.new ≡ self.old ++ items.now) }
    {
        for &item in items {
            self.push(item)?;
        }
        Ok(())
    }

    // One more after the others.
    fn push(&mut self, item: u64) -> Result<(), OutOfMemory>
        ensures { OnOk result (self.new ≡ self.old ++ item ∷ []) }
    {
        let rising = self.rises_with(item);
        self.items.push_back(item)?;
        self.rising = rising;
        Ok(())
    }

    // Whether the list rises with this item after it.
    fn rises_with(&self, item: u64) -> bool
        ensures { (result ≡ true) ↔ IsStrictlyIncreasing (self.now ++ item ∷ []) }
    {
        match self.items.back() {
            Some(last) => self.rising && *last < item,
            None => true,
        }
    }

    /// These are held no more.
    pub fn take(&mut self, items: &[u64])
        ensures { self.new ≡ without items.now self.old }
    {
        if self.rising && is_first(&self.items, items) {
            self.items.pop_front();
        } else if self.rising && is_end(&self.items, items) {
            self.items.truncate(self.items.len() - items.len());
        } else {
            self.walk(items);
        }
    }

    // The same by a walk over all. What is left may rise where the list did not.
    fn walk(&mut self, items: &[u64])
        ensures { self.new ≡ without items.now self.old }
    {
        self.items.retain(|&item| !is_among(item, items));
        self.rising = rises(&self.items);
    }
}

// Whether they are the first one that is held, and no other.
fn is_first(held: &VecDeque<u64>, items: &[u64]) -> bool
    ensures { (result ≡ true) ↔ ((length items.now ≡ 1)
        × (first_of items.now ≡ first_of held.now.items)) }
{
    items.len() == 1 && items.first() == held.front()
}

// Whether they are the last ones that are held, in their order.
fn is_end(held: &VecDeque<u64>, items: &[u64]) -> bool
    ensures { (result ≡ true) ↔
        (drop (length held.now.items - length items.now) held.now.items ≡ items.now) }
{
    if held.len() < items.len() {
        return false;
    }
    let kept = held.len() - items.len();
    for i in 0..items.len() {
        if held[kept + i] != items[i] {
            return false;
        }
    }
    true
}

// Whether each one is larger than the one before it.
fn rises(items: &VecDeque<u64>) -> bool
    ensures { (result ≡ true) ↔ IsStrictlyIncreasing items.now.items }
{
    for i in 1..items.len() {
        if items[i] <= items[i - 1] {
            return false;
        }
    }
    true
}
