// The peer's numbers that came.
ghost use Rattle.std.specs.Prelude.{◌≡◌, ◌≤◌, ◌==◌, ◌||◌, ℕ, false, OnOk, OnErr};
ghost use Rattle.xd_factory.specs.Numbers.{is_mine, is_known};
ghost use Rattle.xd_factory.specs.inner.Seen.{was_seen};

use crate::Parity;
use crate::runs::Runs;
use std::alloc::{AllocError, Global};

/// The numbers of the peer that a side has ever seen, each by its place among the numbers of its parity: numbers that
/// the peer opens one after another stand in one run.
#[derive(Drop)]
pub(crate) struct Seen {
    places: Runs,
}

impl Seen {
    /// No numbers.
    pub(crate) fn new(alloc: Global) -> Seen
        ensures none { (c : ℕ) → was_seen result c ≡ false }
    {
        Seen {
            places: Runs::new(alloc),
        }
    }

    /// Whether the number of the peer came.
    pub(crate) fn contains(&self, number: u32) -> bool
        ensures { result ≡ was_seen self.now number }
    {
        self.places.contains(number / 2)
    }

    /// The number of the peer came. It may have come before.
    pub(crate) fn insert(&mut self, parity: Parity, number: u32) -> Result<(), AllocError>
        requires peer { is_mine parity number ≡ false }
        requires number { number ≤ 2147483647 }
        ensures ok { OnOk result ((next : ℕ) → (c : ℕ) →
            is_known parity next self.new c ≡ (number == c) || is_known parity next self.old c) }
        ensures err { OnErr result ((next : ℕ) → (c : ℕ) →
            is_known parity next self.new c ≡ is_known parity next self.old c) }
    {
        self.places.insert(number / 2)
    }
}
