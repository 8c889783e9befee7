// A set of numbers that is kept as runs.
ghost use Rattle.std.specs.Prelude.{◌≡◌, ◌≤◌, ◌<◌, ◌+◌, ◌-◌, ◌==◌, true, ◌||◌, ℕ, false, Some, None, IfSome, IfNone, OnOk, OnErr};
ghost use Rattle.std.specs.Option.{IsSome};
ghost use Rattle.std.specs.Ordering.{nat_cmp};
ghost use Rattle.std.specs.BTreeMap.{get, IsOrdered};

use std::alloc::{AllocError, Global};
use std::collections::BTreeMap;

/// A set of numbers, kept as runs: each run is a first and a last number with all between them, and no two runs touch.
/// So its memory grows with the gaps between its numbers, and not with the numbers.
#[derive(Drop)]
pub(crate) struct Runs {
    // the last number of each run, under its first
    lasts: BTreeMap<u32, u32>,
    ghost forward: { (a : ℕ) → (b : ℕ) → get nat_cmp lasts a ≡ Some b → a ≤ b },
    ghost apart: { (a : ℕ) → (b : ℕ) → (c : ℕ) → get nat_cmp lasts a ≡ Some b → a < c →
        IsSome (get nat_cmp lasts c) → b + 1 < c },
}

// The first and the last number of a run.
#[derive(Clone, Copy)]
struct Run {
    first: u32,
    last: u32,
}

impl Runs {
    ghost use Rattle.xd_factory.specs.inner.Runs.{in_runs};

    /// No numbers.
    pub(crate) fn new(alloc: Global) -> Runs
        ensures none { (c : ℕ) → in_runs result c ≡ false }
    {
        Runs {
            lasts: BTreeMap::new(alloc),
        }
    }

    /// Whether the number is in the set.
    pub(crate) fn contains(&self, number: u32) -> bool
        ensures { result ≡ in_runs self.now number }
    {
        match self.run_before(number) {
            Some(run) => number <= run.last,
            None => false,
        }
    }

    /// Adds a number, which may be in the set. Runs that it joins become one.
    pub(crate) fn insert(&mut self, number: u32) -> Result<(), AllocError>
        requires { number < 4294967295 }
        ensures ok { OnOk result
            ((c : ℕ) → in_runs self.new c ≡ (number == c) || in_runs self.old c) }
        ensures err { OnErr result ((c : ℕ) → in_runs self.new c ≡ in_runs self.old c) }
    {
        let Some(first) = self.first_joined(number) else {
            return Ok(());
        };
        let last = self.lasts.get(&(number + 1)).copied().unwrap_or(number);
        match self.lasts.insert(first, last) {
            Ok(_) => {
                self.lasts.remove(&(number + 1));
                Ok(())
            }
            Err(_) => Err(AllocError),
        }
    }

    // The first number of the run that the number lengthens, or the number itself; none where it is in the set.
    fn first_joined(&self, number: u32) -> Option<u32>
        ensures known { IfNone result (in_runs self.now number ≡ true) }
        ensures below { IfSome result (λ a. a ≤ number) }
        ensures starts { IfSome result (λ a. a < number →
            get nat_cmp self.now.lasts a ≡ Some (number - 1)) }
        ensures free { IfSome result (λ a. (q : ℕ) → (b : ℕ) →
            get nat_cmp self.now.lasts q ≡ Some b → q ≤ number → b < number) }
        ensures ends { IfSome result (λ a. (q : ℕ) → (b : ℕ) →
            get nat_cmp self.now.lasts q ≡ Some b → b + 1 ≡ number → q ≡ a) }
    {
        match self.run_before(number) {
            Some(run) if number <= run.last => None,
            Some(run) if number - run.last == 1 => Some(run.first),
            _ => Some(number),
        }
    }

    // The last run that starts at the number or before it.
    fn run_before(&self, number: u32) -> Option<Run>
        ensures run { IfSome result (λ r. get nat_cmp self.now.lasts r.first ≡ Some r.last) }
        ensures before { IfSome result (λ r. r.first ≤ number) }
        ensures greatest { IfSome result (λ r. (q : ℕ) → q ≤ number →
            IsSome (get nat_cmp self.now.lasts q) → q ≤ r.first) }
        ensures ordered { IsOrdered nat_cmp self.now.lasts }
        ensures none { IfNone result ((q : ℕ) → q ≤ number → get nat_cmp self.now.lasts q ≡ None) }
    {
        match self.lasts.range(..=number).next_back() {
            Some((first, last)) => Some(Run {
                first: *first,
                last: *last,
            }),
            None => None,
        }
    }
}
