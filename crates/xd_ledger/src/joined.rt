// Who joined.
ghost use Rattle.std.specs.Prelude.{◌≡◌, ◌++◌, ◌∷◌, [], is_ok, if◌then◌else◌};
ghost use Rattle.xd_run.specs.Numbers.{among};

use std::alloc::Global;
use std::collections::BTreeSet;
use std::marker::Model;
use xd_edge::OutOfMemory;

/// Numbers of workers, in the order in which they joined. Whether one is among them takes no walk over all.
#[derive(Drop)]
pub(crate) struct Joined {
    workers: Vec<u32>,
    known: BTreeSet<u32>,
}

impl Model for Joined {
    ghost use Rattle.std.specs.Prelude.{◌≡◌, ℕ, List};
    ghost use Rattle.std.specs.BTreeSet.{contains};
    ghost use Rattle.std.specs.Ordering.{nat_cmp};
    ghost use Rattle.xd_run.specs.Numbers.{among};

    ghost Value = { List ℕ };

    ghost view = { λ j. j.workers.items };

    ghost invariant = { λ j. (worker : ℕ) →
        contains nat_cmp j.known worker ≡ among worker j.workers.items };
}

impl Joined {
    // No one yet.
    pub(crate) fn new(alloc: Global) -> Joined
        ensures { result ≡ [] }
    {
        Joined {
            workers: Vec::new(alloc),
            known: BTreeSet::new(alloc),
        }
    }

    // One more.
    pub(crate) fn add(&mut self, worker: u32) -> Result<(), OutOfMemory>
        ensures { self.new ≡ (if is_ok result then self.old ++ worker ∷ [] else self.old) }
    {
        self.workers.reserve(1)?;
        self.known.insert(worker)?;
        self.workers.push_reserved(worker);
        Ok(())
    }

    // The worker is one of them.
    pub(crate) fn has(&self, worker: u32) -> bool
        ensures { result ≡ among worker self.now }
    {
        self.known.contains(&worker)
    }
}
