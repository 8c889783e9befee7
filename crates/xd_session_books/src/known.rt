// What the session itself knows of the plan of a run.
ghost use Rattle.std.specs.Prelude.{◌≡◌, ◌+◌, ◌≤◌, ◌==◌, [], None, Some, OnOk, sum};
ghost use Rattle.xd_ledger.specs.Sound.{most_items};
ghost use Rattle.xd_run.specs.Deaths.{steal_without};
ghost use Rattle.xd_session_books.specs.Known.{asked_by, steal_of, first_item, known_by, steal_told, where_is};

use crate::plan::{KnownPlan, OpenSteal};
use std::alloc::Global;
use xd_books::is_each;
use xd_edge::{Indices, ModeKind, OutOfMemory, copy_indices};
use xd_journal::Entry;

// The open steal after an output of the mode.
fn ask_one(alloc: Global, act: &Entry, steal: &mut Option<OpenSteal>) -> Result<(), OutOfMemory>
    ensures { OnOk result (steal_of steal.new ≡ asked_by (steal_of steal.old) act.now) }
{
    if let Entry::Steal { worker, indices } = act {
        let tests = copy_indices(alloc, &indices.items)?;
        *steal = Some(OpenSteal {
            worker: *worker,
            tests,
        });
    }
    Ok(())
}

/// The open steal after these outputs of the mode.
pub fn ask(alloc: Global, acts: &[Entry], steal: &mut Option<OpenSteal>) -> Result<(), OutOfMemory>
    ensures { OnOk result (steal_of steal.new ≡ steal_told acts.now (steal_of steal.old)) }
{
    for i in 0..acts.len() {
        ask_one(alloc, &acts[i], steal)?;
    }
    Ok(())
}

/// The item at the head, where the index names it in a slot that begins with this item.
pub fn named(first: u32, index: u32, head: Option<u32>) -> Option<u32>
    ensures { result ≡ where_is (first + index) head }
{
    match head {
        Some(item) => {
            if item >= first && item - first == index {
                return Some(item);
            }
            None
        }
        None => None,
    }
}

/// How many tests these slots have together.
pub fn total_of(sizes: &[u32]) -> u32
    requires { sum sizes.now ≤ most_items }
    ensures { result ≡ sum sizes.now }
{
    let mut total = 0;
    for i in 0..sizes.len() {
        total += sizes[i];
    }
    total
}

impl KnownPlan {
    /// Nothing is shared yet.
    pub fn new(alloc: Global, mode: ModeKind) -> KnownPlan
        ensures { known_by result ≡ record { mode = mode; sizes = []; steal = None } }
    {
        KnownPlan {
            mode,
            sizes: Indices {
                items: Vec::new(alloc),
            },
            steal: None,
        }
    }

    /// The first item of the slot.
    pub fn first_item(&self, slot: u32) -> u32
        ensures { result ≡ first_item slot (known_by self.now) }
    {
        if !is_each(self.mode) {
            return 0;
        }
        let count = (slot as usize).min(self.sizes.items.len());
        total_of(&self.sizes.items[..count])
    }

    /// The worker went: a steal from it is open no more.
    pub fn forget_steal_of(&mut self, worker: u32)
        ensures { known_by self.new ≡ record (known_by self.old)
            { steal = steal_without worker (known_by self.old).steal } }
    {
        let Some(steal) = &self.steal else {
            return;
        };
        if steal.worker == worker {
            self.steal = None;
        }
    }
}
