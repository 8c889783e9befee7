// What the session itself keeps of the plan of a run.
ghost use Rattle.std.specs.Prelude.{◌≤◌, sum};
ghost use Rattle.xd_ledger.specs.Sound.{most_items};

use xd_edge::{Indices, ModeKind};

/// A steal that has no answer yet: who was asked, and for which tests.
#[derive(Drop)]
pub struct OpenSteal {
    pub worker: u32,
    pub tests: Indices,
}

/// The mode, how many tests each slot has, and the open steal. Items are named by it, and answers are judged.
#[derive(Drop)]
pub struct KnownPlan {
    pub mode: ModeKind,
    pub sizes: Indices,
    pub steal: Option<OpenSteal>,
    ghost few: { sum sizes ≤ most_items },
}
