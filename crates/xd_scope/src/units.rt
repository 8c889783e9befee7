// The units of a run.
ghost use Rattle.std.specs.Prelude.{◌≡◌, ◌∷◌, [], IfNone, IfSome};

use crate::given::WorkerUnits;
use std::collections::{BTreeMap, VecDeque};
use xd_edge::{Indices, ModeKind};

/// The units that wait, in the order in which they are handed out, and those that each worker was given.
#[derive(Drop)]
pub(crate) struct Units {
    pub(crate) kind: ModeKind,
    pub(crate) reorder: bool,
    pub(crate) queue: VecDeque<Indices>,
    pub(crate) given: BTreeMap<u32, WorkerUnits>,
}

// The unit at the queue's front, which leaves it.
pub(crate) fn next_unit(queue: &mut VecDeque<Indices>) -> Option<Indices>
    ensures some { IfSome result (λ u. queue.old.items ≡ u ∷ queue.new.items) }
    ensures none { IfNone result (queue.old.items ≡ []) }
    ensures same { IfNone result (queue.new.items ≡ []) }
{
    queue.pop_front()
}
