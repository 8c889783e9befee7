// How two values stood at moments.
ghost use Rattle.std.specs.Prelude.{◌≡◌, [], ◌∷◌, ◌++◌, IfOk};

use crate::Trace;
use std::alloc::Global;
use std::snapshot::Snapshot;
use xd_edge::OutOfMemory;

/// How two values stood at moments, both at the same one each time, in order. Clauses alone read it, and it keeps nothing
/// of the two.
#[derive(Drop)]
pub struct Moments<A, B> {
    trace: Trace<(Snapshot<A>, Snapshot<B>)>,
}

impl<A, B> Moments<A, B> {
    ghost use Rattle.xd_trace.specs.Noted.{moments};

    /// No moment yet. This alone takes memory.
    pub fn new(alloc: Global) -> Result<Moments<A, B>, OutOfMemory>
        ensures { IfOk result (λ m. moments m ≡ []) }
    {
        let trace = Trace::new(alloc)?;
        Ok(Moments { trace })
    }

    /// One moment more: the two as they stand now.
    pub fn look(&mut self, first: &A, second: &B)
        ensures { moments self.new ≡ moments self.old ++ (first.now, second.now) ∷ [] }
    {
        self.trace
            .note(&(Snapshot::of(first), Snapshot::of(second)));
    }
}
