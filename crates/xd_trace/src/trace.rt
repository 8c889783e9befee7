// A list that clauses alone read.
ghost use Rattle.std.specs.Prelude.{◌≡◌, ◌<◌, [], ◌∷◌, ◌++◌, IfOk};
ghost use Rattle.rtrb.specs.Ring.{sent, received, known_free, producer_capacity, IsPair};

use rtrb::{Consumer, Producer, RingBuffer};
use std::alloc::Global;
use std::snapshot::Snapshot;
use xd_edge::OutOfMemory;

/// What was noted, in order. It keeps none of it, and a note takes no memory: each goes through a ring of room 1, whose
/// two ends stand here, and the ring's history is the list.
#[derive(Drop)]
pub struct Trace<T> {
    to: Producer<Snapshot<T>>,
    from: Consumer<Snapshot<T>>,
    ghost pair: { IsPair to from },
    ghost room: { 0 < producer_capacity to },
    ghost free: { 0 < known_free to },
    ghost empty: { received from ≡ sent to },
}

impl<T> Trace<T> {
    ghost use Rattle.xd_trace.specs.Noted.{noted};

    /// Nothing was noted yet. This alone takes memory.
    pub fn new(alloc: Global) -> Result<Trace<T>, OutOfMemory>
        ensures { IfOk result (λ trace. noted trace ≡ []) }
    {
        let (to, from) = RingBuffer::new(alloc, 1)?;
        Ok(Trace { to, from })
    }

    /// Notes what stands there now.
    pub fn note(&mut self, item: &T)
        ensures { noted self.new ≡ noted self.old ++ item.now ∷ [] }
    {
        self.to.push_reserved(Snapshot::of(item));
        self.from.slots_beside(&mut self.to);
        self.from.pop_known();
        self.to.slots_beside(&mut self.from);
    }
}
