// A sink in memory.
ghost use Rattle.std.specs.Prelude.{◌≡◌, ◌≤◌, ◌<◌, ◌+◌, ◌-◌, ◌++◌, min, [], false, Some, length, take, vec_len, vec_capacity, IsTrue, IfOk, OnOk, OnErr, is_ok};
ghost use Rattle.xd_edge.specs.Faults.{Counted};

use std::alloc::Global;
use xd_edge::{Failed, FaultPlan, Indices, OutOfMemory, Sink};

/// A sink in memory, with room for a number of bytes. It fails at the calls of its plan, and where no room is left.
#[derive(Drop)]
pub struct MemSink {
    pub bytes: Vec<u8>,
    pub flushed: usize,
    pub closed: bool,
    pub room: usize,
    pub plan: FaultPlan,
    ghost roomy: { room ≤ vec_capacity bytes },
}

impl MemSink {
    ghost use Rattle.xd_memory.specs.MemSink.{sunk_of};

    /// Room for that many bytes, and none taken yet.
    pub fn new(alloc: Global, room: u32, fails: Indices) -> Result<MemSink, OutOfMemory>
        ensures empty { IfOk result (λ s.
            sunk_of s ≡ record { bytes = []; flushed = 0; closed = false }) }
        ensures room { IfOk result (λ s. s.room ≡ room) }
        ensures fails { IfOk result (λ s. s.plan.fails ≡ fails) }
        ensures count { IfOk result (λ s. s.plan.faults ≡ 0) }
    {
        Ok(MemSink {
            bytes: Vec::with_capacity(alloc, room as usize)?,
            flushed: 0,
            closed: false,
            room: room as usize,
            plan: FaultPlan::new(fails),
        })
    }
}

impl Sink for MemSink {
    ghost faults = { λ s. s.plan.faults };

    ghost sunk = { λ s. Some (record {
      bytes = s.bytes.items;
      flushed = s.flushed;
      closed = s.closed;
    }) };

    fn write(&mut self, piece: &[u8]) -> Result<usize, Failed>
        ensures count { IfOk result (λ n. n ≤ length piece.now) }
        ensures some { IfOk result (λ n. 0 < length piece.now → 0 < n) }
        ensures most { IfOk result (λ n.
            n ≡ min (self.old.room - vec_len self.old.bytes) (length piece.now)) }
        ensures took { IfOk result (λ n.
            self.new.bytes.items ≡ self.old.bytes.items ++ take n piece.now) }
        ensures kept { OnErr result (self.new.bytes.items ≡ self.old.bytes.items) }
        ensures marks { (self.new.flushed ≡ self.old.flushed)
            × (self.new.closed ≡ self.old.closed) }
        ensures room { (self.new.room ≡ self.old.room)
            × (self.new.plan.fails ≡ self.old.plan.fails) }
        ensures counted { Counted (is_ok result) self.old.plan.faults self.new.plan.faults }
        ensures calm { self.old.plan.fails ≡ [] →
            vec_len self.old.bytes + length piece.now ≤ self.old.room →
            self.new.plan.faults ≡ self.old.plan.faults }
        ensures calm_where_room_is_left { self.old.plan.fails ≡ [] →
            vec_len self.old.bytes < self.old.room →
            self.new.plan.faults ≡ self.old.plan.faults }
    {
        self.plan.step()?;
        let free = self.room.saturating_sub(self.bytes.len());
        let n = free.min(piece.len());
        if n == 0 && !piece.is_empty() {
            return Err(self.plan.fault());
        }
        match self.bytes.extend_from_slice(&piece[..n]) {
            Ok(()) => Ok(n),
            Err(_) => Err(self.plan.fault()),
        }
    }

    fn flush(&mut self) -> Result<(), Failed>
        ensures flushed { OnOk result (self.new.flushed ≡ length self.old.bytes.items) }
        ensures kept { OnErr result (self.new.flushed ≡ self.old.flushed) }
        ensures bytes { (self.new.bytes.items ≡ self.old.bytes.items)
            × (self.new.closed ≡ self.old.closed) }
        ensures room { (self.new.room ≡ self.old.room)
            × (self.new.plan.fails ≡ self.old.plan.fails) }
        ensures counted { Counted (is_ok result) self.old.plan.faults self.new.plan.faults }
        ensures calm { self.old.plan.fails ≡ [] → self.new.plan.faults ≡ self.old.plan.faults }
    {
        self.plan.step()?;
        self.flushed = self.bytes.len();
        Ok(())
    }

    fn close(&mut self) -> Result<(), Failed>
        ensures closed { OnOk result (IsTrue self.new.closed) }
        ensures kept { OnErr result (self.new.closed ≡ self.old.closed) }
        ensures bytes { (self.new.bytes.items ≡ self.old.bytes.items)
            × (self.new.flushed ≡ self.old.flushed) }
        ensures room { (self.new.room ≡ self.old.room)
            × (self.new.plan.fails ≡ self.old.plan.fails) }
        ensures counted { Counted (is_ok result) self.old.plan.faults self.new.plan.faults }
        ensures calm { self.old.plan.fails ≡ [] → self.new.plan.faults ≡ self.old.plan.faults }
    {
        self.plan.step()?;
        self.closed = true;
        Ok(())
    }
}
