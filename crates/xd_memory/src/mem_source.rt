// A source in memory.
ghost use Rattle.std.specs.Prelude.{[], ◌≡◌, ◌≤◌, ◌<◌, ◌+◌, ◌||◌, min, false, Some, length, take, drop, All, IsTrue, IfOk, OnErr, is_ok};
ghost use Rattle.xd_edge.specs.Faults.{Counted};
ghost use Rattle.xd_link.specs.Source.{Gave, is_end_of_input};
ghost use Rattle.xd_memory.specs.MemSource.{most_at, supply_at};

use std::sync::Wait;
use xd_edge::{Blob, Failed, FaultPlan, Indices};
use xd_link::Source;

/// A source in memory. Read number `i`, counted from 0, gives at most `pieces[i]` bytes, and after that list as many
/// as are asked for and left. It fails at the reads of its plan.
#[derive(Drop)]
pub struct MemSource {
    pub bytes: Blob,
    pub pieces: Indices,
    pub given: usize,
    pub is_ended: bool,
    pub plan: FaultPlan,
    ghost within: { given ≤ length bytes },
    ghost all_given: { IsTrue is_ended → given ≡ length bytes },
    ghost some: { All (λ n. 0 < n) pieces },
}

impl MemSource {
    /// These bytes, of which none is given.
    pub fn new(bytes: Blob, pieces: Indices, fails: Indices) -> MemSource
        // No piece is empty.
        requires { All (λ n. 0 < n) pieces }
        ensures bytes { result.bytes ≡ bytes }
        ensures pieces { result.pieces ≡ pieces }
        ensures given { result.given ≡ 0 }
        ensures ended { result.is_ended ≡ false }
        ensures fails { result.plan.fails ≡ fails }
        ensures count { result.plan.faults ≡ 0 }
    {
        MemSource {
            bytes,
            pieces,
            given: 0,
            is_ended: false,
            plan: FaultPlan::new(fails),
        }
    }
}

// The most that a read may give.
fn piece_length(pieces: &[u32], read: u64) -> usize
    requires { All (λ n. 0 < n) pieces.now }
    ensures some { 0 < result }
    ensures most { result ≡ most_at pieces.now read }
{
    match usize::try_from(read) {
        Ok(read) => match pieces.get(read) {
            Some(&length) => length as usize,
            None => usize::MAX,
        },
        Err(_) => usize::MAX,
    }
}

// Copies as many of the bytes after those that were given as fit the buffer and the piece.
fn give(bytes: &[u8], given: usize, piece: usize, into: &mut [u8]) -> usize
    requires inside { given ≤ length bytes.now }
    requires some { 0 < piece }
    ensures count { result ≤ length into.old }
    ensures most { result ≡ min (min (length (drop given bytes.now)) (length into.old)) piece }
    ensures within { given + result ≤ length bytes.now }
    ensures bytes { take result into.new ≡ take result (drop given bytes.now) }
    ensures none { IsTrue (is_end_of_input result (length into.old)) → drop given bytes.now ≡ [] }
{
    let left = &bytes[given..];
    let n = left.len().min(into.len()).min(piece);
    into[..n].copy_from_slice(&left[..n]);
    n
}

fn has_ended(before: bool, given: usize, size: usize) -> bool
    ensures { result ≡ (before || is_end_of_input given size) }
{
    before || given == 0 && size > 0
}

impl Source for MemSource {
    ghost faults = { λ s. s.plan.faults };

    ghost supply = { λ s. Some (supply_at s.bytes s.given) };

    ghost is_ended = { λ s. s.is_ended };

    fn read<R: Wait>(&mut self, _rt: &R, into: &mut [u8]) -> Result<usize, Failed>
        ensures count { IfOk result (λ n. n ≤ length into.old) }
        ensures gave { IfOk result (λ n.
            Gave (take n into.new) (Some (supply_at self.old.bytes self.old.given))
            (Some (supply_at self.new.bytes self.new.given))) }
        ensures end { IfOk result (λ n.
            self.new.is_ended ≡ (self.old.is_ended || is_end_of_input n (length into.old))) }
        ensures most { IfOk result (λ n.
            n ≡ min (min (length (drop self.old.given self.old.bytes)) (length into.old))
            (most_at self.old.pieces self.old.plan.calls)) }
        ensures none_left { IfOk result (λ n. IsTrue (is_end_of_input n (length into.old)) →
            drop self.old.given self.old.bytes ≡ []) }
        ensures no_more { IsTrue self.old.is_ended → IfOk result (λ n. n ≡ 0) }
        ensures kept { OnErr result (self.new.given ≡ self.old.given) }
        ensures end_kept { OnErr result (self.new.is_ended ≡ self.old.is_ended) }
        ensures counted { Counted (is_ok result) self.old.plan.faults self.new.plan.faults }
        ensures bytes { (self.new.bytes ≡ self.old.bytes) × (self.new.pieces ≡ self.old.pieces) }
        ensures fails { self.new.plan.fails ≡ self.old.plan.fails }
        ensures calm { self.old.plan.fails ≡ [] → self.new.plan.faults ≡ self.old.plan.faults }
    {
        let read = self.plan.calls;
        self.plan.step()?;
        let piece = piece_length(&self.pieces.items, read);
        let n = give(self.bytes.as_slice(), self.given, piece, into);
        self.given += n;
        self.is_ended = has_ended(self.is_ended, n, into.len());
        Ok(n)
    }
}
