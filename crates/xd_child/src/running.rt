// A test's program, from its start to its end.
ghost use Rattle.std.specs.Prelude.{◌≡◌, ◌<◌, ◌≤◌, ℕ, [], ◌++◌, length, take, vec_capacity, IsTrue, IfOk};
ghost use Rattle.std.specs.Bool.{OnTrue, OnFalse};
ghost use Rattle.xd_edge.specs.Faults.{Counted, RoseBy};
ghost use Rattle.xd_journal.specs.Kept.{kept_of};
ghost use Rattle.xd_child.specs.Ending.{fault_count};
ghost use Rattle.xd_child.specs.Running.{RanChildFirst, Drained, DrainedPart, RanChild};

use crate::ending::wait_for;
use std::alloc::Global;
use std::sync::Wait;
use xd_edge::{Blob, ChildFault, Children, MAX_PIECE_BYTES, OutOfMemory, Text};
use xd_journal::Outcome;

/// What the program of a test came to.
#[derive(Drop)]
pub struct ChildResult {
    /// How the test went.
    pub outcome: Outcome,
    /// What is kept of the output: its first bytes where the test failed, and none else.
    pub output: Blob,
}

/// Runs a program to its end. Of its output as many bytes are kept as there is room for. A program that was started is
/// waited for.
pub fn run_child<R: Wait, K: Children>(
    rt: &R,
    alloc: Global,
    children: &mut K,
    args: &[Text],
    room: usize,
) -> Result<ChildResult, OutOfMemory>
    requires { 0 < length args.now }
    ensures ran { IfOk result (λ r.
        RanChild args.now room r (K.runs children.old) (K.runs children.new)) }
    ensures later { K.faults children.old ≤ K.faults children.new }
    ensures faults { IfOk result (λ r.
        RoseBy (fault_count r.outcome) (K.faults children.old) (K.faults children.new)) }
    ensures still { IfOk result (λ r.
        fault_count r.outcome ≡ 0 → K.faults children.new ≡ K.faults children.old) }
{
    let mut output = Vec::with_capacity(alloc, room)?;
    let outcome = run_to_end(rt, alloc, children, args, &mut output, room)?;
    let kept = kept_of(alloc, outcome, &output)?;
    Ok(ChildResult {
        outcome,
        output: kept,
    })
}

// What is kept of the output of a test that went so.
fn kept_of(alloc: Global, outcome: Outcome, output: &[u8]) -> Result<Blob, OutOfMemory>
    ensures { IfOk result (λ b.
        (room : ℕ) → length output.now ≤ room → b ≡ kept_of outcome room output.now) }
{
    match outcome {
        Outcome::Failed(_) => Blob::of(alloc, output),
        _ => Ok(Blob::empty(alloc)),
    }
}

// Runs a program to its end, and puts the first bytes of its output into the room.
fn run_to_end<R: Wait, K: Children>(
    rt: &R,
    alloc: Global,
    children: &mut K,
    args: &[Text],
    output: &mut Vec<u8>,
    room: usize,
) -> Result<Outcome, OutOfMemory>
    requires program { 0 < length args.now }
    requires room { room ≤ vec_capacity output.old }
    requires empty { output.old.items ≡ [] }
    ensures ran { IfOk result (λ o.
        RanChildFirst args.now room (record { outcome = o; output = output.new.items })
        (K.runs children.old) (K.runs children.new)) }
    ensures later { K.faults children.old ≤ K.faults children.new }
    ensures faults { IfOk result (λ o.
        RoseBy (fault_count o) (K.faults children.old) (K.faults children.new)) }
    ensures still { IfOk result (λ o.
        fault_count o ≡ 0 → K.faults children.new ≡ K.faults children.old) }
{
    let mut child = match children.start(alloc, args) {
        Ok(child) => child,
        Err(ChildFault::OutOfMemory) => return Err(OutOfMemory),
        Err(ChildFault::Failed) => return Ok(Outcome::Failed(-2)),
    };
    let is_whole = drain(rt, children, &mut child, output, room);
    let outcome = wait_for(rt, children, child, is_whole);
    Ok(outcome)
}

// Reads the output to its end and keeps its first bytes, up to the room; false where a read failed.
fn drain<R: Wait, K: Children>(
    rt: &R,
    children: &mut K,
    child: &mut K::Child,
    output: &mut Vec<u8>,
    room: usize,
) -> bool
    requires room { room ≤ vec_capacity output.old }
    requires empty { output.old.items ≡ [] }
    ensures same_child { K.place child.new ≡ K.place child.old }
    ensures is_read { IsTrue (K.is_read child.new) }
    ensures whole { OnTrue result (Drained room (K.place child.old) output.new.items
        (K.runs children.old) (K.runs children.new)) }
    ensures part { OnFalse result (DrainedPart room (K.place child.old) output.new.items
        (K.runs children.old) (K.runs children.new)) }
    ensures counted { Counted result (K.faults children.old) (K.faults children.new) }
{
    let mut buffer = [0u8; MAX_PIECE_BYTES];
    for _ in rt.forever() {
        match children.read(rt, child, &mut buffer) {
            Ok(0) => return true,
            Ok(n) => keep(output, &buffer[..n], room),
            Err(_) => return false,
        }
    }
    unreachable!()
}

// Adds these bytes, as far as there is room.
fn keep(output: &mut Vec<u8>, bytes: &[u8], room: usize)
    requires room { room ≤ vec_capacity output.old }
    requires within { length output.old.items ≤ room }
    ensures kept { output.new.items ≡ take room (output.old.items ++ bytes.now) }
    ensures room { room ≤ vec_capacity output.new }
{
    let count = bytes.len().min(room - output.len());
    for i in 0..count {
        output.push_reserved(bytes[i]);
    }
}
