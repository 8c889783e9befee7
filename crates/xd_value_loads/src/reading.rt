// Payloads.
ghost use Rattle.std.specs.Prelude.{ℕ, ◌<◌, IfOk, IfErr};
ghost use Rattle.xd_value.specs.Payload.{IsPayload, IsRefusal, IsValue, IsLoadFault, FirstFault, Stops, IsPlaced};
ghost use Rattle.xd_value_loads.specs.inner.Seats.{IsStack, cells_of};
ghost use Rattle.xd_value.specs.Tree.{Tree};
ghost use Rattle.xd_value.specs.View.{view};
ghost use Rattle.xd_value.specs.declared.fault.LoadWhat.{LoadWhat as What};

use crate::machine::step;
use crate::stack::Stack;
use std::alloc::Global;
use xd_value::{LoadFault, LoadWhat, Opcode, StepFault, Value, opcode_of};

/// The value that the bytes are a payload of, or the first opcode that cannot be done and why. The
/// bytes may come from a hostile peer: time and memory grow with their length, whatever they declare.
pub fn loads(alloc: Global, bytes: &[u8]) -> Result<Value, LoadFault>
    // What is read has the bytes as a payload.
    ensures read { IfOk result (λ v. IsPayload (view v) bytes.now) }
    // What has them as a payload is read, unless memory runs out.
    ensures only { (v : Tree) → IsPayload v bytes.now → IsValue v result }
    // A refusal names the first fault.
    ensures refused { IfErr result (IsRefusal bytes.now) }
    // Bytes with a first fault are refused with it, unless memory runs out.
    ensures faults { (at : ℕ) → (f : What) → FirstFault bytes.now at f → IsLoadFault at f result }
{
    run(alloc, bytes)
}

/// Does one opcode after another, up to STOP or the first fault.
fn run(alloc: Global, bytes: &[u8]) -> Result<Value, LoadFault>
    ensures read { IfOk result (λ v. IsPayload (view v) bytes.now) }
    ensures refused { IfErr result (IsRefusal bytes.now) }
{
    let mut stack = Stack::new(alloc);
    let mut rest = bytes;
    'opcodes: loop {
        let at = bytes.len() - rest.len();
        let Some((byte, after)) = rest.split_first() else {
            return Err(LoadFault::Bad {
                at,
                what: LoadWhat::NoStop,
            });
        };
        let Some(op) = opcode_of(*byte) else {
            return Err(LoadFault::Bad {
                at,
                what: LoadWhat::UnknownOpcode,
            });
        };
        if let Opcode::Stop = op {
            return last(&mut stack, after, at);
        }
        rest = match step(alloc, op, &mut stack, after) {
            Ok(left) => left,
            Err(fault) => return Err(placed(at, fault)),
        };
    }
}

fn placed(at: usize, fault: StepFault) -> LoadFault
    ensures { IsPlaced at fault result }
{
    match fault {
        StepFault::Bad(what) => LoadFault::Bad { at, what },
        StepFault::OutOfMemory => LoadFault::OutOfMemory,
    }
}

/// The value at STOP.
fn last(stack: &mut Stack, after: &[u8], at: usize) -> Result<Value, LoadFault>
    requires stack { IsStack stack.old }
    requires place { at < 0xffff_ffff_ffff_ffff }
    ensures { Stops (cells_of stack.old) after.now at result }
{
    if stack.values.len() > 1 {
        return Err(LoadFault::Bad {
            at,
            what: LoadWhat::Leftover,
        });
    }
    let Some(value) = stack.values.pop() else {
        return Err(LoadFault::Bad {
            at,
            what: LoadWhat::Misplaced,
        });
    };
    if stack.marks[0].missing != 0 {
        return Err(LoadFault::Bad {
            at,
            what: LoadWhat::ListOrder,
        });
    }
    if !after.is_empty() {
        return Err(LoadFault::Bad {
            at: at + 1,
            what: LoadWhat::Leftover,
        });
    }
    Ok(value)
}
