// One opcode.
ghost use Rattle.std.specs.Prelude.{OnOk};
ghost use Rattle.xd_value.specs.Reading.{Gives, do_op};
ghost use Rattle.xd_value_loads.specs.inner.Seats.{cells_of, IsStack};

use crate::input::count_of;
use crate::plain::{bytes, channel, constant, int, latin, long, text};
use crate::putting::put;
use crate::stack::Stack;
use crate::taking::{frozen_set, set, tuple};
use std::alloc::Global;
use xd_value::{LoadWhat, Opcode, StepFault, Value};

/// The opcodes that are rare or long are functions that are not inlined, so that the frame of this one stays small.
#[inline(always)]
#[tactic(auto, unfolding(xd_value::specs::Reading::do_op))]
pub fn step<'a>(
    alloc: Global,
    op: Opcode,
    stack: &mut Stack,
    rest: &'a [u8],
) -> Result<&'a [u8], StepFault>
    requires stack { IsStack stack.old }
    ensures gives { Gives (λ r. (cells_of stack.new, r.now)) result
        (do_op op (cells_of stack.old) rest.now) }
    ensures stack { OnOk result (IsStack stack.new) }
{
    match op {
        Opcode::Tuple => tuple(stack, rest),
        Opcode::Bytes => bytes(alloc, stack, rest),
        Opcode::Channel => channel(stack, rest),
        Opcode::FrozenSet => frozen_set(alloc, stack, rest),
        Opcode::LongInt | Opcode::LongLong => long(stack, rest),
        Opcode::NewDict => {
            stack.push(Value::Dict(Vec::new(alloc)), 0, 1)?;
            Ok(rest)
        }
        Opcode::Set => set(alloc, stack, rest),
        Opcode::False => constant(stack, Value::Bool(false), rest),
        Opcode::Float | Opcode::Complex => Err(StepFault::Bad(LoadWhat::FloatOpcode)),
        Opcode::Int | Opcode::Long => int(stack, rest),
        Opcode::NewList => {
            let (n, rest) = count_of(rest)?;
            stack.push(Value::List(Vec::new(alloc)), n, 1)?;
            Ok(rest)
        }
        Opcode::Nothing => constant(stack, Value::None, rest),
        Opcode::Latin => latin(alloc, stack, rest),
        Opcode::Text | Opcode::Unicode => text(alloc, stack, rest),
        Opcode::SetItem => {
            put(alloc, stack)?;
            Ok(rest)
        }
        Opcode::Stop => Err(StepFault::Bad(LoadWhat::Leftover)),
        Opcode::True => constant(stack, Value::Bool(true), rest),
    }
}
