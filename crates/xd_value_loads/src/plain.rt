// The opcodes that push a value without parts.
ghost use Rattle.std.specs.Prelude.{◌≡◌, ◌∷◌, ℕ, List, Ok, IfOk, OnOk};
ghost use Rattle.xd_value.specs.Tree.{depth as depth_of};
ghost use Rattle.xd_value.specs.View.{view};
ghost use Rattle.xd_value.specs.Reading.{Cell, Gives, whole, read_int, read_text, read_long, read_channel, do_op};
ghost use Rattle.xd_value_loads.specs.inner.Seats.{cells_of, IsStack};
ghost use Rattle.xd_value.specs.declared.opcode.Opcode.TheVariants as opcode;

use crate::input::{chunk, number};
use crate::number::long_value;
use crate::stack::Stack;
use std::alloc::{AllocError, Global};
use xd_edge::{Blob, Text};
use xd_value::{LoadWhat, StepFault, Value};

/// Pushes a value of which nothing follows the opcode.
pub fn constant<'a>(stack: &mut Stack, value: Value, rest: &'a [u8]) -> Result<&'a [u8], StepFault>
    requires stack { IsStack stack.old }
    requires measured { 0 ≡ depth_of (view value) }
    ensures gives { Gives {Y = List Cell × List ℕ} (λ r. (cells_of stack.new, r.now)) result
        (Ok (whole (view value) ∷ cells_of stack.old, rest.now)) }
    ensures stack { OnOk result (IsStack stack.new) }
{
    stack.push(value, 0, 0)?;
    Ok(rest)
}

#[tactic(auto, unfolding(xd_value::specs::Reading::read_int))]
pub fn int<'a>(stack: &mut Stack, rest: &'a [u8]) -> Result<&'a [u8], StepFault>
    requires stack { IsStack stack.old }
    ensures gives { Gives (λ r. (cells_of stack.new, r.now)) result
        (read_int (cells_of stack.old) rest.now) }
    ensures stack { OnOk result (IsStack stack.new) }
{
    let (n, rest) = number(rest)?;
    stack.push(Value::Int(n.cast_signed() as i128), 0, 0)?;
    Ok(rest)
}

#[inline(never)]
#[tactic(auto, using(xd_value::proofs::Cells::is_utf8_holds, xd_value::proofs::Cells::is_utf8_fails), unfolding(xd_value::specs::Reading::read_text))]
pub fn text<'a>(alloc: Global, stack: &mut Stack, rest: &'a [u8]) -> Result<&'a [u8], StepFault>
    requires stack { IsStack stack.old }
    ensures gives { Gives (λ r. (cells_of stack.new, r.now)) result
        (read_text (cells_of stack.old) rest.now) }
    ensures stack { OnOk result (IsStack stack.new) }
{
    let (bytes, rest) = chunk(rest)?;
    let Ok(text) = str::from_utf8(bytes) else {
        return Err(StepFault::Bad(LoadWhat::BadText));
    };
    stack.push(Value::Text(Text::of(alloc, text)?), 0, 0)?;
    Ok(rest)
}

fn latin_text(alloc: Global, bytes: &[u8]) -> Result<Text, AllocError>
    ensures { IfOk result (λ t. t ≡ bytes.now) }
{
    let mut text = String::new(alloc);
    for b in bytes {
        text.push(*b as char)?;
    }
    Ok(Text::from_string(text))
}

#[inline(never)]
#[tactic(auto, unfolding(xd_value::specs::Reading::do_op))]
pub fn latin<'a>(alloc: Global, stack: &mut Stack, rest: &'a [u8]) -> Result<&'a [u8], StepFault>
    requires stack { IsStack stack.old }
    ensures gives { Gives (λ r. (cells_of stack.new, r.now)) result
        (do_op opcode.Latin (cells_of stack.old) rest.now) }
    ensures stack { OnOk result (IsStack stack.new) }
{
    let (bytes, rest) = chunk(rest)?;
    stack.push(Value::Text(latin_text(alloc, bytes)?), 0, 0)?;
    Ok(rest)
}

#[inline(never)]
#[tactic(auto, unfolding(xd_value::specs::Reading::do_op))]
pub fn bytes<'a>(alloc: Global, stack: &mut Stack, rest: &'a [u8]) -> Result<&'a [u8], StepFault>
    requires stack { IsStack stack.old }
    ensures gives { Gives (λ r. (cells_of stack.new, r.now)) result
        (do_op opcode.Bytes (cells_of stack.old) rest.now) }
    ensures stack { OnOk result (IsStack stack.new) }
{
    let (bytes, rest) = chunk(rest)?;
    stack.push(Value::Bytes(Blob::of(alloc, bytes)?), 0, 0)?;
    Ok(rest)
}

#[inline(never)]
#[tactic(auto, unfolding(xd_value::specs::Reading::read_long))]
pub fn long<'a>(stack: &mut Stack, rest: &'a [u8]) -> Result<&'a [u8], StepFault>
    requires stack { IsStack stack.old }
    ensures gives { Gives (λ r. (cells_of stack.new, r.now)) result
        (read_long (cells_of stack.old) rest.now) }
    ensures stack { OnOk result (IsStack stack.new) }
{
    let (digits, rest) = chunk(rest)?;
    let Some(n) = long_value(digits) else {
        return Err(StepFault::Bad(LoadWhat::BadNumber));
    };
    stack.push(Value::Int(n), 0, 0)?;
    Ok(rest)
}

#[inline(never)]
#[tactic(auto, unfolding(xd_value::specs::Reading::read_channel))]
pub fn channel<'a>(stack: &mut Stack, rest: &'a [u8]) -> Result<&'a [u8], StepFault>
    requires stack { IsStack stack.old }
    ensures gives { Gives (λ r. (cells_of stack.new, r.now)) result
        (read_channel (cells_of stack.old) rest.now) }
    ensures stack { OnOk result (IsStack stack.new) }
{
    let (n, rest) = number(rest)?;
    if n == 0 || n >= 0x8000_0000 {
        return Err(StepFault::Bad(LoadWhat::BadNumber));
    }
    stack.push(Value::Channel(n), 0, 0)?;
    Ok(rest)
}
