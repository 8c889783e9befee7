// The opcodes that take the last values off the stack and build a tuple or a set of them.
ghost use Rattle.std.specs.Prelude.{◌≡◌, ◌<◌, Ok, Some, None, IfOk, OnOk};
ghost use Rattle.std.specs.List.{list_any};
ghost use Rattle.xd_value.specs.Reading.{Gives, take_parts, build_tuple, set_parts as set_parts_of, set_fault as set_fault_of, do_op};
ghost use Rattle.xd_value_loads.specs.inner.Seats.{IsStack, cells_of, deepest as deepest_of, is_mark_short};
ghost use Rattle.xd_value.specs.View.{views};
ghost use Rattle.xd_value.specs.declared.opcode.Opcode.TheVariants as opcode;

use crate::input::count_of;
use crate::stack::{Mark, Stack};
use crate::taken::Taken;
use std::alloc::{AllocError, Global};
use xd_value::{LoadWhat, StepFault, Value, are_distinct, are_hashable};

/// Whether something is missing of a value.
fn is_any_short(marks: &[Mark]) -> bool
    ensures { result ≡ list_any is_mark_short marks.now }
{
    for mark in marks {
        if mark.missing != 0 {
            return true;
        }
    }
    false
}

/// How deep the deepest value nests.
fn deepest(marks: &[Mark]) -> u32
    ensures { result ≡ deepest_of marks.now }
{
    let mut deepest = 0;
    for mark in marks {
        if mark.depth > deepest {
            deepest = mark.depth;
        }
    }
    deepest
}

/// Takes the last values.
fn take(stack: &mut Stack, n: usize) -> Result<Taken, StepFault>
    requires stack { IsStack stack.old }
    ensures gives { Gives (λ p. (views p.items.items, cells_of stack.new)) result
        (take_parts n (cells_of stack.old)) }
    ensures stack { OnOk result (IsStack stack.new) }
{
    if stack.values.len() < n {
        return Err(StepFault::Bad(LoadWhat::Misplaced));
    }
    let at = stack.values.len() - n;
    let (_, marks) = stack.marks.split_at(at);
    if is_any_short(marks) {
        return Err(StepFault::Bad(LoadWhat::ListOrder));
    }
    let depth = deepest(marks);
    let items = stack.values.split_off(at)?;
    stack.marks.truncate(at);
    Ok(Taken { items, depth })
}

#[tactic(auto, unfolding(xd_value::specs::Reading::build_tuple))]
fn build(stack: &mut Stack, n: usize) -> Result<(), StepFault>
    requires stack { IsStack stack.old }
    ensures gives { Gives (λ _. cells_of stack.new) result (build_tuple n (cells_of stack.old)) }
    ensures stack { OnOk result (IsStack stack.new) }
{
    let Taken { items, depth } = take(stack, n)?;
    if depth > 63 {
        return Err(StepFault::Bad(LoadWhat::TooDeep));
    }
    stack.push(Value::Tuple(items), 0, depth + 1)?;
    Ok(())
}

#[inline(never)]
#[tactic(auto, unfolding(xd_value::specs::Reading::do_op))]
pub fn tuple<'a>(stack: &mut Stack, rest: &'a [u8]) -> Result<&'a [u8], StepFault>
    requires stack { IsStack stack.old }
    ensures gives { Gives (λ r. (cells_of stack.new, r.now)) result
        (do_op opcode.Tuple (cells_of stack.old) rest.now) }
    ensures stack { OnOk result (IsStack stack.new) }
{
    let (n, rest) = count_of(rest)?;
    build(stack, n as usize)?;
    Ok(rest)
}

#[inline(never)]
#[tactic(auto, unfolding(xd_value::specs::Reading::do_op))]
pub fn set<'a>(alloc: Global, stack: &mut Stack, rest: &'a [u8]) -> Result<&'a [u8], StepFault>
    requires stack { IsStack stack.old }
    ensures gives { Gives (λ r. (cells_of stack.new, r.now)) result
        (do_op opcode.Set (cells_of stack.old) rest.now) }
    ensures stack { OnOk result (IsStack stack.new) }
{
    let (n, rest) = count_of(rest)?;
    let Taken { items, depth } = set_parts(alloc, stack, n as usize)?;
    stack.push(Value::Set(items), 0, depth + 1)?;
    Ok(rest)
}

#[inline(never)]
#[tactic(auto, unfolding(xd_value::specs::Reading::do_op))]
pub fn frozen_set<'a>(
    alloc: Global,
    stack: &mut Stack,
    rest: &'a [u8],
) -> Result<&'a [u8], StepFault>
    requires stack { IsStack stack.old }
    ensures gives { Gives (λ r. (cells_of stack.new, r.now)) result
        (do_op opcode.FrozenSet (cells_of stack.old) rest.now) }
    ensures stack { OnOk result (IsStack stack.new) }
{
    let (n, rest) = count_of(rest)?;
    let Taken { items, depth } = set_parts(alloc, stack, n as usize)?;
    stack.push(Value::FrozenSet(items), 0, depth + 1)?;
    Ok(rest)
}

/// Takes the items of a set.
#[tactic(auto, unfolding(xd_value::specs::Reading::set_parts))]
fn set_parts(alloc: Global, stack: &mut Stack, n: usize) -> Result<Taken, StepFault>
    requires stack { IsStack stack.old }
    ensures items { Gives (λ p. (views p.items.items, cells_of stack.new)) result
        (set_parts_of n (cells_of stack.old)) }
    ensures stack { OnOk result (IsStack stack.new) }
    ensures shallow { IfOk result (λ p. p.depth < 64) }
{
    let taken = take(stack, n)?;
    if let Some(what) = set_fault(alloc, &taken)? {
        return Err(StepFault::Bad(what));
    }
    Ok(taken)
}

/// Why these are not the items of a set.
fn set_fault(alloc: Global, taken: &Taken) -> Result<Option<LoadWhat>, AllocError>
    ensures fault { IfOk result (λ f. f ≡ set_fault_of (views taken.now.items.items)) }
    ensures shallow { IfOk result (λ f. f ≡ None → taken.now.depth < 64) }
{
    if !are_hashable(&taken.items) {
        return Ok(Some(LoadWhat::Unhashable));
    }
    if !are_distinct(alloc, &taken.items)? {
        return Ok(Some(LoadWhat::Repeated));
    }
    if taken.depth > 63 {
        return Ok(Some(LoadWhat::TooDeep));
    }
    Ok(None)
}
