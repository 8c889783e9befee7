// Commands as values.
ghost use Rattle.std.specs.Prelude.{◌≡◌, Some, option_map, IfOk, IsSome};
ghost use Rattle.xd_value.specs.View.{view, pair_views};
ghost use Rattle.xd_commands.specs.Calls.{Call};
ghost use Rattle.xd_commands.specs.declared.order.Order.{Order};
ghost use Rattle.xd_commands.specs.Orders.{order_of, order_tree, tree_order, called_order, IsOrder};

use crate::call::{Call, call_of, call_value};
use crate::kwargs::{indices_at, indices_fit, indices_kwargs};
use crate::order::Order;
use crate::word::is_word;
use std::alloc::Global;
use xd_edge::OutOfMemory;
use xd_journal::Entry;
use xd_value::Value;

/// The value of an order, with the keys that its name has.
pub fn order_value(alloc: Global, order: &Entry) -> Result<Value, OutOfMemory>
    // The entry is an order.
    requires { IsSome (order_of order.now) }
    ensures form { IfOk result (λ v. Some (view v) ≡ option_map order_tree (order_of order.now)) }
    // It is read as that order, and as no other.
    ensures back { IfOk result (λ v. tree_order (view v) ≡ order_of order.now) }
{
    order_fits(order);
    let value = written(alloc, order)?;
    Ok(value)
}

/// The numbers of an order are ones that a test may have.
fn order_fits(order: &Entry)
    ensures { (o : Order) → order_of order.now ≡ Some o → IsOrder o }
{
    match order {
        Entry::Run { indices, .. } | Entry::Steal { indices, .. } => indices_fit(&indices.items),
        _ => {}
    }
}

fn written(alloc: Global, order: &Entry) -> Result<Value, OutOfMemory>
    requires { IsSome (order_of order.now) }
    ensures { IfOk result (λ v. Some (view v) ≡ option_map order_tree (order_of order.now)) }
{
    match order {
        Entry::Run { indices, .. } => {
            let kwargs = indices_kwargs(alloc, indices)?;
            call_value(alloc, "runtests", kwargs)
        }
        Entry::RunAll { .. } => call_value(alloc, "runtests_all", Vec::new(alloc)),
        Entry::Steal { indices, .. } => {
            let kwargs = indices_kwargs(alloc, indices)?;
            call_value(alloc, "steal", kwargs)
        }
        Entry::Shutdown { .. } => call_value(alloc, "shutdown", Vec::new(alloc)),
        _ => unreachable!(),
    }
}

/// The order that a value is, or `None` where it is none. Keys may come in any order, and keys that the order does not
/// have are ignored.
pub fn value_order(alloc: Global, value: &Value) -> Result<Option<Order>, OutOfMemory>
    ensures { IfOk result (λ r. r ≡ tree_order (view value.now)) }
{
    let Some(call) = call_of(value) else {
        return Ok(None);
    };
    order_called(alloc, &call)
}

fn order_called(alloc: Global, call: &Call<'_>) -> Result<Option<Order>, OutOfMemory>
    ensures { IfOk result
        (λ r. r ≡ called_order
        (record { name = call.now.name.now; kwargs = pair_views call.now.kwargs.now })) }
{
    let name = call.name;
    if is_word(name, "runtests") {
        let indices = indices_at(alloc, call.kwargs)?;
        Ok(indices.map(Order::RunTests))
    } else if is_word(name, "runtests_all") {
        Ok(Some(Order::RunAll))
    } else if is_word(name, "steal") {
        let indices = indices_at(alloc, call.kwargs)?;
        Ok(indices.map(Order::Steal))
    } else if is_word(name, "shutdown") {
        Ok(Some(Order::Shutdown))
    } else {
        Ok(None)
    }
}
