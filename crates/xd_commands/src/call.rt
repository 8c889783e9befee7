// A call by name, and its value.
ghost use Rattle.std.specs.Prelude.{◌≡◌, option_map, IfOk};
ghost use Rattle.xd_value.specs.View.{view, pair_views};
ghost use Rattle.xd_commands.specs.Calls.{call_as_value, call_by, call_in, has_text_keys};
ghost use Rattle.xd_commands.specs.Words.{IsWord};

use crate::word::word_value;
use std::alloc::Global;
use xd_edge::{OutOfMemory, Text};
use xd_value::Value;

/// A name, with its keyword arguments.
#[derive(Clone, Copy)]
pub(crate) struct Call<'a> {
    pub(crate) name: &'a Text,
    pub(crate) kwargs: &'a [(Value, Value)],
}

/// The call that a value is.
pub(crate) fn call_of(value: &Value) -> Option<Call<'_>>
    ensures { option_map (λ c.
        record { name = c.name.now; kwargs = pair_views c.kwargs.now }) result ≡ call_in
        (view value.now) }
{
    let Value::Tuple(items) = value else {
        return None;
    };
    if items.len() != 2 {
        return None;
    }
    call_by(&items[0], &items[1])
}

/// The call of a text with a dict that has text keys.
fn call_by<'a>(name: &'a Value, kwargs: &'a Value) -> Option<Call<'a>>
    ensures { option_map (λ c.
        record { name = c.name.now; kwargs = pair_views c.kwargs.now }) result ≡ call_by
        (view name.now) (view kwargs.now) }
{
    match (name, kwargs) {
        (Value::Text(name), Value::Dict(kwargs)) => {
            if have_text_keys(kwargs) {
                Some(Call { name, kwargs })
            } else {
                None
            }
        }
        _ => None,
    }
}

/// Each key is a text, as the names of keyword arguments are.
pub fn have_text_keys(kwargs: &[(Value, Value)]) -> bool
    ensures { result ≡ has_text_keys (pair_views kwargs.now) }
{
    for item in kwargs {
        let Value::Text(_) = &item.0 else {
            return false;
        };
    }
    true
}

/// The value of a call.
pub(crate) fn call_value(
    alloc: Global,
    name: &str,
    kwargs: Vec<(Value, Value)>,
) -> Result<Value, OutOfMemory>
    requires { IsWord name.now }
    ensures { IfOk result (λ v. view v ≡ call_as_value name.now (pair_views kwargs.items)) }
{
    let name = word_value(alloc, name)?;
    let items = vec![in alloc; name, Value::Dict(kwargs)]?;
    Ok(Value::Tuple(items))
}
