// Tuples of a name and fields.
ghost use Rattle.std.specs.Prelude.{◌≡◌, ◌∷◌, [], IfOk};
ghost use Rattle.xd_commands.specs.Words.{IsWord};
ghost use Rattle.xd_value.specs.View.{view};
ghost use Rattle.xd_journal_file.specs.Written.{named_fields, number_tree, optional_tree};

use std::alloc::Global;
use xd_commands::word_value;
use xd_edge::OutOfMemory;
use xd_value::Value;

/// A number as a value.
pub fn number_value(number: u32) -> Value
    ensures { view result ≡ number_tree number }
{
    Value::Int(i128::from(number))
}

/// A number as a value, or None.
pub fn optional_value(number: Option<u32>) -> Value
    ensures { view result ≡ optional_tree number }
{
    match number {
        Some(number) => number_value(number),
        None => Value::None,
    }
}

/// A name with a worker.
pub fn worker_value(alloc: Global, name: &str, worker: u32) -> Result<Value, OutOfMemory>
    requires { IsWord name.now }
    ensures { IfOk result (λ v. view v ≡ named_fields name.now (number_tree worker ∷ [])) }
{
    let name = word_value(alloc, name)?;
    let items = vec![in alloc; name, number_value(worker)]?;
    Ok(Value::Tuple(items))
}

/// A name with a worker and one more field.
pub fn field_value(
    alloc: Global,
    name: &str,
    worker: u32,
    field: Value,
) -> Result<Value, OutOfMemory>
    requires { IsWord name.now }
    ensures { IfOk result (λ v.
        view v ≡ named_fields name.now (number_tree worker ∷ view field ∷ [])) }
{
    let name = word_value(alloc, name)?;
    let items = vec![in alloc; name, number_value(worker), field]?;
    Ok(Value::Tuple(items))
}
