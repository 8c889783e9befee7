// What a worker tells of itself.
ghost use Rattle.std.specs.Prelude.{◌≡◌, IfOk};
ghost use Rattle.xd_value.specs.View.{view};
ghost use Rattle.xd_commands.specs.Status.{status_tree};

use crate::word_value;
use std::alloc::Global;
use xd_edge::OutOfMemory;
use xd_value::Value;

/// The answer to a STATUS: how many channels are in the table, and how many functions have not ended.
pub fn status_value(alloc: Global, channels: u32, functions: usize) -> Result<Value, OutOfMemory>
    ensures { IfOk result (λ v. view v ≡ status_tree channels functions) }
{
    let model = word_value(alloc, "thread")?;
    let pairs = vec![in alloc;
        (
            word_value(alloc, "numchannels")?,
            Value::Int(i128::from(channels))
        ),
        (
            word_value(alloc, "numexecuting")?,
            Value::Int(i128::from(functions as u64))
        ),
        (word_value(alloc, "execmodel")?, model),
    ]?;
    Ok(Value::Dict(pairs))
}
