// Entries as values.
ghost use Rattle.std.specs.Prelude.{◌≡◌, IfOk};
ghost use Rattle.xd_value.specs.View.{view};
ghost use Rattle.xd_journal.specs.declared.entry.Entry.TheVariants as entry;
ghost use Rattle.xd_journal_file.specs.Sizes.{HasCode32, IsSizedEntry};
ghost use Rattle.xd_journal_file.specs.Written.{entry_tree, ids_tree, outcome_tree};

use crate::name::word_of_cause;
use crate::stop::over_value;
use crate::value::{field_value, number_value, worker_value};
use std::alloc::Global;
use xd_commands::{indices_fit, numbers_value, texts_value, word_value};
use xd_edge::{Blob, OutOfMemory};
use xd_journal::{Cause, Entry, Ids, Outcome};
use xd_value::Value;

/// The value of an entry.
pub fn entry_value(alloc: Global, entry: &Entry) -> Result<Value, OutOfMemory>
    ensures form { IfOk result (λ v. view v ≡ entry_tree entry.now) }
    ensures sized { IfOk result (λ v. IsSizedEntry entry.now) }
{
    match entry {
        Entry::Ready { worker } => worker_value(alloc, "ready", *worker),
        Entry::Collected { worker, ids } => {
            let ids = ids_value(alloc, ids)?;
            field_value(alloc, "collected", *worker, ids)
        }
        Entry::Done {
            worker,
            index,
            outcome,
            ms,
            output,
        } => done_value(alloc, *worker, *index, *outcome, *ms, output),
        Entry::Back { worker, indices } => {
            indices_fit(&indices.items);
            let tests = numbers_value(alloc, &indices.items)?;
            field_value(alloc, "back", *worker, tests)
        }
        Entry::Finished { worker } => worker_value(alloc, "finished", *worker),
        Entry::Refused { worker, text } => {
            let text = text.copy()?;
            field_value(alloc, "refused", *worker, Value::Text(text))
        }
        Entry::Down {
            worker,
            cause,
            output,
        } => down_value(alloc, *worker, *cause, output),
        Entry::NotStarted { worker } => worker_value(alloc, "notstarted", *worker),
        Entry::Start { worker, slot } => {
            field_value(alloc, "start", *worker, number_value(*slot))
        }
        Entry::Run { worker, indices } => {
            indices_fit(&indices.items);
            let tests = numbers_value(alloc, &indices.items)?;
            field_value(alloc, "run", *worker, tests)
        }
        Entry::RunAll { worker } => worker_value(alloc, "runall", *worker),
        Entry::Steal { worker, indices } => {
            indices_fit(&indices.items);
            let tests = numbers_value(alloc, &indices.items)?;
            field_value(alloc, "steal", *worker, tests)
        }
        Entry::Shutdown { worker } => worker_value(alloc, "shutdown", *worker),
        Entry::Kill { worker } => worker_value(alloc, "kill", *worker),
        Entry::Over { how } => over_value(alloc, *how),
    }
}

fn ids_value(alloc: Global, ids: &Ids) -> Result<Value, OutOfMemory>
    ensures { IfOk result (λ v. view v ≡ ids_tree ids.now) }
{
    match ids {
        Ids::List(texts) => texts_value(alloc, &texts.items),
        Ids::Same => Ok(Value::None),
    }
}

fn done_value(
    alloc: Global,
    worker: u32,
    index: u32,
    outcome: Outcome,
    ms: u64,
    output: &Blob,
) -> Result<Value, OutOfMemory>
    ensures form { IfOk result (λ v.
        view v ≡ entry_tree (entry.Done worker index outcome ms output.now)) }
    ensures sized { IfOk result (λ v.
        IsSizedEntry (entry.Done worker index outcome ms output.now)) }
{
    let name = word_value(alloc, "done")?;
    let outcome = outcome_value(alloc, outcome)?;
    let output = output.copy()?;
    let items = vec![in alloc;
        name,
        number_value(worker),
        number_value(index),
        outcome,
        Value::Int(i128::from(ms)),
        Value::Bytes(output),
    ]?;
    Ok(Value::Tuple(items))
}

fn outcome_value(alloc: Global, outcome: Outcome) -> Result<Value, OutOfMemory>
    ensures form { IfOk result (λ v. view v ≡ outcome_tree outcome) }
    ensures sized { HasCode32 outcome }
{
    match outcome {
        Outcome::Passed => word_value(alloc, "passed"),
        Outcome::Skipped => word_value(alloc, "skipped"),
        Outcome::Failed(code) => Ok(Value::Int(i128::from(code))),
    }
}

fn down_value(alloc: Global, worker: u32, cause: Cause, output: &Blob) -> Result<Value, OutOfMemory>
    ensures { IfOk result (λ v. view v ≡ entry_tree (entry.Down worker cause output.now)) }
{
    let name = word_value(alloc, "down")?;
    let cause = word_value(alloc, word_of_cause(cause))?;
    let output = output.copy()?;
    let items = vec![in alloc; name, number_value(worker), cause, Value::Bytes(output)]?;
    Ok(Value::Tuple(items))
}
