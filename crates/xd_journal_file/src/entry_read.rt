// Values as entries, by the places of their fields.
ghost use Rattle.std.specs.Prelude.{◌≡◌, IfOk, option_and_then};
ghost use Rattle.xd_value.specs.View.{view, views};
ghost use Rattle.xd_journal_file.specs.inner.Reading.{cause_of_word, done_by, down_by, entry_by, entry_named, fields_entry, name_of_word, text_at_place, tree_entry};

use crate::field::{
    bytes_field, ids_field, indices_field, ms_field, number_field, outcome_field, text_field,
};
use crate::name::{Name, cause_of, name_of};
use crate::stop::stop_of;
use std::alloc::Global;
use xd_edge::OutOfMemory;
use xd_journal::{Cause, Entry};
use xd_value::Value;

/// The entry that a value is.
pub fn value_entry(alloc: Global, value: &Value) -> Result<Option<Entry>, OutOfMemory>
    ensures { IfOk result (λ r. r ≡ tree_entry (view value.now)) }
{
    match value {
        Value::Tuple(items) => fields_entry(alloc, items),
        _ => Ok(None),
    }
}

fn fields_entry(alloc: Global, items: &[Value]) -> Result<Option<Entry>, OutOfMemory>
    ensures { IfOk result (λ r. r ≡ fields_entry (views items.now)) }
{
    let Some(name) = name_field(items) else {
        return Ok(None);
    };
    entry_named(alloc, name, items)
}

fn name_field(items: &[Value]) -> Option<Name>
    ensures { result ≡ option_and_then name_of_word (text_at_place (views items.now) 0) }
{
    name_of(text_field(items, 0)?)
}

fn entry_named(alloc: Global, name: Name, items: &[Value]) -> Result<Option<Entry>, OutOfMemory>
    ensures { IfOk result (λ r. r ≡ entry_named name (views items.now)) }
{
    if let Name::Over = name {
        return Ok(over_of(items));
    }
    let Some(worker) = number_field(items, 1) else {
        return Ok(None);
    };
    entry_by(alloc, name, worker, items)
}

fn over_of(items: &[Value]) -> Option<Entry>
    ensures { result ≡ entry_named Name.Over (views items.now) }
{
    let how = stop_of(items)?;
    Some(Entry::Over { how })
}

fn entry_by(
    alloc: Global,
    name: Name,
    worker: u32,
    items: &[Value],
) -> Result<Option<Entry>, OutOfMemory>
    ensures { IfOk result (λ r. r ≡ entry_by name worker (views items.now)) }
{
    match name {
        Name::Ready => Ok(Some(Entry::Ready { worker })),
        Name::Collected => {
            let ids = ids_field(alloc, items, 2)?;
            Ok(ids.map(|ids| Entry::Collected { worker, ids }))
        }
        Name::Done => done_by(worker, items),
        Name::Back => {
            let tests = indices_field(alloc, items, 2)?;
            Ok(tests.map(|indices| Entry::Back { worker, indices }))
        }
        Name::Finished => Ok(Some(Entry::Finished { worker })),
        Name::Refused => refused_by(worker, items),
        Name::Down => down_by(worker, items),
        Name::NotStarted => Ok(Some(Entry::NotStarted { worker })),
        Name::Start => Ok(start_by(worker, items)),
        Name::Run => {
            let tests = indices_field(alloc, items, 2)?;
            Ok(tests.map(|indices| Entry::Run { worker, indices }))
        }
        Name::RunAll => Ok(Some(Entry::RunAll { worker })),
        Name::Steal => {
            let tests = indices_field(alloc, items, 2)?;
            Ok(tests.map(|indices| Entry::Steal { worker, indices }))
        }
        Name::Shutdown => Ok(Some(Entry::Shutdown { worker })),
        Name::Kill => Ok(Some(Entry::Kill { worker })),
        Name::Over => Ok(None),
    }
}

fn refused_by(worker: u32, items: &[Value]) -> Result<Option<Entry>, OutOfMemory>
    ensures { IfOk result (λ r. r ≡ entry_by Name.Refused worker (views items.now)) }
{
    let Some(text) = text_field(items, 2) else {
        return Ok(None);
    };
    let text = text.copy()?;
    Ok(Some(Entry::Refused { worker, text }))
}

fn start_by(worker: u32, items: &[Value]) -> Option<Entry>
    ensures { result ≡ entry_by Name.Start worker (views items.now) }
{
    let slot = number_field(items, 2)?;
    Some(Entry::Start { worker, slot })
}

fn done_by(worker: u32, items: &[Value]) -> Result<Option<Entry>, OutOfMemory>
    ensures { IfOk result (λ r. r ≡ done_by worker (views items.now)) }
{
    let Some(index) = number_field(items, 2) else {
        return Ok(None);
    };
    let Some(outcome) = outcome_field(items, 3) else {
        return Ok(None);
    };
    let Some(ms) = ms_field(items, 4) else {
        return Ok(None);
    };
    let Some(output) = bytes_field(items, 5) else {
        return Ok(None);
    };
    let output = output.copy()?;
    Ok(Some(Entry::Done {
        worker,
        index,
        outcome,
        ms,
        output,
    }))
}

fn down_by(worker: u32, items: &[Value]) -> Result<Option<Entry>, OutOfMemory>
    ensures { IfOk result (λ r. r ≡ down_by worker (views items.now)) }
{
    let Some(cause) = cause_field(items) else {
        return Ok(None);
    };
    let Some(output) = bytes_field(items, 3) else {
        return Ok(None);
    };
    let output = output.copy()?;
    Ok(Some(Entry::Down {
        worker,
        cause,
        output,
    }))
}

fn cause_field(items: &[Value]) -> Option<Cause>
    ensures { result ≡ option_and_then cause_of_word (text_at_place (views items.now) 2) }
{
    cause_of(text_field(items, 2)?)
}
