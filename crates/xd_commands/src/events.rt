// Events as values.
ghost use Rattle.std.specs.Prelude.{◌≡◌, Some, IfOk, IsSome};
ghost use Rattle.xd_value.specs.View.{view, pair_views};
ghost use Rattle.xd_commands.specs.Calls.{Call};
ghost use Rattle.xd_commands.specs.Kwargs.{both};
ghost use Rattle.xd_commands.specs.Events.{IsEvent, event_tree, tree_event, called_event, done_kwargs, done_at, index_at, log_at, outcome_at, duration_at};

use crate::call::{Call, call_of, call_value};
use crate::kwargs::{
    channel_at, duration_from, entry_of, index_from, indices_at, indices_kwargs, integer_at,
    text_at, texts_at, texts_value,
};
use crate::outcome::{code_of, outcome_by, word_of};
use crate::word::{is_word, word_value};
use std::alloc::Global;
use xd_edge::{OutOfMemory, Texts};
use xd_journal::{Outcome, What};
use xd_value::Value;

/// The value of an event, with the keys that its name has.
pub fn event_value(alloc: Global, event: &What) -> Result<Value, OutOfMemory>
    // The news is an event.
    requires { IsSome (event_tree event.now) }
    ensures form { IfOk result (λ v. event_tree event.now ≡ Some (view v)) }
    // Where the code of its outcome is one that the outcome may have, it is read as that event, and as no other.
    ensures back { IsEvent event.now → IfOk result (λ v. tree_event (view v) ≡ Some event.now) }
{
    let value = written(alloc, event)?;
    Ok(value)
}

fn written(alloc: Global, event: &What) -> Result<Value, OutOfMemory>
    requires { IsSome (event_tree event.now) }
    ensures { IfOk result (λ v. event_tree event.now ≡ Some (view v)) }
{
    match event {
        What::Ready => call_value(alloc, "workerready", Vec::new(alloc)),
        What::Collected(ids) => collected_value(alloc, ids),
        What::LogStart { index, log } => log_start_value(alloc, *index, *log),
        What::Done { index, outcome, ms } => done_value(alloc, *index, *outcome, *ms),
        What::Back(indices) => {
            let kwargs = indices_kwargs(alloc, indices)?;
            call_value(alloc, "unscheduled", kwargs)
        }
        What::Finished => call_value(alloc, "workerfinished", Vec::new(alloc)),
        _ => unreachable!(),
    }
}

fn collected_value(alloc: Global, ids: &Texts) -> Result<Value, OutOfMemory>
    ensures { IfOk result (λ v. event_tree (What.Collected ids.now) ≡ Some (view v)) }
{
    let texts = texts_value(alloc, &ids.items)?;
    let entry = entry_of(alloc, "ids", texts)?;
    let kwargs = vec![in alloc; entry]?;
    call_value(alloc, "collectionfinish", kwargs)
}

fn log_start_value(alloc: Global, index: u32, log: u32) -> Result<Value, OutOfMemory>
    ensures { IfOk result (λ v. event_tree (What.LogStart index log) ≡ Some (view v)) }
{
    let index = entry_of(alloc, "item_index", Value::Int(i128::from(index)))?;
    let log = entry_of(alloc, "log", Value::Channel(log))?;
    let kwargs = vec![in alloc; index, log]?;
    call_value(alloc, "logstart", kwargs)
}

fn done_value(alloc: Global, index: u32, outcome: Outcome, ms: u64) -> Result<Value, OutOfMemory>
    ensures { IfOk result (λ v. event_tree (What.Done index outcome ms) ≡ Some (view v)) }
{
    let kwargs = done_kwargs(alloc, index, outcome, ms)?;
    call_value(alloc, "runtest_protocol_complete", kwargs)
}

fn done_kwargs(
    alloc: Global,
    index: u32,
    outcome: Outcome,
    ms: u64,
) -> Result<Vec<(Value, Value)>, OutOfMemory>
    ensures { IfOk result (λ ps. pair_views ps.items ≡ done_kwargs index outcome ms) }
{
    let word = word_value(alloc, word_of(outcome))?;
    let index = entry_of(alloc, "item_index", Value::Int(i128::from(index)))?;
    let word = entry_of(alloc, "outcome", word)?;
    let code = entry_of(alloc, "code", Value::Int(i128::from(code_of(outcome))))?;
    let duration = entry_of(alloc, "duration", Value::Int(i128::from(ms)))?;
    let kwargs = vec![in alloc; index, word, code, duration]?;
    Ok(kwargs)
}

/// The event that a value is, or `None` where it is none. Keys may come in any order, and keys that the event does not
/// have are ignored.
pub fn value_event(alloc: Global, value: &Value) -> Result<Option<What>, OutOfMemory>
    ensures { IfOk result (λ r. r ≡ tree_event (view value.now)) }
{
    let Some(call) = call_of(value) else {
        return Ok(None);
    };
    event_called(alloc, &call)
}

fn event_called(alloc: Global, call: &Call<'_>) -> Result<Option<What>, OutOfMemory>
    ensures { IfOk result
        (λ r. r ≡ called_event
        (record { name = call.now.name.now; kwargs = pair_views call.now.kwargs.now })) }
{
    let name = call.name;
    if is_word(name, "workerready") {
        Ok(Some(What::Ready))
    } else if is_word(name, "collectionfinish") {
        let ids = texts_at(alloc, call.kwargs, "ids")?;
        Ok(ids.map(What::Collected))
    } else if is_word(name, "logstart") {
        Ok(log_start_at(call.kwargs))
    } else if is_word(name, "runtest_protocol_complete") {
        Ok(done_at(call.kwargs))
    } else if is_word(name, "unscheduled") {
        let indices = indices_at(alloc, call.kwargs)?;
        Ok(indices.map(What::Back))
    } else if is_word(name, "workerfinished") {
        Ok(Some(What::Finished))
    } else {
        Ok(None)
    }
}

fn log_start_at(kwargs: &[(Value, Value)]) -> Option<What>
    ensures { result ≡ both (λ n log. What.LogStart n log) (index_at (pair_views kwargs.now))
        (log_at (pair_views kwargs.now)) }
{
    let index = index_at(kwargs)?;
    let log = channel_at(kwargs, "log")?;
    Some(What::LogStart { index, log })
}

fn done_at(kwargs: &[(Value, Value)]) -> Option<What>
    ensures { result ≡ done_at (pair_views kwargs.now) }
{
    let index = index_at(kwargs)?;
    let outcome = outcome_at(kwargs)?;
    let ms = duration_at(kwargs)?;
    Some(What::Done { index, outcome, ms })
}

fn index_at(kwargs: &[(Value, Value)]) -> Option<u32>
    ensures { result ≡ index_at (pair_views kwargs.now) }
{
    index_from(integer_at(kwargs, "item_index")?)
}

fn outcome_at(kwargs: &[(Value, Value)]) -> Option<Outcome>
    ensures { result ≡ outcome_at (pair_views kwargs.now) }
{
    let word = text_at(kwargs, "outcome")?;
    let code = integer_at(kwargs, "code")?;
    outcome_by(word, code)
}

fn duration_at(kwargs: &[(Value, Value)]) -> Option<u64>
    ensures { result ≡ duration_at (pair_views kwargs.now) }
{
    duration_from(integer_at(kwargs, "duration")?)
}
