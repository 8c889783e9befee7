// The end of a run as a value.
ghost use Rattle.std.specs.Prelude.{◌≡◌, ◌∷◌, IfOk, codes, map, option_and_then};
ghost use Rattle.xd_commands.specs.Words.{IsWord};
ghost use Rattle.xd_value.specs.Tree.{text};
ghost use Rattle.xd_value.specs.View.{view, views};
ghost use Rattle.xd_journal_file.specs.Sizes.{IsStop32};
ghost use Rattle.xd_journal_file.specs.Written.{named_fields, number_tree, stop_trees};
ghost use Rattle.xd_journal_file.specs.inner.Reading.{stop_by, stop_in_fields};

use crate::field::{number_field, text_field};
use crate::value::number_value;
use std::alloc::Global;
use xd_commands::{is_word, word_value};
use xd_edge::{OutOfMemory, Text};
use xd_journal::RunStop;
use xd_value::Value;

/// The value of the end of a run.
pub fn over_value(alloc: Global, how: RunStop) -> Result<Value, OutOfMemory>
    ensures form { IfOk result (λ v. view v ≡ named_fields (codes "over") (stop_trees how)) }
    ensures sized { IsStop32 how }
{
    match how {
        RunStop::Completed => stop_value(alloc, "completed", &[]),
        RunStop::MaxFail { count } => stop_value(alloc, "maxfail", &[count]),
        RunStop::Restarts { worker, limit } => stop_value(alloc, "restarts", &[worker, limit]),
        RunStop::Unequal {
            worker,
            other,
            place,
        } => stop_value(alloc, "unequal", &[worker, other, place]),
        RunStop::CollectError { worker } => stop_value(alloc, "collecterror", &[worker]),
        RunStop::OutFault => stop_value(alloc, "outfault", &[]),
    }
}

/// The value of a stop with these numbers.
fn stop_value(alloc: Global, word: &str, numbers: &[u32]) -> Result<Value, OutOfMemory>
    requires { IsWord word.now }
    ensures { IfOk result (λ v.
        view v ≡ named_fields (codes "over") (text word.now ∷ map number_tree numbers.now)) }
{
    let name = word_value(alloc, "over")?;
    let word = word_value(alloc, word)?;
    let mut items = vec![in alloc; name, word]?;
    for number in numbers {
        items.push(number_value(*number))?;
    }
    Ok(Value::Tuple(items))
}

/// The stop of these fields, the first of which is the name of the entry.
pub fn stop_of(items: &[Value]) -> Option<RunStop>
    ensures { result ≡ stop_in_fields (views items.now) }
{
    stop_by(text_field(items, 1)?, items)
}

fn stop_by(word: &Text, items: &[Value]) -> Option<RunStop>
    ensures { result ≡ stop_by word.now (views items.now) }
{
    if is_word(word, "completed") {
        Some(RunStop::Completed)
    } else if is_word(word, "maxfail") {
        let count = number_field(items, 2)?;
        Some(RunStop::MaxFail { count })
    } else if is_word(word, "restarts") {
        let worker = number_field(items, 2)?;
        let limit = number_field(items, 3)?;
        Some(RunStop::Restarts { worker, limit })
    } else if is_word(word, "unequal") {
        let worker = number_field(items, 2)?;
        let other = number_field(items, 3)?;
        let place = number_field(items, 4)?;
        Some(RunStop::Unequal {
            worker,
            other,
            place,
        })
    } else if is_word(word, "collecterror") {
        let worker = number_field(items, 2)?;
        Some(RunStop::CollectError { worker })
    } else if is_word(word, "outfault") {
        Some(RunStop::OutFault)
    } else {
        None
    }
}
