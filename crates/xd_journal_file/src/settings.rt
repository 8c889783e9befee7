// The settings of a run as a value.
ghost use Rattle.std.specs.Prelude.{◌≡◌, option_and_then, IfOk};
ghost use Rattle.xd_value.specs.View.{view, views};
ghost use Rattle.xd_journal_file.specs.Sizes.{AreSizedSettings};
ghost use Rattle.xd_journal_file.specs.Written.{settings_tree};
ghost use Rattle.xd_journal_file.specs.inner.Reading.{any_mode_of_word, fields_settings, text_at_place, tree_settings};

use crate::field::{chunk_field, number_field, text_field, truth_field};
use crate::name::{any_mode_of, word_of_mode};
use crate::value::{number_value, optional_value};
use std::alloc::Global;
use xd_commands::word_value;
use xd_edge::{ModeKind, OutOfMemory};
use xd_journal::Settings;
use xd_value::Value;

/// The value of settings.
pub fn settings_value(alloc: Global, settings: Settings) -> Result<Value, OutOfMemory>
    ensures form { IfOk result (λ v. view v ≡ settings_tree settings) }
    ensures sized { AreSizedSettings settings }
{
    let name = word_value(alloc, "xdrun journal")?;
    let mode = word_value(alloc, word_of_mode(settings.mode))?;
    let items = vec![in alloc;
        name,
        number_value(1),
        mode,
        number_value(settings.workers),
        number_value(settings.maxfail),
        number_value(settings.restarts),
        optional_value(settings.chunk),
        Value::Bool(settings.reorder),
        number_value(settings.retries),
    ]?;
    Ok(Value::Tuple(items))
}

/// The settings that a value is.
pub fn value_settings(value: &Value) -> Option<Settings>
    ensures { result ≡ tree_settings (view value.now) }
{
    match value {
        Value::Tuple(items) => fields_settings(items),
        _ => None,
    }
}

fn fields_settings(items: &[Value]) -> Option<Settings>
    ensures { result ≡ fields_settings (views items.now) }
{
    let mode = mode_field(items)?;
    let workers = number_field(items, 3)?;
    let maxfail = number_field(items, 4)?;
    let restarts = number_field(items, 5)?;
    let chunk = chunk_field(items, 6)?;
    let reorder = truth_field(items, 7)?;
    let retries = number_field(items, 8)?;
    Some(Settings {
        mode,
        workers,
        maxfail,
        restarts,
        chunk,
        reorder,
        retries,
    })
}

fn mode_field(items: &[Value]) -> Option<ModeKind>
    ensures { result ≡ option_and_then any_mode_of_word (text_at_place (views items.now) 2) }
{
    any_mode_of(text_field(items, 2)?)
}
