// Which tests of a journal failed.
ghost use Rattle.std.specs.Prelude.{◌≡◌, ◌++◌, ◌∷◌, [], IfOk, OnOk, if◌then◌else◌};
ghost use Rattle.xd_run.specs.State.{no_one};
ghost use Rattle.xd_replay.specs.Failed.{each_once, failed_from, failed_ids, with_id};

use std::alloc::Global;
use std::collections::BTreeSet;
use xd_edge::{OutOfMemory, Text, Texts};
use xd_journal::Journal;
use xd_report::Reporter;

// The id after those before it, where there is one.
fn add_id(ids: &mut Vec<Text>, id: Option<Text>) -> Result<(), OutOfMemory>
    ensures { OnOk result (ids.new.items ≡ ids.old.items ++ with_id id []) }
{
    if let Some(id) = id {
        ids.push(id)?;
    }
    Ok(())
}

// The ids of the failed reports, in order.
fn all_failed(alloc: Global, journal: &Journal) -> Result<Texts, OutOfMemory>
    ensures { IfOk result (λ ids.
        ids ≡ failed_from (no_one journal.now.settings) journal.now.entries.items) }
{
    let mut items = Vec::new(alloc);
    let mut reporter = Reporter::new(alloc, journal.settings);
    for entry in &journal.entries {
        let id = reporter.failed_id(alloc, entry)?;
        add_id(&mut items, id)?;
        reporter.note(alloc, entry)?;
    }
    Ok(Texts { items })
}

// A copy of the text after those before it, where it is new.
fn add_if_new(items: &mut Vec<Text>, text: &Text, is_new: bool) -> Result<(), OutOfMemory>
    ensures { OnOk result (items.new.items ≡ items.old.items
        ++ (if is_new then (text.now ∷ []) else [])) }
{
    if is_new {
        items.push(text.copy()?)?;
    }
    Ok(())
}

// Each of these texts once, where it stands first. The cost of a text grows with the logarithm of their number.
fn each_once(alloc: Global, texts: &[Text]) -> Result<Texts, OutOfMemory>
    ensures { IfOk result (λ ids. ids ≡ each_once texts.now) }
{
    let mut seen = BTreeSet::new(alloc);
    let mut items = Vec::new(alloc);
    for text in texts {
        let is_new = seen.insert(text.as_str())?;
        add_if_new(&mut items, text, is_new)?;
    }
    Ok(Texts { items })
}

/// The ids of the tests that failed, or at which a worker went down and that were not tried again: each once, in the
/// order of their reports. Of a journal that no run can have left they are those that its report calls so, too.
pub fn failed_ids(alloc: Global, journal: &Journal) -> Result<Texts, OutOfMemory>
    ensures { IfOk result (λ ids. ids ≡ failed_ids journal.now) }
{
    let all = all_failed(alloc, journal)?;
    let ids = each_once(alloc, &all.items)?;
    Ok(ids)
}
