// Payloads of settings and of entries. What is read of one is written again, and has to be the payload.
ghost use Rattle.std.specs.Prelude.{◌≡◌, ◌≢◌, Some, option_map, IfOk, MatchBool, MatchOption};
ghost use Rattle.xd_value.specs.Canonical.{canonical};
ghost use Rattle.xd_value.specs.Payload.{IsPayload};
ghost use Rattle.xd_value.specs.Tree.{Tree};
ghost use Rattle.xd_value.specs.View.{view};
ghost use Rattle.xd_journal.specs.declared.entry.Entry.{Entry};
ghost use Rattle.xd_journal.specs.declared.settings.Settings.{Settings};
ghost use Rattle.xd_journal_file.specs.FileOf.{AreWritable, IsWritable};
ghost use Rattle.xd_journal_file.specs.Written.{entry_tree, settings_tree};
ghost use Rattle.xd_journal_file.specs.inner.Steps.{HasPayload, IsPlainValue, IsTooLong};

use crate::entry::entry_value;
use crate::entry_read::value_entry;
use crate::settings::{settings_value, value_settings};
use std::alloc::Global;
use xd_edge::{Blob, OutOfMemory};
use xd_journal::{Entry, Settings};
use xd_value::{DumpFault, LoadFault, Value, dumps};
use xd_value_loads::loads;

/// The payload of settings.
pub fn settings_payload(alloc: Global, settings: Settings) -> Result<Blob, OutOfMemory>
    ensures payload { IfOk result (λ b. b ≡ canonical (settings_tree settings)) }
    ensures writable { IfOk result (λ b. AreWritable settings) }
{
    let value = settings_value(alloc, settings)?;
    let Some(payload) = plain_payload(alloc, &value)? else {
        unreachable!();
    };
    Ok(payload)
}

/// The payload of an entry, if it is short enough.
pub fn entry_payload(alloc: Global, entry: &Entry) -> Result<Option<Blob>, OutOfMemory>
    ensures { IfOk result (λ found. MatchOption found (IsTooLong (entry_tree entry.now))
        (λ b. (b ≡ canonical (entry_tree entry.now)) × IsWritable entry.now)) }
{
    let value = entry_value(alloc, entry)?;
    plain_payload(alloc, &value)
}

/// The payload of a value, if it is short enough.
fn plain_payload(alloc: Global, value: &Value) -> Result<Option<Blob>, OutOfMemory>
    requires { IsPlainValue (view value.now) }
    ensures { IfOk result (λ found. MatchOption found (IsTooLong (view value.now))
        (λ b. HasPayload b (view value.now))) }
{
    match dumps(alloc, value) {
        Ok(payload) => Ok(Some(payload)),
        Err(fault) => match fault {
            DumpFault::OutOfMemory => Err(OutOfMemory),
            _ => Ok(None),
        },
    }
}

/// The settings of a payload, if it is one of settings.
pub fn payload_settings(alloc: Global, payload: &[u8]) -> Result<Option<Settings>, OutOfMemory>
    ensures { IfOk result (λ found. MatchOption found
        ((s : Settings) → AreWritable s → payload.now ≢ canonical (settings_tree s))
        (λ s. AreWritable s × (payload.now ≡ canonical (settings_tree s)))) }
{
    let Some(settings) = settings_in(alloc, payload)? else {
        return Ok(None);
    };
    let again = settings_payload(alloc, settings)?;
    let is_same = is_same(again.as_slice(), payload);
    Ok(if is_same { Some(settings) } else { None })
}

/// The settings that a payload can have.
fn settings_in(alloc: Global, payload: &[u8]) -> Result<Option<Settings>, OutOfMemory>
    ensures { IfOk result (λ found. (s : Settings) → AreWritable s →
        payload.now ≡ canonical (settings_tree s) → found ≡ Some s) }
{
    let Some(value) = payload_value(alloc, payload)? else {
        return Ok(None);
    };
    let settings = value_settings(&value);
    Ok(settings)
}

/// The entry of a payload, if it is one of an entry.
pub fn payload_entry(alloc: Global, payload: &[u8]) -> Result<Option<Entry>, OutOfMemory>
    ensures { IfOk result (λ found. MatchOption found
        ((e : Entry) → IsWritable e → payload.now ≢ canonical (entry_tree e))
        (λ e. IsWritable e × (payload.now ≡ canonical (entry_tree e)))) }
{
    let Some(entry) = entry_in(alloc, payload)? else {
        return Ok(None);
    };
    let is_payload = is_payload_of(alloc, &entry, payload)?;
    Ok(if is_payload { Some(entry) } else { None })
}

/// The entry that a payload can have.
fn entry_in(alloc: Global, payload: &[u8]) -> Result<Option<Entry>, OutOfMemory>
    ensures { IfOk result (λ found. (e : Entry) → IsWritable e →
        payload.now ≡ canonical (entry_tree e) → found ≡ Some e) }
{
    let Some(value) = payload_value(alloc, payload)? else {
        return Ok(None);
    };
    let entry = value_entry(alloc, &value)?;
    Ok(entry)
}

/// Whether these bytes are the payload of the entry.
fn is_payload_of(alloc: Global, entry: &Entry, payload: &[u8]) -> Result<bool, OutOfMemory>
    ensures { IfOk result (λ is. MatchBool is
        (IsWritable entry.now × (payload.now ≡ canonical (entry_tree entry.now)))
        (IsWritable entry.now → payload.now ≢ canonical (entry_tree entry.now))) }
{
    match entry_payload(alloc, entry)? {
        Some(again) => Ok(is_same(again.as_slice(), payload)),
        None => Ok(false),
    }
}

fn is_same(first: &[u8], second: &[u8]) -> bool
    ensures { MatchBool result (first.now ≡ second.now) (first.now ≢ second.now) }
{
    first == second
}

/// The value of a payload.
fn payload_value(alloc: Global, payload: &[u8]) -> Result<Option<Value>, OutOfMemory>
    ensures { IfOk result (λ found. (t : Tree) → IsPayload t payload.now →
        option_map view found ≡ Some t) }
{
    match loads(alloc, payload) {
        Ok(value) => Ok(Some(value)),
        Err(LoadFault::Bad { .. }) => Ok(None),
        Err(LoadFault::OutOfMemory) => Err(OutOfMemory),
    }
}
