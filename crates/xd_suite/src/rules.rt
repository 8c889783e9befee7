// The rules for the table of one test.
ghost use Rattle.std.specs.Prelude.{◌≡◌};
ghost use Rattle.toml.specs.View.{table_view};
ghost use Rattle.xd_suite.specs.Faults.{fault_of_test, has_good_ids, has_group_kind, has_kinds, is_id_if_any, lacks_key};
ghost use Rattle.xd_suite.specs.Tests.{text_at};

use crate::SuiteWhat;
use crate::table::{are_texts, array_at, count, field, has_test_keys, text_at};
use toml::Table;
use xd_edge::is_id;

/// The first rule that the table breaks.
pub fn fault_of_test(table: &Table) -> Option<SuiteWhat>
    ensures { result ≡ fault_of_test (table_view table.now) }
{
    if !has_test_keys(table) {
        Some(SuiteWhat::UnknownKey)
    } else if lacks_key(table) {
        Some(SuiteWhat::Missing)
    } else if !has_kinds(table) {
        Some(SuiteWhat::WrongKind)
    } else if !has_good_ids(table) {
        Some(SuiteWhat::BadId)
    } else {
        None
    }
}

fn lacks_key(table: &Table) -> bool
    ensures { result ≡ lacks_key (table_view table.now) }
{
    if field(table, "id").is_none() || field(table, "run").is_none() {
        return true;
    }
    match array_at(table, "run") {
        Some(run) => count(run) == 0,
        None => false,
    }
}

fn has_kinds(table: &Table) -> bool
    ensures { result ≡ has_kinds (table_view table.now) }
{
    if text_at(table, "id").is_none() {
        return false;
    }
    match array_at(table, "run") {
        Some(run) => are_texts(run) && has_group_kind(table),
        None => false,
    }
}

fn has_group_kind(table: &Table) -> bool
    ensures { result ≡ has_group_kind (table_view table.now) }
{
    field(table, "group").is_none() || text_at(table, "group").is_some()
}

fn has_good_ids(table: &Table) -> bool
    ensures { result ≡ has_good_ids (table_view table.now) }
{
    is_id_at(table, "id") && is_id_at(table, "group")
}

// A text that stands under the key is an id.
fn is_id_at(table: &Table, key: &str) -> bool
    ensures { result ≡ is_id_if_any (text_at key.now (table_view table.now)) }
{
    match text_at(table, key) {
        Some(text) => is_id(text),
        None => true,
    }
}
