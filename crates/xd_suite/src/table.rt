// What a table of the file has under its keys.
ghost use Rattle.std.specs.Prelude.{◌≡◌, option_copied, option_map, string_bytes, length};
ghost use Rattle.std.specs.List.{list_all};
ghost use Rattle.std.specs.BTreeMap.{keys};
ghost use Rattle.toml.specs.View.{view, array_view, table_view};
ghost use Rattle.toml.specs.Data.{get_member};
ghost use Rattle.xd_suite.specs.Faults.{each_item_holds, count_items, has_only_keys, is_suite_key, is_table, is_test_key, is_toml_text};
ghost use Rattle.xd_suite.specs.Tests.{array_at, text_at};

use toml::value::Array;
use toml::{Table, Value};

pub fn field<'a>(table: &'a Table, key: &str) -> Option<&'a Value>
    ensures { option_map (λ v. view v.now) result ≡ get_member key.now (table_view table.now) }
{
    table.get(key)
}

pub fn text_at<'a>(table: &'a Table, key: &str) -> Option<&'a str>
    ensures { option_copied result ≡ text_at key.now (table_view table.now) }
{
    match field(table, key) {
        Some(value) => value.as_str(),
        None => None,
    }
}

pub fn array_at<'a>(table: &'a Table, key: &str) -> Option<&'a Array>
    ensures { option_map (λ v. array_view v.now) result ≡ array_at key.now (table_view table.now) }
{
    match field(table, key) {
        Some(value) => value.as_array(),
        None => None,
    }
}

fn are_suite_keys(table: &Table) -> bool
    ensures { result ≡ list_all (λ k. is_suite_key (string_bytes k)) (keys table.now) }
{
    table.keys().all(|key| key.as_str() == "test")
}

fn are_test_keys(table: &Table) -> bool
    ensures { result ≡ list_all (λ k. is_test_key (string_bytes k)) (keys table.now) }
{
    table.keys().all(|key| key.as_str() == "id" || key.as_str() == "run" || key.as_str() == "group")
}

pub fn has_suite_keys(table: &Table) -> bool
    ensures { result ≡ has_only_keys is_suite_key (table_view table.now) }
{
    are_suite_keys(table)
}

pub fn has_test_keys(table: &Table) -> bool
    ensures { result ≡ has_only_keys is_test_key (table_view table.now) }
{
    are_test_keys(table)
}

fn each_is_table(array: &Array) -> bool
    ensures { result ≡ list_all (λ v. is_table (view v)) array.now.items }
{
    array.iter().all(|value| value.as_table().is_some())
}

pub fn are_tables(array: &Array) -> bool
    ensures { result ≡ each_item_holds is_table (array_view array.now) }
{
    each_is_table(array)
}

fn each_is_text(array: &Array) -> bool
    ensures { result ≡ list_all (λ v. is_toml_text (view v)) array.now.items }
{
    array.iter().all(|value| value.is_str())
}

pub fn are_texts(array: &Array) -> bool
    ensures { result ≡ each_item_holds is_toml_text (array_view array.now) }
{
    each_is_text(array)
}

pub fn count(array: &Array) -> usize
    ensures count { result ≡ count_items (array_view array.now) }
    ensures len { result ≡ length array.now.items }
{
    array.len()
}
