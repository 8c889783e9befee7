// The tests of a TOML table.
ghost use Rattle.std.specs.Prelude.{◌≡◌, ◌<◌, ◌≤◌, Some, None, length, IfOk, IfErr, All, codes, option_map, unwrap_or};
ghost use Rattle.std.specs.Str.{chars};
ghost use Rattle.toml.specs.Data.{no_items};
ghost use Rattle.toml.specs.View.{view, array_view, table_view};
ghost use Rattle.xd_edge.specs.Limits.{most_tests};
ghost use Rattle.xd_suite.specs.Faults.{broken_rule, fault_of_ids, fault_of_test, fault_of_tests};
ghost use Rattle.xd_suite.specs.Suite.{NamesFault};
ghost use Rattle.xd_suite.specs.Tests.{array_at, test_items, members_of, test_of, tests_of, text_at, texts_of};

use crate::fault::{of_file, of_test};
use crate::repeats::fault_of_ids;
use crate::rules::fault_of_test;
use crate::table::{are_tables, array_at, count, field, has_suite_keys, text_at};
use crate::{SuiteRefusal, SuiteWhat, Test};
use std::alloc::Global;
use toml::value::Array;
use toml::{Table, Value};
use xd_edge::{MAX_TESTS, OutOfMemory, Text, Texts};

/// The tests of a file, or its first fault.
pub fn read_suite(alloc: Global, table: &Table) -> Result<Vec<Test>, SuiteRefusal>
    ensures good { IfOk result (λ _. broken_rule (table_view table.now) ≡ None) }
    ensures tests { IfOk result (λ tests.
        tests.items ≡ tests_of (test_items (table_view table.now))) }
    ensures runs { IfOk result (λ tests. All (λ t. 0 < length t.run) tests.items) }
    ensures few { IfOk result (λ tests. length tests.items ≤ most_tests) }
    ensures new_ids { IfOk result (λ tests. fault_of_ids tests.items ≡ None) }
    ensures refused { IfErr result (NamesFault (broken_rule (table_view table.now))) }
{
    if !has_suite_keys(table) {
        return Err(of_file(SuiteWhat::UnknownKey));
    }
    let Some(value) = field(table, "test") else {
        return Ok(Vec::new(alloc));
    };
    let Some(array) = value.as_array() else {
        return Err(of_file(SuiteWhat::WrongKind));
    };
    if !are_tables(array) {
        return Err(of_file(SuiteWhat::WrongKind));
    }
    if count(array) > MAX_TESTS as usize {
        return Err(of_file(SuiteWhat::TooMany));
    }
    let tests = read_tests(alloc, array)?;
    match fault_of_ids(alloc, &tests)? {
        Some(fault) => Err(SuiteRefusal::Bad(fault)),
        None => Ok(tests),
    }
}

fn read_tests(alloc: Global, array: &Array) -> Result<Vec<Test>, SuiteRefusal>
    requires { length array.now.items ≤ most_tests }
    ensures good { IfOk result (λ _. fault_of_tests 0 (array_view array.now) ≡ None) }
    ensures tests { IfOk result (λ tests. tests.items ≡ tests_of (array_view array.now)) }
    ensures runs { IfOk result (λ tests. All (λ t. 0 < length t.run) tests.items) }
    ensures few { IfOk result (λ tests. length tests.items ≤ most_tests) }
    ensures refused { IfErr result (NamesFault (fault_of_tests 0 (array_view array.now))) }
{
    let mut tests = Vec::new(alloc);
    for (number, value) in array.iter().enumerate() {
        match read_test(alloc, value)? {
            Ok(test) => tests.push(test)?,
            Err(what) => return Err(of_test(number as u32, what)),
        }
    }
    Ok(tests)
}

// The test, or the first rule that it breaks.
fn read_test(alloc: Global, value: &Value) -> Result<Result<Test, SuiteWhat>, OutOfMemory>
    ensures test { IfOk result (λ read.
        IfOk read (λ t. t ≡ test_of (members_of (view value.now)))) }
    ensures good { IfOk result (λ read.
        IfOk read (λ _. fault_of_test (members_of (view value.now)) ≡ None)) }
    ensures run { IfOk result (λ read. IfOk read (λ t. 0 < length t.run)) }
    ensures refused { IfOk result (λ read.
        IfErr read (λ what. fault_of_test (members_of (view value.now)) ≡ Some what)) }
{
    // What is no table has no key. A file with such a test was refused before.
    let Some(table) = value.as_table() else {
        return Ok(Err(SuiteWhat::Missing));
    };
    if let Some(what) = fault_of_test(table) {
        return Ok(Err(what));
    }
    let test = test_of(alloc, table)?;
    Ok(Ok(test))
}

fn test_of(alloc: Global, table: &Table) -> Result<Test, OutOfMemory>
    requires { fault_of_test (table_view table.now) ≡ None }
    ensures test { IfOk result (λ t. t ≡ test_of (table_view table.now)) }
    ensures run { IfOk result (λ t. 0 < length t.run) }
{
    let id = Text::of(alloc, text_at(table, "id").unwrap_or(""))?;
    let run = run_of(alloc, table)?;
    let group = group_of(alloc, table)?;
    Ok(Test { id, run, group })
}

fn group_of(alloc: Global, table: &Table) -> Result<Option<Text>, OutOfMemory>
    ensures { IfOk result
        (λ group. group ≡ option_map chars (text_at (codes "group") (table_view table.now))) }
{
    match text_at(table, "group") {
        Some(group) => Ok(Some(Text::of(alloc, group)?)),
        None => Ok(None),
    }
}

fn run_of(alloc: Global, table: &Table) -> Result<Texts, OutOfMemory>
    ensures { IfOk result
        (λ run. run ≡
        texts_of (unwrap_or (array_at (codes "run") (table_view table.now)) no_items)) }
{
    match array_at(table, "run") {
        Some(array) => texts_of(alloc, array),
        None => Ok(Texts {
            items: Vec::new(alloc),
        }),
    }
}

fn texts_of(alloc: Global, array: &Array) -> Result<Texts, OutOfMemory>
    ensures { IfOk result (λ texts. texts ≡ texts_of (array_view array.now)) }
{
    let mut items = Vec::new(alloc);
    for value in array {
        items.push(Text::of(alloc, value.as_str().unwrap_or(""))?)?;
    }
    Ok(Texts { items })
}
