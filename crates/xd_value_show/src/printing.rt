// Values as text.
ghost use Rattle.std.specs.Prelude.{◌≡◌, ◌++◌, ◌∷◌, [], IfOk, OnOk, codes};
ghost use Rattle.xd_value_show.specs.Show.{shown, shown_items, shown_pairs, shown_set, between, tuple_end};
ghost use Rattle.xd_value.specs.Tree.{count};
ghost use Rattle.xd_value.specs.View.{view, views, pair_views};

use crate::append::{put, put_char};
use crate::leaf::{print_bytes, print_channel, print_int, print_text};
use std::alloc::{AllocError, Global};
use xd_edge::{OutOfMemory, Text};
use xd_value::Value;

/// The bytes that are asked for at once: the text of a command or an event seldom has more.
const USUAL_BYTES: usize = 128;

/// The value as text: `None`, `True`, `-5`, `bytes(00ff)`, `"a\x01"`, `[1, 2]`, `(1,)`, `{5}`, `set()`,
/// `frozenset({1})`, `{"k": 3}`, `channel(7)`. Items stand in the order in which the value holds them.
pub fn show(alloc: Global, value: &Value) -> Result<Text, OutOfMemory>
    ensures { IfOk result (λ t. t ≡ shown (view value.now)) }
{
    let mut out = Text::from_string(String::with_capacity(alloc, USUAL_BYTES)?);
    print(&mut out, value)?;
    Ok(out)
}

#[cycle(print)]
fn print(out: &mut Text, value: &Value) -> Result<(), AllocError>
    ensures { OnOk result (out.new ≡ out.old ++ shown (view value.now)) }
{
    match value {
        Value::None => put(out, "None")?,
        Value::Bool(b) => put(out, if *b { "True" } else { "False" })?,
        Value::Int(n) => print_int(out, *n)?,
        Value::Bytes(bytes) => print_bytes(out, bytes.as_slice())?,
        Value::Text(text) => print_text(out, text)?,
        Value::List(items) => print_between(out, '[', items, ']')?,
        Value::Tuple(items) => print_tuple(out, items)?,
        Value::Set(items) => print_set(out, items)?,
        Value::FrozenSet(items) => print_frozenset(out, items)?,
        Value::Dict(pairs) => print_pairs(out, pairs)?,
        Value::Channel(n) => print_channel(out, *n)?,
    }
    Ok(())
}

/// Items, each but the first after a comma.
#[cycle(print)]
fn print_items(out: &mut Text, items: &[Value]) -> Result<(), AllocError>
    ensures { OnOk result (out.new ≡ out.old ++ shown_items [] (views items.now)) }
{
    let mut is_first = true;
    for item in items {
        if !is_first {
            put(out, ", ")?;
        }
        print(out, item)?;
        is_first = false;
    }
    Ok(())
}

/// Items between two characters.
#[cycle(print)]
fn print_between(out: &mut Text, first: char, items: &[Value], last: char) -> Result<(), AllocError>
    ensures { OnOk result (out.new ≡ out.old
        ++ between (first ∷ []) (shown_items [] (views items.now)) (last ∷ [])) }
{
    put_char(out, first)?;
    print_items(out, items)?;
    put_char(out, last)?;
    Ok(())
}

#[cycle(print)]
fn print_tuple(out: &mut Text, items: &[Value]) -> Result<(), AllocError>
    ensures { OnOk result (out.new ≡ out.old
        ++ between (40 ∷ []) (shown_items [] (views items.now))
        (tuple_end (count (views items.now)))) }
{
    put_char(out, '(')?;
    print_items(out, items)?;
    if items.len() == 1 {
        put(out, ",)")?;
    } else {
        put_char(out, ')')?;
    }
    Ok(())
}

#[cycle(print)]
fn print_set(out: &mut Text, items: &[Value]) -> Result<(), AllocError>
    ensures { OnOk result (out.new ≡ out.old
        ++ shown_set (codes "set()") (codes "{") (shown_items [] (views items.now)) (codes "}")
        (count (views items.now))) }
{
    if items.is_empty() {
        put(out, "set()")?;
    } else {
        print_between(out, '{', items, '}')?;
    }
    Ok(())
}

#[cycle(print)]
fn print_frozenset(out: &mut Text, items: &[Value]) -> Result<(), AllocError>
    ensures { OnOk result (out.new ≡ out.old
        ++ shown_set (codes "frozenset()") (codes "frozenset({") (shown_items [] (views items.now))
        (codes "})")
        (count (views items.now))) }
{
    if items.is_empty() {
        put(out, "frozenset()")?;
    } else {
        put(out, "frozenset(")?;
        print_between(out, '{', items, '}')?;
        put_char(out, ')')?;
    }
    Ok(())
}

#[cycle(print)]
fn print_pairs(out: &mut Text, pairs: &[(Value, Value)]) -> Result<(), AllocError>
    ensures { OnOk result
        (out.new ≡ out.old
        ++ between (codes "{") (shown_pairs [] (pair_views pairs.now)) (codes "}")) }
{
    put_char(out, '{')?;
    let mut is_first = true;
    for pair in pairs {
        if !is_first {
            put(out, ", ")?;
        }
        print(out, &pair.0)?;
        put(out, ": ")?;
        print(out, &pair.1)?;
        is_first = false;
    }
    put_char(out, '}')?;
    Ok(())
}
