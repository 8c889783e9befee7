// What clap finds among words.
ghost use Rattle.std.specs.Prelude.{◌≡◌, map, option_map, IfOk, true};
ghost use Rattle.std.specs.Str.{chars};
ghost use Rattle.clap.specs.Words.{all_of, app_of, first_of, found_of, is_simple_and_free, rows_of};
ghost use Rattle.clap.specs.declared.error.kind.ErrorKind.TheVariants.{OutOfMemory as NoMemory};
ghost use Rattle.xd_words.specs.Asked.{flag, rows_in, option_texts};
ghost use Rattle.xd_words.specs.Command.{file_app, main_app, socketserver_app, worker_app};

use crate::command::{file_command, main_command, socketserver_command, worker_command};
use clap::error::ErrorKind;
use clap::{ArgMatches, Command};
use std::alloc::Global;
use xd_edge::{OutOfMemory, Text, Texts};

/// What the main command finds among the words; `None` where it refuses them.
pub fn main_matches<'a, 'b>(
    alloc: Global,
    words: &'a [&'b str],
) -> Result<Option<ArgMatches<'a>>, OutOfMemory>
    ensures { IfOk result (λ r.
        option_map (λ m. rows_of (found_of m)) r ≡ rows_in main_app (map (λ w. w.now) words.now)) }
{
    let command = main_command(alloc)?;
    let matches = matches_in(command, words)?;
    Ok(matches)
}

/// The same of `wire FILE` and `replay FILE`.
pub fn file_matches<'a, 'b>(
    alloc: Global,
    words: &'a [&'b str],
) -> Result<Option<ArgMatches<'a>>, OutOfMemory>
    ensures { IfOk result (λ r.
        option_map (λ m. rows_of (found_of m)) r ≡ rows_in file_app (map (λ w. w.now) words.now)) }
{
    let command = file_command(alloc)?;
    let matches = matches_in(command, words)?;
    Ok(matches)
}

/// The same of `worker`.
pub fn worker_matches<'a, 'b>(
    alloc: Global,
    words: &'a [&'b str],
) -> Result<Option<ArgMatches<'a>>, OutOfMemory>
    ensures { IfOk result (λ r.
        option_map (λ m. rows_of (found_of m)) r ≡
        rows_in worker_app (map (λ w. w.now) words.now)) }
{
    let matches = matches_in(worker_command(alloc), words)?;
    Ok(matches)
}

/// The same of `socketserver HOST:PORT`.
pub fn socketserver_matches<'a, 'b>(
    alloc: Global,
    words: &'a [&'b str],
) -> Result<Option<ArgMatches<'a>>, OutOfMemory>
    ensures { IfOk result (λ r.
        option_map (λ m. rows_of (found_of m)) r ≡ rows_in socketserver_app
        (map (λ w. w.now) words.now)) }
{
    let command = socketserver_command(alloc)?;
    let matches = matches_in(command, words)?;
    Ok(matches)
}

// What a simple command finds among the words; `None` where it refuses them.
fn matches_in<'a, 'b>(
    command: Command<'a>,
    words: &'a [&'b str],
) -> Result<Option<ArgMatches<'a>>, OutOfMemory>
    requires { is_simple_and_free (app_of command) ≡ true }
    ensures { IfOk result (λ r.
        option_map (λ m. rows_of (found_of m)) r ≡ rows_in (app_of command.entry)
        (map (λ w. w.now) words.now)) }
{
    match command.try_get_matches_from(words) {
        Ok(matches) => Ok(Some(matches)),
        Err(error) => {
            if is_memory(error.kind()) {
                return Err(OutOfMemory);
            }
            Ok(None)
        }
    }
}

fn is_memory(kind: ErrorKind) -> bool
    ensures { kind ≡ NoMemory → result ≡ true }
{
    kind == ErrorKind::OutOfMemory
}

/// The value of an option, where it has one.
pub fn value<'a>(matches: &ArgMatches<'a>, id: &str) -> Option<&'a str>
    ensures { option_map (λ s. s.now) result ≡ first_of id.now (rows_of (found_of matches.now)) }
{
    matches.get_str(id)
}

/// A flag stands among the words.
pub fn flag(matches: &ArgMatches, id: &str) -> bool
    ensures { result ≡ flag id.now (rows_of (found_of matches.now)) }
{
    match value(matches, id) {
        Some(text) => text == "true",
        None => false,
    }
}

/// The values of an option that may stand several times.
pub fn values(alloc: Global, matches: &ArgMatches, id: &str) -> Result<Texts, OutOfMemory>
    ensures { IfOk result (λ texts.
        texts ≡ option_texts (all_of id.now (rows_of (found_of matches.now)))) }
{
    match strings(matches, id) {
        Some(values) => {
            let texts = copies(alloc, values)?;
            Ok(texts)
        }
        None => Ok(Texts {
            items: Vec::new(alloc),
        }),
    }
}

fn strings<'a, 'b>(matches: &'b ArgMatches<'a>, id: &str) -> Option<&'b [&'a str]>
    ensures { option_map (λ s. map (λ v. v.now) s.now) result ≡ all_of id.now
        (rows_of (found_of matches.now)) }
{
    matches.get_strs(id)
}

fn copies(alloc: Global, values: &[&str]) -> Result<Texts, OutOfMemory>
    ensures { IfOk result (λ texts. texts ≡ map chars (map (λ v. v.now) values.now)) }
{
    let mut items = Vec::with_capacity(alloc, values.len())?;
    for value in values {
        let text = Text::of(alloc, value)?;
        items.push(text)?;
    }
    Ok(Texts { items })
}
