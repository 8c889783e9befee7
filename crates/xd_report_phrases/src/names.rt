// The words of a report.
ghost use Rattle.std.specs.Prelude.{◌≡◌, ◌++◌, OnOk, map, string_bytes, IfOk};
ghost use Rattle.std.specs.Str.{chars, encode_utf8_all};
ghost use Rattle.xd_report_phrases.specs.Names.{name, tag, plain, printable, outcome_text, lost_text, mode_text, cause_text};

use crate::writing::{add, add_number, add_text};
use std::alloc::Global;
use xd_edge::{ModeKind, OutOfMemory};
use xd_journal::{Cause, Outcome};

/// The name of a worker.
#[tactic(auto, unfolding(crate::specs::Names::name))]
pub fn add_name(
    alloc: Global,
    out: &mut Vec<u8>,
    mode: ModeKind,
    worker: u32,
) -> Result<(), OutOfMemory>
    ensures { OnOk result (out.new.items ≡ out.old.items ++ name mode worker) }
{
    match mode {
        ModeKind::Local => add_text(out, "main"),
        _ => {
            add_text(out, "gw")?;
            add_number(alloc, out, worker as u64)
        }
    }
}

/// The name of a worker in brackets.
#[tactic(auto, unfolding(crate::specs::Names::tag))]
pub fn add_tag(
    alloc: Global,
    out: &mut Vec<u8>,
    mode: ModeKind,
    worker: u32,
) -> Result<(), OutOfMemory>
    ensures { OnOk result (out.new.items ≡ out.old.items ++ tag mode worker) }
{
    add_text(out, "[")?;
    add_name(alloc, out, mode, worker)?;
    add_text(out, "] ")
}

/// A text that came from a worker, its control characters as '?'.
#[tactic(auto, unfolding(crate::specs::Names::plain))]
pub fn add_plain(alloc: Global, out: &mut Vec<u8>, text: &str) -> Result<(), OutOfMemory>
    ensures { OnOk result (out.new.items ≡ out.old.items ++ plain (chars text.now)) }
{
    let line = printable_text(alloc, text)?;
    add(out, line.as_bytes())
}

fn printable_text(alloc: Global, text: &str) -> Result<String, OutOfMemory>
    ensures { IfOk result (λ line.
        string_bytes line ≡ encode_utf8_all (map printable (chars text.now))) }
{
    let line: String = text.chars().map(|c| printable(c)).collect(alloc)?;
    Ok(line)
}

fn printable(c: char) -> char
    ensures { result ≡ printable c }
{
    if c < ' ' || c == '\u{7f}' { '?' } else { c }
}

pub fn outcome_text(outcome: Outcome) -> &'static str
    ensures { result.now ≡ outcome_text outcome }
{
    match outcome {
        Outcome::Passed => "PASSED ",
        Outcome::Skipped => "SKIPPED ",
        Outcome::Failed(_) => "FAILED ",
    }
}

pub fn lost_text(retry: bool) -> &'static str
    ensures { result.now ≡ lost_text retry }
{
    if retry { "RETRY " } else { "CRASHED " }
}

pub fn mode_text(mode: ModeKind) -> &'static str
    ensures { result.now ≡ mode_text mode }
{
    match mode {
        ModeKind::Local => "",
        ModeKind::Each => "each",
        ModeKind::Load => "load",
        ModeKind::LoadScope => "loadscope",
        ModeKind::LoadFile => "loadfile",
        ModeKind::LoadGroup => "loadgroup",
        ModeKind::WorkSteal => "worksteal",
    }
}

pub fn cause_text(cause: Cause) -> &'static str
    ensures { result.now ≡ cause_text cause }
{
    match cause {
        Cause::Ended => "Not properly terminated",
        Cause::Cut => "message cut short",
        Cause::Garbled => "bad message",
        Cause::ReadFault => "read fault",
        Cause::SendFault => "send fault",
        Cause::Breach => "rules broken",
    }
}
