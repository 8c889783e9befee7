// The line of a stop.
ghost use Rattle.std.specs.Prelude.{◌≡◌, ◌++◌, OnOk};
ghost use Rattle.std.specs.Str.{chars};
ghost use Rattle.xd_report_phrases.specs.StopLine.{disabled_line, limit_line, line_of_stop, most_line, place_text, refusal, refusal_text, refused_line, restarts_line, stop_line, unequal_line};

use crate::names::{add_name, add_plain};
use crate::writing::{add, add_text};
use std::alloc::Global;
use xd_edge::{ModeKind, OutOfMemory};
use xd_journal::{Entry, RunStop};

/// The line of the first stop among these entries, where there is one.
pub fn add_line_of_stop(
    alloc: Global,
    out: &mut Vec<u8>,
    mode: ModeKind,
    entries: &[Entry],
    stop: Option<RunStop>,
) -> Result<(), OutOfMemory>
    ensures { OnOk result (out.new.items ≡ out.old.items ++ line_of_stop mode entries.now stop) }
{
    match stop {
        Some(how) => add_stop_line(alloc, out, mode, entries, how),
        None => Ok(()),
    }
}

fn add_stop_line(
    alloc: Global,
    out: &mut Vec<u8>,
    mode: ModeKind,
    entries: &[Entry],
    how: RunStop,
) -> Result<(), OutOfMemory>
    ensures { OnOk result (out.new.items ≡ out.old.items ++ stop_line mode entries.now how) }
{
    match how {
        RunStop::MaxFail { count } => add_limit(alloc, out, count),
        RunStop::Restarts { worker, limit } => add_restarts(alloc, out, mode, worker, limit),
        RunStop::Unequal {
            worker,
            other,
            place,
        } => add_unequal(alloc, out, mode, other, worker, place),
        RunStop::CollectError { worker } => {
            add_refused(alloc, out, mode, worker, refusal(entries, worker))
        }
        RunStop::Completed | RunStop::OutFault => Ok(()),
    }
}

/// The text with which a worker first refused to collect.
fn refusal(entries: &[Entry], worker: u32) -> &str
    ensures { chars result.now ≡ refusal worker entries.now }
{
    for entry in entries {
        if let Entry::Refused { worker: w, text } = entry {
            if *w == worker {
                return text.as_str();
            }
        }
    }
    ""
}

#[tactic(auto, unfolding(crate::specs::StopLine::limit_line))]
fn add_limit(alloc: Global, out: &mut Vec<u8>, count: u32) -> Result<(), OutOfMemory>
    ensures { OnOk result (out.new.items ≡ out.old.items ++ limit_line count) }
{
    let line = format!(in alloc; "stopping after {count} failures\n")?;
    add(out, line.as_bytes())?;
    Ok(())
}

fn add_restarts(
    alloc: Global,
    out: &mut Vec<u8>,
    mode: ModeKind,
    worker: u32,
    limit: u32,
) -> Result<(), OutOfMemory>
    ensures { OnOk result (out.new.items ≡ out.old.items ++ restarts_line mode worker limit) }
{
    match limit {
        0 => add_disabled(alloc, out, mode, worker),
        _ => add_most(alloc, out, limit),
    }
}

#[tactic(auto, unfolding(crate::specs::StopLine::disabled_line))]
fn add_disabled(
    alloc: Global,
    out: &mut Vec<u8>,
    mode: ModeKind,
    worker: u32,
) -> Result<(), OutOfMemory>
    ensures { OnOk result (out.new.items ≡ out.old.items ++ disabled_line mode worker) }
{
    add_text(out, "worker ")?;
    add_name(alloc, out, mode, worker)?;
    add_text(out, " crashed and worker restarting disabled\n")?;
    Ok(())
}

#[tactic(auto, unfolding(crate::specs::StopLine::most_line))]
fn add_most(alloc: Global, out: &mut Vec<u8>, limit: u32) -> Result<(), OutOfMemory>
    ensures { OnOk result (out.new.items ≡ out.old.items ++ most_line limit) }
{
    let line = format!(in alloc; "maximum crashed workers reached: {limit}\n")?;
    add(out, line.as_bytes())?;
    Ok(())
}

fn add_unequal(
    alloc: Global,
    out: &mut Vec<u8>,
    mode: ModeKind,
    other: u32,
    worker: u32,
    place: u32,
) -> Result<(), OutOfMemory>
    ensures { OnOk result (out.new.items ≡ out.old.items ++ unequal_line mode other worker place) }
{
    add_text(out, "different tests collected by ")?;
    add_name(alloc, out, mode, other)?;
    add_text(out, " and ")?;
    add_name(alloc, out, mode, worker)?;
    add_place(alloc, out, place)
}

#[tactic(auto, unfolding(crate::specs::StopLine::place_text))]
fn add_place(alloc: Global, out: &mut Vec<u8>, place: u32) -> Result<(), OutOfMemory>
    ensures { OnOk result (out.new.items ≡ out.old.items ++ place_text place) }
{
    let text = format!(in alloc; ", first at place {place}\n")?;
    add(out, text.as_bytes())?;
    Ok(())
}

fn add_refused(
    alloc: Global,
    out: &mut Vec<u8>,
    mode: ModeKind,
    worker: u32,
    text: &str,
) -> Result<(), OutOfMemory>
    ensures { OnOk result (out.new.items ≡ out.old.items
        ++ refused_line mode worker (chars text.now)) }
{
    add_text(out, "collection failed on ")?;
    add_name(alloc, out, mode, worker)?;
    add_refusal(alloc, out, text)?;
    Ok(())
}

#[tactic(auto, unfolding(crate::specs::StopLine::refusal_text))]
fn add_refusal(alloc: Global, out: &mut Vec<u8>, text: &str) -> Result<(), OutOfMemory>
    ensures { OnOk result (out.new.items ≡ out.old.items ++ refusal_text (chars text.now)) }
{
    add_text(out, ": ")?;
    add_plain(alloc, out, text)?;
    add(out, &[b'\n'])
}
