// What a run in words comes to.
//
// A table has a line for each run, its fields parted by ` ~ `: a name, the settings, the news, the journal, the status and
// the text. The settings are the workers, the failures that stop the run or 0, the restarts, the chunk or -, and which call
// of the output fails, counted from 0, or -; then the mode, where more follows or it is not load, `kept` where scopes keep
// their order, as `r2` how often a crashed test is tried again, and, in worksteal, as `c9` after how many of its calls the
// mode runs out of memory, with which the run ends: it has - for the journal and the status, and the text so far.
// News and entries are those of `words`; in the text, too, more than eight of one character are written x*9, and / is a
// newline.
ghost use Rattle.std.specs.Prelude.{◌≡◌, IfOk};
ghost use Rattle.xd_edge.specs.declared.mode.ModeKind.TheVariants.{WorkSteal};
ghost use Rattle.xd_run.specs.State.{no_one};
ghost use Rattle.xd_session.specs.Stands.{CanBegin};

use crate::drive::limited::Limited;
use crate::words::{news_of, number, show_bytes, show_entries};
use std::alloc::Global;
use std::sync::Wait;
use std::test::Fail;
use xd_drive::{DrivenRun, ListedHub, drive};
use xd_edge::{Indices, ModeKind, OutOfMemory};
use xd_journal::Settings;
use xd_ledger::Mode;
use xd_load::{Each, Load};
use xd_memory::MemSink;
use xd_scope::Scope;
use xd_session::Session;
use xd_steal::Steal;

fn mode_of(word: Option<&str>) -> ModeKind {
    match word {
        Some("each") => ModeKind::Each,
        Some("loadscope") => ModeKind::LoadScope,
        Some("loadfile") => ModeKind::LoadFile,
        Some("loadgroup") => ModeKind::LoadGroup,
        Some("worksteal") => ModeKind::WorkSteal,
        _ => ModeKind::Load,
    }
}

// The number after this letter, of the words after the mode.
fn number_after(words: &str, letter: char) -> Result<Option<u32>, Fail> {
    for word in words.split(',').skip(6) {
        if let Some(count) = word.strip_prefix(letter) {
            return Ok(Some(number(count)?));
        }
    }
    Ok(None)
}

fn settings_of(words: &str) -> Result<Settings, Fail>
    ensures { IfOk result CanBegin }
{
    let mut fields = words.split(',');
    let workers = number(fields.next().ok_or("the workers")?)?;
    let maxfail = number(fields.next().ok_or("the limit on failures")?)?;
    let restarts = number(fields.next().ok_or("the restarts")?)?;
    let chunk = fields.next().ok_or("the chunk")?.parse::<u32>().ok();
    let mode = mode_of(fields.nth(1));
    let retries = number_after(words, 'r')?.unwrap_or(0);
    if workers < 1 || workers > 32 || restarts > 1000 || mode == ModeKind::Local {
        return Err(Fail::from("settings within their limits"));
    }
    Ok(Settings {
        mode,
        workers,
        maxfail,
        restarts,
        chunk,
        reorder: !words.contains("kept"),
        retries,
    })
}

// The output, by the setting that says which call of it fails.
fn output_that_fails(alloc: Global, words: &str) -> Result<MemSink, Fail> {
    let mut fails = Vec::new(alloc);
    let which = words.split(',').nth(4).ok_or("which call fails")?;
    if which != "-" {
        fails.push(number(which)?)?;
    }
    let out = MemSink::new(alloc, 100_000, Indices { items: fails })?;
    Ok(out)
}

/// What a run came to: the calls that its hub took; and its journal, its status and its text. In words.
#[derive(Drop)]
pub struct Ran {
    pub calls: String,
    pub rest: String,
}

fn rest_of(
    alloc: Global,
    run: &Result<DrivenRun<ListedHub, MemSink>, OutOfMemory>,
    out: &MemSink,
) -> Result<String, Fail> {
    let mut text = String::new(alloc);
    match run {
        Ok(run) => {
            show_entries(alloc, &mut text, &run.journal.entries)?;
            write!(text, "~ {} ~ ", run.status)?;
        }
        Err(OutOfMemory) => text.push_str("- ~ - ~ ")?,
    }
    show_bytes(&mut text, out.bytes.as_slice())?;
    Ok(text)
}

/// What the run with these settings and news comes to.
pub fn run_of<R: Wait>(rt: &R, alloc: Global, words: &str, news: &str) -> Result<Ran, Fail> {
    let settings = settings_of(words)?;
    let kind = settings.mode;
    match kind {
        ModeKind::Each => run_in(rt, alloc, settings, Each::new(alloc), words, news),
        ModeKind::LoadScope | ModeKind::LoadFile | ModeKind::LoadGroup => {
            let mode = Scope::new(alloc, kind, settings.reorder);
            run_in(rt, alloc, settings, mode, words, news)
        }
        ModeKind::WorkSteal => run_steal(rt, alloc, settings, words, news),
        ModeKind::Load => run_in(rt, alloc, settings, Load::new(settings.chunk), words, news),
        ModeKind::Local => Err(Fail::from("a mode with workers")),
    }
}

// The same in mode worksteal, which may run out of memory.
fn run_steal<R: Wait>(
    rt: &R,
    alloc: Global,
    settings: Settings,
    words: &str,
    news: &str,
) -> Result<Ran, Fail>
    requires begins { CanBegin settings }
    requires steal { settings.mode ≡ WorkSteal }
{
    match number_after(words, 'c')? {
        None => run_in(rt, alloc, settings, Steal::new(), words, news),
        Some(calls) => {
            let mode = Limited::new(Steal::new(), calls);
            run_in(rt, alloc, settings, mode, words, news)
        }
    }
}

// The same in this mode.
fn run_in<R: Wait, M: Mode>(
    rt: &R,
    alloc: Global,
    settings: Settings,
    mode: M,
    words: &str,
    news: &str,
) -> Result<Ran, Fail>
    requires begins { CanBegin settings }
    requires fresh { M.stands mode (no_one settings).plan }
{
    let session = Session::new(alloc, settings, mode)?;
    let refused = Indices {
        items: Vec::new(alloc),
    };
    let mut hub = ListedHub::new(alloc, news_of(alloc, news)?, refused);
    let mut out = output_that_fails(alloc, words)?;
    let run = drive(rt, alloc, session, &mut hub, &mut out);
    let mut calls = String::new(alloc);
    show_entries(alloc, &mut calls, &hub.calls)?;
    let rest = rest_of(alloc, &run, &out)?;
    Ok(Ran { calls, rest })
}
