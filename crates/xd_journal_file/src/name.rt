// The words of a journal file.
ghost use Rattle.std.specs.Prelude.{◌≡◌};
ghost use Rattle.xd_commands.specs.Words.{IsWord};
ghost use Rattle.xd_journal_file.specs.Written.{cause_word, mode_word};
ghost use Rattle.xd_journal_file.specs.inner.Reading.{any_mode_of_word, cause_of_word, name_of_word, outcome_of_word};

use xd_commands::{is_word, mode_of};
use xd_edge::{ModeKind, Text};
use xd_journal::{Cause, Outcome};

/// The names of entries.
#[derive(Clone, Copy)]
pub enum Name {
    Ready,
    Collected,
    Done,
    Back,
    Finished,
    Refused,
    Down,
    NotStarted,
    Start,
    Run,
    RunAll,
    Steal,
    Shutdown,
    Kill,
    Over,
}

pub fn name_of(word: &Text) -> Option<Name>
    ensures { result ≡ name_of_word word.now }
{
    if is_word(word, "ready") {
        Some(Name::Ready)
    } else if is_word(word, "collected") {
        Some(Name::Collected)
    } else if is_word(word, "done") {
        Some(Name::Done)
    } else if is_word(word, "back") {
        Some(Name::Back)
    } else if is_word(word, "finished") {
        Some(Name::Finished)
    } else if is_word(word, "refused") {
        Some(Name::Refused)
    } else if is_word(word, "down") {
        Some(Name::Down)
    } else if is_word(word, "notstarted") {
        Some(Name::NotStarted)
    } else if is_word(word, "start") {
        Some(Name::Start)
    } else if is_word(word, "run") {
        Some(Name::Run)
    } else if is_word(word, "runall") {
        Some(Name::RunAll)
    } else if is_word(word, "steal") {
        Some(Name::Steal)
    } else if is_word(word, "shutdown") {
        Some(Name::Shutdown)
    } else if is_word(word, "kill") {
        Some(Name::Kill)
    } else if is_word(word, "over") {
        Some(Name::Over)
    } else {
        None
    }
}

pub fn any_mode_of(word: &Text) -> Option<ModeKind>
    ensures { result ≡ any_mode_of_word word.now }
{
    if is_word(word, "local") {
        Some(ModeKind::Local)
    } else {
        mode_of(word)
    }
}

pub fn word_of_mode(mode: ModeKind) -> &'static str
    ensures ascii { IsWord result.now }
    ensures word { result.now ≡ mode_word mode }
{
    match mode {
        ModeKind::Local => "local",
        ModeKind::Each => "each",
        ModeKind::Load => "load",
        ModeKind::LoadScope => "loadscope",
        ModeKind::LoadFile => "loadfile",
        ModeKind::LoadGroup => "loadgroup",
        ModeKind::WorkSteal => "worksteal",
    }
}

pub fn outcome_of(word: &Text) -> Option<Outcome>
    ensures { result ≡ outcome_of_word word.now }
{
    if is_word(word, "passed") {
        Some(Outcome::Passed)
    } else if is_word(word, "skipped") {
        Some(Outcome::Skipped)
    } else {
        None
    }
}

pub fn cause_of(word: &Text) -> Option<Cause>
    ensures { result ≡ cause_of_word word.now }
{
    if is_word(word, "ended") {
        Some(Cause::Ended)
    } else if is_word(word, "cut") {
        Some(Cause::Cut)
    } else if is_word(word, "garbled") {
        Some(Cause::Garbled)
    } else if is_word(word, "readfault") {
        Some(Cause::ReadFault)
    } else if is_word(word, "sendfault") {
        Some(Cause::SendFault)
    } else if is_word(word, "breach") {
        Some(Cause::Breach)
    } else {
        None
    }
}

pub fn word_of_cause(cause: Cause) -> &'static str
    ensures ascii { IsWord result.now }
    ensures word { result.now ≡ cause_word cause }
{
    match cause {
        Cause::Ended => "ended",
        Cause::Cut => "cut",
        Cause::Garbled => "garbled",
        Cause::ReadFault => "readfault",
        Cause::SendFault => "sendfault",
        Cause::Breach => "breach",
    }
}
