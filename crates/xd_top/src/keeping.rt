// What is kept of a run.
ghost use Rattle.std.specs.Prelude.{◌≡◌, ◌≢◌, ℕ, List, IfOk, OnOk, is_some};
ghost use Rattle.xd_edge.specs.Files.{SameFile};
ghost use Rattle.xd_local.specs.Outside.{Output};
ghost use Rattle.xd_top.specs.Keeping.{FilesKept, KeepsIn, KeepsJournal, kept_line, kept_status};
ghost use Rattle.xd_top.specs.Said.{SaysLine};
ghost use Rattle.xd_top.specs.declared.keeping.Kept.TheVariants.{Written};

use crate::refusal::say;
use std::alloc::Global;
use xd_edge::{Files, OutOfMemory, Sink, Text};
use xd_journal::Journal;
use xd_journal_file::{JournalFault, journal_bytes};
use xd_words::Keeps;

/// How the keeping of a journal went.
#[derive(Clone, Copy, Debug, PartialEq, Eq)]
pub enum Kept {
    /// The file has the journal.
    Written,
    /// An entry is too long for a message of the file. No file was touched.
    TooLong,
    /// The file could not be written. What it has now is not known.
    NotWritten,
}

/// Keeps the journal of a run, where it has one and a file is named for it. Gives the exit status: that of the run, or 3
/// where the journal is not kept, which standard error says.
pub fn keep<F: Files, E: Sink>(
    alloc: Global,
    keeps: &Keeps,
    journal: &Option<Journal>,
    own: u8,
    files: &mut F,
    err: &mut E,
) -> Result<u8, OutOfMemory>
    ensures kept { (out : Output) → IfOk result (λ status.
        KeepsIn keeps.now.journal journal.now own status
        (record {
          files = record { held = F.held files.old; faults = F.faults files.old };
          out = out;
          err = record { sunk = E.sunk err.old; faults = E.faults err.old };
        })
        (record {
          files = record { held = F.held files.new; faults = F.faults files.new };
          out = out;
          err = record { sunk = E.sunk err.new; faults = E.faults err.new };
        })) }
{
    let Some(path) = &keeps.journal else {
        return Ok(own);
    };
    let Some(journal) = journal else {
        return Ok(own);
    };
    let status = keep_in(alloc, path, journal, own, files, err)?;
    Ok(status)
}

// Keeps the journal in the file of this name.
fn keep_in<F: Files, E: Sink>(
    alloc: Global,
    path: &Text,
    journal: &Journal,
    own: u8,
    files: &mut F,
    err: &mut E,
) -> Result<u8, OutOfMemory>
    ensures kept { (out : Output) → IfOk result (λ status.
        KeepsJournal path.now journal.now own status
        (record {
          files = record { held = F.held files.old; faults = F.faults files.old };
          out = out;
          err = record { sunk = E.sunk err.old; faults = E.faults err.old };
        })
        (record {
          files = record { held = F.held files.new; faults = F.faults files.new };
          out = out;
          err = record { sunk = E.sunk err.new; faults = E.faults err.new };
        })) }
{
    let how = write_journal(alloc, path, journal, files)?;
    say_kept(err, how);
    Ok(kept_status(how, own))
}

// Replaces the file by that of the journal.
fn write_journal<F: Files>(
    alloc: Global,
    path: &Text,
    journal: &Journal,
    files: &mut F,
) -> Result<Kept, OutOfMemory>
    ensures kept { IfOk result (λ how. FilesKept how path.now journal.now
        (record { held = F.held files.old; faults = F.faults files.old })
        (record { held = F.held files.new; faults = F.faults files.new })) }
    ensures others { OnOk result ((name : List ℕ) → name ≢ path.now →
        SameFile name (F.held files.old) (F.held files.new)) }
    ensures tells { OnOk result (is_some (F.held files.new) ≡ is_some (F.held files.old)) }
{
    let bytes = match journal_bytes(alloc, journal) {
        Ok(bytes) => bytes,
        Err(JournalFault::TooLong(_)) => return Ok(Kept::TooLong),
        Err(JournalFault::OutOfMemory) => return Err(OutOfMemory),
    };
    match files.write_file(path, bytes.as_slice()) {
        Ok(()) => Ok(Kept::Written),
        Err(_) => Ok(Kept::NotWritten),
    }
}

// SaysLine why the journal is not kept, where it is not.
fn say_kept<E: Sink>(err: &mut E, how: Kept)
    ensures quiet { how ≡ Written →
        (E.sunk err.new ≡ E.sunk err.old) × (E.faults err.new ≡ E.faults err.old) }
    ensures says { how ≢ Written → SaysLine (kept_line how)
        (record { sunk = E.sunk err.old; faults = E.faults err.old })
        (record { sunk = E.sunk err.new; faults = E.faults err.new }) }
{
    match how {
        Kept::Written => {}
        Kept::TooLong => say(err, "xdrun: journal is too large\n"),
        Kept::NotWritten => say(err, "xdrun: journal cannot be written\n"),
    }
}

fn kept_status(how: Kept, own: u8) -> u8
    ensures { result ≡ kept_status how own }
{
    match how {
        Kept::Written => own,
        Kept::TooLong | Kept::NotWritten => 3,
    }
}
