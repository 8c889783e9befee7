// A file as a journal.
ghost use Rattle.std.specs.Prelude.{◌≡◌, ℕ, Err, IfOk};
ghost use Rattle.xd_journal_file.specs.FileOf.{IsFileOf, IsBadAt};
ghost use Rattle.xd_journal_file.specs.declared.read.FormFault.TheVariants.{Bad, OutOfMemory as NoMemory};

use crate::item::first_item;
use crate::payload::{payload_entry, payload_settings};
use std::alloc::Global;
use xd_edge::OutOfMemory;
use xd_journal::Journal;

/// Why bytes are no file of a journal.
#[derive(Clone, Copy, Debug, PartialEq, Eq)]
pub enum FormFault {
    /// The message of this number, counted from 0, is the first that is not there whole, or not of the form. Of a file
    /// without a message it is 0.
    Bad(usize),
    OutOfMemory,
}

impl From<OutOfMemory> for FormFault {
    ghost from_gives = { λ _ e. e ≡ NoMemory };

    fn from(_e: OutOfMemory) -> FormFault {
        FormFault::OutOfMemory
    }
}

/// The journal whose file these bytes are. They may come from anybody: time and memory grow with their length, whatever
/// they declare.
pub fn read_journal(alloc: Global, bytes: &[u8]) -> Result<Journal, FormFault>
    ensures file { IfOk result (λ journal. IsFileOf journal bytes.now) }
    ensures bad { (number : ℕ) → result ≡ Err (Bad number) → IsBadAt number bytes.now }
{
    let Some((payload, after)) = first_item(bytes) else {
        return Err(FormFault::Bad(0));
    };
    let Some(settings) = payload_settings(alloc, payload)? else {
        return Err(FormFault::Bad(0));
    };
    let mut journal = Journal::new(alloc, settings);
    let mut rest = after;
    'messages: loop {
        if rest.is_empty() {
            return Ok(journal);
        }
        let number = journal.entries.len() + 1;
        let Some((payload, after)) = first_item(rest) else {
            return Err(FormFault::Bad(number));
        };
        let Some(entry) = payload_entry(alloc, payload)? else {
            return Err(FormFault::Bad(number));
        };
        journal.push(entry)?;
        rest = after;
    }
}
