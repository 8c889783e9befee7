// A journal as a file.
ghost use Rattle.std.specs.Prelude.{◌≡◌, ℕ, Err, IfOk};
ghost use Rattle.xd_journal_file.specs.FileOf.{IsFileOf, IsTooLongAt};
ghost use Rattle.xd_journal_file.specs.declared.write.JournalFault.TheVariants.{TooLong, OutOfMemory as NoMemory};

use crate::item::push_item;
use crate::payload::{entry_payload, settings_payload};
use std::alloc::Global;
use xd_edge::{Blob, OutOfMemory};
use xd_journal::Journal;

/// Why a journal has no file.
#[derive(Clone, Copy, Debug, PartialEq, Eq)]
pub enum JournalFault {
    /// The entry at this place, counted from 0, is the first whose payload would have more than 16,777,216 bytes.
    TooLong(usize),
    OutOfMemory,
}

impl From<OutOfMemory> for JournalFault {
    ghost from_gives = { λ _ e. e ≡ NoMemory };

    fn from(_e: OutOfMemory) -> JournalFault {
        JournalFault::OutOfMemory
    }
}

/// The file of a journal, as bytes.
pub fn journal_bytes(alloc: Global, journal: &Journal) -> Result<Blob, JournalFault>
    ensures file { IfOk result (λ bytes. IsFileOf journal.now bytes) }
    ensures long { (place : ℕ) → result ≡ Err (TooLong place) →
        IsTooLongAt place journal.now.entries.items }
{
    let mut bytes = Vec::new(alloc);
    let settings = settings_payload(alloc, journal.settings)?;
    push_item(&mut bytes, settings)?;
    for (place, entry) in journal.entries.iter().enumerate() {
        let Some(payload) = entry_payload(alloc, entry)? else {
            return Err(JournalFault::TooLong(place));
        };
        push_item(&mut bytes, payload)?;
    }
    Ok(Blob::from_vec(bytes))
}
