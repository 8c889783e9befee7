//! The file of a journal: [`journal_bytes`] writes it, and [`read_journal`] reads it back.
//!
//! Each message is read by the places of its fields, and what was read is written again and compared with it. So a
//! journal has one file, and other bytes are none.
#![tactic(auto)]

mod entry;
mod entry_read;
mod field;
mod item;
mod law;
mod name;
mod payload;
mod read;
mod settings;
mod stop;
mod value;
mod write;

pub use law::file_law;
pub use read::{FormFault, read_journal};
pub use write::{JournalFault, journal_bytes};
