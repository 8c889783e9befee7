// How the journal of a session begins.
ghost use Rattle.std.specs.Prelude.{◌≡◌, [], OnOk};
ghost use Rattle.xd_run.specs.Histories.{starts_from};
ghost use Rattle.xd_run.specs.State.{after_entries, no_one};
ghost use Rattle.xd_session_books.specs.Books.{books_of};

use crate::outputs::note;
use xd_edge::OutOfMemory;
use xd_journal::Entry;
use xd_session_books::RunBooks;

/// The first workers of a run are started, each at the slot of its number.
pub fn start_all(
    workers: u32,
    books: &mut RunBooks,
    entries: &mut Vec<Entry>,
) -> Result<(), OutOfMemory>
    requires started { books_of books.old ≡ (no_one (books_of books.old).settings).books }
    requires empty { entries.old.items ≡ [] }
    ensures books { OnOk result
        (books_of books.new ≡ (after_entries (no_one (books_of books.old).settings)
        (starts_from 0 workers)).books) }
    ensures entries { OnOk result (entries.new.items ≡ starts_from 0 workers) }
{
    for worker in 0..workers {
        books.start(worker, worker)?;
        note(
            Entry::Start {
                worker,
                slot: worker,
            },
            entries,
        )?;
    }
    Ok(())
}
