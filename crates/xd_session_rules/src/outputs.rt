// What is said after an input.
ghost use Rattle.std.specs.Prelude.{◌≡◌, [], ◌∷◌, ◌++◌, OnOk, if◌then◌else◌};
ghost use Rattle.xd_journal.specs.declared.entry.Entry.TheVariants as entry;
ghost use Rattle.xd_run.specs.Outputs.{shut_all};
ghost use Rattle.xd_run.specs.Stops.{is_shutting};
ghost use Rattle.xd_run.specs.Workers.{waiting};
ghost use Rattle.xd_session_books.specs.Books.{books_of, told_to_shut, told_all, shutdowns};
ghost use Rattle.xd_session_rules.specs.Rules.{members_told, told_by};

use std::alloc::Global;
use xd_edge::OutOfMemory;
use xd_journal::Entry;
use xd_run::Mark;
use xd_session_books::RunBooks;

/// One more entry.
pub fn note(entry: Entry, entries: &mut Vec<Entry>) -> Result<(), OutOfMemory>
    ensures { OnOk result (entries.new.items ≡ entries.old.items ++ entry ∷ []) }
{
    entries.push(entry)?;
    Ok(())
}

/// More entries.
pub fn note_all(acts: &mut Vec<Entry>, entries: &mut Vec<Entry>) -> Result<(), OutOfMemory>
    ensures { OnOk result (entries.new.items ≡ entries.old.items ++ acts.old.items) }
{
    match entries.append(acts) {
        Ok(()) => Ok(()),
        Err(_) => Err(OutOfMemory),
    }
}

/// A Shutdown to each of these workers.
pub fn tell_all(
    workers: &[u32],
    books: &mut RunBooks,
    entries: &mut Vec<Entry>,
) -> Result<(), OutOfMemory>
    ensures told { OnOk result (books_of books.new ≡ told_all workers.now (books_of books.old)) }
    ensures noted { OnOk result (entries.new.items ≡ entries.old.items ++ shutdowns workers.now) }
{
    for i in 0..workers.len() {
        let worker = workers[i];
        books.tell(worker);
        note(Entry::Shutdown { worker }, entries)?;
    }
    Ok(())
}

/// A Shutdown to each worker that waits.
pub fn shut_everyone(
    alloc: Global,
    books: &mut RunBooks,
    entries: &mut Vec<Entry>,
) -> Result<(), OutOfMemory>
    ensures told { OnOk result
        (books_of books.new ≡
        told_all (waiting (books_of books.old).members) (books_of books.old)) }
    ensures noted { OnOk result
        (entries.new.items ≡ entries.old.items ++ shut_all (books_of books.old).members) }
{
    let workers = books.waiting(alloc)?;
    tell_all(&workers.items, books, entries)?;
    Ok(())
}

/// A Shutdown to the worker, where the run is shutting.
pub fn tell_where_shutting(
    worker: u32,
    books: &mut RunBooks,
    entries: &mut Vec<Entry>,
) -> Result<(), OutOfMemory>
    ensures told { OnOk result
        (books_of books.new ≡ (if is_shutting (books_of books.old) then told_to_shut worker
        (books_of books.old) else books_of books.old)) }
    ensures noted { OnOk result
        (entries.new.items ≡ entries.old.items
        ++ (if is_shutting (books_of books.old) then entry.Shutdown worker ∷ [] else [])) }
{
    if !books.kept.is_shutting() {
        return Ok(());
    }
    books.tell(worker);
    note(Entry::Shutdown { worker }, entries)?;
    Ok(())
}

// The marks of the workers after an output of the mode.
fn follow_one(act: &Entry, books: &mut RunBooks)
    ensures { books_of books.new ≡ record (books_of books.old)
        { members = told_by (books_of books.old).members act.now } }
{
    if let Entry::Shutdown { worker } = act {
        books.mark(*worker, Mark::Shut);
    }
}

/// The marks of the workers after these outputs of the mode.
pub fn follow(acts: &[Entry], books: &mut RunBooks)
    ensures { books_of books.new ≡ record (books_of books.old)
        { members = members_told acts.now (books_of books.old).members } }
{
    for i in 0..acts.len() {
        follow_one(&acts[i], books);
    }
}
