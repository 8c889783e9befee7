// How the journal of a session ends.
ghost use Rattle.std.specs.Prelude.{◌≡◌, ◌++◌, ◌∷◌, [], OnOk, unwrap_or, if◌then◌else◌};
ghost use Rattle.xd_journal.specs.declared.entry.Entry.TheVariants as entry;
ghost use Rattle.xd_journal.specs.declared.entry.RunStop.TheVariants as run_stop;
ghost use Rattle.xd_session_books.specs.Books.{books_of};
ghost use Rattle.xd_run.specs.Ending.{ending, kills};

use crate::outputs::note;
use xd_edge::OutOfMemory;
use xd_journal::{Entry, RunStop};
use xd_run::Member;
use xd_session_books::RunBooks;

// A Kill of the member, where it is active.
fn kill_where_active(m: Member, entries: &mut Vec<Entry>) -> Result<(), OutOfMemory>
    ensures { OnOk result (entries.new.items ≡ entries.old.items
        ++ (if m.active then entry.Kill m.worker ∷ [] else [])) }
{
    if !m.active {
        return Ok(());
    }
    note(Entry::Kill { worker: m.worker }, entries)?;
    Ok(())
}

// A Kill of each active member, in order.
fn kill_all(members: &[Member], entries: &mut Vec<Entry>) -> Result<(), OutOfMemory>
    ensures { OnOk result (entries.new.items ≡ entries.old.items ++ kills members.now) }
{
    for i in 0..members.len() {
        let m = members[i];
        kill_where_active(m, entries)?;
    }
    Ok(())
}

/// The last entries of a run.
pub fn end(out_failed: bool, books: &RunBooks, entries: &mut Vec<Entry>) -> Result<(), OutOfMemory>
    ensures { OnOk result (entries.new.items ≡ entries.old.items
        ++ ending out_failed (books_of books.now)) }
{
    if !out_failed {
        let how = books.kept.first_stop().unwrap_or(RunStop::Completed);
        note(Entry::Over { how }, entries)?;
        return Ok(());
    }
    kill_all(books.kept.members(), entries)?;
    note(
        Entry::Over {
            how: RunStop::OutFault,
        },
        entries,
    )?;
    Ok(())
}
