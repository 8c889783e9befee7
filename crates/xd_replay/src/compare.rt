// How far the entries of a journal are those that a run would have.
ghost use Rattle.std.specs.Prelude.{◌≡◌, ◌≤◌, true, false, not, length, drop};
ghost use Rattle.std.specs.List.{list_all};
ghost use Rattle.xd_journal.specs.declared.entry.Entry.TheVariants as entry;
ghost use Rattle.xd_run.specs.State.{is_input};
ghost use Rattle.xd_replay.specs.inner.Compared.{AgreeFor};

use xd_journal::{Entry, RunStop};

fn is_start(found: &Entry, to: u32, at: u32) -> bool
    ensures same { result ≡ true → entry.Start to at ≡ found.now }
    ensures other { entry.Start to at ≡ found.now → result ≡ true }
{
    match found {
        Entry::Start { worker, slot } => *worker == to && *slot == at,
        _ => false,
    }
}

fn is_run(found: &Entry, to: u32, tests: &[u32]) -> bool
    ensures same { result ≡ true → entry.Run to tests.now ≡ found.now }
    ensures other { entry.Run to tests.now ≡ found.now → result ≡ true }
{
    match found {
        Entry::Run { worker, indices } => *worker == to && indices.items.as_slice() == tests,
        _ => false,
    }
}

fn is_run_all(found: &Entry, to: u32) -> bool
    ensures same { result ≡ true → entry.RunAll to ≡ found.now }
    ensures other { entry.RunAll to ≡ found.now → result ≡ true }
{
    match found {
        Entry::RunAll { worker } => *worker == to,
        _ => false,
    }
}

fn is_steal(found: &Entry, from: u32, tests: &[u32]) -> bool
    ensures same { result ≡ true → entry.Steal from tests.now ≡ found.now }
    ensures other { entry.Steal from tests.now ≡ found.now → result ≡ true }
{
    match found {
        Entry::Steal { worker, indices } => *worker == from && indices.items.as_slice() == tests,
        _ => false,
    }
}

fn is_shutdown(found: &Entry, to: u32) -> bool
    ensures same { result ≡ true → entry.Shutdown to ≡ found.now }
    ensures other { entry.Shutdown to ≡ found.now → result ≡ true }
{
    match found {
        Entry::Shutdown { worker } => *worker == to,
        _ => false,
    }
}

fn is_kill(found: &Entry, of: u32) -> bool
    ensures same { result ≡ true → entry.Kill of ≡ found.now }
    ensures other { entry.Kill of ≡ found.now → result ≡ true }
{
    match found {
        Entry::Kill { worker } => *worker == of,
        _ => false,
    }
}

fn is_over(found: &Entry, so: RunStop) -> bool
    ensures same { result ≡ true → entry.Over so ≡ found.now }
    ensures other { entry.Over so ≡ found.now → result ≡ true }
{
    match found {
        Entry::Over { how } => *how == so,
        _ => false,
    }
}

// What was told to a worker, or the end of a run, stands there.
fn is_same(told: &Entry, found: &Entry) -> bool
    requires { is_input told.now ≡ false }
    ensures same { result ≡ true → told.now ≡ found.now }
    ensures other { told.now ≡ found.now → result ≡ true }
{
    match told {
        Entry::Start { worker, slot } => is_start(found, *worker, *slot),
        Entry::Run { worker, indices } => is_run(found, *worker, &indices.items),
        Entry::RunAll { worker } => is_run_all(found, *worker),
        Entry::Steal { worker, indices } => is_steal(found, *worker, &indices.items),
        Entry::Shutdown { worker } => is_shutdown(found, *worker),
        Entry::Kill { worker } => is_kill(found, *worker),
        Entry::Over { how } => is_over(found, *how),
        _ => false,
    }
}

/// For how many entries what was told and what is found are the same.
pub fn agree_for(told: &[Entry], found: &[Entry]) -> usize
    requires { list_all (λ e. not (is_input e)) told.now ≡ true }
    ensures { AgreeFor result told.now found.now }
{
    let shorter = told.len().min(found.len());
    for i in 0..shorter {
        if !is_same(&told[i], &found[i]) {
            return i;
        }
    }
    shorter
}

/// The same of what was told and what is found from a place on.
pub fn agree_from(told: &[Entry], found: &[Entry], from: usize) -> usize
    requires outputs { list_all (λ e. not (is_input e)) told.now ≡ true }
    requires within { from ≤ length found.now }
    ensures { AgreeFor result told.now (drop from found.now) }
{
    agree_for(told, &found[from..])
}

/// The same without the first entry that was told.
pub fn agree_past(told: &[Entry], found: &[Entry], from: usize) -> usize
    requires some { 1 ≤ length told.now }
    requires outputs { list_all (λ e. not (is_input e)) (drop 1 told.now) ≡ true }
    requires within { from ≤ length found.now }
    ensures { AgreeFor result (drop 1 told.now) (drop from found.now) }
{
    agree_from(&told[1..], found, from)
}
