// The outputs of a journal, performed at a hub.
ghost use Rattle.std.specs.Prelude.{◌≡◌, ◌∷◌, [], ℕ, true, OnOk};
ghost use Rattle.xd_drive.specs.Performing.{marks_after, marks_after_entry, all_possible, is_kill_of_started, is_start_of, kills_of_started, possible, was_started};
ghost use Rattle.xd_drive.specs.Seen.{Performs};

use crate::Hub;
use std::alloc::Global;
use xd_edge::OutOfMemory;
use xd_journal::Entry;

// Calls the hub for one entry, where it is an output.
fn perform_one<H: Hub>(alloc: Global, hub: &mut H, entry: &Entry) -> Result<(), OutOfMemory>
    requires { possible (H.slots (H.made hub.old)) (H.marks hub.old) entry.now ≡ true }
    ensures performs { OnOk result
        (Performs (entry.now ∷ []) (H.seen hub.old) (H.seen hub.new)) }
    ensures marks { OnOk result ((w : ℕ) →
        H.marks hub.new w ≡ marks_after_entry entry.now (H.marks hub.old) w) }
    ensures made { H.made hub.new ≡ H.made hub.old }
{
    match entry {
        Entry::Start { worker, slot } => hub.start(alloc, *worker, *slot),
        Entry::Run { worker, .. } => hub.say(alloc, *worker, entry),
        Entry::RunAll { worker } => hub.say(alloc, *worker, entry),
        Entry::Steal { worker, .. } => hub.say(alloc, *worker, entry),
        Entry::Shutdown { worker } => hub.say(alloc, *worker, entry),
        Entry::Kill { worker } => {
            hub.kill(*worker);
            Ok(())
        }
        _ => Ok(()),
    }
}

/// Calls the hub for the outputs among these entries, in order.
pub(crate) fn perform<H: Hub>(
    alloc: Global,
    hub: &mut H,
    entries: &[Entry],
) -> Result<(), OutOfMemory>
    requires { all_possible (H.slots (H.made hub.old)) (H.marks hub.old) entries.now ≡ true }
    ensures performs { OnOk result
        (Performs entries.now (H.seen hub.old) (H.seen hub.new)) }
    ensures marks { OnOk result ((w : ℕ) →
        H.marks hub.new w ≡ marks_after entries.now (H.marks hub.old) w) }
    ensures made { H.made hub.new ≡ H.made hub.old }
{
    for entry in entries {
        perform_one(alloc, hub, entry)?;
    }
    Ok(())
}

fn was_started(worker: u32, done: &[Entry]) -> bool
    ensures { result ≡ was_started worker done.now }
{
    done.iter().any(|entry| is_start_of(worker, entry))
}

fn is_start_of(worker: u32, entry: &Entry) -> bool
    ensures { result ≡ is_start_of worker entry.now }
{
    match entry {
        Entry::Start { worker: other, .. } => *other == worker,
        _ => false,
    }
}

fn is_kill_of_started(done: &[Entry], entry: &Entry) -> bool
    ensures { result ≡ is_kill_of_started done.now entry.now }
{
    match entry {
        Entry::Kill { worker } => was_started(*worker, done),
        _ => false,
    }
}

// Calls the hub for the entry, where it is the kill of a worker whose start was performed.
fn kill_one<H: Hub>(
    alloc: Global,
    hub: &mut H,
    done: &[Entry],
    entry: &Entry,
) -> Result<(), OutOfMemory>
    requires { all_possible (H.slots (H.made hub.old)) (H.marks hub.old)
        (kills_of_started done.now (entry.now ∷ [])) ≡ true }
    ensures performs { OnOk result
        (Performs (kills_of_started done.now (entry.now ∷ [])) (H.seen hub.old) (H.seen hub.new)) }
    ensures marks { OnOk result ((w : ℕ) →
        H.marks hub.new w ≡ marks_after (kills_of_started done.now (entry.now ∷ []))
        (H.marks hub.old) w) }
    ensures made { H.made hub.new ≡ H.made hub.old }
{
    if is_kill_of_started(done, entry) {
        perform_one(alloc, hub, entry)
    } else {
        Ok(())
    }
}

/// Calls the hub for the kills among these entries of the workers whose starts were performed.
pub(crate) fn kill_started<H: Hub>(
    alloc: Global,
    hub: &mut H,
    done: &[Entry],
    entries: &[Entry],
) -> Result<(), OutOfMemory>
    requires { all_possible (H.slots (H.made hub.old)) (H.marks hub.old)
        (kills_of_started done.now entries.now) ≡ true }
    ensures performs { OnOk result
        (Performs (kills_of_started done.now entries.now) (H.seen hub.old) (H.seen hub.new)) }
    ensures made { H.made hub.new ≡ H.made hub.old }
{
    for entry in entries {
        kill_one(alloc, hub, done, entry)?;
    }
    Ok(())
}
