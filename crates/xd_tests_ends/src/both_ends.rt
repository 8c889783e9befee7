// A run whose two ends are both there: a session, and two workers. What one says is on the way until a test has the
// other take it.
ghost use Rattle.std.specs.Prelude.{◌≡◌, true, OnOk, IfOk};

use crate::worker::Worker;
use std::alloc::{AllocError, Global};
use std::test::Fail;
use xd_edge::{ModeKind, OutOfMemory};
use xd_journal::{Entry, News, Settings};
use xd_session::Session;
use xd_steal::Steal;

fn begin(alloc: Global) -> Result<Session<Steal>, OutOfMemory>
    ensures { IfOk result (λ s. s.whole ≡ true) }
{
    let settings = Settings {
        mode: ModeKind::WorkSteal,
        workers: 2,
        maxfail: 0,
        restarts: 8,
        chunk: None,
        reorder: true,
        retries: 0,
    };
    let session = Session::new(alloc, settings, Steal::new())?;
    Ok(session)
}

// The controller hears all that the worker said. What it orders then is in its journal.
fn hear(alloc: Global, session: &mut Session<Steal>, worker: &mut Worker) -> Result<(), OutOfMemory>
    requires { session.old.whole ≡ true }
    ensures { OnOk result (session.new.whole ≡ true) }
{
    for what in worker.give_news(alloc) {
        if session.is_active(worker.number) {
            let worker = worker.number;
            let _ = session.step(alloc, News { worker, what })?;
        }
    }
    Ok(())
}

// One move: the next order comes to the worker (o), the program of its test ends (e), or the controller hears it (n).
fn go(
    alloc: Global,
    session: &mut Session<Steal>,
    worker: &mut Worker,
    step: u8,
) -> Result<(), OutOfMemory>
    requires { session.old.whole ≡ true }
    ensures { OnOk result (session.new.whole ≡ true) }
{
    match step {
        b'n' => hear(alloc, session, worker),
        b'o' => worker.take_order(alloc, &session.journal().entries),
        _ => worker.end_test(),
    }
}

// Moves of the first worker, and in capitals of the second one.
fn play(
    alloc: Global,
    session: &mut Session<Steal>,
    first: &mut Worker,
    second: &mut Worker,
    moves: &str,
) -> Result<(), OutOfMemory>
    requires { session.old.whole ≡ true }
    ensures { OnOk result (session.new.whole ≡ true) }
{
    for step in moves.bytes() {
        if step.is_ascii_lowercase() {
            go(alloc, session, first, step)?;
        } else {
            go(alloc, session, second, step.to_ascii_lowercase())?;
        }
    }
    Ok(())
}

fn write_tests(out: &mut String, word: &str, worker: u32, tests: &[u32]) -> Result<(), AllocError> {
    write!(out, "{word}{worker}")?;
    for test in tests {
        write!(out, " {test}")?;
    }
    out.push_str("; ")
}

fn write_entry(out: &mut String, entry: &Entry) -> Result<(), AllocError> {
    match entry {
        Entry::Run { worker, indices } => write_tests(out, "run", *worker, &indices.items),
        Entry::Steal { worker, indices } => write_tests(out, "steal", *worker, &indices.items),
        Entry::Back { worker, indices } => write_tests(out, "back", *worker, &indices.items),
        Entry::Done { worker, index, .. } => write_tests(out, "done", *worker, &[*index]),
        Entry::Shutdown { worker } => write_tests(out, "shutdown", *worker, &[]),
        Entry::Finished { worker } => write_tests(out, "finished", *worker, &[]),
        Entry::Down { worker, .. } => write_tests(out, "down", *worker, &[]),
        _ => Ok(()),
    }
}

fn write_running(out: &mut String, worker: &Worker) -> Result<(), AllocError> {
    if let Some(test) = worker.runs() {
        write!(out, "{test} runs; ")?;
    }
    Ok(())
}

// What was told and ordered in these moves, but for starts and collections, which tests run then, and whether the run
// is over.
fn told(
    alloc: Global,
    session: &mut Session<Steal>,
    first: &mut Worker,
    second: &mut Worker,
    moves: &str,
) -> Result<String, Fail>
    requires { session.old.whole ≡ true }
{
    play(alloc, session, first, second, moves)?;
    let mut out = String::new(alloc);
    for entry in &session.journal().entries {
        write_entry(&mut out, entry)?;
    }
    write_running(&mut out, first)?;
    write_running(&mut out, second)?;
    if session.over() {
        out.push_str("over")?;
    }
    Ok(out)
}

// The same of a run that begins. Nothing is tried here while the session is there: each place that drops one is dear to
// prove.
fn after(alloc: Global, moves: &str) -> Result<String, Fail> {
    let mut first = Worker::new(alloc, 0)?;
    let mut second = Worker::new(alloc, 1)?;
    let mut session = begin(alloc)?;
    told(alloc, &mut session, &mut first, &mut second, moves)
}

// Both collect, and each gets half of the tests. The second one ends 5 and 6, which is on its way. The first one ends
// all but one of its tests, which the controller hears: it asks the second one for 8 and 9, while that runs 7 with 8
// next.
const ASKED: (&str, &str) = (
    "nNoOEEeeeen",
    "run0 0 1 2 3 4; run1 5 6 7 8 9; done0 0; done0 1; done0 2; done0 3; steal1 8 9; 7 runs; ",
);

// That comes to the second one, which the controller then hears. It gave nothing back, as 8 is next; 9 alone is asked
// for, is queued, and comes back. The run goes to its end: no worker goes down, and each test is done once.
const ENDED: (&str, &str) = (
    "nNoOEEeeeenONONoenENoOeEnN",
    "run0 0 1 2 3 4; run1 5 6 7 8 9; done0 0; done0 1; done0 2; done0 3; steal1 8 9; done1 5; done1 6; back1; \
    steal1 9; back1 9; run0 9; done0 4; shutdown0; done1 7; shutdown1; done0 9; finished0; done1 8; finished1; over",
);

#[test]
fn a_steal_that_meets_completions_on_their_way_is_answered_by_nothing(
    rt: HostRuntime,
) -> Result<(), Fail> {
    for (moves, told) in [ASKED, ENDED] {
        let found = after(rt.alloc(), moves)?;
        assert_eq!(rt; found.as_str(), told);
    }
    Ok(())
}
