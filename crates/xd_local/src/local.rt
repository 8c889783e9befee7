// The tests of a suite, one after another in this program.
ghost use Rattle.std.specs.Prelude.{◌≡◌, IfOk};
ghost use Rattle.xd_report.specs.Status.{status_of};
ghost use Rattle.xd_local.specs.Local.{RunsTests, rounds_seen};

use crate::running::Run;
use std::alloc::Global;
use std::sync::Wait;
use xd_edge::{Children, Clock, OutOfMemory, Sink};
use xd_journal::Journal;
use xd_report::was_printed;
use xd_suite::Suite;
use xd_trace::Moments;

/// A suite that is to be run in this program.
#[derive(Drop)]
pub struct LocalSuite<K: Children> {
    pub alloc: Global,
    pub tests: Suite,
    /// How many failures stop the run. 0 is no limit.
    pub maxfail: u32,
    /// What starts the programs of the tests.
    pub children: K,
}

/// The journal of a run and its exit status, the programs that were handed in, and moments between the tests.
#[derive(Drop)]
pub struct LocalRun<K: Children, O> {
    pub journal: Journal,
    pub status: u8,
    pub children: K,
    /// How the programs and the output stood after the line of each test. Clauses alone read it.
    pub moments: Moments<K, O>,
}

/// Runs the tests of a suite in order, and prints the report. The line of a test is handed on as soon as it has ended.
/// Where the failures reach their limit, or the output fails, no further test is started.
pub fn run_suite<R: Wait, K: Children, T: Clock, O: Sink>(
    rt: &R,
    suite: LocalSuite<K>,
    clock: &mut T,
    out: &mut O,
) -> Result<LocalRun<K, O>, OutOfMemory>
    ensures ran { IfOk result (λ r. RunsTests suite.tests suite.maxfail r.journal
        (record {
          out = record { sunk = O.sunk out.old; faults = O.faults out.old };
          programs = record { runs = K.runs suite.children; faults = K.faults suite.children };
          clock = record { moment = T.moment clock.old; coming = T.coming clock.old };
        })
        (record {
          out = record { sunk = O.sunk out.new; faults = O.faults out.new };
          programs = record { runs = K.runs r.children; faults = K.faults r.children };
          clock = record { moment = T.moment clock.new; coming = T.coming clock.new };
        })
        (rounds_seen K.runs O.sunk r.moments)) }
    ensures status { IfOk result (λ r. r.status ≡ status_of r.journal) }
{
    let mut run = Run::new(suite.alloc, suite.maxfail, suite.children);
    run.collect(&suite.tests)?;
    let mut moments = Moments::new(suite.alloc)?;
    let printed = run.run_and_print(rt, &suite.tests, clock, out, &mut moments);
    let shown = was_printed(printed)?;
    let ended = run.close(shown, moments)?;
    Ok(ended)
}
