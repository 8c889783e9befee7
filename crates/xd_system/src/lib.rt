//! Both ends of a run at once: a controller and its honest workers, at each moment of a system. A worker is
//! honest where it does what a call of `run_tests` does; what is on the way between them, and when, is free.
#![tactic(auto)]

ghost use Rattle.xd_journal.specs.declared.journal.Journal.{Journal};
ghost use Rattle.xd_system.specs.Deaths.{LeftTrue};
ghost use Rattle.xd_system.specs.Journals.{IsProperJournal, TellsInOrder};
ghost use Rattle.xd_system.specs.Laws.{EachInItsPlace, NeverAccused, RunsEachOnce, SomethingMoves};
ghost use Rattle.xd_system.specs.Steps.{ShippedAreHonest};

/// In every mode what is told in a proper journal is in order where it stands, from the first starts to the end.
pub fn orderly_law()
    ensures { (j : Journal) → IsProperJournal j → TellsInOrder j }
{}

/// No honest worker is called in breach, whatever is on the way and wherever its link was cut.
pub fn accused_law()
    ensures { NeverAccused }
{}

/// What an active, honest worker with a whole link holds, without the tests of its answers on the way, is in
/// order: the tests whose end is on the way, the running one, the next one, the queue, and the tests of orders on
/// the way.
pub fn places_law()
    ensures { EachInItsPlace }
{}

/// Where an honest worker with a whole link owes the next step, something is on the way to or from it, or its
/// suite is asked for, or a test runs.
pub fn moves_law()
    ensures { SomethingMoves }
{}

/// Where every worker is honest, none goes down or fails to start, and the run ends unstopped, each item's
/// program was started exactly once, and the item's report is that program's outcome.
pub fn once_law()
    ensures { RunsEachOnce }
{}

/// Calls of `run_tests` are honest workers: whatever suite files they read, however their programs end, in
/// whatever order things come, and wherever links are cut, each state that a system of them reaches is one of
/// which these laws speak.
pub fn shipped_law()
    ensures { ShippedAreHonest }
{}

/// Whatever dies and whatever is tried again: an honest worker starts no test twice, and its results are how programs
/// that it started ended, in order; a crash is of the first test that its worker held, which no other worker held then.
pub fn deaths_law()
    ensures { LeftTrue }
{}
