// The end of a program.
ghost use Rattle.std.specs.Prelude.{◌≡◌, ◌≤◌, true, IsTrue};
ghost use Rattle.xd_edge.specs.Faults.{RoseBy};
ghost use Rattle.xd_child.specs.Ending.{Waited, fault_count, outcome_of_end};

use std::sync::Wait;
use xd_edge::{ChildEnd, Children};
use xd_journal::Outcome;

/// Waits for a program whose output was read to its end, or else could not be read. Says how its test went.
#[tactic(auto, using(crate::proofs::Waiting::by_end, crate::proofs::Waiting::by_end_unread))]
pub fn wait_for<R: Wait, K: Children>(
    rt: &R,
    children: &mut K,
    child: K::Child,
    is_whole: bool,
) -> Outcome
    requires { IsTrue (K.is_read child) }
    ensures waited { Waited is_whole (K.place child) result (K.runs children.old)
        (K.runs children.new) }
    ensures later { K.faults children.old ≤ K.faults children.new }
    ensures faults { is_whole ≡ true →
        RoseBy (fault_count result) (K.faults children.old) (K.faults children.new) }
    ensures still { fault_count result ≡ 0 → K.faults children.new ≡ K.faults children.old }
{
    match children.wait(rt, child) {
        Err(_) => Outcome::Failed(-3),
        Ok(_) if !is_whole => Outcome::Failed(-3),
        Ok(end) => outcome_of_end(end),
    }
}

// How the test of a program went that ended so: with status 0 it passed, with 77 it was skipped.
fn outcome_of_end(end: ChildEnd) -> Outcome
    ensures outcome { result ≡ outcome_of_end end }
    ensures no_fault { fault_count result ≡ 0 }
{
    match end {
        ChildEnd::Status(0) => Outcome::Passed,
        ChildEnd::Status(77) => Outcome::Skipped,
        ChildEnd::Status(status) => Outcome::Failed(i32::from(status)),
        ChildEnd::Killed => Outcome::Failed(-1),
    }
}
