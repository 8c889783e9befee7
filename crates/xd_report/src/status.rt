// The exit status of a run.
ghost use Rattle.std.specs.Prelude.{◌≡◌, ◌==◌, if◌then◌else◌};
ghost use Rattle.xd_journal.specs.declared.entry.RunStop.TheVariants as run_stop;
ghost use Rattle.xd_journal.specs.Local.{is_local_mode};
ghost use Rattle.xd_run.specs.Sharing.{State};
ghost use Rattle.xd_report.specs.Follows.{Follows};
ghost use Rattle.xd_report.specs.Status.{completed_status, status_in};
ghost use Rattle.xd_report.specs.Tests.{tests};

use crate::reporter::Reporter;
use xd_edge::ModeKind;
use xd_held::are_all_zero;
use xd_journal::RunStop;

impl Reporter {
    /// The exit status of the run, which ends so: 0 where all went well, 1 where a test failed or the run stopped, 2 where a
    /// run with workers reached the limit on failures or a worker could not collect, 3 where the report could not be
    /// written, 5 where there was no test.
    pub fn status(&self, how: RunStop) -> u8
        ensures status { (s : State) → Follows self.now s → result ≡ status_in s how }
        ensures out_fault { how ≡ run_stop.OutFault → result ≡ 3 }
    {
        match how {
            RunStop::OutFault => 3,
            RunStop::CollectError { .. } => 2,
            RunStop::MaxFail { .. } => limit_status(self.mode()),
            RunStop::Restarts { .. } | RunStop::Unequal { .. } => 1,
            RunStop::Completed => self.completed_status(),
        }
    }

    // Of a run that completed.
    fn completed_status(&self) -> u8
        ensures { (s : State) → Follows self.now s →
            result ≡ completed_status (tests s) s.books.failures }
    {
        if self.has_no_tests() {
            5
        } else if self.books.failures() == 0 {
            0
        } else {
            1
        }
    }

    // There is no test. Each slot is looked at, since how many tests all have together may pass 64 bits.
    #[tactic(auto, using(crate::proofs::Sums::none_in_sum))]
    fn has_no_tests(&self) -> bool
        ensures { (s : State) → Follows self.now s → result ≡ (tests s == 0) }
    {
        match self.mode() {
            ModeKind::Local => self.books.ids_at(0).is_empty(),
            _ => are_all_zero(&self.sizes),
        }
    }
}

fn limit_status(mode: ModeKind) -> u8
    ensures { result ≡ (if is_local_mode mode then 1 else 2) }
{
    match mode {
        ModeKind::Local => 1,
        _ => 2,
    }
}
