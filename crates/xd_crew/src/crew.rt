// What runs jobs.
ghost use Rattle.std.specs.Prelude.{◌≡◌, ℕ, IfOk, IfErr, is_ok};
ghost use Rattle.xd_edge.specs.Faults.{Counted};

use crate::Job;

/// What runs jobs side by side. A call that succeeds raises no count.
pub trait Crew<J: Job>: Drop {
    /// A job that was started.
    type Handle: Drop;

    /// How often it refused a job.
    ghost faults: { Self → ℕ };

    /// The job that was started.
    ghost job_of: { Self.Handle → J };

    /// Starts the job, or hands it back: a refusal, also one because memory ran out, is a fault.
    fn start(&mut self, job: J) -> Result<Self::Handle, J>
        ensures started { IfOk result (λ handle. job_of handle ≡ job) }
        ensures back { IfErr result (λ back. back ≡ job) }
        ensures counted { Counted (is_ok result) (faults self.old) (faults self.new) };

    /// Waits for the job's end, and gives what its run gave.
    fn join(&mut self, handle: Self::Handle) -> J::Out
        ensures gives { J.gives (job_of handle) result }
        ensures still { faults self.new ≡ faults self.old };
}
