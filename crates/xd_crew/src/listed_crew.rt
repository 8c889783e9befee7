// A crew of threads that refuses what it is told to refuse.
ghost use Rattle.std.specs.Prelude.{◌≡◌, ◌<◌, ◌+◌, ◌-◌, ◌^◌, ◌==◌, true, IfOk, IfErr, IsErr, is_ok};
ghost use Rattle.std.specs.List.{list_any};
ghost use Rattle.xd_edge.specs.Faults.{Counted};

use crate::{Crew, Job, RunningJob, ThreadCrew};
use std::thread::Threads;
use xd_edge::{FaultPlan, Indices};

/// Runs each job in a thread of its own, and refuses the starts of the listed numbers, counted from 0 over all starts.
#[derive(Drop)]
pub struct ListedCrew<J: Job, R: Drop> {
    crew: ThreadCrew<J, R>,
    pub plan: FaultPlan,
}

impl<J: Job, R: Drop> ListedCrew<J, R> {
    /// No start came yet.
    pub fn new(crew: ThreadCrew<J, R>, refused: Indices) -> ListedCrew<J, R>
        ensures fails { result.plan.fails ≡ refused }
        ensures calls { result.plan.calls ≡ 0 }
        ensures faults { result.plan.faults ≡ 0 }
    {
        ListedCrew {
            crew,
            plan: FaultPlan::new(refused),
        }
    }
}

impl<J: Job, R: Threads + Drop> Crew<J> for ListedCrew<J, R> {
    type Handle = RunningJob<J>;

    ghost faults = { λ crew. crew.plan.faults };

    ghost job_of = { λ handle. handle.job.value };

    fn start(&mut self, job: J) -> Result<RunningJob<J>, J>
        ensures started { IfOk result (λ handle. handle.job.value ≡ job) }
        ensures back { IfErr result (λ back. back ≡ job) }
        ensures counted { Counted (is_ok result) self.old.plan.faults self.new.plan.faults }
        ensures listed { list_any (λ n. n == self.old.plan.calls) self.old.plan.fails ≡ true →
            IsErr result }
        ensures next { self.old.plan.calls < 2 ^ 64 - 1 →
            self.new.plan.calls ≡ self.old.plan.calls + 1 }
        ensures fails { self.new.plan.fails ≡ self.old.plan.fails }
    {
        if self.plan.step().is_err() {
            return Err(job);
        }
        match self.crew.start(job) {
            Ok(handle) => Ok(handle),
            Err(job) => {
                self.plan.fault();
                Err(job)
            }
        }
    }

    fn join(&mut self, handle: RunningJob<J>) -> J::Out
        ensures gives { J.gives handle.job.value result }
        ensures still { self.new.plan.faults ≡ self.old.plan.faults }
        ensures plan { self.new.plan ≡ self.old.plan }
    {
        self.crew.join(handle)
    }
}
