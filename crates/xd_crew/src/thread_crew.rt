// A crew of threads.
ghost use Rattle.std.specs.Prelude.{◌≡◌};

use crate::job_thread::{RunningJob, give_job, join_job};
use crate::{Crew, Job, Slot};
use std::thread::Threads;
use xd_edge::raise;

/// Runs each job in a thread of its own. A trait's method cannot start a thread for a job of any type, so a crew is made
/// with a closure of `main` or of a test, which starts one by `start_into` at the job's type and lays it into the slot.
#[derive(Drop)]
pub struct ThreadCrew<J: Job, R: Drop> {
    rt: R,
    slot: Slot<J>,
    make: Box<dyn Fn()>,
    /// How often no thread could be started.
    pub faults: u64,
    ghost callable: { IsAlwaysCallable make },
}

impl<J: Job, R: Drop> ThreadCrew<J, R> {
    /// It has refused nothing yet. `make` is to call `start_into` with another hold of this slot.
    pub fn new(rt: R, slot: Slot<J>, make: Box<dyn Fn()>) -> ThreadCrew<J, R>
        requires { IsAlwaysCallable make }
        ensures { result.faults ≡ 0 }
    {
        ThreadCrew {
            rt,
            slot,
            make,
            faults: 0,
        }
    }
}

impl<J: Job, R: Threads + Drop> Crew<J> for ThreadCrew<J, R> {
    type Handle = RunningJob<J>;

    ghost faults = { λ crew. crew.faults };

    ghost job_of = { λ handle. handle.job.value };

    fn start(&mut self, job: J) -> Result<RunningJob<J>, J> {
        (self.make)();
        match self.slot.take() {
            Some(thread) => Ok(give_job(thread, job)),
            None => {
                raise(&mut self.faults);
                Err(job)
            }
        }
    }

    fn join(&mut self, handle: RunningJob<J>) -> J::Out {
        join_job(&self.rt, handle)
    }
}
