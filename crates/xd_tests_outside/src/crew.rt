// Jobs are run in threads, and handed back where they are refused.
ghost use Rattle.std.specs.Prelude.{◌≡◌, ◌*◌, ◌%◌, ◌^◌};

use std::sync::Wait;
use std::test::Fail;
use xd_crew::{Crew, Job, ListedCrew, Slot, ThreadCrew, start_into};
use xd_edge::Indices;

#[derive(Drop)]
struct Twice {
    number: u32,
}

impl Job for Twice {
    type Out = u32;

    ghost gives = { λ job out. out ≡ job.number * 2 % 2 ^ 32 };

    fn run<R: Wait>(self, _rt: &R) -> u32 {
        self.number.wrapping_mul(2)
    }
}

// Starts both jobs, and then joins them; gives for each what it gave, or the number of the job that came back.
fn run_two<C: Crew<Twice>>(crew: &mut C) -> (Result<u32, u32>, Result<u32, u32>) {
    let first = crew.start(Twice { number: 4 });
    let second = crew.start(Twice { number: 5 });
    (joined(crew, first), joined(crew, second))
}

fn joined<C: Crew<Twice>>(crew: &mut C, job: Result<C::Handle, Twice>) -> Result<u32, u32> {
    match job {
        Ok(handle) => Ok(crew.join(handle)),
        Err(back) => Err(back.number),
    }
}

#[test]
fn two_jobs_run_and_a_listed_one_comes_back(rt: HostRuntime) -> Result<(), Fail> {
    let alloc = rt.alloc();
    let slot = Slot::new(alloc)?;
    let theirs = slot.another()?;
    let make: Box<dyn Fn()> = Box::new(alloc, move || start_into(rt, alloc, &theirs))?;
    let mut crew = ThreadCrew::new(rt, slot, make);
    assert_eq!(rt; run_two(&mut crew), (Ok(8), Ok(10)));
    assert_eq!(rt; crew.faults, 0);
    let refused = Indices {
        items: vec![in alloc; 1]?,
    };
    let mut crew = ListedCrew::new(crew, refused);
    assert_eq!(rt; run_two(&mut crew), (Ok(8), Err(5)));
    assert_eq!(rt; crew.plan.faults, 1);
    Ok(())
}

// The slot stays empty, as where memory or a thread was refused.
#[test]
fn a_job_without_a_thread_comes_back(rt: HostRuntime) -> Result<(), Fail> {
    let alloc = rt.alloc();
    let make: Box<dyn Fn()> = Box::new(alloc, || ())?;
    let mut crew = ThreadCrew::new(rt, Slot::new(alloc)?, make);
    assert_eq!(rt; run_two(&mut crew), (Err(4), Err(5)));
    assert_eq!(rt; crew.faults, 2);
    Ok(())
}
