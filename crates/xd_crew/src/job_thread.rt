// A thread that gets its one job through a ring of room 1, and sleeps until it comes.
ghost use Rattle.std.specs.Prelude.{◌≡◌, [], ◌∷◌, ◌++◌};
ghost use Rattle.rtrb.specs.Ring.{sent, received, known_free, IsPair, SameConsumer};

use crate::Job;
use rtrb::{Consumer, Producer, RingBuffer};
use std::alloc::Global;
use std::snapshot::Snapshot;
use std::sync::{Arc, Wait};
use std::thread;
use std::thread::{Parker, Promise, PromisedHandle, Threads};

/// What a thread gives back: what its job gave, and its end of the ring.
#[derive(Drop)]
pub struct Ran<J, O> {
    out: O,
    from: Consumer<J>,
}

/// What a thread promises: the job that it ran is the one item that it took.
#[derive(Drop)]
pub struct RunsNext<J>(Snapshot<Consumer<J>>);

impl<J: Job> Promise<Ran<J, J::Out>> for RunsNext<J> {
    ghost kept_by = { λ promise ran. SameConsumer promise.0.value ran.from
        × ((job : J) × (received ran.from ≡ received promise.0.value ++ job ∷ [])
        × J.gives job ran.out) };
}

/// A thread without a job.
#[derive(Drop)]
pub struct IdleThread<J: Job> {
    to: Producer<J>,
    // Where the thread sleeps until its job comes.
    call: Arc<Parker>,
    thread: PromisedHandle<Ran<J, J::Out>, RunsNext<J>>,
    ghost room: { known_free to ≡ 1 },
    ghost empty: { sent to ≡ [] },
    ghost idle_pair: { IsPair to thread.promise.0.value },
    ghost idle_fresh: { received thread.promise.0.value ≡ [] },
}

/// A job that was started.
#[derive(Drop)]
pub struct RunningJob<J: Job> {
    /// The job as it was started. It takes no memory.
    pub job: Snapshot<J>,
    to: Producer<J>,
    thread: PromisedHandle<Ran<J, J::Out>, RunsNext<J>>,
    ghost put: { sent to ≡ job.value ∷ [] },
    ghost pair: { IsPair to thread.promise.0.value },
    ghost fresh: { received thread.promise.0.value ≡ [] },
}

// Sleeps until a job comes, and takes it.
fn take_job<J: Job, R: Wait>(rt: &R, call: &Parker, from: &mut Consumer<J>) -> J
    ensures same { SameConsumer from.old from.new }
    ensures taken { received from.new ≡ received from.old ++ result ∷ [] }
{
    for _ in rt.forever() {
        if let Ok(job) = from.pop() {
            return job;
        }
        call.park(rt);
    }
    unreachable!()
}

// Takes the next job and runs it.
fn run_next<J: Job, R: Wait>(rt: &R, call: Arc<Parker>, from: Consumer<J>) -> Ran<J, J::Out>
    ensures same { SameConsumer from result.from }
    ensures ran { (job : J) × (received result.from ≡ received from ++ job ∷ [])
        × J.gives job result.out }
{
    let mut from = from;
    let next = take_job(rt, &call, &mut from);
    let out = next.run(rt);
    Ran { out, from }
}

/// Starts a thread that has no job yet. `None` where memory or a thread is refused.
pub fn start_idle<J: Job + Send + 'static, R: Threads + Wait + Copy + Send + 'static>(
    rt: R,
    alloc: Global,
) -> Option<IdleThread<J>>
where
    J::Out: Send + 'static,
{
    let Ok(call) = Arc::new(alloc, Parker::new()) else {
        return None;
    };
    let Ok(theirs) = Arc::try_clone(&call) else {
        return None;
    };
    let Ok((to, from)) = RingBuffer::new(alloc, 1) else {
        return None;
    };
    let promise = RunsNext(Snapshot::of(&from));
    let Ok(thread) = thread::spawn_with(&rt, promise, move || run_next(&rt, theirs, from)) else {
        return None;
    };
    Some(IdleThread { to, call, thread })
}

/// Gives the thread its job, and wakes it.
pub fn give_job<J: Job>(idle: IdleThread<J>, job: J) -> RunningJob<J>
    ensures { result.job.value ≡ job }
{
    let IdleThread {
        mut to,
        call,
        thread,
    } = idle;
    let known = Snapshot::of(&job);
    to.push_reserved(job);
    call.unpark();
    RunningJob {
        job: known,
        to,
        thread,
    }
}

/// Waits for the job's end, and gives what it gave.
pub fn join_job<J: Job, R: Threads>(rt: &R, running: RunningJob<J>) -> J::Out
    ensures { J.gives running.job.value result }
{
    let RunningJob {
        job: _,
        mut to,
        thread,
    } = running;
    let Ran { out, mut from } = thread.join(rt);
    from.slots_beside(&mut to);
    out
}
