// A worker whose messages are written to its link.
ghost use Rattle.std.specs.Prelude.{◌≡◌, ◌≤◌, not, List, IfOk, IfErr, OnOk, OnErr};
ghost use Rattle.xd_frame.specs.Message.{frames};
ghost use Rattle.xd_frame.specs.Writing.{Writes, WritesMore, CountAfter, CountSince};
ghost use Rattle.xd_worker_serve.specs.Speaking.{greeting};

use std::alloc::Global;
use xd_edge::{OutOfMemory, Sink, print};
use xd_frame::{Message, print_frames};
use xd_worker::{WorkerActions, WorkerCore, WorkerFault, WorkerInput};

// The byte by which a worker is known to the other side.
const GREETING: &[u8] = b"1";

/// A worker whose messages are written to its link. After a fault of the sink it goes on, and writes nothing more.
#[derive(Drop)]
pub struct Speaker<N: Sink> {
    pub core: WorkerCore,
    pub sink: N,
    pub is_broken: bool,
}

impl<N: Sink> Speaker<N> {
    ghost use Rattle.std.specs.Prelude.{[]};
    ghost use Rattle.xd_worker.specs.History.{HeardInput, worker_after};
    ghost use Rattle.xd_worker.specs.Stands.{StandsForInputs, Stood, Answers, FaultHasReason};

    /// A worker to which nothing has come yet, and which has written its greeting.
    pub fn begin(alloc: Global, sink: N) -> Speaker<N>
        ensures stands { StandsForInputs result.core [] }
        ensures writes { Writes (not result.is_broken) greeting (N.sunk sink) (N.sunk result.sink) }
        ensures count { CountAfter (not result.is_broken) (N.faults sink) (N.faults result.sink) }
        ensures later { N.faults sink ≤ N.faults result.sink }
    {
        let mut sink = sink;
        let is_broken = print(&mut sink, GREETING).is_err();
        Speaker {
            core: WorkerCore::new(alloc),
            sink,
            is_broken,
        }
    }

    /// One input. What the worker says to it is written and handed on.
    pub fn hear(&mut self, input: WorkerInput) -> Result<WorkerActions, WorkerFault>
        ensures answers { (h : List HeardInput) → StandsForInputs self.old.core h →
            IfOk result (Answers self.new.core (worker_after h) input) }
        ensures refused { (h : List HeardInput) → StandsForInputs self.old.core h →
            IfErr result (FaultHasReason (worker_after h) input) }
        ensures stood { Stood self.old.core → OnOk result (Stood self.new.core) }
        ensures writes { IfOk result (λ acts.
            WritesMore self.old.is_broken self.new.is_broken (frames acts.say)
            (N.sunk self.old.sink) (N.sunk self.new.sink)) }
        ensures silent { OnErr result (self.new ≡ record self.old { core = self.new.core }) }
        ensures count { IfOk result (λ acts.
            CountSince self.old.is_broken self.new.is_broken (N.faults self.old.sink)
            (N.faults self.new.sink)) }
        ensures later { N.faults self.old.sink ≤ N.faults self.new.sink }
    {
        match self.core.step(input) {
            Ok(acts) => {
                self.say(&acts.say.items);
                Ok(acts)
            }
            Err(fault) => Err(fault),
        }
    }

    /// One input that is no message. The side refuses messages alone.
    pub fn tell(&mut self, input: WorkerInput) -> Result<WorkerActions, OutOfMemory>
        ensures answers { (h : List HeardInput) → StandsForInputs self.old.core h →
            IfOk result (Answers self.new.core (worker_after h) input) }
        ensures stood { Stood self.old.core → OnOk result (Stood self.new.core) }
        ensures writes { IfOk result (λ acts.
            WritesMore self.old.is_broken self.new.is_broken (frames acts.say)
            (N.sunk self.old.sink) (N.sunk self.new.sink)) }
        ensures count { IfOk result (λ acts.
            CountSince self.old.is_broken self.new.is_broken (N.faults self.old.sink)
            (N.faults self.new.sink)) }
        ensures later { N.faults self.old.sink ≤ N.faults self.new.sink }
    {
        match self.hear(input) {
            Ok(acts) => Ok(acts),
            Err(_) => Err(OutOfMemory),
        }
    }

    fn say(&mut self, messages: &[Message])
        ensures core { self.new.core ≡ self.old.core }
        ensures writes { WritesMore self.old.is_broken self.new.is_broken (frames messages.now)
            (N.sunk self.old.sink) (N.sunk self.new.sink) }
        ensures count { CountSince self.old.is_broken self.new.is_broken (N.faults self.old.sink)
            (N.faults self.new.sink) }
        ensures later { N.faults self.old.sink ≤ N.faults self.new.sink }
    {
        if !self.is_broken {
            self.is_broken = print_frames(&mut self.sink, messages).is_err();
        }
    }
}
