// A call of the function.
ghost use Rattle.std.specs.Prelude.{[], ◌≡◌, IfOk, OnOk, List, ◌∷◌};

mod commands;
mod line;
mod output;
mod steal;
mod suite;

use crate::ask::Acts;
use crate::input::Input;
use crate::line_entry::{LineEntry, Standing};
use crate::phase::Phase;
use std::alloc::Global;
use std::collections::VecDeque;
use xd_commands::Order;
use xd_edge::OutOfMemory;

/// A test that runs, with the number of its log.
#[derive(Clone, Copy)]
pub struct Running {
    pub test: u32,
    pub log: u32,
}

/// A call of `run_tests`. Contracts see the inputs that came to it.
///
/// Of the orders it keeps a queue, the next entry and the running test. A test runs only once an entry stands after
/// it, so the last one waits for a shutdown mark.
#[derive(Drop)]
pub struct RunTests {
    alloc: Global,
    phase: Phase,
    waiting: VecDeque<Option<Order>>,
    size: u32,
    stands: Vec<Standing>,
    queue: VecDeque<LineEntry>,
    next: Option<LineEntry>,
    running: Option<Running>,
    next_log: u32,
    sent: usize,
}

impl RunTests {
    ghost use Rattle.xd_worker_tests.specs.Line.{FunctionCall, running_test};
    ghost use Rattle.xd_worker_tests.specs.Turns.{CallTurn, answered_in, answered, call_turn_of, CanTake};
    ghost use Rattle.xd_worker_tests.specs.inner.Stands.{IsCallTurn, IsReady, IsCall, test_of_running};
    ghost use Rattle.xd_worker_tests.specs.History.{Given, StandsForGiven, call_after, turn_after};

    /// A call to which nothing has come yet.
    pub fn new(alloc: Global) -> RunTests
        ensures history { StandsForGiven result [] }
    {
        RunTests {
            alloc,
            phase: Phase::Awaiting,
            waiting: VecDeque::new(alloc),
            size: 0,
            stands: Vec::new(alloc),
            queue: VecDeque::new(alloc),
            next: None,
            running: None,
            next_log: 2,
            sent: 0,
        }
    }

    /// The test that runs.
    pub fn runs(&self) -> Option<u32>
        ensures { (h : List Given) → StandsForGiven self.now h →
            result ≡ running_test (call_after h) }
    {
        self.running.map(|running| running.test)
    }

    /// One input of the function. `room` says that the worker's table of channels is not full without the log of the
    /// running test.
    pub fn step(&mut self, input: Input, room: bool) -> Result<Acts, OutOfMemory>
        // A suite's tests can be counted.
        requires { CanTake input }
        ensures asks { (h : List Given) → StandsForGiven self.old h →
            IfOk result (λ acts. acts.asks.items ≡ (turn_after h
            (record { input = input; room = room })).asks) }
        ensures run { (h : List Given) → StandsForGiven self.old h →
            IfOk result (λ acts. acts.run ≡ (turn_after h
            (record { input = input; room = room })).run) }
        ensures history { (h : List Given) → StandsForGiven self.old h →
            OnOk result (StandsForGiven self.new (record { input = input; room = room } ∷ h)) }
    {
        let acts = self.answer(input, room)?;
        Ok(acts)
    }

    fn answer(&mut self, input: Input, room: bool) -> Result<Acts, OutOfMemory>
        requires { CanTake input }
        ensures { (c : FunctionCall) → IsCall self.old c → IsReady self.old c →
            IfOk result (λ acts. IsCallTurn self.new acts (answered room input (call_turn_of c))) }
    {
        let mut acts = Acts {
            asks: Vec::new(self.alloc),
            run: None,
        };
        self.take(&mut acts, input, room)?;
        Ok(acts)
    }

    fn take(&mut self, acts: &mut Acts, input: Input, room: bool) -> Result<(), OutOfMemory>
        requires { CanTake input }
        ensures { (t : CallTurn) → IsCallTurn self.old acts.old t →
            OnOk result (IsCallTurn self.new acts.new
            (answered_in self.old.phase (test_of_running self.old.running) room input t)) }
    {
        match input {
            Input::Command(order) => self.hear(acts, order, room),
            Input::ReceivingEnded => self.end_hearing(acts),
            Input::Suite(ids) => self.collect(acts, ids, room),
            Input::SuiteRefused(text) => self.refuse(acts, text),
            Input::Output(bytes) => self.hear_output(acts, bytes),
            Input::Done { outcome, ms } => self.complete(acts, outcome, ms, room),
            Input::Stop => {
                self.stop();
                Ok(())
            }
        }
    }
}
