// The worker of one link.
ghost use Rattle.std.specs.Prelude.{◌≡◌, ◌&&◌, is_none, ◌<◌, [], ℕ, List, length, IfOk, IfErr, OnOk, Option, Some, None, Ok, Err};

mod functions;
mod messages;
mod suites;

use crate::input::{WorkerActions, WorkerFault, WorkerInput};
use crate::talk::{announce, close_log, end_function, send_piece};
use crate::tests_call::{TestsCall, feed};
use std::alloc::Global;
use xd_edge::{OutOfMemory, Text};
use xd_factory::{Parity, Side};
use xd_frame::Messages;
use xd_suite::Suite;
use xd_worker_tests::{Ask, Input};

/// What a worker asked for, and what did not come yet: the end of the running test, and a suite.
#[derive(Clone, Copy, Debug, PartialEq, Eq)]
pub struct Asked {
    pub test: Option<u32>,
    pub suite: bool,
}

/// The worker of one link. It takes what comes, and answers what is to be said, read and started; it reads, writes and
/// starts nothing by itself. Contracts see the inputs that came to it.
#[derive(Drop)]
pub struct WorkerCore {
    alloc: Global,
    side: Side,
    fault: Option<WorkerFault>,
    // What was asked for when the fault came.
    before: Option<Asked>,
    stopped: bool,
    tests_call: Option<TestsCall>,
    echoes: Vec<u32>,
    owed: bool,
    suite: Option<Suite>,
}

impl WorkerCore {
    ghost use Rattle.xd_worker_tests.specs.Turns.{CanTake};
    ghost use Rattle.xd_factory.specs.View.{slot_of_number};
    ghost use Rattle.xd_factory.specs.declared.faults.SideFault.{SideFault};
    ghost use Rattle.xd_suite.specs.Tests.{run_at};
    ghost use Rattle.xd_worker.specs.declared.input.WorkerFault.{WorkerFault};
    ghost use Rattle.xd_factory.specs.SideTable.{Counts};
    ghost use Rattle.xd_worker.specs.Worker.{Service, Duties, Worker, WorkerTurn, worker_turn_of, running_in};
    ghost use Rattle.xd_worker.specs.Turns.{asked, all_asked, ended_service, fed, worker_stopped};
    ghost use Rattle.xd_worker.specs.History.{HeardInput, worker_after, IsInputToRefuse};
    ghost use Rattle.xd_worker.specs.Logs.{AllOpen, LogsOpen};
    ghost use Rattle.xd_worker.specs.Stands.{AreServices, AreDuties, HasTest, IsWorkerTurn, StandsForInputs, Stood, IsWorker, Does, Answers, AskedAtFault, FaultHasReason, IsThisFault, unanswered_of, fault_in};

    /// A worker to which nothing has come yet.
    pub fn new(alloc: Global) -> WorkerCore
        ensures history { StandsForInputs result [] }
        ensures stood { Stood result }
    {
        WorkerCore {
            alloc,
            side: Side::new(alloc, Parity::Even),
            fault: None,
            before: None,
            stopped: false,
            tests_call: None,
            echoes: Vec::new(alloc),
            owed: false,
            suite: None,
        }
    }

    /// One input. After a fault each input is answered by the same fault.
    pub fn step(&mut self, input: WorkerInput) -> Result<WorkerActions, WorkerFault>
        ensures answers { (h : List HeardInput) → StandsForInputs self.old h →
            IfOk result (Answers self.new (worker_after h) input) }
        ensures refused { (h : List HeardInput) → StandsForInputs self.old h →
            IfErr result (FaultHasReason (worker_after h) input) }
        ensures refuses { (h : List HeardInput) (fault : SideFault) → StandsForInputs self.old h →
            IsInputToRefuse (worker_after h) input fault → IsThisFault fault result }
        ensures failed { (fault : WorkerFault) → fault_in self.old ≡ Some fault →
            (result ≡ Err fault) × (self.new ≡ self.old) }
        ensures fails { IfErr result (λ fault. fault_in self.new ≡ Some fault) }
        ensures asked { (h : List HeardInput) → StandsForInputs self.old h →
            IfErr result (λ fault. AskedAtFault self.new (worker_after h)) }
        ensures stood { Stood self.old → OnOk result (Stood self.new) }
        ensures command { Stood self.old →
            IfOk result (λ acts. (test : ℕ) → acts.run ≡ Some test → HasTest self.new test) }
    {
        if let Some(fault) = self.fault {
            return Err(fault);
        }
        let asked = self.asked();
        match self.answer(input) {
            Ok(acts) => Ok(acts),
            Err(fault) => {
                self.before = Some(asked);
                self.fault = Some(fault);
                Err(fault)
            }
        }
    }

    fn asked(&self) -> Asked
        ensures { (w : Worker) → IsWorker self.now w → result ≡ unanswered_of w }
    {
        Asked {
            test: self.running(),
            suite: self.owed,
        }
    }

    fn answer(&mut self, input: WorkerInput) -> Result<WorkerActions, WorkerFault>
        ensures answers { (w : Worker) → IsWorker self.old w → LogsOpen w →
            IfOk result (Answers self.new w input) }
        ensures refused { (w : Worker) → IsWorker self.old w →
            IfErr result (FaultHasReason w input) }
        ensures refuses { (w : Worker) (fault : SideFault) → IsWorker self.old w →
            IsInputToRefuse w input fault → IsThisFault fault result }
    {
        let mut acts = WorkerActions {
            say: Messages {
                items: Vec::new(self.alloc),
            },
            suite: None,
            run: None,
            over: false,
        };
        match self.take(&mut acts, input) {
            Ok(()) => (),
            Err(fault) => return Err(fault),
        }
        acts.over = self.is_over();
        Ok(acts)
    }

    fn take(&mut self, acts: &mut WorkerActions, input: WorkerInput) -> Result<(), WorkerFault>
        ensures does { (w : Worker) → IsWorkerTurn self.old acts.old (worker_turn_of w) →
            LogsOpen w →
            OnOk result (Does self.new acts.new w input) }
        ensures refused { (w : Worker) → IsWorkerTurn self.old acts.old (worker_turn_of w) →
            IfErr result (FaultHasReason w input) }
        ensures refuses { (w : Worker) (fault : SideFault) →
            IsWorkerTurn self.old acts.old (worker_turn_of w) →
            IsInputToRefuse w input fault → IsThisFault fault result }
    {
        match input {
            WorkerInput::Message(message) => self.take_message(acts, message),
            WorkerInput::SuiteBytes(bytes) => {
                self.take_suite(acts, bytes)?;
                Ok(())
            }
            WorkerInput::SuiteTooLarge => {
                self.take_large(acts)?;
                Ok(())
            }
            WorkerInput::SuiteUnread => {
                self.take_unread(acts)?;
                Ok(())
            }
            WorkerInput::Output(bytes) => {
                self.take_output(acts, bytes)?;
                Ok(())
            }
            WorkerInput::ChildDone { outcome, ms } => {
                self.take_end(acts, outcome, ms)?;
                Ok(())
            }
            WorkerInput::LinkEnd => {
                self.take_link_end(acts)?;
                Ok(())
            }
        }
    }

    /// A suite file was asked for, and neither its bytes nor a refusal came yet. After a fault it says what it said
    /// before.
    pub fn awaits_suite(&self) -> bool
        ensures owed { (h : List HeardInput) → StandsForInputs self.now h →
            result ≡ (worker_after h).duties.owed }
        ensures at_fault { (w : Worker) → AskedAtFault self.now w → result ≡ w.duties.owed }
    {
        match self.fault_asked() {
            Some(asked) => asked.suite,
            None => self.owed,
        }
    }

    /// The test that runs. After a fault it says what it said before.
    pub fn runs(&self) -> Option<u32>
        ensures running { (h : List HeardInput) → StandsForInputs self.now h →
            result ≡ running_in (worker_after h).duties.service }
        ensures command { (h : List HeardInput) (test : ℕ) → StandsForInputs self.now h →
            result ≡ Some test →
            HasTest self.now test }
        ensures at_fault { (w : Worker) → AskedAtFault self.now w →
            result ≡ running_in w.duties.service }
    {
        match self.fault_asked() {
            Some(asked) => asked.test,
            None => self.running(),
        }
    }

    // What was asked for when the fault came, if one did.
    fn fault_asked(&self) -> Option<Asked>
        ensures none { self.now.fault ≡ None → result ≡ None }
        ensures some { (w : Worker) → AskedAtFault self.now w → result ≡ Some (unanswered_of w) }
    {
        match self.fault {
            Some(_) => self.before,
            None => None,
        }
    }

    // The worker is to end, and no test runs.
    fn is_over(&self) -> bool
        ensures { (d : Duties) → AreDuties self.now d →
            result ≡ (d.stopped && is_none (running_in d.service)) }
    {
        self.stopped && self.running().is_none()
    }

    fn running(&self) -> Option<u32>
        ensures { (s : Option Service) → AreServices self.now.tests_call s → result ≡ running_in s }
    {
        match &self.tests_call {
            None => None,
            Some(tests_call) => tests_call.runs(),
        }
    }

    /// The program of a test of the suite that was read, with its arguments.
    pub fn command(&self, test: u32) -> &[Text]
        requires { HasTest self.now test }
        ensures run { (h : List HeardInput) → StandsForInputs self.now h →
            result.now ≡ run_at (worker_after h).duties.tests test }
        ensures program { 0 < length result.now }
    {
        match &self.suite {
            None => unreachable!(),
            Some(suite) => suite.command(test),
        }
    }

    // How many channels are in the table.
    fn channels(&self) -> u32
        ensures { Counts (slot_of_number self.now.side) result }
    {
        self.side.status()
    }

    // The function of `run_tests` has ended.
    fn end_service(&mut self)
        ensures { (a : WorkerActions) (t : WorkerTurn) → IsWorkerTurn self.old a t →
            IsWorkerTurn self.new a (ended_service t) }
    {
        if let Some(tests_call) = &mut self.tests_call {
            tests_call.ended = true;
        }
    }

    // Does what `run_tests` asks for.
    fn carry(&mut self, acts: &mut WorkerActions, channel: u32, ask: Ask) -> Result<(), OutOfMemory>
        ensures { (t : WorkerTurn) → IsWorkerTurn self.old acts.old t →
            AllOpen (asked channel ask t).logs →
            OnOk result (IsWorkerTurn self.new acts.new (asked channel ask t)) }
    {
        match ask {
            Ask::Tell(event) => {
                announce(self.alloc, &mut self.side, &mut acts.say, channel, &event)?;
                Ok(())
            }
            Ask::Piece { log, bytes } => {
                send_piece(&mut self.side, &mut acts.say, log, bytes)?;
                Ok(())
            }
            Ask::CloseLog { log } => {
                close_log(&mut self.side, &mut acts.say, log)?;
                Ok(())
            }
            Ask::End(text) => {
                end_function(&mut self.side, &mut acts.say, channel, text, None)?;
                self.end_service();
                Ok(())
            }
        }
    }

    fn carry_all(
        &mut self,
        acts: &mut WorkerActions,
        channel: u32,
        asks: Vec<Ask>,
    ) -> Result<(), OutOfMemory>
        ensures { (t : WorkerTurn) → IsWorkerTurn self.old acts.old t →
            AllOpen (all_asked channel asks.items t).logs →
            OnOk result (IsWorkerTurn self.new acts.new (all_asked channel asks.items t)) }
    {
        for ask in asks {
            self.carry(acts, channel, ask)?;
        }
        Ok(())
    }

    // Something comes to `run_tests`, where it was called.
    fn feed(
        &mut self,
        acts: &mut WorkerActions,
        input: Input,
        channels: u32,
    ) -> Result<(), OutOfMemory>
        requires { CanTake input }
        ensures { (t : WorkerTurn) → IsWorkerTurn self.old acts.old t →
            AllOpen (fed input channels t).logs →
            OnOk result (IsWorkerTurn self.new acts.new (fed input channels t)) }
    {
        let Some(fed) = feed(&mut self.tests_call, input, channels)? else {
            return Ok(());
        };
        acts.run = fed.acts.run;
        self.carry_all(acts, fed.channel, fed.acts.asks)?;
        Ok(())
    }

    // Nothing is said any more, and no test starts.
    fn stop(&mut self, acts: &mut WorkerActions, channels: u32) -> Result<(), OutOfMemory>
        ensures { (t : WorkerTurn) → IsWorkerTurn self.old acts.old t →
            AllOpen (worker_stopped channels t).logs →
            OnOk result (IsWorkerTurn self.new acts.new (worker_stopped channels t)) }
    {
        self.stopped = true;
        self.feed(acts, Input::Stop, channels)?;
        Ok(())
    }
}
