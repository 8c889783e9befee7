// The messages of the link, and its end.
ghost use Rattle.std.specs.Prelude.{◌≡◌, ◌≤◌, ℕ, IfOk, IfErr, OnOk, Option, Some, None};
ghost use Rattle.xd_value.specs.View.{view};
ghost use Rattle.xd_factory.specs.Trees.{taken_tree};
ghost use Rattle.xd_factory.specs.declared.faults.SideFault.{SideFault};
ghost use Rattle.xd_factory.specs.SideTable.{channel_table, lost, Counts};

use super::WorkerCore;
use crate::input::{WorkerActions, WorkerFault};
use crate::talk::tell_status;
use xd_commands::value_order;
use xd_edge::OutOfMemory;
use xd_factory::{Side, SideFault, Taken};
use xd_frame::Message;
use xd_value::Value;
use xd_worker_tests::Input;

impl WorkerCore {
    ghost use Rattle.xd_factory.specs.View.{slot_of_number};
    ghost use Rattle.xd_factory.specs.declared.taken.Taken.TheVariants as taken;
    ghost use Rattle.xd_channel.specs.declared.end.End.{End};
    ghost use Rattle.xd_worker.specs.declared.input.WorkerInput.TheVariants.{Message as MessageCame, LinkEnd};
    ghost use Rattle.xd_worker.specs.Worker.{Worker, WorkerTurn, Service, Duties, worker_turn_of, executing, serving};
    ghost use Rattle.xd_worker.specs.Turns.{did, did_unless, is_service};
    ghost use Rattle.xd_worker.specs.History.{IsInputToRefuse};
    ghost use Rattle.xd_worker.specs.Logs.{AllOpen, LogsOpen};
    ghost use Rattle.xd_worker.specs.Stands.{IsWorkerTurn, AreServices, AreDuties, Does, FaultHasReason, IsSmall};

    // How many functions have not ended.
    fn functions(&self) -> usize
        ensures { (d : Duties) → AreDuties self.now d → result ≡ executing d }
    {
        let serving = match &self.tests_call {
            None => 0,
            Some(tests_call) => { if tests_call.ended { 0 } else { 1 } }
        };
        self.echoes.len() + serving
    }

    // The channel is that of `run_tests`.
    fn is_service(&self, number: u32) -> bool
        ensures { (s : Option Service) → AreServices self.now.tests_call s →
            result ≡ is_service s number }
    {
        match &self.tests_call {
            None => false,
            Some(tests_call) => tests_call.channel == number,
        }
    }

    fn tell_status(
        &mut self,
        acts: &mut WorkerActions,
        number: u32,
        channels: u32,
    ) -> Result<(), OutOfMemory>
        requires { number ≤ 2147483647 }
        ensures { (t : WorkerTurn) → IsWorkerTurn self.old acts.old t →
            OnOk result (IsWorkerTurn self.new acts.new (did (taken.Status number) channels t)) }
    {
        let functions = self.functions();
        tell_status(self.alloc, &mut acts.say, number, channels, functions)?;
        Ok(())
    }

    // An item came for a function.
    fn take_item(
        &mut self,
        acts: &mut WorkerActions,
        number: u32,
        value: &Value,
        channels: u32,
    ) -> Result<(), OutOfMemory>
        ensures { (t : WorkerTurn) → IsWorkerTurn self.old acts.old t →
            AllOpen (did (taken.Handed number (view value.now)) channels t).logs →
            OnOk result (IsWorkerTurn self.new acts.new
            (did (taken.Handed number (view value.now)) channels t)) }
    {
        if self.is_service(number) {
            let order = value_order(self.alloc, value)?;
            self.feed(acts, Input::Command(order), channels)?;
            Ok(())
        } else {
            self.echo(acts, number, value)?;
            Ok(())
        }
    }

    // No more comes for a function.
    fn take_channel_end(
        &mut self,
        acts: &mut WorkerActions,
        number: u32,
        channels: u32,
    ) -> Result<(), OutOfMemory>
        ensures { (t : WorkerTurn) (end : End) → IsWorkerTurn self.old acts.old t →
            AllOpen (did (taken.EndHanded number end) channels t).logs →
            OnOk result
            (IsWorkerTurn self.new acts.new (did (taken.EndHanded number end) channels t)) }
    {
        if self.is_service(number) {
            self.feed(acts, Input::ReceivingEnded, channels)?;
            Ok(())
        } else {
            self.end_echo(acts, number, None)?;
            Ok(())
        }
    }

    // Does what a message asks for.
    fn act(
        &mut self,
        acts: &mut WorkerActions,
        taken: Taken,
        channels: u32,
    ) -> Result<(), OutOfMemory>
        requires { IsSmall (taken_tree taken) }
        ensures { (t : WorkerTurn) → IsWorkerTurn self.old acts.old t →
            AllOpen (did (taken_tree taken) channels t).logs →
            OnOk result (IsWorkerTurn self.new acts.new (did (taken_tree taken) channels t)) }
    {
        match taken {
            Taken::Status(number) => {
                self.tell_status(acts, number, channels)?;
                Ok(())
            }
            Taken::Exec(number, value) => {
                self.call(acts, number, &value)?;
                Ok(())
            }
            Taken::Handed(number, value) => {
                self.take_item(acts, number, &value, channels)?;
                Ok(())
            }
            Taken::EndHanded(number, _) => {
                self.take_channel_end(acts, number, channels)?;
                Ok(())
            }
            Taken::Terminate => {
                self.stop(acts, channels)?;
                Ok(())
            }
            Taken::Kept(_) | Taken::EndKept(_) | Taken::Dropped => Ok(()),
        }
    }

    // After GATEWAY_TERMINATE and the link's end nothing is done.
    fn act_unless_stopped(
        &mut self,
        acts: &mut WorkerActions,
        taken: Taken,
    ) -> Result<(), OutOfMemory>
        requires { IsSmall (taken_tree taken) }
        ensures { OnOk result ((n : ℕ) × Counts (slot_of_number self.old.side) n
            × ((t : WorkerTurn) → IsWorkerTurn self.old acts.old t →
            AllOpen (did_unless t.duties.stopped (taken_tree taken) n t).logs →
            IsWorkerTurn self.new acts.new (did_unless t.duties.stopped (taken_tree taken) n t))) }
    {
        let channels = self.channels();
        if self.stopped {
            return Ok(());
        }
        self.act(acts, taken, channels)?;
        Ok(())
    }

    // The next message of the link.
    pub(super) fn take_message(
        &mut self,
        acts: &mut WorkerActions,
        message: Message,
    ) -> Result<(), WorkerFault>
        ensures does { (w : Worker) → IsWorkerTurn self.old acts.old (worker_turn_of w) →
            LogsOpen w →
            OnOk result (Does self.new acts.new w (MessageCame message)) }
        ensures refused { (w : Worker) → IsWorkerTurn self.old acts.old (worker_turn_of w) →
            IfErr result (FaultHasReason w (MessageCame message)) }
        ensures refuses { (w : Worker) (fault : SideFault) →
            IsWorkerTurn self.old acts.old (worker_turn_of w) →
            IsInputToRefuse w (MessageCame message) fault → IsThisFault fault result }
    {
        let number = message.channel;
        let taken = match take(&mut self.side, number, message) {
            Ok(taken) => taken,
            Err(fault) => return Err(fault),
        };
        match self.act_unless_stopped(acts, taken) {
            Ok(()) => Ok(()),
            Err(_) => Err(WorkerFault::OutOfMemory),
        }
    }

    // The link ended.
    pub(super) fn take_link_end(&mut self, acts: &mut WorkerActions) -> Result<(), OutOfMemory>
        ensures { (w : Worker) → IsWorkerTurn self.old acts.old (worker_turn_of w) →
            LogsOpen w →
            OnOk result (Does self.new acts.new w LinkEnd) }
    {
        lose(&mut self.side)?;
        let channels = self.channels();
        self.stop(acts, channels)?;
        Ok(())
    }
}

// The link has ended: each channel has an end, and none opens any more.
fn lose(side: &mut Side) -> Result<(), OutOfMemory>
    ensures { OnOk result (channel_table side.new ≡ lost (channel_table side.old)) }
{
    let _ = side.finish_receiving()?;
    Ok(())
}

ghost use Rattle.xd_worker.specs.Stands.{TakesMessage, IsFaultAt, IsThisFault, RefusedAt, worker_fault};

// What a fault of the side is for the worker.
fn fault_of(fault: SideFault) -> WorkerFault
    ensures { result ≡ worker_fault fault }
{
    match fault {
        SideFault::OutOfMemory => WorkerFault::OutOfMemory,
        _ => WorkerFault::Link(fault),
    }
}

// The side takes a message, which is about this number.
fn take(side: &mut Side, number: u32, message: Message) -> Result<Taken, WorkerFault>
    requires small { number ≤ 2147483647 }
    requires number { number ≡ message.channel }
    ensures heard { IfOk result
        (TakesMessage message (channel_table side.old) (channel_table side.new)) }
    ensures refused { IfErr result (IsFaultAt (channel_table side.old) message) }
    ensures refuses { (fault : SideFault) → RefusedAt (channel_table side.old) message fault →
        IsThisFault fault result }
{
    // Why a message is refused is told by how many channels there are.
    prove!(side.status() <= xd_factory::MAX_ENTRIES);
    match side.take_message(message) {
        Ok(taken) => Ok(taken),
        Err(fault) => Err(fault_of(fault)),
    }
}
