// The calls that say something to the peer.
ghost use Rattle.std.specs.Prelude.{◌≡◌, ◌≤◌, true, false, None, Err, IfErr, OnOk, OnErr, IsErrOf};
ghost use Rattle.xd_value.specs.View.{view};
ghost use Rattle.xd_frame.specs.Message.{max_channel};
ghost use Rattle.xd_value.specs.Canonical.{dumped, IsDump};
ghost use Rattle.xd_factory.specs.Slot.{is_here, is_seen};
ghost use Rattle.xd_factory.specs.Table.{is_long, close_refusal, send_refusal, sent_gives, IsCloseRefusal, IsSent};

use super::{GiveUpFault, LinkedSide, say, say_any};
use xd_edge::{Blob, OutOfMemory, Text};
use xd_factory::{CloseFault, SendFault};
use xd_frame::{Kind, Message};
use xd_value::{DumpFault, Value, dumps};

impl LinkedSide {
    ghost use Rattle.xd_pair.specs.Pair.{Send, Call, Ask, Answer, Terminate, Close, End_function, Give_up, can_call, can_answer};
    ghost use Rattle.xd_pair.specs.Stands.{IsMove, IsMoveIf, Stays, names_known};
    ghost use Rattle.xd_factory.specs.View.{slot_of_number};

    /// Sends a value, which names only channels that this side has opened or seen.
    pub fn send(&mut self, number: u32, value: &Value) -> Result<(), SendFault>
        ensures step { let v = view value.now in
            OnOk result (IsMoveIf (names_known v) self.old self.new (Send number v)) }
        ensures refused { let refusal = send_refusal (slot_of_number self.old.side number) in
            let wanted = sent_gives refusal (dumped (view value.now)) in
            IfErr result (λ fault. IsSent number (Err fault) wanted) }
        ensures accepted { OnOk result (send_refusal (slot_of_number self.old.side number) ≡ None) }
        ensures err { OnErr result (Stays self.old self.new) }
    {
        if self.said.reserve(1).is_err() {
            return Err(SendFault::OutOfMemory);
        }
        match self.side.send(number, value) {
            Ok(message) => {
                say(&mut self.said, message);
                Ok(())
            }
            Err(fault) => Err(fault),
        }
    }

    /// Calls a function on a channel that is open here, with a value of known channels: CHANNEL_EXEC.
    pub fn call(&mut self, number: u32, value: &Value) -> Result<(), DumpFault>
        requires { number ≤ max_channel }
        ensures step { let v = view value.now in OnOk result
            (IsMoveIf (λ a. can_call a number v) self.old self.new (Call number v)) }
        ensures refused { IfErr result (λ fault. IsDump (Err fault) (dumped (view value.now))) }
        ensures err { OnErr result (Stays self.old self.new) }
    {
        if self.said.reserve(1).is_err() {
            return Err(DumpFault::OutOfMemory);
        }
        let payload = dumps(self.alloc, value)?;
        say(&mut self.said, Message::of(Kind::Exec, number, payload));
        Ok(())
    }

    /// Asks on a channel that is open here how the other side is: STATUS.
    pub fn ask(&mut self, number: u32) -> Result<(), OutOfMemory>
        requires { number ≤ max_channel }
        ensures step { OnOk result
            (IsMoveIf (λ a. is_here (a.part number).slot) self.old self.new (Ask number)) }
        ensures err { OnErr result (Stays self.old self.new) }
    {
        if self.said.reserve(1).is_err() {
            return Err(OutOfMemory);
        }
        say(
            &mut self.said,
            Message::of(Kind::Status, number, Blob::empty(self.alloc)),
        );
        Ok(())
    }

    /// Answers a STATUS that was taken on this number: an item, and the end.
    pub fn answer(&mut self, number: u32, value: &Value) -> Result<(), DumpFault>
        requires { number ≤ max_channel }
        ensures step { let v = view value.now in OnOk result
            (IsMoveIf (λ a. can_answer a number v) self.old self.new (Answer number v)) }
        ensures refused { IfErr result (λ fault. IsDump (Err fault) (dumped (view value.now))) }
        ensures err { OnErr result (Stays self.old self.new) }
    {
        if self.said.reserve(2).is_err() {
            return Err(DumpFault::OutOfMemory);
        }
        let payload = dumps(self.alloc, value)?;
        say(&mut self.said, Message::of(Kind::Item, number, payload));
        say(
            &mut self.said,
            Message::of(Kind::Close, number, Blob::empty(self.alloc)),
        );
        Ok(())
    }

    /// Ends the link: GATEWAY_TERMINATE.
    pub fn terminate(&mut self) -> Result<(), OutOfMemory>
        ensures step { OnOk result (IsMove self.old self.new Terminate) }
        ensures err { OnErr result (Stays self.old self.new) }
    {
        if self.said.reserve(1).is_err() {
            return Err(OutOfMemory);
        }
        say(
            &mut self.said,
            Message::of(Kind::Terminate, 0, Blob::empty(self.alloc)),
        );
        Ok(())
    }

    /// Closes a channel, with the text of an error where there is one.
    pub fn close(&mut self, number: u32, error: Option<Text>) -> Result<(), CloseFault>
        ensures step { OnOk result (IsMove self.old self.new (Close number error)) }
        ensures refused { IfErr result
            (IsCloseRefusal (close_refusal (is_seen (slot_of_number self.old.side number))
            (is_long error))) }
        ensures accepted { OnOk result
            (close_refusal (is_seen (slot_of_number self.old.side number)) (is_long error) ≡ None) }
        ensures err { OnErr result (Stays self.old self.new) }
    {
        if self.said.reserve(1).is_err() {
            return Err(CloseFault::OutOfMemory);
        }
        match self.side.close(number, error) {
            Ok(message) => {
                say_any(&mut self.said, message);
                Ok(())
            }
            Err(fault) => Err(fault),
        }
    }

    /// Ends the channel of a function: the peer is always told.
    pub fn end_function(&mut self, number: u32, error: Option<Text>) -> Result<(), CloseFault>
        ensures step { OnOk result (IsMove self.old self.new (End_function number error)) }
        ensures refused { IfErr result
            (IsCloseRefusal (close_refusal (is_seen (slot_of_number self.old.side number))
            (is_long error))) }
        ensures accepted { OnOk result
            (close_refusal (is_seen (slot_of_number self.old.side number)) (is_long error) ≡ None) }
        ensures err { OnErr result (Stays self.old self.new) }
    {
        if self.said.reserve(1).is_err() {
            return Err(CloseFault::OutOfMemory);
        }
        match self.side.end_function(number, error) {
            Ok(message) => {
                say(&mut self.said, message);
                Ok(())
            }
            Err(fault) => Err(fault),
        }
    }

    /// Lets go of a channel.
    pub fn give_up(&mut self, number: u32) -> Result<(), GiveUpFault>
        ensures step { OnOk result (IsMove self.old self.new (Give_up number)) }
        ensures unknown { IsErrOf result GiveUpFault.Unknown
            → is_seen (slot_of_number self.old.side number) ≡ false }
        ensures accepted { OnOk result (is_seen (slot_of_number self.old.side number) ≡ true) }
        ensures err { OnErr result (Stays self.old self.new) }
    {
        if self.said.reserve(1).is_err() {
            return Err(GiveUpFault::OutOfMemory);
        }
        match self.side.give_up(number) {
            Ok(message) => {
                say_any(&mut self.said, message);
                Ok(())
            }
            Err(_) => Err(GiveUpFault::Unknown),
        }
    }
}
