// The calls of the owner of a side.
ghost use Rattle.std.specs.Prelude.{◌≡◌, ◌≢◌, ◌≤◌, ◌<◌, ◌+◌, ◌==◌, ◌↔◌, ℕ, map, IfOk, IfErr, OnErr, OnOk, IsErr, IsErrOf, List, ◌∷◌, true, false, Option, Some, None, if◌then◌else◌};
ghost use Rattle.xd_value.specs.Tree.{text};
ghost use Rattle.xd_value.specs.View.{view};
ghost use Rattle.xd_value.specs.Canonical.{dumped};
ghost use Rattle.xd_value.specs.Payload.{IsPayload};
ghost use Rattle.xd_channel.specs.State.{fresh_end};
ghost use Rattle.xd_factory.specs.Slot.{Unseen, Here, is_seen, closed_slot, given_up_slot, give_up_says, function_ended_slot, received_slot, receive_answer, hooked_slot, hook_fault, hook_items, hook_end};
ghost use Rattle.xd_factory.specs.Trees.{IsGot, received_trees, hooked_trees};
ghost use Rattle.xd_factory.specs.Table.{closing_message, is_long, close_gives_at, close_says, close_refusal, close_fault_of, HasErrorPayload, IsCloseRefusal, giving_says, send_refusal, sent_gives, IsSent};

use super::{MAX_ENTRIES, MAX_NUMBER, Side};
use crate::{CloseFault, HookFault, OpenFault, SendFault, Unknown};
use std::alloc::Global;
use std::collections::VecDeque;
use xd_channel::{ChannelEnd, Closing, End, GivenUp, Got, Waiting};
use xd_edge::{Blob, Text};
use xd_frame::{Kind, Message};
use xd_value::{DumpFault, Value, dumps};

impl Side {
    ghost use Rattle.xd_factory.specs.History.{Act, Open_channel, Close, End_function, Give_up, Set_callback, Receive, SideStands};
    ghost use Rattle.xd_factory.specs.View.{slot_of_number, parity_of, next_of, fault_of, is_finished, entry_count, KeepsRest};

    /// Opens the next channel of the own numbers. They rise by two.
    pub fn open_channel(&mut self) -> Result<u32, OpenFault>
        ensures number { IfOk result (λ n. n ≡ next_of self.old) }
        ensures next { OnOk result (next_of self.new ≡ next_of self.old + 2) }
        ensures unseen { IfOk result (λ n. slot_of_number self.old n ≡ Unseen) }
        ensures slots { IfOk result (λ n. (c : ℕ) →
            slot_of_number self.new c ≡
            (if n == c then Here fresh_end else slot_of_number self.old c)) }
        ensures history { (h : List Act) → SideStands self.old h →
            IfOk result (λ n. SideStands self.new (Open_channel n ∷ h)) }
        ensures rest { (parity_of self.new ≡ parity_of self.old)
            × (fault_of self.new ≡ fault_of self.old)
            × (is_finished self.new ≡ is_finished self.old) }

        ensures finished { IsErrOf result OpenFault.Finished ↔ (is_finished self.old ≡ true) }
        ensures full { is_finished self.old ≡ false →
            (IsErrOf result OpenFault.TooManyOpen ↔ (entry_count self.old ≡ MAX_ENTRIES)) }
        ensures spent { is_finished self.old ≡ false → entry_count self.old ≢ MAX_ENTRIES →
            (IsErrOf result OpenFault.NumbersSpent ↔ (MAX_NUMBER < next_of self.old)) }
        ensures err { OnErr result ((c : ℕ) →
            slot_of_number self.new c ≡ slot_of_number self.old c) }
        ensures same { OnErr result (KeepsRest self.old self.new) }
    {
        if self.finished {
            return Err(OpenFault::Finished);
        }
        if self.ends.len() >= MAX_ENTRIES as usize {
            return Err(OpenFault::TooManyOpen);
        }
        if self.next > MAX_NUMBER {
            return Err(OpenFault::NumbersSpent);
        }
        let number = self.next;
        match self.ends.insert(number, ChannelEnd::new(self.alloc)) {
            Ok(_) => {
                self.next += 2;
                Ok(number)
            }
            Err(_) => Err(OpenFault::OutOfMemory),
        }
    }

    /// The message that sends a value on a channel.
    pub fn send(&mut self, number: u32, value: &Value) -> Result<Message, SendFault>
        ensures answer { IsSent number result
            (sent_gives (send_refusal (slot_of_number self.old number)) (dumped (view value.now))) }
        ensures payload { IfOk result (λ message. IsPayload (view value.now) message.payload) }
        ensures same { self.new ≡ self.old }
    {
        match self.ends.get(&number) {
            Some(end) => {
                if end.may_send().is_err() {
                    return Err(SendFault::SendClosed);
                }
            }
            None => {
                if self.knows(number) {
                    return Err(SendFault::SendClosed);
                }
                return Err(SendFault::Unknown);
            }
        }
        match dumps(self.alloc, value) {
            Ok(payload) => Ok(Message::of(Kind::Item, number, payload)),
            Err(DumpFault::OutOfMemory) => Err(SendFault::OutOfMemory),
            Err(fault) => Err(SendFault::Dump(fault)),
        }
    }

    /// Closes a channel, with the text of an error where there is one, and gives the message that tells the peer.
    pub fn close(&mut self, number: u32, error: Option<Text>) -> Result<Option<Message>, CloseFault>
        ensures answer { IfOk result (λ says.
            says ≡ close_says number error (slot_of_number self.old number)) }
        ensures accepted { OnOk result
            (close_refusal (is_seen (slot_of_number self.old number)) (is_long error) ≡ None) }
        ensures payload { OnOk result (HasErrorPayload error) }
        ensures refused { IfErr result
            (IsCloseRefusal
            (close_refusal (is_seen (slot_of_number self.old number)) (is_long error))) }
        ensures slots { OnOk result ((c : ℕ) →
            slot_of_number self.new c ≡ (if number == c then closed_slot
            (slot_of_number self.old c) else slot_of_number self.old c)) }
        ensures history { (h : List Act) → SideStands self.old h →
            OnOk result (SideStands self.new (Close number ∷ h)) }
        ensures err { OnErr result ((c : ℕ) →
            slot_of_number self.new c ≡ slot_of_number self.old c) }
        ensures rest { KeepsRest self.old self.new }
    {
        if !self.knows(number) {
            return Err(CloseFault::Unknown);
        }
        let message = closing_of(self.alloc, number, error)?;
        match self.close_entry(number) {
            Closing::Say => Ok(Some(message)),
            Closing::Nothing => Ok(None),
        }
    }

    /// Ends the channel of a function: what still waits there is dropped, and the peer is always told.
    pub fn end_function(&mut self, number: u32, error: Option<Text>) -> Result<Message, CloseFault>
        ensures answer { IfOk result (λ message. message ≡ closing_message number error) }
        ensures accepted { OnOk result
            (close_refusal (is_seen (slot_of_number self.old number)) (is_long error) ≡ None) }
        ensures payload { OnOk result (HasErrorPayload error) }
        ensures refused { IfErr result
            (IsCloseRefusal
            (close_refusal (is_seen (slot_of_number self.old number)) (is_long error))) }
        ensures slots { OnOk result ((c : ℕ) →
            slot_of_number self.new c ≡ (if number == c then function_ended_slot
            (slot_of_number self.old c) else slot_of_number self.old c)) }
        ensures history { (h : List Act) → SideStands self.old h →
            OnOk result (SideStands self.new (End_function number ∷ h)) }
        ensures err { OnErr result ((c : ℕ) →
            slot_of_number self.new c ≡ slot_of_number self.old c) }
        ensures rest { KeepsRest self.old self.new }
    {
        if !self.knows(number) {
            return Err(CloseFault::Unknown);
        }
        let message = closing_of(self.alloc, number, error)?;
        self.ends.remove(&number);
        Ok(message)
    }

    /// Lets go of a channel, and gives the message that tells the peer.
    pub fn give_up(&mut self, number: u32) -> Result<Option<Message>, Unknown>
        ensures answer { IfOk result (λ says.
            says ≡ giving_says number (give_up_says (slot_of_number self.old number))) }
        ensures unknown { IsErr result ↔ (is_seen (slot_of_number self.old number) ≡ false) }
        ensures slots { (c : ℕ) →
            slot_of_number self.new c ≡ (if number == c then given_up_slot
            (slot_of_number self.old c) else slot_of_number self.old c) }
        ensures history { (h : List Act) → SideStands self.old h →
            SideStands self.new (Give_up number ∷ h) }
        ensures rest { KeepsRest self.old self.new }
    {
        if !self.knows(number) {
            return Err(Unknown);
        }
        match self.give_up_entry(number) {
            GivenUp::Nothing => Ok(None),
            GivenUp::SayClose => Ok(Some(Message::of(
                Kind::Close,
                number,
                Blob::empty(self.alloc),
            ))),
            GivenUp::SayLast => Ok(Some(Message::of(
                Kind::LastMessage,
                number,
                Blob::empty(self.alloc),
            ))),
        }
    }

    /// Sets a callback on a channel, and gives all that waits for it. On a closed channel that is the end alone.
    pub fn set_callback(&mut self, number: u32) -> Result<Waiting<Value>, HookFault>
        ensures items { IfOk result (λ w.
            map view w.items.items ≡ hook_items (slot_of_number self.old number)) }
        ensures end { IfOk result (λ w. w.end ≡ hook_end (slot_of_number self.old number)) }
        ensures accepted { OnOk result (hook_fault (slot_of_number self.old number) ≡ None) }
        ensures refused { IfErr result (λ fault.
            hook_fault (slot_of_number self.old number) ≡ Some fault) }
        ensures slots { (c : ℕ) →
            slot_of_number self.new c ≡ (if number == c then hooked_slot
            (slot_of_number self.old c) else slot_of_number self.old c) }
        ensures history { (h : List Act) → SideStands self.old h →
            SideStands self.new (Set_callback number (hooked_trees result) ∷ h) }
        ensures rest { KeepsRest self.old self.new }
    {
        match self.hook_entry(number) {
            Ok(waiting) => Ok(waiting),
            Err(fault) => Err(fault),
        }
    }

    /// The first item that waits on a channel; else its end; else nothing yet. A closed channel gives its end each time.
    pub fn receive(&mut self, number: u32) -> Result<Got<Value>, HookFault>
        ensures answer { IsGot result (receive_answer (slot_of_number self.old number)) }
        ensures slots { (c : ℕ) →
            slot_of_number self.new c ≡ (if number == c then received_slot
            (slot_of_number self.old c) else slot_of_number self.old c) }
        ensures history { (h : List Act) → SideStands self.old h →
            SideStands self.new (Receive number (received_trees result) ∷ h) }
        ensures rest { KeepsRest self.old self.new }
    {
        match self.receive_entry(number) {
            Ok(got) => Ok(got),
            Err(fault) => Err(fault),
        }
    }

    // Sets a callback on the entry, if there is one.
    fn hook_entry(&mut self, number: u32) -> Result<Waiting<Value>, HookFault>
        ensures items { IfOk result (λ w.
            map view w.items.items ≡ hook_items (slot_of_number self.old number)) }
        ensures end { IfOk result (λ w. w.end ≡ hook_end (slot_of_number self.old number)) }
        ensures accepted { OnOk result (hook_fault (slot_of_number self.old number) ≡ None) }
        ensures refused { IfErr result (λ fault.
            hook_fault (slot_of_number self.old number) ≡ Some fault) }
        ensures slots { (c : ℕ) →
            slot_of_number self.new c ≡ (if number == c then hooked_slot
            (slot_of_number self.old c) else slot_of_number self.old c) }
        ensures rest { KeepsRest self.old self.new }
    {
        match self.ends.get_mut(&number) {
            Some(end) => match end.set_callback() {
                Ok(waiting) => {
                    let done = end.is_done();
                    self.settle(number, done);
                    Ok(waiting)
                }
                Err(_) => Err(HookFault::HasCallback),
            },
            None => {
                if self.knows(number) {
                    Ok(Waiting {
                        items: VecDeque::new(self.alloc),
                        end: Some(End::Closed),
                    })
                } else {
                    Err(HookFault::Unknown)
                }
            }
        }
    }

    // Receives from the entry, if there is one.
    fn receive_entry(&mut self, number: u32) -> Result<Got<Value>, HookFault>
        ensures answer { IsGot result (receive_answer (slot_of_number self.old number)) }
        ensures slots { (c : ℕ) →
            slot_of_number self.new c ≡ (if number == c then received_slot
            (slot_of_number self.old c) else slot_of_number self.old c) }
        ensures rest { KeepsRest self.old self.new }
    {
        match self.ends.get_mut(&number) {
            Some(end) => {
                let answer = end.receive();
                let done = end.is_done();
                self.settle(number, done);
                match answer {
                    Ok(got) => Ok(got),
                    Err(_) => Err(HookFault::HasCallback),
                }
            }
            None => {
                if self.knows(number) {
                    Ok(Got::Ended(End::Closed))
                } else {
                    Err(HookFault::Unknown)
                }
            }
        }
    }

    // Closes the entry, if there is one.
    fn close_entry(&mut self, number: u32) -> Closing
        ensures answer { result ≡ close_gives_at (slot_of_number self.old number) }
        ensures slots { (c : ℕ) →
            slot_of_number self.new c ≡ (if number == c then closed_slot
            (slot_of_number self.old c) else slot_of_number self.old c) }
        ensures rest { KeepsRest self.old self.new }
    {
        match self.ends.get_mut(&number) {
            Some(end) => {
                let closing = end.close();
                let done = end.is_done();
                self.settle(number, done);
                closing
            }
            None => Closing::Nothing,
        }
    }

    // Lets go of the entry, if there is one.
    fn give_up_entry(&mut self, number: u32) -> GivenUp
        ensures answer { result ≡ give_up_says (slot_of_number self.old number) }
        ensures slots { (c : ℕ) →
            slot_of_number self.new c ≡ (if number == c then given_up_slot
            (slot_of_number self.old c) else slot_of_number self.old c) }
        ensures rest { KeepsRest self.old self.new }
    {
        match self.ends.get_mut(&number) {
            Some(end) => {
                let says = end.give_up();
                let done = end.is_done();
                self.settle(number, done);
                says
            }
            None => GivenUp::Nothing,
        }
    }
}

// The message by which a channel is closed, with the text of an error where there is one.
fn closing_of(alloc: Global, number: u32, error: Option<Text>) -> Result<Message, CloseFault>
    requires { number ≤ 2147483647 }
    ensures message { IfOk result (λ m. m ≡ closing_message number error) }
    ensures short { OnOk result (is_long error ≡ false) }
    ensures payload { OnOk result (HasErrorPayload error) }
    ensures refused { IfErr result (IsCloseRefusal (close_refusal true (is_long error))) }
{
    match error {
        None => Ok(Message::of(Kind::Close, number, Blob::empty(alloc))),
        Some(text) => match dumps(alloc, &value_of(text)) {
            Ok(payload) => Ok(Message::of(Kind::CloseError, number, payload)),
            Err(fault) => Err(close_fault(fault)),
        },
    }
}

// A text as a value.
fn value_of(characters: Text) -> Value
    ensures { view result ≡ text characters }
{
    Value::Text(characters)
}

// Why the text of an error has no payload: it is too long, or memory was refused.
fn close_fault(fault: DumpFault) -> CloseFault
    ensures { result ≡ close_fault_of fault }
{
    match fault {
        DumpFault::OutOfMemory => CloseFault::OutOfMemory,
        _ => CloseFault::TooLong,
    }
}
