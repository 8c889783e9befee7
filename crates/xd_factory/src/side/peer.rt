// The messages of the peer.
ghost use Rattle.std.specs.Prelude.{List, ◌∷◌, Bool, ◌≡◌, ◌≤◌, ◌+◌, ◌==◌, ℕ, IfOk, IfErr, OnErr, OnOk, true, false, Some, None, if◌then◌else◌};
ghost use Rattle.xd_value.specs.View.{view};
ghost use Rattle.xd_channel.specs.State.{end_of};
ghost use Rattle.xd_factory.specs.Numbers.{is_mine, is_in};
ghost use Rattle.xd_factory.specs.Said.{Said, Exec, Data, Means, Misread, said_of, names_of, mentions, names_in, IsFault};
ghost use Rattle.xd_factory.specs.Slot.{item_slot, item_gives, peer_closed_slot, peer_last_slot};
ghost use Rattle.xd_factory.specs.Trees.{arrived_tree, taken_tree};
ghost use Rattle.xd_factory.specs.Table.{heard_slot, opened_count, answer_of, end_answer, ended_answer, named_in, OpensAtMost, Refused, IsRefused, IsHearFault, IsNoMemory};
ghost use Rattle.xd_channel.specs.declared.end.End.{End};
ghost use Rattle.xd_factory.specs.declared.faults.SideFault.{SideFault};

use super::Side;
use crate::word::{Word, read_message};
use crate::{SideFault, Taken};
use xd_channel::{Arrived, End};
use xd_edge::Text;
use xd_frame::Message;
use xd_value::Value;

impl Side {
    ghost use Rattle.xd_factory.specs.History.{Act, Take_message, Refuse, SideStands};
    ghost use Rattle.xd_factory.specs.View.{slot_of_number, new_at, parity_of, next_of, fault_of, is_finished, entry_count, KeepsRest};

    /// Takes the next message of the peer. The channels that a value names open before the value is handed on.
    ///
    /// After a refusal the side has failed: it refuses each later message for the same reason. A message that means
    /// nothing opens no number; another one that is refused may have opened numbers that it names.
    pub fn take_message(&mut self, message: Message) -> Result<Taken, SideFault>
        ensures failed { (fault : SideFault) → fault_of self.old ≡ Some fault →
            (result ≡ Err fault) × (self.new ≡ self.old) }
        ensures fails { IfErr result (λ fault. fault_of self.new ≡ Some fault) }
        ensures good { OnOk result ((fault_of self.old ≡ None) × KeepsRest self.old self.new) }
        ensures same { (parity_of self.new ≡ parity_of self.old)
            × (next_of self.new ≡ next_of self.old)
            × (is_finished self.new ≡ is_finished self.old) }

        ensures read { IfOk result (λ _. (said : Said) × Means message said) }
        ensures answer { (said : Said) → Means message said →
            IfOk result (λ taken. taken_tree taken ≡ answer_of (parity_of self.old)
            (slot_of_number self.old) said) }
        ensures slots { (said : Said) → Means message said →
            OnOk result ((c : ℕ) → slot_of_number self.new c ≡ heard_slot
            (parity_of self.old) said c (slot_of_number self.old c)) }

        ensures history { (h : List Act) → (said : Said) → SideStands self.old h →
            Means message said → IfOk result (λ taken.
            SideStands self.new (Take_message said (taken_tree taken) ∷ h)) }

        ensures refused { fault_of self.old ≡ None →
            IfErr result (IsRefused (entry_count self.old) (new_at self.old) message) }
        ensures refuses { (fault : SideFault) → fault_of self.old ≡ None →
            Refused (entry_count self.old) (new_at self.old) message fault → IsFault fault result }
        ensures err { OnErr result ((c : ℕ) →
            OpensAtMost (is_mine (parity_of self.old) c) (slot_of_number self.old c)
            (slot_of_number self.new c)) }
        ensures others { (said : Said) → Means message said →
            OnErr result ((c : ℕ) → is_in c (names_of said) ≡ false →
            slot_of_number self.new c ≡ slot_of_number self.old c) }
        ensures unread { (fault : SideFault) → Misread message fault → (c : ℕ) →
            slot_of_number self.new c ≡ slot_of_number self.old c }
        ensures failed_history { (h : List Act) → SideStands self.old h →
            OnErr result ((which : ℕ → Bool) × SideStands self.new (Refuse which ∷ h)) }
    {
        if let Some(fault) = self.fault {
            return Err(fault);
        }
        match self.take(message) {
            Ok(taken) => Ok(taken),
            Err(fault) => {
                self.fault = Some(fault);
                Err(fault)
            }
        }
    }

    // Takes a message at a side that has not failed.
    fn take(&mut self, message: Message) -> Result<Taken, SideFault>
        ensures read { IfOk result (λ _. (said : Said) × Means message said) }
        ensures answer { (said : Said) → Means message said →
            IfOk result (λ taken. taken_tree taken ≡ answer_of (parity_of self.old)
            (slot_of_number self.old) said) }
        ensures slots { (said : Said) → Means message said →
            OnOk result ((c : ℕ) → slot_of_number self.new c ≡ heard_slot
            (parity_of self.old) said c (slot_of_number self.old c)) }
        ensures refused { IfErr result
            (IsRefused (entry_count self.old) (new_at self.old) message) }
        ensures refuses { (fault : SideFault) →
            Refused (entry_count self.old) (new_at self.old) message fault → IsFault fault result }
        ensures err { OnErr result ((c : ℕ) →
            OpensAtMost (is_mine (parity_of self.old) c) (slot_of_number self.old c)
            (slot_of_number self.new c)) }
        ensures others { (said : Said) → Means message said →
            OnErr result ((c : ℕ) → is_in c (names_of said) ≡ false →
            slot_of_number self.new c ≡ slot_of_number self.old c) }
        ensures unread { (fault : SideFault) → Misread message fault → (c : ℕ) →
            slot_of_number self.new c ≡ slot_of_number self.old c }
        ensures rest { KeepsRest self.old self.new }
    {
        match read_message(self.alloc, &message) {
            Ok(word) => match self.hear(word) {
                Ok(taken) => Ok(taken),
                Err(fault) => Err(fault),
            },
            Err(fault) => Err(fault),
        }
    }

    // Does what a message says.
    fn hear(&mut self, word: Word) -> Result<Taken, SideFault>
        requires { (c : ℕ) → is_in c (mentions (said_of word)) ≡ true → c ≤ 2147483647 }
        ensures answer { IfOk result (λ taken.
            taken_tree taken ≡ answer_of (parity_of self.old) (slot_of_number self.old)
            (said_of word)) }
        ensures slots { OnOk result ((c : ℕ) →
            slot_of_number self.new c ≡ heard_slot (parity_of self.old) (said_of word) c
            (slot_of_number self.old c)) }
        ensures fits { OnOk result
            (entry_count self.old
            + opened_count (new_at self.old) (names_of (said_of word)) ≤ 4096) }
        ensures refused { IfErr result
            (IsHearFault (entry_count self.old + opened_count (new_at self.old)
            (names_of (said_of word)))) }
        ensures err { OnErr result ((c : ℕ) →
            OpensAtMost (is_mine (parity_of self.old) c) (slot_of_number self.old c)
            (slot_of_number self.new c)) }
        ensures others { OnErr result ((c : ℕ) → is_in c (names_of (said_of word)) ≡ false →
            slot_of_number self.new c ≡ slot_of_number self.old c) }
        ensures rest { KeepsRest self.old self.new }
    {
        match word {
            Word::Status(number) => Ok(Taken::Status(number)),
            Word::Exec(number, value) => self.hear_call(number, value),
            Word::Data(number, value) => self.hear_item(number, value),
            Word::Close(number, error) => self.hear_close(number, error),
            Word::Last(number) => self.hear_last(number),
            Word::Terminate => Ok(Taken::Terminate),
        }
    }

    // The peer calls a function: the channels of its value open, and its own number where it is new.
    fn hear_call(&mut self, number: u32, value: Value) -> Result<Taken, SideFault>
        requires { (c : ℕ) → is_in c (names_in number (view value)) ≡ true → c ≤ 2147483647 }
        ensures answer { IfOk result (λ taken.
            taken_tree taken ≡ answer_of (parity_of self.old) (slot_of_number self.old)
            (Exec number (view value))) }
        ensures slots { OnOk result ((c : ℕ) →
            slot_of_number self.new c ≡ named_in (is_mine (parity_of self.old) c)
            (is_in c (names_in number (view value))) (slot_of_number self.old c)) }
        ensures fits { OnOk result
            (entry_count self.old + opened_count (new_at self.old)
            (names_in number (view value)) ≤ 4096) }
        ensures refused { IfErr result
            (IsHearFault (entry_count self.old + opened_count (new_at self.old)
            (names_in number (view value)))) }
        ensures err { OnErr result ((c : ℕ) →
            OpensAtMost (is_mine (parity_of self.old) c) (slot_of_number self.old c)
            (slot_of_number self.new c)) }
        ensures others { OnErr result ((c : ℕ) → is_in c (names_in number (view value)) ≡ false →
            slot_of_number self.new c ≡ slot_of_number self.old c) }
        ensures rest { KeepsRest self.old self.new }
    {
        let opens = self.opens(number);
        match self.name_value(number, &value) {
            Ok(()) => {
                if opens {
                    Ok(Taken::Exec(number, value))
                } else {
                    Ok(Taken::Dropped)
                }
            }
            Err(fault) => Err(fault),
        }
    }

    // An item comes: the channels of its value open, and its own number where it is new.
    fn hear_item(&mut self, number: u32, value: Value) -> Result<Taken, SideFault>
        requires { (c : ℕ) → is_in c (names_in number (view value)) ≡ true → c ≤ 2147483647 }
        ensures answer { IfOk result (λ taken.
            taken_tree taken ≡ answer_of (parity_of self.old) (slot_of_number self.old)
            (Data number (view value))) }
        ensures slots { OnOk result ((c : ℕ) →
            slot_of_number self.new c ≡ heard_slot (parity_of self.old) (Data number (view value)) c
            (slot_of_number self.old c)) }
        ensures fits { OnOk result
            (entry_count self.old + opened_count (new_at self.old)
            (names_in number (view value)) ≤ 4096) }
        ensures refused { IfErr result
            (IsHearFault (entry_count self.old + opened_count (new_at self.old)
            (names_in number (view value)))) }
        ensures err { OnErr result ((c : ℕ) →
            OpensAtMost (is_mine (parity_of self.old) c) (slot_of_number self.old c)
            (slot_of_number self.new c)) }
        ensures others { OnErr result ((c : ℕ) → is_in c (names_in number (view value)) ≡ false →
            slot_of_number self.new c ≡ slot_of_number self.old c) }
        ensures rest { KeepsRest self.old self.new }
    {
        match self.name_value(number, &value) {
            Ok(()) => match self.deliver(number, value) {
                Ok(Arrived::Kept) => Ok(Taken::Kept(number)),
                Ok(Arrived::Handed(item)) => Ok(Taken::Handed(number, item)),
                Ok(Arrived::Dropped) => Ok(Taken::Dropped),
                Err(fault) => Err(fault),
            },
            Err(fault) => Err(fault),
        }
    }

    // The peer closes a channel.
    fn hear_close(&mut self, number: u32, error: Option<Text>) -> Result<Taken, SideFault>
        requires { number ≤ 2147483647 }
        ensures answer { IfOk result (λ taken.
            taken_tree taken ≡ end_answer number (slot_of_number self.old number) (end_of error)) }
        ensures slots { OnOk result ((c : ℕ) →
            slot_of_number self.new c ≡ (if number == c then peer_closed_slot
            (is_mine (parity_of self.old) c) (slot_of_number self.old c)
            (end_of error) else slot_of_number self.old c)) }
        ensures refused { IfErr result IsNoMemory }
        ensures err { OnErr result ((c : ℕ) →
            slot_of_number self.new c ≡ slot_of_number self.old c) }
        ensures rest { KeepsRest self.old self.new }
    {
        match self.ends.get_mut(&number) {
            Some(end) => {
                let hooked = end.has_callback();
                let handed = end.peer_close(error);
                let done = end.is_done();
                self.settle(number, done);
                Ok(ended(number, hooked, handed))
            }
            None => match self.shut(number) {
                Ok(()) => Ok(Taken::Dropped),
                Err(fault) => Err(fault),
            },
        }
    }

    // The peer sends no more on a channel.
    fn hear_last(&mut self, number: u32) -> Result<Taken, SideFault>
        requires { number ≤ 2147483647 }
        ensures answer { IfOk result (λ taken.
            taken_tree taken ≡ end_answer number (slot_of_number self.old number) End.LastMessage) }
        ensures slots { OnOk result ((c : ℕ) →
            slot_of_number self.new c ≡ (if number == c then peer_last_slot
            (is_mine (parity_of self.old) c)
            (slot_of_number self.old c) else slot_of_number self.old c)) }
        ensures refused { IfErr result IsNoMemory }
        ensures err { OnErr result ((c : ℕ) →
            slot_of_number self.new c ≡ slot_of_number self.old c) }
        ensures rest { KeepsRest self.old self.new }
    {
        match self.ends.get_mut(&number) {
            Some(end) => {
                let hooked = end.has_callback();
                let handed = end.peer_last();
                let done = end.is_done();
                self.settle(number, done);
                Ok(ended(number, hooked, handed))
            }
            None => match self.shut(number) {
                Ok(()) => Ok(Taken::Dropped),
                Err(fault) => Err(fault),
            },
        }
    }

    // An item comes on a number, after the opening of what it names.
    fn deliver(&mut self, number: u32, item: Value) -> Result<Arrived<Value>, SideFault>
        ensures answer { IfOk result (λ arrived.
            arrived_tree arrived ≡ item_gives (slot_of_number self.old number) (view item)) }
        ensures ok { OnOk result ((c : ℕ) →
            slot_of_number self.new c ≡ (if number == c then item_slot (slot_of_number self.old c)
            (view item) else slot_of_number self.old c)) }
        ensures refused { IfErr result IsNoMemory }
        ensures err { OnErr result ((c : ℕ) →
            slot_of_number self.new c ≡ slot_of_number self.old c) }
        ensures rest { KeepsRest self.old self.new }
    {
        match self.ends.get_mut(&number) {
            Some(end) => match end.arrive(item) {
                Ok(arrived) => Ok(arrived),
                Err(_) => Err(SideFault::OutOfMemory),
            },
            None => Ok(Arrived::Dropped),
        }
    }
}

// What an end did at an entry: a callback is handed it where it is the first.
fn ended(number: u32, hooked: bool, handed: Option<End>) -> Taken
    ensures { taken_tree result ≡ ended_answer number hooked handed }
{
    if !hooked {
        return Taken::EndKept(number);
    }
    match handed {
        Some(end) => Taken::EndHanded(number, end),
        None => Taken::Dropped,
    }
}
