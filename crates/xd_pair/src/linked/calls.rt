// The calls that say nothing to the peer.
ghost use Rattle.std.specs.Prelude.{◌≡◌, ◌≢◌, ◌<◌, ◌↔◌, [], true, false, None, Some, IfOk, IfErr, OnOk, OnErr, IsErrOf};

use super::LinkedSide;
use xd_channel::{End, Got, Waiting};
use xd_edge::OutOfMemory;
use xd_factory::{HookFault, MAX_ENTRIES, OpenFault};
use xd_value::Value;

impl LinkedSide {
    ghost use Rattle.xd_factory.specs.View.{slot_of_number, next_of, is_finished, entry_count};
    ghost use Rattle.xd_factory.specs.Slot.{receive_answer, hook_fault};
    ghost use Rattle.xd_factory.specs.Trees.{IsGot};
    ghost use Rattle.xd_pair.specs.Pair.{Open_channel, Receive, Set_callback, Finish_receiving};
    ghost use Rattle.xd_pair.specs.Part.{item_in, end_in};
    ghost use Rattle.xd_pair.specs.Handed.{items_at, end_at, received_tree, waiting_items, waiting_end, owed_end};
    ghost use Rattle.xd_pair.specs.Stands.{IsMove, HandsOut, Stays};

    /// Opens the next channel of the own numbers.
    pub fn open_channel(&mut self) -> Result<u32, OpenFault>
        ensures step { OnOk result (IsMove self.old self.new Open_channel) }
        ensures number { IfOk result (λ n. n ≡ next_of self.old.side) }
        ensures err { OnErr result (Stays self.old self.new) }
        ensures finished { IsErrOf result OpenFault.Finished ↔ (is_finished self.old.side ≡ true) }
        ensures full { is_finished self.old.side ≡ false →
            (IsErrOf result OpenFault.TooManyOpen ↔ (entry_count self.old.side ≡ MAX_ENTRIES)) }
        ensures spent { is_finished self.old.side ≡ false →
            entry_count self.old.side ≢ MAX_ENTRIES →
            (IsErrOf result OpenFault.NumbersSpent ↔ (2147483647 < next_of self.old.side)) }
    {
        match self.side.open_channel() {
            Ok(number) => Ok(number),
            Err(fault) => Err(fault),
        }
    }

    /// The first item that waits on a channel; else its end; else nothing yet.
    pub fn receive(&mut self, number: u32) -> Result<Got<Value>, HookFault>
        ensures step { IsMove self.old self.new (Receive number) }
        ensures answer { IsGot result (receive_answer (slot_of_number self.old.side number)) }
        ensures hands { let r = received_tree result in
            HandsOut self.old (Receive number)
            (items_at number (item_in r)) (end_at number (end_in r)) }
    {
        match self.side.receive(number) {
            Ok(got) => Ok(got),
            Err(fault) => Err(fault),
        }
    }

    /// Sets a callback on a channel, and gives all that waits for it.
    pub fn set_callback(&mut self, number: u32) -> Result<Waiting<Value>, HookFault>
        ensures step { IsMove self.old self.new (Set_callback number) }
        ensures refused { IfErr result
            (λ fault. hook_fault (slot_of_number self.old.side number) ≡ Some fault) }
        ensures accepted { OnOk result (hook_fault (slot_of_number self.old.side number) ≡ None) }
        ensures hands { HandsOut self.old (Set_callback number)
            (items_at number (waiting_items result)) (end_at number (waiting_end result)) }
    {
        match self.side.set_callback(number) {
            Ok(waiting) => Ok(waiting),
            Err(fault) => Err(fault),
        }
    }

    /// The link has ended. What is answered are the ends for the callbacks, in order of numbers.
    pub fn finish_receiving(&mut self) -> Result<Vec<(u32, End)>, OutOfMemory>
        ensures step { OnOk result (IsMove self.old self.new Finish_receiving) }
        ensures hands { IfOk result
            (λ ends. HandsOut self.old Finish_receiving (λ c. []) (owed_end ends.items)) }
        ensures err { OnErr result (Stays self.old self.new) }
    {
        match self.side.finish_receiving() {
            Ok(owed) => Ok(owed),
            Err(fault) => Err(fault),
        }
    }
}
