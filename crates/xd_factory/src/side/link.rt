// The end of the link.
ghost use Rattle.std.specs.Prelude.{List, ◌∷◌, ◌≡◌, ◌≤◌, ◌<◌, ◌+◌, ◌==◌, ◌++◌, ℕ, IfOk, OnErr, OnOk, vec_len, vec_capacity, true, Some, None, if◌then◌else◌};
ghost use Rattle.std.specs.Ordering.{nat_cmp};
ghost use Rattle.std.specs.BTreeMap as tree;
ghost use Rattle.xd_factory.specs.Slot.{lost_slot, lost_gives};
ghost use Rattle.xd_factory.specs.Table.{owed_of, owed_at, fault_or};
ghost use Rattle.xd_factory.specs.declared.faults.SideFault.TheVariants.{Finished};

use super::Side;
use crate::SideFault;
use xd_channel::End;
use xd_edge::OutOfMemory;

impl Side {
    ghost use Rattle.xd_factory.specs.History.{Act, Finish_receiving, SideStands};
    ghost use Rattle.xd_factory.specs.View.{slot_of_number, parity_of, next_of, fault_of, is_finished, numbers_of, KeepsRest};

    /// The link has ended. Each channel without an end gets one, and no channel opens any more. What is answered are
    /// the ends for the callbacks, in order of numbers.
    pub fn finish_receiving(&mut self) -> Result<Vec<(u32, End)>, OutOfMemory>
        ensures owed { IfOk result (λ ends.
            ends.items ≡ owed_of (slot_of_number self.old) (numbers_of self.old)) }
        ensures slots { OnOk result ((c : ℕ) →
            slot_of_number self.new c ≡ lost_slot (slot_of_number self.old c)) }
        ensures history { (h : List Act) → SideStands self.old h →
            OnOk result (SideStands self.new (Finish_receiving ∷ h)) }
        ensures finished { OnOk result (is_finished self.new ≡ true) }
        ensures fault { OnOk result (fault_of self.new ≡ fault_or (fault_of self.old) Finished) }
        ensures same { (parity_of self.new ≡ parity_of self.old)
            × (next_of self.new ≡ next_of self.old) }
        ensures err { OnErr result
            (((c : ℕ) → slot_of_number self.new c ≡ slot_of_number self.old c)
            × KeepsRest self.old self.new) }
    {
        match self.lose_all() {
            Ok(owed) => {
                self.refuse_from_now_on();
                Ok(owed)
            }
            Err(fault) => Err(fault),
        }
    }

    // Each later message is refused: for the reason that stands, or since the link has ended.
    fn refuse_from_now_on(&mut self)
        ensures slots { (c : ℕ) → slot_of_number self.new c ≡ slot_of_number self.old c }
        ensures finished { is_finished self.new ≡ true }
        ensures fault { fault_of self.new ≡ fault_or (fault_of self.old) Finished }
        ensures same { (parity_of self.new ≡ parity_of self.old)
            × (next_of self.new ≡ next_of self.old) }
    {
        self.finished = true;
        if self.fault.is_none() {
            self.fault = Some(SideFault::Finished);
        }
    }

    // The link is lost at each number of the table. The ends that callbacks are owed, in order of numbers.
    fn lose_all(&mut self) -> Result<Vec<(u32, End)>, OutOfMemory>
        ensures owed { IfOk result (λ ends.
            ends.items ≡ owed_of (slot_of_number self.old) (numbers_of self.old)) }
        ensures slots { OnOk result ((c : ℕ) →
            slot_of_number self.new c ≡ lost_slot (slot_of_number self.old c)) }
        ensures err { OnErr result ((c : ℕ) →
            slot_of_number self.new c ≡ slot_of_number self.old c) }
        ensures rest { KeepsRest self.old self.new }
    {
        let numbers = self.numbers()?;
        let mut owed = match Vec::with_capacity(self.alloc, numbers.len()) {
            Ok(owed) => owed,
            Err(_) => return Err(OutOfMemory),
        };
        for number in &numbers {
            self.lose_into(*number, &mut owed);
        }
        Ok(owed)
    }

    // The link is lost at one number, and the end that a callback is owed goes into the list.
    fn lose_into(&mut self, number: u32, owed: &mut Vec<(u32, End)>)
        requires { vec_len owed.old < vec_capacity owed.old }
        ensures owed { owed.new.items ≡ owed.old.items
            ++ owed_at number (lost_gives (slot_of_number self.old number)) }
        ensures slots { (c : ℕ) →
            slot_of_number self.new c ≡ (if number == c then lost_slot
            (slot_of_number self.old c) else slot_of_number self.old c) }
        ensures room { vec_capacity owed.old ≤ vec_capacity owed.new }
        ensures count { vec_len owed.new ≤ vec_len owed.old + 1 }
        ensures rest { KeepsRest self.old self.new }
    {
        match self.lose(number) {
            Some(end) => match owed.push((number, end)) {
                Ok(()) => (),
                Err(_) => unreachable!(),
            },
            None => (),
        }
    }

    // The link is lost at one number.
    fn lose(&mut self, number: u32) -> Option<End>
        ensures gives { result ≡ lost_gives (slot_of_number self.old number) }
        ensures slots { (c : ℕ) →
            slot_of_number self.new c ≡ (if number == c then lost_slot
            (slot_of_number self.old c) else slot_of_number self.old c) }
        ensures rest { KeepsRest self.old self.new }
    {
        match self.ends.get_mut(&number) {
            Some(end) => {
                let handed = end.lost();
                let done = end.is_done();
                self.settle(number, done);
                handed
            }
            None => None,
        }
    }

    // The numbers of the table, in order.
    fn numbers(&self) -> Result<Vec<u32>, OutOfMemory>
        ensures keys { IfOk result (λ numbers. numbers.items ≡ numbers_of self.now) }
        ensures ordered { tree.IsOrdered nat_cmp self.now.ends }
    {
        match self.ends.keys().copied().collect::<Vec<u32>>(self.alloc) {
            Ok(numbers) => Ok(numbers),
            Err(_) => Err(OutOfMemory),
        }
    }
}
