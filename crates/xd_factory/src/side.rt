// The table of the channels of one side.
ghost use Rattle.std.specs.Prelude.{[], ◌≡◌, ◌≤◌, ◌<◌, ◌==◌, ℕ, IsSome, true, false, Option, None, if◌then◌else◌, length};
ghost use Rattle.std.specs.Ordering.{nat_cmp};
ghost use Rattle.std.specs.BTreeMap as tree;
ghost use Rattle.std.specs.List.Sorted.{IsStrictlySortedBy};
ghost use Rattle.xd_factory.specs.Numbers.{is_known, is_mine, is_in, first_number};
ghost use Rattle.xd_factory.specs.Slot.{Unseen, is_here, left_slot};

mod link;
mod naming;
mod owner;
mod peer;

use crate::seen::Seen;
use crate::{Parity, SideFault};
use std::alloc::Global;
use std::collections::BTreeMap;
use xd_channel::ChannelEnd;
use xd_value::Value;

/// How many channels a side has at most at a time.
pub const MAX_ENTRIES: u32 = 4096;

/// The largest channel number.
const MAX_NUMBER: u32 = 2_147_483_647;

/// The channels of one side of a link. Contracts see what it has at each number (`slot_of`): a number was never
/// opened, or is in the table with its end, or is closed for good.
///
/// An entry leaves the table once its sending is closed and its end marker was given. Of the own numbers that left
/// nothing is kept. Of the peer's numbers each that was ever seen is kept, since none of them may open again; they
/// are kept as runs, which grow with the gaps between them alone.
#[derive(Drop)]
pub struct Side {
    alloc: Global,
    parity: Parity,
    next: u32,
    ends: BTreeMap<u32, ChannelEnd<Value>>,
    seen: Seen,
    fault: Option<SideFault>,
    finished: bool,
    ghost own: { is_mine parity next ≡ true },
    ghost positive: { 0 < next },
    ghost few: { tree.btree_map_len ends ≤ 4096 },
    ghost known: { (c : ℕ) → IsSome (tree.get nat_cmp ends c) →
        is_known parity next seen c ≡ true },
    ghost numbers: { (c : ℕ) → is_known parity next seen c ≡ true → c ≤ 2147483647 },
}

impl Side {
    ghost use Rattle.xd_factory.specs.History.{SideStands};
    ghost use Rattle.xd_factory.specs.View.{slot_of_number, parity_of, next_of, fault_of, is_finished, numbers_of, entry_count, KeepsRest};

    /// A side that has opened nothing, and on which nothing came.
    pub fn new(alloc: Global, parity: Parity) -> Side
        ensures slots { (c : ℕ) → slot_of_number result c ≡ Unseen }
        ensures parity { parity_of result ≡ parity }
        ensures next { next_of result ≡ first_number parity }
        ensures good { fault_of result ≡ None }
        ensures open { is_finished result ≡ false }
        ensures history { SideStands result [] }
    {
        let next = match parity {
            Parity::Odd => 1,
            Parity::Even => 2,
        };
        Side {
            alloc,
            parity,
            next,
            ends: BTreeMap::new(alloc),
            seen: Seen::new(alloc),
            fault: None,
            finished: false,
        }
    }

    /// How many channels are in the table.
    pub fn status(&self) -> u32
        ensures count { result ≡ entry_count self.now }
        ensures numbers { result ≡ length (numbers_of self.now) }
        ensures entries { (c : ℕ) →
            is_here (slot_of_number self.now c) ≡ is_in c (numbers_of self.now) }
        ensures once { IsStrictlySortedBy nat_cmp (numbers_of self.now) }
    {
        self.ends.len() as u32
    }

    // Whether the number was opened here.
    fn knows(&self, number: u32) -> bool
        ensures { result ≡ is_known self.now.parity self.now.next self.now.seen number }
    {
        if self.is_own(number) {
            0 < number && number < self.next
        } else {
            self.seen.contains(number)
        }
    }

    // Whether this side opens the number.
    fn is_own(&self, number: u32) -> bool
        ensures { result ≡ is_mine self.now.parity number }
    {
        match self.parity {
            Parity::Odd => number % 2 == 1,
            Parity::Even => number % 2 != 1,
        }
    }

    // An entry that is done leaves the table.
    fn settle(&mut self, number: u32, done: bool)
        ensures slots { (c : ℕ) →
            slot_of_number self.new c ≡ (if number == c then left_slot done
            (slot_of_number self.old c) else slot_of_number self.old c) }
        ensures rest { KeepsRest self.old self.new }
    {
        if done {
            self.ends.remove(&number);
        }
    }
}
