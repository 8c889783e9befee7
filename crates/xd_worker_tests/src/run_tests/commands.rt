// The commands.
ghost use Rattle.std.specs.Prelude.{◌≡◌, ◌++◌, ◌∷◌, [], IfOk, OnOk, Some};

use super::RunTests;
use crate::ask::Acts;
use crate::line_entry::{LineEntry, Standing};
use crate::phase::{Ending, Phase};
use std::collections::VecDeque;
use xd_commands::Order;
use xd_edge::OutOfMemory;

impl RunTests {
    ghost use Rattle.xd_worker_tests.specs.declared.line_entry.LineEntry.TheVariants.{Mark};
    ghost use Rattle.xd_worker_tests.specs.declared.phase.Phase.TheVariants.{Serving};
    ghost use Rattle.std.specs.List.{range_with_len};
    ghost use Rattle.xd_commands.specs.declared.order.Order.TheVariants.{Shutdown};
    ghost use Rattle.xd_worker_tests.specs.Turns.{CallTurn, given, told, item_heard_in, all_heard};
    ghost use Rattle.xd_worker_tests.specs.inner.Stands.{IsCallTurn, Appends, free_at};

    /// The test is one of the suite that does not stand in the line.
    fn is_free(&self, test: u32) -> bool
        ensures { result ≡ free_at self.now.stands.items test }
    {
        match self.stands.get(test as usize) {
            Some(Standing::Free) => true,
            _ => false,
        }
    }

    /// Puts a test at the queue's end. The answer is false where it is beyond the suite or stands in the line.
    fn append(&mut self, test: u32) -> Result<bool, OutOfMemory>
        ensures others { self.new ≡ record self.old {
          queue = self.new.queue;
          stands = self.new.stands;
        } }
        ensures appends { IfOk result
            (Appends self.old.stands.items self.old.queue.items self.new.stands.items
            self.new.queue.items (test ∷ [])) }
    {
        if !self.is_free(test) {
            return Ok(false);
        }
        self.queue.push_back(LineEntry::Test(test))?;
        self.stands[test as usize] = Standing::Queued;
        Ok(true)
    }

    /// Puts tests at the queue's end. Where the answer is false the queue is of no use from then on.
    fn append_all(&mut self, tests: &[u32]) -> Result<bool, OutOfMemory>
        ensures others { OnOk result
            (self.new ≡ record self.old { queue = self.new.queue; stands = self.new.stands }) }
        ensures appends { IfOk result
            (Appends self.old.stands.items self.old.queue.items self.new.stands.items
            self.new.queue.items tests.now) }
    {
        for test in tests {
            if !self.append(*test)? {
                return Ok(false);
            }
        }
        Ok(true)
    }

    /// Tests are given: they stand at the line's end, or the command is bad.
    fn give(&mut self, acts: &mut Acts, tests: &[u32], room: bool) -> Result<(), OutOfMemory>
        ensures { (t : CallTurn) → t.call.phase ≡ Serving → IsCallTurn self.old acts.old t →
            OnOk result (IsCallTurn self.new acts.new (given room tests.now t)) }
    {
        if self.append_all(tests)? {
            self.settle(acts, room)
        } else {
            self.end_early(acts, Ending::BadCommand)
        }
    }

    fn mark(&mut self) -> Result<(), OutOfMemory>
        ensures others { self.new ≡ record self.old {
          queue = self.new.queue;
          stands = self.new.stands;
        } }
        ensures stands { self.new.stands.items ≡ self.old.stands.items }
        ensures queue { OnOk result (self.new.queue.items ≡ self.old.queue.items ++ Mark ∷ []) }
    {
        self.queue.push_back(LineEntry::Mark)?;
        Ok(())
    }

    /// A shutdown mark stands at the line's end.
    fn shut(&mut self, acts: &mut Acts, room: bool) -> Result<(), OutOfMemory>
        ensures { (t : CallTurn) → t.call.phase ≡ Serving → IsCallTurn self.old acts.old t →
            OnOk result (IsCallTurn self.new acts.new (told room (Some Shutdown) t)) }
    {
        self.mark()?;
        self.settle(acts, room)
    }

    /// All tests of the suite, in order.
    fn all_tests(&self) -> Result<Vec<u32>, OutOfMemory>
        ensures { IfOk result (λ v. v.items ≡ range_with_len 0 self.now.size) }
    {
        let mut tests = Vec::new(self.alloc);
        for test in 0..self.size {
            tests.push(test)?;
        }
        Ok(tests)
    }

    /// An item of the channel while the function serves.
    fn tell(&mut self, acts: &mut Acts, item: Option<Order>, room: bool) -> Result<(), OutOfMemory>
        ensures { (t : CallTurn) → t.call.phase ≡ Serving → IsCallTurn self.old acts.old t →
            OnOk result (IsCallTurn self.new acts.new (told room item t)) }
    {
        match item {
            None => self.end_early(acts, Ending::BadCommand),
            Some(Order::RunTests(tests)) => self.give(acts, &tests.items, room),
            Some(Order::RunAll) => {
                let all = self.all_tests()?;
                self.give(acts, &all, room)
            }
            Some(Order::Steal(tests)) => self.steal(acts, &tests.items),
            Some(Order::Shutdown) => self.shut(acts, room),
        }
    }

    /// An item of the channel. Before the collection it waits, and after an end it is left out.
    pub(super) fn hear(
        &mut self,
        acts: &mut Acts,
        item: Option<Order>,
        room: bool,
    ) -> Result<(), OutOfMemory>
        ensures { (t : CallTurn) → t.call.phase ≡ self.old.phase → IsCallTurn self.old acts.old t →
            OnOk result (IsCallTurn self.new acts.new (item_heard_in self.old.phase room item t)) }
    {
        match self.phase {
            Phase::Awaiting => {
                self.waiting.push_back(item)?;
                Ok(())
            }
            Phase::Serving => self.tell(acts, item, room),
            Phase::Ending(_) | Phase::Stopped | Phase::Over => Ok(()),
        }
    }

    /// What waited takes effect, one after another.
    pub(super) fn hear_all(
        &mut self,
        acts: &mut Acts,
        mut waiting: VecDeque<Option<Order>>,
        room: bool,
    ) -> Result<(), OutOfMemory>
        ensures { (t : CallTurn) → IsCallTurn self.old acts.old t →
            OnOk result (IsCallTurn self.new acts.new (all_heard room waiting.items t)) }
    {
        while let Some(item) = waiting.pop_front() {
            self.hear(acts, item, room)?;
        }
        Ok(())
    }
}
