// How the line of orders moves on, and how the function ends.
ghost use Rattle.std.specs.Prelude.{◌≡◌, ◌++◌, ◌∷◌, [], IfOk, OnOk, Some, None, List, option_to_list};

use super::{RunTests, Running};
use crate::ask::{Acts, Ask, request};
use crate::line_entry::{LineEntry, Standing};
use crate::phase::{Ending, Phase};
use xd_edge::{OutOfMemory, Text};
use xd_journal::What;

impl RunTests {
    ghost use Rattle.xd_worker_tests.specs.declared.line_entry.LineEntry.{LineEntry};
    ghost use Rattle.xd_worker_tests.specs.declared.line_entry.LineEntry.TheVariants.{Test};
    ghost use Rattle.xd_worker_tests.specs.declared.phase.Phase.TheVariants.{Serving};
    ghost use Rattle.xd_worker_tests.specs.Line.{FunctionCall, left};
    ghost use Rattle.xd_worker_tests.specs.Turns.{CallTurn, over, ended_early, line_settled, moved_on, too_many_channels, ending_text};
    ghost use Rattle.xd_worker_tests.specs.inner.Stands.{IsCallTurn, Moves, HoldsInAnyPhase, IsCall, passing_some};

    /// The function ends.
    pub(super) fn finish(&mut self, acts: &mut Acts, text: Option<Text>) -> Result<(), OutOfMemory>
        ensures { (t : CallTurn) → HoldsInAnyPhase self.old acts.old t →
            OnOk result (IsCallTurn self.new acts.new (over text t)) }
    {
        request(acts, Ask::End(text))?;
        self.phase = Phase::Over;
        Ok(())
    }

    pub(super) fn ending(&self, ending: Ending) -> Result<Option<Text>, OutOfMemory>
        ensures { IfOk result (λ text. text ≡ ending_text ending) }
    {
        match ending {
            Ending::BadCommand => Ok(Some(Text::of(self.alloc, "bad command")?)),
            Ending::ReceivingEnded => Ok(None),
        }
    }

    /// An early end, which waits for the running test.
    pub(super) fn end_early(&mut self, acts: &mut Acts, ending: Ending) -> Result<(), OutOfMemory>
        ensures { (t : CallTurn) → HoldsInAnyPhase self.old acts.old t →
            OnOk result (IsCallTurn self.new acts.new (ended_early ending t)) }
    {
        if self.running.is_some() {
            self.phase = Phase::Ending(ending);
            Ok(())
        } else {
            let text = self.ending(ending)?;
            self.finish(acts, text)
        }
    }

    /// The queue's front becomes the next entry.
    fn advance(&mut self)
        ensures queue { self.old.queue.items ≡ option_to_list self.new.next
            ++ self.new.queue.items }
        ensures none { self.new.next ≡ None → self.new.queue.items ≡ [] }
        ensures stands { self.new.stands.items ≡ passing_some self.old.stands.items self.new.next }
        ensures others { self.new ≡ record self.old {
          queue = self.new.queue;
          next = self.new.next;
          stands = self.new.stands;
        } }
    {
        self.next = self.queue.pop_front();
        if let Some(LineEntry::Test(test)) = self.next {
            if let Some(standing) = self.stands.get_mut(test as usize) {
                *standing = Standing::Passed;
            }
        }
    }

    /// Where there is no next entry, the queue's front is it.
    fn ready(&mut self)
        ensures call { (c : FunctionCall) → c.phase ≡ Serving → self.old.running ≡ None →
            IsCall self.old c → IsCall self.new c }
        ensures ready { self.new.next ≡ None → self.new.queue.items ≡ [] }
        ensures running { self.new.running ≡ self.old.running }
    {
        if self.next.is_none() {
            self.advance();
        }
    }

    fn too_many(&self) -> Result<Option<Text>, OutOfMemory>
        ensures { IfOk result (λ text. text ≡ Some too_many_channels) }
    {
        Ok(Some(Text::of(self.alloc, "too many channels")?))
    }

    /// The next test runs, where the side has a channel for its log.
    fn start(&mut self, acts: &mut Acts, test: u32, room: bool) -> Result<(), OutOfMemory>
        ensures { (t : CallTurn) (p : LineEntry) (q : List LineEntry) → t.call.phase ≡ Serving →
            self.old.running ≡ None → self.old.next ≡ Some (Test test) →
            self.old.queue.items ≡ p ∷ q → Moves self.old acts.old t →
            OnOk result (IsCallTurn self.new acts.new (moved_on room (Test test ∷ (p ∷ q)) t)) }
    {
        if room && self.next_log <= 2147483647 {
            let log = self.next_log;
            request(acts, Ask::Tell(What::LogStart { index: test, log }))?;
            acts.run = Some(test);
            self.running = Some(Running { test, log });
            self.next_log = log + 2;
            self.sent = 0;
            self.advance();
            Ok(())
        } else {
            let text = self.too_many()?;
            self.finish(acts, text)
        }
    }

    /// Where nothing runs, a mark that is reached ends the function, and a test with an entry after it starts.
    fn move_on(&mut self, acts: &mut Acts, room: bool) -> Result<(), OutOfMemory>
        ensures { (t : CallTurn) → t.call.phase ≡ Serving → self.old.running ≡ None →
            IsCallTurn self.old acts.old t →
            OnOk result (IsCallTurn self.new acts.new (moved_on room (left t.call) t)) }
    {
        match self.next {
            None => Ok(()),
            Some(LineEntry::Mark) => {
                request(acts, Ask::Tell(What::Finished))?;
                self.finish(acts, None)
            }
            Some(LineEntry::Test(test)) => {
                if self.queue.is_empty() {
                    Ok(())
                } else {
                    self.start(acts, test, room)
                }
            }
        }
    }

    pub(super) fn settle(&mut self, acts: &mut Acts, room: bool) -> Result<(), OutOfMemory>
        ensures { (t : CallTurn) → t.call.phase ≡ Serving → Moves self.old acts.old t →
            OnOk result (IsCallTurn self.new acts.new (line_settled room t)) }
    {
        if self.running.is_some() {
            return Ok(());
        }
        self.ready();
        self.move_on(acts, room)
    }
}
