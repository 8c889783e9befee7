// The suite, the end of the channel's receiving direction, and the end of the worker.
ghost use Rattle.std.specs.Prelude.{◌^◌, ◌≡◌, [], ◌<◌, IfOk, OnOk, length};

use super::RunTests;
use crate::ask::{Acts, Ask, request};
use crate::line_entry::Standing;
use crate::phase::{Ending, Phase};
use std::collections::VecDeque;
use xd_commands::Order;
use xd_edge::{OutOfMemory, Text, Texts};
use xd_journal::What;

impl RunTests {
    ghost use Rattle.xd_worker_tests.specs.Line.{FunctionCall};
    ghost use Rattle.xd_worker_tests.specs.Turns.{CallTurn, receiving_ended_in, suite_refused_in, call_stopped, collected_in, serving_suite};
    ghost use Rattle.xd_worker_tests.specs.inner.Stands.{IsCallTurn, IsCall};

    /// The receiving direction of the channel ended.
    pub(super) fn end_hearing(&mut self, acts: &mut Acts) -> Result<(), OutOfMemory>
        ensures { (t : CallTurn) → IsCallTurn self.old acts.old t →
            OnOk result (IsCallTurn self.new acts.new (receiving_ended_in self.old.phase t)) }
    {
        match self.phase {
            Phase::Awaiting | Phase::Serving => self.end_early(acts, Ending::ReceivingEnded),
            Phase::Ending(_) | Phase::Stopped | Phase::Over => Ok(()),
        }
    }

    /// The suite cannot be taken.
    pub(super) fn refuse(&mut self, acts: &mut Acts, text: Text) -> Result<(), OutOfMemory>
        ensures { (t : CallTurn) → IsCallTurn self.old acts.old t →
            OnOk result (IsCallTurn self.new acts.new (suite_refused_in self.old.phase text t)) }
    {
        match self.phase {
            Phase::Awaiting => self.finish(acts, Some(text)),
            Phase::Serving | Phase::Ending(_) | Phase::Stopped | Phase::Over => Ok(()),
        }
    }

    /// GATEWAY_TERMINATE or the end of the link.
    pub(super) fn stop(&mut self)
        ensures { (a : Acts) (t : CallTurn) → IsCallTurn self.old a t →
            IsCallTurn self.new a (call_stopped t) }
    {
        self.phase = Phase::Stopped;
    }

    /// The collection is sent, and what waited takes effect.
    pub(super) fn collect(
        &mut self,
        acts: &mut Acts,
        ids: Texts,
        room: bool,
    ) -> Result<(), OutOfMemory>
        requires { length ids < 2 ^ 32 }
        ensures { (t : CallTurn) → IsCallTurn self.old acts.old t →
            OnOk result (IsCallTurn self.new acts.new (collected_in self.old.phase room ids t)) }
    {
        match self.phase {
            Phase::Awaiting => {
                let waiting = self.open(ids.items.len() as u32)?;
                request(acts, Ask::Tell(What::Collected(ids)))?;
                self.hear_all(acts, waiting, room)
            }
            Phase::Serving | Phase::Ending(_) | Phase::Stopped | Phase::Over => Ok(()),
        }
    }

    /// The function serves a suite of that many tests from now on. What waited is handed out.
    fn open(&mut self, size: u32) -> Result<VecDeque<Option<Order>>, OutOfMemory>
        ensures waited { IfOk result (λ w. w.items ≡ self.old.waiting.items) }
        ensures opened { (c : FunctionCall) → IsCall self.old c →
            OnOk result (IsCall self.new (serving_suite size c)) }
        ensures ready { OnOk result (self.new.queue.items ≡ []) }
    {
        self.stands = vec![in self.alloc; Standing::Free; size as usize]?;
        self.size = size;
        self.queue = VecDeque::new(self.alloc);
        self.next = None;
        self.running = None;
        self.next_log = 2;
        self.phase = Phase::Serving;
        let waiting = std::mem::replace(&mut self.waiting, VecDeque::new(self.alloc));
        Ok(waiting)
    }
}
