// Tests that are asked back.
ghost use Rattle.xd_worker_tests.specs.inner.Stands.{is_true};
ghost use Rattle.std.specs.Prelude.{ℕ, slice_get, slice_set, ◌≡◌, ◌∷◌, [], IfOk, OnOk, List};

use super::RunTests;
use crate::ask::{Acts, Ask, request};
use crate::line_entry::{LineEntry, Standing};
use crate::phase::Ending;
use std::collections::VecDeque;
use xd_edge::{Indices, OutOfMemory};
use xd_journal::What;

/// What becomes of a steal.
#[derive(Drop)]
enum Asked {
    /// A test is beyond the suite, or asked for twice.
    Bad,
    /// Not all of them are in the queue.
    Missing,
    /// All are; the tests that are asked for are marked.
    Marked(Vec<bool>),
}

fn is_marked(marks: &[bool], test: u32) -> bool
    ensures { result ≡ is_true (slice_get marks.now test) }
{
    match marks.get(test as usize) {
        Some(true) => true,
        _ => false,
    }
}

impl RunTests {
    ghost use Rattle.xd_worker_tests.specs.declared.line_entry.LineEntry.{LineEntry};
    ghost use Rattle.xd_worker_tests.specs.declared.phase.Phase.TheVariants.{Serving};
    ghost use Rattle.xd_worker_tests.specs.declared.line_entry.Standing.{Standing};
    ghost use Rattle.xd_worker_tests.specs.declared.line_entry.Standing.TheVariants.{Free};
    ghost use Rattle.xd_worker_tests.specs.Line.{left};
    ghost use Rattle.xd_worker_tests.specs.Turns.{CallTurn, stolen_if};
    ghost use Rattle.xd_worker_tests.specs.inner.Stands.{IsCallTurn, queued_at, IsAsked, AreMarked, TakenOut};

    /// Which tests a steal asks for.
    fn asked_tests(&self, tests: &[u32]) -> Result<Asked, OutOfMemory>
        ensures { IfOk result (IsAsked self.now.stands.items tests.now) }
    {
        let size = self.stands.len();
        let mut marks = vec![in self.alloc; false; size]?;
        let mut all = true;
        for test in tests {
            if *test as usize >= size {
                return Ok(Asked::Bad);
            }
            if is_marked(&marks, *test) {
                return Ok(Asked::Bad);
            }
            marks[*test as usize] = true;
            let queued = self.is_queued(*test);
            all = all && queued;
        }
        if all {
            Ok(Asked::Marked(marks))
        } else {
            Ok(Asked::Missing)
        }
    }

    fn is_queued(&self, test: u32) -> bool
        ensures { result ≡ queued_at self.now.stands.items test }
    {
        match self.stands.get(test as usize) {
            Some(Standing::Queued) => true,
            _ => false,
        }
    }

    fn free(&mut self, test: u32)
        ensures others { self.new ≡ record self.old { stands = self.new.stands } }
        ensures stands { self.new.stands.items ≡ slice_set self.old.stands.items test Free }
    {
        if let Some(standing) = self.stands.get_mut(test as usize) {
            *standing = Standing::Free;
        }
    }

    /// An entry of the queue is taken out where it is marked, and else kept.
    fn sort_out(
        &mut self,
        marks: &[bool],
        entry: LineEntry,
        back: &mut Vec<u32>,
        left: &mut VecDeque<LineEntry>,
    ) -> Result<(), OutOfMemory>
        ensures others { self.new ≡ record self.old { stands = self.new.stands } }
        ensures sorted { (ns : List ℕ) (before : List Standing) (queue rest : List LineEntry) →
            AreMarked marks.now ns → TakenOut ns before queue self.old.stands.items
            (entry ∷ rest) back.old.items left.old.items →
            OnOk result (TakenOut ns before queue self.new.stands.items rest back.new.items
            left.new.items) }
    {
        match entry {
            LineEntry::Test(test) => {
                if is_marked(marks, test) {
                    back.push(test)?;
                    self.free(test);
                } else {
                    left.push_back(entry)?;
                }
            }
            LineEntry::Mark => left.push_back(entry)?,
        }
        Ok(())
    }

    /// The marked tests leave the queue.
    fn take_out(&mut self, marks: &[bool]) -> Result<Vec<u32>, OutOfMemory>
        ensures others { OnOk result
            (self.new ≡ record self.old { queue = self.new.queue; stands = self.new.stands }) }
        ensures taken { (ns : List ℕ) → AreMarked marks.now ns →
            IfOk result (λ back. TakenOut ns self.old.stands.items self.old.queue.items
            self.new.stands.items [] back.items self.new.queue.items) }
    {
        let mut back = Vec::new(self.alloc);
        let mut left = VecDeque::new(self.alloc);
        while let Some(entry) = self.queue.pop_front() {
            self.sort_out(marks, entry, &mut back, &mut left)?;
        }
        self.queue = left;
        Ok(back)
    }

    /// Asked tests go back, where all of them are in the queue.
    pub(super) fn steal(&mut self, acts: &mut Acts, tests: &[u32]) -> Result<(), OutOfMemory>
        ensures { (t : CallTurn) → t.call.phase ≡ Serving → IsCallTurn self.old acts.old t →
            OnOk result (IsCallTurn self.new acts.new (stolen_if tests.now t)) }
    {
        match self.asked_tests(tests)? {
            Asked::Bad => self.end_early(acts, Ending::BadCommand),
            Asked::Missing => {
                let none = Vec::new(self.alloc);
                request(acts, Ask::Tell(What::Back(Indices { items: none })))
            }
            Asked::Marked(marks) => {
                let back = self.take_out(&marks)?;
                request(acts, Ask::Tell(What::Back(Indices { items: back })))
            }
        }
    }
}
