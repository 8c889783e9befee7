// The running test.
ghost use Rattle.std.specs.Prelude.{◌≡◌, OnOk, Some};

use super::{RunTests, Running};
use crate::ask::{Acts, Ask, request};
use crate::phase::Phase;
use xd_edge::{Blob, OutOfMemory};
use xd_journal::{MOST_OF_ONE, Outcome, What};

impl RunTests {
    ghost use Rattle.xd_worker_tests.specs.Turns.{CallTurn, done_of, told_done, put_out, output_fed};
    ghost use Rattle.xd_worker_tests.specs.inner.Stands.{IsCallTurn, test_of_running, Moves};

    /// The running test ended.
    pub(super) fn complete(
        &mut self,
        acts: &mut Acts,
        outcome: Outcome,
        ms: u64,
        room: bool,
    ) -> Result<(), OutOfMemory>
        ensures { (t : CallTurn) → IsCallTurn self.old acts.old t →
            OnOk result (IsCallTurn self.new acts.new
            (done_of (test_of_running self.old.running) self.old.phase room outcome ms t)) }
    {
        match self.running {
            None => Ok(()),
            Some(running) => match self.phase {
                Phase::Awaiting | Phase::Over => Ok(()),
                Phase::Stopped => {
                    self.running = None;
                    Ok(())
                }
                Phase::Serving => {
                    self.tell_done(acts, running, outcome, ms)?;
                    self.settle(acts, room)
                }
                Phase::Ending(ending) => {
                    self.tell_done(acts, running, outcome, ms)?;
                    let text = self.ending(ending)?;
                    self.finish(acts, text)
                }
            },
        }
    }

    fn tell_done(
        &mut self,
        acts: &mut Acts,
        running: Running,
        outcome: Outcome,
        ms: u64,
    ) -> Result<(), OutOfMemory>
        ensures { (t : CallTurn) → self.old.running ≡ Some running →
            IsCallTurn self.old acts.old t →
            OnOk result (Moves self.new acts.new (told_done running.test outcome ms t)) }
    {
        let close = Ask::CloseLog { log: running.log };
        let done = What::Done {
            index: running.test,
            outcome,
            ms,
        };
        request(acts, close)?;
        request(acts, Ask::Tell(done))?;
        self.running = None;
        Ok(())
    }

    /// A piece of the running test's output, of which its log takes 8,192 bytes in all.
    fn put_piece(
        &mut self,
        acts: &mut Acts,
        running: Running,
        bytes: Blob,
    ) -> Result<(), OutOfMemory>
        ensures { (t : CallTurn) → self.old.running ≡ Some running →
            IsCallTurn self.old acts.old t →
            OnOk result (IsCallTurn self.new acts.new (put_out bytes t)) }
    {
        let all = bytes.as_slice();
        let left = (MOST_OF_ONE as usize).saturating_sub(self.sent);
        let piece = if all.len() < left { all } else { &all[..left] };
        if piece.is_empty() {
            return Ok(());
        }
        request(
            acts,
            Ask::Piece {
                log: running.log,
                bytes: Blob::of(self.alloc, piece)?,
            },
        )?;
        self.sent += piece.len();
        Ok(())
    }

    pub(super) fn hear_output(&mut self, acts: &mut Acts, bytes: Blob) -> Result<(), OutOfMemory>
        ensures { (t : CallTurn) → IsCallTurn self.old acts.old t →
            OnOk result (IsCallTurn self.new acts.new
            (output_fed (test_of_running self.old.running) self.old.phase bytes t)) }
    {
        match self.running {
            None => Ok(()),
            Some(running) => match self.phase {
                Phase::Stopped => Ok(()),
                Phase::Awaiting | Phase::Serving | Phase::Ending(_) | Phase::Over => self.put_piece(
                    acts, running, bytes,
                ),
            },
        }
    }
}
