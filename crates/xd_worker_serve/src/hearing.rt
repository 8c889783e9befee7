// What a server takes, one item after another.
ghost use Rattle.std.specs.Prelude.{◌≡◌, ◌≤◌, ℕ, ◌+◌, false, Some, None, length, IfOk, IfErr, IfSome, OnOk, IsSome};
ghost use Rattle.xd_edge.specs.Limits.{most_piece_bytes};
ghost use Rattle.xd_worker_serve.specs.inner.Halts.{CeasesBy, Goes, door_after, over_by};
ghost use Rattle.xd_worker.specs.Inputs.{is_terminate_kind};
ghost use Rattle.xd_worker_serve.specs.inner.Seen.{seen};
ghost use Rattle.xd_worker_serve.specs.inner.Serves.{Beside, RunsTest, ServesSoFar, Setting, beside, nothing, owed_of_link, of_program, to_start};
ghost use Rattle.xd_edge.specs.Clock.{Ticking, Ticks, ticking};
ghost use Rattle.xd_worker_serve.specs.declared.server.Door.TheVariants.{Open};
ghost use Rattle.xd_reader.specs.declared.news.LinkNews.TheVariants as news;
ghost use Rattle.xd_reader.specs.declared.news.LinkStop.TheVariants as link;
ghost use Rattle.xd_worker.specs.Stands.{HasTest, Stood};

use crate::server::{Door, Halt, Server};
use crate::stop::Stop;
use crate::suite::read_suite;
use std::sync::Wait;
use xd_edge::{Blob, Clock, Files, OutOfMemory, Sink, Text, copy_texts};
use xd_frame::{Kind, Message};
use xd_journal::Outcome;
use xd_worker::{WorkerFault, WorkerInput};

impl<N: Sink> Server<N> {
    /// Steps the worker with a message. Gives the path of a suite that is to be read.
    pub fn hear_message(&mut self, message: Message) -> Result<Option<Text>, WorkerFault>
        requires is_open { self.old.door ≡ Open }
        ensures heard { (a : Setting) (now : Beside) →
            ServesSoFar a now (owed_of_link (news.Message message))
            (seen N.sunk N.faults self.old) →
            IfOk result
            (λ path. ServesSoFar a now (to_start path) (seen N.sunk N.faults self.new)) }
        ensures refused { (a : Setting) (now : Beside) →
            ServesSoFar a now (owed_of_link (news.Message message))
            (seen N.sunk N.faults self.old) →
            IfErr result (λ fault. CeasesBy fault a now (seen N.sunk N.faults self.new)) }
        ensures stood { Stood self.old.speaker.core → OnOk result (Stood self.new.speaker.core) }
    {
        let door = door_after(&message, self.door);
        match self.speaker.hear(WorkerInput::Message(message)) {
            Ok(acts) => {
                self.door = door;
                Ok(acts.suite)
            }
            Err(fault) => Err(fault),
        }
    }

    /// Steps the worker with the link's end.
    pub fn hear_end(&mut self) -> Result<(), OutOfMemory>
        requires is_open { self.old.door ≡ Open }
        ensures heard { (a : Setting) (now : Beside) →
            ServesSoFar a now (owed_of_link (news.End link.Ended)) (seen N.sunk N.faults self.old) →
            OnOk result (ServesSoFar a now (to_start None) (seen N.sunk N.faults self.new)) }
        ensures stood { Stood self.old.speaker.core → OnOk result (Stood self.new.speaker.core) }
    {
        let _acts = self.speaker.tell(WorkerInput::LinkEnd)?;
        self.door = Door::Ended;
        Ok(())
    }

    /// Steps the worker with a piece of the running test's output.
    pub fn hear_output(&mut self, piece: Blob) -> Result<(), OutOfMemory>
        requires runs { IsSome self.old.started }
        requires few { length piece ≤ most_piece_bytes }
        ensures heard { (a : Setting) (now : Beside) →
            ServesSoFar a now (of_program (news.Output piece)) (seen N.sunk N.faults self.old) →
            OnOk result (ServesSoFar a now (to_start None) (seen N.sunk N.faults self.new)) }
        ensures stood { Stood self.old.speaker.core → OnOk result (Stood self.new.speaker.core) }
    {
        let _acts = self.speaker.tell(WorkerInput::Output(piece))?;
        Ok(())
    }

    /// Steps the worker with the end of the running test, and how many milliseconds it ran.
    pub fn hear_done(&mut self, outcome: Outcome, ms: u64) -> Result<(), OutOfMemory>
        requires runs { IsSome self.old.started }
        ensures heard { (a : Setting) (files : ℕ) (old new : Ticking) →
            IfSome self.old.started (λ start. Ticks (start + ms) old new) →
            ServesSoFar a (beside files old) (of_program (news.ChildDone outcome))
            (seen N.sunk N.faults self.old) →
            OnOk result (ServesSoFar a (beside files new) (to_start None)
            (seen N.sunk N.faults self.new)) }
        ensures idle { self.new.started ≡ None }
        ensures stood { Stood self.old.speaker.core → OnOk result (Stood self.new.speaker.core) }
    {
        self.started = None;
        let _acts = self.speaker.tell(WorkerInput::ChildDone { outcome, ms })?;
        Ok(())
    }

    /// Reads the suite file of a path, if there is one, and tells the worker.
    pub fn read<F: Files>(&mut self, files: &mut F, path: Option<Text>) -> Result<(), OutOfMemory>
        requires whole { self.old.speaker.is_broken ≡ false }
        ensures read { (a : Setting) (clock : Ticking) → F.held files.old ≡ a.held →
            ServesSoFar a (beside (F.faults files.old) clock) (to_start path)
            (seen N.sunk N.faults self.old) →
            OnOk result (ServesSoFar a (beside (F.faults files.new) clock) (to_start None)
            (seen N.sunk N.faults self.new)) }
        ensures stood { Stood self.old.speaker.core → OnOk result (Stood self.new.speaker.core) }
        ensures kept { F.held files.new ≡ F.held files.old }
    {
        match path {
            Some(path) => {
                self.read_path(files, &path)?;
                Ok(())
            }
            None => Ok(()),
        }
    }

    fn read_path<F: Files>(&mut self, files: &mut F, path: &Text) -> Result<(), OutOfMemory>
        requires whole { self.old.speaker.is_broken ≡ false }
        ensures read { (a : Setting) (clock : Ticking) → F.held files.old ≡ a.held →
            ServesSoFar a (beside (F.faults files.old) clock) (to_start (Some path.now))
            (seen N.sunk N.faults self.old) →
            OnOk result (ServesSoFar a (beside (F.faults files.new) clock) (to_start None)
            (seen N.sunk N.faults self.new)) }
        ensures stood { Stood self.old.speaker.core → OnOk result (Stood self.new.speaker.core) }
        ensures kept { F.held files.new ≡ F.held files.old }
    {
        let suite = read_suite(self.alloc, files, path)?;
        let _acts = self.speaker.tell(suite)?;
        Ok(())
    }

    // Orders the program of a test that is to be started.
    fn order<R: Wait, T: Clock>(
        &mut self,
        rt: &R,
        clock: &mut T,
        test: u32,
    ) -> Result<(), OutOfMemory>
        requires has_test { HasTest self.old.speaker.core test }
        requires rests { self.old.started ≡ None }
        requires whole { self.old.speaker.is_broken ≡ false }
        requires runs { RunsTest test self.old.speaker.core }
        ensures ordered { (a : Setting) (files : ℕ) →
            ServesSoFar a (beside files (ticking (T.moment clock.old) (T.coming clock.old)))
            (to_start None) (seen N.sunk N.faults self.old) →
            OnOk result (ServesSoFar a
            (beside files (ticking (T.moment clock.new) (T.coming clock.new))) nothing
            (seen N.sunk N.faults self.new)) }
        ensures core { self.new.speaker.core ≡ self.old.speaker.core }
    {
        let command = copy_texts(self.alloc, self.speaker.core.command(test))?;
        self.started = Some(clock.now());
        self.orders.put(rt, command);
        Ok(())
    }

    /// After an input: orders the program of a test that is to be started, or says why no more is taken. After a fault
    /// of the sink no test is started.
    pub fn settle<R: Wait, T: Clock>(
        &mut self,
        rt: &R,
        clock: &mut T,
    ) -> Result<Option<Halt>, OutOfMemory>
        requires stood { Stood self.old.speaker.core }
        ensures goes { (a : Setting) (files : ℕ) →
            ServesSoFar a (beside files (ticking (T.moment clock.old) (T.coming clock.old)))
            (to_start None) (seen N.sunk N.faults self.old) →
            IfOk result (λ halt. Goes halt a
            (beside files (ticking (T.moment clock.new) (T.coming clock.new)))
            (seen N.sunk N.faults self.new)) }
        ensures core { self.new.speaker.core ≡ self.old.speaker.core }
    {
        if self.speaker.is_broken {
            return Ok(Some(Halt::At(Stop::WriteFault)));
        }
        match self.speaker.core.runs() {
            None => Ok(self.over()),
            Some(test) => {
                if self.started.is_none() {
                    self.order(rt, clock, test)?;
                }
                Ok(None)
            }
        }
    }

    // Where nothing runs: no more is taken after GATEWAY_TERMINATE and the link's end.
    fn over(&self) -> Option<Halt>
        ensures { result ≡ over_by self.now.door }
    {
        match self.door {
            Door::Open => None,
            Door::Terminated => Some(Halt::At(Stop::Terminated)),
            Door::Ended => Some(Halt::At(Stop::Ended)),
        }
    }
}

// After GATEWAY_TERMINATE no message is taken.
fn door_after(message: &Message, door: Door) -> Door
    ensures { result ≡ door_after (is_terminate_kind message.now.kind) door }
{
    match message.kind {
        Kind::Terminate => Door::Terminated,
        Kind::Status
        | Kind::Reconfigure
        | Kind::Exec
        | Kind::Item
        | Kind::Close
        | Kind::CloseError
        | Kind::LastMessage => door,
    }
}
