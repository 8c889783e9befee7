// The loop of a server: what it takes of its desk, one item after another.
ghost use Rattle.std.specs.Prelude.{◌≡◌, ℕ, Ok, Some, None, IfOk};
ghost use Rattle.xd_worker_serve.specs.inner.Halts.{Goes, unless_shut};
ghost use Rattle.xd_worker_serve.specs.inner.Seen.{is_door_shut, seen};
ghost use Rattle.xd_worker_serve.specs.inner.Serves.{Beside, ServesSoFar, Setting, beside, nothing, of_inbox, owed_of_link, of_program, to_start};
ghost use Rattle.xd_edge.specs.Clock.{ticking};
ghost use Rattle.xd_reader.specs.declared.news.LinkNews.TheVariants as news;
ghost use Rattle.xd_reader.specs.declared.news.LinkStop.TheVariants as link;
ghost use Rattle.xd_worker.specs.Stands.{Stood};

use crate::server::{Halt, Server};
use crate::stop::Stop;
use std::sync::Wait;
use xd_edge::{Blob, Clock, Files, MAX_PIECE_BYTES, OutOfMemory, Sink, Text};
use xd_frame::Message;
use xd_journal::Outcome;
use xd_reader::{LinkNews, LinkStop};
use xd_worker::WorkerFault;

impl<N: Sink> Server<N> {
    /// Takes what comes, until no more is to be taken; `Astray` where an item came that no job puts.
    pub fn listen<R: Wait, F: Files, T: Clock>(
        &mut self,
        rt: &R,
        files: &mut F,
        clock: &mut T,
    ) -> Result<Halt, OutOfMemory>
        requires stood { Stood self.old.speaker.core }
        ensures goes { (a : Setting) → F.held files.old ≡ a.held →
            ServesSoFar a (beside (F.faults files.old)
            (ticking (T.moment clock.old) (T.coming clock.old))) nothing
            (seen N.sunk N.faults self.old) →
            IfOk result (λ halt. Goes (Some halt) a
            (beside (F.faults files.new) (ticking (T.moment clock.new) (T.coming clock.new)))
            (seen N.sunk N.faults self.new)) }
        ensures kept { F.held files.new ≡ F.held files.old }
    {
        for _ in rt.forever() {
            let (inbox, news) = self.desk.wait(rt);
            if let Some(halt) = self.take(rt, files, clock, inbox, news)? {
                return Ok(halt);
            }
        }
        unreachable!()
    }

    // Takes an item of an inbox. Says why no more is to be taken, if it is not.
    fn take<R: Wait, F: Files, T: Clock>(
        &mut self,
        rt: &R,
        files: &mut F,
        clock: &mut T,
        inbox: u32,
        news: LinkNews,
    ) -> Result<Option<Halt>, OutOfMemory>
        requires stood { Stood self.old.speaker.core }
        ensures goes { (a : Setting) → F.held files.old ≡ a.held →
            ServesSoFar a (beside (F.faults files.old)
            (ticking (T.moment clock.old) (T.coming clock.old))) (of_inbox inbox news)
            (seen N.sunk N.faults self.old) →
            IfOk result (λ halt. Goes halt a
            (beside (F.faults files.new) (ticking (T.moment clock.new) (T.coming clock.new)))
            (seen N.sunk N.faults self.new)) }
        ensures stood { result ≡ Ok None → Stood self.new.speaker.core }
        ensures kept { F.held files.new ≡ F.held files.old }
    {
        if inbox == 0 {
            let halt = self.take_of_link(rt, files, clock, news)?;
            Ok(halt)
        } else {
            let halt = self.take_of_program(rt, clock, news)?;
            Ok(halt)
        }
    }

    fn take_of_link<R: Wait, F: Files, T: Clock>(
        &mut self,
        rt: &R,
        files: &mut F,
        clock: &mut T,
        news: LinkNews,
    ) -> Result<Option<Halt>, OutOfMemory>
        requires stood { Stood self.old.speaker.core }
        ensures goes { (a : Setting) → F.held files.old ≡ a.held →
            ServesSoFar a (beside (F.faults files.old)
            (ticking (T.moment clock.old) (T.coming clock.old))) (owed_of_link news)
            (seen N.sunk N.faults self.old) →
            IfOk result (λ halt. Goes halt a
            (beside (F.faults files.new) (ticking (T.moment clock.new) (T.coming clock.new)))
            (seen N.sunk N.faults self.new)) }
        ensures stood { result ≡ Ok None → Stood self.new.speaker.core }
        ensures kept { F.held files.new ≡ F.held files.old }
    {
        match news {
            LinkNews::Message(message) => {
                let halt = self.take_message(rt, files, clock, message)?;
                Ok(halt)
            }
            LinkNews::End(stop) => {
                let halt = self.take_end(rt, clock, stop)?;
                Ok(halt)
            }
            LinkNews::Output(_) => Ok(self.unless_shut(Halt::Astray)),
            LinkNews::ChildDone(_) => Ok(self.unless_shut(Halt::Astray)),
        }
    }

    // No more is taken, for this reason; but where messages are taken no more, there is none.
    fn unless_shut(&self, halt: Halt) -> Option<Halt>
        ensures { result ≡ unless_shut (is_door_shut self.now.door) halt }
    {
        if self.door.is_shut() {
            None
        } else {
            Some(halt)
        }
    }

    fn take_message<R: Wait, F: Files, T: Clock>(
        &mut self,
        rt: &R,
        files: &mut F,
        clock: &mut T,
        message: Message,
    ) -> Result<Option<Halt>, OutOfMemory>
        requires stood { Stood self.old.speaker.core }
        ensures goes { (a : Setting) → F.held files.old ≡ a.held →
            ServesSoFar a (beside (F.faults files.old)
            (ticking (T.moment clock.old) (T.coming clock.old)))
            (owed_of_link (news.Message message)) (seen N.sunk N.faults self.old) →
            IfOk result (λ halt. Goes halt a
            (beside (F.faults files.new) (ticking (T.moment clock.new) (T.coming clock.new)))
            (seen N.sunk N.faults self.new)) }
        ensures stood { result ≡ Ok None → Stood self.new.speaker.core }
        ensures kept { F.held files.new ≡ F.held files.old }
    {
        if self.door.is_shut() {
            return Ok(None);
        }
        match self.hear_message(message) {
            Ok(path) => {
                let halt = self.follow(rt, files, clock, path)?;
                Ok(halt)
            }
            Err(WorkerFault::Link(fault)) => Ok(Some(Halt::At(Stop::Message(fault)))),
            Err(WorkerFault::OutOfMemory) => Err(OutOfMemory),
        }
    }

    // After a message: reads the suite of a path, if there is one, and settles. After a fault of the sink it does
    // neither.
    fn follow<R: Wait, F: Files, T: Clock>(
        &mut self,
        rt: &R,
        files: &mut F,
        clock: &mut T,
        path: Option<Text>,
    ) -> Result<Option<Halt>, OutOfMemory>
        requires stood { Stood self.old.speaker.core }
        ensures goes { (a : Setting) → F.held files.old ≡ a.held →
            ServesSoFar a (beside (F.faults files.old)
            (ticking (T.moment clock.old) (T.coming clock.old))) (to_start path)
            (seen N.sunk N.faults self.old) →
            IfOk result (λ halt. Goes halt a
            (beside (F.faults files.new) (ticking (T.moment clock.new) (T.coming clock.new)))
            (seen N.sunk N.faults self.new)) }
        ensures stood { result ≡ Ok None → Stood self.new.speaker.core }
        ensures kept { F.held files.new ≡ F.held files.old }
    {
        if self.speaker.is_broken {
            return Ok(Some(Halt::At(Stop::WriteFault)));
        }
        self.read(files, path)?;
        let halt = self.settle(rt, clock)?;
        Ok(halt)
    }

    // The reader puts no more.
    fn take_end<R: Wait, T: Clock>(
        &mut self,
        rt: &R,
        clock: &mut T,
        stop: LinkStop,
    ) -> Result<Option<Halt>, OutOfMemory>
        requires stood { Stood self.old.speaker.core }
        ensures goes { (a : Setting) (files : ℕ) →
            ServesSoFar a (beside files (ticking (T.moment clock.old) (T.coming clock.old)))
            (owed_of_link (news.End stop)) (seen N.sunk N.faults self.old) →
            IfOk result (λ halt. Goes halt a
            (beside files (ticking (T.moment clock.new) (T.coming clock.new)))
            (seen N.sunk N.faults self.new)) }
        ensures stood { result ≡ Ok None → Stood self.new.speaker.core }
    {
        self.link_stop = Some(stop);
        match stop {
            LinkStop::Ended => {
                let halt = self.end(rt, clock)?;
                Ok(halt)
            }
            LinkStop::Cut => Ok(self.unless_shut(Halt::At(Stop::Cut))),
            LinkStop::Garbled(fault) => Ok(self.unless_shut(Halt::At(Stop::Header(fault)))),
            LinkStop::BadGreeting(_) => Ok(self.unless_shut(Halt::Astray)),
            LinkStop::ReadFault => Ok(self.unless_shut(Halt::At(Stop::ReadFault))),
            LinkStop::OutOfMemory => Err(OutOfMemory),
        }
    }

    // The link ended at a message's edge.
    fn end<R: Wait, T: Clock>(&mut self, rt: &R, clock: &mut T) -> Result<Option<Halt>, OutOfMemory>
        requires stood { Stood self.old.speaker.core }
        ensures goes { (a : Setting) (files : ℕ) →
            ServesSoFar a (beside files (ticking (T.moment clock.old) (T.coming clock.old)))
            (owed_of_link (news.End link.Ended)) (seen N.sunk N.faults self.old) →
            IfOk result (λ halt. Goes halt a
            (beside files (ticking (T.moment clock.new) (T.coming clock.new)))
            (seen N.sunk N.faults self.new)) }
        ensures stood { result ≡ Ok None → Stood self.new.speaker.core }
    {
        if self.door.is_shut() {
            return Ok(None);
        }
        self.hear_end()?;
        let halt = self.settle(rt, clock)?;
        Ok(halt)
    }

    fn take_of_program<R: Wait, T: Clock>(
        &mut self,
        rt: &R,
        clock: &mut T,
        news: LinkNews,
    ) -> Result<Option<Halt>, OutOfMemory>
        requires stood { Stood self.old.speaker.core }
        ensures goes { (a : Setting) (files : ℕ) →
            ServesSoFar a (beside files (ticking (T.moment clock.old) (T.coming clock.old)))
            (of_program news) (seen N.sunk N.faults self.old) →
            IfOk result (λ halt. Goes halt a
            (beside files (ticking (T.moment clock.new) (T.coming clock.new)))
            (seen N.sunk N.faults self.new)) }
        ensures stood { result ≡ Ok None → Stood self.new.speaker.core }
    {
        match news {
            LinkNews::Output(piece) => {
                let halt = self.take_output(rt, clock, piece)?;
                Ok(halt)
            }
            LinkNews::ChildDone(outcome) => {
                let halt = self.take_done(rt, clock, outcome)?;
                Ok(halt)
            }
            LinkNews::End(stop) => {
                let halt = self.take_runner_end(stop)?;
                Ok(Some(halt))
            }
            LinkNews::Message(_) => Ok(Some(Halt::Astray)),
        }
    }

    // A runner puts an end only where memory ran out, and then its program runs no more.
    fn take_runner_end(&mut self, stop: LinkStop) -> Result<Halt, OutOfMemory>
        ensures goes { (a : Setting) (now : Beside) →
            ServesSoFar a now (of_program (news.End stop)) (seen N.sunk N.faults self.old) →
            IfOk result (λ halt. Goes (Some halt) a now (seen N.sunk N.faults self.new)) }
    {
        match stop {
            LinkStop::OutOfMemory => {
                self.started = None;
                Err(OutOfMemory)
            }
            _ => Ok(Halt::Astray),
        }
    }

    fn take_output<R: Wait, T: Clock>(
        &mut self,
        rt: &R,
        clock: &mut T,
        piece: Blob,
    ) -> Result<Option<Halt>, OutOfMemory>
        requires stood { Stood self.old.speaker.core }
        ensures goes { (a : Setting) (files : ℕ) →
            ServesSoFar a (beside files (ticking (T.moment clock.old) (T.coming clock.old)))
            (of_program (news.Output piece)) (seen N.sunk N.faults self.old) →
            IfOk result (λ halt. Goes halt a
            (beside files (ticking (T.moment clock.new) (T.coming clock.new)))
            (seen N.sunk N.faults self.new)) }
        ensures stood { result ≡ Ok None → Stood self.new.speaker.core }
    {
        if self.started.is_none() {
            return Ok(Some(Halt::Astray));
        }
        if piece.as_slice().len() > MAX_PIECE_BYTES {
            return Ok(Some(Halt::Astray));
        }
        self.hear_output(piece)?;
        let halt = self.settle(rt, clock)?;
        Ok(halt)
    }

    fn take_done<R: Wait, T: Clock>(
        &mut self,
        rt: &R,
        clock: &mut T,
        outcome: Outcome,
    ) -> Result<Option<Halt>, OutOfMemory>
        requires stood { Stood self.old.speaker.core }
        ensures goes { (a : Setting) (files : ℕ) →
            ServesSoFar a (beside files (ticking (T.moment clock.old) (T.coming clock.old)))
            (of_program (news.ChildDone outcome)) (seen N.sunk N.faults self.old) →
            IfOk result (λ halt. Goes halt a
            (beside files (ticking (T.moment clock.new) (T.coming clock.new)))
            (seen N.sunk N.faults self.new)) }
        ensures stood { result ≡ Ok None → Stood self.new.speaker.core }
    {
        let Some(start) = self.started else {
            return Ok(Some(Halt::Astray));
        };
        let ms = clock.now().saturating_sub(start);
        self.hear_done(outcome, ms)?;
        let halt = self.settle(rt, clock)?;
        Ok(halt)
    }
}
