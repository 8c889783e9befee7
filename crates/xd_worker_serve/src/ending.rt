// How a server ends: what still comes is taken and dropped.
ghost use Rattle.std.specs.Prelude.{◌≡◌, ℕ, Option, Some, None};
ghost use Rattle.xd_edge.specs.Sink.{Sunk};
ghost use Rattle.xd_worker_serve.specs.Ends.{Closes};
ghost use Rattle.xd_worker_serve.specs.inner.Halts.{Goes, at_sink, is_short_by, noted_end, still_started};
ghost use Rattle.xd_worker_serve.specs.inner.Seen.{seen};
ghost use Rattle.xd_worker_serve.specs.inner.Serves.{Beside, Setting};
ghost use Rattle.xd_worker_serve.specs.declared.server.Halt.{Halt};

use crate::server::Server;
use std::sync::Wait;
use xd_edge::Sink;
use xd_reader::{LinkNews, LinkStop};

impl<N: Sink> Server<N> {
    /// Closes the sink for good. Says whether it could be.
    pub fn close(&mut self) -> bool
        ensures closes { Closes result (N.sunk self.old.speaker.sink) (N.sunk self.new.speaker.sink)
            (N.faults self.old.speaker.sink) (N.faults self.new.speaker.sink) }
        ensures rest { self.new ≡ record (self.old)
            { speaker = record (self.old.speaker) { sink = self.new.speaker.sink } } }
    {
        self.speaker.sink.close().is_ok()
    }

    /// Takes and drops what comes, until the reader's end and the end of the running test were taken, so that neither job
    /// waits for room. Gives the reader's end.
    pub fn drain<R: Wait>(&mut self, rt: &R) -> LinkStop
        ensures goes { (a : Setting) (now : Beside) (halt : Halt) (sunk : Option Sunk)
            (faults : ℕ) → Goes (Some halt) a now
            (at_sink sunk faults (seen N.sunk N.faults self.old)) →
            Goes (Some halt) a now (at_sink sunk faults (seen N.sunk N.faults self.new)) }
        ensures ended { self.new.link_stop ≡ Some result }
        ensures idle { self.new.started ≡ None }
        ensures speaker { self.new.speaker ≡ self.old.speaker }
        ensures orders { self.new.orders ≡ self.old.orders }
    {
        for _ in rt.forever() {
            if self.started.is_none() {
                if let Some(stop) = self.link_stop {
                    return stop;
                }
            }
            self.drop_next(rt);
        }
        unreachable!()
    }

    // Takes the next item, and drops it.
    fn drop_next<R: Wait>(&mut self, rt: &R)
        ensures goes { (a : Setting) (now : Beside) (halt : Halt) (sunk : Option Sunk)
            (faults : ℕ) → Goes (Some halt) a now
            (at_sink sunk faults (seen N.sunk N.faults self.old)) →
            Goes (Some halt) a now (at_sink sunk faults (seen N.sunk N.faults self.new)) }
        ensures speaker { self.new.speaker ≡ self.old.speaker }
        ensures orders { self.new.orders ≡ self.old.orders }
    {
        let (inbox, news) = self.desk.wait(rt);
        self.link_stop = noted_end(inbox, &news, self.link_stop);
        self.started = still_started(inbox, &news, self.started);
        self.is_short = is_short_by(inbox, &news, self.is_short);
    }
}

// The reader's end, where this item is one.
fn noted_end(inbox: u32, news: &LinkNews, old: Option<LinkStop>) -> Option<LinkStop>
    ensures { result ≡ noted_end inbox news.now old }
{
    if inbox > 0 {
        return old;
    }
    match news {
        LinkNews::End(stop) => Some(*stop),
        LinkNews::Message(_) | LinkNews::Output(_) | LinkNews::ChildDone(_) => old,
    }
}

// The moment at which the running test was started, if this item is not its end.
fn still_started(inbox: u32, news: &LinkNews, old: Option<u64>) -> Option<u64>
    ensures { result ≡ still_started inbox news.now old }
{
    if inbox == 0 {
        return old;
    }
    match news {
        LinkNews::End(_) | LinkNews::ChildDone(_) => None,
        LinkNews::Message(_) | LinkNews::Output(_) => old,
    }
}

// Whether a job ran out of memory.
fn is_short_by(inbox: u32, news: &LinkNews, old: bool) -> bool
    ensures { result ≡ is_short_by inbox news.now old }
{
    match news {
        LinkNews::End(LinkStop::OutOfMemory) => true,
        LinkNews::End(_) if inbox > 0 => true,
        LinkNews::End(_) => old,
        LinkNews::Message(_) | LinkNews::Output(_) | LinkNews::ChildDone(_) => old,
    }
}
