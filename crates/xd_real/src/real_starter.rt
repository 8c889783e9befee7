// Real links.
ghost use Rattle.std.specs.Prelude.{◌≡◌, [], None, false, true, length, IfOk, IfSome, OnOk, OnErr, is_ok};
ghost use Rattle.xd_edge.specs.Faults.{Counted};

use crate::stream::{accept, connect, shut};
use crate::worker::worker_of;
use crate::{Inlet, Outlet, OwnOutput, RealSink, Stoppable, StreamOutput};
use os::FromRawFd;
use std::alloc::{AllocError, Global};
use std::fs::Files;
use std::io::{self, ErrorKind, PipeWriter, Stdin};
use std::net::{Net, OpenStream, Shutdown};
use std::os::fd::OwnedFd;
use std::process::{Child, ChildStdin, Command, OpenProcess, Processes};
use std::sync::Wait;
use std::time::Clock;
use xd_edge::{Failed, Text, raise};
use xd_link::{InSource, Place, StartFault, Started, Starter};

/// What a real link is read from.
pub type RealSource<H> = InSource<
    Inlet<Stoppable<Stdin>, <<H as Processes>::Started as OpenProcess>::Stdout, <H as Net>::Stream>,
>;

// A link of the system.
type RealLink<'a, H> = Started<RealSource<H>, RealSink<'a, H>>;

/// The links of the system, which tell nothing: children of the program, TCP streams, and the program's own standard input
/// and output.
#[derive(Drop)]
pub struct RealStarter<'a, H: Files + Processes + Net> {
    rt: &'a H,
    program: Text,
    input: Stdin,
    // By the numbers of the links.
    links: Vec<Kept<H::Started, H::Stream>>,
    pub faults: u64,
}

// What is kept of a link.
#[derive(Drop)]
enum Kept<P: OpenProcess + Drop, S: OpenStream + Drop> {
    Child(Child<P>),
    // Where it is dropped, the own streams are read and written no more.
    Own(Option<PipeWriter>),
    Stream(S),
}

// A link that was opened, before it is kept under its number. Nothing was read from it or written to it.
#[derive(Drop)]
struct Opened<'a, H: Files + Processes + Net> {
    kept: Kept<H::Started, H::Stream>,
    source: RealSource<H>,
    sink: RealSink<'a, H>,
    ghost not_ended: { source.is_ended ≡ false },
    ghost no_reads: { source.faults ≡ 0 },
    ghost no_writes: { sink.faults ≡ 0 },
}

impl<'a, H: Files + Processes + Net + Clock> RealStarter<'a, H> {
    ghost use Rattle.xd_link.specs.Starter.{has_child, link_not_failed};
    ghost use Rattle.xd_real.specs.Kept.{KeepsOneMore, is_child};

    /// It has started nothing, and has not failed yet. A child runs this program with the one word `worker`. A name
    /// without a slash is looked for in the child's PATH; a relative path is read from the child's folder.
    pub fn new(rt: &'a H, alloc: Global, program: Text, input: Stdin) -> RealStarter<'a, H>
        ensures kept { result.links.items ≡ [] }
        ensures count { result.faults ≡ 0 }
    {
        RealStarter {
            rt,
            program,
            input,
            links: Vec::new(alloc),
            faults: 0,
        }
    }

    fn open_child(&self, command: Command) -> Result<Option<Opened<'a, H>>, AllocError>
        ensures { IfOk result (λ r. IfSome r (λ o. is_child o.kept ≡ true)) }
    {
        let mut command = command;
        let Some(mut child) = given(command.spawn(self.rt))? else {
            return Ok(None);
        };
        let (Some(input), Some(output)) = (child.stdin.take(), child.stdout.take()) else {
            return Ok(None);
        };
        Ok(Some(Opened {
            kept: Kept::Child(child),
            source: InSource::new(Inlet::Child(Some(output))),
            sink: RealSink::new(self.rt, Outlet::Child(input)),
        }))
    }

    fn open_own(&self, alloc: Global) -> Result<Option<Opened<'a, H>>, AllocError>
        ensures { IfOk result (λ r. IfSome r (λ o. is_child o.kept ≡ false)) }
    {
        let (Ok((closed, go)), Ok((killed, kill))) = (io::pipe(self.rt), io::pipe(self.rt)) else {
            return Ok(None);
        };
        let Ok(killed_too) = killed.try_clone() else {
            return Ok(None);
        };
        let own = OwnOutput::new(alloc, own_output(), go, killed_too)?;
        let input = Stoppable {
            input: self.input,
            closed,
            killed,
        };
        Ok(Some(Opened {
            kept: Kept::Own(Some(kill)),
            source: InSource::new(Inlet::Own(input)),
            sink: RealSink::new(self.rt, Outlet::Own(own)),
        }))
    }

    // A close of the sink ends these directions of the stream.
    fn open_stream(
        &self,
        alloc: Global,
        stream: io::Result<H::Stream>,
        closes: Shutdown,
    ) -> Result<Option<Opened<'a, H>>, AllocError>
        ensures { IfOk result (λ r. IfSome r (λ o. is_child o.kept ≡ false)) }
    {
        let Some(stream) = given(stream)? else {
            return Ok(None);
        };
        let (Ok(reading), Ok(writing)) = (stream.try_clone(), stream.try_clone()) else {
            return Ok(None);
        };
        // Each flush sends at once, and does not wait until what was sent before has arrived.
        if stream.set_nodelay(true).is_err() {
            return Ok(None);
        }
        let output = StreamOutput::new(alloc, writing, closes)?;
        Ok(Some(Opened {
            kept: Kept::Stream(stream),
            source: InSource::new(Inlet::Stream(reading)),
            sink: RealSink::new(self.rt, Outlet::Stream(output)),
        }))
    }

    // `None` where the system refuses it.
    fn open(&self, alloc: Global, place: &Place) -> Result<Option<Opened<'a, H>>, AllocError>
        ensures { IfOk result (λ r. IfSome r (λ o. is_child o.kept ≡ has_child place.now)) }
    {
        match place {
            Place::Popen { chdir, env } => {
                let command = worker_of(alloc, &self.program, chdir, env)?;
                self.open_child(command)
            }
            Place::Own => self.open_own(alloc),
            Place::Socket { host, port } => {
                let stream = connect(self.rt, host, *port);
                self.open_stream(alloc, stream, Shutdown::Write)
            }
            Place::Listen { host, port } => {
                let stream = accept(self.rt, host, *port);
                self.open_stream(alloc, stream, Shutdown::Both)
            }
        }
    }

    /// Opens a link and keeps it under the next number.
    fn start_link(&mut self, alloc: Global, place: &Place) -> Result<RealLink<'a, H>, StartFault>
        ensures number { IfOk result (λ l. l.link ≡ length self.old.links.items) }
        ensures kept { OnOk result
            (KeepsOneMore place.now self.old.links.items self.new.links.items) }
        ensures none_kept { OnErr result (self.new.links.items ≡ self.old.links.items) }
        ensures not_ended { IfOk result (λ l. l.source.is_ended ≡ false) }
        ensures no_reads { IfOk result (λ l. l.source.faults ≡ 0) }
        ensures no_writes { IfOk result (λ l. l.sink.faults ≡ 0) }
        ensures counted { Counted (link_not_failed result) self.old.faults self.new.faults }
    {
        self.links.reserve(1)?;
        let Ok(link) = u32::try_from(self.links.len()) else {
            raise(&mut self.faults);
            return Err(StartFault::Failed);
        };
        let Some(Opened { kept, source, sink }) = self.open(alloc, place)? else {
            raise(&mut self.faults);
            return Err(StartFault::Failed);
        };
        self.links.push_reserved(kept);
        Ok(Started { link, source, sink })
    }
}

// What the system gave, or `None` where it refused it for another reason than memory.
fn given<T>(answer: io::Result<T>) -> Result<Option<T>, AllocError> {
    match answer {
        Ok(value) => Ok(Some(value)),
        Err(fault) if fault.kind() == ErrorKind::OutOfMemory => Err(AllocError),
        Err(_) => Ok(None),
    }
}

// Whether the system did so.
fn kill_link<P: OpenProcess + Drop, S: OpenStream + Drop>(kept: &mut Kept<P, S>) -> bool {
    match kept {
        Kept::Child(child) => child.kill().is_ok(),
        Kept::Own(kill) => {
            *kill = None;
            true
        }
        Kept::Stream(stream) => shut(stream, Shutdown::Both).is_ok(),
    }
}

// Whether a child, where there is one, could be waited for.
fn reap_link<P: OpenProcess + Drop, S: OpenStream + Drop>(kept: &mut Kept<P, S>) -> bool {
    match kept {
        Kept::Child(child) => child.wait().is_ok(),
        Kept::Own(_) | Kept::Stream(_) => true,
    }
}

// The standard output, which nothing else writes to or closes.
fn own_output() -> ChildStdin {
    ChildStdin::from(unsafe { OwnedFd::from_raw_fd(1) })
}

impl<'a, H: Files + Processes + Net + Clock> Starter for RealStarter<'a, H> {
    ghost use Rattle.xd_real.specs.Kept.{ChangesOnly};

    type Src = RealSource<H>;

    type Snk = RealSink<'a, H>;

    ghost faults = { λ s. s.faults };

    ghost begun = { λ _. None };

    fn start(&mut self, alloc: Global, place: &Place) -> Result<RealLink<'a, H>, StartFault> {
        let link = self.start_link(alloc, place)?;
        Ok(link)
    }

    /// Where there is no child, a read ends, and each write fails, also one that waits. The other side sees the end of a
    /// stream at once, and that of the own streams when the sink is closed.
    #[tactic(auto, using(crate::proofs::Keeping::changes_one))]
    fn kill(&mut self, link: u32) -> Result<(), Failed>
        ensures kept { ChangesOnly link self.old.links.items self.new.links.items }
        ensures counted { Counted (is_ok result) self.old.faults self.new.faults }
    {
        let link = link as usize;
        if link >= self.links.len() {
            return Ok(());
        }
        if !kill_link(&mut self.links[link]) {
            raise(&mut self.faults);
            return Err(Failed);
        }
        Ok(())
    }

    #[tactic(auto, using(crate::proofs::Keeping::changes_one))]
    fn reap<R: Wait>(&mut self, _rt: &R, link: u32) -> Result<(), Failed>
        ensures kept { ChangesOnly link self.old.links.items self.new.links.items }
        ensures counted { Counted (is_ok result) self.old.faults self.new.faults }
    {
        let link = link as usize;
        if link >= self.links.len() {
            return Ok(());
        }
        if !reap_link(&mut self.links[link]) {
            raise(&mut self.faults);
            return Err(Failed);
        }
        Ok(())
    }
}
