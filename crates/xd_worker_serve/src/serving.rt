// A link that is served to its end.
ghost use Rattle.std.specs.Prelude.{◌≡◌, ℕ, false, not, [], ◌∷◌, Option, Some, None, IfOk};
ghost use Rattle.xd_edge.specs.Files.{Held};
ghost use Rattle.xd_link.specs.Spring.{spring};
ghost use Rattle.xd_post.specs.Mails.{mails};
ghost use Rattle.xd_post.specs.Post.{put, ring_of_sender};
ghost use Rattle.xd_worker_serve.specs.Complete.{ServedToEnd};
ghost use Rattle.xd_worker_serve.specs.Ends.{scene};
ghost use Rattle.xd_worker_serve.specs.inner.Seen.{seen};
ghost use Rattle.xd_worker_serve.specs.inner.Serves.{ServesSoFar, beside, nothing, setting};
ghost use Rattle.xd_worker_serve.specs.Spoke.{Spoke, voice};
ghost use Rattle.xd_edge.specs.Clock.{Ticking, ticking};
ghost use Rattle.xd_worker.specs.Stands.{Stood};

use crate::finishing::{finish, unserved};
use crate::server::{Door, Server};
use crate::speaker::Speaker;
use std::alloc::Global;
use std::sync::Wait;
use xd_crew::Crew;
use xd_edge::{Children, Clock, Files, OutOfMemory, Sink, Texts};
use xd_link::{Source, Started};
use xd_post::{Bell, Desk, Sender, mailbox};
use xd_reader::{LinkNews, Reader};
use xd_worker_runner::{Runner, RunnerEnd};

// How many items a mailbox holds.
const ROOM: usize = 8;

/// What became of a link that was served.
#[derive(Drop)]
pub struct ServeEnd<S: Source + Drop, N: Sink + Drop, K: Children> {
    /// The exit status: 0 where GATEWAY_TERMINATE came or the link ended at a message's edge, else 3.
    pub status: u8,
    /// The link's source.
    pub source: S,
    /// The link's sink, which is closed.
    pub sink: N,
    /// The programs that were handed in.
    pub children: K,
}

// A server that has greeted, and the ends of its mailboxes that its jobs take.
#[derive(Drop)]
struct Opened<N: Sink + Drop> {
    server: Server<N>,
    from_link: Sender<LinkNews>,
    from_programs: Sender<LinkNews>,
    orders: Desk<Texts>,
}

fn open<N: Sink + Drop>(alloc: Global, sink: N) -> Result<Opened<N>, OutOfMemory>
    ensures spoke { (held : Option Held) (files : ℕ) →
        IfOk result (λ o. Spoke held [] [] (not o.server.speaker.is_broken)
        (voice (N.sunk sink) (N.faults sink) files)
        (voice (N.sunk o.server.speaker.sink) (N.faults o.server.speaker.sink) files)) }
    ensures serves { (held : Option Held) (files : ℕ) (clock : Ticking) →
        IfOk result (λ o. o.server.speaker.is_broken ≡ false →
        ServesSoFar (setting held (N.sunk sink) (N.faults sink) files clock
        (ring_of_sender o.from_link) (ring_of_sender o.from_programs)
        (ring_of_sender o.server.orders)) (beside files clock) nothing
        (seen N.sunk N.faults o.server)) }
    ensures fresh { IfOk result (λ o. (put o.from_link ≡ []) × (put o.from_programs ≡ [])
        × (put o.server.orders ≡ [])
        × (mails o.orders ≡ Some (ring_of_sender o.server.orders, []) ∷ [])) }
    ensures stood { IfOk result (λ o. Stood o.server.speaker.core) }
{
    let mut desk = Desk::new(alloc, Bell::new(alloc)?);
    let (from_link, inbox) = mailbox(alloc, ROOM, desk.bell())?;
    desk.add(inbox)?;
    let (from_programs, inbox) = mailbox(alloc, ROOM, desk.bell())?;
    desk.add(inbox)?;
    let mut theirs = Desk::new(alloc, Bell::new(alloc)?);
    let (orders, inbox) = mailbox(alloc, ROOM, theirs.bell())?;
    theirs.add(inbox)?;
    let server = Server {
        alloc,
        speaker: Speaker::begin(alloc, sink),
        desk,
        orders,
        started: None,
        door: Door::Open,
        link_stop: None,
        is_short: false,
    };
    Ok(Opened {
        server,
        from_link,
        from_programs,
        orders: theirs,
    })
}

/// Serves a link: writes the greeting, then takes the messages of the link and what its programs print as they come, to
/// the link's end, to GATEWAY_TERMINATE or to a fault. Then it closes the sink for good, waits for the running program
/// and for the source's end, and gives back what it was handed. How long a test ran is told in milliseconds, by the clock:
/// from the order of its program to the taking of its end.
pub fn serve<
    R: Wait,
    S: Source + Drop,
    N: Sink + Drop,
    F: Files,
    C: Crew<Reader<S>>,
    K: Children,
    D: Crew<Runner<K>>,
    T: Clock,
>(
    rt: &R,
    alloc: Global,
    link: Started<S, N>,
    files: &mut F,
    crew: &mut C,
    children: K,
    runner: &mut D,
    clock: &mut T,
) -> Result<ServeEnd<S, N, K>, OutOfMemory>
    ensures served { IfOk result (λ e. ServedToEnd e.status (F.held files.old)
        (spring (S.supply link.source) (S.is_ended link.source) (S.faults link.source))
        (spring (S.supply e.source) (S.is_ended e.source) (S.faults e.source))
        (scene (N.sunk link.sink) (N.faults link.sink) (K.runs children) (K.faults children)
        (F.faults files.old) (C.faults crew.old) (D.faults runner.old)
        (ticking (T.moment clock.old) (T.coming clock.old)))
        (scene (N.sunk e.sink) (N.faults e.sink) (K.runs e.children) (K.faults e.children)
        (F.faults files.new) (C.faults crew.new) (D.faults runner.new)
        (ticking (T.moment clock.new) (T.coming clock.new)))) }
    ensures kept { F.held files.new ≡ F.held files.old }
{
    let Started {
        link: _,
        source,
        sink,
    } = link;
    let opened = open(alloc, sink)?;
    let Opened {
        mut server,
        from_link,
        from_programs,
        orders,
    } = opened;
    if server.speaker.is_broken {
        return Ok(unserved(server.speaker, source, children));
    }
    let running = match runner.start(Runner::new(alloc, children, orders, from_programs)) {
        Ok(running) => running,
        Err(back) => {
            let end = back.into_end();
            return Ok(unserved(server.speaker, source, end.children));
        }
    };
    let reading = match crew.start(Reader::new(alloc, source, from_link, false)) {
        Ok(reading) => reading,
        Err(back) => {
            let end = back.into_end();
            let children = end_idle(rt, alloc, server.orders, runner, running);
            return Ok(unserved(server.speaker, end.source, children));
        }
    };
    let heard = server.listen(rt, files, clock);
    let is_closed = server.close();
    let stop = server.drain(rt);
    server.orders.put(rt, no_order(alloc));
    let ran = runner.join(running);
    let read = crew.join(reading);
    let halt = heard?;
    if server.is_short {
        return Err(OutOfMemory);
    }
    Ok(finish(halt, stop, is_closed, server, read, ran))
}

// Ends a runner that was ordered nothing, and gives its programs back.
fn end_idle<R: Wait, K: Children, D: Crew<Runner<K>>>(
    rt: &R,
    alloc: Global,
    orders: Sender<Texts>,
    runner: &mut D,
    running: D::Handle,
) -> K
    requires fresh { (put orders ≡ [])
        × (mails (D.job_of running).orders ≡ Some (ring_of_sender orders, []) ∷ [])
        × (put (D.job_of running).sender ≡ []) }
    ensures runs { K.runs result ≡ K.runs (D.job_of running).children }
    ensures faults { K.faults result ≡ K.faults (D.job_of running).children }
    ensures still { D.faults runner.new ≡ D.faults runner.old }
{
    let mut orders = orders;
    orders.put(rt, no_order(alloc));
    let RunnerEnd {
        children,
        orders: mut taken,
        sender: _,
    } = runner.join(running);
    let _ordered = taken.close_with(0, orders);
    children
}

// The order that ends a runner.
fn no_order(alloc: Global) -> Texts
    ensures { result ≡ [] }
{
    Texts {
        items: Vec::new(alloc),
    }
}
