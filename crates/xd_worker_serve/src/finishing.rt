// What is left of a link that is served no more.
ghost use Rattle.std.specs.Prelude.{◌≡◌, ℕ, Bool, Some};
ghost use Rattle.xd_link.specs.Spring.{spring};
ghost use Rattle.xd_post.specs.Mails.{mails};
ghost use Rattle.xd_post.specs.Post.{put, ring_of_sender};
ghost use Rattle.xd_worker_runner.specs.Orders.{programs_seen as programs};
ghost use Rattle.xd_worker_serve.specs.Ends.{Closes, Served, last_link_stop, scene, terminated_by};
ghost use Rattle.xd_worker_serve.specs.inner.Halts.{Goes};
ghost use Rattle.xd_worker_serve.specs.inner.Joined.{Joined, Sources, back};
ghost use Rattle.xd_worker_serve.specs.inner.Seen.{Seen};
ghost use Rattle.xd_worker_serve.specs.inner.Serves.{Beside, Setting};

use crate::server::{Halt, Server};
use crate::serving::ServeEnd;
use crate::speaker::Speaker;
use crate::stop::Stop;
use xd_edge::{Children, Sink};
use xd_link::Source;
use xd_reader::{LinkStop, ReaderEnd};
use xd_worker_runner::RunnerEnd;

/// Both jobs were joined: closes the mailboxes, and says how the link was served. An item that no job puts cannot have
/// come, by what the jobs put.
pub fn finish<S: Source + Drop, N: Sink + Drop, K: Children>(
    halt: Halt,
    stop: LinkStop,
    is_closed: bool,
    server: Server<N>,
    read: ReaderEnd<S>,
    ran: RunnerEnd<K>,
) -> ServeEnd<S, N, K>
    requires { (a : Setting) × (now : Beside) × (before : Sources) × (s : Seen)
        × Goes (Some halt) a now s × (mails server.desk ≡ s.mails)
        × Joined a before s stop (ring_of_sender server.orders) (put server.orders)
        (back (spring (S.supply read.source) (S.is_ended read.source) (S.faults read.source))
        (programs (K.runs ran.children) (K.faults ran.children)) (ring_of_sender read.sender)
        (put read.sender) (ring_of_sender ran.sender) (put ran.sender) (mails ran.orders)) }
    ensures served { (a : Setting) (now : Beside) (before : Sources) (s : Seen)
        (readers runners : ℕ) → Goes (Some halt) a now s → (mails server.desk ≡ s.mails)
        → Joined a before s stop (ring_of_sender server.orders) (put server.orders)
        (back (spring (S.supply read.source) (S.is_ended read.source) (S.faults read.source))
        (programs (K.runs ran.children) (K.faults ran.children)) (ring_of_sender read.sender)
        (put read.sender) (ring_of_sender ran.sender) (put ran.sender) (mails ran.orders))
        → Closes is_closed s.sunk (N.sunk server.speaker.sink) s.sink_faults
        (N.faults server.speaker.sink)
        → Served result.status a.held before.source
        (spring (S.supply result.source) (S.is_ended result.source) (S.faults result.source))
        (scene a.first.sunk a.first.sink_faults before.programs.runs before.programs.faults
        a.first.file_faults readers runners a.clock)
        (scene (N.sunk result.sink) (N.faults result.sink) (K.runs result.children)
        (K.faults result.children) now.file_faults readers runners now.clock) }
{
    let Server {
        alloc: _,
        speaker,
        mut desk,
        orders: ordered,
        started: _,
        door: _,
        link_stop: _,
        is_short: _,
    } = server;
    let _of_link = desk.close_with(0, read.sender);
    let _of_programs = desk.close_with(1, ran.sender);
    let mut orders = ran.orders;
    let _ordered = orders.close_with(0, ordered);
    let Halt::At(why) = halt else {
        unreachable!();
    };
    ServeEnd {
        status: last_stop(is_closed, why, stop).status(),
        source: read.source,
        sink: speaker.sink,
        children: ran.children,
    }
}

// Why the link is served no more, where the worker ceased so, the reader stopped so, and the sink was closed or not.
fn last_stop(is_closed: bool, why: Stop, stop: LinkStop) -> Stop
    ensures { result ≡ last_link_stop is_closed why stop }
{
    if !is_closed {
        return Stop::WriteFault;
    }
    match why {
        Stop::Terminated => terminated_by(stop),
        Stop::NotRun => Stop::NotRun,
        Stop::Ended => Stop::Ended,
        Stop::Cut => Stop::Cut,
        Stop::Header(fault) => Stop::Header(fault),
        Stop::Message(fault) => Stop::Message(fault),
        Stop::ReadFault => Stop::ReadFault,
        Stop::WriteFault => Stop::WriteFault,
    }
}

fn terminated_by(stop: LinkStop) -> Stop
    ensures { result ≡ terminated_by stop }
{
    match stop {
        LinkStop::ReadFault => Stop::ReadFault,
        LinkStop::Ended
        | LinkStop::Cut
        | LinkStop::Garbled(_)
        | LinkStop::BadGreeting(_)
        | LinkStop::OutOfMemory => Stop::Terminated,
    }
}

/// Nothing was read and no program was run: closes the sink.
pub fn unserved<S: Source + Drop, N: Sink + Drop, K: Children>(
    speaker: Speaker<N>,
    source: S,
    children: K,
) -> ServeEnd<S, N, K>
    ensures status { result.status ≡ 3 }
    ensures source { result.source ≡ source }
    ensures children { result.children ≡ children }
    ensures closes { (closed : Bool)
        × Closes closed (N.sunk speaker.sink) (N.sunk result.sink) (N.faults speaker.sink)
        (N.faults result.sink) }
{
    let mut sink = speaker.sink;
    let _closed = sink.close();
    ServeEnd {
        status: 3,
        source,
        sink,
        children,
    }
}
