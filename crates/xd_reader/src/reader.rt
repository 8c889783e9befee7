// The job that reads a link.
ghost use Rattle.std.specs.Prelude.{◌≡◌};
ghost use Rattle.xd_link.specs.Spring.{spring};
ghost use Rattle.xd_post.specs.Post.{put, ring_of_sender};
ghost use Rattle.xd_reader.specs.Reads.{PutsAll};

use crate::LinkNews;
use crate::reading::read_link;
use std::alloc::Global;
use std::sync::Wait;
use xd_crew::Job;
use xd_link::Source;
use xd_post::Sender;

/// A job that reads a source to its stop, and puts its messages in order and then the stop. It reads no byte after the
/// message that has begun, and holds no more than that message.
#[derive(Drop)]
pub struct Reader<S: Source + Drop> {
    alloc: Global,
    pub source: S,
    pub sender: Sender<LinkNews>,
    /// The first byte is to be the greeting.
    pub greeted: bool,
}

/// What a reader gives back.
#[derive(Drop)]
pub struct ReaderEnd<S: Source + Drop> {
    pub source: S,
    pub sender: Sender<LinkNews>,
}

impl<S: Source + Drop> Reader<S> {
    /// It has read nothing and put nothing. Where `greeted`, the first byte of the source is to be the greeting, the
    /// character 1.
    pub fn new(alloc: Global, source: S, sender: Sender<LinkNews>, greeted: bool) -> Reader<S>
        ensures source { result.source ≡ source }
        ensures sender { result.sender ≡ sender }
        ensures greeted { result.greeted ≡ greeted }
    {
        Reader {
            alloc,
            source,
            sender,
            greeted,
        }
    }

    /// Takes a job apart that was handed back, with nothing read and nothing put.
    pub fn into_end(self) -> ReaderEnd<S>
        ensures source { result.source ≡ self.source }
        ensures sender { result.sender ≡ self.sender }
    {
        let Reader {
            alloc: _,
            source,
            sender,
            greeted: _,
        } = self;
        ReaderEnd { source, sender }
    }
}

impl<S: Source + Drop> Job for Reader<S> {
    type Out = ReaderEnd<S>;

    ghost gives = { λ job out.
        PutsAll job.greeted (spring (S.supply job.source) (S.is_ended job.source)
        (S.faults job.source)) (spring (S.supply out.source) (S.is_ended out.source)
        (S.faults out.source)) (put job.sender) (put out.sender)
        × (ring_of_sender out.sender ≡ ring_of_sender job.sender) };

    fn run<R: Wait>(self, rt: &R) -> ReaderEnd<S>
        ensures puts { PutsAll self.greeted
            (spring (S.supply self.source) (S.is_ended self.source) (S.faults self.source))
            (spring (S.supply result.source) (S.is_ended result.source) (S.faults result.source))
            (put self.sender) (put result.sender) }
        ensures ring { ring_of_sender result.sender ≡ ring_of_sender self.sender }
    {
        let Reader {
            alloc,
            mut source,
            mut sender,
            greeted,
        } = self;
        let stop = read_link(rt, alloc, &mut source, &mut sender, greeted);
        sender.put(rt, LinkNews::End(stop));
        ReaderEnd { source, sender }
    }
}
