// What a real link is read from.
ghost use Rattle.std.specs.Prelude.{IfOk};
ghost use Rattle.std.specs.Counts.{IsPrefixLen};

use crate::waiting::{is_stopped, ready_for};
use libc::net::POLLIN;
use std::io::{self, PipeReader, Read};
use std::os::fd::AsRawFd;

/// What a real link is read from: the program's own standard input, a child's standard output, which is closed where a
/// read has met its end, or a TCP stream.
#[derive(Drop)]
pub enum Inlet<A: Read + Drop, B: Read + Drop, S: Read + Drop> {
    Own(A),
    Child(Option<B>),
    Stream(S),
}

impl<A: Read + Drop, B: Read + Drop, S: Read + Drop> Read for Inlet<A, B, S> {
    fn read(&mut self, into: &mut [u8]) -> io::Result<usize> {
        match self {
            Inlet::Own(own) => own.read(into),
            Inlet::Child(child) => read_to_close(child, into),
            Inlet::Stream(stream) => stream.read(into),
        }
    }
}

// Reads what is not closed yet, and closes it at its end.
fn read_to_close<B: Read + Drop>(input: &mut Option<B>, into: &mut [u8]) -> io::Result<usize>
    ensures { IfOk result (λ n. IsPrefixLen n into.new) }
{
    let Some(open) = input else {
        return Ok(0);
    };
    let count = open.read(into)?;
    if count == 0 && !into.is_empty() {
        *input = None;
    }
    Ok(count)
}

/// An input that ends as soon as nobody holds the writing end of `closed` or of `killed` any more, also where a read waits
/// for it. It is to hold no bytes of its own, since a read waits for the descriptor.
#[derive(Drop)]
pub struct Stoppable<I: Read + AsRawFd> {
    pub input: I,
    pub closed: PipeReader,
    pub killed: PipeReader,
}

impl<I: Read + AsRawFd> Read for Stoppable<I> {
    fn read(&mut self, into: &mut [u8]) -> io::Result<usize> {
        let mut all = [
            ready_for(self.input.as_raw_fd(), POLLIN),
            ready_for(self.closed.as_raw_fd(), POLLIN),
            ready_for(self.killed.as_raw_fd(), POLLIN),
        ];
        if is_stopped(&mut all) {
            return Ok(0);
        }
        self.input.read(into)
    }
}
