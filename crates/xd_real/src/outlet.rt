// What a real link is written to.
use crate::{OwnOutput, StreamOutput};
use std::io::{self, Write};
use std::net::OpenStream;
use std::os::fd::AsRawFd;

/// What a real link is written to: the program's own standard output, a child's standard input, or a TCP stream.
#[derive(Drop)]
pub enum Outlet<B: Write + Drop, S: Write + OpenStream + AsRawFd + Drop> {
    Own(OwnOutput),
    Child(B),
    Stream(StreamOutput<S>),
}

impl<B: Write + Drop, S: Write + OpenStream + AsRawFd + Drop> Write for Outlet<B, S> {
    fn write(&mut self, piece: &[u8]) -> io::Result<usize> {
        match self {
            Outlet::Own(own) => own.write(piece),
            Outlet::Child(child) => child.write(piece),
            Outlet::Stream(stream) => stream.write(piece),
        }
    }

    fn flush(&mut self) -> io::Result<()> {
        match self {
            Outlet::Own(own) => own.flush(),
            Outlet::Child(child) => child.flush(),
            Outlet::Stream(stream) => stream.flush(),
        }
    }
}
