// The program's own output, which can be closed and killed.
use crate::waiting::{is_left, is_stopped, ready_for};
use libc::net::{POLLIN, POLLOUT};
use std::alloc::{AllocError, Global};
use std::io::{self, BufWriter, ErrorKind, PipeReader, PipeWriter, Write};
use std::os::fd::AsRawFd;
use std::process::ChildStdin;

// How many bytes are written at once: a pipe that can be written to takes that many without a wait.
const PART: usize = 4096;

/// The program's own output, which is closed where this is dropped, and with it the reading of its own input. Where
/// nobody holds the writing end of `killed` any more each write fails, also one that waits.
#[derive(Drop)]
pub struct OwnOutput {
    writer: BufWriter<Killable, Global>,
    // Whoever reads the own input stops where this is dropped.
    _go: PipeWriter,
}

// An output whose writes fail as soon as nobody holds the writing end of `killed` any more.
#[derive(Drop)]
struct Killable {
    output: ChildStdin,
    killed: PipeReader,
}

impl OwnOutput {
    /// Over an output whose writes raise no signal where nobody reads any more, as those to a child.
    pub fn new(
        alloc: Global,
        output: ChildStdin,
        go: PipeWriter,
        killed: PipeReader,
    ) -> Result<OwnOutput, AllocError> {
        match BufWriter::new(alloc, Killable { output, killed }) {
            Ok(writer) => Ok(OwnOutput { writer, _go: go }),
            Err(_) => Err(AllocError),
        }
    }

    // Fails after a kill, also where a write would only be kept.
    fn check(&self) -> io::Result<()> {
        if is_left(ready_for(self.writer.get_ref().killed.as_raw_fd(), POLLIN)) {
            return Err(killed());
        }
        Ok(())
    }
}

impl Write for OwnOutput {
    fn write(&mut self, piece: &[u8]) -> io::Result<usize> {
        self.check()?;
        self.writer.write(piece)
    }

    fn flush(&mut self) -> io::Result<()> {
        self.check()?;
        self.writer.flush()
    }
}

impl Write for Killable {
    fn write(&mut self, piece: &[u8]) -> io::Result<usize> {
        let mut all = [
            ready_for(self.output.as_raw_fd(), POLLOUT),
            ready_for(self.killed.as_raw_fd(), POLLIN),
        ];
        if is_stopped(&mut all) {
            return Err(killed());
        }
        self.output.write(&piece[..piece.len().min(PART)])
    }

    fn flush(&mut self) -> io::Result<()> {
        self.output.flush()
    }
}

fn killed() -> io::Error {
    io::Error::from(ErrorKind::BrokenPipe)
}
