// TCP streams as links.
use crate::waiting::{is_left, ready_for};
use std::alloc::{AllocError, Global};
use std::io::{self, BufWriter, ErrorKind, Write};
use std::net::{Net, OpenListener, OpenStream, Shutdown, TcpListener, TcpStream};
use std::os::fd::AsRawFd;
use std::thread;
use std::time::{Clock, Duration};
use xd_edge::Text;

// How often a refused connection is tried again, and the milliseconds before each of these tries: two seconds together,
// in which whoever served the last connection may listen for the next one.
const TRIES: u32 = 40;

const PAUSE: u64 = 50;

/// The writing direction of a stream, which keeps bytes until it is flushed.
#[derive(Drop)]
pub struct StreamOutput<S: Write + OpenStream + AsRawFd + Drop> {
    writer: BufWriter<S, Global>,
    closes: Shutdown,
}

impl<S: Write + OpenStream + AsRawFd + Drop> StreamOutput<S> {
    /// A close of it ends these directions of the stream.
    pub fn new(alloc: Global, stream: S, closes: Shutdown) -> Result<StreamOutput<S>, AllocError> {
        match BufWriter::new(alloc, stream) {
            Ok(writer) => Ok(StreamOutput { writer, closes }),
            Err(_) => Err(AllocError),
        }
    }

    /// Closes it. What it keeps is lost.
    pub fn close(&self) -> io::Result<()> {
        shut(self.writer.get_ref(), self.closes)
    }

    // Fails where the stream has ended in both directions, also where a write would only be kept.
    fn check(&self) -> io::Result<()> {
        if is_left(ready_for(self.writer.get_ref().as_raw_fd(), 0)) {
            return Err(io::Error::from(ErrorKind::BrokenPipe));
        }
        Ok(())
    }
}

impl<S: Write + OpenStream + AsRawFd + Drop> Write for StreamOutput<S> {
    fn write(&mut self, piece: &[u8]) -> io::Result<usize> {
        self.check()?;
        self.writer.write(piece)
    }

    fn flush(&mut self) -> io::Result<()> {
        self.writer.flush()
    }
}

/// Ends these directions of a stream. Where its peer has reset it nothing is left to end.
pub fn shut<S: OpenStream>(stream: &S, how: Shutdown) -> io::Result<()> {
    match stream.shutdown(how) {
        Err(fault) if fault.kind() == ErrorKind::NotConnected => Ok(()),
        ended => ended,
    }
}

/// A stream to whoever listens at this host and port. While the connection is refused it is tried again, for two seconds.
pub fn connect<H: Net + Clock>(rt: &H, host: &Text, port: u16) -> io::Result<H::Stream> {
    for _ in 0..TRIES {
        match TcpStream::connect(rt, (host.as_str(), port)) {
            Err(fault) if fault.kind() == ErrorKind::ConnectionRefused => {
                thread::sleep(rt, Duration::from_millis(PAUSE));
            }
            ended => return ended,
        }
    }
    TcpStream::connect(rt, (host.as_str(), port))
}

/// The first stream that comes to this host and port, and no other: nobody listens there any more then.
pub fn accept<H: Net>(rt: &H, host: &Text, port: u16) -> io::Result<H::Stream> {
    let listener = TcpListener::bind(rt, (host.as_str(), port))?;
    let (stream, _) = listener.accept()?;
    Ok(stream)
}
