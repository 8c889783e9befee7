// Waits for a descriptor, which the end of a pipe cuts short.
use libc::net::poll;
use libc::types::pollfd;
use std::os::fd::RawFd;

/// Waits until the first of these is ready, or nobody holds the other end of one of the pipes after it any more. Whether
/// one of these pipes was left so.
pub fn is_stopped(all: &mut [pollfd]) -> bool {
    let _count = poll(all, -1);
    all.iter().skip(1).any(|stop| stop.revents != 0)
}

/// Whether nobody holds the other end of this pipe any more, or this stream has ended in both directions.
pub fn is_left(stop: pollfd) -> bool {
    let mut all = [stop];
    let _count = poll(&mut all, 0);
    all[0].revents != 0
}

/// A descriptor that is to be ready for these events.
pub fn ready_for(fd: RawFd, events: i16) -> pollfd {
    pollfd {
        fd,
        events,
        revents: 0,
    }
}
