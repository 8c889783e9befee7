// Where a thread is laid that has no job yet.
use crate::Job;
use crate::job_thread::{IdleThread, start_idle};
use std::alloc::Global;
use std::cell::Cell;
use std::rc::Rc;
use std::sync::Wait;
use std::thread::Threads;
use xd_edge::OutOfMemory;

/// Where a thread is laid that has no job yet, between a crew and the closure that makes its threads.
#[derive(Drop)]
pub struct Slot<J: Job> {
    laid: Rc<Cell<Option<IdleThread<J>>>>,
}

impl<J: Job> Slot<J> {
    /// Nothing lies in it.
    pub fn new(alloc: Global) -> Result<Slot<J>, OutOfMemory> {
        let laid = Rc::new(alloc, Cell::new(None))?;
        Ok(Slot { laid })
    }

    /// Another hold of the same slot.
    pub fn another(&self) -> Result<Slot<J>, OutOfMemory> {
        let laid = self.laid.clone()?;
        Ok(Slot { laid })
    }

    pub(crate) fn take(&self) -> Option<IdleThread<J>> {
        self.laid.replace(None)
    }

    fn lay(&self, thread: Option<IdleThread<J>>) {
        let _before = self.laid.replace(thread);
    }
}

/// Starts a thread that sleeps until it gets a job, and lays it into the slot; nothing lies there where it cannot.
pub fn start_into<J: Job + Send + 'static, R: Threads + Wait + Copy + Send + 'static>(
    rt: R,
    alloc: Global,
    slot: &Slot<J>,
)
where
    J::Out: Send + 'static,
{
    slot.lay(start_idle(rt, alloc));
}
