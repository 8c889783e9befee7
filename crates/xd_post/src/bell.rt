// Bells, on which the thread of a desk sleeps.
use std::alloc::Global;
use std::sync::{Arc, Condvar, Mutex, Wait};
use xd_edge::OutOfMemory;

// A count of rings, guarded by a lock. No two threads see it differ, so a ring between a look and a wait is not missed.
#[derive(Drop)]
struct Tower {
    rings: Mutex<u64>,
    rang: Condvar,
}

/// A count of rings, on whose change a thread can wait, shared by the senders and the desk that it wakes. No clause
/// rests on it.
#[derive(Drop)]
pub struct Bell {
    tower: Arc<Tower>,
}

impl Bell {
    /// It was not rung yet.
    pub fn new(alloc: Global) -> Result<Bell, OutOfMemory> {
        let tower = Arc::new(
            alloc,
            Tower {
                rings: Mutex::new(0),
                rang: Condvar::new(),
            },
        )?;
        Ok(Bell { tower })
    }

    /// Another hold of the same bell.
    pub fn another(&self) -> Result<Bell, OutOfMemory> {
        let tower = Arc::try_clone(&self.tower)?;
        Ok(Bell { tower })
    }

    /// Wakes whoever waits.
    pub fn ring<R: Wait>(&self, rt: &R) {
        self.add_ring(rt);
        self.tower.rang.notify_all();
    }

    fn add_ring<R: Wait>(&self, rt: &R) {
        let mut rings = self.tower.rings.lock(rt);
        *rings = rings.wrapping_add(1);
    }

    /// How often it was rung, modulo 2 to the 64.
    pub fn count<R: Wait>(&self, rt: &R) -> u64 {
        *self.tower.rings.lock(rt)
    }

    /// Sleeps until the count is another one than `seen`.
    pub fn wait_past<R: Wait>(&self, rt: &R, seen: u64) {
        let rings = self.tower.rings.lock(rt);
        let _rings = self
            .tower
            .rang
            .wait_while(rt, rings, |rings| *rings == seen);
    }
}
