// The workers of a run, and their marks.
ghost use Rattle.std.specs.Prelude.{◌≡◌, ◌==◌, ◌&&◌, map, OnOk};
ghost use Rattle.xd_run.specs.Books.{marked};
ghost use Rattle.xd_run.specs.Workers.{begun_at, has_collected, is_active, is_shut, made, slot_in, slot_of, some_active, was_ready};

use crate::books::Books;
use xd_edge::OutOfMemory;
use xd_run::{Mark, Member};

// The member with the mark, where it is the worker.
fn with_mark(m: Member, worker: u32, mark: Mark) -> Member
    ensures { result ≡ made mark worker m }
{
    let same = m.worker == worker;
    match mark {
        Mark::Ready => Member {
            ready: m.ready || same,
            ..m
        },
        Mark::Collected => Member {
            collected: m.collected || same,
            ..m
        },
        Mark::Shut => Member {
            shut: m.shut || same,
            ..m
        },
        Mark::Gone => Member {
            active: m.active && !same,
            ..m
        },
    }
}

// Each member with the mark, where it is the worker.
fn mark_all(members: &mut Vec<Member>, worker: u32, mark: Mark)
    ensures { members.new.items ≡ map (made mark worker) members.old.items }
{
    for i in 0..members.len() {
        let m = members[i];
        members[i] = with_mark(m, worker, mark);
    }
}

// The worker's slot, or 0 where it was not started.
fn slot_in(members: &[Member], worker: u32) -> u32
    ensures { result ≡ slot_in worker members.now }
{
    for member in members {
        if member.worker == worker {
            return member.slot;
        }
    }
    0
}

impl Books {
    /// Whoever was started, in order of the starts.
    pub fn members(&self) -> &[Member]
        ensures { result.now ≡ self.now.members }
    {
        &self.members
    }

    /// The worker was started at the slot.
    pub fn start(&mut self, worker: u32, slot: u32) -> Result<(), OutOfMemory>
        ensures started { OnOk result (self.new ≡ begun_at worker slot self.old) }
        ensures settings { self.new.settings ≡ self.old.settings }
        ensures lists { self.new.lists ≡ self.old.lists }
    {
        self.members.push(Member {
            worker,
            slot,
            active: true,
            ready: false,
            collected: false,
            shut: false,
        })?;
        self.shutting = false;
        Ok(())
    }

    /// The worker has the mark.
    pub fn mark(&mut self, worker: u32, mark: Mark)
        ensures { self.new ≡ marked (made mark worker) self.old }
    {
        mark_all(&mut self.members, worker, mark);
    }

    /// The slot of the worker, or 0 where it was not started.
    pub fn slot_of(&self, worker: u32) -> u32
        ensures { result ≡ slot_of worker self.now }
    {
        slot_in(&self.members, worker)
    }

    pub fn is_active(&self, worker: u32) -> bool
        ensures { result ≡ is_active worker self.now }
    {
        self.members.iter().any(|m| m.worker == worker && m.active)
    }

    pub fn was_ready(&self, worker: u32) -> bool
        ensures { result ≡ was_ready worker self.now }
    {
        self.members.iter().any(|m| m.worker == worker && m.ready)
    }

    pub fn has_collected(&self, worker: u32) -> bool
        ensures { result ≡ has_collected worker self.now }
    {
        self.members
            .iter()
            .any(|m| m.worker == worker && m.collected)
    }

    /// The worker was told to shut down.
    pub fn is_shut(&self, worker: u32) -> bool
        ensures { result ≡ is_shut worker self.now }
    {
        self.members.iter().any(|m| m.worker == worker && m.shut)
    }

    pub fn some_active(&self) -> bool
        ensures { result ≡ some_active self.now }
    {
        self.members.iter().any(|m| m.active)
    }
}
