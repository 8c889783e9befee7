// A mailbox from one thread to one other.
ghost use Rattle.std.specs.Prelude.{◌≡◌, ◌≤◌, [], ◌∷◌, ◌++◌, IfOk, IfSome, IfNone};
ghost use Rattle.xd_post.specs.Post.{put, taken, known, ring_of_sender, ring_of_inbox, room_of, Empties};

use crate::Bell;
use rtrb::{Consumer, Producer, PushError, RingBuffer};
use std::alloc::Global;
use std::sync::{Arc, Wait};
use std::thread::Parker;
use xd_edge::OutOfMemory;

/// The end that puts.
#[derive(Drop)]
pub struct Sender<T: Drop> {
    to: Producer<T>,
    // Where the sender sleeps while the ring is full. Each take unparks it, and an unpark before the sleep is kept.
    space: Arc<Parker>,
    bell: Bell,
}

/// The end that takes.
#[derive(Drop)]
pub struct Inbox<T: Drop> {
    from: Consumer<T>,
    space: Arc<Parker>,
}

/// What was left of a mailbox.
#[derive(Drop)]
pub struct Emptied<T> {
    /// The next item that was not taken. What was put after it was dropped.
    pub rest: Option<T>,
}

/// A mailbox with room for that many items, whose sender rings this bell.
pub fn mailbox<T: Drop>(
    alloc: Global,
    room: usize,
    bell: &Bell,
) -> Result<(Sender<T>, Inbox<T>), OutOfMemory>
    requires { 1 ≤ room }
    ensures pair { IfOk result (λ r. ring_of_sender r.0 ≡ ring_of_inbox r.1) }
    ensures fresh { IfOk result (λ r. (put r.0 ≡ []) × (taken r.1 ≡ []) × (known r.1 ≡ [])) }
    ensures room { IfOk result (λ r. room_of r.0 ≡ room) }
{
    let bell = bell.another()?;
    let space = Arc::new(alloc, Parker::new())?;
    let theirs = Arc::try_clone(&space)?;
    let (to, from) = RingBuffer::new(alloc, room)?;
    let inbox = Inbox {
        from,
        space: theirs,
    };
    Ok((Sender { to, space, bell }, inbox))
}

impl<T: Drop> Sender<T> {
    /// Puts the item and rings. While the mailbox is full it sleeps: for ever, where nobody takes any more.
    pub fn put<R: Wait>(&mut self, rt: &R, item: T)
        ensures ring { ring_of_sender self.new ≡ ring_of_sender self.old }
        ensures room { room_of self.new ≡ room_of self.old }
        ensures put { put self.new ≡ put self.old ++ item ∷ [] }
    {
        let mut item = item;
        for _ in rt.forever() {
            match self.to.push(item) {
                Ok(()) => {
                    self.bell.ring(rt);
                    return;
                }
                Err(PushError::Full(back)) => item = back,
            }
            self.space.park(rt);
        }
        unreachable!()
    }
}

impl<T: Drop> Inbox<T> {
    /// Takes the next item. `None` only where this step knew none.
    pub fn take(&mut self) -> Option<T>
        ensures ring { ring_of_inbox self.new ≡ ring_of_inbox self.old }
        ensures some { IfSome result (λ item. taken self.new ≡ taken self.old ++ item ∷ []) }
        ensures none { IfNone result (taken self.new ≡ taken self.old) }
        ensures knew { IfNone result ((known self.old ≡ []) × (known self.new ≡ [])) }
    {
        match self.from.pop() {
            Ok(item) => {
                self.space.unpark();
                Some(item)
            }
            Err(_) => None,
        }
    }

    /// Closes the mailbox by both of its ends, which this thread holds.
    pub fn close_with(self, sender: Sender<T>) -> Emptied<T>
        requires { ring_of_sender sender ≡ ring_of_inbox self }
        ensures { Empties result.rest (taken self) (put sender) }
    {
        let Inbox { mut from, space: _ } = self;
        let Sender {
            mut to,
            space: _,
            bell: _,
        } = sender;
        let rest = if from.slots_beside(&mut to) > 0 {
            Some(from.pop_known())
        } else {
            None
        };
        Emptied { rest }
    }
}
