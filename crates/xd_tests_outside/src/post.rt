// Mailboxes between two threads, and a desk. What comes out is compared with the numbers that were put in.
ghost use Rattle.std.specs.Prelude.{◌≡◌, ◌<◌, ◌≤◌, length};
ghost use Rattle.xd_post.specs.Mails.{mails};
ghost use Rattle.xd_post.specs.Post.{ring_of_sender};

use crate::mailboxes::next_item;
use std::alloc::Global;
use std::snapshot::Snapshot;
use std::sync::Wait;
use std::test::Fail;
use std::thread;
use std::thread::{Promise, Threads};
use std::time::{Clock, Duration};
use xd_edge::OutOfMemory;
use xd_post::{Bell, Desk, Sender, mailbox};

// Milliseconds of a sleep.
const MOMENT: u64 = 2;

/// The thread gives back the sender that it got.
#[derive(Drop)]
struct SameRing(Snapshot<Sender<u32>>);

impl Promise<Sender<u32>> for SameRing {
    ghost kept_by = { λ promise sender. ring_of_sender sender ≡ ring_of_sender promise.0.value };
}

// Puts the numbers below `count`, and sleeps a moment before every `pause` of them.
fn put_numbers<R: Wait + Clock>(rt: &R, sender: Sender<u32>, count: u32, pause: u32) -> Sender<u32>
    requires { 1 ≤ pause }
    ensures { ring_of_sender result ≡ ring_of_sender sender }
{
    let mut sender = sender;
    for number in 0..count {
        if number % pause == 0 {
            thread::sleep(rt, Duration::from_millis(MOMENT));
        }
        sender.put(rt, number);
    }
    sender
}

// A thread puts the numbers below `count`, and they are taken here, with a moment's sleep before every `pause` of
// them. Gives how many came in their place, or `None` where one was left.
fn carry<R: Threads + Wait + Clock + Copy + Send + 'static>(
    rt: R,
    alloc: Global,
    room: usize,
    count: u32,
    pause: u32,
) -> Result<Option<u32>, OutOfMemory>
    requires room { 1 ≤ room }
    requires pause { 1 ≤ pause }
{
    let bell = Bell::new(alloc)?;
    let (sender, inbox) = mailbox(alloc, room, &bell)?;
    let promise = SameRing(Snapshot::of(&sender));
    let putting = thread::spawn_with(&rt, promise, move || put_numbers(&rt, sender, count, 2500));
    let Ok(putting) = putting else {
        return Err(OutOfMemory);
    };
    let mut inbox = inbox;
    let mut in_place: u32 = 0;
    for number in 0..count {
        if number % pause == 0 {
            thread::sleep(&rt, Duration::from_millis(MOMENT));
        }
        if next_item(&rt, &bell, &mut inbox) == number {
            in_place = in_place.saturating_add(1);
        }
    }
    let sender = putting.join(&rt);
    match inbox.close_with(sender).rest {
        Some(_) => Ok(None),
        None => Ok(Some(in_place)),
    }
}

#[test]
fn ten_thousand_messages_come_whole_and_in_order(rt: HostRuntime) -> Result<(), Fail> {
    let alloc = rt.alloc();
    assert_eq!(rt; carry(rt, alloc, 1, 10_000, 3000)?, Some(10_000));
    assert_eq!(rt; carry(rt, alloc, 2, 10_000, 3000)?, Some(10_000));
    assert_eq!(rt; carry(rt, alloc, 8, 10_000, 3000)?, Some(10_000));
    Ok(())
}

#[test]
fn a_sender_sleeps_on_a_full_mailbox_until_each_take(rt: HostRuntime) -> Result<(), Fail> {
    assert_eq!(rt; carry(rt, rt.alloc(), 1, 20, 1)?, Some(20));
    Ok(())
}

#[test]
fn a_closed_mailbox_gives_the_next_item(rt: HostRuntime) -> Result<(), Fail> {
    let bell = Bell::new(rt.alloc())?;
    let (mut sender, mut inbox) = mailbox(rt.alloc(), 4, &bell)?;
    sender.put(&rt, 7);
    sender.put(&rt, 8);
    sender.put(&rt, 9);
    assert_eq!(rt; bell.count(&rt), 3);
    assert_eq!(rt; inbox.take(), Some(7));
    assert_eq!(rt; inbox.close_with(sender).rest, Some(8));
    Ok(())
}

// Adds an inbox with one number in it, and closes it again. Gives its number and the next item.
fn add_and_close<R: Wait>(
    rt: &R,
    alloc: Global,
    desk: &mut Desk<u32>,
    item: u32,
) -> Result<(u32, Option<u32>), OutOfMemory>
    requires { length (mails desk.old) < 4294967295 }
{
    let (mut sender, inbox) = mailbox(alloc, 1, desk.bell())?;
    let number = desk.add(inbox)?;
    sender.put(rt, item);
    let emptied = desk.close_with(number, sender);
    Ok((number, emptied.rest))
}

#[test]
fn a_desk_takes_in_turn_and_sleeps_until_its_bell_rings(
    rt: HostRuntime,
) -> Result<(), OutOfMemory> {
    let alloc = rt.alloc();
    let mut desk = Desk::new(alloc, Bell::new(alloc)?);
    let (mut first, inbox) = mailbox(alloc, 8, desk.bell())?;
    assert_eq!(rt; desk.add(inbox)?, 0);
    let (mut second, inbox) = mailbox(alloc, 8, desk.bell())?;
    assert_eq!(rt; desk.add(inbox)?, 1);
    assert_eq!(rt; add_and_close(&rt, alloc, &mut desk, 20)?, (2, Some(20)));
    first.put(&rt, 10);
    first.put(&rt, 11);
    second.put(&rt, 30);
    assert_eq!(rt; desk.take(), Some((0, 10)));
    assert_eq!(rt; desk.take(), Some((1, 30)));
    assert_eq!(rt; desk.take(), Some((0, 11)));
    assert_eq!(rt; desk.take(), None);
    let Ok(putting) = thread::spawn(&rt, move || put_numbers(&rt, second, 1, 1)) else {
        return Err(OutOfMemory);
    };
    assert_eq!(rt; desk.wait(&rt), (1, 0));
    let _second = putting.join(&rt);
    Ok(())
}
