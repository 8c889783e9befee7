// A desk of several inboxes.
ghost use Rattle.std.specs.Prelude.{◌≡◌, ◌<◌, ◌≤◌, ◌+◌, [], ◌∷◌, ◌++◌, List, Some, None, length, vec_len, IfOk, OnOk, OnErr, IfSome, IfNone, slice_set};

use crate::{Bell, Emptied, Inbox, Sender};
use std::alloc::Global;
use std::sync::Wait;
use xd_edge::OutOfMemory;

/// Several inboxes by their numbers, from which one thread takes.
#[derive(Drop)]
pub struct Desk<T: Drop> {
    bell: Bell,
    // A closed inbox is `None`.
    inboxes: Vec<Option<Inbox<T>>>,
    // The inbox that is looked at first: the one after the last that gave an item.
    turn: usize,
    ghost few: { vec_len inboxes ≤ 4294967295 },
    ghost started: { turn ≤ vec_len inboxes },
}

impl<T: Drop> Desk<T> {
    ghost use Rattle.xd_post.specs.Post.{put, ring_of_sender, Empties};
    ghost use Rattle.xd_post.specs.Mails.{mails, knows, next_inbox, mail_of, HasMail, TakesAt, NoneKnown, NoneFrom, NoneBefore};

    /// A desk without inboxes, woken by this bell.
    pub fn new(alloc: Global, bell: Bell) -> Desk<T>
        ensures mails { mails result ≡ [] }
        ensures turn { next_inbox result ≡ 0 }
    {
        Desk {
            bell,
            inboxes: Vec::new(alloc),
            turn: 0,
        }
    }

    /// The bell of the desk, for mailboxes that are made later.
    pub fn bell(&self) -> &Bell {
        &self.bell
    }

    /// Adds an inbox, whose sender is to ring the bell of this desk. Gives its number: how many were added before it.
    pub fn add(&mut self, inbox: Inbox<T>) -> Result<u32, OutOfMemory>
        requires { length (mails self.old) < 4294967295 }
        ensures number { IfOk result (λ number. number ≡ length (mails self.old)) }
        ensures added { OnOk result (mails self.new ≡ mails self.old ++ mail_of (Some inbox) ∷ []) }
        ensures err { OnErr result (mails self.new ≡ mails self.old) }
        ensures turn { next_inbox self.new ≡ next_inbox self.old }
    {
        let number = self.inboxes.len() as u32;
        self.inboxes.push(Some(inbox))?;
        Ok(number)
    }

    // Takes an item of the inbox.
    fn take_at(&mut self, at: usize) -> Option<T>
        requires { at < length (mails self.old) }
        ensures none { IfNone result (mails self.new ≡ mails self.old) }
        ensures kept { IfNone result (knows self.new ≡ knows self.old) }
        ensures knew { IfNone result (NoneFrom (knows self.old) at (at + 1)) }
        ensures some { IfSome result (λ item. TakesAt (mails self.old) (mails self.new) at item) }
        ensures turn { next_inbox self.new ≡ next_inbox self.old }
    {
        match &mut self.inboxes[at] {
            Some(inbox) => inbox.take(),
            None => None,
        }
    }

    // Takes an item of the first inbox, from one number up to another, that knows one.
    fn take_between(&mut self, from: usize, to: usize) -> Option<(usize, T)>
        requires { to ≤ length (mails self.old) }
        ensures none { IfNone result (mails self.new ≡ mails self.old) }
        ensures kept { IfNone result (knows self.new ≡ knows self.old) }
        ensures knew { IfNone result (NoneFrom (knows self.old) from to) }
        ensures some { IfSome result (λ r. TakesAt (mails self.old) (mails self.new) r.0 r.1) }
        ensures place { IfSome result (λ r. (from ≤ r.0) × (r.0 < to)) }
        ensures passed { IfSome result (λ r. NoneFrom (knows self.old) from r.0) }
        ensures turn { next_inbox self.new ≡ next_inbox self.old }
    {
        for at in from..to {
            if let Some(item) = self.take_at(at) {
                return Some((at, item));
            }
        }
        None
    }

    // Takes an item of the first inbox in turn that knows one.
    fn take_in_turn(&mut self) -> Option<(usize, T)>
        ensures none { IfNone result (mails self.new ≡ mails self.old) }
        ensures knew { IfNone result (NoneKnown (knows self.old) × NoneKnown (knows self.new)) }
        ensures some { IfSome result (λ r. TakesAt (mails self.old) (mails self.new) r.0 r.1) }
        ensures place { IfSome result (λ r. r.0 < length (mails self.old)) }
        ensures passed { IfSome result (λ r.
            NoneBefore (knows self.old) (next_inbox self.old) r.0) }
        ensures turn { next_inbox self.new ≡ next_inbox self.old }
    {
        let first = self.turn;
        let count = self.inboxes.len();
        if let Some(found) = self.take_between(first, count) {
            return Some(found);
        }
        self.take_between(0, first)
    }

    /// Takes an item of the first inbox in turn that knows one. `None` only where this step knew no item of any inbox.
    pub fn take(&mut self) -> Option<(u32, T)>
        ensures none { IfNone result (mails self.new ≡ mails self.old) }
        ensures same_turn { IfNone result (next_inbox self.new ≡ next_inbox self.old) }
        ensures knew { IfNone result (NoneKnown (knows self.old) × NoneKnown (knows self.new)) }
        ensures some { IfSome result (λ r. TakesAt (mails self.old) (mails self.new) r.0 r.1) }
        ensures turn { IfSome result (λ r. next_inbox self.new ≡ r.0 + 1) }
        ensures passed { IfSome result (λ r.
            NoneBefore (knows self.old) (next_inbox self.old) r.0) }
    {
        let (at, item) = self.take_in_turn()?;
        self.turn = at + 1;
        Some((at as u32, item))
    }

    /// Takes an item, and sleeps on the bell until it knows one.
    pub fn wait<R: Wait>(&mut self, rt: &R) -> (u32, T)
        ensures takes { TakesAt (mails self.old) (mails self.new) result.0 result.1 }
        ensures turn { next_inbox self.new ≡ result.0 + 1 }
        ensures passed { NoneBefore (knows self.old) (next_inbox self.old) result.0 }
    {
        for _ in rt.forever() {
            let seen = self.bell.count(rt);
            if let Some(found) = self.take() {
                return found;
            }
            self.bell.wait_past(rt, seen);
        }
        unreachable!()
    }

    /// Closes an inbox by its sender, which this thread holds. The others keep their numbers.
    pub fn close_with(&mut self, inbox: u32, sender: Sender<T>) -> Emptied<T>
        requires { (got : List T) × HasMail (mails self.old) inbox (ring_of_sender sender) got }
        ensures emptied { (got : List T) →
            HasMail (mails self.old) inbox (ring_of_sender sender) got
            → Empties result.rest got (put sender) }
        ensures closed { mails self.new ≡ slice_set (mails self.old) inbox None }
        ensures turn { next_inbox self.new ≡ next_inbox self.old }
    {
        match self.inboxes[inbox as usize].take() {
            Some(inbox) => inbox.close_with(sender),
            None => unreachable!(),
        }
    }
}
