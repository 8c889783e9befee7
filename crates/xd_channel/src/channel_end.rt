// One end of a channel.
ghost use Rattle.std.specs.Prelude.{◌≡◌, IfOk, OnErr, List, [], ◌∷◌};
ghost use Rattle.xd_channel.specs.State.{EndState, fresh_end, end_of, arrive_gives, after_arrive, may_send_gives, is_done, put_gives, after_put, after_peer_close, close_gives, after_close, give_up_gives, after_give_up, waiting_of, hook_gives, after_hook, receive_gives, after_receive, after_given};
ghost use Rattle.xd_channel.specs.History.{EndCall, Arrive, Peer_close, Peer_last, Lose, Close, Give_up, Set_callback, Receive, Stands};

use crate::{Arrived, Closing, End, GivenUp, Got, HasCallback, SendClosed, Waiting};
use std::alloc::Global;
use std::collections::VecDeque;
use std::marker::Model;
use std::mem;
use xd_edge::{OutOfMemory, Text};

/// One end of a channel. Contracts see its items that wait, its end marker, and three flags.
///
/// Each call says what it answers, what stands after it, and that the end then stands for the list of all calls so
/// far, this one added (`history`). What a list of calls means is said without the end: which items arrived before
/// the first end marker, which were handed out, and which marker came first.
#[derive(Drop)]
pub struct ChannelEnd<V> {
    alloc: Global,
    waiting: VecDeque<V>,
    marker: Option<End>,
    sending: bool,
    callback: bool,
    given: bool,
}

impl<V> Model for ChannelEnd<V> {
    ghost use Rattle.xd_channel.specs.State.{EndState};

    ghost Value = { EndState V };

    ghost view = { λ e. record {
      waiting = e.waiting.items;
      marker = e.marker;
      sending = e.sending;
      callback = e.callback;
      given = e.given;
    } };
}

impl<V: Drop> ChannelEnd<V> {
    /// An end that is open in both directions.
    pub fn new(alloc: Global) -> Self
        ensures state { result ≡ fresh_end }
        ensures history { Stands result [] }
    {
        ChannelEnd {
            alloc,
            waiting: VecDeque::new(alloc),
            marker: None,
            sending: true,
            callback: false,
            given: false,
        }
    }

    /// Whether something can still be sent.
    pub fn may_send(&self) -> Result<(), SendClosed>
        ensures { result ≡ may_send_gives self.now }
    {
        if self.sending {
            Ok(())
        } else {
            Err(SendClosed)
        }
    }

    /// Whether a callback is set.
    pub fn has_callback(&self) -> bool
        ensures { result ≡ self.now.callback }
    {
        self.callback
    }

    /// Whether the end has nothing more to do: sending is closed, and the end marker was given or handed.
    pub fn is_done(&self) -> bool
        ensures { result ≡ is_done self.now }
    {
        !self.sending && self.given
    }

    /// An item comes from the peer. Where memory runs out the item is dropped and the end is as it was.
    pub fn arrive(&mut self, item: V) -> Result<Arrived<V>, OutOfMemory>
        ensures gives { IfOk result (λ arrived. arrived ≡ arrive_gives self.old item) }
        ensures after { IfOk result (λ _. self.new ≡ after_arrive self.old item) }
        ensures history { (h : List (EndCall V)) →
            IfOk result (λ arrived. Stands self.old h → Stands self.new (Arrive item arrived ∷ h)) }
        ensures refused { OnErr result (self.new ≡ self.old) }
    {
        if self.marker.is_some() {
            return Ok(Arrived::Dropped);
        }
        if self.callback {
            return Ok(Arrived::Handed(item));
        }
        match self.waiting.push_back(item) {
            Ok(()) => Ok(Arrived::Kept),
            Err(_) => Err(OutOfMemory),
        }
    }

    /// The peer closes the channel, with the text of an error where it has one. What is answered is for the callback.
    pub fn peer_close(&mut self, error: Option<Text>) -> Option<End>
        ensures gives { result ≡ put_gives self.old (end_of error) }
        ensures after { self.new ≡ after_peer_close self.old (end_of error) }
        ensures history { (h : List (EndCall V)) → Stands self.old h →
            Stands self.new (Peer_close error ∷ h) }
    {
        self.sending = false;
        self.put(End::of(error))
    }

    /// The peer sends no more. What is answered is for the callback.
    pub fn peer_last(&mut self) -> Option<End>
        ensures gives { result ≡ put_gives self.old End.LastMessage }
        ensures after { self.new ≡ after_put self.old End.LastMessage }
        ensures history { (h : List (EndCall V)) → Stands self.old h →
            Stands self.new (Peer_last ∷ h) }
    {
        self.put(End::LastMessage)
    }

    /// The link ends. What is answered is for the callback.
    pub fn lost(&mut self) -> Option<End>
        ensures gives { result ≡ put_gives self.old End.Lost }
        ensures after { self.new ≡ after_put self.old End.Lost }
        ensures history { (h : List (EndCall V)) → Stands self.old h → Stands self.new (Lose ∷ h) }
    {
        self.put(End::Lost)
    }

    /// The owner closes the channel. What waits can still be received.
    pub fn close(&mut self) -> Closing
        ensures gives { result ≡ close_gives self.old }
        ensures after { self.new ≡ after_close self.old }
        ensures history { (h : List (EndCall V)) → Stands self.old h → Stands self.new (Close ∷ h) }
    {
        let says = self.sending && self.marker.is_none();
        self.sending = false;
        if self.marker.is_none() {
            self.marker = Some(End::Closed);
        }
        if self.callback {
            self.given = true;
        }
        if says { Closing::Say } else { Closing::Nothing }
    }

    /// The owner lets go of the channel. Where a callback is set, items still come to it.
    pub fn give_up(&mut self) -> GivenUp
        ensures gives { result ≡ give_up_gives self.old }
        ensures after { self.new ≡ after_give_up self.old }
        ensures history { (h : List (EndCall V)) → Stands self.old h →
            Stands self.new (Give_up ∷ h) }
    {
        if !self.sending || self.marker.is_some() {
            self.sending = false;
            return GivenUp::Nothing;
        }
        self.sending = false;
        if self.callback {
            return GivenUp::SayLast;
        }
        self.marker = Some(End::Closed);
        GivenUp::SayClose
    }

    /// Sets a callback, and hands over all that waits for it. From now on each item and the end go to the callback.
    pub fn set_callback(&mut self) -> Result<Waiting<V>, HasCallback>
        ensures gives { waiting_of result ≡ hook_gives self.old }
        ensures after { self.new ≡ after_hook self.old }
        ensures history { (h : List (EndCall V)) → Stands self.old h →
            Stands self.new (Set_callback (waiting_of result) ∷ h) }
    {
        if self.callback {
            return Err(HasCallback);
        }
        self.callback = true;
        let items = mem::replace(&mut self.waiting, VecDeque::new(self.alloc));
        let end = self.take_marker();
        Ok(Waiting { items, end })
    }

    /// The first item that waits; else the end; else nothing yet.
    pub fn receive(&mut self) -> Result<Got<V>, HasCallback>
        ensures gives { result ≡ receive_gives self.old }
        ensures after { self.new ≡ after_receive self.old }
        ensures history { (h : List (EndCall V)) → Stands self.old h →
            Stands self.new (Receive result ∷ h) }
    {
        if self.callback {
            return Err(HasCallback);
        }
        if let Some(item) = self.waiting.pop_front() {
            return Ok(Got::Item(item));
        }
        match self.take_marker() {
            Some(end) => Ok(Got::Ended(end)),
            None => Ok(Got::NotYet),
        }
    }

    // Puts an end marker where none stands, and hands it to the callback where one is set.
    fn put(&mut self, end: End) -> Option<End>
        ensures gives { result ≡ put_gives self.old end }
        ensures after { self.new ≡ after_put self.old end }
    {
        if self.marker.is_some() {
            return None;
        }
        if self.callback {
            self.marker = Some(end.once_given());
            self.given = true;
            return Some(end);
        }
        self.marker = Some(end);
        None
    }

    // Gives the end marker, which stays as one that was given.
    fn take_marker(&mut self) -> Option<End>
        ensures gives { result ≡ self.old.marker }
        ensures after { self.new ≡ after_given self.old }
    {
        match self.marker.take() {
            Some(end) => {
                self.marker = Some(end.once_given());
                self.given = true;
                Some(end)
            }
            None => None,
        }
    }
}
