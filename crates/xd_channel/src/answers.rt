// What the calls of a channel end answer.
use crate::End;
use std::collections::VecDeque;

/// What a `receive` gave.
#[derive(Drop)]
pub enum Got<V> {
    /// The first item that waited.
    Item(V),
    /// The end: no item waits, and none will.
    Ended(End),
    /// Nothing waits yet.
    NotYet,
}

/// What became of an item that came from the peer.
#[derive(Drop)]
pub enum Arrived<V> {
    /// It waits for a `receive`.
    Kept,
    /// It is for the callback, which the caller runs.
    Handed(V),
    /// The receiving direction had ended before.
    Dropped,
}

/// All that waited when a callback was set, for the callback.
#[derive(Drop)]
pub struct Waiting<V> {
    /// The items, in the order in which they came.
    pub items: VecDeque<V>,
    /// The end, where it stood after them.
    pub end: Option<End>,
}

/// What a `close` has to tell the peer.
#[derive(Clone, Copy, Debug, PartialEq, Eq)]
pub enum Closing {
    Nothing,
    /// The channel is closed, with an error where the caller has its text.
    Say,
}

/// What letting go of an end has to tell the peer.
#[derive(Clone, Copy, Debug, PartialEq, Eq)]
pub enum GivenUp {
    Nothing,
    /// The channel is closed.
    SayClose,
    /// This side sends no more, and its callback still takes items.
    SayLast,
}

/// Nothing can be sent on this channel any more.
#[derive(Clone, Copy, Debug, PartialEq, Eq)]
pub struct SendClosed;

/// A callback takes the items of this channel.
#[derive(Clone, Copy, Debug, PartialEq, Eq)]
pub struct HasCallback;
