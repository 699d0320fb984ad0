//! What comes of an event.
use crate::channel::TopicReceipt;
use thiserror::Error;

/// What came of an event that is to make a handle.
#[derive(Drop)]
pub struct Made<H> {
    /// The new handle. The channel may have made none, and says why in its reply.
    pub handle: Option<H>,
    /// The event's receipt, with the channel's reply.
    pub receipt: TopicReceipt,
}

/// Why there was no event. Nothing has changed.
#[derive(Clone, Copy, Debug, Drop, Error, PartialEq, Eq)]
pub enum NoEvent {
    /// No topic has this number.
    #[error("no such topic")]
    NoTopic,
    /// This kind of channel has no such call.
    #[error("the topic is of another kind")]
    WrongKind,
    /// The hub's own sender is spent.
    #[error("no live sender to go through")]
    NoSender,
    /// The handle that was to be spent is not live on the topic.
    #[error("the handle is not live")]
    NotLive,
    /// There is nothing to tell yet, and the desk does not wait.
    #[error("nothing to tell yet")]
    Blocked,
    /// There is no room in the topic's log, beside the entries that spend the live handles.
    #[error("the log is full")]
    LogFull,
    /// There was no memory.
    #[error("no memory")]
    Short,
}

/// A handle that was to be spent, and why it was not.
#[derive(Drop)]
pub struct Unspent<H> {
    pub handle: H,
    pub why: NoEvent,
}
