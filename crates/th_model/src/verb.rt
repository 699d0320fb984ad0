//! What a handle does on its channel, whatever the kind of the channel. Which kinds have a call for it is in the table of
//! calls.
/// What a sender does: one event.
#[derive(Debug, Drop, PartialEq, Eq)]
pub enum SenderVerb<T> {
    /// Sends a value.
    Send(T),
    /// Publishes a value, for the old one.
    Replace(T),
    /// Publishes a value, readers or not.
    Set(T),
    /// Publishes a value where it differs from the newest one.
    Differ(T),
    /// Replaces the newest value and tells no reader.
    Quiet(T),
}

/// What is asked through any live sender: one event.
#[derive(Clone, Copy, Debug, Drop, PartialEq, Eq)]
pub enum Question {
    /// How many values are kept.
    Queued,
    /// How many receivers are live.
    Readers,
}

/// What a receiver does: one event.
#[derive(Clone, Copy, Debug, Drop, PartialEq, Eq)]
pub enum ReceiverVerb {
    /// Receives without waiting.
    TryRecv,
    /// Receives, once there is something to receive.
    Recv,
    /// How many values the receiver has to come.
    Left,
    /// The newest value.
    Borrow,
    /// The newest value, which is seen then.
    Take,
    /// Whether the newest value is unseen.
    HasChanged,
    /// Marks the newest value seen, where it is unseen.
    TryChanged,
    /// The same, once there is an unseen value.
    Changed,
    /// Makes the newest value unseen.
    MarkChanged,
    /// Marks the newest value seen.
    MarkUnchanged,
}

/// Where a new receiver begins.
#[derive(Clone, Copy, Debug, Drop, PartialEq, Eq)]
pub enum Start {
    /// At the tail: it gets what is sent from now on.
    Tail,
    /// At the oldest value that is kept. Only a broadcast channel has such a start.
    Oldest,
}
