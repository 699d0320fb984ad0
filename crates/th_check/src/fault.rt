//! Why a check stopped, and why a line does not lead on.
use th_model::{BReply, Value, WReply};
use thiserror::Error;

/// Why a check came to no verdict.
#[derive(Clone, Copy, Debug, Drop, Error, PartialEq, Eq)]
pub enum CheckFault {
    /// The reader failed.
    #[error("read fault")]
    Read,
    /// One more read would have been needed than there may be.
    #[error("too long")]
    TooLong,
    /// Memory was refused.
    #[error("no memory")]
    Short,
}

/// The reply that a channel gives to a call; none where the call would wait.
#[derive(Drop)]
pub enum Expected {
    /// A broadcast channel's.
    Broadcast(Option<BReply<Value>>),
    /// A watch channel's.
    Watch(Option<WReply<Value>>),
}

/// Why a line does not lead on.
#[derive(Drop)]
pub enum Stop {
    /// It is bad.
    Bad,
    /// It is a reply of good form that the channel does not give there. Its own is this one.
    Illegal(Expected),
    /// Memory was refused.
    Short,
}
