//! The topics of a hub, and why one is not opened.
use th_model::Kind;
use thiserror::Error;

/// The number of a topic: its place in the order of opening, from 0.
#[derive(Clone, Copy, Debug, Drop, PartialEq, Eq)]
pub struct TopicId(pub u64);

/// A topic that is there.
#[derive(Clone, Copy, Debug, Drop, PartialEq, Eq)]
pub struct Found {
    pub topic: TopicId,
    pub kind: Kind,
}

/// Why no topic was opened. Nothing has changed.
#[derive(Clone, Copy, Debug, Drop, Error, PartialEq, Eq)]
pub enum Refusal {
    /// The name is a topic's already.
    #[error("a topic of this name exists")]
    Exists,
    /// The capacity asked for is 0, or above 65,536.
    #[error("the capacity is out of range")]
    BadCapacity,
    /// There are 1,024 topics.
    #[error("too many topics")]
    TooManyTopics,
    /// There was no memory.
    #[error("no memory")]
    Short,
}
