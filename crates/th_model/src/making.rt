//! The making of a topic.
use crate::value::Value;

/// How a topic is made.
#[derive(Debug, Drop, PartialEq, Eq)]
pub enum Making {
    /// A broadcast channel of the capacity asked for, whose first value stands at 0.
    Broadcast(u64),
    /// A broadcast channel of the capacity asked for, whose first value stands at the second number.
    BroadcastAt(u64, u64),
    /// A watch channel with this value.
    Watch(Value),
}
