//! What a handle stands for.
use crate::text::Text;
use th_bcast::Broadcast;
use th_log::Segment;
use th_model::Value;
use th_registry::recorded::Recorded;
use th_ring::RingShelf;
use th_watch::Watch;

/// A broadcast channel.
pub(crate) type RingBroadcast<T> = Broadcast<T, RingShelf<T>>;

/// One of numbers.
pub(crate) type NumberBroadcast = RingBroadcast<u64>;

/// One of bytes.
pub(crate) type BytesBroadcast = RingBroadcast<Value>;

/// A watch channel of a number.
pub(crate) type NumberWatch = Watch<u64>;

/// One of bytes.
pub(crate) type BytesWatch = Watch<Value>;

/// What is behind a handle.
#[derive(Drop)]
pub enum Content {
    /// A broadcast channel that keeps no history.
    Broadcast(NumberBroadcast),
    /// One that keeps its history.
    RecordedBroadcast(Recorded<NumberBroadcast>),
    /// A broadcast channel of bytes that keeps no history.
    BroadcastOfBytes(BytesBroadcast),
    /// One that keeps its history.
    RecordedBroadcastOfBytes(Recorded<BytesBroadcast>),
    /// A watch channel that keeps no history.
    Watch(NumberWatch),
    /// One that keeps its history.
    RecordedWatch(Recorded<NumberWatch>),
    /// A watch channel of bytes that keeps no history.
    WatchOfBytes(BytesWatch),
    /// One that keeps its history.
    RecordedWatchOfBytes(Recorded<BytesWatch>),
    /// A segment of a broadcast channel's history, whose trace was not read yet.
    BroadcastHistory(Segment<NumberBroadcast>),
    /// One of a broadcast channel of bytes.
    BroadcastHistoryOfBytes(Segment<BytesBroadcast>),
    /// One of a watch channel's.
    WatchHistory(Segment<NumberWatch>),
    /// One of a watch channel of bytes.
    WatchHistoryOfBytes(Segment<BytesWatch>),
    /// A trace, as far as it was not read yet.
    Read(Text),
}
