//! Channels of any kind, and those of a desk of one thread.
ghost use Rattle.std.specs.Prelude.{◌≡◌};
ghost use Rattle.th_registry.specs.Kinds.{kind_of};

use crate::recorded::Recorded;
use th_bcast::Broadcast;
use th_log::{Receipt, Segment};
use th_model::{Kind, Value};
use th_ring::RingShelf;
use th_watch::Watch;

/// A channel of any kind.
#[derive(Drop)]
pub enum Channel<B, W> {
    Broadcast(B),
    Watch(W),
}

impl<B, W> Channel<B, W> {
    /// Its kind.
    pub fn kind(&self) -> Kind
        ensures { result ≡ kind_of self.now }
    {
        match self {
            Channel::Broadcast(_) => Kind::Broadcast,
            Channel::Watch(_) => Kind::Watch,
        }
    }
}

/// A broadcast channel of the hub.
pub type HubBroadcast = Broadcast<Value, RingShelf<Value>>;

/// A watch channel of the hub.
pub type HubWatch = Watch<Value>;

/// A segment of a topic's history.
pub type TopicSegment = Channel<Segment<HubBroadcast>, Segment<HubWatch>>;

/// The receipt of an event of a topic.
pub type TopicReceipt = Channel<Receipt<HubBroadcast>, Receipt<HubWatch>>;

/// A channel of a desk of one thread.
pub type LocalChannel = Channel<Recorded<HubBroadcast>, Recorded<HubWatch>>;
