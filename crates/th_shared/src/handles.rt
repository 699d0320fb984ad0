//! The handles of a topic that threads share.
use th_block::{BReceiver, BSender, Shared, WReader, WSender};
use th_model::Value;
use th_registry::Channel;
use th_registry::channel::{HubBroadcast, HubWatch};

/// A sender of a topic.
pub type TopicSender = Channel<BSender<Value>, WSender<Value>>;

/// A live receiver of a topic.
pub type LiveReceiver = Channel<BReceiver<Value>, WReader<Value>>;

/// An owner of a topic's channel.
pub(crate) type TopicOwner = Channel<Shared<HubBroadcast>, Shared<HubWatch>>;

/// A receiver of a topic.
#[derive(Drop)]
pub enum TopicReceiver {
    /// It makes calls.
    Live(LiveReceiver),
    /// It was spent when another began in its place, and this was its number.
    Spent(u64),
}
