//! A picture of a channel, of either kind.
use th_model::Value;

/// The picture that a trace begins with.
#[derive(Drop)]
pub enum Picture {
    /// Of a broadcast channel.
    Broadcast(th_bcast::PictureParts<Value>),
    /// Of a watch channel.
    Watch(th_watch::PictureParts<Value>),
}
