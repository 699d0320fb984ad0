//! How far the lines of a picture were read.
use crate::broadcast_draft::BroadcastDraft;
use crate::head::Version;
use crate::watch_draft::WatchDraft;
use th_model::Capacity;

/// How far the lines of a picture were read, and what they told.
#[derive(Drop)]
pub enum Place {
    /// No line was read.
    Nothing,
    /// The first line of a broadcast trace, with the capacity in force.
    Headed(Version, Capacity),
    /// The line of the start, and maybe some below it.
    InBroadcast(Version, BroadcastDraft),
    /// The first line of a watch trace.
    WatchHeaded,
    /// The line of the start, and maybe some below it.
    InWatch(WatchDraft),
}
