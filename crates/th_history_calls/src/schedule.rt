//! Calls of th_schedule.
use std::alloc::Global;
use th_orders::EventAt;
use th_registry::TopicId;
use th_registry::channel::{TopicReceipt, TopicSegment};
use th_schedule::{Unscheduled, schedule};

pub fn search(
    alloc: Global,
    segments: &[TopicSegment],
    sessions: &[Vec<(TopicId, TopicReceipt)>],
) -> Result<Vec<EventAt>, Unscheduled> {
    schedule(alloc, segments, sessions)
}
