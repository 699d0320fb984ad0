//! What sessions were told, held against the histories of the topics.
ghost use Rattle.std.specs.Prelude.{◌≡◌, ◌↔◌, IsTrue, MatchResult, map};
ghost use Rattle.std.specs.List.{AllByRecursion};
ghost use Rattle.th_log.specs.Audit.{Stands};
ghost use Rattle.th_schedule.specs.Schedule.{IsEntry, StandsIn, event_of};
ghost use Rattle.th_schedule.specs.Strangers.{IsFirstIn};

use std::alloc::Global;
use th_log::{Compared, Receipt, Segment};
use th_orders::EventAt;
use th_registry::channel::{TopicReceipt, TopicSegment};
use th_registry::{Channel, TopicId};

/// Why the events of a session are not told.
pub(crate) enum Unread {
    /// The first receipt that is no entry of its topic's segment.
    Stranger { topic: u64, place: u64 },
    /// Memory was refused.
    Short,
}

// Whether the receipt has the segment's key, and the call and the reply of the entry at its place.
fn stands<O: Compared>(segment: &Segment<O>, receipt: &Receipt<O>) -> bool
    requires { O.exact }
    ensures { IsTrue result ↔ Stands segment.now receipt.now }
{
    O::are_exact();
    if receipt.key() != segment.key() || receipt.place() < segment.first() {
        return false;
    }
    match segment.entry(receipt.place() - segment.first()) {
        Some((call, reply)) => {
            O::same_call(call, receipt.call()) && O::same_reply(reply, receipt.reply())
        }
        None => false,
    }
}

// The same, where both are of the same kind.
fn stands_in(segment: &TopicSegment, receipt: &TopicReceipt) -> bool
    ensures { IsTrue result ↔ StandsIn segment.now receipt.now }
{
    match segment {
        Channel::Broadcast(segment) => match receipt {
            Channel::Broadcast(receipt) => stands(segment, receipt),
            Channel::Watch(_) => false,
        },
        Channel::Watch(segment) => match receipt {
            Channel::Broadcast(_) => false,
            Channel::Watch(receipt) => stands(segment, receipt),
        },
    }
}

// Whether the receipt is an entry of its topic's segment.
fn is_entry(segments: &[TopicSegment], told: &(TopicId, TopicReceipt)) -> bool
    ensures { IsTrue result ↔ IsEntry segments.now told.now }
{
    if told.0.0 >= segments.len() as u64 {
        return false;
    }
    stands_in(&segments[told.0.0 as usize], &told.1)
}

// The event of which a receipt tells.
fn event(told: &(TopicId, TopicReceipt)) -> EventAt
    ensures { result ≡ event_of told.now }
{
    let place = match &told.1 {
        Channel::Broadcast(receipt) => receipt.place(),
        Channel::Watch(receipt) => receipt.place(),
    };
    EventAt {
        topic: told.0.0,
        place,
    }
}

/// The events of which a session was told.
pub(crate) fn events(
    alloc: Global,
    segments: &[TopicSegment],
    session: &[(TopicId, TopicReceipt)],
) -> Result<Vec<EventAt>, Unread>
    ensures { MatchResult result
        (λ events. (events.items ≡ map event_of session.now)
        × AllByRecursion (IsEntry segments.now) session.now)
        (λ why. IsFirstIn segments.now session.now why) }
{
    let mut events = Vec::new(alloc);
    for told in session {
        if !is_entry(segments, told) {
            let EventAt { topic, place } = event(told);
            return Err(Unread::Stranger { topic, place });
        }
        let Ok(()) = events.push(event(told)) else {
            return Err(Unread::Short);
        };
    }
    Ok(events)
}
