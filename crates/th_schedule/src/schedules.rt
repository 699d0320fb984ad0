//! One order of all events.
ghost use Rattle.std.specs.Prelude.{◌≡◌, ◌+◌, ◌^◌, ◌<◌, ◌++◌, IfOk, MatchResult, OnOk, map};
ghost use Rattle.std.specs.List.{AllByRecursion};
ghost use Rattle.th_orders.specs.Rests.{events_of};
ghost use Rattle.th_registry.specs.Legal.{IsLegalSegment};
ghost use Rattle.th_schedule.specs.Hub.{behind, first_of};
ghost use Rattle.th_schedule.specs.Schedule as specs;
ghost use Rattle.th_schedule.specs.Schedule.{AreEntries, IsSchedule, IsUnscheduled, told_of};
ghost use Rattle.th_schedule.specs.Strangers.{IsStrangerOrShort, unordered_of, why_of};
ghost use Rattle.th_schedule.specs.Untold.{noted, own};

use crate::gaps::{Events, told, untold};
use crate::receipts::{Unread, events};
use std::alloc::{AllocError, Global};
use th_orders::{EventAt, Unordered, order};
use th_registry::channel::{TopicReceipt, TopicSegment};
use th_registry::{Channel, TopicId};
use thiserror::Error;

/// Why no schedule is told.
#[derive(Clone, Copy, Debug, Drop, Error, PartialEq, Eq)]
pub enum Unscheduled {
    /// There is none: what this session was told of the event is not what stands at this place of the topic's history.
    #[error("session {session} was told what is not at place {place} of topic {topic}")]
    Stranger {
        session: u64,
        topic: u64,
        place: u64,
    },
    /// There is none. Each session that is left waits for another: this one for the events of the topic before this place.
    #[error("no schedule: session {session} is held up at place {place} of topic {topic}")]
    HeldUp {
        session: u64,
        topic: u64,
        place: u64,
    },
    /// Memory was refused.
    #[error("no memory")]
    Short,
}

// The first place of a segment.
fn first(segment: &TopicSegment) -> u64
    ensures { result ≡ first_of segment.now }
{
    match segment {
        Channel::Broadcast(segment) => segment.first(),
        Channel::Watch(segment) => segment.first(),
    }
}

// How many entries a segment has. What is true of every segment is said here.
fn count(segment: &TopicSegment) -> u64
    ensures count { first_of segment.now + result ≡ behind segment.now }
    ensures small { behind segment.now < 2 ^ 64 }
    ensures legal { IsLegalSegment segment.now }
{
    match segment {
        Channel::Broadcast(segment) => {
            let _ = segment.first();
            segment.len()
        }
        Channel::Watch(segment) => {
            let _ = segment.first();
            segment.len()
        }
    }
}

// The first places of the segments.
fn starts(alloc: Global, segments: &[TopicSegment]) -> Result<Vec<u64>, AllocError>
    ensures { IfOk result (λ starts. starts.items ≡ map first_of segments.now) }
{
    let mut starts = Vec::with_capacity(alloc, segments.len())?;
    for segment in segments {
        starts.push(first(segment))?;
    }
    Ok(starts)
}

// Of each topic one session more, of the events of which nobody was told.
fn add_untold(
    alloc: Global,
    segments: &[TopicSegment],
    told: &Events,
    sessions: &mut Vec<Vec<EventAt>>,
) -> Result<(), AllocError>
    ensures added { OnOk result (map events_of sessions.new.items ≡ map events_of sessions.old.items
        ++ own (noted told.now) 0 (map first_of segments.now) (map behind segments.now)) }
    ensures legal { OnOk result (AllByRecursion IsLegalSegment segments.now) }
{
    for topic in 0..segments.len() {
        let segment = &segments[topic];
        let first = first(segment);
        let count = count(segment);
        let events = untold(alloc, told, topic as u64, first, count)?;
        sessions.push(events)?;
    }
    Ok(())
}

// Why there is no schedule, where the events of this session are not told.
fn of_session(session: u64, why: Unread) -> Unscheduled
    ensures { result ≡ why_of session why }
{
    match why {
        Unread::Stranger { topic, place } => Unscheduled::Stranger {
            session,
            topic,
            place,
        },
        Unread::Short => Unscheduled::Short,
    }
}

// Why there is no schedule, where there is no order.
fn in_order(why: Unordered) -> Unscheduled
    ensures { result ≡ unordered_of why }
{
    match why {
        Unordered::HeldUp {
            session,
            topic,
            place,
        } => Unscheduled::HeldUp {
            session,
            topic,
            place,
        },
        Unordered::Short => Unscheduled::Short,
    }
}

// The events of which each session was told.
fn all_events(
    alloc: Global,
    segments: &[TopicSegment],
    sessions: &[Vec<(TopicId, TopicReceipt)>],
) -> Result<Vec<Vec<EventAt>>, Unscheduled>
    ensures { MatchResult result
        (λ all. (map events_of all.items ≡ specs.events_of (map told_of sessions.now))
        × AreEntries segments.now (map told_of sessions.now))
        (λ why. IsStrangerOrShort segments.now (map told_of sessions.now) why) }
{
    let mut all = Vec::new(alloc);
    for number in 0..sessions.len() {
        match events(alloc, segments, &sessions[number]) {
            Ok(told) => {
                let Ok(()) = all.push(told) else {
                    return Err(Unscheduled::Short);
                };
            }
            Err(why) => return Err(of_session(number as u64, why)),
        }
    }
    Ok(all)
}

/// One order of all events of a hub's topics, from the places on where these segments begin: each topic's entries stand in
/// their order, and so does what each session was told, in the order of its answers. Carried out in this order the calls are
/// one legal history of the hub. An entry of which nobody was told, such as the end of a handle, stands where its topic's
/// order puts it. Or the receipt that is none of the entries, or the one at which a session is held up; then there is no such
/// order.
///
/// The segments are those of the topics in the order of their numbers. Linear in the entries and the receipts, but for
/// look-ups by hash.
pub fn schedule(
    alloc: Global,
    segments: &[TopicSegment],
    sessions: &[Vec<(TopicId, TopicReceipt)>],
) -> Result<Vec<EventAt>, Unscheduled>
    ensures { MatchResult result
        (λ order. IsSchedule segments.now (map told_of sessions.now) order.items)
        (λ why. IsUnscheduled segments.now (map told_of sessions.now) why) }
{
    let mut all = match all_events(alloc, segments, sessions) {
        Ok(all) => all,
        Err(why) => return Err(why),
    };
    let Ok(told) = told(alloc, &all) else {
        return Err(Unscheduled::Short);
    };
    let Ok(starts) = starts(alloc, segments) else {
        return Err(Unscheduled::Short);
    };
    let Ok(()) = add_untold(alloc, segments, &told, &mut all) else {
        return Err(Unscheduled::Short);
    };
    match order(alloc, &starts, all) {
        Ok(order) => Ok(order),
        Err(why) => Err(in_order(why)),
    }
}
