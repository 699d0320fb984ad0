//! The events of which nobody was told.
ghost use Rattle.std.specs.Prelude.{◌≡◌, ◌+◌, ◌^◌, ◌<◌, ◌||◌, IfOk, OnOk, map};
ghost use Rattle.th_orders.specs.Rests.{events_of};
ghost use Rattle.th_schedule.specs.Untold.{noted, untold_from};
ghost use Rattle.th_schedule.specs.Woven.{is_told, tells};

use std::alloc::{AllocError, Global};
use std::collections::HashSet;
use th_orders::EventAt;

/// Events by topic and place.
pub(crate) type Events = HashSet<(u64, u64)>;

// Notes what a session was told of.
fn note(told: &mut Events, session: &[EventAt]) -> Result<(), AllocError>
    ensures { OnOk result ((e : EventAt) →
        noted told.new e ≡ (noted told.old e || tells session.now e)) }
{
    for event in session {
        told.insert((event.topic, event.place))?;
    }
    Ok(())
}

/// All events of which sessions were told.
pub(crate) fn told(alloc: Global, sessions: &[Vec<EventAt>]) -> Result<Events, AllocError>
    ensures { IfOk result (λ told. (e : EventAt) →
        noted told e ≡ is_told (map events_of sessions.now) e) }
{
    let mut told = HashSet::new(alloc);
    for session in sessions {
        note(&mut told, session)?;
    }
    Ok(told)
}

/// The other events of a topic, from a place on, of so many.
pub(crate) fn untold(
    alloc: Global,
    told: &Events,
    topic: u64,
    first: u64,
    count: u64,
) -> Result<Vec<EventAt>, AllocError>
    requires { first + count < 2 ^ 64 }
    ensures { IfOk result (λ events.
        events.items ≡ untold_from (noted told.now) topic first count) }
{
    let mut events = Vec::new(alloc);
    for number in 0..count {
        let place = first + number;
        if !told.contains(&(topic, place)) {
            events.push(EventAt { topic, place })?;
        }
    }
    Ok(events)
}
