//! The next place of each topic.
ghost use Rattle.std.specs.Prelude.{◌≡◌, ◌^◌, ◌<◌, ◌↔◌, IfNone, IfOk, IfSome, IsTrue, Some, slice_get};
ghost use Rattle.th_orders.specs.Orders.{IsNext, advanced};

use crate::rests::EventAt;
use std::alloc::{AllocError, Global};
use std::marker::Model;

/// The next place of each topic, by the topic's number.
#[derive(Drop)]
pub(crate) struct NextPlaces {
    // None behind the last place that a number of 64 bits can tell.
    places: Vec<Option<u64>>,
}

impl Model for NextPlaces {
    ghost use Rattle.std.specs.Prelude.{map};
    ghost use Rattle.th_orders.specs.Nexts.{place_of};
    ghost use Rattle.th_orders.specs.Orders.{Nexts};

    ghost Value = { Nexts };

    ghost view = { λ n. map place_of n.places.items };
}

impl NextPlaces {
    /// These places.
    pub(crate) fn new(alloc: Global, starts: &[u64]) -> Result<NextPlaces, AllocError>
        ensures { IfOk result (λ nexts. nexts ≡ starts.now) }
    {
        let mut places = Vec::with_capacity(alloc, starts.len())?;
        for start in starts {
            places.push(Some(*start))?;
        }
        Ok(NextPlaces { places })
    }

    /// Whether the event is the next one of its topic.
    pub(crate) fn is_next(&self, event: EventAt) -> bool
        ensures { IsTrue result ↔ IsNext self.now event }
    {
        if event.topic >= self.places.len() as u64 {
            return false;
        }
        match self.places[event.topic as usize] {
            Some(place) => place == event.place,
            None => false,
        }
    }

    /// The next event of a topic. None of a topic that is not there, or behind its last place.
    pub(crate) fn next(&self, topic: u64) -> Option<EventAt>
        ensures some { IfSome result (λ e. (e.topic ≡ topic) × IsNext self.now e) }
        ensures none { IfNone result ((e : EventAt) → e.topic ≡ topic → e.place < 2 ^ 64
            → IsNext self.now e → ⊥) }
    {
        if topic >= self.places.len() as u64 {
            return None;
        }
        match self.places[topic as usize] {
            Some(place) => Some(EventAt { topic, place }),
            None => None,
        }
    }

    /// Goes on to the place behind an event that is the next one of its topic.
    pub(crate) fn advance(&mut self, event: EventAt)
        requires { IsNext self.old event }
        ensures { self.new ≡ advanced self.old event.topic }
    {
        self.places[event.topic as usize] = event.place.checked_add(1);
    }
}
