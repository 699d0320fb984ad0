//! What is left of sessions.
ghost use Rattle.std.specs.Prelude.{◌≡◌, ℕ, length, map, slice_get, IfOk, Some};
ghost use Rattle.th_orders.specs.Rests.{events_of};
ghost use Rattle.th_orders.specs.Orders.{Takes, first_of};

use std::alloc::{AllocError, Global};
use std::marker::Model;

/// An event of which a session was told.
#[derive(Clone, Copy, Debug, Drop, PartialEq, Eq)]
pub struct EventAt {
    /// The number of its topic.
    pub topic: u64,
    /// Its place in the topic's history.
    pub place: u64,
}

/// The events of sessions that are not taken yet.
#[derive(Drop)]
pub(crate) struct Rests {
    sessions: Vec<Vec<EventAt>>,
    // How many were taken of each.
    taken: Vec<usize>,
}

impl Model for Rests {
    ghost use Rattle.std.specs.Prelude.{◌≡◌, length};
    ghost use Rattle.th_orders.specs.Orders.{Sessions};
    ghost use Rattle.th_orders.specs.Rests.{rests};

    ghost Value = { Sessions };

    ghost view = { λ r. rests r.taken.items r.sessions.items };

    ghost invariant = { λ r. length r.taken.items ≡ length r.sessions.items };
}

impl Rests {
    /// All events of these sessions.
    pub(crate) fn new(alloc: Global, sessions: Vec<Vec<EventAt>>) -> Result<Rests, AllocError>
        ensures { IfOk result (λ rests. rests ≡ map events_of sessions.items) }
    {
        let taken = Vec::from_elem(alloc, 0, sessions.len())?;
        Ok(Rests { sessions, taken })
    }

    /// How many sessions there are.
    pub(crate) fn len(&self) -> usize
        ensures { result ≡ length self.now }
    {
        self.sessions.len()
    }

    /// The first event that is left of a session.
    pub(crate) fn first(&self, session: usize) -> Option<EventAt>
        ensures { result ≡ first_of (slice_get self.now session) }
    {
        if session >= self.sessions.len() {
            return None;
        }
        let events = &self.sessions[session];
        let taken = self.taken[session];
        if taken >= events.len() {
            return None;
        }
        Some(events[taken])
    }

    /// Takes the first event that is left of a session.
    pub(crate) fn take(&mut self, session: usize, event: EventAt)
        requires { first_of (slice_get self.old session) ≡ Some event }
        ensures takes { Takes self.old event self.new }
        ensures others { (k : ℕ) → (k ≡ session → ⊥)
            → slice_get self.new k ≡ slice_get self.old k }
    {
        self.taken[session] += 1;
    }
}
