//! The search for an order.
ghost use Rattle.std.specs.Prelude.{◌≡◌, ◌++◌, ◌<◌, ◌≤◌, ◌∷◌, [], IfNone, IfOk, IfSome, MatchResult, None, OnOk, Some, ℕ, length, map, slice_get};
ghost use Rattle.th_orders.specs.Orders.{AreOver, IsHeldAt, IsNext, IsOrder, first_of};
ghost use Rattle.th_orders.specs.Rests.{events_of};
ghost use Rattle.th_orders.specs.Search.{Goes, IsUnordered};
ghost use Rattle.th_orders.specs.Waiting.{AreSeenTo, IsDue, Wakes, looks_left, waits};

use crate::nexts::NextPlaces;
use crate::rests::{EventAt, Rests};
use std::alloc::{AllocError, Global};
use std::collections::HashMap;
use thiserror::Error;

/// Why no order is told.
#[derive(Clone, Copy, Debug, Drop, Error, PartialEq, Eq)]
pub enum Unordered {
    /// There is none. Each session that is left waits for another: this one for the events of the topic before this place.
    #[error("no order: session {session} is held up at place {place} of topic {topic}")]
    HeldUp {
        session: u64,
        topic: u64,
        place: u64,
    },
    /// Memory was refused.
    #[error("no memory")]
    Short,
}

// The numbers below this one, downward.
fn downward(alloc: Global, count: usize) -> Result<Vec<usize>, AllocError>
    ensures all { IfOk result (λ all. (k : ℕ) → k < count → IsDue all.items k) }
    ensures len { IfOk result (λ all. length all.items ≡ count) }
{
    let mut all = Vec::with_capacity(alloc, count)?;
    for number in 0..count {
        all.push(count - 1 - number)?;
    }
    Ok(all)
}

// A search for an order.
#[derive(Drop)]
struct Search {
    // The next place of each topic.
    nexts: NextPlaces,
    // What is left of each session.
    rests: Rests,
    // The sessions that are to be looked at.
    due: Vec<usize>,
    // Of the others that are not over one for each event with which they begin, by its topic and place.
    waiting: HashMap<(u64, u64), usize>,
    // What was taken, in order.
    order: Vec<EventAt>,
}

impl Search {
    // Nothing is taken yet, and each session is due, the first one first.
    fn new(alloc: Global, starts: &[u64], sessions: Vec<Vec<EventAt>>) -> Result<Search, AllocError>
        ensures { IfOk result (λ s. (s.nexts ≡ starts.now) × (s.order.items ≡ [])
            × (s.rests ≡ map events_of sessions.items) × (length s.due.items ≡ length s.rests)
            × AreSeenTo s.nexts s.rests s.due.items (waits s.waiting)) }
    {
        let nexts = NextPlaces::new(alloc, starts)?;
        let rests = Rests::new(alloc, sessions)?;
        let due = downward(alloc, rests.len())?;
        Ok(Search {
            nexts,
            rests,
            due,
            waiting: HashMap::new(alloc),
            order: Vec::new(alloc),
        })
    }

    // The session that waits for the next event of a topic becomes due.
    fn wake(&mut self, topic: u64) -> Result<(), AllocError>
        ensures wakes { OnOk result (Wakes self.old.nexts (waits self.old.waiting) topic
            self.old.due.items self.new.due.items) }
        ensures same { (self.new.nexts ≡ self.old.nexts) × (self.new.rests ≡ self.old.rests)
            × (self.new.waiting ≡ self.old.waiting) × (self.new.order ≡ self.old.order) }
    {
        let Some(next) = self.nexts.next(topic) else {
            return Ok(());
        };
        if let Some(session) = self.waiting.get(&(next.topic, next.place)) {
            self.due.push(*session)?;
        }
        Ok(())
    }

    // Takes the first event of a session, which is the next one of its topic.
    fn take(&mut self, session: usize, event: EventAt) -> Result<(), AllocError>
        requires first { first_of (slice_get self.old.rests session) ≡ Some event }
        requires next { IsNext self.old.nexts event }
        ensures along { OnOk result (Goes self.old.nexts self.old.rests self.old.order.items
            self.new.nexts self.new.rests self.new.order.items) }
        ensures seen { OnOk result (
            AreSeenTo self.old.nexts self.old.rests (self.old.due.items ++ session ∷ [])
            (waits self.old.waiting)
            → AreSeenTo self.new.nexts self.new.rests self.new.due.items (waits self.new.waiting)) }
        ensures looks { OnOk result (looks_left self.new.due.items self.new.rests
            ≤ looks_left self.old.due.items self.old.rests) }
    {
        self.nexts.advance(event);
        self.rests.take(session, event);
        self.order.push(event)?;
        self.due.push(session)?;
        self.wake(event.topic)?;
        Ok(())
    }

    // Looks at a session: its first event is taken, or the session waits for it.
    fn look(&mut self, session: usize) -> Result<(), AllocError>
        ensures along { OnOk result (Goes self.old.nexts self.old.rests self.old.order.items
            self.new.nexts self.new.rests self.new.order.items) }
        ensures seen { OnOk result (
            AreSeenTo self.old.nexts self.old.rests (self.old.due.items ++ session ∷ [])
            (waits self.old.waiting)
            → AreSeenTo self.new.nexts self.new.rests self.new.due.items (waits self.new.waiting)) }
        ensures looks { OnOk result (looks_left self.new.due.items self.new.rests
            ≤ looks_left self.old.due.items self.old.rests) }
    {
        let Some(event) = self.rests.first(session) else {
            return Ok(());
        };
        if self.nexts.is_next(event) {
            self.take(session, event)?;
            Ok(())
        } else {
            self.waiting.insert((event.topic, event.place), session)?;
            Ok(())
        }
    }

    // Looks at who is due until nobody is. Tells how often it has looked.
    fn run(&mut self) -> Result<u64, AllocError>
        ensures along { OnOk result (Goes self.old.nexts self.old.rests self.old.order.items
            self.new.nexts self.new.rests self.new.order.items) }
        ensures held { OnOk result (
            AreSeenTo self.old.nexts self.old.rests self.old.due.items (waits self.old.waiting)
            → (k : ℕ) → IsHeldAt self.new.nexts self.new.rests k) }
        ensures linear { IfOk result (λ looks.
            looks ≤ looks_left self.old.due.items self.old.rests) }
    {
        let mut looks: u64 = 0;
        while let Some(session) = self.due.pop() {
            self.look(session)?;
            looks = looks.saturating_add(1);
        }
        Ok(looks)
    }
}

// The first session that is not over, with its first event.
fn first_left(rests: &Rests) -> Option<(usize, EventAt)>
    ensures over { IfNone result (AreOver rests.now) }
    ensures left { IfSome result (λ found. first_of (slice_get rests.now found.0) ≡ Some found.1) }
    ensures first { IfSome result (λ found. (k : ℕ) → k < found.0
        → first_of (slice_get rests.now k) ≡ None) }
{
    for session in 0..rests.len() {
        match rests.first(session) {
            Some(event) => return Some((session, event)),
            None => {}
        }
    }
    None
}

/// One order of all events of which sessions were told: each session's stand in their order, and each topic's by their places,
/// from the place on with which the topic starts here, without a gap. Or, where there is no such order, the first event of the
/// first session that is not over when the search has come to its end.
///
/// Linear: it looks at a session at most once for each session and twice for each event, with a look-up by hash for each look.
pub fn order(
    alloc: Global,
    starts: &[u64],
    sessions: Vec<Vec<EventAt>>,
) -> Result<Vec<EventAt>, Unordered>
    ensures { MatchResult result
        (λ order. IsOrder starts.now (map events_of sessions.items) order.items)
        (λ why. IsUnordered starts.now (map events_of sessions.items) why) }
{
    let Ok(mut search) = Search::new(alloc, starts, sessions) else {
        return Err(Unordered::Short);
    };
    let Ok(_) = search.run() else {
        return Err(Unordered::Short);
    };
    match first_left(&search.rests) {
        None => Ok(search.order),
        Some((session, EventAt { topic, place })) => Err(Unordered::HeldUp {
            session: session as u64,
            topic,
            place,
        }),
    }
}
