//! How the topics of a hub cut their histories by themselves.
ghost use Rattle.std.specs.Prelude.{◌≤◌, ◌*◌, min, IfOk};
ghost use Rattle.th_shared.specs.Limits.{HaveLimits};

use crate::registry::Topics;
use std::alloc::{AllocError, Global};
use std::sync::{Arc, Wait};
use th_block::Cuts;
use th_registry::channel::{HubBroadcast, HubWatch, TopicSegment};
use th_registry::{Channel, MOST_IN_ROW};

/// By so many entries a history may be longer than from where on it is cut: at most 64 events are carried out together, and these are
/// not parted.
pub const TOGETHER: u64 = MOST_IN_ROW as u64 - 1;

/// Histories that go on: each topic's is cut by the call that finds it long, and the parts go to a queue for each kind of channel.
#[derive(Drop)]
pub struct Histories {
    // From so many entries on a topic's history is cut.
    pub(crate) most: u64,
    // How many entries the histories of all topics have together.
    memory: u64,
    /// The parts of broadcast topics.
    pub broadcast: Arc<Cuts<HubBroadcast>>,
    /// The parts of watch topics.
    pub watch: Arc<Cuts<HubWatch>>,
}

impl Histories {
    /// Histories of at most so many entries each, and so many of all topics together: each topic has an equal part of these. In
    /// each queue half as many wait.
    pub fn new(alloc: Global, most: u64, memory: u64) -> Result<Histories, AllocError>
        ensures { IfOk result (HaveLimits most memory) }
    {
        Ok(Histories {
            most,
            memory,
            broadcast: Arc::new(alloc, Cuts::new(alloc, memory / 2))?,
            watch: Arc::new(alloc, Cuts::new(alloc, memory / 2))?,
        })
    }

    /// How many entries a topic's segment has at most.
    pub(crate) fn longest(&self) -> u64 {
        self.most.min(self.memory).saturating_add(TOGETHER)
    }

    /// Keeps a part that somebody else has cut.
    pub(crate) fn put<R: Wait>(&self, rt: &R, part: TopicSegment) {
        match part {
            Channel::Broadcast(part) => self.broadcast.put(rt, part),
            Channel::Watch(part) => self.watch.put(rt, part),
        }
    }

    /// Nothing more is to come.
    pub fn end<R: Wait>(&self, rt: &R) {
        self.broadcast.end(rt);
        self.watch.end(rt);
    }

    /// How many parts found no room in a queue.
    pub fn lost<R: Wait>(&self, rt: &R) -> u64 {
        self.broadcast.lost(rt).saturating_add(self.watch.lost(rt))
    }
}

// How many entries one of so many topics may have.
fn part_of(most: u64, memory: u64, topics: u64) -> u64
    ensures most { result ≤ most }
    ensures together { result * topics ≤ memory }
{
    match memory.checked_div(topics) {
        Some(part) => part.min(most),
        None => 0,
    }
}

// Has a topic cut its history from so many entries on.
fn roll<R: Wait>(rt: &R, topics: &Topics, number: usize, most: u64) {
    let Some((_, topic)) = topics.get_index(number) else {
        return;
    };
    match topic {
        Channel::Broadcast(topic) => topic.owner.roll_at(rt, most),
        Channel::Watch(topic) => topic.owner.roll_at(rt, most),
    }
}

/// Divides the memory anew, once a topic was opened behind the others.
pub(crate) fn divide<R: Wait>(rt: &R, topics: &Topics, histories: &Histories) {
    let count = topics.len();
    let most = part_of(histories.most, histories.memory, count as u64);
    // As long as there is enough for all, only the new one is to hear of it.
    let first = if most == histories.most {
        count.saturating_sub(1)
    } else {
        0
    };
    for number in first..count {
        roll(rt, topics, number, most);
    }
}
