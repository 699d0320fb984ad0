//! What the desks of one hub have in common.
ghost use Rattle.std.specs.Prelude.{◌≡◌, is_some, IfOk, IfSome};
ghost use Rattle.std.specs.Sync.Mutex.{mutex_guard_value};
ghost use Rattle.th_registry.specs.Hub.{Cut};
ghost use Rattle.th_shared.specs.Saying.{MaySay};

use crate::cut::cut;
use crate::histories::Histories;
use crate::registry::{Topics, another_owner};
use crate::room::Room;
use crate::segments::entries_of;
use std::alloc::Global;
use std::hash::RandomState;
use std::sync::{Mutex, MutexGuard, Wait};
use th_log::MOST_ENTRIES;
use th_model::Short;
use th_registry::channel::TopicSegment;
use th_registry::{NoEvent, TopicId};

/// The topics of a hub, under their lock, how they cut their histories, where they do so by themselves, and the hub's seal.
#[derive(Drop)]
pub(crate) struct SharedTopics {
    pub(crate) topics: Mutex<Topics>,
    pub(crate) histories: Option<Histories>,
    // By which contracts tell one hub from another: a box has one owner, so no two hubs that are there have theirs at one place.
    pub(crate) seal: Box<u8>,
}

impl SharedTopics {
    /// No topics yet. Their names are hashed with these keys, and there is this room for them.
    pub(crate) fn new(
        alloc: Global,
        histories: Option<Histories>,
        keys: RandomState,
        room: Room,
    ) -> Result<SharedTopics, Short<()>>
        ensures { IfOk result (λ hub. hub.histories ≡ histories) }
    {
        let rolls = histories.is_some();
        match Box::new(alloc, 0) {
            Ok(seal) => Ok(SharedTopics {
                topics: Mutex::new(Topics::new(alloc, rolls, keys, room)),
                histories,
                seal,
            }),
            Err(_) => Err(Short { call: () }),
        }
    }

    /// The topics, under their lock, as they are to be changed. `None` where they cut their logs otherwise than the hub, which none
    /// does.
    pub(crate) fn lock<R: Wait>(&self, rt: &R) -> Option<MutexGuard<'_, Topics>>
        ensures { IfSome result (λ topics.
            (mutex_guard_value topics).rolls ≡ is_some self.now.histories) }
    {
        let topics = self.topics.lock(rt);
        if topics.rolls() == self.histories.is_some() {
            Some(topics)
        } else {
            None
        }
    }

    // How many entries a topic's segment has at most.
    fn longest(&self) -> u64 {
        match &self.histories {
            Some(histories) => histories.longest(),
            None => MOST_ENTRIES,
        }
    }

    /// The topic's segment so far, which has its room until it is told. The topics' lock is let go before the channel's is taken.
    pub(crate) fn cut<R: Wait>(&self, rt: &R, topic: TopicId) -> Result<TopicSegment, NoEvent>
        ensures { MaySay (Cut topic.0) result }
    {
        let longest = self.longest();
        let owner = {
            let mut topics = self.topics.lock(rt);
            let owner = another_owner(&*topics, topic);
            if owner.is_ok() && !topics.begin_telling(longest) {
                return Err(NoEvent::Short);
            }
            owner
        };
        match owner {
            Ok(owner) => {
                let segment = cut(rt, &owner, topic);
                let entries = match &segment {
                    Ok(segment) => entries_of(segment),
                    Err(_) => 0,
                };
                self.end_telling(rt, longest.saturating_sub(entries));
                segment
            }
            Err(why) => Err(why),
        }
    }

    /// So many entries of segments that were cut are told.
    pub(crate) fn end_telling<R: Wait>(&self, rt: &R, entries: u64) {
        let mut topics = self.topics.lock(rt);
        topics.end_telling(entries);
    }
}
