//! The desk of one thread, which never waits.
ghost use Rattle.std.specs.Prelude.{◌≡◌, ◌≤◌, ◌<◌, ◌↔◌, [], IfOk, IsOk, false};
ghost use Rattle.th_registry.specs.Pictures.{DeskSays};

use crate::channel::{TopicReceipt, TopicSegment};
use crate::desk::Desk;
use crate::event;
use crate::opening::{Found, Refusal, TopicId};
use crate::outcome::{Made, NoEvent, Unspent};
use crate::topics::{Channels, list, open_broadcast, open_watch};
use indexmap::IndexMap;
use std::alloc::Global;
use std::collections::VecDeque;
use std::marker::Model;
use std::time::Duration;
use th_log::MOST_ENTRIES;
use th_model::{
    Listing, Making, NameRef, Question, ReceiverVerb, RxId, SenderVerb, Short, Start, TxId, Value,
};
use thiserror::Error;

/// At most 1,024 topics by name, in order of opening, each with its channel and the channel's log.
#[derive(Drop)]
pub struct LocalDesk {
    /// The topics.
    pub topics: Channels,
    // The most entries of a segment of each topic, 1 to 1,000,000. It never changes.
    limit: u64,
}

impl Model for LocalDesk {
    ghost use Rattle.th_registry.specs.Pictures.{Desk};

    ghost Value = { Desk };

    ghost view = { λ d. record { limit = d.limit; topics = d.topics.entries } };
}

/// A limit is 1 to 1,000,000.
#[derive(Clone, Copy, Debug, Drop, Error, PartialEq, Eq)]
#[error("a limit is 1 to 1,000,000")]
pub struct BadLimit;

impl LocalDesk {
    /// No topic. Segments have at most 1,000,000 entries. It takes no memory.
    pub fn new(alloc: Global) -> LocalDesk
        ensures { result ≡ record { limit = 1000000; topics = [] } }
    {
        LocalDesk::empty(alloc, MOST_ENTRIES)
    }

    // No topic, and this limit.
    fn empty(alloc: Global, limit: u64) -> LocalDesk
        ensures { result ≡ record { limit = limit; topics = [] } }
    {
        LocalDesk {
            topics: IndexMap::new(alloc),
            limit,
        }
    }

    /// No topic. Segments have at most so many entries, 1 to 1,000,000. It takes no memory.
    pub fn with_limit(alloc: Global, limit: u64) -> Result<LocalDesk, BadLimit>
        ensures desk { IfOk result (λ desk. desk ≡ record { limit = limit; topics = [] }) }
        ensures limits { IsOk result ↔ (0 < limit) × (limit ≤ 1000000) }
    {
        if limit == 0 || limit > MOST_ENTRIES {
            return Err(BadLimit);
        }
        Ok(LocalDesk::empty(alloc, limit))
    }
}

// A handle that was not spent.
fn unspent<H>(handle: H, why: NoEvent) -> Unspent<H>
    ensures handle { result.handle ≡ handle }
    ensures why { result.why ≡ why }
{
    Unspent { handle, why }
}

impl Desk for LocalDesk {
    type Tx = TxId;

    type Rx = RxId;

    // Nobody waits at it.
    type Owed = ();

    ghost owes = { λ _. false };

    ghost tx = { λ t. t };

    ghost rx = { λ r. r };

    ghost says = { DeskSays };

    fn find(&self, name: &NameRef<'_>) -> Option<Found> {
        match self.topics.get_full(name) {
            Some((number, _, channel)) => Some(Found {
                topic: TopicId(number as u64),
                kind: channel.kind(),
            }),
            None => None,
        }
    }

    fn list(&self) -> Result<Listing, Short<()>> {
        list(&self.topics)
    }

    fn open_topic(&mut self, name: NameRef<'_>, making: Making) -> Result<u64, Refusal> {
        if self.find(&name).is_some() {
            return Err(Refusal::Exists);
        }
        let name = name.to_name();
        match making {
            Making::Broadcast(asked) => open_broadcast(
                &mut self.topics,
                self.limit,
                name,
                asked,
                0,
            ),
            Making::BroadcastAt(asked, base) => {
                open_broadcast(&mut self.topics, self.limit, name, asked, base)
            }
            Making::Watch(value) => open_watch(&mut self.topics, self.limit, name, value),
        }
    }

    fn bind(&mut self, topic: TopicId) -> Result<Made<TxId>, NoEvent> {
        let Some(channel) = self.topics.get_index_mut(topic.0 as usize) else {
            return Err(NoEvent::NoTopic);
        };
        event::bind(channel)
    }

    fn subscribe(
        &mut self,
        topic: TopicId,
        start: Start,
        sender: &mut Option<TxId>,
    ) -> Result<Made<RxId>, NoEvent> {
        let Some(channel) = self.topics.get_index_mut(topic.0 as usize) else {
            return Err(NoEvent::NoTopic);
        };
        event::subscribe(channel, start, *sender)
    }

    #[inline(always)]
    fn by_sender(
        &mut self,
        topic: TopicId,
        sender: &mut TxId,
        verb: SenderVerb<Value>,
        _owed: &mut (),
    ) -> Result<TopicReceipt, NoEvent> {
        let Some(channel) = self.topics.get_index_mut(topic.0 as usize) else {
            return Err(NoEvent::NoTopic);
        };
        event::by_sender(channel, *sender, verb)
    }

    fn ask(
        &mut self,
        topic: TopicId,
        sender: &mut Option<TxId>,
        question: Question,
    ) -> Result<TopicReceipt, NoEvent> {
        let Some(channel) = self.topics.get_index_mut(topic.0 as usize) else {
            return Err(NoEvent::NoTopic);
        };
        event::ask(channel, *sender, question)
    }

    #[inline(always)]
    fn by_receiver(
        &mut self,
        topic: TopicId,
        receiver: &mut RxId,
        verb: ReceiverVerb,
        _owed: &(),
    ) -> Result<TopicReceipt, NoEvent> {
        let Some(channel) = self.topics.get_index_mut(topic.0 as usize) else {
            return Err(NoEvent::NoTopic);
        };
        event::by_receiver(channel, *receiver, verb)
    }

    fn resubscribe(&mut self, topic: TopicId, receiver: &mut RxId) -> Result<Made<RxId>, NoEvent> {
        let Some(channel) = self.topics.get_index_mut(topic.0 as usize) else {
            return Err(NoEvent::NoTopic);
        };
        event::resubscribe(channel, *receiver)
    }

    fn spend_sender(&mut self, topic: TopicId, sender: TxId) -> Result<(), Unspent<TxId>> {
        let Some(channel) = self.topics.get_index_mut(topic.0 as usize) else {
            return Err(unspent(sender, NoEvent::NoTopic));
        };
        match event::drop_tx(channel, sender) {
            Ok(()) => Ok(()),
            Err(why) => Err(unspent(sender, why)),
        }
    }

    fn spend_receiver(&mut self, topic: TopicId, receiver: RxId) -> Result<(), Unspent<RxId>> {
        let Some(channel) = self.topics.get_index_mut(topic.0 as usize) else {
            return Err(unspent(receiver, NoEvent::NoTopic));
        };
        match event::drop_rx(channel, receiver) {
            Ok(()) => Ok(()),
            Err(why) => Err(unspent(receiver, why)),
        }
    }

    fn end(&mut self, topic: TopicId) -> Result<(), NoEvent> {
        let Some(channel) = self.topics.get_index_mut(topic.0 as usize) else {
            return Err(NoEvent::NoTopic);
        };
        event::end(channel)
    }

    fn cut(&mut self, topic: TopicId) -> Result<TopicSegment, NoEvent> {
        let Some(channel) = self.topics.get_index_mut(topic.0 as usize) else {
            return Err(NoEvent::NoTopic);
        };
        event::cut(channel)
    }

    fn give_back(&mut self, _topic: TopicId, _segment: TopicSegment) {}

    fn owing_nothing(&self) {}

    fn wake(&mut self, _owed: &mut ()) {}

    fn close(_owed: ()) {}

    fn would_wait(&self, _topic: TopicId, _receiver: &RxId, _verb: ReceiverVerb) -> bool {
        false
    }

    fn wait(
        &mut self,
        _topic: TopicId,
        _receiver: &mut RxId,
        _longest: Duration,
        _owed: &(),
    ) -> bool {
        true
    }

    // There is no lock to save, so it makes none in a row.
    fn send_row(
        &mut self,
        _topic: TopicId,
        _sender: &mut TxId,
        _values: &mut VecDeque<Value>,
        _receipts: &mut Vec<(TopicId, TopicReceipt)>,
    ) -> usize {
        0
    }

    fn by_receiver_row(
        &mut self,
        _topic: TopicId,
        _receiver: &mut RxId,
        _verb: ReceiverVerb,
        _most: usize,
        _receipts: &mut Vec<(TopicId, TopicReceipt)>,
    ) -> usize {
        0
    }
}
