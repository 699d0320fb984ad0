//! The topics that threads share, as they stand under their lock.
ghost use Rattle.std.specs.Prelude.{◌≡◌, ◌+◌, ◌++◌, ◌∷◌, ◌<◌, ◌^◌, [], false, is_some, length, slice_get, IfErr, IfOk, IfSome, OnOk, Some};
ghost use Rattle.std.specs.Map.Iter.{deref_pair};
ghost use Rattle.std.specs.Option.{option_map};
ghost use Rattle.th_block.specs.Handles.{unused};
ghost use Rattle.th_registry.specs.Events.{Asks, Binds, DropsTx, Hub, Subscribes};
ghost use Rattle.th_registry.specs.Hub.{On, find, list};
ghost use Rattle.th_registry.specs.Typed.{ended, made_rx, made_tx, replied};
ghost use Rattle.th_shared.specs.ByHub.{TopicDoes, TopicEnds};
ghost use Rattle.th_shared.specs.Kept.{Stays};
ghost use Rattle.th_shared.specs.Numbers.{receiver, sender};
ghost use Rattle.th_shared.specs.Doing.{IsNewHandle, IsNewReceiver};
ghost use Rattle.th_shared.specs.OwnSender.{HaveKeys, own_key, own_rolls, own_share};
ghost use Rattle.th_shared.specs.Rows.{AtTopic, IsNamed, Opens, Owns};
ghost use Rattle.th_shared.specs.Saying.{MaySay};

use crate::handles::{TopicOwner, TopicReceiver, TopicSender};
use crate::histories::Histories;
use crate::room::Room;
use crate::said::{broadcast_receivers, broadcast_senders, watch_receivers, watch_senders};
use crate::shares::Shares;
use crate::told::{broadcast_told, watch_told};
use crate::topic::{AnyTopic, Topic};
use indexmap::IndexMap;
use std::alloc::Global;
use std::hash::RandomState;
use std::marker::Model;
use std::mem::replace;
use std::sync::{Arc, Wait};
use th_block::{broadcast_at, rolling_broadcast_at, rolling_watch, watch};
use th_log::MOST_ENTRIES;
use th_model::{Capacity, Listing, Making, Name, NameRef, Question, Short, Start, Value};
use th_registry::channel::{HubBroadcast, HubWatch, TopicReceipt};
use th_registry::{Channel, Found, MOST_TOPICS, Made, NoEvent, Refusal, TopicId, topics};

/// Topics by their names, which clients choose: no client can find names that meet in the map, since its keys are random.
pub(crate) type TopicRows = IndexMap<Name, AnyTopic, RandomState>;

/// At most 1,024 topics by their names, in order of opening. The share of each topic's own sender has the topic's key, which is its
/// number, counted from 1.
#[derive(Drop)]
pub(crate) struct Topics {
    rows: TopicRows,
    // Whether their channels cut their logs by themselves. It never changes.
    rolls: bool,
    // What there is room for beside what they hold.
    room: Room,
}

impl Model for Topics {
    ghost use Rattle.th_shared.specs.OwnSender.{HaveKeys, HubTopics, RollAlike};

    ghost Value = { HubTopics };

    ghost view = { λ t. record { entries = t.rows.entries; rolls = t.rolls } };

    ghost invariant = { λ t. HaveKeys 1 t.rows.entries × RollAlike t.rolls t.rows.entries };
}

impl Topics {
    /// None, of channels that are to cut their logs by themselves, or not to. Their names are hashed with these keys, and they may
    /// hold what there is room for.
    pub(crate) fn new(alloc: Global, rolls: bool, keys: RandomState, room: Room) -> Topics
        ensures { result ≡ record { entries = []; rolls = rolls } }
    {
        Topics {
            rows: IndexMap::with_hasher(alloc, keys),
            rolls,
            room,
        }
    }

    /// All of them. None are left, and no more can be opened.
    pub(crate) fn take(&mut self, alloc: Global) -> Topics
        ensures taken { result ≡ self.old }
        ensures left { self.new ≡ record self.old { entries = [] } }
    {
        let keys = *self.rows.hasher();
        let none = Topics::new(alloc, self.rolls, keys, Room::none());
        replace(self, none)
    }

    /// Whether their channels cut their logs by themselves.
    pub(crate) fn rolls(&self) -> bool
        ensures { result ≡ self.now.rolls }
    {
        self.rolls
    }

    /// How many there are.
    pub(crate) fn len(&self) -> usize
        ensures len { result ≡ length self.now.entries }
        ensures small { result < 2 ^ 63 }
    {
        self.rows.len()
    }

    // By which their map takes memory.
    fn allocator(&self) -> Global {
        *self.rows.allocator()
    }

    /// The topic of this number, with its name.
    pub(crate) fn get_index(&self, number: usize) -> Option<(&Name, &AnyTopic)>
        ensures { option_map deref_pair result ≡ slice_get self.now.entries number }
    {
        self.rows.get_index(number)
    }

    /// The topics with their kinds.
    pub(crate) fn list(&self) -> Result<Listing, Short<()>>
        ensures { IfOk result (λ listing. listing ≡ list self.now.entries) }
    {
        topics::list(&self.rows)
    }

    /// The topics by themselves.
    pub(crate) fn into_rows(self) -> TopicRows
        ensures rows { result.entries ≡ self.entries }
        ensures keys { HaveKeys 1 self.entries }
    {
        self.rows
    }

    /// Whether there is room to tell a trace of so many entries. The room is taken then.
    pub(crate) fn begin_telling(&mut self, entries: u64) -> bool
        ensures { self.new ≡ self.old }
    {
        self.room.take_entries(entries)
    }

    /// So many of these entries are told no longer.
    pub(crate) fn end_telling(&mut self, entries: u64)
        ensures { self.new ≡ self.old }
    {
        self.room.give_entries(entries);
    }

    // One more at the end that holds so many values at most, under a name that is not there; memory may be refused for it, and then
    // nothing has changed.
    fn add(&mut self, name: Name, topic: AnyTopic, values: u64) -> Result<(), Refusal>
        requires absent { is_some (find self.old.entries name) ≡ false }
        requires key { own_key topic ≡ Some (length self.old.entries + 1) }
        requires rolls { own_rolls topic ≡ self.old.rolls }
        ensures ok { OnOk result (self.new
            ≡ record self.old { entries = self.old.entries ++ (name, topic) ∷ [] }) }
        ensures err { IfErr result (λ why. (why ≡ Refusal.Short) × (self.new ≡ self.old)) }
    {
        match self.rows.insert(name, topic) {
            Ok(_) => {
                self.room.take_topic(values);
                Ok(())
            }
            Err(_) => Err(Refusal::Short),
        }
    }
}

/// The topic of this name.
pub(crate) fn find(topics: &Topics, name: &NameRef<'_>) -> Option<Found>
    ensures { result ≡ find topics.now.entries name.now }
{
    match topics.rows.get_full(name) {
        Some((number, _, topic)) => Some(Found {
            topic: TopicId(number as u64),
            kind: topic.kind(),
        }),
        None => None,
    }
}

// A topic with a new broadcast channel, if there is room and memory for it. Where there are histories, it cuts its own by itself.
fn broadcast_topic(
    topics: &Topics,
    histories: Option<&Histories>,
    capacity: Capacity,
    base: u64,
    key: u64,
) -> Option<Topic<HubBroadcast>>
    ensures share { IfSome result (λ topic. own_share topic ≡ Some (unused key)) }
    ensures rolls { IfSome result (λ topic. topic.rolls ≡ is_some histories.entry) }
{
    if !topics.room.has_topic(capacity.in_force()) {
        return None;
    }
    let alloc = topics.allocator();
    match histories {
        None => match broadcast_at::<Value>(alloc, capacity, base, MOST_ENTRIES, key) {
            Ok(sender) => Topic::new(sender),
            Err(_) => None,
        },
        Some(histories) => {
            let cuts = Arc::try_clone(&histories.broadcast).ok()?;
            match rolling_broadcast_at::<Value>(alloc, capacity, base, key, histories.most, cuts) {
                Ok(sender) => Topic::new(sender),
                Err(_) => None,
            }
        }
    }
}

// The same with a watch channel.
fn watch_topic(
    topics: &Topics,
    histories: Option<&Histories>,
    value: Value,
    key: u64,
) -> Option<Topic<HubWatch>>
    ensures share { IfSome result (λ topic. own_share topic ≡ Some (unused key)) }
    ensures rolls { IfSome result (λ topic. topic.rolls ≡ is_some histories.entry) }
{
    if !topics.room.has_topic(1) {
        return None;
    }
    let alloc = topics.allocator();
    match histories {
        None => match watch::<Value>(alloc, value, MOST_ENTRIES, key) {
            Ok(sender) => Topic::new(sender),
            Err(_) => None,
        },
        Some(histories) => {
            let cuts = Arc::try_clone(&histories.watch).ok()?;
            match rolling_watch::<Value>(alloc, value, key, histories.most, cuts) {
                Ok(sender) => Topic::new(sender),
                Err(_) => None,
            }
        }
    }
}

// A broadcast topic at the end, under a name that is not there: its capacity in force.
fn open_broadcast(
    topics: &mut Topics,
    histories: Option<&Histories>,
    name: Name,
    asked: u64,
    base: u64,
) -> Result<u64, Refusal>
    requires absent { is_some (find topics.old.entries name) ≡ false }
    requires rolls { topics.old.rolls ≡ is_some histories }
    ensures { Opens topics.old.entries name (Making.BroadcastAt asked base) result
        topics.new.entries }
{
    let Ok(capacity) = Capacity::new(asked) else {
        return Err(Refusal::BadCapacity);
    };
    if topics.len() >= MOST_TOPICS {
        return Err(Refusal::TooManyTopics);
    }
    let key = topics.len() as u64 + 1;
    let Some(topic) = broadcast_topic(&*topics, histories, capacity, base, key) else {
        return Err(Refusal::Short);
    };
    let in_force = capacity.in_force();
    let Ok(()) = topics.add(name, Channel::Broadcast(topic), in_force) else {
        return Err(Refusal::Short);
    };
    Ok(in_force)
}

// The same of a watch topic, for which 1 is told.
fn open_watch(
    topics: &mut Topics,
    histories: Option<&Histories>,
    name: Name,
    value: Value,
) -> Result<u64, Refusal>
    requires absent { is_some (find topics.old.entries name) ≡ false }
    requires rolls { topics.old.rolls ≡ is_some histories }
    ensures { Opens topics.old.entries name (Making.Watch value) result topics.new.entries }
{
    if topics.len() >= MOST_TOPICS {
        return Err(Refusal::TooManyTopics);
    }
    let key = topics.len() as u64 + 1;
    let Some(topic) = watch_topic(&*topics, histories, value, key) else {
        return Err(Refusal::Short);
    };
    let Ok(()) = topics.add(name, Channel::Watch(topic), 1) else {
        return Err(Refusal::Short);
    };
    Ok(1)
}

/// Opens a topic, and answers the number that is told of it. Where there are histories, it cuts its own by itself.
pub(crate) fn open(
    topics: &mut Topics,
    histories: Option<&Histories>,
    name: &NameRef<'_>,
    making: Making,
) -> Result<u64, Refusal>
    requires { topics.old.rolls ≡ is_some histories }
    ensures { Opens topics.old.entries name.now making result topics.new.entries }
{
    if find(&*topics, name).is_some() {
        return Err(Refusal::Exists);
    }
    let name = name.to_name();
    match making {
        Making::Broadcast(asked) => open_broadcast(topics, histories, name, asked, 0),
        Making::BroadcastAt(asked, base) => open_broadcast(topics, histories, name, asked, base),
        Making::Watch(value) => open_watch(topics, histories, name, value),
    }
}

// A new sender, by the hub's own.
fn bind_at<R: Wait>(
    rt: &R,
    at: &mut AnyTopic,
    topic: TopicId,
    shares: &mut Shares,
) -> Result<Made<TopicSender>, NoEvent>
    ensures does { TopicDoes topic.0 Binds (made_tx sender result) at.old at.new }
    ensures new { IfOk result (λ made. IfSome made.handle
        (IsNewHandle topic.0 (own_rolls at.old) made.receipt)) }
    ensures shares { Stays shares.old shares.new }
{
    match at {
        Channel::Broadcast(at) => broadcast_senders(at.bind(rt, topic, shares)),
        Channel::Watch(at) => watch_senders(at.bind(rt, topic, shares)),
    }
}

/// A new sender, by the hub's own.
pub(crate) fn bind<R: Wait>(
    rt: &R,
    topics: &mut Topics,
    topic: TopicId,
    shares: &mut Shares,
) -> Result<Made<TopicSender>, NoEvent>
    ensures says { MaySay (On topic.0 Binds) (made_tx sender result) }
    ensures does { AtTopic topic.0 (TopicDoes topic.0 Binds) (made_tx sender result)
        topics.old.entries topics.new.entries }
    ensures new { IfOk result (λ made. IfSome made.handle
        (IsNewHandle topic.0 topics.old.rolls made.receipt)) }
    ensures shares { Stays shares.old shares.new }
{
    let Some(at) = topics.rows.get_index_mut(topic.0 as usize) else {
        return Err(NoEvent::NoTopic);
    };
    bind_at(rt, at, topic, shares)
}

// A new receiver that begins so, by the hub's own sender.
fn subscribe_at<R: Wait>(
    rt: &R,
    at: &mut AnyTopic,
    topic: TopicId,
    start: Start,
    shares: &mut Shares,
) -> Result<Made<TopicReceiver>, NoEvent>
    ensures does { TopicDoes topic.0 (Subscribes start Hub) (made_rx receiver result)
        at.old at.new }
    ensures new { IfOk result (λ made. IfSome made.handle
        (IsNewReceiver topic.0 (own_rolls at.old) made.receipt)) }
    ensures shares { Stays shares.old shares.new }
{
    match at {
        Channel::Broadcast(at) => broadcast_receivers(at.subscribe(rt, topic, start, shares)),
        Channel::Watch(at) => watch_receivers(at.subscribe(rt, topic, start, shares)),
    }
}

/// A new receiver that begins so, by the hub's own sender.
pub(crate) fn subscribe<R: Wait>(
    rt: &R,
    topics: &mut Topics,
    topic: TopicId,
    start: Start,
    shares: &mut Shares,
) -> Result<Made<TopicReceiver>, NoEvent>
    ensures says { MaySay (On topic.0 (Subscribes start Hub)) (made_rx receiver result) }
    ensures does { let event = Subscribes start Hub in
        AtTopic topic.0 (TopicDoes topic.0 event) (made_rx receiver result)
        topics.old.entries topics.new.entries }
    ensures new { IfOk result (λ made. IfSome made.handle
        (IsNewReceiver topic.0 topics.old.rolls made.receipt)) }
    ensures shares { Stays shares.old shares.new }
{
    let Some(at) = topics.rows.get_index_mut(topic.0 as usize) else {
        return Err(NoEvent::NoTopic);
    };
    subscribe_at(rt, at, topic, start, shares)
}

// A question through the hub's own sender.
fn ask_at<R: Wait>(
    rt: &R,
    at: &mut AnyTopic,
    topic: TopicId,
    question: Question,
) -> Result<TopicReceipt, NoEvent>
    ensures { TopicDoes topic.0 (Asks Hub question) (replied result) at.old at.new }
{
    match at {
        Channel::Broadcast(at) => broadcast_told(at.ask(rt, topic, question)),
        Channel::Watch(at) => watch_told(at.ask(rt, topic, question)),
    }
}

/// A question through the hub's own sender.
pub(crate) fn ask<R: Wait>(
    rt: &R,
    topics: &mut Topics,
    topic: TopicId,
    question: Question,
) -> Result<TopicReceipt, NoEvent>
    ensures says { MaySay (On topic.0 (Asks Hub question)) (replied result) }
    ensures does { AtTopic topic.0 (TopicDoes topic.0 (Asks Hub question)) (replied result)
        topics.old.entries topics.new.entries }
{
    let Some(at) = topics.rows.get_index_mut(topic.0 as usize) else {
        return Err(NoEvent::NoTopic);
    };
    ask_at(rt, at, topic, question)
}

// The end of the hub's own sender.
fn end_at<R: Wait>(rt: &R, at: &mut AnyTopic, topic: TopicId) -> Result<(), NoEvent>
    ensures { TopicEnds topic.0 (ended result) at.old at.new }
{
    match at {
        Channel::Broadcast(at) => at.end(rt, topic),
        Channel::Watch(at) => at.end(rt, topic),
    }
}

/// The end of the hub's own sender.
pub(crate) fn end<R: Wait>(rt: &R, topics: &mut Topics, topic: TopicId) -> Result<(), NoEvent>
    ensures says { MaySay (On topic.0 (DropsTx Hub)) (ended result) }
    ensures does { AtTopic topic.0 (TopicEnds topic.0) (ended result)
        topics.old.entries topics.new.entries }
{
    let Some(at) = topics.rows.get_index_mut(topic.0 as usize) else {
        return Err(NoEvent::NoTopic);
    };
    end_at(rt, at, topic)
}

/// An owner of a topic's channel, by which its log is cut.
pub(crate) fn another_owner(topics: &Topics, topic: TopicId) -> Result<TopicOwner, NoEvent>
    ensures { Owns (slice_get topics.now.entries topic.0) result }
{
    let Some((_, at)) = topics.get_index(topic.0 as usize) else {
        return Err(NoEvent::NoTopic);
    };
    let owner = match at {
        Channel::Broadcast(at) => match at.owner.another() {
            Ok(owner) => Some(Channel::Broadcast(owner)),
            Err(_) => None,
        },
        Channel::Watch(at) => match at.owner.another() {
            Ok(owner) => Some(Channel::Watch(owner)),
            Err(_) => None,
        },
    };
    match owner {
        Some(owner) => Ok(owner),
        None => Err(NoEvent::Short),
    }
}

/// The name of a topic.
pub(crate) fn name_of(topics: &Topics, topic: TopicId) -> Result<Name, NoEvent>
    ensures { IsNamed (slice_get topics.now.entries topic.0) result }
{
    let Some((name, _)) = topics.get_index(topic.0 as usize) else {
        return Err(NoEvent::NoTopic);
    };
    match name.clone() {
        Ok(name) => Ok(name),
        Err(_) => Err(NoEvent::Short),
    }
}
