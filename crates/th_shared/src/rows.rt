//! Events of one handle in a row, made under one lock.
ghost use Rattle.std.specs.Prelude.{◌≡◌, ◌+◌, ◌++◌, ◌≤◌, List, length, map, vec_capacity, vec_len};
ghost use Rattle.th_block.specs.Handles.{rx};
ghost use Rattle.th_registry.specs.Events.{Receives as Received};
ghost use Rattle.th_registry.specs.Receipts.{ChannelReceipt};
ghost use Rattle.th_registry.specs.Rows.{MadeInRow, on_topic, sends_of, times};
ghost use Rattle.th_shared.specs.InRow.{CallsOnce, ReceivesInRow, SendsInRow, SendsOnce};
ghost use Rattle.th_shared.specs.Numbers.{receiver as rx_of, sender as tx_of};
ghost use Rattle.th_shared.specs.Saying.{AtHub, Says};

use crate::event::is_on;
use crate::handles::{TopicReceiver, TopicSender};
use std::alloc::Global;
use std::collections::VecDeque;
use std::sync::Wait;
use th_block::{BSender, Handle, Receives};
use th_log::{Kind, Receipt};
use th_model::{ReceiverVerb, RxId, Value};
use th_registry::channel::{HubBroadcast, HubWatch, TopicReceipt};
use th_registry::{Channel, TopicId};

/// Room for the receipts of the events of a row.
pub(crate) type Room<O> = Vec<Receipt<O>>;

/// Room for the receipts of a row of either kind.
#[derive(Drop)]
pub(crate) struct Rooms {
    pub(crate) broadcast: Room<HubBroadcast>,
    pub(crate) watch: Room<HubWatch>,
}

impl Rooms {
    /// It takes no memory.
    pub(crate) fn new(alloc: Global) -> Rooms {
        Rooms {
            broadcast: Vec::new(alloc),
            watch: Vec::new(alloc),
        }
    }
}

// Sends these values from the front of the queue on, under one lock, and wakes once. The receipts of those that were sent are in
// the room then.
fn send<R: Wait>(
    rt: &R,
    topic: TopicId,
    sender: &mut BSender<Value>,
    values: &mut VecDeque<Value>,
    room: &mut Room<HubBroadcast>,
)
    ensures number { sender.new.number ≡ sender.old.number }
    ensures few { length room.new.items ≤ length values.old.items }
    ensures sends { SendsOnce topic.0 values.old.items sender.old sender.new room.new.items }
{
    room.clear();
    if !is_on(sender, topic) || room.reserve(values.len()).is_err() {
        return;
    }
    let _ = sender.send_many(rt, values, room);
}

// What a receiver does so often in a row, under one lock, as it has its answer at once. The receipts are in the room then.
fn receive<O: Kind, R: Wait>(
    rt: &R,
    topic: TopicId,
    receiver: &mut Handle<O, Receives>,
    verb: ReceiverVerb,
    most: usize,
    room: &mut Room<O>,
)
    requires { O.lawful }
    ensures number { receiver.new.number ≡ receiver.old.number }
    ensures few { length room.new.items ≤ most }
    ensures receives { CallsOnce topic.0 (O.by_receiver verb (rx receiver.old)) most
        receiver.old receiver.new room.new.items }
{
    room.clear();
    let Some(call) = O::by_receiver(verb, RxId(receiver.number())) else {
        return;
    };
    if !is_on(receiver, topic) || room.reserve(most).is_err() {
        return;
    }
    receiver.call_while_ready(rt, &call, most, room);
}

/// Whether what a receiver does would wait now.
pub(crate) fn would_wait<O: Kind, R: Wait>(
    rt: &R,
    receiver: &Handle<O, Receives>,
    verb: ReceiverVerb,
) -> bool {
    match O::by_receiver(verb, RxId(receiver.number())) {
        Some(call) => receiver.would_wait(rt, &call),
        None => false,
    }
}

// Puts these receipts behind the others, as those of the topic: how many.
fn put_broadcast(
    topic: TopicId,
    room: &mut Room<HubBroadcast>,
    receipts: &mut Vec<(TopicId, TopicReceipt)>,
) -> usize
    requires { vec_len receipts.old + length room.old.items ≤ vec_capacity receipts.old }
    ensures count { result ≡ length room.old.items }
    ensures behind { receipts.new.items
        ≡ receipts.old.items ++ on_topic topic.0 (map (λ r. Channel.Broadcast r) room.old.items) }
{
    let count = room.len();
    for receipt in room.drain(..) {
        receipts.push_reserved((topic, Channel::Broadcast(receipt)));
    }
    count
}

// The same of a watch channel.
fn put_watch(
    topic: TopicId,
    room: &mut Room<HubWatch>,
    receipts: &mut Vec<(TopicId, TopicReceipt)>,
) -> usize
    requires { vec_len receipts.old + length room.old.items ≤ vec_capacity receipts.old }
    ensures count { result ≡ length room.old.items }
    ensures behind { receipts.new.items
        ≡ receipts.old.items ++ on_topic topic.0 (map (λ r. Channel.Watch r) room.old.items) }
{
    let count = room.len();
    for receipt in room.drain(..) {
        receipts.push_reserved((topic, Channel::Watch(receipt)));
    }
    count
}

/// Sends of these values in a row, of the first ones: how many. A watch channel makes none.
pub(crate) fn send_row<R: Wait>(
    rt: &R,
    topic: TopicId,
    sender: &mut TopicSender,
    values: &mut VecDeque<Value>,
    rooms: &mut Rooms,
    receipts: &mut Vec<(TopicId, TopicReceipt)>,
) -> usize
    requires { vec_len receipts.old + length values.old.items ≤ vec_capacity receipts.old }
    ensures number { tx_of sender.new ≡ tx_of sender.old }
    ensures row { (hub : AtHub) → MadeInRow Says topic.0
        (sends_of (tx_of sender.old) values.old.items)
        receipts.old.items receipts.new.items hub hub result }
    ensures does { (told : List ChannelReceipt)
        × SendsInRow topic.0 values.old.items sender.old sender.new told
        × (receipts.new.items ≡ receipts.old.items ++ on_topic topic.0 told) }
{
    match sender {
        Channel::Broadcast(handle) => {
            send(rt, topic, handle, values, &mut rooms.broadcast);
            put_broadcast(topic, &mut rooms.broadcast, receipts)
        }
        Channel::Watch(_) => 0,
    }
}

/// What a receiver does in a row, at most so often, as it has its answer at once: how often.
pub(crate) fn receive_row<R: Wait>(
    rt: &R,
    topic: TopicId,
    receiver: &mut TopicReceiver,
    verb: ReceiverVerb,
    most: usize,
    rooms: &mut Rooms,
    receipts: &mut Vec<(TopicId, TopicReceipt)>,
) -> usize
    requires { vec_len receipts.old + most ≤ vec_capacity receipts.old }
    ensures number { rx_of receiver.new ≡ rx_of receiver.old }
    ensures row { (hub : AtHub) → MadeInRow Says topic.0
        (times most (Received (rx_of receiver.old) verb))
        receipts.old.items receipts.new.items hub hub result }
    ensures does { (told : List ChannelReceipt)
        × ReceivesInRow topic.0 verb most receiver.old receiver.new told
        × (receipts.new.items ≡ receipts.old.items ++ on_topic topic.0 told) }
{
    match receiver {
        TopicReceiver::Live(Channel::Broadcast(handle)) => {
            receive(rt, topic, handle, verb, most, &mut rooms.broadcast);
            put_broadcast(topic, &mut rooms.broadcast, receipts)
        }
        TopicReceiver::Live(Channel::Watch(handle)) => {
            receive(rt, topic, handle, verb, most, &mut rooms.watch);
            put_watch(topic, &mut rooms.watch, receipts)
        }
        TopicReceiver::Spent(_) => 0,
    }
}
