//! Calls of th_registry, at a desk of one thread. What they answer is handed on, so that nothing is let go here.
use indexmap::IndexMap;
use std::alloc::Global;
use std::collections::VecDeque;
use std::time::Duration;
use th_log::{MakeFault, Receipt, Segment};
use th_model::{
    Kind, Listing, Making, Name, NameRef, Question, ReceiverVerb, RxId, SenderVerb, Short, Start,
    TxId, Value, WCall,
};
use th_registry::calls::{answers, receives, sends, starts, waits};
use th_registry::channel::{LocalChannel, TopicReceipt, TopicSegment};
use th_registry::recorded::Recorded;
use th_registry::topics::list;
use th_registry::{
    BadLimit, Desk, Found, LocalDesk, Made, NoEvent, Refusal, TopicId, Unspent, laws,
};
use th_watch::Watch;

pub fn law() {
    laws::queries_are_seen();
    laws::handles_live_until_spent();
    laws::histories_are_legal();
}

pub fn has_call(
    kind: Kind,
    verb: &SenderVerb<Value>,
    question: Question,
    read: ReceiverVerb,
) -> [bool; 5] {
    [
        starts(kind, Start::Tail),
        sends(kind, verb),
        answers(kind, question),
        receives(kind, read),
        waits(read),
    ]
}

pub fn record(
    log: &mut Recorded<Watch<u64>>,
    call: WCall<u64>,
) -> Option<Result<Receipt<Watch<u64>>, NoEvent>> {
    if !log.object().ready(&call) {
        return None;
    }
    Some(log.record(call))
}

pub fn keep_call(log: &mut Recorded<Watch<u64>>, call: WCall<u64>) -> Result<(), NoEvent> {
    if log.last_reply().is_some() || !log.object().ready(&call) {
        return Err(NoEvent::Blocked);
    }
    log.keep(call)
}

pub fn keep_or_say_why(log: &mut Recorded<Watch<u64>>, call: WCall<u64>) -> Result<(), NoEvent> {
    th_registry::keep(log, Some(call))
}

pub fn cut(log: &mut Recorded<Watch<u64>>) -> Result<Segment<Watch<u64>>, Short<()>> {
    log.cut()
}

pub fn make(
    alloc: Global,
    light: Watch<u64>,
) -> (
    Result<Recorded<Watch<u64>>, MakeFault>,
    LocalDesk,
    Result<LocalDesk, BadLimit>,
) {
    (
        Recorded::new(alloc, light, 7, 1),
        LocalDesk::new(alloc),
        LocalDesk::with_limit(alloc, 7),
    )
}

pub fn look(
    channel: &LocalChannel,
    topics: &IndexMap<Name, LocalChannel>,
) -> (Kind, Result<Listing, Short<()>>) {
    (channel.kind(), list(topics))
}

pub fn open(
    desk: &mut LocalDesk,
    name: &NameRef<'_>,
    other: NameRef<'_>,
    making: Making,
) -> (
    Option<Found>,
    Result<Listing, Short<()>>,
    Result<u64, Refusal>,
) {
    (desk.find(name), desk.list(), desk.open_topic(other, making))
}

pub fn enter(
    desk: &mut LocalDesk,
    topic: TopicId,
    rx: &mut RxId,
) -> (
    Result<Made<TxId>, NoEvent>,
    [Result<Made<RxId>, NoEvent>; 2],
) {
    (
        desk.bind(topic),
        [
            desk.subscribe(topic, Start::Oldest, &mut None),
            desk.resubscribe(topic, rx),
        ],
    )
}

pub fn act(
    desk: &mut LocalDesk,
    topic: TopicId,
    tx: &mut TxId,
    rx: &mut RxId,
    verb: SenderVerb<Value>,
) -> [Result<TopicReceipt, NoEvent>; 3] {
    [
        desk.by_sender(topic, tx, verb, &mut ()),
        desk.ask(topic, &mut None, Question::Readers),
        desk.by_receiver(topic, rx, ReceiverVerb::Recv, &()),
    ]
}

pub fn leave(
    desk: &mut LocalDesk,
    topic: TopicId,
    tx: TxId,
    rx: RxId,
) -> (
    Result<(), Unspent<TxId>>,
    Result<(), Unspent<RxId>>,
    Result<(), NoEvent>,
) {
    (
        desk.spend_sender(topic, tx),
        desk.spend_receiver(topic, rx),
        desk.end(topic),
    )
}

pub fn give_back(desk: &mut LocalDesk, topic: TopicId, segment: TopicSegment) {
    desk.give_back(topic, segment);
}

pub fn keep(
    desk: &mut LocalDesk,
    topic: TopicId,
    rx: &mut RxId,
) -> (Result<TopicSegment, NoEvent>, bool) {
    let mut owed = desk.owing_nothing();
    desk.wake(&mut owed);
    let waits = desk.wait(topic, rx, Duration::from_secs(1), &owed);
    LocalDesk::close(owed);
    (desk.cut(topic), waits)
}

pub fn rows(
    alloc: Global,
    desk: &mut LocalDesk,
    topic: TopicId,
    tx: &mut TxId,
    rx: &mut RxId,
) -> (usize, usize) {
    let mut values = VecDeque::new(alloc);
    let Ok(mut receipts) = Vec::with_capacity(alloc, 7) else {
        return (0, 0);
    };
    let sent = desk.send_row(topic, tx, &mut values, &mut receipts);
    let mut receipts = Vec::new(alloc);
    let received = desk.by_receiver_row(topic, rx, ReceiverVerb::Recv, 0, &mut receipts);
    (sent, received)
}
