//! Calls of th_block, at numbers. What they answer is handed on, so that nothing is let go here.
use std::alloc::Global;
use std::collections::VecDeque;
use std::sync::{Arc, Wait};
use std::time::{Clock, Duration};
use th_block::{
    BReceiver, BSender, Cuts, Receives, Resub, RingBroadcast, Sends, Shared, Side, WReader,
    WSender, broadcast, broadcast_at, laws, rolling_broadcast_at, rolling_watch, watch,
};
use th_glance::Glance;
use th_log::{Logged, MakeFault, Receipt, Refused, Segment};
use th_model::{BCall, Capacity, Edit, RxId, Short, Start, TxId, WCall};
use th_seats::Share;
use th_watch::Watch;

type News = RingBroadcast<u64>;

type Light = Watch<u64>;

/// What an event of the broadcast channel is answered.
pub type BTold = Result<Receipt<News>, Refused<BCall<u64>>>;

/// What an event of the broadcast channel is answered that may make a handle.
pub type BMade<H> = Result<(Receipt<News>, Option<H>), Refused<BCall<u64>>>;

/// What a loop over the broadcast channel is told, and whether that is the last.
pub type BNext = Result<(Receipt<News>, bool), Refused<BCall<u64>>>;

/// What an event of the watch channel is answered.
pub type WTold = Result<Receipt<Light>, Refused<WCall<u64>>>;

/// What a loop over the watch channel is told, and whether that is the last.
pub type WNext = Result<(Receipt<Light>, bool), Refused<WCall<u64>>>;

/// What an event of the watch channel is answered that may make a handle.
pub type WMade<H> = Result<(Receipt<Light>, Option<H>), Refused<WCall<u64>>>;

pub fn make(
    alloc: Global,
    capacity: Capacity,
) -> (
    Result<BSender<u64>, MakeFault>,
    Result<BSender<u64>, MakeFault>,
    Result<WSender<u64>, MakeFault>,
) {
    (
        broadcast(alloc, capacity, 7, 1),
        broadcast_at(alloc, capacity, 7, 7, 1),
        watch(alloc, 7, 7, 1),
    )
}

pub fn end() -> (WCall<u64>, WCall<u64>) {
    (
        <Sends as Side<Light>>::last(7),
        <Receives as Side<Light>>::last(7),
    )
}

pub fn by_sender(rt: &impl Wait, tx: &mut BSender<u64>) -> [BTold; 3] {
    [tx.send(rt, 7), tx.queued(rt), tx.readers(rt)]
}

pub fn enter_by_sender(
    rt: &impl Wait,
    tx: &mut BSender<u64>,
) -> ([BMade<BReceiver<u64>>; 2], BMade<BSender<u64>>) {
    ([tx.subscribe(rt), tx.subscribe_oldest(rt)], tx.clone_tx(rt))
}

pub fn enter_from(rt: &impl Wait, tx: &mut BSender<u64>) -> Option<BMade<BReceiver<u64>>> {
    tx.subscribe_from(rt, Start::Oldest)
}

pub fn by_receiver(rt: &impl Wait, rx: &mut BReceiver<u64>) -> ([BTold; 3], Option<BTold>) {
    ([rx.try_recv(rt), rx.recv(rt), rx.left(rt)], rx.next(rt))
}

pub fn loop_to_the_end(
    rt: &impl Wait,
    rx: &mut BReceiver<u64>,
    reader: &mut WReader<u64>,
) -> (BNext, WNext) {
    (rx.next_told(rt), reader.next_told(rt))
}

pub fn enter_by_receiver(rt: &impl Wait, rx: &mut BReceiver<u64>) -> BMade<BReceiver<u64>> {
    rx.resubscribe(rt)
}

pub fn replace(
    rt: &impl Wait,
    shared: &Shared<News>,
    old: BReceiver<u64>,
) -> Result<(Receipt<News>, Resub<u64>), (BReceiver<u64>, Refused<BCall<u64>>)> {
    shared.pair_resub(rt, old)
}

pub fn replace_by(
    rt: &impl Wait,
    shared: &Shared<News>,
    old: BReceiver<u64>,
) -> Result<(Receipt<News>, Resub<u64>), (BReceiver<u64>, Refused<BCall<u64>>)> {
    let call = BCall::Resubscribe(RxId(old.number()));
    shared.replace(rt, old, call)
}

pub fn by_writer(rt: &impl Wait, tx: &mut WSender<u64>, edit: Edit<u64>) -> [WTold; 5] {
    [
        tx.send(rt, 7),
        tx.replace(rt, 8),
        tx.edit(rt, edit),
        tx.is_closed(rt),
        tx.readers(rt),
    ]
}

pub fn enter_by_writer(
    rt: &impl Wait,
    tx: &mut WSender<u64>,
) -> (WMade<WReader<u64>>, WMade<WSender<u64>>) {
    (tx.subscribe(rt), tx.clone_tx(rt))
}

pub fn by_reader(rt: &impl Wait, rx: &mut WReader<u64>) -> [WTold; 5] {
    [
        rx.borrow(rt),
        rx.take(rt),
        rx.has_changed(rt),
        rx.mark_changed(rt),
        rx.mark_unchanged(rt),
    ]
}

pub fn wait_by_reader(
    rt: &impl Wait,
    rx: &mut WReader<u64>,
) -> ([WTold; 2], Option<WTold>, WMade<WReader<u64>>) {
    (
        [rx.try_changed(rt), rx.changed(rt)],
        rx.next(rt),
        rx.clone_rx(rt),
    )
}

pub fn look(
    rt: &impl Wait,
    tx: &mut WSender<u64>,
    call: &WCall<u64>,
) -> (Glance, [bool; 2], [u64; 3]) {
    (
        tx.glance(),
        [tx.learn(7), tx.would_wait(rt, call)],
        [tx.number(), tx.key(), tx.seen()],
    )
}

pub fn wait_for<R: Wait + Clock>(rt: &R, tx: &WSender<u64>, call: &WCall<u64>) -> bool {
    tx.wait_for(rt, call, Duration::from_secs(1))
}

pub fn call_quietly(rt: &impl Wait, tx: &mut WSender<u64>) -> WTold {
    let call = WCall::Send(TxId(tx.number()), 7);
    tx.call_quietly(rt, call)
}

pub fn call_while_ready(
    rt: &impl Wait,
    alloc: Global,
    tx: &mut WSender<u64>,
) -> Vec<Receipt<Light>> {
    let call = WCall::Readers(TxId(tx.number()));
    let mut receipts = Vec::new(alloc);
    tx.call_while_ready(rt, &call, 7, &mut receipts);
    receipts
}

pub fn call_each(
    rt: &impl Wait,
    alloc: Global,
    tx: &mut WSender<u64>,
    receipts: &mut Vec<Receipt<Light>>,
) -> Option<Result<(), Refused<WCall<u64>>>> {
    let call = WCall::Readers(TxId(tx.number()));
    let mut calls = VecDeque::new(alloc);
    let Ok(()) = calls.push_back(call) else {
        return None;
    };
    Some(tx.call_each(rt, &mut calls, receipts))
}

pub fn send_many(
    rt: &impl Wait,
    tx: &mut BSender<u64>,
    values: &mut VecDeque<u64>,
    receipts: &mut Vec<Receipt<News>>,
) -> Result<(), Refused<BCall<u64>>> {
    tx.send_many(rt, values, receipts)
}

pub fn publish_many(
    rt: &impl Wait,
    tx: &mut WSender<u64>,
    values: &mut VecDeque<u64>,
    receipts: &mut Vec<Receipt<Light>>,
) -> Result<(), Refused<WCall<u64>>> {
    tx.send_many(rt, values, receipts)
}

pub fn recv_many(
    rt: &impl Wait,
    rx: &mut BReceiver<u64>,
    receipts: &mut Vec<Receipt<News>>,
) -> Result<usize, Refused<BCall<u64>>> {
    rx.recv_many(rt, receipts, 7)
}

pub fn spend(
    rt: &impl Wait,
    tx: WSender<u64>,
) -> Result<Share, (WSender<u64>, Refused<WCall<u64>>)> {
    tx.spend(rt)
}

pub fn spend_told(
    rt: &impl Wait,
    tx: WSender<u64>,
) -> Result<(Share, Receipt<Light>), (WSender<u64>, Refused<WCall<u64>>)> {
    tx.spend_told(rt)
}

pub fn release(tx: WSender<u64>) -> (Result<Shared<Light>, Short<()>>, Share) {
    (tx.shared(), tx.release())
}

pub fn keep(
    rt: &impl Wait,
    shared: &Shared<Light>,
) -> (
    Result<Shared<Light>, Short<()>>,
    Result<Segment<Light>, Short<()>>,
) {
    shared.wake(rt);
    (shared.another(), shared.cut(rt))
}

pub fn cut_of(rt: &impl Wait, shared: &Shared<Light>) -> Option<Result<Segment<Light>, Short<()>>> {
    shared.cut_of(rt, 1)
}

pub fn cuts(alloc: Global) -> Cuts<Light> {
    Cuts::new(alloc, 1_000)
}

pub fn put(rt: &impl Wait, cuts: &Cuts<Light>, part: Segment<Light>) {
    cuts.put(rt, part);
}

pub fn take_part(rt: &impl Wait, cuts: &Cuts<Light>) -> Option<Segment<Light>> {
    cuts.take(rt)
}

pub fn end_cuts(rt: &impl Wait, cuts: &Cuts<Light>) -> u64 {
    cuts.end(rt);
    cuts.lost(rt)
}

pub fn roll_at(rt: &impl Wait, shared: &Shared<Light>) -> bool {
    shared.roll_at(rt, 100);
    shared.rolls()
}

pub fn make_rolling(
    alloc: Global,
    capacity: Capacity,
    news: Arc<Cuts<News>>,
    lights: Arc<Cuts<Light>>,
) -> (
    Result<BSender<u64>, Short<()>>,
    Result<WSender<u64>, Short<()>>,
) {
    (
        rolling_broadcast_at(alloc, capacity, 0, 1, 100, news),
        rolling_watch(alloc, 7, 2, 100, lights),
    )
}

pub fn rolls(tx: &BSender<u64>) -> bool {
    tx.rolls()
}

pub fn take_back(
    rt: &impl Wait,
    shared: &Shared<Light>,
    share: Share,
) -> (Result<(), Share>, Option<Share>) {
    (shared.take_back(rt, share), shared.returned(rt))
}

pub fn law() {
    laws::few_handles::<u64>();
}

pub fn finish(shared: Shared<Light>) -> Result<Logged<Light>, Shared<Light>> {
    shared.finish()
}
