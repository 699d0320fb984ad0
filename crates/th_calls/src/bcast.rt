//! Calls of th_bcast. They are written for any values and any shelf, and made at a ring of numbers at the end: at a shelf that
//! is known each call would have its whole contract.
ghost use Rattle.th_model.specs.Limits.{ClonesAreEqual};

use std::alloc::Global;
use std::collections::{BTreeMap, BTreeSet, VecDeque};
use th_bcast::{Broadcast, PictureParts};
use th_model::{BCall, Capacity, RxId, TxId};
use th_ring::RingShelf;
use th_shelf::{Shelf, WindowParts};

fn make<T: Clone, S: Shelf<T> + Drop>(
    alloc: Global,
    capacity: Capacity,
    base: u64,
    parts: PictureParts<T>,
) {
    let _ = Broadcast::<T, S>::starting_at(alloc, capacity, base);
    let _ = Broadcast::<T, S>::new(alloc, capacity);
    let _ = Broadcast::<T, S>::channel(alloc, capacity);
    let _ = Broadcast::<T, S>::from_picture(alloc, parts);
}

fn show<T: Clone, S: Shelf<T> + Drop>(alloc: Global, news: &Broadcast<T, S>)
    requires { ClonesAreEqual T.is_clone }
{
    let _ = news.picture(alloc);
}

fn look<T: Clone, S: Shelf<T> + Drop>(news: &Broadcast<T, S>, tx: TxId, rx: RxId) {
    let _ = news.value(7);
    let _ = news.place(rx);
    let _ = news.has_sender(tx);
    let _ = news.capacity();
    let _ = news.tail();
    let _ = news.low();
}

fn look_at_counts<T: Clone, S: Shelf<T> + Drop>(news: &Broadcast<T, S>) {
    let _ = news.receiver_count();
    let _ = news.sender_count();
    let _ = news.next_number();
    let _ = news.live();
}

fn ask<T: Clone, S: Shelf<T> + Drop>(news: &Broadcast<T, S>, call: &BCall<T>)
    requires { ClonesAreEqual T.is_clone }
{
    let _ = news.foresee(call);
    let _ = news.ready(call);
    let _ = news.live_after(call);
}

fn count<T: Clone, S: Shelf<T> + Drop>(news: &Broadcast<T, S>, tx: TxId, rx: RxId) {
    let _ = news.queued(tx);
    let _ = news.left(rx);
    let _ = news.readers(tx);
}

fn send<T: Clone, S: Shelf<T> + Drop>(news: &mut Broadcast<T, S>, tx: TxId, value: T) {
    let _ = news.send(tx, value);
}

fn receive<T: Clone, S: Shelf<T> + Drop>(news: &mut Broadcast<T, S>, rx: RxId)
    requires { ClonesAreEqual T.is_clone }
{
    let _ = news.try_recv(rx);
    let _ = news.recv(rx);
    let _ = news.receive_twice(rx);
}

fn enter<T: Clone, S: Shelf<T> + Drop>(news: &mut Broadcast<T, S>, tx: TxId, rx: RxId) {
    let _ = news.subscribe(tx);
    let _ = news.subscribe_oldest(tx);
    let _ = news.resubscribe(rx);
    let _ = news.clone_tx(tx);
}

fn leave<T: Clone, S: Shelf<T> + Drop>(news: &mut Broadcast<T, S>, tx: TxId, rx: RxId) {
    let _ = news.drop_tx(tx);
    let _ = news.drop_rx(rx);
}

fn apply<T: Clone, S: Shelf<T> + Drop>(news: &mut Broadcast<T, S>, call: BCall<T>)
    requires { ClonesAreEqual T.is_clone }
{
    let _ = news.apply(call);
}

pub fn parts(alloc: Global, capacity: Capacity, tail: u64) -> PictureParts<u64> {
    let _ = capacity.in_force();
    let window = WindowParts::new(capacity, tail, VecDeque::new(alloc), BTreeMap::new(alloc));
    PictureParts::new(window, BTreeSet::new(alloc), 1)
}

pub fn look_at_parts(parts: &PictureParts<u64>, other: &PictureParts<u64>) -> (u64, bool) {
    let _ = parts.window();
    let _ = parts.senders();
    (parts.next_number(), parts.is_same(other))
}

// All of the above.
fn call_all<T: Clone, S: Shelf<T> + Drop>(
    alloc: Global,
    news: &mut Broadcast<T, S>,
    tx: TxId,
    rx: RxId,
    value: T,
    call: BCall<T>,
)
    requires { ClonesAreEqual T.is_clone }
{
    show(alloc, news);
    look(news, tx, rx);
    look_at_counts(news);
    ask(news, &call);
    count(news, tx, rx);
    send(news, tx, value);
    receive(news, rx);
    enter(news, tx, rx);
    leave(news, tx, rx);
    apply(news, call);
}

pub fn make_of_numbers(alloc: Global, capacity: Capacity, parts: PictureParts<u64>) {
    make::<u64, RingShelf<u64>>(alloc, capacity, 7, parts);
}

pub fn call_with_numbers(
    alloc: Global,
    news: &mut Broadcast<u64, RingShelf<u64>>,
    tx: TxId,
    rx: RxId,
    call: BCall<u64>,
) {
    call_all(alloc, news, tx, rx, 7, call);
}
