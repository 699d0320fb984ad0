//! Calls of th_watch, at numbers.
use std::alloc::Global;
use std::collections::{BTreeMap, BTreeSet};
use th_model::{Edit, RxId, TxId, WCall};
use th_watch::{PictureParts, Watch};

pub fn make(alloc: Global, value: u64) {
    let _ = Watch::starting_at(alloc, value, 7);
    let _ = Watch::new(alloc, value);
    let _ = Watch::channel(alloc, value);
}

pub fn pictures(alloc: Global, light: &Watch<u64>, parts: PictureParts<u64>) {
    let _ = light.picture(alloc);
    let _ = Watch::from_parts(alloc, parts);
}

pub fn from_picture(alloc: Global, value: u64) -> Watch<u64> {
    Watch::from_picture(7, value, BTreeMap::new(alloc), BTreeSet::new(alloc), 1)
}

pub fn parts(alloc: Global, value: u64) -> PictureParts<u64> {
    PictureParts::new(7, value, BTreeMap::new(alloc), BTreeSet::new(alloc), 1)
}

pub fn look_at_parts(parts: &PictureParts<u64>, other: &PictureParts<u64>) -> ([u64; 3], bool) {
    let _ = parts.readers();
    let _ = parts.senders();
    let numbers = [parts.version(), *parts.value(), parts.next_number()];
    (numbers, parts.is_same(other))
}

pub fn look(light: &Watch<u64>, tx: TxId, rx: RxId) -> [u64; 5] {
    let _ = light.is_unseen(rx);
    let _ = light.has_sender(tx);
    [
        light.version(),
        *light.value(),
        light.sender_count(),
        light.next_number(),
        light.live(),
    ]
}

pub fn ask(light: &Watch<u64>, call: &WCall<u64>) -> (bool, u64) {
    let _ = light.foresee(call);
    (light.ready(call), light.live_after(call))
}

pub fn test(light: &Watch<u64>, tx: TxId, rx: RxId) {
    let _ = light.borrow(rx);
    let _ = light.has_changed(rx);
    let _ = light.is_closed(tx);
    let _ = light.readers(tx);
}

pub fn publish(light: &mut Watch<u64>, tx: TxId, edit: Edit<u64>) {
    let _ = light.send(tx, 7);
    let _ = light.replace(tx, 8);
    let _ = light.edit_by(tx, edit);
}

pub fn publish_by_closures(light: &mut Watch<u64>, tx: TxId) {
    let _ = light.send_if_modified(tx, |value: &mut u64| {
        *value = 7;
        true
    });
    let _ = light.send_modify(tx, |value: &mut u64| *value = 8);
}

pub fn read(light: &mut Watch<u64>, rx: RxId) {
    let _ = light.take(rx);
    let _ = light.try_changed(rx);
    let _ = light.changed(rx);
}

pub fn mark(light: &mut Watch<u64>, rx: RxId) {
    let _ = light.mark_changed(rx);
    let _ = light.mark_unchanged(rx);
}

pub fn enter(light: &mut Watch<u64>, tx: TxId, rx: RxId) {
    let _ = light.subscribe(tx);
    let _ = light.clone_rx(rx);
    let _ = light.clone_tx(tx);
}

pub fn leave(light: &mut Watch<u64>, tx: TxId, rx: RxId) {
    let _ = light.drop_tx(tx);
    let _ = light.drop_rx(rx);
}

pub fn apply(light: &mut Watch<u64>, call: WCall<u64>) {
    let _ = light.apply(call);
}
