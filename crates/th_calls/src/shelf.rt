//! Calls of th_shelf, at the plain shelf of numbers.
use std::alloc::Global;
use std::collections::{BTreeMap, VecDeque};
use th_model::{Capacity, RxId};
use th_shelf::places::{add_reader, next_reader, reader_at, skip_to};
use th_shelf::received::copy_of;
use th_shelf::{PlainShelf, Received, Shelf, WindowParts, copy_window};

pub fn make(alloc: Global, capacity: Capacity, base: u64, parts: WindowParts<u64>) {
    let _ = PlainShelf::<u64>::new(alloc, capacity, base);
    let _ = PlainShelf::<u64>::from_window(alloc, parts);
}

pub fn look(shelf: &PlainShelf<u64>, rx: RxId) -> [u64; 4] {
    let _ = shelf.place(rx);
    let _ = shelf.value(7);
    let _ = shelf.reader_at(7);
    let _ = shelf.next_reader(Some(rx));
    [shelf.capacity(), shelf.tail(), shelf.low(), shelf.readers()]
}

pub fn copy(alloc: Global, capacity: Capacity) {
    if let Ok(shelf) = PlainShelf::<u64>::new(alloc, capacity, 7) {
        let _ = copy_window(alloc, &shelf);
    }
}

pub fn join(shelf: &mut PlainShelf<u64>, rx: RxId) {
    if shelf.place(rx).is_none() {
        let _ = shelf.join(rx);
    }
}

pub fn join_oldest(shelf: &mut PlainShelf<u64>, rx: RxId) {
    if shelf.place(rx).is_none() {
        let _ = shelf.join_oldest(rx);
    }
}

pub fn leave(shelf: &mut PlainShelf<u64>, rx: RxId) {
    if shelf.place(rx).is_some() {
        shelf.leave(rx);
    }
}

pub fn push(shelf: &mut PlainShelf<u64>, value: u64) {
    if shelf.readers() > 0 && shelf.tail() < u64::MAX {
        let _ = shelf.push(value);
    }
}

pub fn receive(shelf: &mut PlainShelf<u64>, rx: RxId) {
    let _ = shelf.receive(rx);
    let _ = shelf.receive_with_copy(rx, true);
}

pub fn take(shelf: &mut PlainShelf<u64>, rx: RxId) {
    let first = shelf.tail().saturating_sub(shelf.capacity());
    if let Some(place) = shelf.place(rx) {
        if first <= place && place < shelf.tail() {
            let _ = shelf.take(rx);
        }
    }
}

pub fn jump(shelf: &mut PlainShelf<u64>, rx: RxId) -> u64 {
    let first = shelf.tail().saturating_sub(shelf.capacity());
    match shelf.place(rx) {
        Some(place) if place < first => shelf.jump(rx),
        _ => 0,
    }
}

pub fn places(places: &mut BTreeMap<u64, u64>, rx: RxId) -> u64 {
    let _ = reader_at(places, 7);
    let _ = next_reader(places, Some(rx));
    let _ = add_reader(places, rx, 7);
    let mut place = 3;
    skip_to(&mut place, 7)
}

pub fn received(value: u64) -> Received<u64> {
    let _ = copy_of(&value, true);
    Received::Value(value).again(Some(value))
}

pub fn parts(alloc: Global, capacity: Capacity, tail: u64) -> WindowParts<u64> {
    let _ = capacity.in_force();
    WindowParts::new(capacity, tail, VecDeque::new(alloc), BTreeMap::new(alloc))
}

pub fn look_at_parts(parts: &WindowParts<u64>, other: &WindowParts<u64>) -> (usize, bool) {
    let numbers = parts.capacity().max(parts.tail());
    let held = parts.kept().len().max(parts.places().len());
    (held, parts.is_same(other) && numbers > 7)
}

pub fn take_apart(parts: WindowParts<u64>) -> (VecDeque<u64>, BTreeMap<u64, u64>) {
    parts.into_parts()
}
