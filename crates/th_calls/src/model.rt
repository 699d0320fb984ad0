//! Calls of th_model.
use std::alloc::Global;
use std::collections::BTreeSet;
use th_model::{
    Capacity, Edit, Listed, Listing, Name, NameRef, Value, broadcast_laws, copy_numbers, is_value,
    watch_laws,
};

pub fn law_of_broadcast() {
    broadcast_laws::pictures_are_seen::<u64>();
    broadcast_laws::pictures_suffice::<u64>();
    broadcast_laws::answers_are_seen::<u64>();
    broadcast_laws::steps_keep_proper::<u64>();
    broadcast_laws::answers_keep_sound::<u64>();
    broadcast_laws::kept_positions();
    broadcast_laws::openings::<u64>();
    broadcast_laws::readiness::<u64>();
    broadcast_laws::delivery::<u64>();
    broadcast_laws::worked_examples();
}

pub fn law_of_watch() {
    watch_laws::pictures_are_seen::<u64>();
    watch_laws::pictures_suffice::<u64>();
    watch_laws::answers_are_seen::<u64>();
    watch_laws::steps_keep_proper::<u64>();
    watch_laws::answers_keep_sound::<u64>();
    watch_laws::openings::<u64>();
    watch_laws::readiness::<u64>();
    watch_laws::marks::<u64>();
    watch_laws::worked_examples();
}

pub fn capacity(capacity: Capacity, asked: u64) -> u64 {
    let _ = Capacity::new(asked);
    capacity.in_force()
}

pub fn name(bytes: &[u8], name: &Name, named: &NameRef<'_>) -> usize {
    let _ = Name::new(bytes);
    let _ = NameRef::new(bytes);
    let _ = NameRef::front(bytes);
    let _ = named.to_name();
    name.as_bytes().len().max(named.as_bytes().len())
}

pub fn value(alloc: Global, bytes: &[u8], value: &Value) -> (bool, usize) {
    let _ = Value::new(alloc, bytes);
    (is_value(bytes), value.as_bytes().len())
}

pub fn listing(listing: &Listing, rows: Vec<Listed>, numbers: &BTreeSet<u64>) -> usize {
    let _ = Listing::from_vec(rows);
    let _ = copy_numbers(numbers);
    listing.rows().len()
}

pub fn edit(edit: Edit<u64>) -> u64 {
    let value = *edit.value();
    edit.into_value().max(value)
}
