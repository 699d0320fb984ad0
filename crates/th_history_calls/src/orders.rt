//! Calls of th_orders.
use std::alloc::Global;
use th_orders::{EventAt, Unordered, laws, order};

pub fn law() {
    laws::no_choice_is_wrong();
}

pub fn search(
    alloc: Global,
    starts: &[u64],
    sessions: Vec<Vec<EventAt>>,
) -> Result<Vec<EventAt>, Unordered> {
    order(alloc, starts, sessions)
}
