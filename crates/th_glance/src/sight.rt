//! What a seat of a channel's table knows.
use crate::glance::Glance;
use std::collections::LinkedList;

/// The glances that a seat has seen, and those that another seat told it of. It stands in proofs
/// alone: no value of it is made.
pub struct Sight {
    pub seen: LinkedList<Glance>,
    pub told: LinkedList<Glance>,
}
