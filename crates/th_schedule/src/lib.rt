//! One order of all that happened on a hub's topics.
#![tactic(auto)]

mod gaps;
mod receipts;
mod schedules;

pub use schedules::{Unscheduled, schedule};
