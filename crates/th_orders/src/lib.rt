//! One order of what several sessions were told of several topics.
#![tactic(auto)]

pub mod laws;
mod nexts;
mod rests;
mod search;

pub use rests::EventAt;
pub use search::{Unordered, order};
