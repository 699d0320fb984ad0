//! Diaries that tell of a whole part of a history.
#![tactic(auto)]

mod account;
pub mod laws;

pub use account::{AccountFault, Accounted, audit_whole};
