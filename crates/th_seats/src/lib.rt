//! Books and shares: how many events a channel had, and how many of them each handle made.
//!
//! ```text
//! let (mut book, mut first) = open_book(7);   // a channel's key, no event, one share
//! let mut second = split(&mut book);          // for a new handle
//! tick(&mut book, &mut second);               // one event, through the second handle
//! settle(book, shares)?;                      // Settled { total: 1 }, given both of them
//! ```
#![tactic(auto)]

pub mod book;
pub mod settlement;

pub use book::{Book, Share, join, open_book, split, tick};
pub use settlement::{Settled, settle};
