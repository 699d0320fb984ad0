//! A broadcast channel for one thread: each call is a step of the machine that remembers every value
//! ever sent.
//!
//! ```text
//! let mut news: Broadcast<u64, PlainShelf<u64>> = Broadcast::channel(alloc, Capacity::new(2)?)?;
//! news.send(TxId(1), 7)?;                     // Sent(1): to receiver 2
//! news.try_recv(RxId(2))?;                    // Value(7)
//! news.try_recv(RxId(2))?;                    // Empty
//! ```
#![tactic(auto)]

pub mod broadcast;
pub mod foresee;
pub mod live;
pub mod parts;
pub mod picture;
mod told;

pub use broadcast::Broadcast;
pub use parts::PictureParts;
