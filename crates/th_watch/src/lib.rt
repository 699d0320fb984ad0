//! A watch channel for one thread: each call is a step of the machine that remembers every version.
//!
//! ```text
//! let mut settings: Watch<u64> = Watch::channel(alloc, 1)?;
//! settings.send(TxId(1), 5);                  // Done
//! settings.try_changed(RxId(2));              // Marked: there is something new
//! settings.borrow(RxId(2))?;                  // Shown(5, false): it was seen by then
//! ```
#![tactic(auto)]

pub mod parts;
pub mod refused;
pub mod watch;

pub use parts::PictureParts;
pub use refused::EditRefused;
pub use watch::Watch;
