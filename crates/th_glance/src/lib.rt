//! Glances: how far a channel is, seen without its lock.
//!
//! A channel has one word of memory. Its pen, which lies beside the channel under the lock, stores
//! in it how many events there were and whether no sender is left; an eye reads it, from any thread.
//! What an eye sees never goes back, and is never above what the pen stored (docs/GLANCES.md).
//!
//! ```text
//! let (mut pen, mut eye) = Pen::open(alloc)?;   // count 0, not closed
//! pen.store(false);                             // one event, and senders are left
//! let glance = eye.glance();                    // Glance { count: 1, closed: false }
//! let mut other = eye.split()?;                 // another eye, which has seen as much
//! pen.store(true);                              // one event more, and no sender is left
//! other.learn(2);                               // true: it looked, and its count is now 2
//! eye.count();                                  // 1: what this eye saw last
//! ```
//!
//! The test `the_example_of_the_first_page` has these lines. Who waits: `Eye::catch_up` alone, which
//! is given a `Wait` for it. `Pen::open`, `store` and `covers`, and `Eye::glance`, `count`, `learn`
//! and `split`, are given none, so each of them returns.
#![tactic(auto)]

pub mod eye;
pub mod glance;
pub mod pen;
mod rule;
mod sight;

pub use eye::Eye;
pub use glance::Glance;
pub use pen::Pen;
