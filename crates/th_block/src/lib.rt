//! Channels for many threads: a channel with its log under a lock, and handles that go to threads. Every call of a
//! handle is one event, and answers a receipt that can be held against the channel's history afterwards.
//!
//! `broadcast` and `watch` make a channel and its first sender; the others are made by calls of the channel. `recv` and
//! `changed` wait, all other calls wait for the lock alone, and `glance` and `learn` for nothing. A value, or how many were
//! missed, or that the channel is closed, is the reply in the receipt; `Err` is for a call that was no event: the log is
//! full, memory was refused, or the handle is another channel's.
//!
//! Two threads, a window of two values, and a receiver that is slow. The numbers 1 to 3 are sent before the threads
//! start, so that 1 is let go:
//!
//! ```text
//! // Sends what is left to be sent, notes what it was told, and is gone.
//! fn send_rest<R: Wait>(rt: &R, alloc: Global, news: BSender<u64>) -> Option<(Share, Diary<News>)> {
//!     let mut news = news;
//!     let mut diary = Diary::new(alloc);
//!     for value in 4..6 {
//!         diary.note(news.send(rt, value).ok()?).ok()?;
//!     }
//!     Some((news.spend(rt).ok()?, diary))
//! }
//!
//! // Notes all that is told, until nothing comes any more.
//! fn note_all<R: Wait>(rt: &R, alloc: Global, news: BReceiver<u64>) -> Option<(Share, Diary<News>)> {
//!     let mut news = news;
//!     let mut diary = Diary::new(alloc);
//!     for _ in rt.forever() {
//!         let Some(told) = news.next(rt) else {
//!             break;
//!         };
//!         diary.note(told.ok()?).ok()?;
//!     }
//!     Some((news.spend(rt).ok()?, diary))
//! }
//!
//! let mut news: BSender<u64> = broadcast(alloc, Capacity::new(2)?, 1_000, 7)?;
//! let owner = news.shared()?;
//! let bob = subscribed(&rt, &mut news)?;          // the handle beside the receipt of `subscribe`
//! for value in 1..4 {
//!     news.send(&rt, value)?;                     // receipts: Sent(1), at the places 1 to 3
//! }
//! let (alice, bob) = thread::join(
//!     &rt,
//!     || send_rest(&rt, alloc, news),
//!     || note_all(&rt, alloc, bob),
//! );
//! let (alice, sent) = alice.ok_or("Alice was refused")?;
//! let (bob, told) = bob.ok_or("Bob was refused")?;
//!                                                 // Lagged(1), Value(2) and so on, or a longer lag
//! let segment = close(owner.finish()?, vec![in alloc; alice, bob]?)?;
//!                                                 // the shares account for all of the history
//! audit(alloc, &segment, &[sent, told])?;         // Audited: what both noted stands in it
//! ```
//!
//! `while let Some(told) = news.next(rt)` is written as in `note_all`, since a loop has to
//! have a measure, and `rt.forever()` is that of one that waits. `next` gives up the receipt of the answer that ends the
//! loop, and `spend` that of the handle's end; `next_told` and `spend_told` hand them out.
//!
//! **A service that runs on** cuts the log every so often, by any owner, and keeps the segments or lets them go:
//!
//! ```text
//! if news.send(&rt, value)?.place() % 100_000 == 99_999 {
//!     segments.push(owner.cut(&rt)?)?;            // the next one begins here; joined, they are one history
//! }
//! ```
//!
//! One that nobody cuts is full at its limit, and then answers `LogFull` to all but spendings.
//!
//! **How far the channel is** any handle tells by one load (th_glance), without the lock and without an event:
//!
//! ```text
//! let glance = bob.glance();                      // Glance { count: 4, closed: false }: the events so far, senders left
//! bob.learn(5);                                   // false, until there was one event more
//! ```
//!
//! It never goes back, and shows at least what this handle was told of. It may be behind what other handles have done.
//!
//! No clause says that a waiting call is ever woken, or in which order the lock is taken. A thread that panics or
//! vanishes leaves the channel whole, since a call is under the lock or not at all, and its handle live: nothing is
//! poisoned, and who waits for it waits on.
#![tactic(auto)]

mod account;
pub mod broadcast_handles;
pub mod cuts;
pub mod handle;
mod held;
pub mod laws;
mod more;
mod posted;
mod queued;
mod ready;
mod replace;
pub mod replaced;
mod room;
mod seat;
pub mod shared;
pub mod side;
pub mod together;
mod wake;
pub mod watch_handles;

pub use broadcast_handles::{
    BReceiver, BSender, Resub, RingBroadcast, broadcast, broadcast_at, rolling_broadcast_at,
};
pub use cuts::Cuts;
pub use handle::Handle;
pub use replaced::Replaced;
pub use shared::Shared;
pub use side::{Receives, Sends, Side};
pub use watch_handles::{WReader, WSender, rolling_watch, watch};
