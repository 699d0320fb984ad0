//! Lines of traces: a channel's picture, and its calls with their replies, printed and read.
//!
//! ```text
//! let mut text = Vec::with_capacity(alloc, 4096)?;
//! print_entry(&BCall::TryRecv(RxId(3)), &BReply::Lagged(1), &mut text)?;
//!                                             // C try-recv 3, and below it: R lagged 1
//! ```
#![tactic(auto)]

mod broadcast_call;
mod broadcast_draft;
mod broadcast_entry;
pub mod broadcast_lines;
pub mod draft;
pub mod end;
pub mod entry;
mod fields;
mod groups;
pub mod head;
pub mod laws;
mod live_handles;
mod opening;
pub mod picture;
pub mod picture_lines;
pub mod place;
mod put;
pub mod spelling;
pub mod stage;
pub mod trace;
mod watch_call;
mod watch_draft;
mod watch_entry;
pub mod watch_lines;

pub use broadcast_lines::BroadcastLines;
pub use draft::{Draft, read_picture};
pub use end::{print_end, read_end};
pub use entry::{EntryLines, print_entry, says_reply, spells_reply};
pub use head::{Head, Version};
pub use picture::Picture;
pub use picture_lines::PictureLines;
pub use trace::{BroadcastTrace, Trace, WatchTrace};
pub use watch_lines::WatchLines;
