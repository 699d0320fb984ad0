//! Topics by name, and the desk at which sessions ask.
//!
//! ```text
//! let mut desk = LocalDesk::new(alloc);
//! desk.open_topic(NameRef::new(b"news")?, Making::Broadcast(10))?;   // 16, the capacity in force
//! let news = desk.find(&NameRef::new(b"news")?);                     // topic 0, of kind Broadcast
//! desk.subscribe(TopicId(0), Start::Tail, &mut None)?;               // receiver 2, by the hub's own sender
//! ```
#![tactic(auto)]

pub mod calls;
pub mod channel;
pub mod desk;
mod event;
pub mod laws;
pub mod local;
pub mod opening;
pub mod outcome;
pub mod recorded;
pub mod topics;

pub use channel::Channel;
pub use desk::{Desk, MOST_IN_ROW};
pub use event::keep;
pub use local::{BadLimit, LocalDesk};
pub use opening::{Found, Refusal, TopicId};
pub use outcome::{Made, NoEvent, Unspent};
pub use topics::MOST_TOPICS;
