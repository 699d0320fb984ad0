//! The hub for many threads: each topic has its own lock, and each thread its own desk.
//!
//! ```text
//! let mut desk = SharedDesk::new(rt, alloc)?;                        // no topic yet
//! let mut bobs = desk.another()?;                                    // for another thread
//! desk.open_topic(NameRef::new(b"news")?, Making::Broadcast(10))?;   // 16, the capacity in force
//! let mut bob = bobs.subscribe(TopicId(0), Start::Tail, &mut None)?.handle?;
//! let mut alice = desk.bind(TopicId(0))?.handle?;
//! let mut owed = desk.owing_nothing();
//! let send = SenderVerb::Send(value);
//! desk.by_sender(TopicId(0), &mut alice, send, &mut owed)?;          // its receipt
//! desk.wake(&mut owed);                                              // whoever waits for the value
//! SharedDesk::close(owed);                                           // a debt that is not paid cannot be closed
//! let none = bobs.owing_nothing();
//! bobs.by_receiver(TopicId(0), &mut bob, ReceiverVerb::Recv, &none)?; // the value: it waits where there is none yet
//! ```
//!
//! A session is served at it as at any other desk. th_sockets does so over a socket.
#![tactic(auto)]

mod by_hub;
mod cut;
mod deferred_wake;
pub mod desk;
pub mod ended;
mod event;
pub mod handles;
pub mod histories;
mod new_handle;
mod registry;
pub mod room;
mod rows;
mod said;
pub mod segments;
mod sending;
mod shared_topics;
mod shares;
mod told;
mod topic;
mod topic_cache;

pub use deferred_wake::Owed;
pub use desk::SharedDesk;
pub use ended::Ended;
pub use handles::{TopicReceiver, TopicSender};
pub use histories::{Histories, TOGETHER};
pub use room::Room;
pub use segments::entries_of;
