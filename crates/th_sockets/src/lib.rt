//! Sessions on a Unix socket, each in a thread of its own, at the desks of one hub.
//!
//! ```text
//! let listener = UnixListener::bind(&rt, "hub.sock")?;
//! // Until two sessions have ended.
//! let served = serve_on(&rt, alloc, &listener, 2, &OpenGate, &Unheard, Keeping::All, Bounds::usual())?;
//! let (topics, _) = served.desk.finish(alloc)?;                      // what is left of each topic: its log
//! ```
#![tactic(auto)]

pub mod attended;
pub mod observer;
pub mod serve;
mod terms;

pub use attended::Attended;
pub use observer::{Observer, Unheard};
pub use serve::{ServeFault, Served, serve_on};
