//! The mode `serve` of the program `topichub`: a socket at a path, and on it sessions of the hub, each in a thread of its
//! own.
//!
//! ```text
//! // with the words `topichub serve hub.sock --sessions 2`: `listening`, both sessions, `done 2`
//! let outcome = serve_by_words(&rt, words.as_slice());
//! // `None` where the words ask for something else; and `status` of what came of it
//! ```
#![tactic(auto)]

mod anchors;
mod busy;
mod bytes;
mod cause;
mod client;
mod connections;
mod elapsed;
mod faults;
mod folders;
mod keep_serving;
mod limits;
mod lock;
mod node;
mod outcome;
mod part;
mod parts;
mod serve;
mod socket;
mod streams;
mod sums;
mod unfinished;
mod words;

pub use folders::Folder;
pub use outcome::Outcome;
pub use parts::{Store, Stored};
pub use sums::Chain;
pub use words::serve_by_words;
