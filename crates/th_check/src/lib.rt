//! Traces, checked: a text is a legal trace exactly where the channel that it tells of would have given
//! each of its replies.
//!
//! ```text
//! let mut reader = Counted::new(&b"TRACE 1 B 2\nAT 0 0 NEXT 2\nTX 1\nBEGIN\nEND 0\n"[..]);
//! let verdict = check(alloc, &mut reader)?;                      // Legal(0)
//! ```
#![tactic(auto)]

mod checker;
pub mod course;
mod explain;
pub mod fault;
mod judged;
pub mod laws;
pub mod parts;
pub mod point;
mod printed;
mod run;
pub mod verdict;

pub use fault::CheckFault;
pub use parts::{Joined, Joining};
pub use run::{check, check_bounded, check_explained};
pub use verdict::Verdict;
