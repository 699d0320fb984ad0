//! The history of a channel, kept beside it: each event is an entry, each caller has a receipt of
//! what it was told, and an audit finds the receipts in the history.
//!
//! ```text
//! let (mut log, mut share) = Logged::new(alloc, channel, 1_000, key)?;
//! let receipt = log.apply(&mut share, BCall::Subscribe(TxId(1)))?;   // place 0, NewRx(2)
//! diary.note(receipt)?;
//! audit(alloc, &log.cut()?, &[diary])?;       // Audited: the receipt is the entry at its place
//! ```
#![tactic(auto)]

pub mod audits;
pub mod broadcast;
pub mod closing;
pub mod diary;
pub mod kind;
pub mod laws;
pub mod logged;
pub mod object;
pub mod receipt;
pub mod segment;
pub mod watch;

pub use audits::{AuditFault, Audited, audit};
pub use closing::close;
pub use diary::Diary;
pub use kind::{Kind, made};
pub use logged::{Logged, MOST_ENTRIES, MakeFault};
pub use object::{Compared, Event, Object};
pub use receipt::{Receipt, Refused};
pub use segment::{JoinFault, Segment};
