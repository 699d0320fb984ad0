//! Sessions: what one actor has, and its commands carried out at a desk, one by one or a whole run of lines.
//!
//! ```text
//! let mut desk = LocalDesk::new(alloc);
//! let mut bob = Session::new(alloc);
//! step(&mut bob, &mut desk, read_command(alloc, b"OPEN news B 10")?);    // Count(16), the capacity in force
//! step(&mut bob, &mut desk, read_command(alloc, b"SUB news")?);          // Event: Done, and bob keeps the receipt
//! step(&mut bob, &mut desk, read_command(alloc, b"NEXT news")?);         // Blocked: nothing is sent yet
//! step(&mut bob, &mut desk, read_command(alloc, b"TRACE news")?);        // Trace: of the segment that bob keeps last
//! step(&mut bob, &mut desk, Command::Quit);                              // Bye
//!
//! let mut reader = Counted::new(&b"READERS news\nSUB news\nQUIT\n"[..]);
//! let mut writer = Counted::new(Vec::new(alloc));
//! let (carol, fault) = run_session(&rt, alloc, &mut reader, &mut writer, &mut desk, &OpenGate, 1,
//!     Keeping::All, Bounds::usual());
//! // fault is None, writer.device() has "OK 0\nOK\nBYE\n", and carol holds nothing
//! let (receipts, segments) = carol.parts();                              // the two receipts, and no segment
//! ```
#![tactic(auto)]

mod action;
pub mod answer;
mod bounds;
mod fault;
mod gate;
pub mod handles;
mod keeping;
pub mod laws;
pub mod local;
mod owing;
pub mod quiet;
mod quit;
mod replies;
mod rows;
mod run;
pub mod session;
mod table;
mod trace;

pub use bounds::Bounds;
pub use fault::SessionFault;
pub use gate::{Gate, OpenGate};
pub use handles::Handles;
pub use keeping::Keeping;
pub use run::run_session;
pub use session::{Answer, Session};
pub use trace::append_trace_lines;
