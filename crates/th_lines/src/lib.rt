//! Lines: commands and replies as values, and how they are spelled.
//!
//! ```text
//! let command = read_command(alloc, b"TRY news")?;    // on news: TryRecv
//! let mut out = WriteBuffer::new(alloc)?;
//! out.append(writer, &Reply::Lagged(2))?;             // LAG 2
//! ```
#![tactic(auto)]

pub mod command;
pub mod counted;
mod cut;
pub mod fault;
pub mod feeder;
pub mod fields;
pub mod intake;
pub mod laws;
pub mod limits;
pub mod lines;
mod print;
mod read;
pub mod reply;
pub mod write_buffer;

pub use command::{Action, Actor, Command};
pub use counted::{Counted, Moved};
pub use fault::{LineFault, WriteFailed};
pub use feeder::{Fed, Feeder, Row, TakesLines};
pub use fields::name_and_rest;
pub use intake::{Intake, front_line};
pub use limits::{MOST_LINES, MOST_READS};
pub use lines::Lines;
pub use read::read_command;
pub use reply::{Code, Reply, ValueWord};
pub use write_buffer::WriteBuffer;
