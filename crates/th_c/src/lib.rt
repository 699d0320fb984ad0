//! The channels for C: a static library, whose functions `lib/c/topichub.h` declares and describes.
//!
//! Each function is called through a handle, which is one pointer for C. Contracts see what a handle
//! stands for: nothing, a channel as its picture or with its history, or a trace. Each call's clause is
//! the machine's (th_model). A static library may have no lock and may not wait, so C gives a handle to
//! one call at a time.
#![tactic(auto)]

mod broadcast;
pub mod broadcast_calls;
pub mod bytes;
mod bytes_recorded;
pub mod checking;
mod content;
pub mod cutting;
mod handle;
pub mod laws;
mod let_go;
mod making;
mod outcome;
mod parts;
pub mod payload;
mod pictures;
mod printing;
mod raw;
mod reply;
mod spelling;
mod status;
mod tells;
mod text;
pub mod version;
mod watch;
pub mod watch_bytes;
pub mod watch_calls;
