//! Each public function of the library crates is called here once, at concrete types; those of th_shared and th_server in
//! th_serve_calls. It is proved, so what each function requires can be met. Nothing here runs: the tests run the functions. A
//! module is named for the crate that it calls.
#![tactic(auto)]

pub mod bcast;
pub mod block;
pub mod check;
pub mod glance;
pub mod lines;
pub mod log;
pub mod model;
pub mod numbered;
pub mod program;
pub mod registry;
pub mod replay;
pub mod ring;
pub mod seats;
pub mod session;
pub mod shelf;
pub mod traces;
pub mod watch;
