//! Each public function of th_shared, th_sockets and th_server is called here once, as th_calls does for the other library crates. They
//! stand apart since th_shared is the last of a long chain of crates to be proved, and th_calls need not wait for it.
#![tactic(auto)]

pub mod registry;
pub mod server;
pub mod shared;
pub mod sockets;
