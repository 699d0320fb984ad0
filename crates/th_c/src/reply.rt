//! A reply, as C sees it.

/// The reply to a call: a status, how many of the kept values are let go by the call, and the number that
/// the status speaks of.
#[repr(C)]
#[derive(Clone, Copy, Drop)]
pub struct Reply {
    pub status: u32,
    pub let_go: u32,
    pub number: u64,
}
