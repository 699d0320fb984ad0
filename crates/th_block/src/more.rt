//! What came of a try to make one event more.

/// What came of it.
#[derive(Drop)]
pub(crate) enum More {
    /// The event was made.
    Made,
    /// The call would have to wait.
    Waits,
    /// The log refused it, or there was no memory.
    Refused,
}
