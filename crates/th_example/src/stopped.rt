//! Why the program stopped early.
use std::io;
use th_model::{BadCapacity, Short};
use thiserror::Error;

/// What stopped the program. A channel hands a call back that it was refused memory for; this
/// program has no use for it.
#[derive(Clone, Copy, Debug, Drop, Error)]
pub enum Stopped {
    #[error("no channel has this capacity")]
    Capacity,
    #[error("no memory")]
    Memory,
    #[error("the output could not be written")]
    Output,
}

impl From<BadCapacity> for Stopped {
    fn from(_: BadCapacity) -> Stopped {
        Stopped::Capacity
    }
}

impl<C: Drop> From<Short<C>> for Stopped {
    fn from(_: Short<C>) -> Stopped {
        Stopped::Memory
    }
}

impl From<io::Error> for Stopped {
    fn from(_: io::Error) -> Stopped {
        Stopped::Output
    }
}
