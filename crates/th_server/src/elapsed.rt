//! Time that goes by.
use std::time::{Clock, Duration, Instant};

/// Whether so many milliseconds have gone by since then; `None` where there is no clock, or was none then.
pub(crate) fn has_passed<R: Clock>(rt: &R, since: Option<Instant>, millis: u64) -> Option<bool> {
    let time = since?.elapsed(rt).ok()?;
    Some(time >= Duration::from_millis(millis))
}
