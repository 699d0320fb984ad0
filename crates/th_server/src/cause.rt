//! What the system answered.
use std::{fmt, io};

/// What the system answered to a call that failed, if it was the system that refused it. It is shown behind what is said of the fault.
#[derive(Clone, Copy, Debug, Drop, PartialEq, Eq)]
pub(crate) struct Cause(Option<i32>);

impl Cause {
    /// Nothing that the system has said.
    pub(crate) const fn none() -> Cause {
        Cause(None)
    }

    /// That of this error.
    pub(crate) fn of(error: &io::Error) -> Cause {
        Cause(error.raw_os_error())
    }
}

impl fmt::Display for Cause {
    fn fmt<W: fmt::Write>(&self, f: &mut fmt::Formatter<W>) -> fmt::Result {
        match self.0 {
            Some(code) => write!(f, ": {}", io::Error::from_raw_os_error(code)),
            None => Ok(()),
        }
    }
}
