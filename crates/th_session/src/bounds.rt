//! How long a session may be.
ghost use Rattle.std.specs.Prelude.{◌≡◌, ◌^◌, ◌-◌};

use th_lines::{MOST_LINES, MOST_READS};

/// The most that a session does.
#[derive(Clone, Copy, Debug, Drop, PartialEq, Eq)]
pub struct Bounds {
    /// Lines that it answers.
    pub lines: u64,
    /// Reads that it makes.
    pub reads: u64,
}

impl Bounds {
    /// 1,000,000 lines and 2^32 reads.
    pub fn usual() -> Bounds
        ensures { result ≡ record { lines = 1000000; reads = 2 ^ 32 } }
    {
        Bounds {
            lines: MOST_LINES,
            reads: MOST_READS,
        }
    }

    /// As many as are counted, 2^64 - 1 of each: no session comes to them.
    pub fn none() -> Bounds
        ensures { result ≡ record { lines = 2 ^ 64 - 1; reads = 2 ^ 64 - 1 } }
    {
        Bounds {
            lines: u64::MAX,
            reads: u64::MAX,
        }
    }
}
