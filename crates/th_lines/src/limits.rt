//! The bounds of a run of lines, where its caller sets none.

/// The most lines of a run.
pub const MOST_LINES: u64 = 1_000_000;

/// The most reads of a run.
pub const MOST_READS: u64 = 1 << 32;
