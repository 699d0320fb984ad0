//! How far the lines of a picture were printed.

/// Which line of a picture is to be printed next.
#[derive(Clone, Copy, Debug, Drop, PartialEq, Eq)]
pub enum Stage {
    /// The first one.
    Head,
    /// That of the start.
    Start,
    /// One below: a value, a sender, a receiver or `BEGIN`.
    Body,
    /// None: `BEGIN` was printed.
    Begun,
}
