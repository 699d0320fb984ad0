//! What a check says of a text.

/// What a check says of a text.
#[derive(Clone, Copy, Debug, Drop, PartialEq, Eq)]
pub enum Verdict {
    /// It is the trace of a legal history with so many entries.
    Legal(u64),
    /// The line of this number, counted from 1, is a reply of good form that the channel does not give
    /// there. No line before it is bad or such a reply.
    Illegal(u64),
    /// The line of this number is bad, or is due and missing. No line before it is bad or illegal.
    BadTrace(u64),
}
