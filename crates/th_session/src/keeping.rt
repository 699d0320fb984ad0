//! What a run keeps of its answers.

/// What a run keeps of the receipts and the segments that its actor is answered.
#[derive(Clone, Copy, Debug, Drop, PartialEq, Eq)]
pub enum Keeping {
    /// All of them, in the order of the answers: so a run takes memory with each event.
    All,
    /// None: each is let go once its reply is put.
    Nothing,
}
