//! Laws of receipts.
ghost use Rattle.th_log.specs.Told.{LawOfChanges, LawOfReceives};

/// What a receipt of a broadcast receive says is a value, that so many were missed, which is one at least, or that none
/// will come any more; and, of a receive that does not wait alone, that there is none yet.
pub fn receives_tell<T>()
    ensures { LawOfReceives T }
{}

/// What a receipt of a watch reader's wait says is that there is a version, or that none will come any more.
pub fn changes_tell<T>()
    ensures { LawOfChanges T }
{}
