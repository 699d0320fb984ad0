//! A law of channels that cut their histories by themselves.
ghost use Rattle.th_block.specs.Few.{LawOfHandles};

/// At most 131,070 handles of a channel are live after any call, 65,535 of each side. So a part of 1,000,000 entries that was just
/// begun has room for any call beside those that spend them.
pub fn few_handles<T>()
    ensures { LawOfHandles T }
{}
