//! The laws of the hub.
ghost use Rattle.th_registry.specs.Laws.{SaysWhatIsSeen, StaysProper, HandlesStayLive, NewHandlesAreNew, LiveHandlesAreServed};
ghost use Rattle.th_registry.specs.Legal.{HistoriesStayKept, HistoriesAreKept, CutsAreLegal, LiveHandlesEnd};

/// To each query the topics as they are seen say what topics say that remember every value ever sent, and look
/// afterwards like what these become. A proper hub stays proper.
pub fn queries_are_seen()
    ensures said { SaysWhatIsSeen }
    ensures proper { StaysProper }
{}

/// A live handle stays live until an event spends it, whatever else is asked of the hub. An event that makes a handle
/// makes one that was not live before. An event by a live handle is never answered that there is no such handle.
pub fn handles_live_until_spent()
    ensures stay { HandlesStayLive }
    ensures new { NewHandlesAreNew }
    ensures served { LiveHandlesAreServed }
{}

/// Whatever is asked of the hub, the present segment of each topic's history is legal and ends at what is seen of the
/// channel now, and room is left in it for the end of each live handle. A cut hands out a legal history. The end of a
/// live handle is done, and never refused.
pub fn histories_are_legal()
    ensures stay { HistoriesStayKept }
    ensures reached { HistoriesAreKept }
    ensures cuts { CutsAreLegal }
    ensures ends { LiveHandlesEnd }
{}
