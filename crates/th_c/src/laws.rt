//! Laws of what C is told. Each function does nothing: its contract is the law.
ghost use Rattle.std.specs.Prelude.{◌≡◌, true};
ghost use Rattle.th_c.specs.OldestFirst.{LetsGoOfWhatIsRead, LetsGoOldestFirst};
ghost use Rattle.th_c.specs.Statuses.{BroadcastRefusesUnchanged, WatchRefusesUnchanged, are_apart, statuses};

/// A broadcast channel lets go of its values oldest first, as many as each reply tells. A value that is read, where one is
/// let go, is that one. So who keeps something for each value needs but a queue.
pub fn values_are_let_go_oldest_first<T>()
    ensures order { LetsGoOldestFirst T }
    ensures read { LetsGoOfWhatIsRead T }
{}

/// No two statuses have one number.
pub fn statuses_are_apart()
    ensures { are_apart statuses ≡ true }
{}

/// Where a channel refuses a call by its rules, the call has changed nothing.
pub fn refusals_change_nothing<T>()
    ensures broadcast { BroadcastRefusesUnchanged T }
    ensures watch { WatchRefusesUnchanged T }
{}
