//! What the topics of a hub may hold together.
ghost use Rattle.std.specs.Prelude.{◌≡◌, ◌+◌, ◌-◌, ◌<◌, ◌≤◌, ◌^◌, ◌↔◌, IsTrue, false, min, true};
ghost use Rattle.th_shared.specs.Room.{size_of, with_entries};

/// As how many values a topic counts beside those of its window: 64 entries by which its history may be longer than its part of all of
/// them, and 4 for its channel and its name.
const ITSELF: u64 = 68;

/// How much more the topics of a hub may hold together.
///
/// A topic has room for a whole window of the largest values from its opening on, and keeps it as long as the hub is there. So a topic
/// that could be opened can always be published to.
#[derive(Debug, Drop, PartialEq, Eq)]
pub struct Room {
    /// Values in windows. A topic counts as its capacity in force, or as one where it is a watch topic, and as 68 more.
    pub values: u64,
    /// Entries of histories that `TRACE` has cut, and that are not told to the end.
    pub entries: u64,
}

impl Room {
    /// As much as there is memory for.
    pub fn unbounded() -> Room
        ensures { result ≡ record { values = 2 ^ 64 - 1; entries = 2 ^ 64 - 1 } }
    {
        Room {
            values: u64::MAX,
            entries: u64::MAX,
        }
    }

    /// None.
    pub(crate) fn none() -> Room
        ensures { result ≡ record { values = 0; entries = 0 } }
    {
        Room {
            values: 0,
            entries: 0,
        }
    }

    /// Whether there is room for a topic with so many values.
    pub(crate) fn has_topic(&self, values: u64) -> bool
        ensures { IsTrue result ↔ (size_of values ≤ self.now.values) }
    {
        self.values.saturating_sub(values) >= ITSELF
    }

    /// Takes the room of a topic with so many values, as far as there is any.
    pub(crate) fn take_topic(&mut self, values: u64)
        ensures { self.new ≡ record self.old { values = self.old.values - size_of values } }
    {
        self.values = self.values.saturating_sub(values).saturating_sub(ITSELF);
    }

    /// Takes the room of so many entries; `false` where there is not as much.
    pub(crate) fn take_entries(&mut self, entries: u64) -> bool
        ensures taken { result ≡ true → (entries ≤ self.old.entries)
            × (self.new ≡ with_entries (self.old.entries - entries) self.old) }
        ensures full { result ≡ false → (self.old.entries < entries) × (self.new ≡ self.old) }
    {
        if self.entries < entries {
            return false;
        }
        self.entries -= entries;
        true
    }

    /// Gives the room of so many entries back, up to the most that is counted.
    pub(crate) fn give_entries(&mut self, entries: u64)
        ensures { self.new ≡ with_entries (min (self.old.entries + entries) (2 ^ 64 - 1)) self.old }
    {
        self.entries = self.entries.saturating_add(entries);
    }
}
