//! The numbers of handles, as the lines of a picture tell them.
ghost use Rattle.std.specs.Prelude.{◌≡◌};
ghost use Rattle.std.specs.Map.{keys_of};
ghost use Rattle.th_traces.specs.Groups.{last_id};

use std::collections::{BTreeMap, BTreeSet};
use th_model::MOST_HANDLES;

// The last one of the numbers, or 0.
pub fn last_id(numbers: &BTreeSet<u64>) -> u64
    ensures { result ≡ last_id numbers.now.keys }
{
    match numbers.last() {
        Some(last) => *last,
        None => 0,
    }
}

// The last number that has an entry, or 0.
pub fn last_key<X>(entries: &BTreeMap<u64, X>) -> u64
    ensures { result ≡ last_id (keys_of entries.now.entries) }
{
    match entries.last_key_value() {
        Some((last, _)) => *last,
        None => 0,
    }
}
