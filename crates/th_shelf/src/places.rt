//! What every shelf does with the places of its receivers, which it has in an ordered map by their
//! numbers.
ghost use Rattle.std.specs.Prelude.{◌≡◌, ◌-◌, ◌≤◌, slice_get, IfErr, OnOk};
ghost use Rattle.std.specs.Option.{option_map};
ghost use Rattle.th_model.specs.Places.{with_place};
ghost use Rattle.th_shelf.specs.Receiving.{above};

use std::collections::BTreeMap;
use std::ops::Bound;
use th_model::{RxId, Short};

/// The receiver with the `k`-th lowest number, from 0, and its place. Linear in `k`.
pub fn reader_at(places: &BTreeMap<u64, u64>, k: u64) -> Option<(RxId, u64)>
    ensures { option_map (λ r. (r.0.0, r.1)) result ≡ slice_get places.now.entries k }
{
    match places.iter().nth(k as usize) {
        Some((rx, place)) => Some((RxId(*rx), *place)),
        None => None,
    }
}

/// The receiver with the lowest number above `after`, or of all, and its place. Logarithmic in live
/// receivers.
pub fn next_reader(places: &BTreeMap<u64, u64>, after: Option<RxId>) -> Option<(RxId, u64)>
    ensures { option_map (λ r. (r.0.0, r.1)) result
        ≡ slice_get (above (option_map (λ rx. rx.0) after) places.now.entries) 0 }
{
    let start = match after {
        Some(rx) => Bound::Excluded(rx.0),
        None => Bound::Unbounded,
    };
    match places.range((start, Bound::Unbounded)).next() {
        Some((next, place)) => Some((RxId(*next), *place)),
        None => None,
    }
}

/// Puts a receiver at a place.
pub fn add_reader(places: &mut BTreeMap<u64, u64>, rx: RxId, place: u64) -> Result<(), Short<RxId>>
    ensures ok { OnOk result (places.new.entries ≡ with_place places.old.entries rx.0 place) }
    ensures short { IfErr result (λ short.
        (short.call ≡ rx) × (places.new.entries ≡ places.old.entries)) }
{
    let Ok(_) = places.insert(rx.0, place) else {
        return Err(Short { call: rx });
    };
    Ok(())
}

/// Moves a place from behind the window to its beginning, and answers how many values were missed.
pub fn skip_to(place: &mut u64, first: u64) -> u64
    requires { place.old ≤ first }
    ensures missed { result ≡ first - place.old }
    ensures moved { place.new ≡ first }
{
    let missed = first - *place;
    *place = first;
    missed
}
