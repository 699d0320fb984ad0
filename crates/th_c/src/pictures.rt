//! Pictures of channels as a trace tells of them.
ghost use Rattle.std.specs.Prelude.{◌≡◌, IfOk, map};
ghost use Rattle.th_model.specs.Limits.{IsCapacity};
ghost use Rattle.th_c.specs.SpelledValues.{broadcast_picture, watch_picture};

use crate::payload::Payload;
use std::alloc::Global;
use std::collections::{BTreeMap, VecDeque};
use th_bcast::PictureParts as BroadcastParts;
use th_model::{Capacity, Short, Value, copy_numbers};
use th_shelf::WindowParts;
use th_watch::PictureParts as WatchParts;

// Each of these values as it is spelled.
fn values<T: Payload>(alloc: Global, kept: &VecDeque<T>) -> Result<VecDeque<Value>, Short<()>>
    ensures { IfOk result (λ v. v.items ≡ map T.spelled kept.now.items) }
{
    let Ok(mut values) = VecDeque::with_capacity(alloc, kept.len()) else {
        return Err(Short { call: () });
    };
    for value in kept {
        let Ok(()) = values.push_back(value.spelled(alloc)?) else {
            return Err(Short { call: () });
        };
    }
    Ok(values)
}

// A copy of the places of receivers.
fn copied_places(places: &BTreeMap<u64, u64>) -> Result<BTreeMap<u64, u64>, Short<()>>
    ensures { IfOk result (λ copy. copy.entries ≡ places.now.entries) }
{
    match places.clone() {
        Ok(copy) => Ok(copy),
        Err(_) => Err(Short { call: () }),
    }
}

// A copy of whether the newest value is unseen by each reader.
fn copied_readers(readers: &BTreeMap<u64, bool>) -> Result<BTreeMap<u64, bool>, Short<()>>
    ensures { IfOk result (λ copy. copy.entries ≡ readers.now.entries) }
{
    match readers.clone() {
        Ok(copy) => Ok(copy),
        Err(_) => Err(Short { call: () }),
    }
}

// The capacity that is in force where it was asked for.
fn in_force(asked: u64) -> Capacity
    requires { IsCapacity asked }
    ensures { result ≡ asked }
{
    let Ok(capacity) = Capacity::new(asked) else {
        unreachable!()
    };
    capacity
}

/// A broadcast channel's.
pub(crate) fn broadcast_picture<T: Payload>(
    alloc: Global,
    picture: &BroadcastParts<T>,
) -> Result<BroadcastParts<Value>, Short<()>>
    ensures { IfOk result (λ p. p ≡ broadcast_picture T.spelled picture.now) }
{
    let window = picture.window();
    // Its contract says that the picture is sound.
    let next = picture.next_number();
    let kept = values(alloc, window.kept())?;
    let places = copied_places(window.places())?;
    let Ok(senders) = copy_numbers(picture.senders()) else {
        return Err(Short { call: () });
    };
    let window = WindowParts::new(in_force(window.capacity()), window.tail(), kept, places);
    Ok(BroadcastParts::new(window, senders, next))
}

/// A watch channel's.
pub(crate) fn watch_picture<T: Payload>(
    alloc: Global,
    picture: &WatchParts<T>,
) -> Result<WatchParts<Value>, Short<()>>
    ensures { IfOk result (λ p. p ≡ watch_picture T.spelled picture.now) }
{
    // Its contract says that the picture is sound.
    let next = picture.next_number();
    let last = picture.value().spelled(alloc)?;
    let readers = copied_readers(picture.readers())?;
    let Ok(senders) = copy_numbers(picture.senders()) else {
        return Err(Short { call: () });
    };
    Ok(WatchParts::new(picture.version(), last, readers, senders, next))
}
