//! Topics in order of opening: how they are listed, and how one is opened at a desk of one thread.
ghost use Rattle.std.specs.Prelude.{◌≡◌, false, is_some, IfOk};
ghost use Rattle.th_registry.specs.Hub.{find, list, Says, Open};
ghost use Rattle.th_registry.specs.Pictures.{pictures};

use crate::channel::{Channel, HubBroadcast, LocalChannel};
use crate::opening::Refusal;
use crate::recorded::Recorded;
use indexmap::IndexMap;
use std::hash::BuildHasher;
use th_model::{Capacity, Listed, Listing, Making, Name, Short, Value};
use th_watch::Watch;

/// The most topics of a hub.
pub const MOST_TOPICS: usize = 1024;

/// At most 1,024 channels by the names of their topics, in order of opening.
pub type Channels = IndexMap<Name, LocalChannel>;

/// The topics with their kinds, however their names are hashed. It takes memory for all of them at once.
pub fn list<B: Drop, W: Drop, S: BuildHasher>(
    topics: &IndexMap<Name, Channel<B, W>, S>,
) -> Result<Listing, Short<()>>
    ensures { IfOk result (λ rows. rows ≡ list topics.now.entries) }
{
    let alloc = *topics.allocator();
    let Ok(mut rows) = Vec::with_capacity(alloc, topics.len()) else {
        return Err(Short { call: () });
    };
    for (name, channel) in topics {
        let Ok(name) = name.clone() else {
            return Err(Short { call: () });
        };
        let kind = channel.kind();
        let Ok(()) = rows.push(Listed { name, kind }) else {
            return Err(Short { call: () });
        };
    }
    match Listing::from_vec(rows) {
        Ok(listing) => Ok(listing),
        Err(_) => Err(Short { call: () }),
    }
}

/// A broadcast channel at the end, under a name that is not there: its capacity in force. It is refused where the
/// capacity is out of range, else where there are 1,024 topics, else for want of memory; then nothing has changed.
pub(crate) fn open_broadcast(
    channels: &mut Channels,
    limit: u64,
    name: Name,
    asked: u64,
    base: u64,
) -> Result<u64, Refusal>
    requires { is_some (find channels.old.entries name) ≡ false }
    ensures { let making = Making.BroadcastAt asked base in
        Says (pictures limit) channels.old.entries (Open name making) result channels.new.entries }
{
    let Ok(capacity) = Capacity::new(asked) else {
        return Err(Refusal::BadCapacity);
    };
    if channels.len() >= MOST_TOPICS {
        return Err(Refusal::TooManyTopics);
    }
    let alloc = *channels.allocator();
    let Ok(channel) = HubBroadcast::starting_at(alloc, capacity, base) else {
        return Err(Refusal::Short);
    };
    let Ok(channel) = Recorded::new(alloc, channel, limit, channels.len() as u64 + 1) else {
        return Err(Refusal::Short);
    };
    let Ok(_) = channels.insert(name, Channel::Broadcast(channel)) else {
        return Err(Refusal::Short);
    };
    Ok(capacity.in_force())
}

/// The same of a watch channel, for which 1 is told.
pub(crate) fn open_watch(
    channels: &mut Channels,
    limit: u64,
    name: Name,
    value: Value,
) -> Result<u64, Refusal>
    requires { is_some (find channels.old.entries name) ≡ false }
    ensures { let making = Making.Watch value in
        Says (pictures limit) channels.old.entries (Open name making) result channels.new.entries }
{
    if channels.len() >= MOST_TOPICS {
        return Err(Refusal::TooManyTopics);
    }
    let alloc = *channels.allocator();
    let Ok(channel) = Watch::new(alloc, value) else {
        return Err(Refusal::Short);
    };
    let Ok(channel) = Recorded::new(alloc, channel, limit, channels.len() as u64 + 1) else {
        return Err(Refusal::Short);
    };
    let Ok(_) = channels.insert(name, Channel::Watch(channel)) else {
        return Err(Refusal::Short);
    };
    Ok(1)
}
