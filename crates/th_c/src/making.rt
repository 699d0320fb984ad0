//! What a handle stands for, made and let go.
ghost use Rattle.std.specs.Prelude.{◌≡◌, ◌↔◌, IsTrue, is_some, MatchResult, Ok, Err, Some, None};
ghost use Rattle.th_c.specs.Making.{IsLimit, OpensBroadcast, OpensBroadcastOfBytes, OpensRecordedBroadcast, OpensRecordedBroadcastOfBytes, OpensRecordedWatch, OpensRecordedWatchOfBytes, OpensWatch, OpensWatchOfBytes};
ghost use Rattle.th_c.specs.Outcomes.{code_of};
ghost use Rattle.th_c.specs.declared.outcome.Refusal.TheVariants.{NoMemory};
ghost use Rattle.th_c.specs.declared.status.TheConstants.{DONE};

use crate::content::{BytesBroadcast, BytesWatch, Content, NumberBroadcast, NumberWatch};
use crate::handle::Handle;
use crate::outcome::{Refusal, code};
use crate::raw::{put, take};
use crate::status;
use std::alloc::Global;
use th_log::MOST_ENTRIES;
use th_model::{Capacity, Value, ValueFault};
use th_registry::recorded::Recorded;

/// On the heap, where there is memory for it.
pub(crate) fn boxed(alloc: Global, content: Content) -> Result<Box<Content>, Refusal>
    ensures { MatchResult result (λ b. b.value ≡ content) (λ why. why ≡ NoMemory) }
{
    match Box::new(alloc, content) {
        Ok(content) => Ok(content),
        Err(_) => Err(Refusal::NoMemory),
    }
}

/// A broadcast channel with sender 1, whose first value stands at `base`.
pub(crate) fn broadcast(alloc: Global, capacity: u64, base: u64) -> Result<Box<Content>, Refusal>
    ensures { MatchResult result
        (λ b. OpensBroadcast capacity base (Ok b.value))
        (λ why. OpensBroadcast capacity base (Err why)) }
{
    let Ok(in_force) = Capacity::new(capacity) else {
        return Err(Refusal::BadCapacity);
    };
    match NumberBroadcast::starting_at(alloc, in_force, base) {
        Ok(channel) => boxed(alloc, Content::Broadcast(channel)),
        Err(_) => Err(Refusal::NoMemory),
    }
}

/// One of bytes.
pub(crate) fn broadcast_of_bytes(
    alloc: Global,
    capacity: u64,
    base: u64,
) -> Result<Box<Content>, Refusal>
    ensures { MatchResult result
        (λ b. OpensBroadcastOfBytes capacity base (Ok b.value))
        (λ why. OpensBroadcastOfBytes capacity base (Err why)) }
{
    let Ok(in_force) = Capacity::new(capacity) else {
        return Err(Refusal::BadCapacity);
    };
    match BytesBroadcast::starting_at(alloc, in_force, base) {
        Ok(channel) => boxed(alloc, Content::BroadcastOfBytes(channel)),
        Err(_) => Err(Refusal::NoMemory),
    }
}

/// A watch channel with sender 1, whose value has this version.
pub(crate) fn watch(alloc: Global, value: u64, version: u64) -> Result<Box<Content>, Refusal>
    ensures { MatchResult result
        (λ b. OpensWatch value version (Ok b.value))
        (λ why. OpensWatch value version (Err why)) }
{
    if version == 0 {
        return Err(Refusal::BadVersion);
    }
    match NumberWatch::starting_at(alloc, value, version) {
        Ok(channel) => boxed(alloc, Content::Watch(channel)),
        Err(_) => Err(Refusal::NoMemory),
    }
}

// Whether a history may have so many entries.
fn is_limit(limit: u64) -> bool
    ensures { IsTrue result ↔ IsLimit limit }
{
    limit != 0 && limit <= MOST_ENTRIES
}

/// A broadcast channel that keeps its history, of at most `limit` entries between two cuts.
pub(crate) fn recorded_broadcast(
    alloc: Global,
    capacity: u64,
    base: u64,
    limit: u64,
) -> Result<Box<Content>, Refusal>
    ensures { MatchResult result
        (λ b. OpensRecordedBroadcast capacity base limit (Ok b.value))
        (λ why. OpensRecordedBroadcast capacity base limit (Err why)) }
{
    let Ok(in_force) = Capacity::new(capacity) else {
        return Err(Refusal::BadCapacity);
    };
    if !is_limit(limit) {
        return Err(Refusal::BadLimit);
    }
    let Ok(channel) = NumberBroadcast::starting_at(alloc, in_force, base) else {
        return Err(Refusal::NoMemory);
    };
    match Recorded::new(alloc, channel, limit, 0) {
        Ok(channel) => boxed(alloc, Content::RecordedBroadcast(channel)),
        Err(_) => Err(Refusal::NoMemory),
    }
}

/// One of bytes.
pub(crate) fn recorded_broadcast_of_bytes(
    alloc: Global,
    capacity: u64,
    base: u64,
    limit: u64,
) -> Result<Box<Content>, Refusal>
    ensures { MatchResult result
        (λ b. OpensRecordedBroadcastOfBytes capacity base limit (Ok b.value))
        (λ why. OpensRecordedBroadcastOfBytes capacity base limit (Err why)) }
{
    let Ok(in_force) = Capacity::new(capacity) else {
        return Err(Refusal::BadCapacity);
    };
    if !is_limit(limit) {
        return Err(Refusal::BadLimit);
    }
    let Ok(channel) = BytesBroadcast::starting_at(alloc, in_force, base) else {
        return Err(Refusal::NoMemory);
    };
    match Recorded::new(alloc, channel, limit, 0) {
        Ok(channel) => boxed(alloc, Content::RecordedBroadcastOfBytes(channel)),
        Err(_) => Err(Refusal::NoMemory),
    }
}

/// And a watch channel.
pub(crate) fn recorded_watch(
    alloc: Global,
    value: u64,
    version: u64,
    limit: u64,
) -> Result<Box<Content>, Refusal>
    ensures { MatchResult result
        (λ b. OpensRecordedWatch value version limit (Ok b.value))
        (λ why. OpensRecordedWatch value version limit (Err why)) }
{
    if version == 0 {
        return Err(Refusal::BadVersion);
    }
    if !is_limit(limit) {
        return Err(Refusal::BadLimit);
    }
    let Ok(channel) = NumberWatch::starting_at(alloc, value, version) else {
        return Err(Refusal::NoMemory);
    };
    match Recorded::new(alloc, channel, limit, 0) {
        Ok(channel) => boxed(alloc, Content::RecordedWatch(channel)),
        Err(_) => Err(Refusal::NoMemory),
    }
}

/// A watch channel of bytes.
pub(crate) fn watch_of_bytes(
    alloc: Global,
    bytes: &[u8],
    version: u64,
) -> Result<Box<Content>, Refusal>
    ensures { MatchResult result
        (λ b. OpensWatchOfBytes bytes.now version (Ok b.value))
        (λ why. OpensWatchOfBytes bytes.now version (Err why)) }
{
    if version == 0 {
        return Err(Refusal::BadVersion);
    }
    let value = match Value::new(alloc, bytes) {
        Ok(value) => value,
        Err(ValueFault::Bad) => return Err(Refusal::BadValue),
        Err(ValueFault::Short) => return Err(Refusal::NoMemory),
    };
    match BytesWatch::starting_at(alloc, value, version) {
        Ok(channel) => boxed(alloc, Content::WatchOfBytes(channel)),
        Err(_) => Err(Refusal::NoMemory),
    }
}

/// And one that keeps its history.
pub(crate) fn recorded_watch_of_bytes(
    alloc: Global,
    bytes: &[u8],
    version: u64,
    limit: u64,
) -> Result<Box<Content>, Refusal>
    ensures { MatchResult result
        (λ b. OpensRecordedWatchOfBytes bytes.now version limit (Ok b.value))
        (λ why. OpensRecordedWatchOfBytes bytes.now version limit (Err why)) }
{
    if version == 0 {
        return Err(Refusal::BadVersion);
    }
    if !is_limit(limit) {
        return Err(Refusal::BadLimit);
    }
    let value = match Value::new(alloc, bytes) {
        Ok(value) => value,
        Err(ValueFault::Bad) => return Err(Refusal::BadValue),
        Err(ValueFault::Short) => return Err(Refusal::NoMemory),
    };
    let Ok(channel) = BytesWatch::starting_at(alloc, value, version) else {
        return Err(Refusal::NoMemory);
    };
    match Recorded::new(alloc, channel, limit, 0) {
        Ok(channel) => boxed(alloc, Content::RecordedWatchOfBytes(channel)),
        Err(_) => Err(Refusal::NoMemory),
    }
}

/// Whether a handle stands for something.
pub(crate) fn is_open(alloc: Global, handle: &mut Handle) -> bool
    ensures open { result ≡ is_some handle.old.value }
    ensures same { handle.new.value ≡ handle.old.value }
{
    match take(alloc, handle) {
        Some(content) => {
            put(handle, content);
            true
        }
        None => false,
    }
}

/// Puts what was made into a handle, which stood for nothing.
pub(crate) fn fill(handle: &mut Handle, came: Result<Box<Content>, Refusal>) -> u32
    requires { handle.old.value ≡ None }
    ensures { MatchResult came
        (λ b. (result ≡ DONE) × (handle.new.value ≡ Some b.value))
        (λ why. (result ≡ code_of why) × (handle.new.value ≡ None)) }
{
    match came {
        Ok(content) => {
            put(handle, content);
            status::DONE
        }
        Err(why) => code(why),
    }
}

/// What a handle stands for is let go; it stands for nothing then.
pub(crate) fn free(alloc: Global, handle: &mut Handle)
    ensures { handle.new.value ≡ None }
{
    let _content = take(alloc, handle);
}
