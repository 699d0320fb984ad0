//! The calls of a watch channel of bytes that take a value or give one, for C. `lib/c/topichub.h`
//! describes them.
ghost use Rattle.std.specs.Prelude.{◌≡◌, length, nat_lt};
ghost use Rattle.th_log.specs.History.{last_reply};
ghost use Rattle.th_model.specs.Names.{is_value};
ghost use Rattle.th_model.specs.WatchPicture.{answer};
ghost use Rattle.th_model.specs.declared.watch.Edit.TheVariants as edit;
ghost use Rattle.th_model.specs.declared.watch.WCall.TheVariants.{Send, Replace, EditBy, Borrow, Take};
ghost use Rattle.th_c.specs.Handles.{receiver, sender};
ghost use Rattle.th_c.specs.Making.{Fills, OpensRecordedWatchOfBytes, OpensWatchOfBytes};
ghost use Rattle.th_c.specs.Outcomes.{Through};
ghost use Rattle.th_c.specs.Watch.{AnswersOfBytes, RecordsOfBytes, same_bytes};
ghost use Rattle.th_c.specs.WatchBytes.{AnsweredBytes, Gives, GivesBytes, GivesValue, PutsBytes, SwapsBytes, call_of, shown_in, with_last, with_value};

use crate::bytes::MOST_BYTES;
use crate::content::{BytesWatch, Content};
use crate::handle::Handle;
use crate::outcome::{Refusal, Told, reply};
use crate::raw::{put, take};
use crate::reply::Reply;
use crate::tells::{Tells, answered, recorded};
use crate::text::copied;
use crate::{making, status};
use std::alloc::Global;
use th_model::{Edit, RxId, TxId, Value, ValueFault, WCall, WReply};
use th_registry::recorded::Recorded;

/// A channel with sender 1 and no reader, in a handle that stands for nothing.
#[unsafe(no_mangle)]
pub extern "C" fn topichub_watch_new_of_bytes(
    alloc: Global,
    channel: &mut Handle,
    bytes: &[u8],
    version: u64,
) -> u32
    ensures { Fills (λ came. OpensWatchOfBytes bytes.now version came)
        channel.old.value result channel.new.value }
{
    if making::is_open(alloc, channel) {
        return status::IS_OPEN;
    }
    making::fill(channel, making::watch_of_bytes(alloc, bytes, version))
}

/// One that keeps its history, of at most `limit` entries between two cuts.
#[unsafe(no_mangle)]
pub extern "C" fn topichub_watch_new_of_bytes_recorded(
    alloc: Global,
    channel: &mut Handle,
    bytes: &[u8],
    version: u64,
    limit: u64,
) -> u32
    ensures { Fills (λ came. OpensRecordedWatchOfBytes bytes.now version limit came)
        channel.old.value result channel.new.value }
{
    if making::is_open(alloc, channel) {
        return status::IS_OPEN;
    }
    making::fill(
        channel,
        making::recorded_watch_of_bytes(alloc, bytes, version, limit),
    )
}

/// How a value takes the place of the newest one.
#[derive(Clone, Copy, Drop)]
pub enum Puts {
    /// Where there is a reader.
    Send,
    /// Readers or not.
    Set,
    /// Where it differs.
    Differ,
    /// In the same version.
    Quiet,
}

// The call by which it does.
fn call_of(puts: Puts, tx: TxId, value: Value) -> WCall<Value>
    ensures { result ≡ call_of puts tx value }
{
    match puts {
        Puts::Send => WCall::Send(tx, value),
        Puts::Set => WCall::EditBy(tx, Edit::Set(value)),
        Puts::Differ => WCall::EditBy(tx, Edit::Differ(value)),
        Puts::Quiet => WCall::EditBy(tx, Edit::Quiet(value)),
    }
}

// Makes a call of what is behind a handle.
fn answered_bytes(content: &mut Content, call: WCall<Value>) -> Told
    ensures { AnsweredBytes content.old call result content.new }
{
    match content {
        Content::WatchOfBytes(channel) => answered(channel, call),
        Content::RecordedWatchOfBytes(channel) => recorded(channel, call),
        Content::Watch(_) => Err(Refusal::OtherValues),
        Content::RecordedWatch(_) => Err(Refusal::OtherValues),
        _ => Err(Refusal::NotOpen),
    }
}

// Puts bytes in the place of the newest value, if they are one.
fn put_on(alloc: Global, content: &mut Content, puts: Puts, tx: TxId, bytes: &[u8]) -> Told
    ensures { PutsBytes (is_value bytes.now) content.old (call_of puts tx bytes.now)
        result content.new }
{
    match Value::new(alloc, bytes) {
        Ok(value) => answered_bytes(content, call_of(puts, tx, value)),
        Err(ValueFault::Bad) => Err(Refusal::BadValue),
        Err(ValueFault::Short) => Err(Refusal::NoMemory),
    }
}

// And through a handle.
fn put_through(alloc: Global, handle: &mut Handle, puts: Puts, tx: TxId, bytes: &[u8]) -> Reply
    ensures { let call = call_of puts tx bytes.now in
        Through (λ c told next. PutsBytes (is_value bytes.now) c call told next)
        handle.old.value result handle.new.value }
{
    let Some(mut content) = take(alloc, handle) else {
        return reply(Err(Refusal::NotOpen));
    };
    let told = put_on(alloc, &mut *content, puts, tx, bytes);
    put(handle, content);
    reply(told)
}

/// Publishes bytes, where there is a reader.
#[unsafe(no_mangle)]
pub extern "C" fn topichub_watch_send_bytes(
    alloc: Global,
    channel: &mut Handle,
    tx: u64,
    bytes: &[u8],
) -> Reply
    ensures { let call = Send (sender tx) bytes.now in
        Through (λ c told next. PutsBytes (is_value bytes.now) c call told next)
        channel.old.value result channel.new.value }
{
    put_through(alloc, channel, Puts::Send, TxId(tx), bytes)
}

/// Publishes bytes, readers or not.
#[unsafe(no_mangle)]
pub extern "C" fn topichub_watch_set_bytes(
    alloc: Global,
    channel: &mut Handle,
    tx: u64,
    bytes: &[u8],
) -> Reply
    ensures { let call = EditBy (sender tx) (edit.Set bytes.now) in
        Through (λ c told next. PutsBytes (is_value bytes.now) c call told next)
        channel.old.value result channel.new.value }
{
    put_through(alloc, channel, Puts::Set, TxId(tx), bytes)
}

/// Publishes bytes where they differ from the newest value.
#[unsafe(no_mangle)]
pub extern "C" fn topichub_watch_differ_bytes(
    alloc: Global,
    channel: &mut Handle,
    tx: u64,
    bytes: &[u8],
) -> Reply
    ensures { let call = EditBy (sender tx) (edit.Differ bytes.now) in
        Through (λ c told next. PutsBytes (is_value bytes.now) c call told next)
        channel.old.value result channel.new.value }
{
    put_through(alloc, channel, Puts::Differ, TxId(tx), bytes)
}

/// Replaces the newest value by bytes, and tells nobody.
#[unsafe(no_mangle)]
pub extern "C" fn topichub_watch_quiet_bytes(
    alloc: Global,
    channel: &mut Handle,
    tx: u64,
    bytes: &[u8],
) -> Reply
    ensures { let call = EditBy (sender tx) (edit.Quiet bytes.now) in
        Through (λ c told next. PutsBytes (is_value bytes.now) c call told next)
        channel.old.value result channel.new.value }
{
    put_through(alloc, channel, Puts::Quiet, TxId(tx), bytes)
}

// Puts the value of a reply into a buffer.
fn put_value(reply: &WReply<Value>, buffer: &mut [u8])
    ensures { buffer.new ≡ with_value reply.now buffer.old }
{
    match reply {
        WReply::Was(value) => {
            let _count = copied(value.as_bytes(), buffer);
        }
        WReply::Shown(value, _) => {
            let _count = copied(value.as_bytes(), buffer);
        }
        _ => {}
    }
}

// Makes a call that gives a value, and puts it into a buffer.
fn answered_into(channel: &mut BytesWatch, call: WCall<Value>, buffer: &mut [u8]) -> Told
    ensures answers { AnswersOfBytes channel.old call result channel.new }
    ensures value { buffer.new ≡
        shown_in result (answer same_bytes channel.old call).0 buffer.old }
{
    if !channel.ready(&call) {
        return Err(Refusal::WouldWait);
    }
    // Its contract says that the picture is sound.
    let _live = channel.live();
    let note = channel.note(&call);
    match channel.apply(call) {
        Ok(reply) => {
            put_value(&reply, buffer);
            Ok(channel.told(note, &reply))
        }
        Err(_) => Err(Refusal::NoMemory),
    }
}

// Puts the value of a history's last reply into a buffer.
fn put_last(channel: &Recorded<BytesWatch>, buffer: &mut [u8])
    ensures { buffer.new ≡ with_last (last_reply channel.now.entries) buffer.old }
{
    match channel.last_reply() {
        Some(reply) => put_value(reply, buffer),
        None => {}
    }
}

// Makes a call that gives a value in a channel that keeps its history, and puts it into a buffer.
fn recorded_into(channel: &mut Recorded<BytesWatch>, call: WCall<Value>, buffer: &mut [u8]) -> Told
    ensures answers { RecordsOfBytes channel.old call result channel.new }
    ensures value { buffer.new ≡
        shown_in result (answer same_bytes channel.old.state call).0 buffer.old }
{
    match recorded(channel, call) {
        Ok(told) => {
            put_last(channel, buffer);
            Ok(told)
        }
        Err(why) => Err(why),
    }
}

// The same of what is behind a handle.
fn give_from(content: &mut Content, call: WCall<Value>, buffer: &mut [u8]) -> Told
    ensures { GivesBytes content.old call buffer.old result content.new buffer.new }
{
    match content {
        Content::WatchOfBytes(channel) => answered_into(channel, call, buffer),
        Content::RecordedWatchOfBytes(channel) => recorded_into(channel, call, buffer),
        Content::Watch(_) => Err(Refusal::OtherValues),
        Content::RecordedWatch(_) => Err(Refusal::OtherValues),
        _ => Err(Refusal::NotOpen),
    }
}

// The same, if the buffer has room for each value.
fn give_value(content: &mut Content, call: WCall<Value>, buffer: &mut [u8]) -> Told
    ensures { GivesValue (nat_lt (length buffer.old) 1024) content.old call buffer.old
        result content.new buffer.new }
{
    if buffer.len() < MOST_BYTES {
        return Err(Refusal::SmallBuffer);
    }
    give_from(content, call, buffer)
}

// And through the handle.
fn give(alloc: Global, handle: &mut Handle, call: WCall<Value>, buffer: &mut [u8]) -> Reply
    ensures { let small = nat_lt (length buffer.old) 1024 in
        Gives (λ c told next after. GivesValue small c call buffer.old told next after)
        handle.old.value buffer.old result handle.new.value buffer.new }
{
    let Some(mut content) = take(alloc, handle) else {
        return reply(Err(Refusal::NotOpen));
    };
    let told = give_value(&mut *content, call, buffer);
    put(handle, content);
    reply(told)
}

/// Shows the newest value in a buffer.
#[unsafe(no_mangle)]
pub extern "C" fn topichub_watch_borrow_bytes(
    alloc: Global,
    channel: &mut Handle,
    rx: u64,
    buffer: &mut [u8],
) -> Reply
    ensures { let small = nat_lt (length buffer.old) 1024 in
        let call = Borrow (receiver rx) in
        Gives (λ c told next after. GivesValue small c call buffer.old told next after)
        channel.old.value buffer.old result channel.new.value buffer.new }
{
    give(alloc, channel, WCall::Borrow(RxId(rx)), buffer)
}

/// The same, and marks it seen.
#[unsafe(no_mangle)]
pub extern "C" fn topichub_watch_take_bytes(
    alloc: Global,
    channel: &mut Handle,
    rx: u64,
    buffer: &mut [u8],
) -> Reply
    ensures { let small = nat_lt (length buffer.old) 1024 in
        let call = Take (receiver rx) in
        Gives (λ c told next after. GivesValue small c call buffer.old told next after)
        channel.old.value buffer.old result channel.new.value buffer.new }
{
    give(alloc, channel, WCall::Take(RxId(rx)), buffer)
}

// Publishes bytes for the old value, if they are one.
fn swap_on(alloc: Global, content: &mut Content, tx: TxId, bytes: &[u8], buffer: &mut [u8]) -> Told
    ensures { SwapsBytes (is_value bytes.now) content.old (Replace tx bytes.now) buffer.old
        result content.new buffer.new }
{
    match Value::new(alloc, bytes) {
        Ok(value) => give_value(content, WCall::Replace(tx, value), buffer),
        Err(ValueFault::Bad) => Err(Refusal::BadValue),
        Err(ValueFault::Short) => Err(Refusal::NoMemory),
    }
}

/// Publishes bytes, readers or not, for the old value, which goes into a buffer.
#[unsafe(no_mangle)]
pub extern "C" fn topichub_watch_replace_bytes(
    alloc: Global,
    channel: &mut Handle,
    tx: u64,
    bytes: &[u8],
    buffer: &mut [u8],
) -> Reply
    ensures { let call = Replace (sender tx) bytes.now in
        Gives (λ c told next after.
        SwapsBytes (is_value bytes.now) c call buffer.old told next after)
        channel.old.value buffer.old result channel.new.value buffer.new }
{
    let Some(mut content) = take(alloc, channel) else {
        return reply(Err(Refusal::NotOpen));
    };
    let told = swap_on(alloc, &mut *content, TxId(tx), bytes, buffer);
    put(channel, content);
    reply(told)
}
