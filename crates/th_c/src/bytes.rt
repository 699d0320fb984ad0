//! The calls of a broadcast channel of bytes that take a value or give one, for C. `lib/c/topichub.h`
//! describes them.
ghost use Rattle.std.specs.Prelude.{◌≡◌, length, nat_lt};
ghost use Rattle.th_model.specs.Names.{is_value};
ghost use Rattle.th_model.specs.BroadcastPicture.{answer};
ghost use Rattle.th_model.specs.declared.broadcast.BCall.TheVariants.{Send, TryRecv, Recv};
ghost use Rattle.th_c.specs.Bytes.{Answering, AnswersOfBytes, Gives, GivesBytes, SendsBytes, SendsValue, shown_in, with_value};
ghost use Rattle.th_c.specs.Handles.{receiver, sender};
ghost use Rattle.th_c.specs.Making.{Fills, OpensBroadcastOfBytes, OpensRecordedBroadcastOfBytes};
ghost use Rattle.th_c.specs.Outcomes.{Through};

use crate::bytes_recorded::{give_recorded, record_value};
use crate::content::{BytesBroadcast, Content};
use crate::handle::Handle;
use crate::outcome::{Refusal, Told, reply};
use crate::raw::{put, take};
use crate::reply::Reply;
use crate::tells::{Tells, answered};
use crate::text::copied;
use crate::{making, status};
use std::alloc::Global;
use th_model::{BCall, BReply, RxId, TxId, Value, ValueFault};

/// The most bytes that a value has.
pub(crate) const MOST_BYTES: usize = 1024;

/// A channel of bytes with sender 1 and no receiver, in a handle that stands for nothing.
#[unsafe(no_mangle)]
pub extern "C" fn topichub_broadcast_new_of_bytes(
    alloc: Global,
    channel: &mut Handle,
    capacity: u64,
    base: u64,
) -> u32
    ensures { Fills (λ came. OpensBroadcastOfBytes capacity base came)
        channel.old.value result channel.new.value }
{
    if making::is_open(alloc, channel) {
        return status::IS_OPEN;
    }
    making::fill(channel, making::broadcast_of_bytes(alloc, capacity, base))
}

/// One that keeps its history, of at most `limit` entries between two cuts.
#[unsafe(no_mangle)]
pub extern "C" fn topichub_broadcast_new_of_bytes_recorded(
    alloc: Global,
    channel: &mut Handle,
    capacity: u64,
    base: u64,
    limit: u64,
) -> u32
    ensures { Fills (λ came. OpensRecordedBroadcastOfBytes capacity base limit came)
        channel.old.value result channel.new.value }
{
    if making::is_open(alloc, channel) {
        return status::IS_OPEN;
    }
    making::fill(
        channel,
        making::recorded_broadcast_of_bytes(alloc, capacity, base, limit),
    )
}

// Sends bytes, if they are a value.
fn send_value(alloc: Global, channel: &mut BytesBroadcast, tx: TxId, bytes: &[u8]) -> Told
    ensures { SendsValue (is_value bytes.now) channel.old (Send tx bytes.now) result channel.new }
{
    match Value::new(alloc, bytes) {
        Ok(value) => answered(channel, BCall::Send(tx, value)),
        Err(ValueFault::Bad) => Err(Refusal::BadValue),
        Err(ValueFault::Short) => Err(Refusal::NoMemory),
    }
}

// Sends bytes on what is behind a handle.
fn send_on(alloc: Global, content: &mut Content, tx: TxId, bytes: &[u8]) -> Told
    ensures { SendsBytes content.old (Send tx bytes.now) bytes.now result content.new }
{
    match content {
        Content::BroadcastOfBytes(channel) => send_value(alloc, channel, tx, bytes),
        Content::RecordedBroadcastOfBytes(channel) => record_value(alloc, channel, tx, bytes),
        Content::Broadcast(_) => Err(Refusal::OtherValues),
        Content::RecordedBroadcast(_) => Err(Refusal::OtherValues),
        _ => Err(Refusal::NotOpen),
    }
}

/// Sends bytes to every live receiver.
#[unsafe(no_mangle)]
pub extern "C" fn topichub_broadcast_send_bytes(
    alloc: Global,
    channel: &mut Handle,
    tx: u64,
    bytes: &[u8],
) -> Reply
    ensures { Through (λ c told next.
        SendsBytes c (Send (sender tx) bytes.now) bytes.now told next)
        channel.old.value result channel.new.value }
{
    let Some(mut content) = take(alloc, channel) else {
        return reply(Err(Refusal::NotOpen));
    };
    let told = send_on(alloc, &mut *content, TxId(tx), bytes);
    put(channel, content);
    reply(told)
}

/// Puts the value of a reply into a buffer.
pub(crate) fn put_value(reply: &BReply<Value>, buffer: &mut [u8])
    ensures { buffer.new ≡ with_value reply.now buffer.old }
{
    match reply {
        BReply::Value(value) => {
            let _count = copied(value.as_bytes(), buffer);
        }
        _ => {}
    }
}

// Makes a call that gives a value, and puts it into a buffer.
fn answered_into(channel: &mut BytesBroadcast, call: BCall<Value>, buffer: &mut [u8]) -> Told
    ensures answers { AnswersOfBytes channel.old call result channel.new }
    ensures value { buffer.new ≡ shown_in result (answer channel.old call).0 buffer.old }
{
    if !channel.ready(&call) {
        return Err(Refusal::WouldWait);
    }
    // Its contract says that the picture is sound.
    let _live = channel.live();
    let note = channel.note(&call);
    match channel.make(call) {
        Ok(reply) => {
            put_value(&reply, buffer);
            Ok(channel.told(note, &reply))
        }
        Err(_) => Err(Refusal::NoMemory),
    }
}

// The same, if the buffer has room for each value.
fn give_value(channel: &mut BytesBroadcast, call: BCall<Value>, buffer: &mut [u8]) -> Told
    ensures { Answering channel.old call buffer.old result channel.new buffer.new }
{
    if buffer.len() < MOST_BYTES {
        return Err(Refusal::SmallBuffer);
    }
    answered_into(channel, call, buffer)
}

// The same of what is behind a handle.
fn give_from(content: &mut Content, call: BCall<Value>, buffer: &mut [u8]) -> Told
    ensures { GivesBytes content.old call buffer.old result content.new buffer.new }
{
    match content {
        Content::BroadcastOfBytes(channel) => give_value(channel, call, buffer),
        Content::RecordedBroadcastOfBytes(channel) => give_recorded(channel, call, buffer),
        Content::Broadcast(_) => Err(Refusal::OtherValues),
        Content::RecordedBroadcast(_) => Err(Refusal::OtherValues),
        _ => Err(Refusal::NotOpen),
    }
}

// And through the handle.
fn give(alloc: Global, channel: &mut Handle, call: BCall<Value>, buffer: &mut [u8]) -> Reply
    ensures { Gives channel.old.value call buffer.old result channel.new.value buffer.new }
{
    let Some(mut content) = take(alloc, channel) else {
        return reply(Err(Refusal::NotOpen));
    };
    let told = give_from(&mut *content, call, buffer);
    put(channel, content);
    reply(told)
}

/// Receives the next value into a buffer.
#[unsafe(no_mangle)]
pub extern "C" fn topichub_broadcast_try_recv_bytes(
    alloc: Global,
    channel: &mut Handle,
    rx: u64,
    buffer: &mut [u8],
) -> Reply
    ensures { Gives channel.old.value (TryRecv (receiver rx)) buffer.old
        result channel.new.value buffer.new }
{
    give(alloc, channel, BCall::TryRecv(RxId(rx)), buffer)
}

/// The same for a caller that waits while there is none.
#[unsafe(no_mangle)]
pub extern "C" fn topichub_broadcast_recv_bytes(
    alloc: Global,
    channel: &mut Handle,
    rx: u64,
    buffer: &mut [u8],
) -> Reply
    ensures { Gives channel.old.value (Recv (receiver rx)) buffer.old
        result channel.new.value buffer.new }
{
    give(alloc, channel, BCall::Recv(RxId(rx)), buffer)
}
