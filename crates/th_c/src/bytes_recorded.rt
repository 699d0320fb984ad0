//! The calls that take a value or give one, in a broadcast channel of bytes that keeps its history.
ghost use Rattle.std.specs.Prelude.{◌≡◌};
ghost use Rattle.th_log.specs.History.{last_reply};
ghost use Rattle.th_model.specs.Names.{is_value};
ghost use Rattle.th_model.specs.BroadcastPicture.{answer};
ghost use Rattle.th_model.specs.declared.broadcast.BCall.TheVariants.{Send};
ghost use Rattle.th_c.specs.Bytes.{Recording, RecordsOfBytes, RecordsValue, shown_in, with_last};

use crate::bytes::{MOST_BYTES, put_value};
use crate::content::BytesBroadcast;
use crate::outcome::{Refusal, Told};
use crate::tells::recorded;
use std::alloc::Global;
use th_model::{BCall, TxId, Value, ValueFault};
use th_registry::recorded::Recorded;

/// Sends bytes, if they are a value.
pub(crate) fn record_value(
    alloc: Global,
    channel: &mut Recorded<BytesBroadcast>,
    tx: TxId,
    bytes: &[u8],
) -> Told
    ensures { RecordsValue (is_value bytes.now) channel.old (Send tx bytes.now) result channel.new }
{
    match Value::new(alloc, bytes) {
        Ok(value) => recorded(channel, BCall::Send(tx, value)),
        Err(ValueFault::Bad) => Err(Refusal::BadValue),
        Err(ValueFault::Short) => Err(Refusal::NoMemory),
    }
}

// Puts the value of a history's last reply into a buffer.
fn put_last(channel: &Recorded<BytesBroadcast>, buffer: &mut [u8])
    ensures { buffer.new ≡ with_last (last_reply channel.now.entries) buffer.old }
{
    match channel.last_reply() {
        Some(reply) => put_value(reply, buffer),
        None => {}
    }
}

// Makes a call that gives a value, and puts it into a buffer.
fn recorded_into(
    channel: &mut Recorded<BytesBroadcast>,
    call: BCall<Value>,
    buffer: &mut [u8],
) -> Told
    ensures answers { RecordsOfBytes channel.old call result channel.new }
    ensures value { buffer.new ≡ shown_in result (answer channel.old.state call).0 buffer.old }
{
    match recorded(channel, call) {
        Ok(told) => {
            put_last(channel, buffer);
            Ok(told)
        }
        Err(why) => Err(why),
    }
}

/// The same, if the buffer has room for each value.
pub(crate) fn give_recorded(
    channel: &mut Recorded<BytesBroadcast>,
    call: BCall<Value>,
    buffer: &mut [u8],
) -> Told
    ensures { Recording channel.old call buffer.old result channel.new buffer.new }
{
    if buffer.len() < MOST_BYTES {
        return Err(Refusal::SmallBuffer);
    }
    recorded_into(channel, call, buffer)
}
