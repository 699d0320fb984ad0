//! The calls of a broadcast channel, for C. `lib/c/topichub.h` describes them.
ghost use Rattle.std.specs.Prelude.{◌≡◌, None};
ghost use Rattle.th_model.specs.declared.broadcast.BCall.TheVariants.{Send, TryRecv, Recv, Subscribe, SubscribeOldest, Resubscribe, CloneTx, DropTx, DropRx, Queued, Left, Readers};
ghost use Rattle.th_c.specs.Broadcast.{Called};
ghost use Rattle.th_c.specs.Handles.{receiver, sender};
ghost use Rattle.th_c.specs.Making.{Fills, OpensBroadcast, OpensRecordedBroadcast};

use crate::broadcast::call;
use crate::handle::Handle;
use crate::reply::Reply;
use crate::{making, status};
use std::alloc::Global;
use th_model::{BCall, RxId, TxId};

/// A channel with sender 1 and no receiver, in a handle that stands for nothing.
#[unsafe(no_mangle)]
pub extern "C" fn topichub_broadcast_new(
    alloc: Global,
    channel: &mut Handle,
    capacity: u64,
    base: u64,
) -> u32
    ensures { Fills (λ came. OpensBroadcast capacity base came)
        channel.old.value result channel.new.value }
{
    if making::is_open(alloc, channel) {
        return status::IS_OPEN;
    }
    making::fill(channel, making::broadcast(alloc, capacity, base))
}

/// One that keeps its history, of at most `limit` entries between two cuts.
#[unsafe(no_mangle)]
pub extern "C" fn topichub_broadcast_new_recorded(
    alloc: Global,
    channel: &mut Handle,
    capacity: u64,
    base: u64,
    limit: u64,
) -> u32
    ensures { Fills (λ came. OpensRecordedBroadcast capacity base limit came)
        channel.old.value result channel.new.value }
{
    if making::is_open(alloc, channel) {
        return status::IS_OPEN;
    }
    making::fill(
        channel,
        making::recorded_broadcast(alloc, capacity, base, limit),
    )
}

/// Lets the channel go.
#[unsafe(no_mangle)]
pub extern "C" fn topichub_broadcast_free(alloc: Global, channel: &mut Handle)
    ensures { channel.new.value ≡ None }
{
    making::free(alloc, channel)
}

/// Sends a value to every live receiver.
#[unsafe(no_mangle)]
pub extern "C" fn topichub_broadcast_send(
    alloc: Global,
    channel: &mut Handle,
    tx: u64,
    value: u64,
) -> Reply
    ensures { Called channel.old.value (Send (sender tx) value) result channel.new.value }
{
    call(alloc, channel, BCall::Send(TxId(tx), value))
}

/// Receives the next value.
#[unsafe(no_mangle)]
pub extern "C" fn topichub_broadcast_try_recv(alloc: Global, channel: &mut Handle, rx: u64) -> Reply
    ensures { Called channel.old.value (TryRecv (receiver rx)) result channel.new.value }
{
    call(alloc, channel, BCall::TryRecv(RxId(rx)))
}

/// Receives the next value, for a caller that waits while there is none.
#[unsafe(no_mangle)]
pub extern "C" fn topichub_broadcast_recv(alloc: Global, channel: &mut Handle, rx: u64) -> Reply
    ensures { Called channel.old.value (Recv (receiver rx)) result channel.new.value }
{
    call(alloc, channel, BCall::Recv(RxId(rx)))
}

/// A new receiver, of what is sent from now on.
#[unsafe(no_mangle)]
pub extern "C" fn topichub_broadcast_subscribe(
    alloc: Global,
    channel: &mut Handle,
    tx: u64,
) -> Reply
    ensures { Called channel.old.value (Subscribe (sender tx)) result channel.new.value }
{
    call(alloc, channel, BCall::Subscribe(TxId(tx)))
}

/// A new receiver, of what is still kept, and then of what is sent from now on.
#[unsafe(no_mangle)]
pub extern "C" fn topichub_broadcast_subscribe_oldest(
    alloc: Global,
    channel: &mut Handle,
    tx: u64,
) -> Reply
    ensures { Called channel.old.value (SubscribeOldest (sender tx)) result channel.new.value }
{
    call(alloc, channel, BCall::SubscribeOldest(TxId(tx)))
}

/// A new receiver, of what is sent from now on, asked for by a receiver.
#[unsafe(no_mangle)]
pub extern "C" fn topichub_broadcast_resubscribe(
    alloc: Global,
    channel: &mut Handle,
    rx: u64,
) -> Reply
    ensures { Called channel.old.value (Resubscribe (receiver rx)) result channel.new.value }
{
    call(alloc, channel, BCall::Resubscribe(RxId(rx)))
}

/// A new sender.
#[unsafe(no_mangle)]
pub extern "C" fn topichub_broadcast_clone_tx(alloc: Global, channel: &mut Handle, tx: u64) -> Reply
    ensures { Called channel.old.value (CloneTx (sender tx)) result channel.new.value }
{
    call(alloc, channel, BCall::CloneTx(TxId(tx)))
}

/// Spends a sender.
#[unsafe(no_mangle)]
pub extern "C" fn topichub_broadcast_drop_tx(alloc: Global, channel: &mut Handle, tx: u64) -> Reply
    ensures { Called channel.old.value (DropTx (sender tx)) result channel.new.value }
{
    call(alloc, channel, BCall::DropTx(TxId(tx)))
}

/// Spends a receiver.
#[unsafe(no_mangle)]
pub extern "C" fn topichub_broadcast_drop_rx(alloc: Global, channel: &mut Handle, rx: u64) -> Reply
    ensures { Called channel.old.value (DropRx (receiver rx)) result channel.new.value }
{
    call(alloc, channel, BCall::DropRx(RxId(rx)))
}

/// How many values are kept.
#[unsafe(no_mangle)]
pub extern "C" fn topichub_broadcast_queued(alloc: Global, channel: &mut Handle, tx: u64) -> Reply
    ensures { Called channel.old.value (Queued (sender tx)) result channel.new.value }
{
    call(alloc, channel, BCall::Queued(TxId(tx)))
}

/// How many values a receiver has still to come.
#[unsafe(no_mangle)]
pub extern "C" fn topichub_broadcast_left(alloc: Global, channel: &mut Handle, rx: u64) -> Reply
    ensures { Called channel.old.value (Left (receiver rx)) result channel.new.value }
{
    call(alloc, channel, BCall::Left(RxId(rx)))
}

/// How many receivers are live.
#[unsafe(no_mangle)]
pub extern "C" fn topichub_broadcast_readers(alloc: Global, channel: &mut Handle, tx: u64) -> Reply
    ensures { Called channel.old.value (Readers (sender tx)) result channel.new.value }
{
    call(alloc, channel, BCall::Readers(TxId(tx)))
}
