//! The calls of a watch channel, for C. `lib/c/topichub.h` describes them.
ghost use Rattle.std.specs.Prelude.{◌≡◌, None};
ghost use Rattle.th_model.specs.declared.watch.Edit.TheVariants as edit;
ghost use Rattle.th_model.specs.declared.watch.WCall.TheVariants.{Send, Replace, EditBy, Borrow, Take, HasChanged, TryChanged, Changed, MarkChanged, MarkUnchanged, Subscribe, CloneRx, CloneTx, DropTx, DropRx, IsClosed, Readers};
ghost use Rattle.th_c.specs.Handles.{receiver, sender};
ghost use Rattle.th_c.specs.Making.{Fills, OpensWatch, OpensRecordedWatch};
ghost use Rattle.th_c.specs.Watch.{Called};

use crate::handle::Handle;
use crate::reply::Reply;
use crate::watch::call;
use crate::{making, status};
use std::alloc::Global;
use th_model::{Edit, RxId, TxId, WCall};

/// A channel with sender 1 and no reader, in a handle that stands for nothing.
#[unsafe(no_mangle)]
pub extern "C" fn topichub_watch_new(
    alloc: Global,
    channel: &mut Handle,
    value: u64,
    version: u64,
) -> u32
    ensures { Fills (λ came. OpensWatch value version came)
        channel.old.value result channel.new.value }
{
    if making::is_open(alloc, channel) {
        return status::IS_OPEN;
    }
    making::fill(channel, making::watch(alloc, value, version))
}

/// One that keeps its history, of at most `limit` entries between two cuts.
#[unsafe(no_mangle)]
pub extern "C" fn topichub_watch_new_recorded(
    alloc: Global,
    channel: &mut Handle,
    value: u64,
    version: u64,
    limit: u64,
) -> u32
    ensures { Fills (λ came. OpensRecordedWatch value version limit came)
        channel.old.value result channel.new.value }
{
    if making::is_open(alloc, channel) {
        return status::IS_OPEN;
    }
    making::fill(
        channel,
        making::recorded_watch(alloc, value, version, limit),
    )
}

/// Lets the channel go.
#[unsafe(no_mangle)]
pub extern "C" fn topichub_watch_free(alloc: Global, channel: &mut Handle)
    ensures { channel.new.value ≡ None }
{
    making::free(alloc, channel)
}

/// Publishes a value, where there is a reader.
#[unsafe(no_mangle)]
pub extern "C" fn topichub_watch_send(
    alloc: Global,
    channel: &mut Handle,
    tx: u64,
    value: u64,
) -> Reply
    ensures { Called channel.old.value (Send (sender tx) value) result channel.new.value }
{
    call(alloc, channel, WCall::Send(TxId(tx), value))
}

/// Publishes a value, readers or not, for the old one.
#[unsafe(no_mangle)]
pub extern "C" fn topichub_watch_replace(
    alloc: Global,
    channel: &mut Handle,
    tx: u64,
    value: u64,
) -> Reply
    ensures { Called channel.old.value (Replace (sender tx) value) result channel.new.value }
{
    call(alloc, channel, WCall::Replace(TxId(tx), value))
}

/// Publishes a value, readers or not.
#[unsafe(no_mangle)]
pub extern "C" fn topichub_watch_set(
    alloc: Global,
    channel: &mut Handle,
    tx: u64,
    value: u64,
) -> Reply
    ensures { let call = EditBy (sender tx) (edit.Set value) in
        Called channel.old.value call result channel.new.value }
{
    call(alloc, channel, WCall::EditBy(TxId(tx), Edit::Set(value)))
}

/// Publishes a value where it differs from the newest one.
#[unsafe(no_mangle)]
pub extern "C" fn topichub_watch_differ(
    alloc: Global,
    channel: &mut Handle,
    tx: u64,
    value: u64,
) -> Reply
    ensures { let call = EditBy (sender tx) (edit.Differ value) in
        Called channel.old.value call result channel.new.value }
{
    call(alloc, channel, WCall::EditBy(TxId(tx), Edit::Differ(value)))
}

/// Replaces the newest value, and tells nobody.
#[unsafe(no_mangle)]
pub extern "C" fn topichub_watch_quiet(
    alloc: Global,
    channel: &mut Handle,
    tx: u64,
    value: u64,
) -> Reply
    ensures { let call = EditBy (sender tx) (edit.Quiet value) in
        Called channel.old.value call result channel.new.value }
{
    call(alloc, channel, WCall::EditBy(TxId(tx), Edit::Quiet(value)))
}

/// Shows the newest value.
#[unsafe(no_mangle)]
pub extern "C" fn topichub_watch_borrow(alloc: Global, channel: &mut Handle, rx: u64) -> Reply
    ensures { Called channel.old.value (Borrow (receiver rx)) result channel.new.value }
{
    call(alloc, channel, WCall::Borrow(RxId(rx)))
}

/// Shows the newest value, and marks it seen.
#[unsafe(no_mangle)]
pub extern "C" fn topichub_watch_take(alloc: Global, channel: &mut Handle, rx: u64) -> Reply
    ensures { Called channel.old.value (Take (receiver rx)) result channel.new.value }
{
    call(alloc, channel, WCall::Take(RxId(rx)))
}

/// Whether the newest value is unseen.
#[unsafe(no_mangle)]
pub extern "C" fn topichub_watch_has_changed(alloc: Global, channel: &mut Handle, rx: u64) -> Reply
    ensures { Called channel.old.value (HasChanged (receiver rx)) result channel.new.value }
{
    call(alloc, channel, WCall::HasChanged(RxId(rx)))
}

/// Marks the newest value seen, where it is unseen.
#[unsafe(no_mangle)]
pub extern "C" fn topichub_watch_try_changed(alloc: Global, channel: &mut Handle, rx: u64) -> Reply
    ensures { Called channel.old.value (TryChanged (receiver rx)) result channel.new.value }
{
    call(alloc, channel, WCall::TryChanged(RxId(rx)))
}

/// The same, for a caller that waits while it is seen.
#[unsafe(no_mangle)]
pub extern "C" fn topichub_watch_changed(alloc: Global, channel: &mut Handle, rx: u64) -> Reply
    ensures { Called channel.old.value (Changed (receiver rx)) result channel.new.value }
{
    call(alloc, channel, WCall::Changed(RxId(rx)))
}

/// Makes the newest value unseen.
#[unsafe(no_mangle)]
pub extern "C" fn topichub_watch_mark_changed(alloc: Global, channel: &mut Handle, rx: u64) -> Reply
    ensures { Called channel.old.value (MarkChanged (receiver rx)) result channel.new.value }
{
    call(alloc, channel, WCall::MarkChanged(RxId(rx)))
}

/// Marks the newest value seen.
#[unsafe(no_mangle)]
pub extern "C" fn topichub_watch_mark_unchanged(
    alloc: Global,
    channel: &mut Handle,
    rx: u64,
) -> Reply
    ensures { Called channel.old.value (MarkUnchanged (receiver rx)) result channel.new.value }
{
    call(alloc, channel, WCall::MarkUnchanged(RxId(rx)))
}

/// A new reader, to whom the newest value is seen.
#[unsafe(no_mangle)]
pub extern "C" fn topichub_watch_subscribe(alloc: Global, channel: &mut Handle, tx: u64) -> Reply
    ensures { Called channel.old.value (Subscribe (sender tx)) result channel.new.value }
{
    call(alloc, channel, WCall::Subscribe(TxId(tx)))
}

/// A new reader, with the mark of this one.
#[unsafe(no_mangle)]
pub extern "C" fn topichub_watch_clone_rx(alloc: Global, channel: &mut Handle, rx: u64) -> Reply
    ensures { Called channel.old.value (CloneRx (receiver rx)) result channel.new.value }
{
    call(alloc, channel, WCall::CloneRx(RxId(rx)))
}

/// A new sender.
#[unsafe(no_mangle)]
pub extern "C" fn topichub_watch_clone_tx(alloc: Global, channel: &mut Handle, tx: u64) -> Reply
    ensures { Called channel.old.value (CloneTx (sender tx)) result channel.new.value }
{
    call(alloc, channel, WCall::CloneTx(TxId(tx)))
}

/// Spends a sender.
#[unsafe(no_mangle)]
pub extern "C" fn topichub_watch_drop_tx(alloc: Global, channel: &mut Handle, tx: u64) -> Reply
    ensures { Called channel.old.value (DropTx (sender tx)) result channel.new.value }
{
    call(alloc, channel, WCall::DropTx(TxId(tx)))
}

/// Spends a reader.
#[unsafe(no_mangle)]
pub extern "C" fn topichub_watch_drop_rx(alloc: Global, channel: &mut Handle, rx: u64) -> Reply
    ensures { Called channel.old.value (DropRx (receiver rx)) result channel.new.value }
{
    call(alloc, channel, WCall::DropRx(RxId(rx)))
}

/// Whether no reader is left.
#[unsafe(no_mangle)]
pub extern "C" fn topichub_watch_is_closed(alloc: Global, channel: &mut Handle, tx: u64) -> Reply
    ensures { Called channel.old.value (IsClosed (sender tx)) result channel.new.value }
{
    call(alloc, channel, WCall::IsClosed(TxId(tx)))
}

/// How many readers are live.
#[unsafe(no_mangle)]
pub extern "C" fn topichub_watch_readers(alloc: Global, channel: &mut Handle, tx: u64) -> Reply
    ensures { Called channel.old.value (Readers (sender tx)) result channel.new.value }
{
    call(alloc, channel, WCall::Readers(TxId(tx)))
}
