//! Calls and replies of channels, as a trace tells of them: each value is as it is spelled.
ghost use Rattle.std.specs.Prelude.{◌≡◌, IfOk};
ghost use Rattle.th_c.specs.SpelledValues.{back, broadcast_call, broadcast_reply, edit, watch_call, watch_reply};

use crate::payload::Payload;
use std::alloc::Global;
use th_model::{BCall, BReply, Edit, Short, Value, WCall, WReply};

// A value that may be there.
fn back<T: Payload>(alloc: Global, value: &Option<T>) -> Result<Option<Value>, Short<()>>
    ensures { IfOk result (λ v. v ≡ back T.spelled value.now) }
{
    match value {
        Some(value) => Ok(Some(value.spelled(alloc)?)),
        None => Ok(None),
    }
}

/// A call of a broadcast channel.
pub(crate) fn broadcast_call<T: Payload>(
    alloc: Global,
    call: &BCall<T>,
) -> Result<BCall<Value>, Short<()>>
    ensures { IfOk result (λ c. c ≡ broadcast_call T.spelled call.now) }
{
    match call {
        BCall::Send(tx, value) => Ok(BCall::Send(*tx, value.spelled(alloc)?)),
        BCall::TryRecv(rx) => Ok(BCall::TryRecv(*rx)),
        BCall::Recv(rx) => Ok(BCall::Recv(*rx)),
        BCall::Subscribe(tx) => Ok(BCall::Subscribe(*tx)),
        BCall::SubscribeOldest(tx) => Ok(BCall::SubscribeOldest(*tx)),
        BCall::Resubscribe(rx) => Ok(BCall::Resubscribe(*rx)),
        BCall::CloneTx(tx) => Ok(BCall::CloneTx(*tx)),
        BCall::DropTx(tx) => Ok(BCall::DropTx(*tx)),
        BCall::DropRx(rx) => Ok(BCall::DropRx(*rx)),
        BCall::Queued(tx) => Ok(BCall::Queued(*tx)),
        BCall::Left(rx) => Ok(BCall::Left(*rx)),
        BCall::Readers(tx) => Ok(BCall::Readers(*tx)),
    }
}

/// A reply of a broadcast channel.
pub(crate) fn broadcast_reply<T: Payload>(
    alloc: Global,
    reply: &BReply<T>,
) -> Result<BReply<Value>, Short<()>>
    ensures { IfOk result (λ r. r ≡ broadcast_reply T.spelled reply.now) }
{
    match reply {
        BReply::Sent(n) => Ok(BReply::Sent(*n)),
        BReply::NoReceivers(value) => Ok(BReply::NoReceivers(value.spelled(alloc)?)),
        BReply::Exhausted(value) => Ok(BReply::Exhausted(value.spelled(alloc)?)),
        BReply::Value(value) => Ok(BReply::Value(value.spelled(alloc)?)),
        BReply::Empty => Ok(BReply::Empty),
        BReply::Closed => Ok(BReply::Closed),
        BReply::Lagged(n) => Ok(BReply::Lagged(*n)),
        BReply::NewRx(rx) => Ok(BReply::NewRx(*rx)),
        BReply::NewTx(tx) => Ok(BReply::NewTx(*tx)),
        BReply::Count(n) => Ok(BReply::Count(*n)),
        BReply::Done => Ok(BReply::Done),
        BReply::TooMany => Ok(BReply::TooMany),
        BReply::NoHandle(value) => Ok(BReply::NoHandle(back(alloc, value)?)),
    }
}

// An edit of a watch channel.
fn edit<T: Payload>(alloc: Global, change: &Edit<T>) -> Result<Edit<Value>, Short<()>>
    ensures { IfOk result (λ e. e ≡ edit T.spelled change.now) }
{
    match change {
        Edit::Set(value) => Ok(Edit::Set(value.spelled(alloc)?)),
        Edit::Differ(value) => Ok(Edit::Differ(value.spelled(alloc)?)),
        Edit::Quiet(value) => Ok(Edit::Quiet(value.spelled(alloc)?)),
    }
}

/// A call of a watch channel.
pub(crate) fn watch_call<T: Payload>(
    alloc: Global,
    call: &WCall<T>,
) -> Result<WCall<Value>, Short<()>>
    ensures { IfOk result (λ c. c ≡ watch_call T.spelled call.now) }
{
    match call {
        WCall::Send(tx, value) => Ok(WCall::Send(*tx, value.spelled(alloc)?)),
        WCall::Replace(tx, value) => Ok(WCall::Replace(*tx, value.spelled(alloc)?)),
        WCall::EditBy(tx, change) => Ok(WCall::EditBy(*tx, edit(alloc, change)?)),
        WCall::Borrow(rx) => Ok(WCall::Borrow(*rx)),
        WCall::Take(rx) => Ok(WCall::Take(*rx)),
        WCall::HasChanged(rx) => Ok(WCall::HasChanged(*rx)),
        WCall::TryChanged(rx) => Ok(WCall::TryChanged(*rx)),
        WCall::Changed(rx) => Ok(WCall::Changed(*rx)),
        WCall::MarkChanged(rx) => Ok(WCall::MarkChanged(*rx)),
        WCall::MarkUnchanged(rx) => Ok(WCall::MarkUnchanged(*rx)),
        WCall::Subscribe(tx) => Ok(WCall::Subscribe(*tx)),
        WCall::CloneRx(rx) => Ok(WCall::CloneRx(*rx)),
        WCall::CloneTx(tx) => Ok(WCall::CloneTx(*tx)),
        WCall::DropTx(tx) => Ok(WCall::DropTx(*tx)),
        WCall::DropRx(rx) => Ok(WCall::DropRx(*rx)),
        WCall::IsClosed(tx) => Ok(WCall::IsClosed(*tx)),
        WCall::Readers(tx) => Ok(WCall::Readers(*tx)),
    }
}

/// A reply of a watch channel.
pub(crate) fn watch_reply<T: Payload>(
    alloc: Global,
    reply: &WReply<T>,
) -> Result<WReply<Value>, Short<()>>
    ensures { IfOk result (λ r. r ≡ watch_reply T.spelled reply.now) }
{
    match reply {
        WReply::Done => Ok(WReply::Done),
        WReply::NoReceivers(value) => Ok(WReply::NoReceivers(value.spelled(alloc)?)),
        WReply::Exhausted(value) => Ok(WReply::Exhausted(value.spelled(alloc)?)),
        WReply::Was(value) => Ok(WReply::Was(value.spelled(alloc)?)),
        WReply::Modified(published) => Ok(WReply::Modified(*published)),
        WReply::Shown(value, unseen) => Ok(WReply::Shown(value.spelled(alloc)?, *unseen)),
        WReply::Changed(unseen) => Ok(WReply::Changed(*unseen)),
        WReply::Marked => Ok(WReply::Marked),
        WReply::NotYet => Ok(WReply::NotYet),
        WReply::Closed => Ok(WReply::Closed),
        WReply::Gone(none_left) => Ok(WReply::Gone(*none_left)),
        WReply::NewRx(rx) => Ok(WReply::NewRx(*rx)),
        WReply::NewTx(tx) => Ok(WReply::NewTx(*tx)),
        WReply::Count(n) => Ok(WReply::Count(*n)),
        WReply::TooMany => Ok(WReply::TooMany),
        WReply::NoHandle(value) => Ok(WReply::NoHandle(back(alloc, value)?)),
    }
}
