//! A broadcast channel's replies, as C sees them, and its calls through a handle.
ghost use Rattle.std.specs.Prelude.{◌≡◌};
ghost use Rattle.th_c.specs.Broadcast.{Answered, AnsweredOther, AnswersSame, Called, RecordsSame, number_of, status_of, without_value};

use crate::content::{BytesBroadcast, Content, RingBroadcast};
use crate::handle::Handle;
use crate::let_go::{Note, let_go, noted};
use crate::outcome::{Refusal, Told, reply};
use crate::payload::Payload;
use crate::raw::{put, take};
use crate::reply::Reply;
use crate::status;
use crate::tells::{Tells, answered, recorded};
use std::alloc::Global;
use th_model::{BCall, BReply, Short, Value};
use th_registry::recorded::Recorded;

// The status of a reply, and the number that it speaks of.
#[inline(always)]
fn status_and_number<T: Payload>(reply: &BReply<T>) -> (u32, u64)
    ensures { result ≡ (status_of reply.now, number_of T.number reply.now) }
{
    match reply {
        BReply::Sent(n) => (status::SENT, *n),
        BReply::NoReceivers(value) => (status::NO_RECEIVERS, value.number()),
        BReply::Exhausted(value) => (status::EXHAUSTED, value.number()),
        BReply::Value(value) => (status::VALUE, value.number()),
        BReply::Empty => (status::EMPTY, 0),
        BReply::Closed => (status::CLOSED, 0),
        BReply::Lagged(n) => (status::LAGGED, *n),
        BReply::NewRx(rx) => (status::NEW_RX, rx.0),
        BReply::NewTx(tx) => (status::NEW_TX, tx.0),
        BReply::Count(n) => (status::COUNT, *n),
        BReply::Done => (status::DONE, 0),
        BReply::TooMany => (status::TOO_MANY, 0),
        BReply::NoHandle(Some(value)) => (status::NO_HANDLE, value.number()),
        BReply::NoHandle(None) => (status::NO_HANDLE, 0),
    }
}

impl<T: Payload> Tells for RingBroadcast<T> {
    ghost use Rattle.th_model.specs.BroadcastPicture.{TakesNoneIfSure};
    ghost use Rattle.th_c.specs.Broadcast.{tells};
    ghost use Rattle.th_c.specs.LetGo.{noted};

    type Note = Note;

    ghost tells = { tells T.number };

    ghost noted = { noted };

    ghost takes_none_now = { TakesNoneIfSure };

    #[inline(always)]
    fn make(&mut self, call: BCall<T>) -> Result<BReply<T>, Short<BCall<T>>> {
        self.apply(call)
    }

    #[inline(always)]
    fn note(&self, call: &BCall<T>) -> Note {
        noted(self, call)
    }

    #[inline(always)]
    fn told(&self, note: Note, reply: &BReply<T>) -> Reply {
        let (status, number) = status_and_number(reply);
        Reply {
            status,
            let_go: let_go(self, note, reply),
            number,
        }
    }
}

// The same call of a channel of bytes, where no value goes in or comes out.
#[inline(always)]
fn without_value(call: BCall<u64>) -> Option<BCall<Value>>
    ensures { result ≡ without_value call }
{
    match call {
        BCall::Subscribe(tx) => Some(BCall::Subscribe(tx)),
        BCall::SubscribeOldest(tx) => Some(BCall::SubscribeOldest(tx)),
        BCall::Resubscribe(rx) => Some(BCall::Resubscribe(rx)),
        BCall::CloneTx(tx) => Some(BCall::CloneTx(tx)),
        BCall::DropTx(tx) => Some(BCall::DropTx(tx)),
        BCall::DropRx(rx) => Some(BCall::DropRx(rx)),
        BCall::Queued(tx) => Some(BCall::Queued(tx)),
        BCall::Left(rx) => Some(BCall::Left(rx)),
        BCall::Readers(tx) => Some(BCall::Readers(tx)),
        _ => None,
    }
}

// Makes a call of a channel of bytes, where no value goes in or comes out.
fn answered_same(channel: &mut BytesBroadcast, call: Option<BCall<Value>>) -> Told
    ensures { AnswersSame call channel.old result channel.new }
{
    match call {
        Some(call) => answered(channel, call),
        None => Err(Refusal::OtherValues),
    }
}

// The same of one that keeps its history.
fn recorded_same(channel: &mut Recorded<BytesBroadcast>, call: Option<BCall<Value>>) -> Told
    ensures { RecordsSame call channel.old result channel.new }
{
    match call {
        Some(call) => recorded(channel, call),
        None => Err(Refusal::OtherValues),
    }
}

// Makes a call of what is behind a handle and no channel of numbers. It stands apart, so that those
// are told by two comparisons.
#[inline(never)]
fn called_other(content: &mut Content, call: Option<BCall<Value>>) -> Told
    ensures { AnsweredOther content.old call result content.new }
{
    match content {
        Content::BroadcastOfBytes(channel) => answered_same(channel, call),
        Content::RecordedBroadcastOfBytes(channel) => recorded_same(channel, call),
        _ => Err(Refusal::NotOpen),
    }
}

// Makes a call of what is behind a handle.
#[inline(always)]
fn called(content: &mut Content, call: BCall<u64>) -> Told
    ensures { Answered content.old call result content.new }
{
    match content {
        Content::Broadcast(channel) => answered(channel, call),
        Content::RecordedBroadcast(channel) => recorded(channel, call),
        _ => called_other(content, without_value(call)),
    }
}

/// Makes a call through a handle.
#[inline(always)]
pub(crate) fn call(alloc: Global, handle: &mut Handle, call: BCall<u64>) -> Reply
    ensures { Called handle.old.value call result handle.new.value }
{
    let Some(mut content) = take(alloc, handle) else {
        return reply(Err(Refusal::NotOpen));
    };
    let told = called(&mut *content, call);
    put(handle, content);
    reply(told)
}
