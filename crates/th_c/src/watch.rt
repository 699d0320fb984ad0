//! A watch channel's replies, as C sees them, and its calls through a handle.
ghost use Rattle.std.specs.Prelude.{◌≡◌, if◌then◌else◌};
ghost use Rattle.th_c.specs.Watch.{Answered, AnsweredOther, AnswersSame, Called, RecordsSame, number_of, puts_at, status_of, without_value};
ghost use Rattle.th_c.specs.declared.status.TheConstants.{NO, YES};

use crate::content::{BytesWatch, Content};
use crate::handle::Handle;
use crate::outcome::{Refusal, Told, reply};
use crate::payload::Payload;
use crate::raw::{put, take};
use crate::reply::Reply;
use crate::status;
use crate::tells::{Tells, answered, recorded};
use std::alloc::Global;
use th_model::{Edit, Short, Value, WCall, WReply};
use th_registry::recorded::Recorded;
use th_watch::Watch;

// The status that answers a question.
#[inline(always)]
fn yes_or_no(answer: bool) -> u32
    ensures { result ≡ if answer then YES else NO }
{
    if answer { status::YES } else { status::NO }
}

// The status of a reply, and the number that it speaks of.
#[inline(always)]
fn status_and_number<T: Payload>(reply: &WReply<T>) -> (u32, u64)
    ensures { result ≡ (status_of reply.now, number_of T.number reply.now) }
{
    match reply {
        WReply::Done => (status::DONE, 0),
        WReply::NoReceivers(value) => (status::NO_RECEIVERS, value.number()),
        WReply::Exhausted(value) => (status::EXHAUSTED, value.number()),
        WReply::Was(value) => (status::WAS, value.number()),
        WReply::Modified(published) => (yes_or_no(*published), 0),
        WReply::Shown(value, true) => (status::NEW, value.number()),
        WReply::Shown(value, false) => (status::SAME, value.number()),
        WReply::Changed(unseen) => (yes_or_no(*unseen), 0),
        WReply::Marked => (status::MARKED, 0),
        WReply::NotYet => (status::NOT_YET, 0),
        WReply::Closed => (status::CLOSED, 0),
        WReply::Gone(none_left) => (yes_or_no(*none_left), 0),
        WReply::NewRx(rx) => (status::NEW_RX, rx.0),
        WReply::NewTx(tx) => (status::NEW_TX, tx.0),
        WReply::Count(n) => (status::COUNT, *n),
        WReply::TooMany => (status::TOO_MANY, 0),
        WReply::NoHandle(Some(value)) => (status::NO_HANDLE, value.number()),
        WReply::NoHandle(None) => (status::NO_HANDLE, 0),
    }
}

// The status with which a call puts its value in the place of the newest one.
#[inline(always)]
fn puts_at<T: Payload>(call: &WCall<T>) -> u32
    ensures { result ≡ puts_at call.now }
{
    match call {
        WCall::Send(_, _) => status::DONE,
        WCall::Replace(_, _) => status::WAS,
        WCall::EditBy(_, Edit::Set(_) | Edit::Differ(_)) => status::YES,
        WCall::EditBy(_, Edit::Quiet(_)) => status::NO,
        _ => status::NEVER,
    }
}

impl<T: Payload> Tells for Watch<T> {
    ghost use Rattle.th_c.specs.Watch.{puts_at, takes_none, tells};

    // The status with which the call puts its value in the place of the newest one.
    type Note = u32;

    ghost tells = { tells T.eq T.number };

    ghost noted = { λ p call. puts_at call };

    ghost takes_none_now = { takes_none };

    #[inline(always)]
    fn make(&mut self, call: WCall<T>) -> Result<WReply<T>, Short<WCall<T>>> {
        self.apply(call)
    }

    #[inline(always)]
    fn note(&self, call: &WCall<T>) -> u32 {
        puts_at(call)
    }

    #[inline(always)]
    fn told(&self, note: u32, reply: &WReply<T>) -> Reply {
        let (status, number) = status_and_number(reply);
        let let_go = if status == note { 1 } else { 0 };
        Reply {
            status,
            let_go,
            number,
        }
    }
}

// The same call of a channel of bytes, where no value goes in or comes out.
#[inline(always)]
fn without_value(call: WCall<u64>) -> Option<WCall<Value>>
    ensures { result ≡ without_value call }
{
    match call {
        WCall::HasChanged(rx) => Some(WCall::HasChanged(rx)),
        WCall::TryChanged(rx) => Some(WCall::TryChanged(rx)),
        WCall::Changed(rx) => Some(WCall::Changed(rx)),
        WCall::MarkChanged(rx) => Some(WCall::MarkChanged(rx)),
        WCall::MarkUnchanged(rx) => Some(WCall::MarkUnchanged(rx)),
        WCall::Subscribe(tx) => Some(WCall::Subscribe(tx)),
        WCall::CloneRx(rx) => Some(WCall::CloneRx(rx)),
        WCall::CloneTx(tx) => Some(WCall::CloneTx(tx)),
        WCall::DropTx(tx) => Some(WCall::DropTx(tx)),
        WCall::DropRx(rx) => Some(WCall::DropRx(rx)),
        WCall::IsClosed(tx) => Some(WCall::IsClosed(tx)),
        WCall::Readers(tx) => Some(WCall::Readers(tx)),
        _ => None,
    }
}

// Makes a call of a channel of bytes, where no value goes in or comes out.
fn answered_same(channel: &mut BytesWatch, call: Option<WCall<Value>>) -> Told
    ensures { AnswersSame call channel.old result channel.new }
{
    match call {
        Some(call) => answered(channel, call),
        None => Err(Refusal::OtherValues),
    }
}

// The same of one that keeps its history.
fn recorded_same(channel: &mut Recorded<BytesWatch>, call: Option<WCall<Value>>) -> Told
    ensures { RecordsSame call channel.old result channel.new }
{
    match call {
        Some(call) => recorded(channel, call),
        None => Err(Refusal::OtherValues),
    }
}

// Makes a call of what is behind a handle and no channel of numbers. It stands apart, so that those
// are told by two comparisons.
#[inline(never)]
fn called_other(content: &mut Content, call: Option<WCall<Value>>) -> Told
    ensures { AnsweredOther content.old call result content.new }
{
    match content {
        Content::WatchOfBytes(channel) => answered_same(channel, call),
        Content::RecordedWatchOfBytes(channel) => recorded_same(channel, call),
        _ => Err(Refusal::NotOpen),
    }
}

// Makes a call of what is behind a handle.
#[inline(always)]
fn called(content: &mut Content, call: WCall<u64>) -> Told
    ensures { Answered content.old call result content.new }
{
    match content {
        Content::Watch(channel) => answered(channel, call),
        Content::RecordedWatch(channel) => recorded(channel, call),
        _ => called_other(content, without_value(call)),
    }
}

/// Makes a call through a handle.
#[inline(always)]
pub(crate) fn call(alloc: Global, handle: &mut Handle, call: WCall<u64>) -> Reply
    ensures { Called handle.old.value call result handle.new.value }
{
    let Some(mut content) = take(alloc, handle) else {
        return reply(Err(Refusal::NotOpen));
    };
    let told = called(&mut *content, call);
    put(handle, content);
    reply(told)
}
