//! How many values a broadcast channel lets go of by a call.
//!
//! For a send, and for a receive where there are several receivers, one position is looked at. Only
//! where a receiver leaves is the least kept position found, before the call and after it.
ghost use Rattle.std.specs.Prelude.{◌≡◌, ◌==◌, length};
ghost use Rattle.th_c.specs.LetGo.{gone, gone_at, noted, noted_receive};

use crate::content::RingBroadcast;
use crate::payload::Payload;
use th_model::{BCall, BReply, RxId};

/// What has to be known of a broadcast channel before a call, to say afterwards how many values it
/// let go of.
#[derive(Clone, Copy, Drop)]
pub enum Note {
    /// Nothing: the call lets go of none.
    Nothing,
    /// Whether the window is full, so that a value that is sent takes the place of the oldest one.
    Full(bool),
    /// The receiver is the only one, so that what it reads is let go.
    Alone,
    /// The receiver's place, whose value it may be the last to read.
    Place(Option<u64>),
    /// How many values are kept.
    Kept(u32),
}

// How many values the channel keeps.
fn kept<T: Payload>(channel: &RingBroadcast<T>) -> u32
    ensures { result ≡ length channel.now.window.kept }
{
    let _sound = channel.next_number();
    (channel.tail() - channel.low()) as u32
}

// One where no value is kept at a position.
#[inline(always)]
fn gone_at<T: Payload>(channel: &RingBroadcast<T>, position: u64) -> u32
    ensures { result ≡ gone_at channel.now.window position }
{
    match channel.value(position) {
        Some(_) => 0,
        None => 1,
    }
}

// Whether as many values are kept as can be. Then the first of the window is.
#[inline(always)]
fn is_full<T: Payload>(channel: &RingBroadcast<T>) -> bool
    ensures { result ≡ (length channel.now.window.kept == channel.now.window.capacity) }
{
    let _sound = channel.next_number();
    let capacity = channel.capacity();
    let tail = channel.tail();
    if tail < capacity {
        return false;
    }
    gone_at(channel, tail - capacity) == 0
}

// What has to be known before a receive. Where there is but one receiver, its place is not looked for.
#[inline(always)]
fn noted_receive<T: Payload>(channel: &RingBroadcast<T>, rx: RxId) -> Note
    ensures { result ≡ noted_receive channel.now rx.0 }
{
    if channel.receiver_count() == 1 {
        Note::Alone
    } else {
        Note::Place(channel.place(rx))
    }
}

/// What has to be known before a call.
#[inline(always)]
pub(crate) fn noted<T: Payload>(channel: &RingBroadcast<T>, call: &BCall<T>) -> Note
    ensures { result ≡ noted channel.now call.now }
{
    match call {
        BCall::Send(_, _) => Note::Full(is_full(channel)),
        BCall::TryRecv(rx) => noted_receive(channel, *rx),
        BCall::Recv(rx) => noted_receive(channel, *rx),
        BCall::DropRx(_) => Note::Kept(kept(channel)),
        _ => Note::Nothing,
    }
}

/// How many values were let go of by a call with this note, which was answered so, in a channel as
/// it is after it.
#[inline(always)]
pub(crate) fn let_go<T: Payload>(channel: &RingBroadcast<T>, note: Note, reply: &BReply<T>) -> u32
    ensures { result ≡ gone note reply.now channel.now }
{
    match (note, reply) {
        (Note::Full(full), BReply::Sent(_)) => { if full { 1 } else { 0 } }
        (Note::Alone, BReply::Value(_)) => 1,
        (Note::Place(Some(place)), BReply::Value(_)) => gone_at(channel, place),
        (Note::Kept(count), _) => count.saturating_sub(kept(channel)),
        _ => 0,
    }
}
