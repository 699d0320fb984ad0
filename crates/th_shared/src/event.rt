//! The events of handles of any kind of channel, each on the topic that is named.
ghost use Rattle.std.specs.Prelude.{◌≡◌, ◌+◌, Bool, IfErr, IfOk, IsTrue, OnOk, Some};
ghost use Rattle.th_log.specs.CallLaws.{IsBy};
ghost use Rattle.th_log.specs.Outcome.{counted};
ghost use Rattle.th_block.specs.Handles.{IsFullAsSeen as is_refused_full, Known, rx, tx};
ghost use Rattle.th_shared.specs.Doing.{Enters, HasEnded, IsFullAsSeen};
ghost use Rattle.th_shared.specs.Reasons.{reason};
ghost use Rattle.th_shared.specs.Saying.{IsOf};

use std::sync::Wait;
use th_block::{Handle, Receives, Sends, Side};
use th_log::{Kind, Receipt, Refused};
use th_model::{Question, ReceiverVerb, RxId, SenderVerb, TxId};
use th_registry::{NoEvent, TopicId};
use th_seats::Share;

/// Why a call was no event.
pub(crate) fn why<C: Drop>(refused: Refused<C>) -> NoEvent
    ensures why { result ≡ reason refused }
    ensures full { (rolls : Bool) (known : Known) → is_refused_full rolls known refused
        → IsFullAsSeen rolls known result }
{
    match refused {
        Refused::Foreign(_) => NoEvent::NotLive,
        Refused::Short(_) => NoEvent::Short,
        Refused::LogFull(_) => NoEvent::LogFull,
    }
}

/// Whether the handle is on this topic: a channel's key is its topic's number, counted from 1.
pub(crate) fn is_on<O: Kind, S: Side<O>>(handle: &Handle<O, S>, topic: TopicId) -> bool
    ensures on { IsTrue result → handle.now.known.share.key ≡ topic.0 + 1 }
    ensures off { handle.now.known.share.key ≡ topic.0 + 1 → IsTrue result }
{
    topic.0.checked_add(1) == Some(handle.key())
}

/// One event of a handle that neither makes nor spends one, if the kind has the call. Nobody is woken by it. It waits until
/// the call is ready.
#[inline(always)]
pub(crate) fn event<O: Kind, S: Side<O>, R: Wait>(
    rt: &R,
    topic: TopicId,
    handle: &mut Handle<O, S>,
    call: Option<O::Call>,
) -> Result<Receipt<O>, NoEvent>
    requires lawful { O.lawful }
    requires own { IsBy S.caller handle.old.number call }
    ensures number { handle.new.number ≡ handle.old.number }
    ensures enters { Enters topic.0 call handle.old handle.new result }
{
    let Some(call) = call else {
        return Err(NoEvent::WrongKind);
    };
    if !is_on(handle, topic) {
        return Err(NoEvent::NotLive);
    }
    match handle.call_quietly(rt, call) {
        Ok(receipt) => Ok(receipt),
        Err(refused) => Err(why(refused)),
    }
}

/// What a sender does.
#[inline(always)]
pub(crate) fn send<O: Kind, R: Wait>(
    rt: &R,
    topic: TopicId,
    sender: &mut Handle<O, Sends>,
    verb: SenderVerb<O::Value>,
) -> Result<Receipt<O>, NoEvent>
    requires { O.lawful }
    ensures number { sender.new.number ≡ sender.old.number }
    ensures enters { Enters topic.0 (O.by_sender verb (tx sender.old))
        sender.old sender.new result }
{
    let call = O::by_sender(verb, TxId(sender.number()));
    event(rt, topic, sender, call)
}

/// A question through a sender.
pub(crate) fn ask<O: Kind, R: Wait>(
    rt: &R,
    topic: TopicId,
    sender: &mut Handle<O, Sends>,
    question: Question,
) -> Result<Receipt<O>, NoEvent>
    requires { O.lawful }
    ensures number { sender.new.number ≡ sender.old.number }
    ensures enters { Enters topic.0 (O.asked question (tx sender.old))
        sender.old sender.new result }
{
    let call = O::asked(question, TxId(sender.number()));
    event(rt, topic, sender, call)
}

/// What a receiver does.
#[inline(always)]
pub(crate) fn receive<O: Kind, R: Wait>(
    rt: &R,
    topic: TopicId,
    receiver: &mut Handle<O, Receives>,
    verb: ReceiverVerb,
) -> Result<Receipt<O>, NoEvent>
    requires { O.lawful }
    ensures number { receiver.new.number ≡ receiver.old.number }
    ensures enters { Enters topic.0 (O.by_receiver verb (rx receiver.old))
        receiver.old receiver.new result }
{
    let call = O::by_receiver(verb, RxId(receiver.number()));
    event(rt, topic, receiver, call)
}

// The last event of a handle. Where there was none the handle comes back: it is not live on the topic.
fn spend<O: Kind, S: Side<O>, R: Wait>(
    rt: &R,
    topic: TopicId,
    handle: Handle<O, S>,
) -> Result<(Share, Receipt<O>), (Handle<O, S>, NoEvent)>
    requires { O.lawful }
    ensures receipt { IfOk result (λ r. IsOf topic.0 (Some (S.last handle.number)) r.1) }
    ensures done { IfOk result (λ r. r.1.reply ≡ O.done) }
    ensures share { IfOk result (λ r. r.0 ≡ counted handle.known.share) }
    ensures back { IfErr result (λ e. (e.0 ≡ handle) × (e.1 ≡ NoEvent.NotLive)) }
{
    if !is_on(&handle, topic) {
        return Err((handle, NoEvent::NotLive));
    }
    match handle.spend_told(rt) {
        Ok(spent) => Ok(spent),
        Err((handle, refused)) => Err((handle, why(refused))),
    }
}

// A receipt that is not handed out.
fn let_go<O: Kind>(_receipt: Receipt<O>) {}

/// The last event of a handle, whose receipt is given up. Where there was none the handle comes back: it is not live on the
/// topic.
pub(crate) fn end<O: Kind, S: Side<O>, R: Wait>(
    rt: &R,
    topic: TopicId,
    handle: Handle<O, S>,
) -> Result<Share, Handle<O, S>>
    requires { O.lawful }
    ensures event { OnOk result (HasEnded topic.0 (S.last handle.number) O.done) }
    ensures share { IfOk result (λ share. share ≡ counted handle.known.share) }
    ensures back { IfErr result (λ back. back ≡ handle) }
{
    match spend(rt, topic, handle) {
        Ok((share, receipt)) => {
            let_go(receipt);
            Ok(share)
        }
        Err((handle, _)) => Err(handle),
    }
}
