//! The events of a topic's handles that sessions hold: by the kind of its channel, each is what the kind's own handle does, with
//! the receipt as one of the topic.
ghost use Rattle.std.specs.Prelude.{◌≡◌, None, Ok, IfErr, IfOk, IfSome, OnOk};
ghost use Rattle.th_log.specs.Outcome.{counted};
ghost use Rattle.th_registry.specs.Events.{Asks, DropsRx, DropsTx, Ended, Own, Receives as Received, Replied, Resubscribes, Sends as Sent, Subscribes};
ghost use Rattle.th_registry.specs.Hub.{On};
ghost use Rattle.th_registry.specs.Typed.{made_rx, replied};
ghost use Rattle.th_shared.specs.Doing.{Does, IsFullAsSeen, IsNewReceiver, ReceiverMoves, noted_of};
ghost use Rattle.th_shared.specs.Kept.{Stays};
ghost use Rattle.th_shared.specs.Numbers.{known_of, number_of, rolls_of, receiver, sender};
ghost use Rattle.th_shared.specs.Saying.{IsEvent, MaySay, first};

use crate::handles::{LiveReceiver, TopicOwner, TopicReceiver, TopicSender};
use crate::said::{broadcast_receiver, broadcast_receivers, watch_receivers};
use crate::shares::Shares;
use crate::{event, new_handle};
use std::sync::Wait;
use th_block::Handle;
use th_log::Receipt;
use th_model::{Question, ReceiverVerb, SenderVerb, Short, Start, Value};
use th_registry::channel::{HubBroadcast, HubWatch, TopicReceipt};
use th_registry::{Channel, Made, NoEvent, TopicId, Unspent};
use th_seats::Share;

/// A receipt of a broadcast topic.
#[inline(always)]
pub(crate) fn broadcast_told(
    said: Result<Receipt<HubBroadcast>, NoEvent>,
) -> Result<TopicReceipt, NoEvent>
    ensures { replied result
        ≡ noted_of (λ reply. Replied (Channel.Broadcast reply)) (λ r. Channel.Broadcast r) said }
{
    match said {
        Ok(receipt) => Ok(Channel::Broadcast(receipt)),
        Err(why) => Err(why),
    }
}

/// A receipt of a watch topic.
#[inline(always)]
pub(crate) fn watch_told(said: Result<Receipt<HubWatch>, NoEvent>) -> Result<TopicReceipt, NoEvent>
    ensures { replied result
        ≡ noted_of (λ reply. Replied (Channel.Watch reply)) (λ r. Channel.Watch r) said }
{
    match said {
        Ok(receipt) => Ok(Channel::Watch(receipt)),
        Err(why) => Err(why),
    }
}

/// What a sender does.
#[inline(always)]
pub(crate) fn send<R: Wait>(
    rt: &R,
    topic: TopicId,
    handle: &mut TopicSender,
    verb: SenderVerb<Value>,
) -> Result<TopicReceipt, NoEvent>
    ensures { Does topic.0 (Sent (sender handle.old) verb) handle.old handle.new (replied result) }
{
    match handle {
        Channel::Broadcast(handle) => broadcast_told(event::send(rt, topic, handle, verb)),
        Channel::Watch(handle) => watch_told(event::send(rt, topic, handle, verb)),
    }
}

/// A question through a sender.
pub(crate) fn ask<R: Wait>(
    rt: &R,
    topic: TopicId,
    handle: &mut TopicSender,
    question: Question,
) -> Result<TopicReceipt, NoEvent>
    ensures { let event = Asks (Own (sender handle.old)) question in
        Does topic.0 event handle.old handle.new (replied result) }
{
    match handle {
        Channel::Broadcast(handle) => broadcast_told(event::ask(rt, topic, handle, question)),
        Channel::Watch(handle) => watch_told(event::ask(rt, topic, handle, question)),
    }
}

/// What a receiver does.
#[inline(always)]
pub(crate) fn receive<R: Wait>(
    rt: &R,
    topic: TopicId,
    handle: &mut LiveReceiver,
    verb: ReceiverVerb,
) -> Result<TopicReceipt, NoEvent>
    ensures { let event = Received (record { 0 = number_of handle.old }) verb in
        Does topic.0 event handle.old handle.new (replied result) }
{
    match handle {
        Channel::Broadcast(handle) => broadcast_told(event::receive(rt, topic, handle, verb)),
        Channel::Watch(handle) => watch_told(event::receive(rt, topic, handle, verb)),
    }
}

/// A new receiver that begins so, by this sender.
pub(crate) fn subscribe<R: Wait>(
    rt: &R,
    topic: TopicId,
    start: Start,
    handle: &mut TopicSender,
    shares: &mut Shares,
) -> Result<Made<TopicReceiver>, NoEvent>
    ensures does { let event = Subscribes start (Own (sender handle.old)) in
        Does topic.0 event handle.old handle.new (made_rx receiver result) }
    ensures shares { Stays shares.old shares.new }
    ensures new { IfOk result (λ made. IfSome made.handle
        (IsNewReceiver topic.0 (rolls_of handle.old) made.receipt)) }
{
    match handle {
        Channel::Broadcast(handle) => {
            broadcast_receivers(new_handle::subscribe(rt, topic, handle, start, shares))
        }
        Channel::Watch(handle) => {
            watch_receivers(new_handle::subscribe(rt, topic, handle, start, shares))
        }
    }
}

/// A new receiver in the place of this one, and the share of this one, where it was spent for it; with what is left of
/// it.
pub(crate) fn resubscribe<R: Wait>(
    rt: &R,
    topic: TopicId,
    old: LiveReceiver,
    shares: &mut Shares,
) -> (
    TopicReceiver,
    Result<(Made<TopicReceiver>, Option<Share>), NoEvent>,
)
    ensures event { MaySay (On topic.0 (Resubscribes (record { 0 = number_of old })))
        (made_rx receiver (first result.1)) }
    ensures number { receiver result.0 ≡ record { 0 = number_of old } }
    ensures moves { ReceiverMoves old result.0 result.1 (made_rx receiver (first result.1)).1 }
    ensures new { IfOk result.1 (λ made. IfSome made.0.handle
        (IsNewReceiver topic.0 (rolls_of old) made.0.receipt)) }
    ensures full { IfErr result.1 (IsFullAsSeen (rolls_of old) (known_of old)) }
    ensures shares { Stays shares.old shares.new }
{
    let old = match old {
        Channel::Broadcast(old) => old,
        Channel::Watch(old) => {
            return (
                TopicReceiver::Live(Channel::Watch(old)),
                Err(NoEvent::WrongKind),
            );
        }
    };
    let number = old.number();
    let (left, said) = new_handle::resubscribe(rt, topic, old, shares);
    let left = match left {
        Some(left) => TopicReceiver::Live(Channel::Broadcast(left)),
        None => TopicReceiver::Spent(number),
    };
    match said {
        Ok((new, share)) => (left, Ok((broadcast_receiver(new), share))),
        Err(why) => (left, Err(why)),
    }
}

/// The end of a sender: its share. The receipt is given up.
pub(crate) fn end_sender<R: Wait>(
    rt: &R,
    topic: TopicId,
    handle: TopicSender,
) -> Result<Share, Unspent<TopicSender>>
    ensures event { OnOk result
        (MaySay (On topic.0 (DropsTx (Own (sender handle)))) (Ok Ended, None)) }
    ensures share { IfOk result (λ share. share ≡ counted (known_of handle).share) }
    ensures back { IfErr result (λ unspent.
        (unspent.handle ≡ handle) × (unspent.why ≡ NoEvent.NotLive)) }
{
    match handle {
        Channel::Broadcast(handle) => match event::end(rt, topic, handle) {
            Ok(share) => Ok(share),
            Err(handle) => Err(Unspent {
                handle: Channel::Broadcast(handle),
                why: NoEvent::NotLive,
            }),
        },
        Channel::Watch(handle) => match event::end(rt, topic, handle) {
            Ok(share) => Ok(share),
            Err(handle) => Err(Unspent {
                handle: Channel::Watch(handle),
                why: NoEvent::NotLive,
            }),
        },
    }
}

/// The end of a receiver: its share. The receipt is given up.
pub(crate) fn end_receiver<R: Wait>(
    rt: &R,
    topic: TopicId,
    handle: LiveReceiver,
) -> Result<Share, Unspent<TopicReceiver>>
    ensures event { OnOk result
        (MaySay (On topic.0 (DropsRx (record { 0 = number_of handle }))) (Ok Ended, None)) }
    ensures share { IfOk result (λ share. share ≡ counted (known_of handle).share) }
    ensures back { IfErr result (λ unspent.
        (unspent.handle ≡ TopicReceiver.Live handle) × (unspent.why ≡ NoEvent.NotLive)) }
{
    match handle {
        Channel::Broadcast(handle) => match event::end(rt, topic, handle) {
            Ok(share) => Ok(share),
            Err(handle) => Err(Unspent {
                handle: TopicReceiver::Live(Channel::Broadcast(handle)),
                why: NoEvent::NotLive,
            }),
        },
        Channel::Watch(handle) => match event::end(rt, topic, handle) {
            Ok(share) => Ok(share),
            Err(handle) => Err(Unspent {
                handle: TopicReceiver::Live(Channel::Watch(handle)),
                why: NoEvent::NotLive,
            }),
        },
    }
}

/// An owner of a handle's channel.
pub(crate) fn owner_of<S>(
    handle: &Channel<Handle<HubBroadcast, S>, Handle<HubWatch, S>>,
) -> Result<TopicOwner, Short<()>> {
    Ok(match handle {
        Channel::Broadcast(handle) => Channel::Broadcast(handle.shared()?),
        Channel::Watch(handle) => Channel::Watch(handle.shared()?),
    })
}
