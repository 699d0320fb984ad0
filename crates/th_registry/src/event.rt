//! The events of one channel.
ghost use Rattle.std.specs.Prelude.{◌≡◌, ◌<◌, true, false};
ghost use Rattle.th_log.specs.History.{live_after};
ghost use Rattle.th_registry.specs.Events.{Asks, Binds, DropsRx, DropsTx, Hub, Own, Receives, Resubscribes, Sends, Subscribes, any_sender, sender_of};
ghost use Rattle.th_registry.specs.History.{is_full, recorded};
ghost use Rattle.th_registry.specs.Keeping.{KindKeeps};
ghost use Rattle.th_registry.specs.Outcomes.{Allows, ChannelCuts, ChannelTells, KindEnds, KindMoves, KindSays};
ghost use Rattle.th_registry.specs.Typed.{ended, made_rx, made_tx, replied};

use crate::channel::{Channel, HubBroadcast, HubWatch, LocalChannel, TopicReceipt, TopicSegment};
use crate::outcome::{Made, NoEvent};
use crate::recorded::Recorded;
use th_log::{Kind, Receipt};
use th_model::{Question, ReceiverVerb, RxId, SenderVerb, Start, TxId, Value};

// The hub's own sender is the first handle of each topic.
const HUB_SENDER: TxId = TxId(1);

// The sender that is given, or else the hub's own.
fn sender_or_hub(sender: Option<TxId>) -> TxId
    ensures { result ≡ sender_of (any_sender sender) }
{
    sender.unwrap_or(HUB_SENDER)
}

// The call that is to be made, through the hub's own sender or not; or the first reason why it is not, but for those of the
// log.
#[inline(always)]
fn allowed<K: Kind>(
    channel: &Recorded<K>,
    by_hub: bool,
    call: Option<K::Call>,
) -> Result<K::Call, NoEvent>
    ensures { Allows K.machine K.has_sender K.has_receiver K.waits channel.now by_hub call result }
{
    let Some(call) = call else {
        return Err(NoEvent::WrongKind);
    };
    if by_hub && !channel.object().has_sender(HUB_SENDER) {
        return Err(NoEvent::NoSender);
    }
    if channel.object().waits(&call) {
        return Err(NoEvent::Blocked);
    }
    Ok(call)
}

// One call, through the hub's own sender or not; or the first reason why there is no event.
#[inline(always)]
fn event<K: Kind>(
    channel: &mut Recorded<K>,
    by_hub: bool,
    call: Option<K::Call>,
) -> Result<Receipt<K>, NoEvent>
    requires { K.lawful }
    ensures { KindSays K.machine K.has_sender K.has_receiver K.waits
        channel.old by_hub call result channel.new }
{
    let call = match allowed(channel, by_hub, call) {
        Ok(call) => call,
        Err(why) => return Err(why),
    };
    channel.record(call)
}

/// One call, not through the hub's own sender, for whoever keeps no receipt: the reply stands in the last entry of the
/// channel's log. Or the first reason why there is no event.
#[inline(always)]
pub fn keep<K: Kind>(channel: &mut Recorded<K>, call: Option<K::Call>) -> Result<(), NoEvent>
    requires { K.lawful }
    ensures { KindKeeps K.machine K.has_sender K.has_receiver K.waits
        channel.old call result channel.new }
{
    let call = match allowed(channel, false, call) {
        Ok(call) => call,
        Err(why) => return Err(why),
    };
    channel.keep(call)
}

// The end of a live handle by its last call. It takes no memory, and no room but what was kept for it.
fn spend<K: Kind>(channel: &mut Recorded<K>, last: K::Call)
    requires lawful { K.lawful }
    requires ready { K.machine.ready channel.old.state last ≡ true }
    requires spends { live_after K.machine channel.old.state last
        < K.machine.live channel.old.state }
    ensures after { channel.new
        ≡ (recorded channel.old last (K.machine.answer channel.old.state last)).1 }
    ensures room { is_full channel.old (live_after K.machine channel.old.state last) ≡ false }
{
    let Ok(_) = channel.record(last) else {
        unreachable!()
    };
}

// The end of a sender; or `lacks`, where it is not live.
fn spend_sender<K: Kind>(channel: &mut Recorded<K>, tx: TxId, lacks: NoEvent) -> Result<(), NoEvent>
    requires { K.lawful }
    ensures { KindEnds K.machine K.done (K.has_sender channel.old.state tx) (K.last_of_sender tx)
        lacks channel.old result channel.new }
{
    if !channel.object().has_sender(tx) {
        return Err(lacks);
    }
    spend(channel, K::last_of_sender(tx));
    Ok(())
}

// The end of a receiver, where it is live.
fn spend_receiver<K: Kind>(channel: &mut Recorded<K>, rx: RxId) -> Result<(), NoEvent>
    requires { K.lawful }
    ensures { KindEnds K.machine K.done (K.has_receiver channel.old.state rx)
        (K.last_of_receiver rx) NoEvent.NotLive channel.old result channel.new }
{
    if !channel.object().has_receiver(rx) {
        return Err(NoEvent::NotLive);
    }
    spend(channel, K::last_of_receiver(rx));
    Ok(())
}

// A new receiver, and then the end of the old one, for which room was kept.
fn move_receiver<K: Kind>(channel: &mut Recorded<K>, rx: RxId) -> Result<Receipt<K>, NoEvent>
    requires { K.lawful }
    ensures { KindMoves K.machine K.has_sender K.has_receiver K.waits K.made_rx
        (K.last_of_receiver rx) channel.old (K.resubscribing rx) result channel.new }
{
    let receipt = event(channel, false, K::resubscribing(rx))?;
    if K::made_rx(receipt.reply()).is_some() {
        spend(channel, K::last_of_receiver(rx));
    }
    Ok(receipt)
}

/// What a sender does.
#[inline(always)]
pub fn by_sender(
    channel: &mut LocalChannel,
    tx: TxId,
    verb: SenderVerb<Value>,
) -> Result<TopicReceipt, NoEvent>
    ensures { ChannelTells channel.old (Sends tx verb) (replied result) channel.new }
{
    match channel {
        Channel::Broadcast(channel) => {
            let receipt = event(channel, false, HubBroadcast::by_sender(verb, tx))?;
            Ok(Channel::Broadcast(receipt))
        }
        Channel::Watch(channel) => {
            let receipt = event(channel, false, HubWatch::by_sender(verb, tx))?;
            Ok(Channel::Watch(receipt))
        }
    }
}

/// What a receiver does.
#[inline(always)]
pub fn by_receiver(
    channel: &mut LocalChannel,
    rx: RxId,
    verb: ReceiverVerb,
) -> Result<TopicReceipt, NoEvent>
    ensures { ChannelTells channel.old (Receives rx verb) (replied result) channel.new }
{
    match channel {
        Channel::Broadcast(channel) => {
            let receipt = event(channel, false, HubBroadcast::by_receiver(verb, rx))?;
            Ok(Channel::Broadcast(receipt))
        }
        Channel::Watch(channel) => {
            let receipt = event(channel, false, HubWatch::by_receiver(verb, rx))?;
            Ok(Channel::Watch(receipt))
        }
    }
}

/// A question through this sender, or through the hub's own where there is none.
pub fn ask(
    channel: &mut LocalChannel,
    sender: Option<TxId>,
    question: Question,
) -> Result<TopicReceipt, NoEvent>
    ensures { let event = Asks (any_sender sender) question in
        ChannelTells channel.old event (replied result) channel.new }
{
    let tx = sender_or_hub(sender);
    let by_hub = sender.is_none();
    match channel {
        Channel::Broadcast(channel) => {
            let receipt = event(channel, by_hub, HubBroadcast::asked(question, tx))?;
            Ok(Channel::Broadcast(receipt))
        }
        Channel::Watch(channel) => {
            let receipt = event(channel, by_hub, HubWatch::asked(question, tx))?;
            Ok(Channel::Watch(receipt))
        }
    }
}

/// The end of a sender, where it is live.
pub fn drop_tx(channel: &mut LocalChannel, tx: TxId) -> Result<(), NoEvent>
    ensures { ChannelTells channel.old (DropsTx (Own tx)) (ended result) channel.new }
{
    match channel {
        Channel::Broadcast(channel) => spend_sender(channel, tx, NoEvent::NotLive),
        Channel::Watch(channel) => spend_sender(channel, tx, NoEvent::NotLive),
    }
}

/// The end of a receiver, where it is live.
pub fn drop_rx(channel: &mut LocalChannel, rx: RxId) -> Result<(), NoEvent>
    ensures { ChannelTells channel.old (DropsRx rx) (ended result) channel.new }
{
    match channel {
        Channel::Broadcast(channel) => spend_receiver(channel, rx),
        Channel::Watch(channel) => spend_receiver(channel, rx),
    }
}

/// The end of the hub's own sender, where it is live.
pub fn end(channel: &mut LocalChannel) -> Result<(), NoEvent>
    ensures { ChannelTells channel.old (DropsTx Hub) (ended result) channel.new }
{
    match channel {
        Channel::Broadcast(channel) => spend_sender(channel, HUB_SENDER, NoEvent::NoSender),
        Channel::Watch(channel) => spend_sender(channel, HUB_SENDER, NoEvent::NoSender),
    }
}

/// A new sender, by the hub's own.
pub fn bind(channel: &mut LocalChannel) -> Result<Made<TxId>, NoEvent>
    ensures { ChannelTells channel.old Binds (made_tx (λ t. t) result) channel.new }
{
    match channel {
        Channel::Broadcast(channel) => {
            let receipt = event(channel, true, Some(HubBroadcast::cloning(HUB_SENDER)))?;
            Ok(Made {
                handle: HubBroadcast::made_tx(receipt.reply()),
                receipt: Channel::Broadcast(receipt),
            })
        }
        Channel::Watch(channel) => {
            let receipt = event(channel, true, Some(HubWatch::cloning(HUB_SENDER)))?;
            Ok(Made {
                handle: HubWatch::made_tx(receipt.reply()),
                receipt: Channel::Watch(receipt),
            })
        }
    }
}

/// A new receiver that begins so, by this sender, or by the hub's own where there is none.
pub fn subscribe(
    channel: &mut LocalChannel,
    start: Start,
    sender: Option<TxId>,
) -> Result<Made<RxId>, NoEvent>
    ensures { let event = Subscribes start (any_sender sender) in
        ChannelTells channel.old event (made_rx (λ r. r) result) channel.new }
{
    let tx = sender_or_hub(sender);
    let by_hub = sender.is_none();
    match channel {
        Channel::Broadcast(channel) => {
            let receipt = event(channel, by_hub, HubBroadcast::subscribing(start, tx))?;
            Ok(Made {
                handle: HubBroadcast::made_rx(receipt.reply()),
                receipt: Channel::Broadcast(receipt),
            })
        }
        Channel::Watch(channel) => {
            let receipt = event(channel, by_hub, HubWatch::subscribing(start, tx))?;
            Ok(Made {
                handle: HubWatch::made_rx(receipt.reply()),
                receipt: Channel::Watch(receipt),
            })
        }
    }
}

/// A new receiver for this one, which is spent then.
pub fn resubscribe(channel: &mut LocalChannel, rx: RxId) -> Result<Made<RxId>, NoEvent>
    ensures { ChannelTells channel.old (Resubscribes rx) (made_rx (λ r. r) result) channel.new }
{
    match channel {
        Channel::Broadcast(channel) => {
            let receipt = move_receiver(channel, rx)?;
            Ok(Made {
                handle: HubBroadcast::made_rx(receipt.reply()),
                receipt: Channel::Broadcast(receipt),
            })
        }
        Channel::Watch(channel) => {
            let receipt = move_receiver(channel, rx)?;
            Ok(Made {
                handle: HubWatch::made_rx(receipt.reply()),
                receipt: Channel::Watch(receipt),
            })
        }
    }
}

/// The segment so far. The next one begins.
pub fn cut(channel: &mut LocalChannel) -> Result<TopicSegment, NoEvent>
    ensures { ChannelCuts channel.old result channel.new }
{
    match channel {
        Channel::Broadcast(channel) => match channel.cut() {
            Ok(segment) => Ok(Channel::Broadcast(segment)),
            Err(_) => Err(NoEvent::Short),
        },
        Channel::Watch(channel) => match channel.cut() {
            Ok(segment) => Ok(Channel::Watch(segment)),
            Err(_) => Err(NoEvent::Short),
        },
    }
}
