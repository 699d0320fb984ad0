//! The new handles of a topic's channel, as they are of the topic: with the receipt, of either kind.
ghost use Rattle.std.specs.Prelude.{◌≡◌, IfOk};
ghost use Rattle.th_log.specs.Replies.{broadcast_made_rx as made_broadcast_rx, broadcast_made_tx as made_broadcast_tx, made_by, watch_made_rx as made_watch_rx, watch_made_tx as made_watch_tx};
ghost use Rattle.th_registry.specs.Events.{NewRx, NewTx, broadcast_made_rx, broadcast_made_tx, watch_made_rx, watch_made_tx};
ghost use Rattle.th_registry.specs.Typed.{made_rx, made_tx, outcome_of};
ghost use Rattle.th_shared.specs.Doing.{Hands, HandsNew, noted_of};
ghost use Rattle.th_shared.specs.Numbers.{receiver, sender};
ghost use Rattle.th_shared.specs.Saying.{IsNumbered, first};

use crate::handles::{TopicReceiver, TopicSender};
use crate::new_handle::New;
use th_block::{Receives, Sends};
use th_model::{BReply, WReply};
use th_registry::channel::{HubBroadcast, HubWatch};
use th_registry::{Channel, Made, NoEvent};

// The sender that was made, with the receipt.
fn broadcast_sender(new: New<HubBroadcast, Sends>) -> Made<TopicSender>
    requires { IsNumbered (made_by made_broadcast_tx made_broadcast_rx new.0.reply) new.1 }
    ensures made { outcome_of (λ t. NewTx (sender t)) result ≡ broadcast_made_tx new.0.reply }
    ensures receipt { result.receipt ≡ Channel.Broadcast new.0 }
    ensures handle { Hands (λ h. Channel.Broadcast h) new.1 result.handle }
{
    let (receipt, handle) = new;
    let handle = match receipt.reply() {
        BReply::NewTx(_) => handle,
        _ => None,
    };
    let handle = match handle {
        Some(handle) => Some(Channel::Broadcast(handle)),
        None => None,
    };
    Made {
        handle,
        receipt: Channel::Broadcast(receipt),
    }
}

/// The same, where one was asked for.
pub(crate) fn broadcast_senders(
    said: Result<New<HubBroadcast, Sends>, NoEvent>,
) -> Result<Made<TopicSender>, NoEvent>
    requires { IfOk said (λ new.
        IsNumbered (made_by made_broadcast_tx made_broadcast_rx new.0.reply) new.1) }
    ensures said { made_tx sender result
        ≡ noted_of broadcast_made_tx (λ r. Channel.Broadcast r) (first said) }
    ensures new { IfOk result (λ made. HandsNew (λ r. Channel.Broadcast r)
        (λ h. Channel.Broadcast h) said made.receipt made.handle) }
{
    match said {
        Ok(new) => Ok(broadcast_sender(new)),
        Err(why) => Err(why),
    }
}

// The same of a watch channel.
fn watch_sender(new: New<HubWatch, Sends>) -> Made<TopicSender>
    requires { IsNumbered (made_by made_watch_tx made_watch_rx new.0.reply) new.1 }
    ensures made { outcome_of (λ t. NewTx (sender t)) result ≡ watch_made_tx new.0.reply }
    ensures receipt { result.receipt ≡ Channel.Watch new.0 }
    ensures handle { Hands (λ h. Channel.Watch h) new.1 result.handle }
{
    let (receipt, handle) = new;
    let handle = match receipt.reply() {
        WReply::NewTx(_) => handle,
        _ => None,
    };
    let handle = match handle {
        Some(handle) => Some(Channel::Watch(handle)),
        None => None,
    };
    Made {
        handle,
        receipt: Channel::Watch(receipt),
    }
}

/// The same, where one was asked for.
pub(crate) fn watch_senders(
    said: Result<New<HubWatch, Sends>, NoEvent>,
) -> Result<Made<TopicSender>, NoEvent>
    requires { IfOk said (λ new.
        IsNumbered (made_by made_watch_tx made_watch_rx new.0.reply) new.1) }
    ensures said { made_tx sender result
        ≡ noted_of watch_made_tx (λ r. Channel.Watch r) (first said) }
    ensures new { IfOk result (λ made. HandsNew (λ r. Channel.Watch r)
        (λ h. Channel.Watch h) said made.receipt made.handle) }
{
    match said {
        Ok(new) => Ok(watch_sender(new)),
        Err(why) => Err(why),
    }
}

/// The receiver that was made, with the receipt.
pub(crate) fn broadcast_receiver(new: New<HubBroadcast, Receives>) -> Made<TopicReceiver>
    requires { IsNumbered (made_by made_broadcast_tx made_broadcast_rx new.0.reply) new.1 }
    ensures made { outcome_of (λ r. NewRx (receiver r)) result ≡ broadcast_made_rx new.0.reply }
    ensures receipt { result.receipt ≡ Channel.Broadcast new.0 }
    ensures handle { Hands (λ h. TopicReceiver.Live (Channel.Broadcast h)) new.1 result.handle }
{
    let (receipt, handle) = new;
    let handle = match receipt.reply() {
        BReply::NewRx(_) => handle,
        _ => None,
    };
    let handle = match handle {
        Some(handle) => Some(TopicReceiver::Live(Channel::Broadcast(handle))),
        None => None,
    };
    Made {
        handle,
        receipt: Channel::Broadcast(receipt),
    }
}

/// The same, where one was asked for.
pub(crate) fn broadcast_receivers(
    said: Result<New<HubBroadcast, Receives>, NoEvent>,
) -> Result<Made<TopicReceiver>, NoEvent>
    requires { IfOk said (λ new.
        IsNumbered (made_by made_broadcast_tx made_broadcast_rx new.0.reply) new.1) }
    ensures said { made_rx receiver result
        ≡ noted_of broadcast_made_rx (λ r. Channel.Broadcast r) (first said) }
    ensures new { IfOk result (λ made. HandsNew (λ r. Channel.Broadcast r)
        (λ h. TopicReceiver.Live (Channel.Broadcast h)) said made.receipt made.handle) }
{
    match said {
        Ok(new) => Ok(broadcast_receiver(new)),
        Err(why) => Err(why),
    }
}

// The same of a watch channel.
fn watch_receiver(new: New<HubWatch, Receives>) -> Made<TopicReceiver>
    requires { IsNumbered (made_by made_watch_tx made_watch_rx new.0.reply) new.1 }
    ensures made { outcome_of (λ r. NewRx (receiver r)) result ≡ watch_made_rx new.0.reply }
    ensures receipt { result.receipt ≡ Channel.Watch new.0 }
    ensures handle { Hands (λ h. TopicReceiver.Live (Channel.Watch h)) new.1 result.handle }
{
    let (receipt, handle) = new;
    let handle = match receipt.reply() {
        WReply::NewRx(_) => handle,
        _ => None,
    };
    let handle = match handle {
        Some(handle) => Some(TopicReceiver::Live(Channel::Watch(handle))),
        None => None,
    };
    Made {
        handle,
        receipt: Channel::Watch(receipt),
    }
}

/// The same, where one was asked for.
pub(crate) fn watch_receivers(
    said: Result<New<HubWatch, Receives>, NoEvent>,
) -> Result<Made<TopicReceiver>, NoEvent>
    requires { IfOk said (λ new.
        IsNumbered (made_by made_watch_tx made_watch_rx new.0.reply) new.1) }
    ensures said { made_rx receiver result
        ≡ noted_of watch_made_rx (λ r. Channel.Watch r) (first said) }
    ensures new { IfOk result (λ made. HandsNew (λ r. Channel.Watch r)
        (λ h. TopicReceiver.Live (Channel.Watch h)) said made.receipt made.handle) }
{
    match said {
        Ok(new) => Ok(watch_receiver(new)),
        Err(why) => Err(why),
    }
}
