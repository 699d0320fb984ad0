//! One topic that threads share: its channel, and the hub's own sender.
ghost use Rattle.std.specs.Prelude.{◌≡◌};

use std::marker::Model;
use th_block::{Handle, Sends, Shared};
use th_log::Object;
use th_registry::Channel;
use th_registry::channel::{HubBroadcast, HubWatch};
use th_seats::Share;

/// A live sender that is the first handle of its channel.
#[derive(Drop)]
pub(crate) struct Own<O: Object> {
    pub(crate) sender: Handle<O, Sends>,
    ghost first: { sender.number ≡ 1 },
}

/// A topic's channel, and the hub's own sender of it.
///
/// Contracts see what is known of that sender, and whether the channel cuts its log by itself.
#[derive(Drop)]
pub(crate) struct Topic<O: Object> {
    pub(crate) owner: Shared<O>,
    // Until its end.
    pub(crate) own: Option<Own<O>>,
    // Its share, after its end.
    pub(crate) share: Option<Share>,
}

impl<O: Object> Model for Topic<O> {
    ghost use Rattle.std.specs.Option.{option_map};
    ghost use Rattle.std.specs.Prelude.{◌≡◌, is_some, not, IfSome};
    ghost use Rattle.th_shared.specs.OwnSender.{OwnSender};

    ghost Value = { OwnSender };

    ghost view = { λ t. record {
      live = option_map (λ own. own.sender.known) t.own;
      share = t.share;
      rolls = t.owner.rolls;
    } };

    ghost invariant = { λ t. (is_some t.share ≡ not (is_some t.own))
        × IfSome t.own (λ own. own.sender.rolls ≡ t.owner.rolls) };
}

/// A topic of either kind.
pub(crate) type AnyTopic = Channel<Topic<HubBroadcast>, Topic<HubWatch>>;
