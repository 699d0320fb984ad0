//! The events that make handles of any kind of channel, each on the topic that is named. Room for the share of the new handle is
//! asked for last, where nothing but its channel's log can refuse it.
ghost use Rattle.std.specs.Prelude.{◌≡◌, IfErr, IfOk, IfSome, Some};
ghost use Rattle.th_log.specs.Replies.{made_by};
ghost use Rattle.th_block.specs.Handles.{rx, tx};
ghost use Rattle.th_shared.specs.Doing.{Enters, IsFullAsSeen, IsNew, Moves};
ghost use Rattle.th_shared.specs.Kept.{Stays};
ghost use Rattle.th_shared.specs.Saying.{IsNumbered, first};

use crate::event::{is_on, why};
use crate::shares::Shares;
use std::sync::Wait;
use th_block::{Handle, Receives, Replaced, Sends};
use th_log::{Kind, Receipt};
use th_model::{RxId, Start, TxId};
use th_registry::{NoEvent, TopicId};
use th_seats::Share;

/// A receipt, and the handle that its reply tells of.
pub(crate) type New<O, S> = (Receipt<O>, Option<Handle<O, S>>);

/// A new sender, by this one.
pub(crate) fn bind<O: Kind, R: Wait>(
    rt: &R,
    topic: TopicId,
    sender: &mut Handle<O, Sends>,
    shares: &mut Shares,
) -> Result<New<O, Sends>, NoEvent>
    requires { O.lawful }
    ensures number { sender.new.number ≡ sender.old.number }
    ensures enters { Enters topic.0 (Some (O.cloning (tx sender.old)))
        sender.old sender.new (first result) }
    ensures made { IfOk result (λ new.
        IsNumbered (made_by O.made_tx O.made_rx new.0.reply) new.1) }
    ensures fresh { IfOk result (λ new.
        IfSome new.1 (IsNew topic.0 sender.old.rolls new.0)) }
    ensures shares { Stays shares.old shares.new }
{
    if !is_on(sender, topic) {
        return Err(NoEvent::NotLive);
    }
    let Ok(()) = shares.make_room() else {
        return Err(NoEvent::Short);
    };
    match sender.clone_tx(rt) {
        Ok(new) => Ok(new),
        Err(refused) => Err(why(refused)),
    }
}

/// A new receiver that begins so, by this sender.
pub(crate) fn subscribe<O: Kind, R: Wait>(
    rt: &R,
    topic: TopicId,
    sender: &mut Handle<O, Sends>,
    start: Start,
    shares: &mut Shares,
) -> Result<New<O, Receives>, NoEvent>
    requires { O.lawful }
    ensures number { sender.new.number ≡ sender.old.number }
    ensures enters { Enters topic.0 (O.subscribing start (tx sender.old))
        sender.old sender.new (first result) }
    ensures made { IfOk result (λ new.
        IsNumbered (made_by O.made_tx O.made_rx new.0.reply) new.1) }
    ensures fresh { IfOk result (λ new.
        IfSome new.1 (IsNew topic.0 sender.old.rolls new.0)) }
    ensures shares { Stays shares.old shares.new }
{
    let Some(_call) = O::subscribing(start, TxId(sender.number())) else {
        return Err(NoEvent::WrongKind);
    };
    if !is_on(sender, topic) {
        return Err(NoEvent::NotLive);
    }
    let Ok(()) = shares.make_room() else {
        return Err(NoEvent::Short);
    };
    match sender.subscribe_from(rt, start) {
        Some(Ok(new)) => Ok(new),
        Some(Err(refused)) => Err(why(refused)),
        None => Err(NoEvent::WrongKind),
    }
}

/// What is left of a receiver, where it was not spent, and what is said of another in its place: the new one, and the
/// share of the old one, where that was spent for it.
pub(crate) type Moved<O> = (
    Option<Handle<O, Receives>>,
    Result<(New<O, Receives>, Option<Share>), NoEvent>,
);

/// A new receiver in the place of this one.
pub(crate) fn resubscribe<O: Kind, R: Wait>(
    rt: &R,
    topic: TopicId,
    old: Handle<O, Receives>,
    shares: &mut Shares,
) -> Moved<O>
    requires { O.lawful }
    ensures moves { Moves topic.0 (O.resubscribing (rx old)) old result.0 result.1 }
    ensures made { IfOk result.1 (λ r.
        IsNumbered (made_by O.made_tx O.made_rx r.0.0.reply) r.0.1) }
    ensures fresh { IfOk result.1 (λ r. IfSome r.0.1 (IsNew topic.0 old.rolls r.0.0)) }
    ensures full { IfErr result.1 (IsFullAsSeen old.rolls old.known) }
    ensures shares { Stays shares.old shares.new }
{
    let Some(call) = O::resubscribing(RxId(old.number())) else {
        return (Some(old), Err(NoEvent::WrongKind));
    };
    if !is_on(&old, topic) {
        return (Some(old), Err(NoEvent::NotLive));
    }
    let Ok(()) = shares.make_room() else {
        return (Some(old), Err(NoEvent::Short));
    };
    let Ok(owner) = old.shared() else {
        return (Some(old), Err(NoEvent::Short));
    };
    match owner.replace(rt, old, call) {
        Ok((receipt, replaced)) => match replaced {
            Replaced::New(new, share) => (None, Ok(((receipt, Some(new)), Some(share)))),
            Replaced::Kept(old) => (Some(old), Ok(((receipt, None), None))),
        },
        Err((old, refused)) => (Some(old), Err(why(refused))),
    }
}
