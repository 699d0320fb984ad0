//! The events that go through the hub's own sender of a topic, for any kind of channel.
ghost use Rattle.std.specs.Prelude.{◌≡◌, Bool, IfErr, IfOk, IfSome, None, OnOk, Some};
ghost use Rattle.th_log.specs.Replies.{made_by};
ghost use Rattle.th_registry.specs.Calls.{tx};
ghost use Rattle.th_shared.specs.ByHub.{EndsHub, EntersHub};
ghost use Rattle.th_block.specs.Handles.{Known};
ghost use Rattle.th_shared.specs.Doing.{IsFullAsSeen, IsNew};
ghost use Rattle.th_shared.specs.Kept.{Stays};
ghost use Rattle.th_shared.specs.Reasons.{through_hub};
ghost use Rattle.th_shared.specs.Saying.{IsNumbered, first};

use crate::new_handle::New;
use crate::shares::Shares;
use crate::topic::{Own, Topic};
use crate::{event, new_handle};
use std::sync::Wait;
use th_block::{Handle, Receives, Sends};
use th_log::{Kind, Receipt};
use th_model::{Question, Start, TxId};
use th_registry::{NoEvent, TopicId};

/// The number of the hub's own sender.
const OWN: TxId = TxId(1);

// What is said through the hub's own sender, where it has not ended.
fn through_hub<A>(said: Result<A, NoEvent>) -> Result<A, NoEvent>
    ensures said { result ≡ through_hub said }
    ensures full { (rolls : Bool) (known : Known) → IfErr said (IsFullAsSeen rolls known)
        → IfErr result (IsFullAsSeen rolls known) }
{
    match said {
        Ok(came) => Ok(came),
        Err(NoEvent::NotLive) => Err(NoEvent::Short),
        Err(why) => Err(why),
    }
}

impl<O: Kind> Topic<O> {
    /// A topic with this first sender as the hub's own. `None` past 2^63 owners of its channel.
    pub(crate) fn new(sender: Handle<O, Sends>) -> Option<Topic<O>>
        requires { sender.number ≡ 1 }
        ensures { IfSome result (λ topic.
            topic ≡ record { live = Some sender.known; share = None; rolls = sender.rolls }) }
    {
        let Ok(owner) = sender.shared() else {
            return None;
        };
        Some(Topic {
            owner,
            own: Some(Own { sender }),
            share: None,
        })
    }

    /// A new sender.
    pub(crate) fn bind<R: Wait>(
        &mut self,
        rt: &R,
        topic: TopicId,
        shares: &mut Shares,
    ) -> Result<New<O, Sends>, NoEvent>
        requires { O.lawful }
        ensures enters { EntersHub topic.0 (Some (O.cloning (tx 1)))
            self.old self.new (first result) }
        ensures made { IfOk result (λ new.
            IsNumbered (made_by O.made_tx O.made_rx new.0.reply) new.1) }
        ensures fresh { IfOk result (λ new.
            IfSome new.1 (IsNew topic.0 self.old.rolls new.0)) }
        ensures shares { Stays shares.old shares.new }
    {
        match &mut self.own {
            Some(own) => through_hub(new_handle::bind(rt, topic, &mut own.sender, shares)),
            None => Err(NoEvent::NoSender),
        }
    }

    /// A new receiver that begins so.
    pub(crate) fn subscribe<R: Wait>(
        &mut self,
        rt: &R,
        topic: TopicId,
        start: Start,
        shares: &mut Shares,
    ) -> Result<New<O, Receives>, NoEvent>
        requires { O.lawful }
        ensures enters { EntersHub topic.0 (O.subscribing start (tx 1))
            self.old self.new (first result) }
        ensures made { IfOk result (λ new.
            IsNumbered (made_by O.made_tx O.made_rx new.0.reply) new.1) }
        ensures fresh { IfOk result (λ new.
            IfSome new.1 (IsNew topic.0 self.old.rolls new.0)) }
        ensures shares { Stays shares.old shares.new }
    {
        let Some(_call) = O::subscribing(start, OWN) else {
            return Err(NoEvent::WrongKind);
        };
        match &mut self.own {
            Some(own) => {
                through_hub(new_handle::subscribe(rt, topic, &mut own.sender, start, shares))
            }
            None => Err(NoEvent::NoSender),
        }
    }

    /// A question.
    pub(crate) fn ask<R: Wait>(
        &mut self,
        rt: &R,
        topic: TopicId,
        question: Question,
    ) -> Result<Receipt<O>, NoEvent>
        requires { O.lawful }
        ensures { EntersHub topic.0 (O.asked question (tx 1)) self.old self.new result }
    {
        let Some(_call) = O::asked(question, OWN) else {
            return Err(NoEvent::WrongKind);
        };
        match &mut self.own {
            Some(own) => through_hub(event::ask(rt, topic, &mut own.sender, question)),
            None => Err(NoEvent::NoSender),
        }
    }

    /// The end of the hub's own sender, whose share stays with the topic. The receipt is given up. A sender that its channel does not
    /// know, which none is, ends without an event.
    pub(crate) fn end<R: Wait>(&mut self, rt: &R, topic: TopicId) -> Result<(), NoEvent>
        requires { O.lawful }
        ensures { EndsHub topic.0 (O.last_of_sender (tx 1)) O.done self.old self.new result }
    {
        let Some(Own { sender }) = self.own.take() else {
            return Err(NoEvent::NoSender);
        };
        match event::end(rt, topic, sender) {
            Ok(share) => {
                self.share = Some(share);
                Ok(())
            }
            Err(sender) => {
                self.share = Some(sender.release());
                Err(NoEvent::NoSender)
            }
        }
    }
}
