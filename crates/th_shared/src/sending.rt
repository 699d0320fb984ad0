//! What a sender does, when nobody is woken by it yet.
ghost use Rattle.std.specs.Prelude.{◌≡◌, ℕ, Bool, None, Err, OnOk, true};
ghost use Rattle.th_registry.specs.Events.{Sends as Sent};
ghost use Rattle.th_registry.specs.Hub.{On};
ghost use Rattle.th_registry.specs.Kinds.{kind_of};
ghost use Rattle.th_registry.specs.Typed.{replied};
ghost use Rattle.th_block.specs.Handles.{Known};
ghost use Rattle.th_shared.specs.Doing.{Does, IsFullAsSeen, TellsKind};
ghost use Rattle.th_shared.specs.Numbers.{sender as tx_of};
ghost use Rattle.th_shared.specs.Saying.{MaySay};

use crate::deferred_wake::Owed;
use crate::handles::TopicSender;
use crate::told;
use std::sync::Wait;
use th_model::{SenderVerb, Value};
use th_registry::channel::TopicReceipt;
use th_registry::{Channel, NoEvent, TopicId};

// Why a sender makes no event where there is no room to owe a wake for it.
fn unsent(sender: &TopicSender, verb: &SenderVerb<Value>) -> NoEvent
    ensures may { (n : ℕ) → MaySay (On n (Sent (tx_of sender.now) verb.now)) (Err result, None) }
    ensures kind { TellsKind (kind_of sender.now) (Sent (tx_of sender.now) verb.now) (Err result) }
    ensures full { (rolls : Bool) (known : Known) → IsFullAsSeen rolls known result }
{
    match (sender, verb) {
        (Channel::Broadcast(_), SenderVerb::Send(_)) => NoEvent::Short,
        (Channel::Broadcast(_), _) => NoEvent::WrongKind,
        (Channel::Watch(_), _) => NoEvent::Short,
    }
}

/// What a sender does. Who waits for it is owed a wake then.
#[inline(always)]
pub(crate) fn send<R: Wait>(
    rt: &R,
    topic: TopicId,
    sender: &mut TopicSender,
    verb: SenderVerb<Value>,
    owed: &mut Owed,
) -> Result<TopicReceipt, NoEvent>
    ensures does { let event = Sent (tx_of sender.old) verb in
        Does topic.0 event sender.old sender.new (replied result) }
    ensures owed { OnOk result (owed.new ≡ true) }
{
    match owed.defer(rt, sender) {
        Ok(()) => told::send(rt, topic, sender, verb),
        Err(_) => Err(unsent(sender, &verb)),
    }
}
