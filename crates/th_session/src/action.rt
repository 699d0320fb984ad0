//! The one event of an action, by the handle that it asks by.
ghost use Rattle.std.specs.Prelude.{◌≡◌, ◌<◌, List, ℕ, IsSome, None, vec_capacity, vec_len};
ghost use Rattle.th_registry.specs.Typed.{made_rx, replied};
ghost use Rattle.th_registry.specs.Events.{Subscribes, any_sender};
ghost use Rattle.th_registry.specs.Hub.{On};
ghost use Rattle.th_session.specs.Held.{IsReady, held, handles_at, handles_of, with_made_receiver, with_made_sender, with_new_receiver, with_new_sender};
ghost use Rattle.th_session.specs.Step.{Acts, Spends};
ghost use Rattle.th_session.specs.Kept.{told, with_receipt};
ghost use Rattle.th_session.specs.Script.{answered};
ghost use Rattle.th_session.specs.Table.{told_made};

use crate::handles::{
    Handles, has_receiver, has_sender, hold_receiver, hold_sender, make_ready, take_back,
};
use crate::owing::pay_if;
use crate::session::Answer;
use crate::table::{replied_ended, replied_none};
use th_lines::{Action, Code, Reply};
use th_model::{Question, ReceiverVerb, SenderVerb, Start, Value};
use th_numbered::ByNumber;
use th_registry::calls::waits;
use th_registry::channel::TopicReceipt;
use th_registry::{Desk, Made, NoEvent, TopicId};

// What is told of an event: its receipt is kept behind the others, in a list that has room for it; or why there was none.
#[inline(always)]
fn note(
    receipts: &mut Vec<(TopicId, TopicReceipt)>,
    topic: TopicId,
    said: Result<TopicReceipt, NoEvent>,
) -> Answer
    requires { vec_len receipts.old < vec_capacity receipts.old }
    ensures { let answer = answered topic.0 (replied said) in
        (result ≡ told answer) × (receipts.new.items ≡ with_receipt receipts.old.items answer) }
{
    match said {
        Ok(receipt) => {
            receipts.push_reserved((topic, receipt));
            Answer::Event
        }
        Err(why) => Answer::Reply(replied_none(why)),
    }
}

// The sender that was made is held. Where none was, new handles go again.
fn hold_made_sender<Tx: Drop, Rx: Drop>(
    handles: &mut ByNumber<Handles<Tx, Rx>>,
    n: u64,
    are_new: bool,
    made: Option<Tx>,
)
    requires { IsSome (handles_of handles.old.entries n) }
    ensures { (h : List (ℕ × Handles Tx Rx)) → IsReady are_new h n handles.old.entries →
        handles.new.entries ≡ with_made_sender h n made }
{
    match made {
        Some(sender) => hold_sender(handles, n, sender),
        None => take_back(handles, n, are_new),
    }
}

// The same of what is said of an event, of which the receipt goes on.
fn keep_sender<Tx: Drop, Rx: Drop>(
    handles: &mut ByNumber<Handles<Tx, Rx>>,
    n: u64,
    are_new: bool,
    said: Result<Made<Tx>, NoEvent>,
) -> Result<TopicReceipt, NoEvent>
    requires { IsSome (handles_of handles.old.entries n) }
    ensures told { result ≡ told_made said }
    ensures kept { (h : List (ℕ × Handles Tx Rx)) → IsReady are_new h n handles.old.entries →
        handles.new.entries ≡ with_new_sender h n said }
{
    match said {
        Ok(made) => {
            let Made { handle, receipt } = made;
            hold_made_sender(handles, n, are_new, handle);
            Ok(receipt)
        }
        Err(why) => {
            take_back(handles, n, are_new);
            Err(why)
        }
    }
}

// The receiver that was made is held. Where none was, new handles go again.
fn hold_made_receiver<Tx: Drop, Rx: Drop>(
    handles: &mut ByNumber<Handles<Tx, Rx>>,
    n: u64,
    are_new: bool,
    made: Option<Rx>,
)
    requires { IsSome (handles_of handles.old.entries n) }
    ensures { (h : List (ℕ × Handles Tx Rx)) → IsReady are_new h n handles.old.entries →
        handles.new.entries ≡ with_made_receiver h n made }
{
    match made {
        Some(receiver) => hold_receiver(handles, n, receiver),
        None => take_back(handles, n, are_new),
    }
}

// The same of what is said of an event, of which the receipt goes on.
fn keep_receiver<Tx: Drop, Rx: Drop>(
    handles: &mut ByNumber<Handles<Tx, Rx>>,
    n: u64,
    are_new: bool,
    said: Result<Made<Rx>, NoEvent>,
) -> Result<TopicReceipt, NoEvent>
    requires { IsSome (handles_of handles.old.entries n) }
    ensures told { result ≡ told_made said }
    ensures kept { (h : List (ℕ × Handles Tx Rx)) → IsReady are_new h n handles.old.entries →
        handles.new.entries ≡ with_new_receiver h n said }
{
    match said {
        Ok(made) => {
            let Made { handle, receipt } = made;
            hold_made_receiver(handles, n, are_new, handle);
            Ok(receipt)
        }
        Err(why) => {
            take_back(handles, n, are_new);
            Err(why)
        }
    }
}

// A new sender, by the hub's.
fn bind<D: Desk>(
    handles: &mut ByNumber<Handles<D::Tx, D::Rx>>,
    receipts: &mut Vec<(TopicId, TopicReceipt)>,
    desk: &mut D,
    topic: TopicId,
) -> Answer
    ensures { Acts D.says D.tx D.rx Action.Bind topic.0
        handles.old.entries receipts.old.items desk.old
        result handles.new.entries receipts.new.items desk.new }
{
    if has_sender(handles, topic.0) {
        return Answer::Reply(Reply::Refused(Code::Held));
    }
    let Ok(()) = receipts.reserve(1) else {
        return Answer::Reply(Reply::Refused(Code::NoMemory));
    };
    let Ok(are_new) = make_ready(handles, topic.0) else {
        return Answer::Reply(Reply::Refused(Code::NoMemory));
    };
    let said = desk.bind(topic);
    let told = keep_sender(handles, topic.0, are_new, said);
    note(receipts, topic, told)
}

// A new receiver, by the actor's own sender or else by the hub's.
fn subscribe<D: Desk>(
    handles: &mut ByNumber<Handles<D::Tx, D::Rx>>,
    receipts: &mut Vec<(TopicId, TopicReceipt)>,
    desk: &mut D,
    topic: TopicId,
    start: Start,
) -> Answer
    ensures { let action = Action.Subscribe start in
        Acts D.says D.tx D.rx action topic.0
        handles.old.entries receipts.old.items desk.old
        result handles.new.entries receipts.new.items desk.new }
{
    if has_receiver(handles, topic.0) {
        return Answer::Reply(Reply::Refused(Code::Held));
    }
    let Ok(()) = receipts.reserve(1) else {
        return Answer::Reply(Reply::Refused(Code::NoMemory));
    };
    let Ok(are_new) = make_ready(handles, topic.0) else {
        return Answer::Reply(Reply::Refused(Code::NoMemory));
    };
    let said = subscribe_by(handles, desk, topic, start);
    let told = keep_receiver(handles, topic.0, are_new, said);
    note(receipts, topic, told)
}

// A new receiver, where the handles are ready. What is held stays the same.
fn subscribe_by<D: Desk>(
    handles: &mut ByNumber<Handles<D::Tx, D::Rx>>,
    desk: &mut D,
    topic: TopicId,
    start: Start,
) -> Result<Made<D::Rx>, NoEvent>
    requires { IsSome (handles_of handles.old.entries topic.0) }
    ensures event { let s = handles_at (held D.tx D.rx handles.old.entries) topic.0 in
        let event = Subscribes start (any_sender s.sender) in
        D.says desk.old (On topic.0 event) (made_rx D.rx result) desk.new }
    ensures held { held D.tx D.rx handles.new.entries ≡ held D.tx D.rx handles.old.entries }
    ensures same { (handles_at handles.old.entries topic.0).sender ≡ None →
        handles.new.entries ≡ handles.old.entries }
{
    let Some(own) = handles.get_mut(topic.0) else {
        unreachable!()
    };
    desk.subscribe(topic, start, &mut own.sender)
}

// A question through the actor's own sender or else through the hub's.
fn ask<D: Desk>(
    handles: &mut ByNumber<Handles<D::Tx, D::Rx>>,
    receipts: &mut Vec<(TopicId, TopicReceipt)>,
    desk: &mut D,
    topic: TopicId,
    question: Question,
) -> Answer
    ensures { Acts D.says D.tx D.rx (Action.Ask question) topic.0
        handles.old.entries receipts.old.items desk.old
        result handles.new.entries receipts.new.items desk.new }
{
    let Ok(()) = receipts.reserve(1) else {
        return Answer::Reply(Reply::Refused(Code::NoMemory));
    };
    match handles.get_mut(topic.0) {
        Some(own) => note(receipts, topic, desk.ask(topic, &mut own.sender, question)),
        None => note(receipts, topic, desk.ask(topic, &mut None, question)),
    }
}

// By the actor's own sender.
#[inline(always)]
fn by_sender<D: Desk>(
    handles: &mut ByNumber<Handles<D::Tx, D::Rx>>,
    receipts: &mut Vec<(TopicId, TopicReceipt)>,
    desk: &mut D,
    owed: &mut D::Owed,
    topic: TopicId,
    verb: SenderVerb<Value>,
) -> Answer
    ensures { Acts D.says D.tx D.rx (Action.BySender verb) topic.0
        handles.old.entries receipts.old.items desk.old
        result handles.new.entries receipts.new.items desk.new }
{
    let Some(own) = handles.get_mut(topic.0) else {
        return Answer::Reply(Reply::Refused(Code::NotHeld));
    };
    let Some(sender) = &mut own.sender else {
        return Answer::Reply(Reply::Refused(Code::NotHeld));
    };
    let Ok(()) = receipts.reserve(1) else {
        return Answer::Reply(Reply::Refused(Code::NoMemory));
    };
    let told = desk.by_sender(topic, sender, verb, owed);
    note(receipts, topic, told)
}

// By the actor's own receiver.
#[inline(always)]
fn by_receiver<D: Desk>(
    handles: &mut ByNumber<Handles<D::Tx, D::Rx>>,
    receipts: &mut Vec<(TopicId, TopicReceipt)>,
    desk: &mut D,
    owed: &mut D::Owed,
    topic: TopicId,
    verb: ReceiverVerb,
) -> Answer
    ensures { Acts D.says D.tx D.rx (Action.ByReceiver verb) topic.0
        handles.old.entries receipts.old.items desk.old
        result handles.new.entries receipts.new.items desk.new }
{
    let Some(own) = handles.get_mut(topic.0) else {
        return Answer::Reply(Reply::Refused(Code::NotHeld));
    };
    let Some(receiver) = &mut own.receiver else {
        return Answer::Reply(Reply::Refused(Code::NotHeld));
    };
    let Ok(()) = receipts.reserve(1) else {
        return Answer::Reply(Reply::Refused(Code::NoMemory));
    };
    pay_if(desk, owed, waits(verb));
    let told = desk.by_receiver(topic, receiver, verb, owed);
    note(receipts, topic, told)
}

// A new receiver takes the place of the actor's own, which is spent.
fn resubscribe<D: Desk>(
    handles: &mut ByNumber<Handles<D::Tx, D::Rx>>,
    receipts: &mut Vec<(TopicId, TopicReceipt)>,
    desk: &mut D,
    topic: TopicId,
) -> Answer
    ensures { Acts D.says D.tx D.rx Action.Resubscribe topic.0
        handles.old.entries receipts.old.items desk.old
        result handles.new.entries receipts.new.items desk.new }
{
    let Some(own) = handles.get_mut(topic.0) else {
        return Answer::Reply(Reply::Refused(Code::NotHeld));
    };
    let Some(receiver) = &mut own.receiver else {
        return Answer::Reply(Reply::Refused(Code::NotHeld));
    };
    let Ok(()) = receipts.reserve(1) else {
        return Answer::Reply(Reply::Refused(Code::NoMemory));
    };
    let said = desk.resubscribe(topic, receiver);
    let told = keep_receiver(handles, topic.0, false, said);
    note(receipts, topic, told)
}

// The last event of the actor's own sender, which is held again where there was none.
fn unbind<D: Desk>(
    handles: &mut ByNumber<Handles<D::Tx, D::Rx>>,
    desk: &mut D,
    topic: TopicId,
) -> Reply
    ensures { Spends D.says D.tx D.rx Action.Unbind topic.0 handles.old.entries desk.old
        result handles.new.entries desk.new }
{
    let Some(own) = handles.get_mut(topic.0) else {
        return Reply::Refused(Code::NotHeld);
    };
    let Some(sender) = own.sender.take() else {
        return Reply::Refused(Code::NotHeld);
    };
    match desk.spend_sender(topic, sender) {
        Ok(()) => Reply::Done,
        Err(unspent) => {
            own.sender = Some(unspent.handle);
            replied_none(unspent.why)
        }
    }
}

// The last event of the actor's own receiver, which is held again where there was none.
fn unsubscribe<D: Desk>(
    handles: &mut ByNumber<Handles<D::Tx, D::Rx>>,
    desk: &mut D,
    topic: TopicId,
) -> Reply
    ensures { Spends D.says D.tx D.rx Action.Unsubscribe topic.0 handles.old.entries desk.old
        result handles.new.entries desk.new }
{
    let Some(own) = handles.get_mut(topic.0) else {
        return Reply::Refused(Code::NotHeld);
    };
    let Some(receiver) = own.receiver.take() else {
        return Reply::Refused(Code::NotHeld);
    };
    match desk.spend_receiver(topic, receiver) {
        Ok(()) => Reply::Done,
        Err(unspent) => {
            own.receiver = Some(unspent.handle);
            replied_none(unspent.why)
        }
    }
}

// The one event of an action on a topic that is there and of its kind.
#[inline(always)]
pub(crate) fn act<D: Desk>(
    handles: &mut ByNumber<Handles<D::Tx, D::Rx>>,
    receipts: &mut Vec<(TopicId, TopicReceipt)>,
    desk: &mut D,
    owed: &mut D::Owed,
    topic: TopicId,
    action: Action,
) -> Answer
    ensures { Acts D.says D.tx D.rx action topic.0
        handles.old.entries receipts.old.items desk.old
        result handles.new.entries receipts.new.items desk.new }
{
    match action {
        Action::ByReceiver(verb) => by_receiver(handles, receipts, desk, owed, topic, verb),
        Action::BySender(verb) => by_sender(handles, receipts, desk, owed, topic, verb),
        Action::Ask(question) => ask(handles, receipts, desk, topic, question),
        Action::Bind => bind(handles, receipts, desk, topic),
        Action::Unbind => Answer::Reply(unbind(handles, desk, topic)),
        Action::Subscribe(start) => subscribe(handles, receipts, desk, topic, start),
        Action::Unsubscribe => Answer::Reply(unsubscribe(handles, desk, topic)),
        Action::Resubscribe => resubscribe(handles, receipts, desk, topic),
        Action::End => Answer::Reply(replied_ended(desk.end(topic))),
    }
}
