//! One actor, and its commands carried out.
ghost use Rattle.std.specs.Prelude.{◌≡◌, [], List, ℕ, false, length, option_copied};
ghost use Rattle.std.specs.Option.{option_map};
ghost use Rattle.th_registry.specs.Events.{Receives};
ghost use Rattle.th_registry.specs.Hub.{Find};
ghost use Rattle.th_registry.specs.Rows.{sends_of, times};
ghost use Rattle.th_session.specs.Held.{Holding, handles_at, held};
ghost use Rattle.th_session.specs.Kept.{Tells, kept_by, last_of, with_receipt, with_segment};
ghost use Rattle.th_session.specs.Rows.{CarriesFirst, ReceiveEach, RowBy, SendEach};
ghost use Rattle.th_session.specs.Script.{Ask, Plays, Replied, at_topic, spend_all, traced};
ghost use Rattle.th_session.specs.Step.{IsStep};
ghost use Rattle.th_session.specs.Table.{is_for};

use crate::action::act;
use crate::handles::Handles;
use crate::keeping::Keeping;
use crate::quit::quit;
use crate::table::{replied_list, replied_none, replied_opening};
use std::alloc::Global;
use std::collections::VecDeque;
use std::marker::Model;
use std::time::Duration;
use th_lines::{Action, Code, Command, Reply};
use th_model::{Kind, NameRef, ReceiverVerb, Value};
use th_numbered::ByNumber;
use th_registry::calls::{answers, receives, sends, starts};
use th_registry::channel::{TopicReceipt, TopicSegment};
use th_registry::{Desk, TopicId};

/// What a command is answered.
#[derive(Drop)]
pub enum Answer {
    /// A reply.
    Reply(Reply),
    /// What a topic replied to an event: as the receipt has it that the session keeps last.
    Event,
    /// The trace of a topic: of the segment that the session keeps last.
    Trace,
}

/// One actor's handles, at most one sender and one receiver of each topic; the receipt of each event that it was told of,
/// but for the ends of handles; and each segment of a topic's history that it was answered.
///
/// It takes memory for each topic of which it once held a handle, and none for the others; for each receipt; and for each
/// trace.
#[derive(Drop)]
pub struct Session<D: Desk> {
    // What is held, by the numbers of the topics.
    handles: ByNumber<Handles<D::Tx, D::Rx>>,
    // In the order of the answers, of all topics: so a receipt costs no look-up.
    receipts: Vec<(TopicId, TopicReceipt)>,
    // In the order of the answers.
    segments: Vec<(TopicId, TopicSegment)>,
}

impl<D: Desk> Model for Session<D> {
    ghost use Rattle.th_session.specs.Held.{held};
    ghost use Rattle.th_session.specs.Kept.{Kept};

    ghost Value = { Kept };

    ghost view = { λ s. record {
      handles = held D.tx D.rx s.handles.entries;
      receipts = s.receipts.items;
      segments = s.segments.items;
    } };
}

// Whether a kind of topic has the action.
#[inline(always)]
fn is_for(kind: Kind, action: &Action) -> bool
    ensures { result ≡ is_for kind action.now }
{
    match action {
        Action::BySender(verb) => sends(kind, verb),
        Action::Ask(question) => answers(kind, *question),
        Action::ByReceiver(verb) => receives(kind, *verb),
        Action::Resubscribe => match kind {
            Kind::Broadcast => true,
            Kind::Watch => false,
        },
        Action::Subscribe(start) => starts(kind, *start),
        Action::Bind | Action::Unbind | Action::Unsubscribe | Action::End => true,
    }
}

// An action on the topic of this name.
#[inline(always)]
fn on_topic<D: Desk>(
    handles: &mut ByNumber<Handles<D::Tx, D::Rx>>,
    receipts: &mut Vec<(TopicId, TopicReceipt)>,
    desk: &mut D,
    owed: &mut D::Owed,
    name: &NameRef<'_>,
    action: Action,
) -> Answer
    ensures { Tells result (λ answer.
        Plays D.says (Ask (Find name.now) (at_topic action (held D.tx D.rx handles.old.entries)))
        desk.old answer (held D.tx D.rx handles.new.entries) desk.new
        × (receipts.new.items ≡ with_receipt receipts.old.items answer)) }
{
    let Some(found) = desk.find(name) else {
        return Answer::Reply(Reply::Refused(Code::NoTopic));
    };
    if !is_for(found.kind, &action) {
        return Answer::Reply(Reply::Refused(Code::WrongKind));
    }
    act(handles, receipts, desk, owed, found.topic, action)
}

// The trace of the topic of this name. There is room for its segment before the desk hands it out.
fn trace<D: Desk>(
    segments: &mut Vec<(TopicId, TopicSegment)>,
    desk: &mut D,
    name: &NameRef<'_>,
) -> Answer
    ensures { (h : Holding) → Tells result (λ answer.
        Plays D.says (Ask (Find name.now) (traced h)) desk.old answer h desk.new
        × (segments.new.items ≡ with_segment segments.old.items answer)) }
{
    let Some(found) = desk.find(name) else {
        return Answer::Reply(Reply::Refused(Code::NoTopic));
    };
    let Ok(()) = segments.reserve(1) else {
        return Answer::Reply(Reply::Refused(Code::NoMemory));
    };
    match desk.cut(found.topic) {
        Ok(segment) => {
            segments.push_reserved((found.topic, segment));
            Answer::Trace
        }
        Err(why) => Answer::Reply(replied_none(why)),
    }
}

// Waits until the next call by the actor's own receiver of this topic has its answer, but no longer than so: whether it has. It
// has where there is no such receiver.
fn wait<D: Desk>(
    handles: &mut ByNumber<Handles<D::Tx, D::Rx>>,
    desk: &mut D,
    owed: &D::Owed,
    topic: TopicId,
    longest: Duration,
) -> bool
    requires paid { D.owes owed.now ≡ false }
    ensures held { held D.tx D.rx handles.new.entries ≡ held D.tx D.rx handles.old.entries }
    ensures desk { desk.new ≡ desk.old }
{
    let Some(own) = handles.get_mut(topic.0) else {
        return true;
    };
    let Some(receiver) = &mut own.receiver else {
        return true;
    };
    desk.wait(topic, receiver, longest, owed)
}

// Sends of these values by the actor's own sender of this topic, in a row: how many were sent.
fn send_row<D: Desk>(
    handles: &mut ByNumber<Handles<D::Tx, D::Rx>>,
    receipts: &mut Vec<(TopicId, TopicReceipt)>,
    desk: &mut D,
    topic: TopicId,
    values: &mut VecDeque<Value>,
) -> usize
    ensures { let h = held D.tx D.rx handles.old.entries in
        RowBy D.says topic.0 (handles_at h topic.0).sender (λ t. sends_of t values.old.items)
        h (held D.tx D.rx handles.new.entries)
        receipts.old.items receipts.new.items desk.old desk.new result }
{
    let Some(own) = handles.get_mut(topic.0) else {
        return 0;
    };
    let Some(sender) = &mut own.sender else {
        return 0;
    };
    let Ok(()) = receipts.reserve(values.len()) else {
        return 0;
    };
    desk.send_row(topic, sender, values, receipts)
}

// What the actor's own receiver of this topic does, in a row: how often.
fn receive_row<D: Desk>(
    handles: &mut ByNumber<Handles<D::Tx, D::Rx>>,
    receipts: &mut Vec<(TopicId, TopicReceipt)>,
    desk: &mut D,
    topic: TopicId,
    verb: ReceiverVerb,
    most: usize,
) -> usize
    ensures { let h = held D.tx D.rx handles.old.entries in
        RowBy D.says topic.0 (handles_at h topic.0).receiver (λ r. times most (Receives r verb))
        h (held D.tx D.rx handles.new.entries)
        receipts.old.items receipts.new.items desk.old desk.new result }
{
    let Some(own) = handles.get_mut(topic.0) else {
        return 0;
    };
    let Some(receiver) = &mut own.receiver else {
        return 0;
    };
    let Ok(()) = receipts.reserve(most) else {
        return 0;
    };
    desk.by_receiver_row(topic, receiver, verb, most, receipts)
}

// Gives these back to the desk that handed them out, in their order.
fn give_back<D: Desk>(segments: &mut Vec<(TopicId, TopicSegment)>, desk: &mut D)
    ensures segments { segments.new.items ≡ [] }
    ensures desk { desk.new ≡ desk.old }
{
    for (topic, segment) in segments.drain(..) {
        desk.give_back(topic, segment);
    }
}

impl<D: Desk> Session<D> {
    /// An actor that holds nothing, and was told nothing. It takes no memory.
    pub fn new(alloc: Global) -> Session<D>
        ensures { result ≡ record { handles = []; receipts = []; segments = [] } }
    {
        Session {
            handles: ByNumber::new(alloc),
            receipts: Vec::new(alloc),
            segments: Vec::new(alloc),
        }
    }

    /// The receipt of each event that the actor was told of, with its topic, in the order of the answers. The end of a
    /// handle gives none.
    pub fn receipts(&self) -> &[(TopicId, TopicReceipt)]
        ensures { result.now ≡ self.now.receipts }
    {
        self.receipts.as_slice()
    }

    /// The receipt of the last event that the actor was told of, if there was one.
    pub fn last_receipt(&self) -> Option<&TopicReceipt>
        ensures { option_copied result ≡ last_of self.now.receipts }
    {
        match self.receipts.last() {
            Some((_, receipt)) => Some(receipt),
            None => None,
        }
    }

    /// Each segment that the actor was answered, with its topic, in the order of the answers.
    pub fn segments(&self) -> &[(TopicId, TopicSegment)]
        ensures { result.now ≡ self.now.segments }
    {
        self.segments.as_slice()
    }

    /// The segment that the actor was answered last, if there was one.
    pub fn last_segment(&self) -> Option<&TopicSegment>
        ensures { option_copied result ≡ last_of self.now.segments }
    {
        match self.segments.last() {
            Some((_, segment)) => Some(segment),
            None => None,
        }
    }

    // The actor's own sender of this topic.
    #[inline(always)]
    pub(crate) fn sender_of(&self, topic: TopicId) -> Option<&D::Tx>
        ensures { option_map D.tx (option_copied result)
            ≡ (handles_at self.now.handles topic.0).sender }
    {
        match self.handles.get(topic.0) {
            Some(own) => own.sender.as_ref(),
            None => None,
        }
    }

    // The actor's own receiver of this topic.
    #[inline(always)]
    pub(crate) fn receiver_of(&self, topic: TopicId) -> Option<&D::Rx>
        ensures { option_map D.rx (option_copied result)
            ≡ (handles_at self.now.handles topic.0).receiver }
    {
        match self.handles.get(topic.0) {
            Some(own) => own.receiver.as_ref(),
            None => None,
        }
    }

    /// Carries out a command: of all that the desk said, in its order, the answer is the hub's, and so is what the
    /// actor holds afterwards. The first refusal that holds is the reply. Where there is no room for a new handle, a
    /// receipt or a segment, the reply is `NoMemory`, the hub is not asked for it and nothing has changed. A handle that is
    /// to be spent stays where there was no event, but for `Quit`, after which nothing is held. A receipt is kept behind the
    /// others, and so is a segment that is answered.
    ///
    /// It costs one look-up of the topic's name, and a few of what is held on it, each at most the logarithm of the
    /// number of topics of which the actor once held a handle. A new handle moves the entries of those topics that were
    /// opened later. Only a new handle, a segment, and what the desk does, takes memory. Who waits for it is woken.
    #[inline(always)]
    pub fn step(&mut self, desk: &mut D, command: Command<'_>) -> Answer
        ensures { Tells result (λ answer.
            IsStep D.says self.old desk.old command.entry answer self.new desk.new) }
    {
        let mut owed = desk.owing_nothing();
        let answer = self.step_owing(desk, &mut owed, command);
        desk.wake(&mut owed);
        D::close(owed);
        answer
    }

    /// The same, after which somebody may be owed a wake.
    #[inline(always)]
    pub(crate) fn step_owing(
        &mut self,
        desk: &mut D,
        owed: &mut D::Owed,
        command: Command<'_>,
    ) -> Answer
        ensures { Tells result (λ answer.
            IsStep D.says self.old desk.old command.entry answer self.new desk.new) }
    {
        match command {
            Command::Open(name, making) => {
                Answer::Reply(replied_opening(desk.open_topic(name, making)))
            }
            Command::On(name, action) => {
                on_topic(
                    &mut self.handles,
                    &mut self.receipts,
                    desk,
                    owed,
                    &name,
                    action,
                )
            }
            Command::Trace(name) => trace(&mut self.segments, desk, &name),
            Command::List => Answer::Reply(replied_list(desk.list())),
            Command::Quit => {
                quit(&mut self.handles, desk);
                Answer::Reply(Reply::Bye)
            }
        }
    }

    /// Spends each handle, topics in order of opening and the sender of each before the receiver, as `Quit` does.
    /// Nothing is held then, whatever the desk said. It costs one event for each handle.
    pub fn spend_all(&mut self, desk: &mut D)
        ensures spent { Plays D.says (spend_all self.old.handles) desk.old
            (Replied Reply.Bye) [] desk.new }
        ensures none { self.new ≡ record self.old { handles = [] } }
    {
        quit(&mut self.handles, desk);
    }

    /// What the actor was told, without the actor: the receipts and the segments, each with its topic, in the order of
    /// the answers. They are moved, so it costs nothing. Handles that are still held are not spent, and stay live: so it
    /// comes after `Quit`, [`Session::spend_all`] or a run.
    pub fn parts(self) -> (Vec<(TopicId, TopicReceipt)>, Vec<(TopicId, TopicSegment)>)
        ensures receipts { result.0.items ≡ self.receipts }
        ensures segments { result.1.items ≡ self.segments }
    {
        let Session {
            receipts,
            segments,
            ..
        } = self;
        (receipts, segments)
    }

    /// Lets go of what a run does not keep that keeps so much. The segments among it go back to the desk, in their order.
    #[inline(always)]
    pub fn let_go(&mut self, desk: &mut D, keeping: Keeping)
        ensures session { self.new ≡ kept_by keeping self.old }
        ensures desk { desk.new ≡ desk.old }
    {
        match keeping {
            Keeping::All => {}
            Keeping::Nothing => {
                self.receipts.clear();
                if !self.segments.is_empty() {
                    give_back(&mut self.segments, desk);
                }
            }
        }
    }

    /// Whether the actor's own receiver of the topic of this name would wait now by this verb; not, where there is none.
    pub(crate) fn would_wait(&self, desk: &D, name: &NameRef<'_>, verb: ReceiverVerb) -> bool {
        let Some(found) = desk.find(name) else {
            return false;
        };
        match self.receiver_of(found.topic) {
            Some(receiver) => desk.would_wait(found.topic, receiver, verb),
            None => false,
        }
    }

    /// Whether the topic of this name is a broadcast topic, and the actor holds a sender of it.
    pub(crate) fn has_broadcast_sender(&self, desk: &D, name: &NameRef<'_>) -> bool {
        let Some(found) = desk.find(name) else {
            return false;
        };
        match found.kind {
            Kind::Broadcast => self.sender_of(found.topic).is_some(),
            Kind::Watch => false,
        }
    }

    /// Waits until this command, that waits, has its answer, but no longer than so: whether it has.
    pub(crate) fn wait(
        &mut self,
        desk: &mut D,
        owed: &D::Owed,
        command: &Command<'_>,
        longest: Duration,
    ) -> bool
        requires paid { D.owes owed.now ≡ false }
        ensures session { self.new ≡ self.old }
        ensures desk { desk.new ≡ desk.old }
    {
        let Command::On(name, action) = command else {
            return true;
        };
        let Some(found) = desk.find(name) else {
            return true;
        };
        if !is_for(found.kind, action) {
            return true;
        }
        wait(&mut self.handles, desk, owed, found.topic, longest)
    }

    /// Sends these values to the broadcast topic of this name, in a row, from the first one on: how many were sent, whose receipts
    /// are kept behind the others. What is not sent has to be asked for by `step`, which tells why.
    pub(crate) fn send_row(
        &mut self,
        desk: &mut D,
        name: &NameRef<'_>,
        values: &mut VecDeque<Value>,
    ) -> usize
        ensures { (lines : List (List ℕ)) → SendEach name.now lines values.old.items
            → CarriesFirst D.says lines (self.old, desk.old) result (self.new, desk.new) }
    {
        let Some(found) = desk.find(name) else {
            return 0;
        };
        match found.kind {
            Kind::Broadcast => {
                send_row(
                    &mut self.handles,
                    &mut self.receipts,
                    desk,
                    found.topic,
                    values,
                )
            }
            Kind::Watch => 0,
        }
    }

    /// What a receiver does on the topic of this name, in a row, as often as it has its answer, at most so often: how often. The
    /// receipts are kept behind the others.
    pub(crate) fn receive_row(
        &mut self,
        desk: &mut D,
        name: &NameRef<'_>,
        verb: ReceiverVerb,
        most: usize,
    ) -> usize
        ensures { (lines : List (List ℕ)) → length lines ≡ most → ReceiveEach name.now verb lines
            → CarriesFirst D.says lines (self.old, desk.old) result (self.new, desk.new) }
    {
        let Some(found) = desk.find(name) else {
            return 0;
        };
        if !receives(found.kind, verb) {
            return 0;
        }
        receive_row(
            &mut self.handles,
            &mut self.receipts,
            desk,
            found.topic,
            verb,
            most,
        )
    }
}
