//! What a session asks of the hub.
ghost use Rattle.std.specs.Prelude.{◌≡◌, ◌+◌, ◌≤◌, Bool, IfErr, false, length, true, vec_capacity, vec_len};
ghost use Rattle.std.specs.Option.{option_map};
ghost use Rattle.th_model.specs.declared.handles.TxId.{TxId};
ghost use Rattle.th_model.specs.declared.handles.RxId.{RxId};
ghost use Rattle.th_registry.specs.Calls.{waits};
ghost use Rattle.th_registry.specs.Events.{Asks, Binds, DropsRx, DropsTx, Hub, Own, Receives, Resubscribes, Sends, Subscribes, any_sender};
ghost use Rattle.th_registry.specs.Hub.{Query, Said, Find, List, Open, On, Cut};
ghost use Rattle.th_registry.specs.Rows.{MadeInRow, sends_of, times};
ghost use Rattle.th_registry.specs.Typed.{ended, made_rx, made_tx, replied, spent};

use crate::channel::{TopicReceipt, TopicSegment};
use crate::opening::{Found, Refusal, TopicId};
use crate::outcome::{Made, NoEvent, Unspent};
use std::collections::VecDeque;
use std::time::Duration;
use th_model::{Listing, Making, NameRef, Question, ReceiverVerb, SenderVerb, Short, Start, Value};

/// The most events that a desk is asked for in one row ([`Desk::send_row`], [`Desk::by_receiver_row`]).
pub const MOST_IN_ROW: usize = 64;

/// Topics by name. Each call but `find`, `list`, `cut`, `give_back`, `wake`, `would_wait`, `wait` and those that begin and end a debt is one event,
/// on the topic of that number or of the registry, or none; `resubscribe` is both of its events, or none, and a row is as many as it answers. By
/// which side of handles an event is made is the call's name and the type of its verb. An event's receipt is handed out, but for the end of a handle.
///
/// An event by `by_sender` may wake nobody: then the caller owes those who wait a wake, and has to pay by `wake` before it waits itself.
/// The debt is a value of its own that the caller holds, and that cannot be let go of but by `close`, once it is paid. No other event makes one.
pub trait Desk: Drop {
    /// A sender of a topic.
    type Tx: Drop;

    /// A receiver of a topic.
    type Rx: Drop;

    /// The number of a sender.
    ghost tx: { Self.Tx → TxId };

    /// The number of a receiver.
    ghost rx: { Self.Rx → RxId };

    /// Whom a caller owes a wake. It is of the desk at which it began, and is lent to no other.
    type Owed;

    /// Whether that is anybody.
    ghost owes: { Self.Owed → Bool };

    /// What the desk may say to a query, and what it is afterwards.
    ghost says: { Self → (q : Query) → Said q → Self → Type 0 };

    /// The topic of this name.
    fn find(&self, name: &NameRef<'_>) -> Option<Found>
        ensures { says self.now (Find name.now) result self.now };

    /// The topics in order of opening.
    fn list(&self) -> Result<Listing, Short<()>>
        ensures { says self.now List result self.now };

    /// Opens a topic, and answers the number that is told of it.
    fn open_topic(&mut self, name: NameRef<'_>, making: Making) -> Result<u64, Refusal>
        ensures { says self.old (Open name.entry making) result self.new };

    /// A new sender, by the hub's own, which is sender 1 of the topic.
    fn bind(&mut self, topic: TopicId) -> Result<Made<Self::Tx>, NoEvent>
        ensures { says self.old (On topic.0 Binds) (made_tx tx result) self.new };

    /// A new receiver that begins so, by this sender, or by the hub's own where there is none. The sender keeps its
    /// number.
    fn subscribe(
        &mut self,
        topic: TopicId,
        start: Start,
        sender: &mut Option<Self::Tx>,
    ) -> Result<Made<Self::Rx>, NoEvent>
        ensures event { let by = any_sender (option_map tx sender.old) in
            says self.old (On topic.0 (Subscribes start by)) (made_rx rx result) self.new }
        ensures sender { option_map tx sender.new ≡ option_map tx sender.old };

    /// What a sender does. It keeps its number. Who waits for it may be owed a wake then.
    fn by_sender(
        &mut self,
        topic: TopicId,
        sender: &mut Self::Tx,
        verb: SenderVerb<Value>,
        owed: &mut Self::Owed,
    ) -> Result<TopicReceipt, NoEvent>
        ensures event { let event = Sends (tx sender.old) verb in
            says self.old (On topic.0 event) (replied result) self.new }
        ensures sender { tx sender.new ≡ tx sender.old };

    /// A question through this sender, or through the hub's own where there is none. The sender keeps its number.
    fn ask(
        &mut self,
        topic: TopicId,
        sender: &mut Option<Self::Tx>,
        question: Question,
    ) -> Result<TopicReceipt, NoEvent>
        ensures event { let by = any_sender (option_map tx sender.old) in
            says self.old (On topic.0 (Asks by question)) (replied result) self.new }
        ensures sender { option_map tx sender.new ≡ option_map tx sender.old };

    /// What a receiver does. It keeps its number. Nobody is owed a wake where the verb waits.
    fn by_receiver(
        &mut self,
        topic: TopicId,
        receiver: &mut Self::Rx,
        verb: ReceiverVerb,
        owed: &Self::Owed,
    ) -> Result<TopicReceipt, NoEvent>
        requires paid { waits verb ≡ true → owes owed.now ≡ false }
        ensures event { let event = Receives (rx receiver.old) verb in
            says self.old (On topic.0 event) (replied result) self.new }
        ensures receiver { rx receiver.new ≡ rx receiver.old };

    /// A new receiver for this one, which is spent then: both events, or none. Where the new one is refused, that one
    /// event stands, and this receiver stays.
    fn resubscribe(
        &mut self,
        topic: TopicId,
        receiver: &mut Self::Rx,
    ) -> Result<Made<Self::Rx>, NoEvent>
        ensures event { let event = Resubscribes (rx receiver.old) in
            says self.old (On topic.0 event) (made_rx rx result) self.new }
        ensures receiver { rx receiver.new ≡ rx receiver.old };

    /// The last event of a sender. Where there was none, it comes back.
    fn spend_sender(&mut self, topic: TopicId, sender: Self::Tx) -> Result<(), Unspent<Self::Tx>>
        ensures event { let event = DropsTx (Own (tx sender)) in
            says self.old (On topic.0 event) (spent result) self.new }
        ensures back { IfErr result (λ unspent. tx unspent.handle ≡ tx sender) };

    /// The last event of a receiver. Where there was none, it comes back.
    fn spend_receiver(
        &mut self,
        topic: TopicId,
        receiver: Self::Rx,
    ) -> Result<(), Unspent<Self::Rx>>
        ensures event { says self.old (On topic.0 (DropsRx (rx receiver))) (spent result) self.new }
        ensures back { IfErr result (λ unspent. rx unspent.handle ≡ rx receiver) };

    /// The last event of the hub's own sender.
    fn end(&mut self, topic: TopicId) -> Result<(), NoEvent>
        ensures { says self.old (On topic.0 (DropsTx Hub)) (ended result) self.new };

    /// Hands out the topic's segment so far, and begins the next one. It is no event.
    fn cut(&mut self, topic: TopicId) -> Result<TopicSegment, NoEvent>
        ensures { says self.old (Cut topic.0) result self.new };

    /// Takes back a segment that was handed out and answered: a desk that keeps histories keeps it. It is no event.
    fn give_back(&mut self, topic: TopicId, segment: TopicSegment)
        ensures { self.new ≡ self.old };

    /// A caller's debt before it has done anything here: nobody is owed a wake.
    fn owing_nothing(&self) -> Self::Owed
        ensures { owes result ≡ false };

    /// Wakes who is owed it, and nobody is then. It is no event. Nothing is claimed of waking.
    fn wake(&mut self, owed: &mut Self::Owed)
        ensures desk { self.new ≡ self.old }
        ensures paid { owes owed.new ≡ false };

    /// Lets go of a debt that is paid.
    fn close(owed: Self::Owed)
        requires { owes owed ≡ false };

    /// Whether this receiver's next call by this verb, that waits, would wait now. It is no event, and changes nothing.
    fn would_wait(&self, topic: TopicId, receiver: &Self::Rx, verb: ReceiverVerb) -> bool;

    /// Waits until this receiver's next call by a verb that waits has its answer, but no longer than so: whether it has. It
    /// is no event, and no clause rests on it. The receiver keeps its number. Nobody is owed a wake.
    fn wait(
        &mut self,
        topic: TopicId,
        receiver: &mut Self::Rx,
        longest: Duration,
        owed: &Self::Owed,
    ) -> bool
        requires paid { owes owed.now ≡ false }
        ensures desk { self.new ≡ self.old }
        ensures receiver { rx receiver.new ≡ rx receiver.old };

    /// Sends these values by this sender in a row, from the front of the queue on, and answers how many were sent. Each send is
    /// one event, as `by_sender` makes it, and its receipt is put behind those that the list has. None is refused: what
    /// would be, and what is behind it, is not sent, and `by_sender` tells why. It waits for nothing, and wakes who waits for
    /// them. The sender keeps its number.
    fn send_row(
        &mut self,
        topic: TopicId,
        sender: &mut Self::Tx,
        values: &mut VecDeque<Value>,
        receipts: &mut Vec<(TopicId, TopicReceipt)>,
    ) -> usize
        requires room { vec_len receipts.old + length values.old.items ≤ vec_capacity receipts.old }
        ensures row { MadeInRow says topic.0 (sends_of (tx sender.old) values.old.items)
            receipts.old.items receipts.new.items self.old self.new result }
        ensures sender { tx sender.new ≡ tx sender.old };

    /// What a receiver does so often in a row as it has its answer at once, at most so often, and answers how often. Each is one
    /// event, as `by_receiver` makes it, and its receipt is put behind those that the list has. None is refused: where one
    /// would be, no further one is made, and `by_receiver` tells why. It waits for nothing. The receiver keeps its number.
    fn by_receiver_row(
        &mut self,
        topic: TopicId,
        receiver: &mut Self::Rx,
        verb: ReceiverVerb,
        most: usize,
        receipts: &mut Vec<(TopicId, TopicReceipt)>,
    ) -> usize
        requires room { vec_len receipts.old + most ≤ vec_capacity receipts.old }
        ensures row { MadeInRow says topic.0 (times most (Receives (rx receiver.old) verb))
            receipts.old.items receipts.new.items self.old self.new result }
        ensures receiver { rx receiver.new ≡ rx receiver.old };
}
