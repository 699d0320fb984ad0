//! The desk that threads share.

ghost use Rattle.std.specs.Prelude.{◌≡◌, [], false, is_some, not, true, IfErr, IfOk, OnOk};
ghost use Rattle.std.specs.Arc.{arc_value};
ghost use Rattle.th_shared.specs.Ending.{AreInOrder};

use crate::deferred_wake::Owed;
use crate::ended::{Ended, ends, take_topics};
use crate::handles::{TopicReceiver, TopicSender};
use crate::histories::{Histories, divide};
use crate::registry::{ask, bind, end, find, name_of, open, subscribe};
use crate::room::Room;
use crate::rows::Rooms;
use crate::segments::entries_of;
use crate::shared_topics::SharedTopics;
use crate::shares::Shares;
use crate::topic_cache::TopicCache;
use crate::{rows, sending, told};
use std::alloc::Global;
use std::collections::VecDeque;
use std::hash::RandomState;
use std::marker::Model;
use std::mem::replace;
use std::random::RandomSource;
use std::sync::{Arc, Wait};
use std::time::{Clock, Duration};
use th_model::{
    BCall, Listing, Making, Name, NameRef, Question, ReceiverVerb, RxId, SenderVerb, Short, Start,
    Value, WCall,
};
use th_registry::channel::{TopicReceipt, TopicSegment};
use th_registry::{Channel, Desk, Found, Made, NoEvent, Refusal, TopicId, Unspent};
use th_seats::Share;

/// An owner of topics that threads share. Each thread has its own, made by `another`.
///
/// At most 1,024 topics, whose segments have at most 1,000,000 entries. An event by a handle takes its topic's lock, and
/// one by the hub's own sender the lock of the topics too; `list`, `open_topic` and `find` take the latter alone, but that
/// `find` takes none for a topic of which this desk had a handle made. Neither is held while a receiver waits.
///
/// An event of a sender wakes nobody before `wake`, but for those of `send_row`, which wakes once: who waits at its topic is owed
/// one. Events of another topic wake who was owed one before.
#[derive(Drop)]
pub struct SharedDesk<R: Wait + Clone> {
    // By which it waits.
    rt: R,
    hub: Arc<SharedTopics>,
    // Of the handles that were made through this desk.
    shares: Shares,
    // Topics that it finds without their lock.
    cache: TopicCache,
    // Room for the receipts of a row.
    rooms: Rooms,
}

impl<R: Wait + Clone> Model for SharedDesk<R> {
    ghost use Rattle.std.specs.Arc.{arc_value};
    ghost use Rattle.std.specs.Prelude.{is_some};
    ghost use Rattle.th_shared.specs.Saying.{AtHub, coded_at_hub};

    // What other threads do is not seen at it, so contracts see no more of it than its hub, and the shares that it keeps.
    ghost Value = { AtHub };

    ghost coded = { coded_at_hub };

    ghost view = { λ d. record {
      seal = (arc_value d.hub).seal.ptr;
      rolls = is_some (arc_value d.hub).histories;
      keeps = d.shares.keeps;
      spent = d.shares.spent;
    } };
}

impl<R: Wait + Clone> SharedDesk<R> {
    /// The first owner of topics, of which there are none yet, that waits by `rt`. There is as much room for them as memory gives.
    ///
    /// # Errors
    ///
    /// There was no memory, or `rt` gave no random keys to hash the topics' names with.
    pub fn new(rt: R, alloc: Global) -> Result<SharedDesk<R>, Short<()>>
    where
        R: RandomSource,
        ensures rolls { IfOk result (λ desk. desk.rolls ≡ false) }
        ensures keeps { IfOk result (λ desk. (desk.keeps ≡ true) × (desk.spent ≡ [])) }
    {
        SharedDesk::opening(rt, alloc, None, Room::unbounded())
    }

    /// The same of topics that cut their histories by themselves, so that none of them is full before 2^63 - 131,071 events, from
    /// where on no cut helps. The parts go to the queues of these histories, and so does each that a
    /// session was answered as a trace. The desks keep no shares: that of a handle that is spent goes back to its topic, which
    /// keeps all of them as one.
    ///
    /// A topic for which there is no room is refused as for want of memory, and so is a `TRACE`: one needs the room of a history as
    /// long as any may be, and keeps that of its entries until they are told.
    ///
    /// # Errors
    ///
    /// There was no memory, or `rt` gave no random keys to hash the topics' names with.
    pub fn rolling(
        rt: R,
        alloc: Global,
        histories: Histories,
        room: Room,
    ) -> Result<SharedDesk<R>, Short<()>>
    where
        R: RandomSource,
        ensures rolls { IfOk result (λ desk. desk.rolls ≡ true) }
        ensures keeps { IfOk result (λ desk. (desk.keeps ≡ false) × (desk.spent ≡ [])) }
    {
        SharedDesk::opening(rt, alloc, Some(histories), room)
    }

    // The first owner of topics with such histories.
    fn opening(
        rt: R,
        alloc: Global,
        histories: Option<Histories>,
        room: Room,
    ) -> Result<SharedDesk<R>, Short<()>>
    where
        R: RandomSource,
        ensures rolls { IfOk result (λ desk. desk.rolls ≡ is_some histories) }
        ensures keeps { IfOk result (λ desk.
            (desk.keeps ≡ not (is_some histories)) × (desk.spent ≡ [])) }
    {
        let keeps = histories.is_none();
        let Ok(keys) = RandomState::new(&rt) else {
            return Err(Short { call: () });
        };
        match Arc::new(alloc, SharedTopics::new(alloc, histories, keys, room)?) {
            Ok(hub) => Ok(SharedDesk::owning(rt, alloc, hub, keeps)),
            Err(_) => Err(Short { call: () }),
        }
    }

    // An owner of this hub's topics, which has no shares yet.
    fn owning(rt: R, alloc: Global, hub: Arc<SharedTopics>, keeps: bool) -> SharedDesk<R>
        ensures { result ≡ record {
          seal = (arc_value hub).seal.ptr;
          rolls = is_some (arc_value hub).histories;
          keeps = keeps;
          spent = [];
        } }
    {
        SharedDesk {
            rt,
            hub,
            shares: Shares::new(alloc, keeps),
            cache: TopicCache::new(alloc),
            rooms: Rooms::new(alloc),
        }
    }

    /// One more owner of the same topics, for another thread.
    ///
    /// # Errors
    ///
    /// There was no memory.
    pub fn another(&self) -> Result<SharedDesk<R>, Short<()>>
        ensures { IfOk result (λ desk. desk ≡ record self.now { spent = [] }) }
    {
        let Ok(rt) = self.rt.clone() else {
            return Err(Short { call: () });
        };
        match Arc::try_clone(&self.hub) {
            Ok(hub) => {
                let shares = &self.shares;
                Ok(SharedDesk::owning(rt, shares.allocator(), hub, shares.keeps()))
            }
            Err(_) => Err(Short { call: () }),
        }
    }

    /// The histories of its topics, where they cut them by themselves.
    pub fn histories(&self) -> Option<&Histories>
        ensures { is_some result ≡ self.now.rolls }
    {
        self.hub.histories.as_ref()
    }

    /// The name of a topic. It takes the lock of the topics; `None` where there is no such topic, or no memory.
    pub fn name_of(&self, topic: TopicId) -> Option<Name> {
        let topics = self.hub.topics.lock(&self.rt);
        name_of(&*topics, topic).ok()
    }

    /// The shares of the handles that were spent through this desk, if it keeps them, once nothing more is asked at it.
    pub fn into_shares(self) -> Vec<(TopicId, Share)>
        ensures { result.items ≡ self.spent }
    {
        let SharedDesk { shares, .. } = self;
        shares.into_vec()
    }

    /// What is left of each topic, in order of opening, for the last owner; and the shares of the handles that were
    /// spent through this desk, if it keeps them.
    ///
    /// # Errors
    ///
    /// The desk comes back, where another owner is left, or there was no memory for the list.
    pub fn finish(
        mut self,
        alloc: Global,
    ) -> Result<(Vec<Ended>, Vec<(TopicId, Share)>), SharedDesk<R>>
        ensures ends { IfOk result (λ r. AreInOrder 1 r.0.items) }
        ensures shares { IfOk result (λ r. r.1.items ≡ self.spent) }
        ensures back { IfErr result (λ desk. desk ≡ self) }
    {
        let Some((topics, list)) = take_topics(&mut self.hub, alloc) else {
            return Err(self);
        };
        let SharedDesk { rt, shares, .. } = self;
        Ok((ends(&rt, topics, list), shares.into_vec()))
    }
}

impl<R: Wait + Clock + Clone> Desk for SharedDesk<R> {
    ghost use Rattle.std.specs.Option.{option_map};
    ghost use Rattle.std.specs.Prelude.{IfSome, OnErr};
    ghost use Rattle.th_log.specs.Outcome.{counted};
    ghost use Rattle.th_registry.specs.Calls.{waits};
    ghost use Rattle.th_registry.specs.Events.{Asks, Binds, DropsRx, DropsTx, Own, Receives, Resubscribes, Sends, Subscribes, any_sender};
    ghost use Rattle.th_registry.specs.Hub.{On};
    ghost use Rattle.th_registry.specs.Typed.{made_rx, made_tx, replied, spent};
    ghost use Rattle.th_shared.specs.Doing.{Does, IsNewHandle, IsNewReceiver, OwnDoes, ReceiverDoes, ReceiverLeaves, TellsFullWith};
    ghost use Rattle.th_shared.specs.InRow.{ReceivesInRow, SendsInRow};
    ghost use Rattle.th_shared.specs.Kept.{spent_by_receiver, spent_with, with_spent};
    ghost use Rattle.std.specs.Prelude.{◌+◌, ◌++◌, ◌≤◌, List, length, vec_capacity, vec_len};
    ghost use Rattle.th_registry.specs.Receipts.{ChannelReceipt};
    ghost use Rattle.th_registry.specs.Rows.{MadeInRow, on_topic, sends_of, times};
    ghost use Rattle.th_shared.specs.Numbers.{known_of, receiver as rx_of, rolls_by, rolls_with, sender as tx_of};
    ghost use Rattle.th_shared.specs.Saying.{Says};

    type Tx = TopicSender;

    type Rx = TopicReceiver;

    type Owed = Owed;

    ghost owes = { λ owed. owed };

    ghost tx = { tx_of };

    ghost rx = { rx_of };

    ghost says = { Says };

    fn find(&self, name: &NameRef<'_>) -> Option<Found> {
        match self.cache.find(name) {
            Some(found) => Some(found),
            None => {
                let topics = self.hub.topics.lock(&self.rt);
                find(&*topics, name)
            }
        }
    }

    fn list(&self) -> Result<Listing, Short<()>> {
        let topics = self.hub.topics.lock(&self.rt);
        topics.list()
    }

    fn open_topic(&mut self, name: NameRef<'_>, making: Making) -> Result<u64, Refusal> {
        let Some(mut topics) = self.hub.lock(&self.rt) else {
            return Err(Refusal::Exists);
        };
        let histories = self.hub.histories.as_ref();
        let told = open(&mut *topics, histories, &name, making);
        if let Some(histories) = histories {
            if told.is_ok() {
                divide(&self.rt, &*topics, histories);
            }
        }
        told
    }

    fn bind(&mut self, topic: TopicId) -> Result<Made<TopicSender>, NoEvent>
        ensures event { Says self.old (On topic.0 Binds) (made_tx tx_of result) self.new }
        ensures new { IfOk result (λ made. IfSome made.handle
            (IsNewHandle topic.0 self.old.rolls made.receipt)) }
    {
        let SharedDesk {
            ref rt,
            ref hub,
            ref mut shares,
            ref mut cache,
            ..
        } = *self;
        let Some(mut topics) = hub.lock(rt) else {
            return Err(NoEvent::NoTopic);
        };
        cache.add(&*topics, topic);
        let made = bind(rt, &mut *topics, topic, shares);
        shares.count(&made);
        made
    }

    fn subscribe(
        &mut self,
        topic: TopicId,
        start: Start,
        sender: &mut Option<TopicSender>,
    ) -> Result<Made<TopicReceiver>, NoEvent>
        ensures event { let by = any_sender (option_map tx_of sender.old) in
            Says self.old (On topic.0 (Subscribes start by)) (made_rx rx_of result) self.new }
        ensures sender { option_map tx_of sender.new ≡ option_map tx_of sender.old }
        ensures does { let by = any_sender (option_map tx_of sender.old) in
            OwnDoes topic.0 (Subscribes start by) sender.old sender.new (made_rx rx_of result) }
        ensures new { IfOk result (λ made. IfSome made.handle
            (IsNewReceiver topic.0 (rolls_by self.old.rolls sender.old) made.receipt)) }
    {
        let SharedDesk {
            ref rt,
            ref hub,
            ref mut shares,
            ref mut cache,
            ..
        } = *self;
        let made = match sender {
            Some(sender) => told::subscribe(rt, topic, start, sender, shares),
            None => {
                let Some(mut topics) = hub.lock(rt) else {
                    return Err(NoEvent::NoTopic);
                };
                cache.add(&*topics, topic);
                subscribe(rt, &mut *topics, topic, start, shares)
            }
        };
        shares.count(&made);
        made
    }

    #[inline(always)]
    fn by_sender(
        &mut self,
        topic: TopicId,
        sender: &mut TopicSender,
        verb: SenderVerb<Value>,
        owed: &mut Owed,
    ) -> Result<TopicReceipt, NoEvent>
        ensures event { let event = Sends (tx_of sender.old) verb in
            Says self.old (On topic.0 event) (replied result) self.new }
        ensures sender { tx_of sender.new ≡ tx_of sender.old }
        ensures does { let event = Sends (tx_of sender.old) verb in
            Does topic.0 event sender.old sender.new (replied result) }
        ensures owed { OnOk result (owed.new ≡ true) }
    {
        sending::send(&self.rt, topic, sender, verb, owed)
    }

    fn ask(
        &mut self,
        topic: TopicId,
        sender: &mut Option<TopicSender>,
        question: Question,
    ) -> Result<TopicReceipt, NoEvent>
        ensures event { let by = any_sender (option_map tx_of sender.old) in
            Says self.old (On topic.0 (Asks by question)) (replied result) self.new }
        ensures sender { option_map tx_of sender.new ≡ option_map tx_of sender.old }
        ensures does { let by = any_sender (option_map tx_of sender.old) in
            OwnDoes topic.0 (Asks by question) sender.old sender.new (replied result) }
    {
        let SharedDesk {
            ref rt,
            ref hub,
            ..
        } = *self;
        match sender {
            Some(sender) => told::ask(rt, topic, sender, question),
            None => {
                let mut topics = hub.topics.lock(rt);
                ask(rt, &mut *topics, topic, question)
            }
        }
    }

    #[inline(always)]
    fn by_receiver(
        &mut self,
        topic: TopicId,
        receiver: &mut TopicReceiver,
        verb: ReceiverVerb,
        _owed: &Owed,
    ) -> Result<TopicReceipt, NoEvent>
        requires paid { waits verb ≡ true → _owed.now ≡ false }
        ensures event { let event = Receives (rx_of receiver.old) verb in
            Says self.old (On topic.0 event) (replied result) self.new }
        ensures receiver { rx_of receiver.new ≡ rx_of receiver.old }
        ensures does { let event = Receives (rx_of receiver.old) verb in
            ReceiverDoes topic.0 event receiver.old receiver.new (replied result) }
    {
        match receiver {
            TopicReceiver::Live(receiver) => told::receive(&self.rt, topic, receiver, verb),
            TopicReceiver::Spent(_) => Err(NoEvent::NotLive),
        }
    }

    fn resubscribe(
        &mut self,
        topic: TopicId,
        receiver: &mut TopicReceiver,
    ) -> Result<Made<TopicReceiver>, NoEvent>
        ensures event { let event = Resubscribes (rx_of receiver.old) in
            Says self.old (On topic.0 event) (made_rx rx_of result) self.new }
        ensures receiver { rx_of receiver.new ≡ rx_of receiver.old }
        ensures does { ReceiverLeaves receiver.old receiver.new (made_rx rx_of result).1 }
        ensures new { IfOk result (λ made. IfSome made.handle
            (IsNewReceiver topic.0 (rolls_with receiver.old) made.receipt)) }
        ensures full { IfErr result (TellsFullWith receiver.old) }
        ensures kept { self.new.spent ≡ spent_by_receiver self.old.keeps self.old.spent topic
            receiver.old receiver.new }
    {
        let SharedDesk {
            rt,
            hub,
            shares,
            ..
        } = self;
        let (after, said) = match replace(receiver, TopicReceiver::Spent(0)) {
            TopicReceiver::Live(old) => shares.resubscribe(rt, topic, old),
            TopicReceiver::Spent(number) => (TopicReceiver::Spent(number), Err(NoEvent::NotLive)),
        };
        *receiver = after;
        said
    }

    fn spend_sender(
        &mut self,
        topic: TopicId,
        sender: TopicSender,
    ) -> Result<(), Unspent<TopicSender>>
        ensures event { let event = DropsTx (Own (tx_of sender)) in
            Says self.old (On topic.0 event) (spent result) self.new }
        ensures back { IfErr result (λ unspent. tx_of unspent.handle ≡ tx_of sender) }
        ensures same { IfErr result (λ unspent. unspent.handle ≡ sender) }
        ensures kept { OnOk result (self.new.spent ≡ with_spent self.old.keeps self.old.spent topic
            (counted (known_of sender).share)) }
        ensures stays { OnErr result (self.new.spent ≡ self.old.spent) }
    {
        let SharedDesk { rt, shares, .. } = self;
        let home = match shares.home(&sender) {
            Ok(home) => home,
            Err(why) => {
                return Err(Unspent {
                    handle: sender,
                    why,
                });
            }
        };
        match told::end_sender(rt, topic, sender) {
            Ok(share) => {
                shares.keep(rt, topic, share, home);
                shares.count_spent();
                Ok(())
            }
            Err(unspent) => Err(unspent),
        }
    }

    fn spend_receiver(
        &mut self,
        topic: TopicId,
        receiver: TopicReceiver,
    ) -> Result<(), Unspent<TopicReceiver>>
        ensures event { let event = DropsRx (rx_of receiver) in
            Says self.old (On topic.0 event) (spent result) self.new }
        ensures back { IfErr result (λ unspent. rx_of unspent.handle ≡ rx_of receiver) }
        ensures same { IfErr result (λ unspent. unspent.handle ≡ receiver) }
        ensures kept { OnOk result (self.new.spent
            ≡ spent_with self.old.keeps self.old.spent topic receiver) }
        ensures stays { OnErr result (self.new.spent ≡ self.old.spent) }
    {
        let SharedDesk { rt, shares, .. } = self;
        match receiver {
            TopicReceiver::Live(receiver) => {
                let home = match shares.home(&receiver) {
                    Ok(home) => home,
                    Err(why) => {
                        return Err(Unspent {
                            handle: TopicReceiver::Live(receiver),
                            why,
                        });
                    }
                };
                match told::end_receiver(rt, topic, receiver) {
                    Ok(share) => {
                        shares.keep(rt, topic, share, home);
                        shares.count_spent();
                        Ok(())
                    }
                    Err(unspent) => Err(unspent),
                }
            }
            TopicReceiver::Spent(number) => Err(Unspent {
                handle: TopicReceiver::Spent(number),
                why: NoEvent::NotLive,
            }),
        }
    }

    fn end(&mut self, topic: TopicId) -> Result<(), NoEvent> {
        let mut topics = self.hub.topics.lock(&self.rt);
        end(&self.rt, &mut *topics, topic)
    }

    fn cut(&mut self, topic: TopicId) -> Result<TopicSegment, NoEvent> {
        self.hub.cut(&self.rt, topic)
    }

    fn give_back(&mut self, _topic: TopicId, segment: TopicSegment) {
        self.hub.end_telling(&self.rt, entries_of(&segment));
        if let Some(histories) = &self.hub.histories {
            histories.put(&self.rt, segment);
        }
    }

    fn owing_nothing(&self) -> Owed {
        Owed::nothing()
    }

    fn wake(&mut self, owed: &mut Owed) {
        owed.pay(&self.rt);
    }

    fn close(owed: Owed) {
        owed.close();
    }

    fn would_wait(&self, _topic: TopicId, receiver: &TopicReceiver, verb: ReceiverVerb) -> bool {
        match receiver {
            TopicReceiver::Live(Channel::Broadcast(receiver)) => {
                rows::would_wait(&self.rt, receiver, verb)
            }
            TopicReceiver::Live(Channel::Watch(reader)) => rows::would_wait(&self.rt, reader, verb),
            TopicReceiver::Spent(_) => false,
        }
    }

    fn wait(
        &mut self,
        _topic: TopicId,
        receiver: &mut TopicReceiver,
        longest: Duration,
        _owed: &Owed,
    ) -> bool
        requires paid { _owed.now ≡ false }
        ensures desk { self.new ≡ self.old }
        ensures receiver { rx_of receiver.new ≡ rx_of receiver.old }
        ensures same { receiver.new ≡ receiver.old }
    {
        let SharedDesk { rt, .. } = self;
        match receiver {
            TopicReceiver::Live(Channel::Broadcast(receiver)) => {
                receiver.wait_for(rt, &BCall::Recv(RxId(receiver.number())), longest)
            },
            TopicReceiver::Live(Channel::Watch(reader)) => {
                reader.wait_for(rt, &WCall::Changed(RxId(reader.number())), longest)
            }
            TopicReceiver::Spent(_) => true,
        }
    }

    fn send_row(
        &mut self,
        topic: TopicId,
        sender: &mut TopicSender,
        values: &mut VecDeque<Value>,
        receipts: &mut Vec<(TopicId, TopicReceipt)>,
    ) -> usize
        requires room { vec_len receipts.old + length values.old.items ≤ vec_capacity receipts.old }
        ensures row { MadeInRow Says topic.0 (sends_of (tx_of sender.old) values.old.items)
            receipts.old.items receipts.new.items self.old self.new result }
        ensures sender { tx_of sender.new ≡ tx_of sender.old }
        ensures does { (told : List ChannelReceipt)
            × SendsInRow topic.0 values.old.items sender.old sender.new told
            × (receipts.new.items ≡ receipts.old.items ++ on_topic topic.0 told) }
    {
        let SharedDesk { rt, rooms, .. } = self;
        rows::send_row(rt, topic, sender, values, rooms, receipts)
    }

    fn by_receiver_row(
        &mut self,
        topic: TopicId,
        receiver: &mut TopicReceiver,
        verb: ReceiverVerb,
        most: usize,
        receipts: &mut Vec<(TopicId, TopicReceipt)>,
    ) -> usize
        requires room { vec_len receipts.old + most ≤ vec_capacity receipts.old }
        ensures row { MadeInRow Says topic.0 (times most (Receives (rx_of receiver.old) verb))
            receipts.old.items receipts.new.items self.old self.new result }
        ensures receiver { rx_of receiver.new ≡ rx_of receiver.old }
        ensures does { (told : List ChannelReceipt)
            × ReceivesInRow topic.0 verb most receiver.old receiver.new told
            × (receipts.new.items ≡ receipts.old.items ++ on_topic topic.0 told) }
    {
        let SharedDesk { rt, rooms, .. } = self;
        rows::receive_row(rt, topic, receiver, verb, most, rooms, receipts)
    }
}
