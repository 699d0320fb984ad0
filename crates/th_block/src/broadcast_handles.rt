//! Senders and receivers of a broadcast channel.
ghost use Rattle.std.specs.Prelude.{◌≡◌, ◌<◌, ◌↔◌, [], false, true, IfErr, IfOk, IfSome, Ok, OnOk};
ghost use Rattle.th_log.specs.History.{IsLimit};
ghost use Rattle.th_model.specs.Limits.{ClonesAreEqual};
ghost use Rattle.th_log.specs.Replies.{IsReceived, IsTried, broadcast_ends, broadcast_made_rx, broadcast_made_tx, made_by};
ghost use Rattle.th_block.specs.Handles.{Calls, CallsFor, IsFirst, IsFullAsSeen, IsNext, IsNextTold, Tells, call_of, rx, tx};
ghost use Rattle.th_block.specs.Pairs.{IsReplaced};
ghost use Rattle.th_block.specs.Rows.{EachBehind};
ghost use Rattle.th_block.specs.Together.{MakesEach, TakesMany};

use crate::cuts::Cuts;
use crate::handle::{Handle, is_limit, open};
use crate::queued::Values;
use crate::replaced::Replaced;
use crate::shared::Shared;
use crate::side::{Receives, Sends};
use std::alloc::Global;
use std::collections::VecDeque;
use std::sync::{Arc, Wait};
use th_bcast::Broadcast;
use th_log::{MOST_ENTRIES, MakeFault, Receipt, Refused};
use th_model::{BCall, Capacity, RxId, Short, TxId};
use th_ring::RingShelf;

/// The channel under the lock, over the ring.
pub type RingBroadcast<T> = Broadcast<T, RingShelf<T>>;

/// A sender.
pub type BSender<T> = Handle<RingBroadcast<T>, Sends>;

/// A receiver.
pub type BReceiver<T> = Handle<RingBroadcast<T>, Receives>;

/// What became of a receiver that asked to begin anew.
pub type Resub<T> = Replaced<RingBroadcast<T>, Receives>;

/// A channel whose first value stands at `base`, and its first sender; it has no receiver yet. All slots of the ring
/// are made here.
///
/// A segment of its log has at most `limit` entries, 1 to 1,000,000: a channel that nobody cuts (`Shared::cut`) answers
/// `LogFull` from there on. The key is no other channel's.
#[tactic(auto, unfolding(th_model::specs::BroadcastPicture::see, th_model::specs::BroadcastMachine::opened))]
pub fn broadcast_at<T: Clone + Drop>(
    alloc: Global,
    capacity: Capacity,
    base: u64,
    limit: u64,
    key: u64,
) -> Result<BSender<T>, MakeFault>
    requires { ClonesAreEqual T.is_clone }
    ensures handle { IfOk result (IsFirst false key) }
    ensures limit { OnOk result (IsLimit limit 1) }
    ensures bad { IfErr result (λ fault. fault ≡ MakeFault.BadLimit ↔ ¬ (IsLimit limit 1)) }
{
    if !is_limit(limit) {
        return Err(MakeFault::BadLimit);
    }
    match Broadcast::starting_at(alloc, capacity, base) {
        Ok(channel) => open(alloc, channel, limit, key, u64::MAX, None),
        Err(_) => Err(MakeFault::Short),
    }
}

/// A channel whose first value stands at 0, as `broadcast_at` makes it.
pub fn broadcast<T: Clone + Drop>(
    alloc: Global,
    capacity: Capacity,
    limit: u64,
    key: u64,
) -> Result<BSender<T>, MakeFault>
    requires { ClonesAreEqual T.is_clone }
    ensures handle { IfOk result (IsFirst false key) }
    ensures limit { OnOk result (IsLimit limit 1) }
    ensures bad { IfErr result (λ fault. fault ≡ MakeFault.BadLimit ↔ ¬ (IsLimit limit 1)) }
{
    broadcast_at(alloc, capacity, 0, limit, key)
}

/// A channel as `broadcast_at` makes it, that cuts its log by itself: the call that finds `most` entries in it, or no room for its
/// own, cuts it before its event, under the same lock, and puts the part into this queue once the lock is free. Its log has the
/// largest limit, so that it is full only once the channel has had nearly 2^63 events; a call is told `LogFull` only by a handle
/// that has seen that many, and `Short` before. Where memory is refused for a cut, the call that is to make it is `Short`.
///
/// Before calls that are made together the log is cut too where it has no room for all of them, or for 1,024 where they are
/// more, and in their midst only where it has no room for the next one. So up to 1,024 of them that make no handle stand in
/// one part. Where memory is refused they go on in the old one, and only the call for which it has no room is `Short`.
///
/// A cut costs as [`Shared::cut`] does.
///
/// # Errors
///
/// There was no memory.
#[tactic(auto, unfolding(th_model::specs::BroadcastPicture::see, th_model::specs::BroadcastMachine::opened))]
pub fn rolling_broadcast_at<T: Clone + Drop>(
    alloc: Global,
    capacity: Capacity,
    base: u64,
    key: u64,
    most: u64,
    cuts: Arc<Cuts<RingBroadcast<T>>>,
) -> Result<BSender<T>, Short<()>>
    requires { ClonesAreEqual T.is_clone }
    ensures { IfOk result (IsFirst true key) }
{
    let Ok(channel) = Broadcast::starting_at(alloc, capacity, base) else {
        return Err(Short { call: () });
    };
    match open(alloc, channel, MOST_ENTRIES, key, most, Some(cuts)) {
        Ok(sender) => Ok(sender),
        Err(_) => Err(Short { call: () }),
    }
}

impl<T: Clone + Drop> Handle<Broadcast<T, RingShelf<T>>, Sends> {
    /// Sends a value to every live receiver, and wakes those that wait. `Sent` with their number; else the value comes
    /// back in the reply. It costs the same however many receivers there are. The log and the receipt keep a clone of
    /// the value each.
    pub fn send<R: Wait>(
        &mut self,
        rt: &R,
        value: T,
    ) -> Result<Receipt<RingBroadcast<T>>, Refused<BCall<T>>>
        requires { ClonesAreEqual T.is_clone }
        ensures { Calls self.old self.new (BCall.Send (tx self.old) value) result }
    {
        let number = self.number;
        self.call(rt, BCall::Send(TxId(number), value))
    }

    /// Sends the values of this queue from its front on, as `send` does each, in a row and under one lock, and wakes
    /// those that wait once. No value is copied on its way: each is moved out of the queue, and the receipt of its send
    /// put behind those that the list has. Where it is `Ok`, all were sent. Linear in the values; the lock is held all the
    /// while.
    ///
    /// # Errors
    ///
    /// A send was refused, as `send` tells, or there was no memory for its receipt: its value comes back in the call.
    /// Those before it were sent, and their receipts are in the list; those behind it are left in the queue.
    pub fn send_many<R: Wait>(
        &mut self,
        rt: &R,
        values: &mut VecDeque<T>,
        receipts: &mut Vec<Receipt<RingBroadcast<T>>>,
    ) -> Result<(), Refused<BCall<T>>>
        requires { ClonesAreEqual T.is_clone }
        ensures sent { MakesEach (BCall.Send (tx self.old)) self.old self.new
            values.old.items values.new.items receipts.old.items receipts.new.items result }
        ensures all { OnOk result (values.new.items ≡ []) }
        ensures full { IfErr result (IsFullAsSeen self.old.rolls self.old.known) }
    {
        self.each::<Values, R>(rt, values, receipts)
    }

    /// A new receiver, of what is sent from now on.
    pub fn subscribe<R: Wait>(
        &mut self,
        rt: &R,
    ) -> Result<(Receipt<RingBroadcast<T>>, Option<BReceiver<T>>), Refused<BCall<T>>>
        requires { ClonesAreEqual T.is_clone }
        ensures { CallsFor (made_by broadcast_made_tx broadcast_made_rx) self.old self.new
            (BCall.Subscribe (tx self.old)) result }
    {
        let number = self.number;
        self.making(rt, BCall::Subscribe(TxId(number)))
    }

    /// A new receiver, of what is still kept, and then of what is sent from now on. Linear in the kept values.
    pub fn subscribe_oldest<R: Wait>(
        &mut self,
        rt: &R,
    ) -> Result<(Receipt<RingBroadcast<T>>, Option<BReceiver<T>>), Refused<BCall<T>>>
        requires { ClonesAreEqual T.is_clone }
        ensures { CallsFor (made_by broadcast_made_tx broadcast_made_rx) self.old self.new
            (BCall.SubscribeOldest (tx self.old)) result }
    {
        let number = self.number;
        self.making(rt, BCall::SubscribeOldest(TxId(number)))
    }

    /// How many values are kept.
    pub fn queued<R: Wait>(
        &mut self,
        rt: &R,
    ) -> Result<Receipt<RingBroadcast<T>>, Refused<BCall<T>>>
        requires { ClonesAreEqual T.is_clone }
        ensures { Calls self.old self.new (BCall.Queued (tx self.old)) result }
    {
        let number = self.number;
        self.call(rt, BCall::Queued(TxId(number)))
    }

    /// How many receivers are live.
    pub fn readers<R: Wait>(
        &mut self,
        rt: &R,
    ) -> Result<Receipt<RingBroadcast<T>>, Refused<BCall<T>>>
        requires { ClonesAreEqual T.is_clone }
        ensures { Calls self.old self.new (BCall.Readers (tx self.old)) result }
    {
        let number = self.number;
        self.call(rt, BCall::Readers(TxId(number)))
    }
}

impl<T: Clone + Drop> Handle<Broadcast<T, RingShelf<T>>, Receives> {
    /// The next value; or how many were missed, that there is none yet, or that none will come.
    pub fn try_recv<R: Wait>(
        &mut self,
        rt: &R,
    ) -> Result<Receipt<RingBroadcast<T>>, Refused<BCall<T>>>
        requires { ClonesAreEqual T.is_clone }
        ensures calls { Calls self.old self.new (BCall.TryRecv (rx self.old)) result }
        ensures told { IfOk result (λ r. IsTried r.reply) }
    {
        let number = self.number;
        self.call(rt, BCall::TryRecv(RxId(number)))
    }

    /// As `try_recv`, but it waits while there is no value and a sender is left.
    pub fn recv<R: Wait>(&mut self, rt: &R) -> Result<Receipt<RingBroadcast<T>>, Refused<BCall<T>>>
        requires { ClonesAreEqual T.is_clone }
        ensures calls { Calls self.old self.new (BCall.Recv (rx self.old)) result }
        ensures told { IfOk result (λ r. IsReceived r.reply) }
    {
        let number = self.number;
        self.call(rt, BCall::Recv(RxId(number)))
    }

    /// As `recv`, for many values: it waits for the first answer, and then takes those that are there, under one lock, at
    /// most so many. It tells how many. Their receipts are put behind those that the list has. No further one is taken
    /// behind an answer that none will come; where such an answer comes first, it is the only one. A limit of 0 takes
    /// nothing, and returns at once. As Tokio's `mpsc::Receiver::recv_many`.
    ///
    /// It pays where the values are sent in groups as well (`send_many`). Of values that are sent one by one, a receiver
    /// that takes all that are there runs dry, sleeps, and has to be woken for the next.
    ///
    /// # Errors
    ///
    /// The first receive was refused, as `recv` tells, or there was no memory for its receipt; then nothing has changed. A
    /// later one that is refused ends the row, and the next call is told why.
    pub fn recv_many<R: Wait>(
        &mut self,
        rt: &R,
        receipts: &mut Vec<Receipt<RingBroadcast<T>>>,
        limit: usize,
    ) -> Result<usize, Refused<BCall<T>>>
        requires { ClonesAreEqual T.is_clone }
        ensures taken { 0 < limit → TakesMany broadcast_ends self.old self.new
            (BCall.Recv (rx self.old)) limit receipts.old.items receipts.new.items result }
        ensures told { EachBehind (λ r. IsReceived r.reply)
            receipts.old.items receipts.new.items }
        ensures none { limit ≡ 0 → (result ≡ Ok 0) × (self.new ≡ self.old)
            × (receipts.new.items ≡ receipts.old.items) }
    {
        if limit == 0 {
            return Ok(0);
        }
        let number = self.number;
        self.many(rt, BCall::Recv(RxId(number)), limit, receipts)
    }

    /// As `recv`, for a loop: `None` once nothing will come any more, when the receipt of that answer is given up.
    ///
    /// A loop over it has no measure, so that it is written `for _ in rt.forever()`, and left at `None`.
    pub fn next<R: Wait>(
        &mut self,
        rt: &R,
    ) -> Option<Result<Receipt<RingBroadcast<T>>, Refused<BCall<T>>>>
        requires { ClonesAreEqual T.is_clone }
        ensures next { IsNext broadcast_ends self.old self.new (BCall.Recv (rx self.old)) result }
        ensures told { IfSome result (λ told. IfOk told (λ r. IsReceived r.reply)) }
    {
        let number = self.number;
        self.next_call(rt, BCall::Recv(RxId(number)))
    }

    /// As `next`, for a loop whose diary is to be whole: it gives up no receipt, and says of each whether it is the last
    /// one, after which nothing will come any more.
    pub fn next_told<R: Wait>(
        &mut self,
        rt: &R,
    ) -> Result<(Receipt<RingBroadcast<T>>, bool), Refused<BCall<T>>>
        requires { ClonesAreEqual T.is_clone }
        ensures next { IsNextTold broadcast_ends self.old self.new
            (BCall.Recv (rx self.old)) result }
        ensures told { IfOk result (λ r. IsReceived r.0.reply) }
    {
        let number = self.number;
        self.next_call_told(rt, BCall::Recv(RxId(number)))
    }

    /// A new receiver, of what is sent from now on. This one stays as it is.
    pub fn resubscribe<R: Wait>(
        &mut self,
        rt: &R,
    ) -> Result<(Receipt<RingBroadcast<T>>, Option<BReceiver<T>>), Refused<BCall<T>>>
        requires { ClonesAreEqual T.is_clone }
        ensures { CallsFor (made_by broadcast_made_tx broadcast_made_rx) self.old self.new
            (BCall.Resubscribe (rx self.old)) result }
    {
        let number = self.number;
        self.making(rt, BCall::Resubscribe(RxId(number)))
    }

    /// How many values are still to come for this receiver, those that it missed among them.
    pub fn left<R: Wait>(&mut self, rt: &R) -> Result<Receipt<RingBroadcast<T>>, Refused<BCall<T>>>
        requires { ClonesAreEqual T.is_clone }
        ensures { Calls self.old self.new (BCall.Left (rx self.old)) result }
    {
        let number = self.number;
        self.call(rt, BCall::Left(RxId(number)))
    }
}

impl<T: Clone + Drop> Shared<Broadcast<T, RingShelf<T>>> {
    /// A new receiver in the place of an old one, by two events under one lock: the new one receives what is sent from
    /// now on, and the old one is spent, so that its share comes back. Where none is made the old one stays. Its share
    /// counts each of these events. This is to be an owner of the receiver's own channel: one of a channel with another
    /// key is told `Foreign`, and on one that was given the same key the call may wait for ever, since the receiver's eye
    /// is on its own channel's word.
    pub fn pair_resub<R: Wait>(
        &self,
        rt: &R,
        old: BReceiver<T>,
    ) -> Result<(Receipt<RingBroadcast<T>>, Resub<T>), (BReceiver<T>, Refused<BCall<T>>)>
        requires { ClonesAreEqual T.is_clone }
        ensures tells { IfOk result (λ r. Tells old.known (BCall.Resubscribe (rx old)) r.0) }
        ensures replaced { IfOk result (λ r.
            IsReplaced (made_by broadcast_made_tx broadcast_made_rx) self.now.rolls old r.0 r.1) }
        ensures back { IfErr result (λ e.
            (e.0 ≡ old) × (call_of e.1 ≡ BCall.Resubscribe (rx old))) }
        ensures full { IfErr result (λ e. IsFullAsSeen self.now.rolls old.known e.1) }
    {
        let number = old.number;
        self.replace(rt, old, BCall::Resubscribe(RxId(number)))
    }
}
