//! The broadcast channel.
ghost use Rattle.std.specs.Prelude.{◌≡◌, ◌↔◌, length, IsOk, IfOk, IfErr, OnErr, IsTrue, false};
ghost use Rattle.th_model.specs.Limits.{ClonesAreEqual};
ghost use Rattle.th_model.specs.Handles.{is_full};
ghost use Rattle.th_model.specs.Window.{IsFull};
ghost use Rattle.th_model.specs.BroadcastMachine.{opened, paired};
ghost use Rattle.th_model.specs.BroadcastPicture.{answer, is_ready, subscribe, subscribe_oldest, see, Meets, IsSound, IsRefused, WouldWait, TakesMemory, TakesNoMemory, IsLastToCome, TakesNoneIfSure};
ghost use Rattle.th_model.specs.declared.broadcast.BCall.TheVariants.{Send, TryRecv, Recv, Subscribe, SubscribeOldest, Resubscribe, CloneTx, DropTx, DropRx, Queued, Left, Readers};

use crate::told::told;
use std::alloc::Global;
use std::collections::BTreeSet;
use std::marker::{Model, PhantomData};
use th_model::{BCall, BReply, Capacity, MOST_HANDLES, RxId, Short, TxId};
use th_shelf::Shelf;

/// A broadcast channel over a shelf, seen as its picture: the window of kept values, the place of
/// each live receiver, the live senders, and the next handle number.
///
/// Every call first looks its handle up; a number that is not live on its side is answered
/// `NoHandle`. Beside what the shelf spends, a call is at most logarithmic in live senders, and
/// only `clone_tx` takes memory. A call that is refused memory is `Short`: the call comes back, and
/// nothing has changed. So only that can be answered for which memory is asked: a value that is
/// sent or read, and a new handle.
#[derive(Drop)]
pub struct Broadcast<T: Clone, S: Shelf<T>> {
    // The kept values, and the place of each live receiver.
    pub(crate) shelf: S,
    // The numbers of the live senders. A number that is taken out never comes in again.
    pub(crate) senders: BTreeSet<u64>,
    // The next handle number, above all that were given out. Each new handle adds one.
    pub(crate) next: u64,
    // The type of the values, which the shelf holds.
    pub(crate) of: PhantomData<T>,
}

impl<T: Clone, S: Shelf<T>> Model for Broadcast<T, S> {
    ghost use Rattle.th_model.specs.BroadcastPicture.{Picture, IsSound, picture_of};

    ghost Value = { Picture T };

    ghost view = { λ a. picture_of (S.window a.shelf) a.senders.keys a.next };

    ghost invariant = { λ a. IsSound (picture_of (S.window a.shelf) a.senders.keys a.next) };
}

impl<T: Clone, S: Shelf<T> + Drop> Broadcast<T, S> {
    /// A channel with sender 1 and no receiver, whose first value stands at `base`. At `base` 2^64
    /// - 1 no value can be sent.
    pub fn starting_at(alloc: Global, capacity: Capacity, base: u64) -> Result<Self, Short<()>>
        ensures { IfOk result (λ channel. channel ≡ see (opened capacity base)) }
    {
        // What a capacity always is, which the channel's invariant needs.
        let _ = capacity.in_force();
        let shelf = S::new(alloc, capacity, base)?;
        let mut senders = BTreeSet::new(alloc);
        let Ok(_) = senders.insert(1) else {
            return Err(Short { call: () });
        };
        Ok(Broadcast {
            shelf,
            senders,
            next: 2,
            of: PhantomData,
        })
    }

    /// A channel with sender 1 and no receiver, whose first value stands at 0.
    pub fn new(alloc: Global, capacity: Capacity) -> Result<Self, Short<()>>
        ensures { IfOk result (λ channel. channel ≡ see (opened capacity 0)) }
    {
        Self::starting_at(alloc, capacity, 0)
    }

    /// A channel with sender 1 and receiver 2, whose first value stands at 0.
    pub fn channel(alloc: Global, capacity: Capacity) -> Result<Self, Short<()>>
        ensures { IfOk result (λ channel. channel ≡ see (paired capacity)) }
    {
        let mut channel = Self::new(alloc, capacity)?;
        match channel.add_receiver() {
            Ok(_) => Ok(channel),
            Err(short) => Err(short),
        }
    }

    /// Whether a call has its answer now: false exactly for a `Recv` that would be answered
    /// `Empty`.
    #[inline(always)]
    pub fn ready(&self, call: &BCall<T>) -> bool
        ensures ready { result ≡ is_ready self.now call.now }
        ensures waits { (result ≡ false) ↔ WouldWait self.now call.now }
        ensures sound { IsSound self.now }
    {
        match call {
            BCall::Recv(rx) => match self.shelf.place(*rx) {
                Some(place) => place != self.shelf.tail() || self.senders.len() == 0,
                None => true,
            },
            _ => true,
        }
    }

    /// Sends a value to every live receiver: `Sent` with their number. Without receivers
    /// `NoReceivers`, and after the last position, 2^64 - 2, `Exhausted`; the value comes back with
    /// either, and nothing changes.
    #[inline(always)]
    pub fn send(&mut self, tx: TxId, value: T) -> Result<BReply<T>, Short<BCall<T>>>
        ensures step { IfOk result (λ reply. answer self.old (Send tx value) ≡ (reply, self.new)) }
        ensures short { IfErr result (λ short.
            IsRefused self.old (Send tx value) short.call self.new) }
        ensures full { IsFull self.old.window → IsOk result }
        ensures always { IsTrue S.sure → IsOk result }
    {
        if !self.senders.contains(&tx.0) {
            return Ok(BReply::NoHandle(Some(value)));
        }
        let readers = self.shelf.readers();
        if readers == 0 {
            return Ok(BReply::NoReceivers(value));
        }
        if self.shelf.tail() == u64::MAX {
            return Ok(BReply::Exhausted(value));
        }
        match self.shelf.push(value) {
            Ok(()) => Ok(BReply::Sent(readers)),
            Err(value) => Err(Short {
                call: BCall::Send(tx, value),
            }),
        }
    }

    // Both receives.
    #[inline(always)]
    fn receive(&mut self, rx: RxId) -> Result<BReply<T>, Short<RxId>>
        requires { ClonesAreEqual T.is_clone }
        ensures step { IfOk result (λ reply. answer self.old (TryRecv rx) ≡ (reply, self.new)) }
        ensures short { OnErr result (self.new ≡ self.old) }
        ensures asked { OnErr result (TakesMemory (answer self.old (TryRecv rx)).0) }
        ensures always { IsTrue S.sure → IsLastToCome self.old rx.0 → IsOk result }
    {
        let Ok(found) = self.shelf.receive(rx) else {
            return Err(Short { call: rx });
        };
        Ok(told(found, self.senders.is_empty()))
    }

    /// What `try_recv` and `recv` would answer, twice: a value stands in the second reply as a copy. It
    /// is for whoever notes each reply. The receiver's place is found once.
    #[inline(always)]
    pub fn receive_twice(&mut self, rx: RxId) -> Result<(BReply<T>, BReply<T>), Short<RxId>>
        requires { ClonesAreEqual T.is_clone }
        ensures step { IfOk result (λ r. answer self.old (TryRecv rx) ≡ (r.0, self.new)) }
        ensures waited { IfOk result (λ r. answer self.old (Recv rx) ≡ (r.0, self.new)) }
        ensures again { IfOk result (λ r. r.1 ≡ r.0) }
        ensures short { IfErr result (λ short. (short.call ≡ rx) × (self.new ≡ self.old)) }
    {
        let Ok((found, copy)) = self.shelf.receive_with_copy(rx, true) else {
            return Err(Short { call: rx });
        };
        let closed = self.senders.is_empty();
        let again = found.again(copy);
        Ok((told(found, closed), told(again, closed)))
    }

    /// The next value, in the order sent. A receiver that is behind the window is told `Lagged`
    /// with the number of values that it missed, and goes on at the oldest of the window. With
    /// nothing to come it is `Empty`, or `Closed` where no sender is left.
    #[inline(always)]
    pub fn try_recv(&mut self, rx: RxId) -> Result<BReply<T>, Short<BCall<T>>>
        requires { ClonesAreEqual T.is_clone }
        ensures step { IfOk result (λ reply. answer self.old (TryRecv rx) ≡ (reply, self.new)) }
        ensures short { IfErr result (λ short.
            IsRefused self.old (TryRecv rx) short.call self.new) }
        ensures always { IsTrue S.sure → IsLastToCome self.old rx.0 → IsOk result }
    {
        match self.receive(rx) {
            Ok(reply) => Ok(reply),
            Err(_) => Err(Short {
                call: BCall::TryRecv(rx),
            }),
        }
    }

    /// As `try_recv`. A caller that waits makes the call once it is `ready`.
    #[inline(always)]
    pub fn recv(&mut self, rx: RxId) -> Result<BReply<T>, Short<BCall<T>>>
        requires { ClonesAreEqual T.is_clone }
        ensures step { IfOk result (λ reply. answer self.old (Recv rx) ≡ (reply, self.new)) }
        ensures short { IfErr result (λ short. IsRefused self.old (Recv rx) short.call self.new) }
        ensures always { IsTrue S.sure → IsLastToCome self.old rx.0 → IsOk result }
    {
        match self.receive(rx) {
            Ok(reply) => Ok(reply),
            Err(_) => Err(Short {
                call: BCall::Recv(rx),
            }),
        }
    }

    // No further receiver can be made.
    fn has_all_receivers(&self) -> bool
        ensures { result ≡ is_full (length self.now.window.places) self.now.next }
    {
        self.shelf.readers() >= MOST_HANDLES as u64 || self.next == u64::MAX
    }

    // A new receiver at the tail.
    fn add_receiver(&mut self) -> Result<BReply<T>, Short<()>>
        ensures step { IfOk result (λ reply. subscribe self.old ≡ (reply, self.new)) }
        ensures short { OnErr result (self.new ≡ self.old) }
        ensures asked { OnErr result (TakesMemory (subscribe self.old).0) }
    {
        if self.has_all_receivers() {
            return Ok(BReply::TooMany);
        }
        let rx = RxId(self.next);
        let Ok(()) = self.shelf.join(rx) else {
            return Err(Short { call: () });
        };
        self.next += 1;
        Ok(BReply::NewRx(rx))
    }

    // A new receiver at the least kept position.
    fn add_oldest_receiver(&mut self) -> Result<BReply<T>, Short<()>>
        ensures step { IfOk result (λ reply. subscribe_oldest self.old ≡ (reply, self.new)) }
        ensures short { OnErr result (self.new ≡ self.old) }
        ensures asked { OnErr result (TakesMemory (subscribe_oldest self.old).0) }
    {
        if self.has_all_receivers() {
            return Ok(BReply::TooMany);
        }
        let oldest = RxId(self.next);
        let Ok(()) = self.shelf.join_oldest(oldest) else {
            return Err(Short { call: () });
        };
        self.next += 1;
        Ok(BReply::NewRx(oldest))
    }

    /// A new receiver, of what is sent from now on: `NewRx` with its number. `TooMany` at 65,535
    /// live receivers, and once no number is left.
    pub fn subscribe(&mut self, tx: TxId) -> Result<BReply<T>, Short<BCall<T>>>
        ensures step { IfOk result (λ reply. answer self.old (Subscribe tx) ≡ (reply, self.new)) }
        ensures short { IfErr result (λ short.
            IsRefused self.old (Subscribe tx) short.call self.new) }
    {
        if !self.senders.contains(&tx.0) {
            return Ok(BReply::NoHandle(None));
        }
        match self.add_receiver() {
            Ok(reply) => Ok(reply),
            Err(_) => Err(Short {
                call: BCall::Subscribe(tx),
            }),
        }
    }

    /// As `subscribe`, for a receiver that first gets what is still kept, from the oldest value on.
    pub fn subscribe_oldest(&mut self, tx: TxId) -> Result<BReply<T>, Short<BCall<T>>>
        ensures step { IfOk result (λ reply.
            answer self.old (SubscribeOldest tx) ≡ (reply, self.new)) }
        ensures short { IfErr result (λ short.
            IsRefused self.old (SubscribeOldest tx) short.call self.new) }
    {
        if !self.senders.contains(&tx.0) {
            return Ok(BReply::NoHandle(None));
        }
        match self.add_oldest_receiver() {
            Ok(reply) => Ok(reply),
            Err(_) => Err(Short {
                call: BCall::SubscribeOldest(tx),
            }),
        }
    }

    /// As `subscribe`, asked for by a receiver, which stays as it is.
    pub fn resubscribe(&mut self, rx: RxId) -> Result<BReply<T>, Short<BCall<T>>>
        ensures step { IfOk result (λ reply. answer self.old (Resubscribe rx) ≡ (reply, self.new)) }
        ensures short { IfErr result (λ short.
            IsRefused self.old (Resubscribe rx) short.call self.new) }
    {
        let Some(_) = self.shelf.place(rx) else {
            return Ok(BReply::NoHandle(None));
        };
        let Ok(reply) = self.add_receiver() else {
            return Err(Short {
                call: BCall::Resubscribe(rx),
            });
        };
        Ok(reply)
    }

    /// A new sender: `NewTx` with its number. `TooMany` at 65,535 live senders, and once no number
    /// is left.
    pub fn clone_tx(&mut self, tx: TxId) -> Result<BReply<T>, Short<BCall<T>>>
        ensures step { IfOk result (λ reply. answer self.old (CloneTx tx) ≡ (reply, self.new)) }
        ensures short { IfErr result (λ short.
            IsRefused self.old (CloneTx tx) short.call self.new) }
    {
        if !self.senders.contains(&tx.0) {
            return Ok(BReply::NoHandle(None));
        }
        if self.senders.len() >= MOST_HANDLES || self.next == u64::MAX {
            return Ok(BReply::TooMany);
        }
        let new = self.next;
        let Ok(_) = self.senders.insert(new) else {
            return Err(Short {
                call: BCall::CloneTx(tx),
            });
        };
        self.next += 1;
        Ok(BReply::NewTx(TxId(new)))
    }

    /// Spends a sender: `Done`. Takes no memory.
    pub fn drop_tx(&mut self, tx: TxId) -> BReply<T>
        ensures { answer self.old (DropTx tx) ≡ (result, self.new) }
    {
        if !self.senders.contains(&tx.0) {
            return BReply::NoHandle(None);
        }
        self.senders.remove(&tx.0);
        BReply::Done
    }

    /// Spends a receiver: `Done`. The values that only it had still to read are let go. Takes no
    /// memory.
    pub fn drop_rx(&mut self, rx: RxId) -> BReply<T>
        ensures { answer self.old (DropRx rx) ≡ (result, self.new) }
    {
        if self.shelf.place(rx).is_none() {
            return BReply::NoHandle(None);
        }
        self.shelf.leave(rx);
        BReply::Done
    }

    /// How many values are kept, as a `Count`.
    pub fn queued(&self, tx: TxId) -> BReply<T>
        ensures { answer self.now (Queued tx) ≡ (result, self.now) }
    {
        if !self.senders.contains(&tx.0) {
            return BReply::NoHandle(None);
        }
        BReply::Count(self.shelf.tail() - self.shelf.low())
    }

    /// How many values the receiver has still to come, those it missed among them, as a `Count`.
    pub fn left(&self, rx: RxId) -> BReply<T>
        ensures { answer self.now (Left rx) ≡ (result, self.now) }
    {
        match self.shelf.place(rx) {
            None => BReply::NoHandle(None),
            Some(place) => BReply::Count(self.shelf.tail() - place),
        }
    }

    /// How many receivers are live, as a `Count`.
    pub fn readers(&self, tx: TxId) -> BReply<T>
        ensures { answer self.now (Readers tx) ≡ (result, self.now) }
    {
        if !self.senders.contains(&tx.0) {
            return BReply::NoHandle(None);
        }
        BReply::Count(self.shelf.readers())
    }

    // One call, by the picture alone.
    #[inline(always)]
    fn answer(&mut self, call: BCall<T>) -> Result<BReply<T>, Short<BCall<T>>>
        requires { ClonesAreEqual T.is_clone }
        ensures step { IfOk result (λ reply. answer self.old call ≡ (reply, self.new)) }
        ensures short { IfErr result (λ short. IsRefused self.old call short.call self.new) }
        ensures always { TakesNoMemory call → IsOk result }
        ensures sure { IsTrue S.sure → TakesNoneIfSure self.old call → IsOk result }
    {
        match call {
            BCall::Send(tx, value) => self.send(tx, value),
            BCall::TryRecv(rx) => self.try_recv(rx),
            BCall::Recv(rx) => self.recv(rx),
            BCall::Subscribe(tx) => self.subscribe(tx),
            BCall::SubscribeOldest(tx) => self.subscribe_oldest(tx),
            BCall::Resubscribe(rx) => self.resubscribe(rx),
            BCall::CloneTx(tx) => self.clone_tx(tx),
            BCall::DropTx(tx) => Ok(self.drop_tx(tx)),
            BCall::DropRx(rx) => Ok(self.drop_rx(rx)),
            BCall::Queued(tx) => Ok(self.queued(tx)),
            BCall::Left(rx) => Ok(self.left(rx)),
            BCall::Readers(tx) => Ok(self.readers(tx)),
        }
    }

    /// One call. Of every proper endless state that looks like the channel, the reply is the
    /// machine's reply, and the channel then looks like the state after the machine's step. Drops
    /// and counts are always answered; so are, over a shelf that is sure, a send, and a receive by
    /// the last receiver to come.
    #[inline(always)]
    pub fn apply(&mut self, call: BCall<T>) -> Result<BReply<T>, Short<BCall<T>>>
        requires { ClonesAreEqual T.is_clone }
        ensures meets { IfOk result (λ reply. Meets self.old call reply self.new) }
        ensures step { IfOk result (λ reply. answer self.old call ≡ (reply, self.new)) }
        ensures short { IfErr result (λ short. IsRefused self.old call short.call self.new) }
        ensures always { TakesNoMemory call → IsOk result }
        ensures sure { IsTrue S.sure → TakesNoneIfSure self.old call → IsOk result }
    {
        self.answer(call)
    }
}
