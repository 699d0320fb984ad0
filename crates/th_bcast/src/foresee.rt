//! The reply that a call would be given, so that it can be noted before the call is made.
ghost use Rattle.std.specs.Prelude.{◌≡◌, IfOk, IsOk};
ghost use Rattle.th_model.specs.Limits.{ClonesAreEqual};
ghost use Rattle.th_model.specs.Handles.{is_full};
ghost use Rattle.th_model.specs.BroadcastPicture.{answer, TakesNoMemory};
ghost use Rattle.th_model.specs.declared.broadcast.BCall.TheVariants.{TryRecv, Send, Subscribe, SubscribeOldest, Resubscribe, CloneTx, DropTx, DropRx};

use crate::broadcast::Broadcast;
use std::alloc::AllocError;
use th_model::{BCall, BReply, MOST_HANDLES, RxId, Short, TxId};
use th_shelf::Shelf;

impl<T: Clone, S: Shelf<T> + Drop> Broadcast<T, S> {
    // A send's reply, which hands a copy of the value back where nothing is sent.
    #[inline(always)]
    fn foresee_send(&self, tx: TxId, value: &T) -> Result<BReply<T>, AllocError>
        requires { ClonesAreEqual T.is_clone }
        ensures { IfOk result (λ reply. reply ≡ (answer self.now (Send tx value.now)).0) }
    {
        if !self.senders.contains(&tx.0) {
            return Ok(BReply::NoHandle(Some(value.clone()?)));
        }
        let readers = self.shelf.readers();
        if readers == 0 {
            return Ok(BReply::NoReceivers(value.clone()?));
        }
        if self.shelf.tail() == u64::MAX {
            return Ok(BReply::Exhausted(value.clone()?));
        }
        Ok(BReply::Sent(readers))
    }

    // The reply to both receives, with a copy of the value.
    #[inline(always)]
    fn foresee_receive(&self, rx: RxId) -> Result<BReply<T>, AllocError>
        requires { ClonesAreEqual T.is_clone }
        ensures { IfOk result (λ reply. reply ≡ (answer self.now (TryRecv rx)).0) }
    {
        let Some(place) = self.shelf.place(rx) else {
            return Ok(BReply::NoHandle(None));
        };
        let tail = self.shelf.tail();
        if place == tail {
            if self.senders.len() == 0 {
                return Ok(BReply::Closed);
            }
            return Ok(BReply::Empty);
        }
        let window = tail.saturating_sub(self.shelf.capacity());
        if place < window {
            return Ok(BReply::Lagged(window - place));
        }
        match self.shelf.value(place) {
            Some(value) => Ok(BReply::Value(value.clone()?)),
            None => Ok(BReply::Empty),
        }
    }

    // There is no room for one handle more of a kind of which so many are live.
    fn has_too_many(&self, of_kind: u64) -> bool
        ensures { result ≡ is_full of_kind self.now.next }
    {
        of_kind >= MOST_HANDLES as u64 || self.next == u64::MAX
    }

    // Both subscriptions.
    fn foresee_subscribe(&self, tx: TxId) -> BReply<T>
        ensures tail { result ≡ (answer self.now (Subscribe tx)).0 }
        ensures oldest { result ≡ (answer self.now (SubscribeOldest tx)).0 }
    {
        if !self.senders.contains(&tx.0) {
            return BReply::NoHandle(None);
        }
        if self.has_too_many(self.shelf.readers()) {
            return BReply::TooMany;
        }
        BReply::NewRx(RxId(self.next))
    }

    // A subscription that a receiver asks for.
    fn foresee_resubscribe(&self, rx: RxId) -> BReply<T>
        ensures { result ≡ (answer self.now (Resubscribe rx)).0 }
    {
        let Some(_) = self.shelf.place(rx) else {
            return BReply::NoHandle(None);
        };
        if self.has_too_many(self.shelf.readers()) {
            return BReply::TooMany;
        }
        BReply::NewRx(RxId(self.next))
    }

    // A sender's clone.
    fn foresee_clone(&self, tx: TxId) -> BReply<T>
        ensures { result ≡ (answer self.now (CloneTx tx)).0 }
    {
        if !self.senders.contains(&tx.0) {
            return BReply::NoHandle(None);
        }
        if self.has_too_many(self.senders.len() as u64) {
            return BReply::TooMany;
        }
        BReply::NewTx(TxId(self.next))
    }

    // The end of a sender.
    fn foresee_drop_tx(&self, tx: TxId) -> BReply<T>
        ensures { result ≡ (answer self.now (DropTx tx)).0 }
    {
        if !self.senders.contains(&tx.0) {
            return BReply::NoHandle(None);
        }
        BReply::Done
    }

    // The end of a receiver.
    fn foresee_drop_rx(&self, rx: RxId) -> BReply<T>
        ensures { result ≡ (answer self.now (DropRx rx)).0 }
    {
        let Some(_) = self.shelf.place(rx) else {
            return BReply::NoHandle(None);
        };
        BReply::Done
    }

    // The reply to a call, where memory is not refused.
    #[inline(always)]
    fn foreseen(&self, call: &BCall<T>) -> Result<BReply<T>, AllocError>
        requires { ClonesAreEqual T.is_clone }
        ensures reply { IfOk result (λ reply. reply ≡ (answer self.now call.now).0) }
        ensures always { TakesNoMemory call.now → IsOk result }
    {
        match call {
            BCall::Send(tx, value) => self.foresee_send(*tx, value),
            BCall::TryRecv(rx) => self.foresee_receive(*rx),
            BCall::Recv(rx) => self.foresee_receive(*rx),
            BCall::Subscribe(tx) => Ok(self.foresee_subscribe(*tx)),
            BCall::SubscribeOldest(tx) => Ok(self.foresee_subscribe(*tx)),
            BCall::Resubscribe(rx) => Ok(self.foresee_resubscribe(*rx)),
            BCall::CloneTx(tx) => Ok(self.foresee_clone(*tx)),
            BCall::DropTx(tx) => Ok(self.foresee_drop_tx(*tx)),
            BCall::DropRx(rx) => Ok(self.foresee_drop_rx(*rx)),
            BCall::Queued(tx) => Ok(self.queued(*tx)),
            BCall::Left(rx) => Ok(self.left(*rx)),
            BCall::Readers(tx) => Ok(self.readers(*tx)),
        }
    }

    /// The reply that `apply` would give now, a value in it as a clone. Nothing changes. Drops and
    /// counts are always foreseen. It costs about as much as the call.
    #[inline(always)]
    pub fn foresee(&self, call: &BCall<T>) -> Result<BReply<T>, Short<()>>
        requires { ClonesAreEqual T.is_clone }
        ensures reply { IfOk result (λ reply. reply ≡ (answer self.now call.now).0) }
        ensures always { TakesNoMemory call.now → IsOk result }
    {
        match self.foreseen(call) {
            Ok(reply) => Ok(reply),
            Err(_) => Err(Short { call: () }),
        }
    }
}
