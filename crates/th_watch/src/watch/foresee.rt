//! The reply that a call would be given, so that it can be noted before the call is made.
ghost use Rattle.std.specs.Prelude.{◌≡◌, true, IfOk, IsOk};
ghost use Rattle.th_model.specs.Limits.{ClonesAreEqual};
ghost use Rattle.th_model.specs.Handles.{is_full};
ghost use Rattle.th_model.specs.Live.{TakesNone};
ghost use Rattle.th_model.specs.WatchPicture.{answer, edit, publish};
ghost use Rattle.th_model.specs.declared.watch.WReply.TheVariants.{Modified};
ghost use Rattle.th_model.specs.declared.watch.WCall.TheVariants as call;

use crate::watch::Watch;
use std::alloc::AllocError;
use th_model::{Edit, MOST_HANDLES, RxId, Short, TxId, WCall, WReply};

impl<T: Clone + PartialEq + Drop> Watch<T> {
    // A send's reply, which hands a copy of the value back where nothing is published.
    fn foresee_send(&self, tx: TxId, value: &T) -> Result<WReply<T>, AllocError>
        requires { ClonesAreEqual T.is_clone }
        ensures { IfOk result (λ reply. reply ≡ (answer T.eq self.now (call.Send tx value.now)).0) }
    {
        if !self.senders.contains(&tx.0) {
            return Ok(WReply::NoHandle(Some(value.clone()?)));
        }
        if self.marks.len() == 0 {
            return Ok(WReply::NoReceivers(value.clone()?));
        }
        if self.version == u64::MAX {
            return Ok(WReply::Exhausted(value.clone()?));
        }
        Ok(WReply::Done)
    }

    // A replacement's reply, with a copy of the value before it.
    fn foresee_replace(&self, tx: TxId, value: &T) -> Result<WReply<T>, AllocError>
        requires { ClonesAreEqual T.is_clone }
        ensures { IfOk result (λ reply.
            reply ≡ (answer T.eq self.now (call.Replace tx value.now)).0) }
    {
        if !self.senders.contains(&tx.0) {
            return Ok(WReply::NoHandle(Some(value.clone()?)));
        }
        if self.version == u64::MAX {
            return Ok(WReply::Exhausted(value.clone()?));
        }
        Ok(WReply::Was(self.last.clone()?))
    }

    // What an edit that publishes is told.
    fn foresee_publish(&self, value: &T) -> Result<WReply<T>, AllocError>
        requires { ClonesAreEqual T.is_clone }
        ensures { IfOk result (λ reply. reply ≡ (publish self.now value.now (Modified true)).0) }
    {
        if self.version == u64::MAX {
            return Ok(WReply::Exhausted(value.clone()?));
        }
        Ok(WReply::Modified(true))
    }

    // What an edit by a live sender is told.
    fn foresee_edit(&self, change: &Edit<T>) -> Result<WReply<T>, AllocError>
        requires { ClonesAreEqual T.is_clone }
        ensures { IfOk result (λ reply. reply ≡ (edit T.eq self.now change.now).0) }
    {
        match change {
            Edit::Set(value) => self.foresee_publish(value),
            Edit::Quiet(_) => Ok(WReply::Modified(false)),
            Edit::Differ(value) => {
                if *value == self.last {
                    return Ok(WReply::Modified(false));
                }
                self.foresee_publish(value)
            }
        }
    }

    // An edit's reply.
    fn foresee_edit_by(&self, tx: TxId, change: &Edit<T>) -> Result<WReply<T>, AllocError>
        requires { ClonesAreEqual T.is_clone }
        ensures { IfOk result (λ reply.
            reply ≡ (answer T.eq self.now (call.EditBy tx change.now)).0) }
    {
        if !self.senders.contains(&tx.0) {
            return Ok(WReply::NoHandle(Some(change.value().clone()?)));
        }
        self.foresee_edit(change)
    }

    // Both calls that show the newest value.
    fn foresee_shown(&self, rx: RxId) -> Result<WReply<T>, AllocError>
        requires { ClonesAreEqual T.is_clone }
        ensures { IfOk result (λ reply. reply ≡ (answer T.eq self.now (call.Borrow rx)).0) }
    {
        let Some(unseen) = self.unseen(rx) else {
            return Ok(WReply::NoHandle(None));
        };
        Ok(WReply::Shown(self.last.clone()?, unseen))
    }

    // Both calls that wait for news.
    fn foresee_changed(&self, rx: RxId) -> WReply<T>
        ensures { result ≡ (answer T.eq self.now (call.TryChanged rx)).0 }
    {
        match self.unseen(rx) {
            None => WReply::NoHandle(None),
            Some(true) => WReply::Marked,
            Some(false) if self.senders.len() == 0 => WReply::Closed,
            Some(false) => WReply::NotYet,
        }
    }

    // A call of a reader that is always done.
    fn foresee_done(&self, rx: RxId) -> WReply<T>
        ensures changed { result ≡ (answer T.eq self.now (call.MarkChanged rx)).0 }
        ensures unchanged { result ≡ (answer T.eq self.now (call.MarkUnchanged rx)).0 }
        ensures drop { result ≡ (answer T.eq self.now (call.DropRx rx)).0 }
    {
        match self.unseen(rx) {
            None => WReply::NoHandle(None),
            Some(_) => WReply::Done,
        }
    }

    // There is no room for one handle more of a kind of which so many are live.
    fn has_too_many(&self, of_kind: usize) -> bool
        ensures { result ≡ is_full of_kind self.now.next }
    {
        of_kind >= MOST_HANDLES || self.next == u64::MAX
    }

    // A subscription.
    fn foresee_subscribe(&self, tx: TxId) -> WReply<T>
        ensures { result ≡ (answer T.eq self.now (call.Subscribe tx)).0 }
    {
        if !self.senders.contains(&tx.0) {
            return WReply::NoHandle(None);
        }
        if self.has_too_many(self.marks.len()) {
            return WReply::TooMany;
        }
        WReply::NewRx(RxId(self.next))
    }

    // A reader's clone.
    fn foresee_clone_rx(&self, rx: RxId) -> WReply<T>
        ensures { result ≡ (answer T.eq self.now (call.CloneRx rx)).0 }
    {
        let Some(_) = self.unseen(rx) else {
            return WReply::NoHandle(None);
        };
        if self.has_too_many(self.marks.len()) {
            return WReply::TooMany;
        }
        WReply::NewRx(RxId(self.next))
    }

    // A sender's clone.
    fn foresee_clone_tx(&self, tx: TxId) -> WReply<T>
        ensures { result ≡ (answer T.eq self.now (call.CloneTx tx)).0 }
    {
        if !self.senders.contains(&tx.0) {
            return WReply::NoHandle(None);
        }
        if self.has_too_many(self.senders.len()) {
            return WReply::TooMany;
        }
        WReply::NewTx(TxId(self.next))
    }

    // The end of a sender.
    fn foresee_drop_tx(&self, tx: TxId) -> WReply<T>
        ensures { result ≡ (answer T.eq self.now (call.DropTx tx)).0 }
    {
        if !self.senders.contains(&tx.0) {
            return WReply::NoHandle(None);
        }
        WReply::Done
    }

    // The reply to a call, where memory is not refused.
    fn foreseen(&self, call: &WCall<T>) -> Result<WReply<T>, AllocError>
        requires { ClonesAreEqual T.is_clone }
        ensures reply { IfOk result (λ reply. reply ≡ (answer T.eq self.now call.now).0) }
        ensures always { TakesNone call.now → IsOk result }
    {
        match call {
            WCall::Send(tx, value) => self.foresee_send(*tx, value),
            WCall::Replace(tx, value) => self.foresee_replace(*tx, value),
            WCall::EditBy(tx, change) => self.foresee_edit_by(*tx, change),
            WCall::Borrow(rx) => self.foresee_shown(*rx),
            WCall::Take(rx) => self.foresee_shown(*rx),
            WCall::HasChanged(rx) => Ok(self.has_changed(*rx)),
            WCall::TryChanged(rx) => Ok(self.foresee_changed(*rx)),
            WCall::Changed(rx) => Ok(self.foresee_changed(*rx)),
            WCall::MarkChanged(rx) => Ok(self.foresee_done(*rx)),
            WCall::MarkUnchanged(rx) => Ok(self.foresee_done(*rx)),
            WCall::Subscribe(tx) => Ok(self.foresee_subscribe(*tx)),
            WCall::CloneRx(rx) => Ok(self.foresee_clone_rx(*rx)),
            WCall::CloneTx(tx) => Ok(self.foresee_clone_tx(*tx)),
            WCall::DropTx(tx) => Ok(self.foresee_drop_tx(*tx)),
            WCall::DropRx(rx) => Ok(self.foresee_done(*rx)),
            WCall::IsClosed(tx) => Ok(self.is_closed(*tx)),
            WCall::Readers(tx) => Ok(self.readers(*tx)),
        }
    }

    /// The reply that `apply` would give now, a value in it as a clone. Nothing changes. Drops, marks
    /// and counts are always foreseen. At most logarithmic in live handles.
    pub fn foresee(&self, call: &WCall<T>) -> Result<WReply<T>, Short<()>>
        requires { ClonesAreEqual T.is_clone }
        ensures reply { IfOk result (λ reply. reply ≡ (answer T.eq self.now call.now).0) }
        ensures always { TakesNone call.now → IsOk result }
    {
        match self.foreseen(call) {
            Ok(reply) => Ok(reply),
            Err(_) => Err(Short { call: () }),
        }
    }
}
