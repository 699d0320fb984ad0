//! The channel's state and its calls.
ghost use Rattle.std.specs.Prelude.{◌≡◌, ◌≢◌, ℕ, nat_lt, ◌↔◌, ◌≤◌, ◌<◌, ◌-◌, ◌^◌, Bool, false, [], ◌∷◌, IsTrue, IsOk, IfOk, IfErr, OnOk, OnErr, is_some};
ghost use Rattle.th_model.specs.Limits.{ClonesAreEqual};
ghost use Rattle.th_model.specs.WatchMachine.{IsExact, reader_of, with_reader, opened, paired};
ghost use Rattle.th_model.specs.WatchPicture.{IsSound, IsRefused, mark_at, picture_of, see, answer, uncompared, marked, subscribe, with_version, is_ready, WouldWait, Meets, TakesMemory, TakesNoMemory};
ghost use Rattle.th_model.specs.declared.watch.WCall.TheVariants.{Send, Replace, EditBy, Borrow, Take, HasChanged, TryChanged, Changed, MarkChanged, MarkUnchanged, Subscribe, CloneRx, CloneTx, DropTx, DropRx, IsClosed, Readers};

mod foresee;
mod live;
mod modify;
mod picture;

use std::alloc::Global;
use std::collections::{BTreeMap, BTreeSet};
use std::marker::Model;
use th_model::{Edit, MOST_HANDLES, RxId, Short, TxId, WCall, WReply};

/// A watch channel, seen as its picture: the newest value and its version, whether it is unseen by
/// each live reader, the live senders, and the next handle number.
///
/// Every call first looks its handle up; a number that is not live on its side is answered
/// `NoHandle`. A call is at most logarithmic in the live handles of its side, so a publication
/// costs the same for one reader as for 65,535; beside that, one that shows the newest value clones
/// it. Memory is taken for such a clone and for a new handle alone. A call that is refused it is
/// `Short`: the call comes back, and nothing has changed.
#[derive(Drop)]
pub struct Watch<T> {
    // The number of the newest version: 1 or more, and one more at each publication.
    version: u64,
    // The newest value, put in the place of the one before it. A quiet edit changes it within its
    // version.
    last: T,
    // The version that each live reader saw last, or 0. One below the newest is unseen, so a
    // publication leaves the marks alone.
    marks: BTreeMap<u64, u64>,
    // The numbers of the live senders.
    senders: BTreeSet<u64>,
    // The number that the next handle gets, on either side. It rises, so no number is given twice.
    next: u64,
}

impl<T> Model for Watch<T> {
    ghost use Rattle.th_model.specs.WatchPicture.{Picture, picture_of};
    ghost use Rattle.th_watch.specs.Held.{IsHeld};

    ghost Value = { Picture T };

    ghost view = { λ w. picture_of w.version w.last w.marks.entries w.senders.keys w.next };

    ghost invariant = { λ w. IsHeld w.version w.marks.entries w.senders.keys w.next };
}

// Sets the mark of a reader that is there; `false` where it is not.
fn set_mark(marks: &mut BTreeMap<u64, u64>, rx: u64, mark: u64) -> bool
    ensures found { result ≡ is_some (reader_of marks.old.entries rx) }
    ensures set { IsTrue result → marks.new.entries ≡ with_reader marks.old.entries rx mark }
    ensures none { result ≡ false → marks.new.entries ≡ marks.old.entries }
{
    let Some(kept) = marks.get_mut(&rx) else {
        return false;
    };
    *kept = mark;
    true
}

// The mark of a reader to whom the newest value is unseen, or seen.
fn mark_for(version: u64, unseen: bool) -> u64
    requires { 0 < version }
    ensures within { result ≤ version }
    ensures unseen { nat_lt result version ≡ unseen }
    ensures mark { (rx : ℕ) → (rx, result) ≡ mark_at version (rx, unseen) }
{
    if unseen { 0 } else { version }
}

impl<T: Drop> Watch<T> {
    /// A channel with sender 1 and no reader, whose value has this version.
    ///
    /// `Short` hands the value back.
    pub fn starting_at(alloc: Global, value: T, version: u64) -> Result<Self, Short<T>>
        requires { 1 ≤ version }
        ensures opened { IfOk result (λ channel. channel ≡ see (opened value version)) }
        ensures picture { IfOk result (λ channel.
            channel ≡ picture_of version value [] (1 ∷ []) 2) }
        ensures short { IfErr result (λ short. short.call ≡ value) }
    {
        let mut senders = BTreeSet::new(alloc);
        let Ok(_) = senders.insert(1) else {
            return Err(Short { call: value });
        };
        Ok(Watch {
            version,
            last: value,
            marks: BTreeMap::new(alloc),
            senders,
            next: 2,
        })
    }

    /// A channel with sender 1 and no reader, at version 1.
    ///
    /// `Short` hands the value back.
    pub fn new(alloc: Global, value: T) -> Result<Self, Short<T>>
        ensures opened { IfOk result (λ channel. channel ≡ see (opened value 1)) }
        ensures picture { IfOk result (λ channel. channel ≡ picture_of 1 value [] (1 ∷ []) 2) }
        ensures short { IfErr result (λ short. short.call ≡ value) }
    {
        Self::starting_at(alloc, value, 1)
    }

    /// A channel with sender 1 and reader 2, to whom the value is seen, at version 1.
    ///
    /// `Short` hands the value back.
    pub fn channel(alloc: Global, value: T) -> Result<Self, Short<T>>
        ensures paired { IfOk result (λ channel. channel ≡ see (paired value)) }
        ensures picture { IfOk result (λ channel.
            channel ≡ picture_of 1 value ((2, 1) ∷ []) (1 ∷ []) 3) }
        ensures short { IfErr result (λ short. short.call ≡ value) }
    {
        let mut senders = BTreeSet::new(alloc);
        let Ok(_) = senders.insert(1) else {
            return Err(Short { call: value });
        };
        let mut marks = BTreeMap::new(alloc);
        let Ok(_) = marks.insert(2, 1) else {
            return Err(Short { call: value });
        };
        Ok(Watch {
            version: 1,
            last: value,
            marks,
            senders,
            next: 3,
        })
    }

    // Whether the newest value is unseen by the reader, where it is live.
    fn unseen(&self, rx: RxId) -> Option<bool>
        ensures { result ≡ reader_of self.now.readers rx.0 }
    {
        match self.marks.get(&rx.0) {
            Some(mark) => Some(*mark < self.version),
            None => None,
        }
    }

    /// Whether a call has its answer now: every call but a `Changed` that would be answered
    /// `NotYet`.
    #[inline(always)]
    pub fn ready(&self, call: &WCall<T>) -> bool
        ensures ready { result ≡ is_ready self.now call.now }
        ensures waits { (eq : T → T → Bool)
            → (result ≡ false) ↔ WouldWait eq self.now call.now }
        ensures sound { IsSound self.now }
    {
        match call {
            WCall::Changed(rx) => match self.unseen(*rx) {
                Some(unseen) => unseen || self.senders.len() == 0,
                None => true,
            },
            _ => true,
        }
    }

    // Publishes the value, for the one before it; at the last version hands it back.
    fn publish(&mut self, value: T) -> Result<T, T>
        ensures was { IfOk result (λ was. was ≡ self.old.last) }
        ensures published { OnOk result (self.new ≡ with_version self.old value) }
        ensures room { OnOk result (self.old.version ≢ 2 ^ 64 - 1) }
        ensures back { IfErr result (λ back. back ≡ value) }
        ensures same { OnErr result (self.new ≡ self.old) }
        ensures exhausted { OnErr result (self.old.version ≡ 2 ^ 64 - 1) }
    {
        if self.version == u64::MAX {
            return Err(value);
        }
        self.version += 1;
        Ok(std::mem::replace(&mut self.last, value))
    }

    /// Publishes a value where there is a reader, and answers `Done`.
    pub fn send(&mut self, tx: TxId, value: T) -> WReply<T>
        ensures { answer uncompared self.old (Send tx value) ≡ (result, self.new) }
    {
        if !self.senders.contains(&tx.0) {
            return WReply::NoHandle(Some(value));
        }
        if self.marks.len() == 0 {
            return WReply::NoReceivers(value);
        }
        match self.publish(value) {
            Ok(_) => WReply::Done,
            Err(value) => WReply::Exhausted(value),
        }
    }

    /// Publishes a value, readers or not, and answers the value before it.
    pub fn replace(&mut self, tx: TxId, value: T) -> WReply<T>
        ensures { answer uncompared self.old (Replace tx value) ≡ (result, self.new) }
    {
        if !self.senders.contains(&tx.0) {
            return WReply::NoHandle(Some(value));
        }
        match self.publish(value) {
            Ok(was) => WReply::Was(was),
            Err(value) => WReply::Exhausted(value),
        }
    }

    /// Whether the newest value is unseen; `Closed` where no sender is left.
    pub fn has_changed(&self, rx: RxId) -> WReply<T>
        ensures { answer uncompared self.now (HasChanged rx) ≡ (result, self.now) }
    {
        match self.unseen(rx) {
            None => WReply::NoHandle(None),
            Some(_) if self.senders.len() == 0 => WReply::Closed,
            Some(unseen) => WReply::Changed(unseen),
        }
    }

    // Makes the newest value unseen or seen by the reader; `false` where it is not live.
    fn mark(&mut self, rx: RxId, unseen: bool) -> bool
        ensures found { result ≡ is_some (reader_of self.old.readers rx.0) }
        ensures live { IsTrue result → self.new ≡ marked self.old rx.0 unseen }
        ensures none { result ≡ false → self.new ≡ self.old }
    {
        let mark = mark_for(self.version, unseen);
        set_mark(&mut self.marks, rx.0, mark)
    }

    /// Marks an unseen value seen, and answers `Marked`; where it is seen, `Closed` without
    /// senders, else `NotYet`.
    pub fn try_changed(&mut self, rx: RxId) -> WReply<T>
        ensures { answer uncompared self.old (TryChanged rx) ≡ (result, self.new) }
    {
        match self.unseen(rx) {
            None => WReply::NoHandle(None),
            Some(true) => {
                self.mark(rx, false);
                WReply::Marked
            }
            Some(false) if self.senders.len() == 0 => WReply::Closed,
            Some(false) => WReply::NotYet,
        }
    }

    /// As `try_changed`: a caller waits while the channel is not `ready` for it.
    pub fn changed(&mut self, rx: RxId) -> WReply<T>
        ensures { answer uncompared self.old (Changed rx) ≡ (result, self.new) }
    {
        self.try_changed(rx)
    }

    /// Makes the newest value unseen by the reader, with nothing sent.
    pub fn mark_changed(&mut self, rx: RxId) -> WReply<T>
        ensures { answer uncompared self.old (MarkChanged rx) ≡ (result, self.new) }
    {
        if self.mark(rx, true) {
            WReply::Done
        } else {
            WReply::NoHandle(None)
        }
    }

    /// Marks the newest value seen by the reader.
    pub fn mark_unchanged(&mut self, rx: RxId) -> WReply<T>
        ensures { answer uncompared self.old (MarkUnchanged rx) ≡ (result, self.new) }
    {
        if self.mark(rx, false) {
            WReply::Done
        } else {
            WReply::NoHandle(None)
        }
    }

    // A new reader, to whom the newest value is unseen or seen.
    fn add_receiver(&mut self, unseen: bool) -> Result<WReply<T>, Short<()>>
        ensures step { IfOk result (λ reply. subscribe self.old unseen ≡ (reply, self.new)) }
        ensures same { OnErr result (self.new ≡ self.old) }
        ensures short { OnErr result (TakesMemory (subscribe self.old unseen).0) }
    {
        if self.marks.len() >= MOST_HANDLES || self.next == u64::MAX {
            return Ok(WReply::TooMany);
        }
        let rx = RxId(self.next);
        let mark = mark_for(self.version, unseen);
        let Ok(_) = self.marks.insert(rx.0, mark) else {
            return Err(Short { call: () });
        };
        self.next += 1;
        Ok(WReply::NewRx(rx))
    }

    /// A new reader, to whom the newest value is seen.
    pub fn subscribe(&mut self, tx: TxId) -> Result<WReply<T>, Short<WCall<T>>>
        ensures step { IfOk result (λ reply.
            answer uncompared self.old (Subscribe tx) ≡ (reply, self.new)) }
        ensures short { IfErr result (λ short.
            IsRefused uncompared self.old (Subscribe tx) short.call self.new) }
    {
        if !self.senders.contains(&tx.0) {
            return Ok(WReply::NoHandle(None));
        }
        match self.add_receiver(false) {
            Ok(reply) => Ok(reply),
            Err(_) => Err(Short {
                call: WCall::Subscribe(tx),
            }),
        }
    }

    /// A new reader, to whom the newest value is unseen where it is to this one.
    pub fn clone_rx(&mut self, rx: RxId) -> Result<WReply<T>, Short<WCall<T>>>
        ensures step { IfOk result (λ reply.
            answer uncompared self.old (CloneRx rx) ≡ (reply, self.new)) }
        ensures short { IfErr result (λ short.
            IsRefused uncompared self.old (CloneRx rx) short.call self.new) }
    {
        let Some(unseen) = self.unseen(rx) else {
            return Ok(WReply::NoHandle(None));
        };
        match self.add_receiver(unseen) {
            Ok(reply) => Ok(reply),
            Err(_) => Err(Short {
                call: WCall::CloneRx(rx),
            }),
        }
    }

    /// A new sender.
    pub fn clone_tx(&mut self, tx: TxId) -> Result<WReply<T>, Short<WCall<T>>>
        ensures step { IfOk result (λ reply.
            answer uncompared self.old (CloneTx tx) ≡ (reply, self.new)) }
        ensures short { IfErr result (λ short.
            IsRefused uncompared self.old (CloneTx tx) short.call self.new) }
    {
        if !self.senders.contains(&tx.0) {
            return Ok(WReply::NoHandle(None));
        }
        if self.senders.len() >= MOST_HANDLES || self.next == u64::MAX {
            return Ok(WReply::TooMany);
        }
        let new = self.next;
        let Ok(_) = self.senders.insert(new) else {
            return Err(Short {
                call: WCall::CloneTx(tx),
            });
        };
        self.next += 1;
        Ok(WReply::NewTx(TxId(new)))
    }

    /// Spends the sender.
    pub fn drop_tx(&mut self, tx: TxId) -> WReply<T>
        ensures { answer uncompared self.old (DropTx tx) ≡ (result, self.new) }
    {
        if !self.senders.contains(&tx.0) {
            return WReply::NoHandle(None);
        }
        self.senders.remove(&tx.0);
        WReply::Done
    }

    /// Spends the reader.
    pub fn drop_rx(&mut self, rx: RxId) -> WReply<T>
        ensures { answer uncompared self.old (DropRx rx) ≡ (result, self.new) }
    {
        let Some(_) = self.marks.remove(&rx.0) else {
            return WReply::NoHandle(None);
        };
        WReply::Done
    }

    /// Whether no reader is left.
    pub fn is_closed(&self, tx: TxId) -> WReply<T>
        ensures { answer uncompared self.now (IsClosed tx) ≡ (result, self.now) }
    {
        if !self.senders.contains(&tx.0) {
            return WReply::NoHandle(None);
        }
        WReply::Gone(self.marks.len() == 0)
    }

    /// How many readers are live.
    pub fn readers(&self, tx: TxId) -> WReply<T>
        ensures { answer uncompared self.now (Readers tx) ≡ (result, self.now) }
    {
        if !self.senders.contains(&tx.0) {
            return WReply::NoHandle(None);
        }
        WReply::Count(self.marks.len() as u64)
    }
}

impl<T: Clone + Drop> Watch<T> {
    /// Shows a clone of the newest value, and whether it is unseen.
    pub fn borrow(&self, rx: RxId) -> Result<WReply<T>, Short<WCall<T>>>
        requires { ClonesAreEqual T.is_clone }
        ensures step { IfOk result (λ reply.
            answer uncompared self.now (Borrow rx) ≡ (reply, self.now)) }
        ensures short { IfErr result (λ short.
            IsRefused uncompared self.now (Borrow rx) short.call self.now) }
    {
        let Some(unseen) = self.unseen(rx) else {
            return Ok(WReply::NoHandle(None));
        };
        match self.last.clone() {
            Ok(value) => Ok(WReply::Shown(value, unseen)),
            Err(_) => Err(Short {
                call: WCall::Borrow(rx),
            }),
        }
    }

    /// Shows a clone of the newest value, and whether it was unseen, and marks it seen.
    pub fn take(&mut self, rx: RxId) -> Result<WReply<T>, Short<WCall<T>>>
        requires { ClonesAreEqual T.is_clone }
        ensures step { IfOk result (λ reply.
            answer uncompared self.old (Take rx) ≡ (reply, self.new)) }
        ensures short { IfErr result (λ short.
            IsRefused uncompared self.old (Take rx) short.call self.new) }
    {
        let Some(was_unseen) = self.unseen(rx) else {
            return Ok(WReply::NoHandle(None));
        };
        match self.last.clone() {
            Ok(value) => {
                self.mark(rx, false);
                Ok(WReply::Shown(value, was_unseen))
            }
            Err(_) => Err(Short {
                call: WCall::Take(rx),
            }),
        }
    }
}

impl<T: PartialEq + Drop> Watch<T> {
    /// Changes the newest value, readers or not, and answers whether that was a publication.
    pub fn edit_by(&mut self, tx: TxId, edit: Edit<T>) -> WReply<T>
        requires { IsExact T.eq }
        ensures { answer T.eq self.old (EditBy tx edit) ≡ (result, self.new) }
    {
        if !self.senders.contains(&tx.0) {
            return WReply::NoHandle(Some(edit.into_value()));
        }
        match edit {
            Edit::Quiet(value) => {
                self.last = value;
                WReply::Modified(false)
            }
            Edit::Differ(value) if value == self.last => WReply::Modified(false),
            Edit::Set(value) | Edit::Differ(value) => match self.publish(value) {
                Ok(_) => WReply::Modified(true),
                Err(value) => WReply::Exhausted(value),
            },
        }
    }
}

impl<T: Clone + PartialEq + Drop> Watch<T> {
    // One call, by the picture alone.
    #[inline(always)]
    fn answer(&mut self, call: WCall<T>) -> Result<WReply<T>, Short<WCall<T>>>
        requires clones { ClonesAreEqual T.is_clone }
        requires exact { IsExact T.eq }
        ensures step { IfOk result (λ reply. answer T.eq self.old call ≡ (reply, self.new)) }
        ensures short { IfErr result (λ short.
            IsRefused T.eq self.old call short.call self.new) }
        ensures always { TakesNoMemory call → IsOk result }
    {
        match call {
            WCall::Send(tx, value) => Ok(self.send(tx, value)),
            WCall::Replace(tx, value) => Ok(self.replace(tx, value)),
            WCall::EditBy(tx, edit) => Ok(self.edit_by(tx, edit)),
            WCall::Borrow(rx) => self.borrow(rx),
            WCall::Take(rx) => self.take(rx),
            WCall::HasChanged(rx) => Ok(self.has_changed(rx)),
            WCall::TryChanged(rx) => Ok(self.try_changed(rx)),
            WCall::Changed(rx) => Ok(self.changed(rx)),
            WCall::MarkChanged(rx) => Ok(self.mark_changed(rx)),
            WCall::MarkUnchanged(rx) => Ok(self.mark_unchanged(rx)),
            WCall::Subscribe(tx) => self.subscribe(tx),
            WCall::CloneRx(rx) => self.clone_rx(rx),
            WCall::CloneTx(tx) => self.clone_tx(tx),
            WCall::DropTx(tx) => Ok(self.drop_tx(tx)),
            WCall::DropRx(rx) => Ok(self.drop_rx(rx)),
            WCall::IsClosed(tx) => Ok(self.is_closed(tx)),
            WCall::Readers(tx) => Ok(self.readers(tx)),
        }
    }

    /// One call. Of every proper endless state that looks like the channel, the reply is the
    /// machine's reply, and the channel then looks like the state after the machine's step. All
    /// calls are always answered but those that show a value and those that make a handle.
    #[inline(always)]
    pub fn apply(&mut self, call: WCall<T>) -> Result<WReply<T>, Short<WCall<T>>>
        requires clones { ClonesAreEqual T.is_clone }
        requires exact { IsExact T.eq }
        ensures meets { IfOk result (λ reply. Meets T.eq self.old call reply self.new) }
        ensures step { IfOk result (λ reply. answer T.eq self.old call ≡ (reply, self.new)) }
        ensures short { IfErr result (λ short.
            IsRefused T.eq self.old call short.call self.new) }
        ensures always { TakesNoMemory call → IsOk result }
    {
        self.answer(call)
    }
}
