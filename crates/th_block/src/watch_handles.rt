//! Senders and readers of a watch channel.
ghost use Rattle.std.specs.Prelude.{◌≡◌, ◌↔◌, [], false, true, IfErr, IfOk, IfSome, OnOk};
ghost use Rattle.th_log.specs.History.{IsLimit};
ghost use Rattle.th_model.specs.Limits.{ClonesAreEqual};
ghost use Rattle.th_model.specs.WatchMachine.{IsExact};
ghost use Rattle.th_log.specs.Replies.{IsChanged, made_by, watch_ends, watch_made_rx, watch_made_tx};
ghost use Rattle.th_block.specs.Handles.{Calls, CallsFor, IsFirst, IsFullAsSeen, IsNext, IsNextTold, rx, tx};
ghost use Rattle.th_block.specs.Together.{MakesEach};

use crate::cuts::Cuts;
use crate::handle::{Handle, is_limit, open};
use crate::queued::Values;
use crate::side::{Receives, Sends};
use std::alloc::Global;
use std::collections::VecDeque;
use std::sync::{Arc, Wait};
use th_log::{MOST_ENTRIES, MakeFault, Receipt, Refused};
use th_model::{Edit, RxId, Short, TxId, WCall};
use th_watch::Watch;

/// A sender.
pub type WSender<T> = Handle<Watch<T>, Sends>;

/// A reader.
pub type WReader<T> = Handle<Watch<T>, Receives>;

/// A channel with this value, and its first sender; it has no reader yet. A refused value is dropped.
///
/// A segment of its log has at most `limit` entries, 1 to 1,000,000: a channel that nobody cuts (`Shared::cut`) answers
/// `LogFull` from there on. The key is no other channel's.
#[tactic(auto, unfolding(th_model::specs::WatchPicture::see, th_model::specs::WatchMachine::opened))]
pub fn watch<T: Clone + PartialEq + Drop>(
    alloc: Global,
    value: T,
    limit: u64,
    key: u64,
) -> Result<WSender<T>, MakeFault>
    requires clones { ClonesAreEqual T.is_clone }
    requires exact { IsExact T.eq }
    ensures handle { IfOk result (IsFirst false key) }
    ensures limit { OnOk result (IsLimit limit 1) }
    ensures bad { IfErr result (λ fault. fault ≡ MakeFault.BadLimit ↔ ¬ (IsLimit limit 1)) }
{
    if !is_limit(limit) {
        return Err(MakeFault::BadLimit);
    }
    match Watch::new(alloc, value) {
        Ok(channel) => open(alloc, channel, limit, key, u64::MAX, None),
        Err(_) => Err(MakeFault::Short),
    }
}

/// A channel as `watch` makes it, that cuts its log by itself, as [`crate::rolling_broadcast_at`] says.
///
/// # Errors
///
/// There was no memory.
#[tactic(auto, unfolding(th_model::specs::WatchPicture::see, th_model::specs::WatchMachine::opened))]
pub fn rolling_watch<T: Clone + PartialEq + Drop>(
    alloc: Global,
    value: T,
    key: u64,
    most: u64,
    cuts: Arc<Cuts<Watch<T>>>,
) -> Result<WSender<T>, Short<()>>
    requires clones { ClonesAreEqual T.is_clone }
    requires exact { IsExact T.eq }
    ensures { IfOk result (IsFirst true key) }
{
    let Ok(channel) = Watch::new(alloc, value) else {
        return Err(Short { call: () });
    };
    match open(alloc, channel, MOST_ENTRIES, key, most, Some(cuts)) {
        Ok(sender) => Ok(sender),
        Err(_) => Err(Short { call: () }),
    }
}

impl<T: Clone + PartialEq + Drop> Handle<Watch<T>, Sends> {
    /// Publishes a value, and wakes the readers that wait. Where there is no reader it comes back in the reply. The log
    /// and the receipt keep a clone of the value each.
    pub fn send<R: Wait>(
        &mut self,
        rt: &R,
        value: T,
    ) -> Result<Receipt<Watch<T>>, Refused<WCall<T>>>
        requires clones { ClonesAreEqual T.is_clone }
        requires exact { IsExact T.eq }
        ensures { Calls self.old self.new (WCall.Send (tx self.old) value) result }
    {
        let number = self.number;
        self.call(rt, WCall::Send(TxId(number), value))
    }

    /// Publishes the values of this queue from its front on, as `send` does each, in a row and under one lock, and wakes
    /// the readers that wait once: they see the last of them. No value is copied on its way: each is moved out of the
    /// queue, and the receipt of its send put behind those that the list has. Where it is `Ok`, all were sent. Linear in
    /// the values; the lock is held all the while.
    ///
    /// # Errors
    ///
    /// A send was refused, as `send` tells, or there was no memory for its receipt: its value comes back in the call.
    /// Those before it were sent, and their receipts are in the list; those behind it are left in the queue.
    pub fn send_many<R: Wait>(
        &mut self,
        rt: &R,
        values: &mut VecDeque<T>,
        receipts: &mut Vec<Receipt<Watch<T>>>,
    ) -> Result<(), Refused<WCall<T>>>
        requires clones { ClonesAreEqual T.is_clone }
        requires exact { IsExact T.eq }
        ensures sent { MakesEach (WCall.Send (tx self.old)) self.old self.new
            values.old.items values.new.items receipts.old.items receipts.new.items result }
        ensures all { OnOk result (values.new.items ≡ []) }
        ensures full { IfErr result (IsFullAsSeen self.old.rolls self.old.known) }
    {
        self.each::<Values, R>(rt, values, receipts)
    }

    /// Publishes a value, readers or not, for the old one, which comes in the reply.
    pub fn replace<R: Wait>(
        &mut self,
        rt: &R,
        value: T,
    ) -> Result<Receipt<Watch<T>>, Refused<WCall<T>>>
        requires clones { ClonesAreEqual T.is_clone }
        requires exact { IsExact T.eq }
        ensures { Calls self.old self.new (WCall.Replace (tx self.old) value) result }
    {
        let number = self.number;
        self.call(rt, WCall::Replace(TxId(number), value))
    }

    /// Changes the newest value, readers or not; whether that was published stands in the reply.
    pub fn edit<R: Wait>(
        &mut self,
        rt: &R,
        change: Edit<T>,
    ) -> Result<Receipt<Watch<T>>, Refused<WCall<T>>>
        requires clones { ClonesAreEqual T.is_clone }
        requires exact { IsExact T.eq }
        ensures { Calls self.old self.new (WCall.EditBy (tx self.old) change) result }
    {
        let number = self.number;
        self.call(rt, WCall::EditBy(TxId(number), change))
    }

    /// A new reader, by which the newest value is seen.
    pub fn subscribe<R: Wait>(
        &mut self,
        rt: &R,
    ) -> Result<(Receipt<Watch<T>>, Option<WReader<T>>), Refused<WCall<T>>>
        requires clones { ClonesAreEqual T.is_clone }
        requires exact { IsExact T.eq }
        ensures { CallsFor (made_by watch_made_tx watch_made_rx) self.old self.new
            (WCall.Subscribe (tx self.old)) result }
    {
        let number = self.number;
        self.making(rt, WCall::Subscribe(TxId(number)))
    }

    /// Whether no reader is left.
    pub fn is_closed<R: Wait>(&mut self, rt: &R) -> Result<Receipt<Watch<T>>, Refused<WCall<T>>>
        requires clones { ClonesAreEqual T.is_clone }
        requires exact { IsExact T.eq }
        ensures { Calls self.old self.new (WCall.IsClosed (tx self.old)) result }
    {
        let number = self.number;
        self.call(rt, WCall::IsClosed(TxId(number)))
    }

    /// How many readers are live.
    pub fn readers<R: Wait>(&mut self, rt: &R) -> Result<Receipt<Watch<T>>, Refused<WCall<T>>>
        requires clones { ClonesAreEqual T.is_clone }
        requires exact { IsExact T.eq }
        ensures { Calls self.old self.new (WCall.Readers (tx self.old)) result }
    {
        let number = self.number;
        self.call(rt, WCall::Readers(TxId(number)))
    }
}

impl<T: Clone + PartialEq + Drop> Handle<Watch<T>, Receives> {
    /// The newest value, and whether it is unseen.
    pub fn borrow<R: Wait>(&mut self, rt: &R) -> Result<Receipt<Watch<T>>, Refused<WCall<T>>>
        requires clones { ClonesAreEqual T.is_clone }
        requires exact { IsExact T.eq }
        ensures { Calls self.old self.new (WCall.Borrow (rx self.old)) result }
    {
        let number = self.number;
        self.call(rt, WCall::Borrow(RxId(number)))
    }

    /// The same, and the value is seen then.
    pub fn take<R: Wait>(&mut self, rt: &R) -> Result<Receipt<Watch<T>>, Refused<WCall<T>>>
        requires clones { ClonesAreEqual T.is_clone }
        requires exact { IsExact T.eq }
        ensures { Calls self.old self.new (WCall.Take (rx self.old)) result }
    {
        let number = self.number;
        self.call(rt, WCall::Take(RxId(number)))
    }

    /// Whether the newest value is unseen; or that no sender is left.
    pub fn has_changed<R: Wait>(&mut self, rt: &R) -> Result<Receipt<Watch<T>>, Refused<WCall<T>>>
        requires clones { ClonesAreEqual T.is_clone }
        requires exact { IsExact T.eq }
        ensures { Calls self.old self.new (WCall.HasChanged (rx self.old)) result }
    {
        let number = self.number;
        self.call(rt, WCall::HasChanged(RxId(number)))
    }

    /// Marks the newest value seen, where it is unseen; or that there is nothing new yet, or that nothing will come.
    pub fn try_changed<R: Wait>(&mut self, rt: &R) -> Result<Receipt<Watch<T>>, Refused<WCall<T>>>
        requires clones { ClonesAreEqual T.is_clone }
        requires exact { IsExact T.eq }
        ensures { Calls self.old self.new (WCall.TryChanged (rx self.old)) result }
    {
        let number = self.number;
        self.call(rt, WCall::TryChanged(RxId(number)))
    }

    /// As `try_changed`, but it waits while there is nothing new and a sender is left.
    pub fn changed<R: Wait>(&mut self, rt: &R) -> Result<Receipt<Watch<T>>, Refused<WCall<T>>>
        requires clones { ClonesAreEqual T.is_clone }
        requires exact { IsExact T.eq }
        ensures calls { Calls self.old self.new (WCall.Changed (rx self.old)) result }
        ensures told { IfOk result (λ r. IsChanged r.reply) }
    {
        let number = self.number;
        self.call(rt, WCall::Changed(RxId(number)))
    }

    /// As `changed`, for a loop: `None` once nothing will come any more, when the receipt of that answer is given up.
    ///
    /// A loop over it has no measure, so that it is written `for _ in rt.forever()`, and left at `None`.
    pub fn next<R: Wait>(&mut self, rt: &R) -> Option<Result<Receipt<Watch<T>>, Refused<WCall<T>>>>
        requires clones { ClonesAreEqual T.is_clone }
        requires exact { IsExact T.eq }
        ensures next { IsNext watch_ends self.old self.new (WCall.Changed (rx self.old)) result }
        ensures told { IfSome result (λ told. IfOk told (λ r. IsChanged r.reply)) }
    {
        let number = self.number;
        self.next_call(rt, WCall::Changed(RxId(number)))
    }

    /// As `next`, for a loop whose diary is to be whole: it gives up no receipt, and says of each whether it is the last
    /// one, after which nothing will come any more.
    pub fn next_told<R: Wait>(
        &mut self,
        rt: &R,
    ) -> Result<(Receipt<Watch<T>>, bool), Refused<WCall<T>>>
        requires clones { ClonesAreEqual T.is_clone }
        requires exact { IsExact T.eq }
        ensures next { IsNextTold watch_ends self.old self.new
            (WCall.Changed (rx self.old)) result }
        ensures told { IfOk result (λ r. IsChanged r.0.reply) }
    {
        let number = self.number;
        self.next_call_told(rt, WCall::Changed(RxId(number)))
    }

    /// Makes the newest value unseen.
    pub fn mark_changed<R: Wait>(&mut self, rt: &R) -> Result<Receipt<Watch<T>>, Refused<WCall<T>>>
        requires clones { ClonesAreEqual T.is_clone }
        requires exact { IsExact T.eq }
        ensures { Calls self.old self.new (WCall.MarkChanged (rx self.old)) result }
    {
        let number = self.number;
        self.call(rt, WCall::MarkChanged(RxId(number)))
    }

    /// Makes the newest value seen.
    pub fn mark_unchanged<R: Wait>(
        &mut self,
        rt: &R,
    ) -> Result<Receipt<Watch<T>>, Refused<WCall<T>>>
        requires clones { ClonesAreEqual T.is_clone }
        requires exact { IsExact T.eq }
        ensures { Calls self.old self.new (WCall.MarkUnchanged (rx self.old)) result }
    {
        let number = self.number;
        self.call(rt, WCall::MarkUnchanged(RxId(number)))
    }

    /// A new reader, with the mark of this one.
    pub fn clone_rx<R: Wait>(
        &mut self,
        rt: &R,
    ) -> Result<(Receipt<Watch<T>>, Option<WReader<T>>), Refused<WCall<T>>>
        requires clones { ClonesAreEqual T.is_clone }
        requires exact { IsExact T.eq }
        ensures { CallsFor (made_by watch_made_tx watch_made_rx) self.old self.new
            (WCall.CloneRx (rx self.old)) result }
    {
        let number = self.number;
        self.making(rt, WCall::CloneRx(RxId(number)))
    }
}
