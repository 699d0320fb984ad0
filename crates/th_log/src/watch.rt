//! A watch channel as an object that can be logged.
ghost use Rattle.std.specs.Prelude.{◌≡◌, IfOk, IfErr, IsOk};
ghost use Rattle.th_model.specs.Limits.{ClonesAreEqual};
ghost use Rattle.th_model.specs.Live.{TakesNone};
ghost use Rattle.th_model.specs.WatchMachine.{IsExact};
ghost use Rattle.th_model.specs.WatchPicture.{answer};

use crate::kind::Kind;
use crate::object::{Compared, Event, Object, noted};
use std::alloc::{AllocError, Global};
use th_model::{Edit, Question, ReceiverVerb, RxId, SenderVerb, Short, Start, TxId, WCall, WReply};
use th_watch::{PictureParts, Watch};

// A copy of an edit.
fn copied_edit<T: Clone>(change: &Edit<T>) -> Result<Edit<T>, AllocError>
    requires { ClonesAreEqual T.is_clone }
    ensures { IfOk result (λ copy. copy ≡ change.now) }
{
    match change {
        Edit::Set(value) => Ok(Edit::Set(value.clone()?)),
        Edit::Differ(value) => Ok(Edit::Differ(value.clone()?)),
        Edit::Quiet(value) => Ok(Edit::Quiet(value.clone()?)),
    }
}

// A copy of a call. Only a value that it carries takes memory.
#[inline(always)]
fn copied<T: Clone>(call: &WCall<T>) -> Result<WCall<T>, AllocError>
    requires { ClonesAreEqual T.is_clone }
    ensures copy { IfOk result (λ copy. copy ≡ call.now) }
    ensures always { TakesNone call.now → IsOk result }
{
    match call {
        WCall::Send(tx, value) => Ok(WCall::Send(*tx, value.clone()?)),
        WCall::Replace(tx, value) => Ok(WCall::Replace(*tx, value.clone()?)),
        WCall::EditBy(tx, change) => Ok(WCall::EditBy(*tx, copied_edit(change)?)),
        WCall::Borrow(rx) => Ok(WCall::Borrow(*rx)),
        WCall::Take(rx) => Ok(WCall::Take(*rx)),
        WCall::HasChanged(rx) => Ok(WCall::HasChanged(*rx)),
        WCall::TryChanged(rx) => Ok(WCall::TryChanged(*rx)),
        WCall::Changed(rx) => Ok(WCall::Changed(*rx)),
        WCall::MarkChanged(rx) => Ok(WCall::MarkChanged(*rx)),
        WCall::MarkUnchanged(rx) => Ok(WCall::MarkUnchanged(*rx)),
        WCall::Subscribe(tx) => Ok(WCall::Subscribe(*tx)),
        WCall::CloneRx(rx) => Ok(WCall::CloneRx(*rx)),
        WCall::CloneTx(tx) => Ok(WCall::CloneTx(*tx)),
        WCall::DropTx(tx) => Ok(WCall::DropTx(*tx)),
        WCall::DropRx(rx) => Ok(WCall::DropRx(*rx)),
        WCall::IsClosed(tx) => Ok(WCall::IsClosed(*tx)),
        WCall::Readers(tx) => Ok(WCall::Readers(*tx)),
    }
}

impl<T: Clone + PartialEq + Drop> Object for Watch<T> {
    ghost use Rattle.th_model.specs.Limits.{ClonesAreEqual};
    ghost use Rattle.th_model.specs.Live.{TakesNone};
    ghost use Rattle.th_model.specs.WatchMachine.{Endless, IsExact, IsProper};
    ghost use Rattle.th_model.specs.WatchPicture.{IsSound};
    ghost use Rattle.th_log.specs.Machines.{watch};
    ghost use Rattle.th_log.specs.MachineLaws.{watch-whole, watch-step, watch-answer, watch-spends};

    type Call = WCall<T>;

    type Reply = WReply<T>;

    type State = PictureParts<T>;

    ghost Endless = { Endless T };

    ghost machine = { watch T.eq };

    ghost is_proper = { IsProper };

    ghost is_sound = { IsSound };

    ghost shows = { λ channel. channel };

    ghost lawful = { ClonesAreEqual T.is_clone × IsExact T.eq };

    ghost takes_none = { TakesNone };

    ghost whole_ok = { watch-whole };

    ghost step_ok = { watch-step T.eq };

    ghost answer_ok = { watch-answer T.eq };

    ghost spends_ok = { watch-spends T.eq };

    #[inline(always)]
    fn ready(&self, call: &WCall<T>) -> bool {
        Watch::ready(self, call)
    }

    #[inline(always)]
    fn apply(&mut self, call: WCall<T>) -> Result<WReply<T>, Short<WCall<T>>> {
        Watch::apply(self, call)
    }

    #[inline(always)]
    fn foresee(&self, call: &WCall<T>) -> Result<WReply<T>, Short<()>> {
        Watch::foresee(self, call)
    }

    #[inline(always)]
    fn copy_call(call: &WCall<T>) -> Result<WCall<T>, Short<()>> {
        match copied(call) {
            Ok(copy) => Ok(copy),
            Err(_) => Err(Short { call: () }),
        }
    }

    fn picture(&self, alloc: Global) -> Result<PictureParts<T>, Short<()>> {
        Watch::picture(self, alloc)
    }

    fn resume(alloc: Global, state: PictureParts<T>) -> Result<Self, Short<PictureParts<T>>> {
        Watch::from_parts(alloc, state)
    }

    #[inline(always)]
    fn live(&self) -> u64 {
        Watch::live(self)
    }

    #[inline(always)]
    fn live_after(&self, call: &WCall<T>) -> u64 {
        Watch::live_after(self, call)
    }

    #[inline(always)]
    fn closed(&self) -> bool {
        self.sender_count() == 0
    }
}

impl<T: Clone + PartialEq + Drop> Kind for Watch<T> {
    ghost use Rattle.std.specs.Prelude.{None, is_some};
    ghost use Rattle.th_model.specs.Handles.{is_sender};
    ghost use Rattle.th_model.specs.WatchMachine.{reader_of};
    ghost use Rattle.th_model.specs.declared.watch.WCall.TheVariants.{CloneTx, DropRx, DropTx};
    ghost use Rattle.th_model.specs.declared.watch.WReply.TheVariants.{Done};
    ghost use Rattle.th_log.specs.Calls.{watch_asked, watch_by_receiver, watch_by_sender, watch_handle_of, watch_receiver_of, watch_sender_of, watch_subscribing, watch_waits};
    ghost use Rattle.th_log.specs.Replies.{watch_ends, watch_is_news, watch_made_rx, watch_made_tx};
    ghost use Rattle.th_log.specs.KindLaws.{watch-asked, watch-by-receiver, watch-by-sender};
    ghost use Rattle.th_log.specs.KindLaws.{reader-ends, watch-sender-ends};
    ghost use Rattle.th_log.specs.NewsLaws.{watch-news};

    type Value = T;

    ghost has_sender = { λ p tx. is_sender p.senders tx.0 };

    ghost has_receiver = { λ p rx. is_some (reader_of p.readers rx.0) };

    ghost waits = { watch_waits };

    ghost by_sender = { watch_by_sender };

    ghost asked = { watch_asked };

    ghost by_receiver = { watch_by_receiver };

    ghost subscribing = { watch_subscribing };

    ghost resubscribing = { λ rx. None };

    ghost cloning = { λ tx. CloneTx tx };

    ghost last_of_sender = { λ tx. DropTx tx };

    ghost last_of_receiver = { λ rx. DropRx rx };

    ghost handle_of = { watch_handle_of };

    ghost sender_of = { watch_sender_of };

    ghost receiver_of = { watch_receiver_of };

    ghost made_tx = { watch_made_tx };

    ghost made_rx = { watch_made_rx };

    ghost ends = { watch_ends };

    ghost is_news = { watch_is_news };

    ghost done = { Done };

    ghost by_sender_ok = { watch-by-sender T };

    ghost asked_ok = { watch-asked T };

    ghost by_receiver_ok = { watch-by-receiver T };

    ghost sender_ends_ok = { watch-sender-ends T T.eq };

    ghost receiver_ends_ok = { reader-ends T T.eq };

    ghost stays_ok = { λ rx. tt };

    ghost news_ok = { watch-news T T.eq };

    #[inline(always)]
    fn has_sender(&self, tx: TxId) -> bool {
        Watch::has_sender(self, tx)
    }

    #[inline(always)]
    fn has_receiver(&self, rx: RxId) -> bool {
        Watch::is_unseen(self, rx).is_some()
    }

    #[inline(always)]
    fn waits(&self, call: &WCall<T>) -> bool {
        !Watch::ready(self, call)
    }

    // The calls that are made most often are compiled each for itself.
    #[inline(always)]
    fn event(&mut self, call: WCall<T>) -> Result<Event<WCall<T>, WReply<T>>, Short<WCall<T>>> {
        match call {
            WCall::Send(tx, value) => noted(self, WCall::Send(tx, value)),
            WCall::Borrow(rx) => noted(self, WCall::Borrow(rx)),
            WCall::Take(rx) => noted(self, WCall::Take(rx)),
            WCall::TryChanged(rx) => noted(self, WCall::TryChanged(rx)),
            WCall::Changed(rx) => noted(self, WCall::Changed(rx)),
            other => noted(self, other),
        }
    }

    #[inline(always)]
    fn by_sender(verb: SenderVerb<T>, tx: TxId) -> Option<WCall<T>>
        ensures { result ≡ watch_by_sender verb tx }
    {
        match verb {
            SenderVerb::Send(value) => Some(WCall::Send(tx, value)),
            SenderVerb::Replace(value) => Some(WCall::Replace(tx, value)),
            SenderVerb::Set(value) => Some(WCall::EditBy(tx, Edit::Set(value))),
            SenderVerb::Differ(value) => Some(WCall::EditBy(tx, Edit::Differ(value))),
            SenderVerb::Quiet(value) => Some(WCall::EditBy(tx, Edit::Quiet(value))),
        }
    }

    #[inline(always)]
    fn asked(question: Question, tx: TxId) -> Option<WCall<T>> {
        match question {
            Question::Queued => None,
            Question::Readers => Some(WCall::Readers(tx)),
        }
    }

    #[inline(always)]
    fn by_receiver(verb: ReceiverVerb, rx: RxId) -> Option<WCall<T>> {
        match verb {
            ReceiverVerb::Borrow => Some(WCall::Borrow(rx)),
            ReceiverVerb::Take => Some(WCall::Take(rx)),
            ReceiverVerb::HasChanged => Some(WCall::HasChanged(rx)),
            ReceiverVerb::TryChanged => Some(WCall::TryChanged(rx)),
            ReceiverVerb::Changed => Some(WCall::Changed(rx)),
            ReceiverVerb::MarkChanged => Some(WCall::MarkChanged(rx)),
            ReceiverVerb::MarkUnchanged => Some(WCall::MarkUnchanged(rx)),
            _ => None,
        }
    }

    fn subscribing(start: Start, tx: TxId) -> Option<WCall<T>> {
        match start {
            Start::Tail => Some(WCall::Subscribe(tx)),
            Start::Oldest => None,
        }
    }

    fn resubscribing(_rx: RxId) -> Option<WCall<T>> {
        None
    }

    fn cloning(tx: TxId) -> WCall<T> {
        WCall::CloneTx(tx)
    }

    fn last_of_sender(tx: TxId) -> WCall<T> {
        WCall::DropTx(tx)
    }

    fn last_of_receiver(rx: RxId) -> WCall<T> {
        WCall::DropRx(rx)
    }

    fn made_tx(reply: &WReply<T>) -> Option<TxId> {
        match reply {
            WReply::NewTx(tx) => Some(*tx),
            _ => None,
        }
    }

    fn made_rx(reply: &WReply<T>) -> Option<RxId> {
        match reply {
            WReply::NewRx(rx) => Some(*rx),
            _ => None,
        }
    }

    fn ends(reply: &WReply<T>) -> bool {
        matches!(reply, WReply::Closed | WReply::NoHandle(_))
    }

    // A reader waits for a publication. What it marks unseen itself it does not wait for.
    fn is_news(call: &WCall<T>, reply: &WReply<T>) -> bool {
        match call {
            WCall::Send(_, _) => matches!(reply, WReply::Done),
            WCall::Replace(_, _) => matches!(reply, WReply::Was(_)),
            WCall::EditBy(_, _) => matches!(reply, WReply::Modified(true)),
            _ => false,
        }
    }
}

impl<T: Clone + PartialEq + Drop> Compared for Watch<T> {
    ghost use Rattle.th_model.specs.WatchMachine.{IsExact};

    ghost call_eq = { ⟦<WCall<T> as PartialEq>⟧.eq };

    ghost reply_eq = { ⟦<WReply<T> as PartialEq>⟧.eq };

    ghost exact = { IsExact T.eq };

    fn same_call(one: &WCall<T>, other: &WCall<T>) -> bool {
        *one == *other
    }

    fn same_reply(one: &WReply<T>, other: &WReply<T>) -> bool {
        *one == *other
    }

    fn same_state(one: &PictureParts<T>, other: &PictureParts<T>) -> bool {
        one.is_same(other)
    }

    fn are_exact() {}
}
