//! A broadcast channel, over any shelf, as an object that can be logged.
ghost use Rattle.std.specs.Prelude.{◌≡◌, ◌≢◌, ℕ, IfOk, IfErr, IfSome, IfNone, IsOk};
ghost use Rattle.th_model.specs.Limits.{ClonesAreEqual};
ghost use Rattle.th_model.specs.BroadcastPicture.{TakesNoMemory, answer};
ghost use Rattle.th_model.specs.declared.broadcast.BCall.TheVariants.{Send};
ghost use Rattle.th_model.specs.declared.broadcast.BReply.TheVariants.{Sent};

use crate::kind::Kind;
use crate::object::{Compared, Event, Object, noted};
use std::alloc::{AllocError, Global};
use th_bcast::{Broadcast, PictureParts};
use th_model::{BCall, BReply, Question, ReceiverVerb, RxId, SenderVerb, Short, Start, TxId};
use th_shelf::Shelf;

// A copy of a call. Only a sent value takes memory.
#[inline(always)]
fn copied<T: Clone>(call: &BCall<T>) -> Result<BCall<T>, AllocError>
    requires { ClonesAreEqual T.is_clone }
    ensures copy { IfOk result (λ copy. copy ≡ call.now) }
    ensures always { TakesNoMemory call.now → IsOk result }
{
    match call {
        BCall::Send(tx, value) => Ok(BCall::Send(*tx, value.clone()?)),
        BCall::TryRecv(rx) => Ok(BCall::TryRecv(*rx)),
        BCall::Recv(rx) => Ok(BCall::Recv(*rx)),
        BCall::Subscribe(tx) => Ok(BCall::Subscribe(*tx)),
        BCall::SubscribeOldest(tx) => Ok(BCall::SubscribeOldest(*tx)),
        BCall::Resubscribe(rx) => Ok(BCall::Resubscribe(*rx)),
        BCall::CloneTx(tx) => Ok(BCall::CloneTx(*tx)),
        BCall::DropTx(tx) => Ok(BCall::DropTx(*tx)),
        BCall::DropRx(rx) => Ok(BCall::DropRx(*rx)),
        BCall::Queued(tx) => Ok(BCall::Queued(*tx)),
        BCall::Left(rx) => Ok(BCall::Left(*rx)),
        BCall::Readers(tx) => Ok(BCall::Readers(*tx)),
    }
}

// How many receivers a reply tells of, where a value was sent.
#[inline(always)]
fn sent_to<T>(reply: &BReply<T>) -> Option<u64>
    ensures sent { IfSome result (λ n. reply.now ≡ Sent n) }
    ensures unsent { IfNone result ((n : ℕ) → reply.now ≢ Sent n) }
{
    match reply {
        BReply::Sent(readers) => Some(*readers),
        _ => None,
    }
}

// A send, with what its log keeps of it. What is sent does not come back in the reply, which is told
// twice without a copy; so the sender is looked up once.
#[inline(always)]
fn noted_send<T: Clone, S: Shelf<T> + Drop>(
    channel: &mut Broadcast<T, S>,
    tx: TxId,
    value: T,
) -> Result<Event<BCall<T>, BReply<T>>, Short<BCall<T>>>
    requires { ClonesAreEqual T.is_clone }
    ensures step { IfOk result (λ e. answer channel.old (Send tx value) ≡ (e.reply, channel.new)) }
    ensures call { IfOk result (λ e. e.call ≡ Send tx value) }
    ensures entry { IfOk result (λ e. e.entry ≡ (Send tx value, e.reply)) }
    ensures short { IfErr result (λ short.
        (short.call ≡ Send tx value) × (channel.new ≡ channel.old)) }
{
    let Ok(kept) = value.clone() else {
        return Err(Short {
            call: BCall::Send(tx, value),
        });
    };
    let Ok(told) = value.clone() else {
        return Err(Short {
            call: BCall::Send(tx, value),
        });
    };
    let reply = match channel.send(tx, value) {
        Ok(reply) => reply,
        Err(short) => return Err(short),
    };
    let Some(readers) = sent_to(&reply) else {
        // Nothing was sent, so nothing has changed, and the reply is the same again.
        return noted(channel, BCall::Send(tx, kept));
    };
    Ok(Event {
        entry: (BCall::Send(tx, kept), BReply::Sent(readers)),
        call: BCall::Send(tx, told),
        reply,
    })
}

impl<T: Clone, S: Shelf<T> + Drop> Object for Broadcast<T, S> {
    ghost use Rattle.th_model.specs.Limits.{ClonesAreEqual};
    ghost use Rattle.th_model.specs.BroadcastMachine.{Endless, IsProper};
    ghost use Rattle.th_model.specs.BroadcastPicture.{IsSound, TakesNoMemory};
    ghost use Rattle.th_log.specs.Machines.{broadcast};
    ghost use Rattle.th_log.specs.MachineLaws.{broadcast-whole, broadcast-step, broadcast-answer, broadcast-spends};

    type Call = BCall<T>;

    type Reply = BReply<T>;

    type State = PictureParts<T>;

    ghost Endless = { Endless T };

    ghost machine = { broadcast };

    ghost is_proper = { IsProper };

    ghost is_sound = { IsSound };

    ghost shows = { λ channel. channel };

    ghost lawful = { ClonesAreEqual T.is_clone };

    ghost takes_none = { TakesNoMemory };

    ghost whole_ok = { broadcast-whole };

    ghost step_ok = { broadcast-step };

    ghost answer_ok = { broadcast-answer };

    ghost spends_ok = { broadcast-spends };

    #[inline(always)]
    fn ready(&self, call: &BCall<T>) -> bool {
        Broadcast::ready(self, call)
    }

    #[inline(always)]
    fn apply(&mut self, call: BCall<T>) -> Result<BReply<T>, Short<BCall<T>>> {
        Broadcast::apply(self, call)
    }

    #[inline(always)]
    fn foresee(&self, call: &BCall<T>) -> Result<BReply<T>, Short<()>> {
        Broadcast::foresee(self, call)
    }

    #[inline(always)]
    fn copy_call(call: &BCall<T>) -> Result<BCall<T>, Short<()>> {
        match copied(call) {
            Ok(copy) => Ok(copy),
            Err(_) => Err(Short { call: () }),
        }
    }

    fn picture(&self, alloc: Global) -> Result<PictureParts<T>, Short<()>> {
        Broadcast::picture(self, alloc)
    }

    fn resume(alloc: Global, state: PictureParts<T>) -> Result<Self, Short<PictureParts<T>>> {
        Broadcast::from_picture(alloc, state)
    }

    #[inline(always)]
    fn live(&self) -> u64 {
        Broadcast::live(self)
    }

    #[inline(always)]
    fn live_after(&self, call: &BCall<T>) -> u64 {
        Broadcast::live_after(self, call)
    }

    #[inline(always)]
    fn closed(&self) -> bool {
        self.sender_count() == 0
    }
}

impl<T: Clone, S: Shelf<T> + Drop> Kind for Broadcast<T, S> {
    ghost use Rattle.std.specs.Prelude.{None, Some, is_some};
    ghost use Rattle.th_model.specs.Handles.{is_sender};
    ghost use Rattle.th_model.specs.Places.{place_of};
    ghost use Rattle.th_model.specs.declared.broadcast.BCall.TheVariants.{CloneTx, DropRx, DropTx, Resubscribe};
    ghost use Rattle.th_model.specs.declared.broadcast.BReply.TheVariants.{Done};
    ghost use Rattle.th_log.specs.Calls.{broadcast_asked, broadcast_by_receiver, broadcast_by_sender, broadcast_handle_of, broadcast_receiver_of, broadcast_sender_of, broadcast_subscribing, broadcast_waits};
    ghost use Rattle.th_log.specs.Replies.{broadcast_ends, broadcast_is_news, broadcast_made_rx, broadcast_made_tx};
    ghost use Rattle.th_log.specs.KindLaws.{broadcast-asked, broadcast-by-receiver, broadcast-by-sender};
    ghost use Rattle.th_log.specs.KindLaws.{receiver-ends, sender-ends, stays};
    ghost use Rattle.th_log.specs.NewsLaws.{broadcast-news};

    type Value = T;

    ghost has_sender = { λ p tx. is_sender p.senders tx.0 };

    ghost has_receiver = { λ p rx. is_some (place_of p.window.places rx.0) };

    ghost waits = { broadcast_waits };

    ghost by_sender = { broadcast_by_sender };

    ghost asked = { broadcast_asked };

    ghost by_receiver = { broadcast_by_receiver };

    ghost subscribing = { broadcast_subscribing };

    ghost resubscribing = { λ rx. Some (Resubscribe rx) };

    ghost cloning = { λ tx. CloneTx tx };

    ghost last_of_sender = { λ tx. DropTx tx };

    ghost last_of_receiver = { λ rx. DropRx rx };

    ghost handle_of = { broadcast_handle_of };

    ghost sender_of = { broadcast_sender_of };

    ghost receiver_of = { broadcast_receiver_of };

    ghost made_tx = { broadcast_made_tx };

    ghost made_rx = { broadcast_made_rx };

    ghost ends = { broadcast_ends };

    ghost is_news = { broadcast_is_news };

    ghost done = { Done };

    ghost by_sender_ok = { broadcast-by-sender T };

    ghost asked_ok = { broadcast-asked T };

    ghost by_receiver_ok = { broadcast-by-receiver T };

    ghost sender_ends_ok = { sender-ends T };

    ghost receiver_ends_ok = { receiver-ends T };

    ghost stays_ok = { stays T };

    ghost news_ok = { broadcast-news T };

    #[inline(always)]
    fn has_sender(&self, tx: TxId) -> bool {
        Broadcast::has_sender(self, tx)
    }

    #[inline(always)]
    fn has_receiver(&self, rx: RxId) -> bool {
        Broadcast::place(self, rx).is_some()
    }

    #[inline(always)]
    fn waits(&self, call: &BCall<T>) -> bool {
        !Broadcast::ready(self, call)
    }

    // A receive tells its reply twice, so that the receiver's place is found once, and a send so that
    // its sender is.
    #[inline(always)]
    fn event(&mut self, call: BCall<T>) -> Result<Event<BCall<T>, BReply<T>>, Short<BCall<T>>> {
        match call {
            BCall::Send(tx, value) => noted_send(self, tx, value),
            BCall::TryRecv(rx) => match self.receive_twice(rx) {
                Ok((reply, again)) => Ok(Event {
                    entry: (BCall::TryRecv(rx), again),
                    call: BCall::TryRecv(rx),
                    reply,
                }),
                Err(_) => Err(Short {
                    call: BCall::TryRecv(rx),
                }),
            },
            BCall::Recv(rx) => match self.receive_twice(rx) {
                Ok((reply, again)) => Ok(Event {
                    entry: (BCall::Recv(rx), again),
                    call: BCall::Recv(rx),
                    reply,
                }),
                Err(_) => Err(Short {
                    call: BCall::Recv(rx),
                }),
            },
            other => noted(self, other),
        }
    }

    #[inline(always)]
    fn by_sender(verb: SenderVerb<T>, tx: TxId) -> Option<BCall<T>>
        ensures { result ≡ broadcast_by_sender verb tx }
    {
        match verb {
            SenderVerb::Send(value) => Some(BCall::Send(tx, value)),
            _ => None,
        }
    }

    #[inline(always)]
    fn asked(question: Question, tx: TxId) -> Option<BCall<T>> {
        match question {
            Question::Queued => Some(BCall::Queued(tx)),
            Question::Readers => Some(BCall::Readers(tx)),
        }
    }

    #[inline(always)]
    fn by_receiver(verb: ReceiverVerb, rx: RxId) -> Option<BCall<T>> {
        match verb {
            ReceiverVerb::TryRecv => Some(BCall::TryRecv(rx)),
            ReceiverVerb::Recv => Some(BCall::Recv(rx)),
            ReceiverVerb::Left => Some(BCall::Left(rx)),
            _ => None,
        }
    }

    fn subscribing(start: Start, tx: TxId) -> Option<BCall<T>> {
        match start {
            Start::Tail => Some(BCall::Subscribe(tx)),
            Start::Oldest => Some(BCall::SubscribeOldest(tx)),
        }
    }

    fn resubscribing(rx: RxId) -> Option<BCall<T>> {
        Some(BCall::Resubscribe(rx))
    }

    fn cloning(tx: TxId) -> BCall<T> {
        BCall::CloneTx(tx)
    }

    fn last_of_sender(tx: TxId) -> BCall<T> {
        BCall::DropTx(tx)
    }

    fn last_of_receiver(rx: RxId) -> BCall<T> {
        BCall::DropRx(rx)
    }

    fn made_tx(reply: &BReply<T>) -> Option<TxId> {
        match reply {
            BReply::NewTx(tx) => Some(*tx),
            _ => None,
        }
    }

    fn made_rx(reply: &BReply<T>) -> Option<RxId> {
        match reply {
            BReply::NewRx(rx) => Some(*rx),
            _ => None,
        }
    }

    fn ends(reply: &BReply<T>) -> bool {
        matches!(reply, BReply::Closed | BReply::NoHandle(_))
    }

    // A receiver waits for a value.
    fn is_news(_call: &BCall<T>, reply: &BReply<T>) -> bool {
        matches!(reply, BReply::Sent(_))
    }
}

impl<T: Clone + PartialEq, S: Shelf<T> + Drop> Compared for Broadcast<T, S> {
    ghost use Rattle.th_model.specs.WatchMachine.{IsExact};

    ghost call_eq = { ⟦<BCall<T> as PartialEq>⟧.eq };

    ghost reply_eq = { ⟦<BReply<T> as PartialEq>⟧.eq };

    ghost exact = { IsExact T.eq };

    fn same_call(one: &BCall<T>, other: &BCall<T>) -> bool {
        *one == *other
    }

    fn same_reply(one: &BReply<T>, other: &BReply<T>) -> bool {
        *one == *other
    }

    fn same_state(one: &PictureParts<T>, other: &PictureParts<T>) -> bool {
        one.is_same(other)
    }

    fn are_exact() {}
}
